// Why a path is no curve on a page.

ghost use Rattle.std.specs.Prelude.{◌≡◌};

use obd_base::{Name, NoMemory};

/// The rules of a curve on a page, in the order in which they are tried. The first that fails is named.
#[derive(Debug, Drop)]
pub enum CurveRefusal {
    /// There is no crossing.
    EmptyPath,
    /// A crossing names no label of the page: the first such crossing.
    UnknownLabel { at: u32 },
    /// There are more than 32 crossings: their number.
    TooManyCrossings { count: u32 },
    /// The places of a label aren't 0 up to the number of its points less 1, each once: the first such label
    /// by first appearance on the page.
    PlaceWrong { label: Name },
    /// The two ends of a chord lie on two polygons: the first such chord.
    NotAdjacent { at: u32 },
    /// Two chords cross: the pair with the least first number, and among these the least second.
    Crosses { first: u32, second: u32 },
    /// Memory is wanting.
    NoMemory,
}

impl From<NoMemory> for CurveRefusal {
    ghost use Rattle.curve_paths.specs.declared.refusal.CurveRefusal.TheVariants as refused;

    ghost from_gives = { λ _ refusal. refusal ≡ refused.NoMemory };

    fn from(_: NoMemory) -> Self {
        CurveRefusal::NoMemory
    }
}
