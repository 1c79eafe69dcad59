// Why some strands are no drawing.

ghost use Rattle.std.specs.Prelude.{◌≡◌};

use obd_base::NoMemory;

/// The rules of a drawing, in the order in which they are tried. The first that fails is named.
#[derive(Debug, Drop)]
pub enum DrawRefusal {
    /// The exits and entries of a side aren't numbered from 0, each once: the first such side.
    PlaceWrong { side: u32 },
    /// All places are right, and two chords cross.
    Crosses,
    /// The drawing is embedded, and not all pieces are reached from the piece of gap 0 through glued segments: how
    /// many are, and how many there are. Every embedded drawing is cut, so this never comes.
    NotCut { reached: u32, all: u32 },
    /// Memory is wanting.
    NoMemory,
}

impl From<NoMemory> for DrawRefusal {
    ghost use Rattle.drawing.specs.declared.refusal.DrawRefusal.TheVariants as refused;

    ghost from_gives = { λ _ refusal. refusal ≡ refused.NoMemory };

    fn from(_: NoMemory) -> Self {
        DrawRefusal::NoMemory
    }
}
