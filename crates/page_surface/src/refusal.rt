// Why some polygons are no page.

ghost use Rattle.std.specs.Prelude.{◌≡◌};

use obd_base::{Name, NoMemory};

/// The rules of a page, in the order in which they are tried. The first that fails is named.
#[derive(Debug, Drop)]
pub enum PageRefusal {
    /// There is no polygon.
    NoPolygon,
    /// There are more than 16 polygons: their number.
    TooManyPolygons { count: u32 },
    /// A polygon has no side: the number of the first such polygon.
    EmptyPolygon { polygon: u32 },
    /// There are more than 24 labels: their number.
    TooManyLabels { count: u32 },
    /// A label doesn't occur twice: the first such label by first appearance, and how often it occurs.
    LabelCount { label: Name, count: u32 },
    /// Not all polygons are reached from polygon 0 through labels: how many are, and how many there are.
    NotJoined { reached: u32, all: u32 },
    /// There are more than 8 arcs: their number, which is the labels less the polygons plus 1.
    TooManyArcs { arcs: u32 },
    /// There is no arc, so the page is a disk.
    DiskPage,
    /// Memory is wanting.
    NoMemory,
}

impl From<NoMemory> for PageRefusal {
    ghost use Rattle.page_surface.specs.declared.refusal.PageRefusal.TheVariants as refused;

    ghost from_gives = { λ _ refusal. refusal ≡ refused.NoMemory };

    fn from(_: NoMemory) -> Self {
        PageRefusal::NoMemory
    }
}
