// Why a slide is not carried out.
ghost use Rattle.std.specs.Prelude.{◌≡◌};

use obd_base::{NoMemory, SideNo};

/// Why a slide is not carried out. The rules are tried in this order, and the first that fails is named.
#[derive(Clone, Copy, Debug, PartialEq, Eq)]
pub enum SlideRefusal {
    /// The polygon has no side of this number.
    NoSuchSide,
    /// The next side is the partner of the side.
    SelfSlide,
    /// A curve has more than 32 crossings afterwards: the first such curve by its number in the list, counted from 0,
    /// and how many crossings it has.
    SlideCrossings { curve: u64, count: u32 },
    /// Memory is wanting.
    NoMemory,
}

impl From<NoMemory> for SlideRefusal {
    ghost use Rattle.handle_slide.specs.declared.refusal.SlideRefusal.TheVariants as refused;

    ghost from_gives = { λ _ refusal. refusal ≡ refused.NoMemory };

    fn from(_: NoMemory) -> Self {
        SlideRefusal::NoMemory
    }
}

/// A slide of a list that is not carried out: its number in the list, counted from 0, its side, and why.
#[derive(Clone, Copy, Debug, PartialEq, Eq)]
pub struct RefusedSlide {
    pub slide: u64,
    pub side: SideNo,
    pub reason: SlideRefusal,
}
