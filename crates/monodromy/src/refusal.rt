// Why a twist word is not drawn.
ghost use Rattle.std.specs.Prelude.{◌≡◌};

use curve_paths::TooLong;
use obd_base::NoMemory;

/// Why a twist word is not drawn.
#[derive(Clone, Copy, Debug, PartialEq, Eq)]
pub enum MonodromyRefusal {
    /// After some single twist the words of all strands have more than 4,000 letters together.
    TooLong(TooLong),
    /// Memory is wanting.
    NoMemory,
}

impl From<NoMemory> for MonodromyRefusal {
    ghost use Rattle.monodromy.specs.declared.refusal.MonodromyRefusal.TheVariants as refused;

    ghost from_gives = { λ _ reason. reason ≡ refused.NoMemory };

    fn from(_: NoMemory) -> Self {
        MonodromyRefusal::NoMemory
    }
}
