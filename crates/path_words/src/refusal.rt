// Why a power of a twist is not carried out.

ghost use Rattle.std.specs.Prelude.{◌≡◌};

use obd_base::NoMemory;

/// Why a power of a twist is not carried out on some words.
#[derive(Clone, Copy, Debug, PartialEq, Eq)]
pub enum TwistRefusal {
    /// After some single twist the words have more than 4,000 letters together: how many they have.
    TooLong { letters: u64 },
    /// Memory is wanting.
    NoMemory,
}

impl From<NoMemory> for TwistRefusal {
    ghost use Rattle.path_words.specs.declared.refusal.TwistRefusal.TheVariants as refused;

    ghost from_gives = { λ _ refusal. refusal ≡ refused.NoMemory };

    fn from(_: NoMemory) -> Self {
        TwistRefusal::NoMemory
    }
}
