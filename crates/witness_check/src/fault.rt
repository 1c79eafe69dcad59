// Rules that aren't kept.
ghost use Rattle.std.specs.Prelude.{◌≡◌, ◌+◌, ◌<◌, ◌^◌};
ghost use Rattle.witness_check.specs.declared.fault.Fault.{Fault as Broken};
ghost use Rattle.witness_check.specs.declared.fault.Refusal.TheVariants.{Bad as badly, NoMemory as no_memory};

use crate::checked::Reason;
use obd_base::NoMemory;

/// The first of some lines with a rule that isn't kept, counted from 0 among them, and its first such rule.
#[derive(Clone, Copy, Debug, PartialEq, Eq)]
pub(crate) struct Fault {
    pub(crate) at: u32,
    pub(crate) reason: Reason,
}

/// Why some lines aren't passed.
#[derive(Clone, Copy, Debug, PartialEq, Eq)]
pub(crate) enum Stop {
    /// A rule isn't kept.
    Fault(Fault),
    /// Memory is wanting.
    NoMemory,
}

impl From<NoMemory> for Stop {
    ghost use Rattle.witness_check.specs.declared.fault.Stop.TheVariants as stop;

    ghost from_gives = { λ _ reason. reason ≡ stop.NoMemory };

    fn from(_: NoMemory) -> Self {
        Stop::NoMemory
    }
}

/// Why a text isn't passed.
#[derive(Clone, Copy, Debug, PartialEq, Eq)]
pub(crate) enum Refusal {
    /// The first bad line, counted from 1, and why.
    Bad { line: u32, reason: Reason },
    /// Memory is wanting.
    NoMemory,
}

impl From<NoMemory> for Refusal {
    ghost use Rattle.witness_check.specs.declared.fault.Refusal.TheVariants as refused;

    ghost from_gives = { λ _ reason. reason ≡ refused.NoMemory };

    fn from(_: NoMemory) -> Self {
        Refusal::NoMemory
    }
}

/// The refusal of a text, where the lines that were tried begin at this number. A text has fewer than 2^32 lines, so that the sum
/// is a line's number.
pub(crate) fn refusal_at(first: u32, stop: Stop) -> Refusal
    ensures fault { (fault : Broken) → stop ≡ Stop.Fault fault → first + fault.at < 2 ^ 32 → result ≡ badly (first + fault.at) fault.reason }
    ensures memory { stop ≡ Stop.NoMemory → result ≡ no_memory }
{
    match stop {
        Stop::Fault(fault) => Refusal::Bad {
            line: first.saturating_add(fault.at),
            reason: fault.reason,
        },
        Stop::NoMemory => Refusal::NoMemory,
    }
}
