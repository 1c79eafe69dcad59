// Rows that were read and tried.
ghost use Rattle.std.specs.Prelude.{◌≡◌, None, Ok, IfErr, IfOk};
ghost use Rattle.witness_check.specs.Settling.{Broken, Settles};

use crate::checked::Reason;
use crate::fault::{Fault, Refusal, Stop, refusal_at};

// The refusal of rows before a line that lacks its form, by their first fault, where the rows begin at this line.
#[tactic(auto, using(crate::proofs::Settled::settled_well))]
pub(crate) fn broken_off(first: u32, fault: Option<Fault>, line: u32) -> Refusal
    ensures { Broken first fault line result }
{
    match fault {
        Some(fault) => refusal_at(first, Stop::Fault(fault)),
        None => Refusal::Bad {
            line,
            reason: Reason::Form,
        },
    }
}

// What came of trying rows, where these are all that were wanted: the rows begin at this line, and a fault among them comes before the
// line that lacks its form.
pub(crate) fn settled<T: Drop>(
    first: u32,
    tried: Result<T, Stop>,
    breaks: Option<u32>,
) -> Result<T, Refusal>
    ensures made { IfOk result (λ made. (tried ≡ Ok made) × (breaks ≡ None)) }
    ensures refused { IfErr result (Settles first tried breaks) }
{
    match tried {
        Err(stop) => Err(refusal_at(first, stop)),
        Ok(made) => match breaks {
            None => Ok(made),
            Some(line) => Err(Refusal::Bad {
                line,
                reason: Reason::Form,
            }),
        },
    }
}
