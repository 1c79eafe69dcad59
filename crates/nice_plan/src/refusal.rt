// Why a drawing isn't made nice.

use obd_base::NoMemory;
use std::alloc::AllocError;

/// Why a drawing isn't made nice.
#[derive(Clone, Copy, Debug, PartialEq, Eq)]
pub enum PlanRefusal {
    /// The strategy takes more fingers than the limit: the limit, and the weight that is left after the bursts that fit
    /// whole, which isn't 0.
    MoveBudget { limit: u32, weight: u64 },
    /// Memory is wanting.
    NoMemory,
}

impl From<NoMemory> for PlanRefusal {
    ghost use Rattle.std.specs.Prelude.{◌≡◌};
    ghost use Rattle.nice_plan.specs.declared.refusal.PlanRefusal.TheVariants as refused;

    ghost from_gives = { λ _ refusal. refusal ≡ refused.NoMemory };

    fn from(_: NoMemory) -> Self {
        PlanRefusal::NoMemory
    }
}

impl From<AllocError> for PlanRefusal {
    ghost use Rattle.std.specs.Prelude.{◌≡◌};
    ghost use Rattle.nice_plan.specs.declared.refusal.PlanRefusal.TheVariants as refused;

    ghost from_gives = { λ _ refusal. refusal ≡ refused.NoMemory };

    fn from(_: AllocError) -> Self {
        PlanRefusal::NoMemory
    }
}
