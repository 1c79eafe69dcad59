// Why the generators of a drawing aren't listed.

ghost use Rattle.std.specs.Prelude.{◌≡◌};

use obd_base::NoMemory;

/// Why the generators of a drawing aren't listed.
#[derive(Debug, Drop)]
pub enum ListRefusal {
    /// There are more generators than the limit: the limit and one.
    GeneratorLimit { over: u32 },
    /// Memory is wanting.
    NoMemory,
}

impl From<NoMemory> for ListRefusal {
    ghost use Rattle.generator_list.specs.declared.refusal.ListRefusal.TheVariants as refused;

    ghost from_gives = { λ _ refusal. refusal ≡ refused.NoMemory };

    fn from(_: NoMemory) -> Self {
        ListRefusal::NoMemory
    }
}
