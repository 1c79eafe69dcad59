// The rows of a step, and whether it is fresh.
ghost use Rattle.std.specs.Prelude.{◌≡◌, ℕ, ◌+◌, ◌<◌, ◌^◌, length, not, slice_index, suc, OnOk};
ghost use Rattle.std.specs.List.{list_all};
ghost use Rattle.obd_base.specs.Lists.{Mem, below};
ghost use Rattle.empty_domains.specs.Sweep.{starts};
ghost use Rattle.empty_domains.specs.Walk.{is_last};

use crate::strip::Step;
use crate::tables::Tables;
use obd_base::NoMemory;

// Tells where so many rows from a number on begin, in the place of what the list held.
pub(crate) fn row_starts(
    tables: &Tables,
    start: u32,
    count: u32,
    rows: &mut Vec<u32>,
) -> Result<(), NoMemory>
    requires { start < length tables.now.other }
    ensures { OnOk result (rows.new.items ≡ starts (λ x. slice_index tables.now.other x) (λ x. slice_index tables.now.opposite x) start count) }
{
    rows.clear();
    let mut at = start;
    let mut row: u32 = 0;
    while row < count {
        rows.push(at)?;
        at = tables.opposite(tables.other(at));
        row += 1;
    }
    Ok(())
}

// Whether a row is the last one of a step: its far edge starts at the stop, or, for a bigon, it is the near edge.
fn is_last(step: Step, at: u32, far: u32) -> bool
    ensures { result ≡ is_last step.by at far }
{
    if step.arc == step.second {
        far == at
    } else {
        far == step.stop
    }
}

// Whether none of the rows before the step's own is the last one.
pub(crate) fn is_fresh(tables: &Tables, step: Step, rows: &[u32]) -> bool
    requires count { length rows.now ≡ suc step.steps }
    requires inside { (at : ℕ) → Mem at rows.now → at + step.by.width < length tables.now.other }
    requires few { length tables.now.other < 2 ^ 30 }
    ensures { result ≡ list_all (λ m. not (is_last step.by (slice_index rows.now m) (slice_index tables.now.other (slice_index rows.now m + step.by.width)))) (below step.steps) }
{
    let width = step.width;
    for row in 0..step.row {
        let at = rows[row as usize];
        if is_last(step, at, tables.other(at + width)) {
            return false;
        }
    }
    true
}
