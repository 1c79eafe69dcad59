// For each set of strands whether the arcs that are left can be given different strands outside of it.
ghost use Rattle.std.specs.Prelude.{◌≡◌, ℕ, ◌<◌, List, [], ◌∷◌, length, IfOk};
ghost use Rattle.std.specs.List.{All, list_any};
ghost use Rattle.obd_base.specs.Lists.{below};
ghost use Rattle.generator_list.specs.Search.{is_choice, open_row, open_rows};

use crate::strand_sets::{is_in_set, set_of, set_with};
use obd_base::{Items, NoMemory, StrandNo};
use std::alloc::Global;

// Whether a strand is among some, isn't used, and with it the row of the arcs after still says yes.
fn is_choice(strands: u8, next: &[bool], used: u8, strand: StrandNo) -> bool
    requires strand { strand < 8 }
    requires next { length next.now ≡ 256 }
    ensures { result ≡ is_choice strands next.now used strand }
{
    is_in_set(strands, strand) && !is_in_set(used, strand) && next[set_with(used, strand) as usize]
}

// Whether some strand is such a choice.
fn can_choose(strands: u8, next: &[bool], used: u8) -> bool
    requires { length next.now ≡ 256 }
    ensures { result ≡ list_any (is_choice strands next.now used) (below 8) }
{
    for strand in 0..8 {
        if is_choice(strands, next, used, StrandNo::new(strand)) {
            return true;
        }
    }
    false
}

// The row where no arc is left.
fn last_row(alloc: Global) -> Result<Items<bool>, NoMemory>
    ensures { IfOk result (λ row. row ≡ open_row []) }
{
    Ok(Items::from_vec(vec![in alloc; true; 256]?))
}

// The row of an arc with those after it, from the row of those after it.
fn row_before(alloc: Global, strands: &[StrandNo], next: &[bool]) -> Result<Items<bool>, NoMemory>
    requires strands { All (λ strand. strand < 8) strands.now }
    requires next { length next.now ≡ 256 }
    ensures { IfOk result (λ row. (rest : List (List ℕ)) → next.now ≡ open_row rest → row ≡ open_row (strands.now ∷ rest)) }
{
    let met = set_of(strands);
    let mut row = Items::new(alloc);
    for set in 0..256u32 {
        row.push(can_choose(met, next, set as u8))?;
    }
    Ok(row)
}

// The rows of the last arcs, of none of them first. One row takes 256 times 8 steps.
pub(crate) fn open_rows(
    alloc: Global,
    arcs: &[Items<StrandNo>],
) -> Result<Items<Items<bool>>, NoMemory>
    requires { All (All (λ strand. strand < 8)) arcs.now }
    ensures { IfOk result (λ rows. rows ≡ open_rows arcs.now) }
{
    let mut rows = Items::new(alloc);
    rows.push(last_row(alloc)?)?;
    for arc in (0..arcs.len()).rev() {
        let row = row_before(
            alloc,
            arcs[arc].as_slice(),
            rows.item(rows.len() - 1).as_slice(),
        )?;
        rows.push(row)?;
    }
    Ok(rows)
}
