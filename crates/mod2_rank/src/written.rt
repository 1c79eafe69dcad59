// The written chain and the written functional, each by one walk over what the elimination found.
ghost use Rattle.std.specs.Prelude.{◌≡◌, ◌-◌, ◌<◌, ◌≤◌, ◌*◌, ◌^◌, length, All, map, count_by, IfOk};
ghost use Rattle.obd_base.specs.Lists.{is_odd};
ghost use Rattle.mod2_rank.specs.Reduction.{AreEarly, IsPivotTable, entry_of, list_of};
ghost use Rattle.mod2_rank.specs.RowWords.{row_in};
ghost use Rattle.mod2_rank.specs.Written.{chain_of, decides, functional_of, verdict_of};

use crate::blocks::Blocks;
use crate::outcome::{Pivot, Verdict};
use crate::row_set::RowSet;
use obd_base::{Items, NoMemory};
use std::alloc::Global;

// Whether an odd number of the rows are in the set.
pub(crate) fn is_odd_in(set: &RowSet, rows: &[u32]) -> bool
    requires { All (λ row. row < length set.now * 64) rows.now }
    ensures { result ≡ is_odd (count_by (row_in set.now) rows.now) }
{
    let mut odd = false;
    for row in rows {
        odd = odd != set.has(*row);
    }
    odd
}

// Whether the functional has a row, by those above that it has.
fn is_held(set: &RowSet, reduced: &Blocks, pivot_of: &[Option<u32>], row: u32) -> bool
    requires row { row < length pivot_of.now }
    requires few { length pivot_of.now < 2 ^ 32 }
    requires room { length pivot_of.now ≤ length set.now * 64 }
    requires table { IsPivotTable (length pivot_of.now) reduced.now.lists pivot_of.now }
    ensures { result ≡ decides (entry_of pivot_of.now) (list_of reduced.now.lists) (length pivot_of.now - 1) (row_in set.now) row }
{
    match pivot_of[row as usize] {
        Some(pivot) => is_odd_in(set, reduced.list(pivot as usize)),
        None => row as usize == pivot_of.len() - 1,
    }
}

// The functional, from the last row to the first. Linear in the rows and in the entries of the reduced columns.
fn functional(
    alloc: Global,
    reduced: &Blocks,
    pivot_of: &[Option<u32>],
) -> Result<Items<u32>, NoMemory>
    requires few { length pivot_of.now < 2 ^ 32 }
    requires table { IsPivotTable (length pivot_of.now) reduced.now.lists pivot_of.now }
    ensures { IfOk result (λ functional. functional ≡ functional_of reduced.now.lists pivot_of.now) }
{
    let rows = pivot_of.len() as u32;
    let mut set = RowSet::new(alloc, rows)?;
    let mut found = Vec::new(alloc);
    let mut row = rows;
    while row > 0 {
        row -= 1;
        if is_held(&set, reduced, pivot_of, row) {
            found.push(row)?;
            set.toggle(row);
        }
    }
    found.reverse();
    Ok(Items::from_vec(found))
}

// The chain of a pivot, from the last pivot to the first. Linear in the pivots and in those that were added.
fn chain(alloc: Global, pivots: &[Pivot], added: &Blocks, last: u32) -> Result<Items<u32>, NoMemory>
    requires few { length pivots.now < 2 ^ 32 }
    requires last { last < length pivots.now }
    requires whole { length added.now.lists ≡ length pivots.now }
    requires early { AreEarly added.now.lists }
    ensures { IfOk result (λ chain. chain ≡ chain_of (length pivots.now) (map (λ pivot. pivot.column) pivots.now) added.now.lists last) }
{
    let mut flags = RowSet::new(alloc, pivots.len() as u32)?;
    flags.toggle(last);
    let mut found = Vec::new(alloc);
    let mut pivot = pivots.len();
    while pivot > 0 {
        pivot -= 1;
        if flags.has(pivot as u32) {
            found.push(pivots[pivot].column)?;
            flags.add(added.list(pivot));
        }
    }
    found.reverse();
    Ok(Items::from_vec(found))
}

// What is said of the contact row, which is the last: the chain of its pivot, or the functional where it has none.
// Linear in the rows, the pivots, and the entries of the reduced columns or the pivots that were added.
pub(crate) fn verdict(
    alloc: Global,
    pivots: &[Pivot],
    reduced: &Blocks,
    added: &Blocks,
    pivot_of: &[Option<u32>],
) -> Result<Verdict, NoMemory>
    requires some { 0 < length pivot_of.now }
    requires few { length pivot_of.now < 2 ^ 32 }
    requires few_pivots { length pivots.now < 2 ^ 32 }
    requires reduced { length reduced.now.lists ≡ length pivots.now }
    requires added { length added.now.lists ≡ length pivots.now }
    requires early { AreEarly added.now.lists }
    requires table { IsPivotTable (length pivot_of.now) reduced.now.lists pivot_of.now }
    ensures { IfOk result (λ verdict. verdict ≡ verdict_of (map (λ pivot. pivot.column) pivots.now) reduced.now.lists added.now.lists pivot_of.now) }
{
    if let Some(last) = pivot_of[pivot_of.len() - 1] {
        Ok(Verdict::Chain(chain(alloc, pivots, added, last)?))
    } else {
        Ok(Verdict::Functional(functional(alloc, reduced, pivot_of)?))
    }
}
