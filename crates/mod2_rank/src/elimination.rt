// The elimination of columns modulo two, from the first column to the last.
ghost use Rattle.std.specs.Prelude.{ℕ, ◌<◌, ◌^◌, length, map, IfOk};
ghost use Rattle.mod2_rank.specs.Ascending.{AllAscend};
ghost use Rattle.mod2_rank.specs.Linear.{IsOutcomeOf};

use crate::blocks::Blocks;
use crate::one_column::{reduce, take_rows};
use crate::outcome::{Outcome, Pivot};
use crate::row_set::RowSet;
use crate::written::verdict;
use obd_base::{Column, Items, NoMemory};
use std::alloc::Global;

/// The elimination of columns over so many rows, from left to right. To a column the reduced columns of earlier pivots
/// are added while its least row is the row of one of them. What is left, if anything, is a new pivot's reduced column:
/// the pivot has the column's number, and as row the least row that is left. The pivots come in the order of their
/// columns, and the rank is their number. The contact row is the last row. Where it is the row of a pivot, the verdict is
/// the one chain of pivot columns whose sum is the contact row alone, ascending; else it is the one functional that holds
/// no other row than pivot rows and the contact row, ascending.
///
/// Refuses only for want of memory. An addition takes constant time for each row of the reduced column that is added,
/// and the least row that is left is found in constant time, but for one pass over `rows / 4096` words a column. So the
/// cost is linear in the rows added, the rows of the columns and of the reduced columns, `rows`, and `columns * rows / 4096`;
/// at worst it is `columns * pivots * rows`. Memory: the reduced columns, a number for each addition that led to a pivot, and for each
/// row an entry of the table of pivots and two bits.
///
/// The order, the chain and the functional are this project's own. Its form is the standard reduction of persistent homology
/// with the least row for the greatest (Bauer, Kerber, Reininghaus and Wagner, PHAT, 2017).
pub fn eliminate(alloc: Global, columns: &[Column], rows: u32) -> Result<Outcome, NoMemory>
    requires some { 0 < rows }
    requires few { length columns.now < 2 ^ 32 }
    requires ascend { AllAscend rows (map (λ column. column.rows) columns.now) }
    ensures { IfOk result (IsOutcomeOf rows (map (λ column. column.rows) columns.now)) }
{
    let mut left = RowSet::new(alloc, rows)?;
    let mut reduced = Blocks::new(alloc);
    let mut added = Blocks::new(alloc);
    let mut pivot_of = vec![in alloc; None; rows as usize]?;
    let mut pivots = Vec::new(alloc);
    for (number, column) in columns.iter().enumerate() {
        let rows_of = column.rows.as_slice();
        let table = pivot_of.as_slice();
        let Some(row) = reduce(&mut left, rows_of, &reduced, table, &mut added)? else {
            added.restart();
            continue;
        };
        take_rows(&mut left, rows, row, &mut reduced)?;
        reduced.close()?;
        added.close()?;
        pivot_of[row as usize] = Some(pivots.as_slice().len() as u32);
        pivots.push(Pivot {
            column: number as u32,
            row,
        })?;
    }
    let found = pivots.as_slice();
    let rank = found.len() as u32;
    let verdict = verdict(alloc, found, &reduced, &added, pivot_of.as_slice())?;
    Ok(Outcome {
        pivots: Items::from_vec(pivots),
        rank,
        verdict,
    })
}
