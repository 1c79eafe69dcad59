// A verdict that anybody may have written, held to its rules.
ghost use Rattle.std.specs.Prelude.{◌≡◌, ◌-◌, ◌<◌, ◌≤◌, ◌*◌, ◌&&◌, ◌∷◌, [], length, map, IfOk};
ghost use Rattle.std.specs.List.{list_all};
ghost use Rattle.obd_base.specs.Lists.{has};
ghost use Rattle.mod2_rank.specs.Ascending.{AllAscend};
ghost use Rattle.mod2_rank.specs.Linear.{Ascends, columns_at, meets_evenly, same_list, sum_of};
ghost use Rattle.mod2_rank.specs.PivotLines.{ascend_between, verdict_line_passes};
ghost use Rattle.mod2_rank.specs.Rows.{plus};
ghost use Rattle.mod2_rank.specs.RowWords.{row_in};

use crate::outcome::Verdict;
use crate::row_set::RowSet;
use crate::written::is_odd_in;
use obd_base::{Column, NoMemory};
use std::alloc::Global;

// Whether the numbers ascend below a bound.
fn do_ascend(numbers: &[u32], high: usize) -> bool
    ensures { result ≡ ascend_between 0 high numbers.now }
{
    let mut low = 0;
    for number in numbers {
        let number = *number as usize;
        if number < low || number >= high {
            return false;
        }
        low = number + 1;
    }
    true
}

// Adds the columns of these numbers, which ascend.
fn add_columns(sum: &mut RowSet, columns: &[Column], rows: u32, numbers: &[u32])
    requires room { rows ≤ length sum.old * 64 }
    requires ascend { AllAscend rows (map (λ column. column.rows) columns.now) }
    requires numbers { Ascends 0 (length columns.now) numbers.now }
    ensures room { length sum.new ≡ length sum.old }
    ensures rows { row_in sum.new ≡ plus (row_in sum.old) (has (sum_of rows (columns_at (map (λ column. column.rows) columns.now) numbers.now))) }
{
    for number in numbers {
        sum.add(columns[*number as usize].rows.as_slice());
    }
}

// Whether the columns of these numbers, which are to ascend, have the contact row alone as sum.
fn is_chain(alloc: Global, columns: &[Column], rows: u32, chain: &[u32]) -> Result<bool, NoMemory>
    requires some { 0 < rows }
    requires ascend { AllAscend rows (map (λ column. column.rows) columns.now) }
    ensures { IfOk result (λ yes. yes ≡ (ascend_between 0 (length columns.now) chain.now && same_list (sum_of rows (columns_at (map (λ column. column.rows) columns.now) chain.now)) ((rows - 1) ∷ []))) }
{
    if !do_ascend(chain, columns.len()) {
        return Ok(false);
    }
    let mut sum = RowSet::new(alloc, rows)?;
    add_columns(&mut sum, columns, rows, chain);
    sum.toggle(rows - 1);
    Ok(sum.least_from(0).is_none())
}

// Whether each column has an even number of rows in the set.
fn all_even(set: &RowSet, columns: &[Column], rows: u32, functional: &[u32]) -> bool
    requires room { rows ≤ length set.now * 64 }
    requires ascend { AllAscend rows (map (λ column. column.rows) columns.now) }
    requires set { row_in set.now ≡ has functional.now }
    ensures { result ≡ list_all (meets_evenly functional.now) (map (λ column. column.rows) columns.now) }
{
    for column in columns {
        if is_odd_in(set, column.rows.as_slice()) {
            return false;
        }
    }
    true
}

// Whether the rows, which are to ascend, hold the contact row and meet every column evenly.
fn is_functional(
    alloc: Global,
    columns: &[Column],
    rows: u32,
    functional: &[u32],
) -> Result<bool, NoMemory>
    requires some { 0 < rows }
    requires ascend { AllAscend rows (map (λ column. column.rows) columns.now) }
    ensures { IfOk result (λ yes. yes ≡ (ascend_between 0 rows functional.now && (has functional.now (rows - 1) && list_all (meets_evenly functional.now) (map (λ column. column.rows) columns.now)))) }
{
    if !do_ascend(functional, rows as usize) {
        return Ok(false);
    }
    let mut set = RowSet::new(alloc, rows)?;
    set.add(functional);
    if !set.has(rows - 1) {
        return Ok(false);
    }
    Ok(all_even(&set, columns, rows, functional))
}

/// Whether a verdict on the contact row, which is the last one, is right for columns over so many rows, whoever wrote it.
/// A chain is right where its numbers ascend and are numbers of columns, and the sum of these columns is the contact row
/// alone. A functional is right where its numbers ascend and are rows, the contact row is one of them, and every column has
/// an even number of them.
///
/// Refuses only for want of memory. Linear in the numbers of the verdict, the entries of the columns that it names (of all
/// columns, for a functional) and `rows / 64`. Memory: a bit for each row.
pub fn is_verdict(
    alloc: Global,
    columns: &[Column],
    rows: u32,
    verdict: &Verdict,
) -> Result<bool, NoMemory>
    requires some { 0 < rows }
    requires ascend { AllAscend rows (map (λ column. column.rows) columns.now) }
    ensures { IfOk result (λ yes. yes ≡ verdict_line_passes rows (map (λ column. column.rows) columns.now) verdict.now) }
{
    match verdict {
        Verdict::Chain(chain) => is_chain(alloc, columns, rows, chain.as_slice()),
        Verdict::Functional(functional) => {
            is_functional(alloc, columns, rows, functional.as_slice())
        }
    }
}
