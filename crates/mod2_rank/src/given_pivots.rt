// Pivots that anybody may have written, held to their rules one after another, and what they leave of columns.
ghost use Rattle.std.specs.Prelude.{◌≡◌, ℕ, ◌+◌, ◌<◌, ◌≤◌, ◌*◌, ◌^◌, ◌++◌, ◌&&◌, ◌∷◌, List, [], nat_le, nat_lt, true, false, length, map, All, is_some, IfOk, IfErr, IfSome, OnOk};
ghost use Rattle.std.specs.List.{list_all};
ghost use Rattle.obd_base.specs.Lists.{has};
ghost use Rattle.mod2_rank.specs.Ascending.{AllAscend};
ghost use Rattle.mod2_rank.specs.GivenPivots.{IsFirstBad, PassUpTo, calls};
ghost use Rattle.mod2_rank.specs.Linear.{Ascends, is_empty};
ghost use Rattle.mod2_rank.specs.PivotLines.{pivot_line_passes};
ghost use Rattle.mod2_rank.specs.PivotRules.{reduced_by, reducer, reducers};
ghost use Rattle.mod2_rank.specs.Rows.{none, odd_times, plus};
ghost use Rattle.mod2_rank.specs.RowWords.{row_in};

use crate::blocks::Blocks;
use crate::one_column::take_rows;
use crate::outcome::Pivot;
use crate::row_set::RowSet;
use obd_base::{Column, NoMemory};
use std::alloc::Global;
use std::marker::Model;

/// Why given pivots make no reducers.
#[derive(Clone, Copy, Debug, PartialEq, Eq)]
pub enum PivotRefusal {
    /// The pivot with this number, from 0, is the first that doesn't pass.
    Bad { at: u32 },
    /// Memory is wanting.
    NoMemory,
}

impl From<NoMemory> for PivotRefusal {
    ghost use Rattle.std.specs.Prelude.{◌≡◌};
    ghost use Rattle.mod2_rank.specs.declared.given_pivots.PivotRefusal.TheVariants as refused;

    ghost from_gives = { λ _ refusal. refusal ≡ refused.NoMemory };

    fn from(_: NoMemory) -> Self {
        PivotRefusal::NoMemory
    }
}

// Whether a pivot has a column from the least on that it may have, and a row.
fn is_in_range(pivot: Pivot, low: u32, columns: usize, rows: u32) -> bool
    ensures { result ≡ (nat_le low pivot.column && (nat_lt pivot.column columns && nat_lt pivot.row rows)) }
{
    low <= pivot.column && (pivot.column as usize) < columns && pivot.row < rows
}

/// Given pivots that pass, with their reduced columns. Contracts see the number of rows, and the reducers in order: each
/// is a pivot's row with the column that is left of the pivot's own by those before.
#[derive(Drop)]
pub struct Reducers {
    columns: Blocks,
    pivot_rows: Vec<u32>,
    pivot_of: Vec<Option<u32>>,
}

impl Model for Reducers {
    ghost use Rattle.std.specs.Prelude.{◌≡◌, ◌<◌, ◌^◌, [], length};
    ghost use Rattle.mod2_rank.specs.GivenPivots.{AreEchelon, IsRowTable, Reducing, paired};

    ghost Value = { Reducing };

    ghost view = { λ r. record { rows = length r.pivot_of.items; list = paired r.pivot_rows.items r.columns.lists } };

    ghost invariant = { λ r. record {
      few_rows : length r.pivot_of.items < 2 ^ 32;
      few : length r.pivot_rows.items < 2 ^ 32;
      whole : length r.columns.lists ≡ length r.pivot_rows.items;
      fresh : r.columns.growing ≡ [];
      echelon : AreEchelon (length r.pivot_of.items) (paired r.pivot_rows.items r.columns.lists);
      table : IsRowTable (paired r.pivot_rows.items r.columns.lists) r.pivot_of.items;
    } };
}

impl Reducers {
    /// Given pivots with their reduced columns, for columns over so many rows. The columns of the pivots are reduced one
    /// after another, each by the reduced columns before it. A pivot passes where its column is a column, after that of the
    /// pivot before, and its row is a row that its reduced column has; it needn't be the least one.
    ///
    /// Refuses with `Bad` at the first pivot that doesn't pass, and for want of memory. No column is tried against every
    /// pivot: an addition takes constant time for each row of the reduced column that is added. So the cost is linear in
    /// the rows added, the rows of the pivots' columns and of the reduced columns, `rows`, and for each pivot
    /// `(rows + pivots) / 4096`. Memory: the reduced columns, and a few words for each row and pivot.
    pub fn of(
        alloc: Global,
        columns: &[Column],
        rows: u32,
        pivots: &[Pivot],
    ) -> Result<Reducers, PivotRefusal>
        requires few { length columns.now < 2 ^ 32 }
        requires few_pivots { length pivots.now < 2 ^ 32 }
        requires ascend { AllAscend rows (map (λ column. column.rows) columns.now) }
        ensures value { IfOk result (λ made. made ≡ record { rows = rows; list = reducers rows (map (λ column. column.rows) columns.now) [] pivots.now }) }
        ensures passes { OnOk result (PassUpTo rows (map (λ column. column.rows) columns.now) pivots.now (length pivots.now)) }
        ensures bad { IfErr result (λ refusal. (at : ℕ) → refusal ≡ PivotRefusal.Bad at → IsFirstBad rows (map (λ column. column.rows) columns.now) pivots.now at) }
    {
        let mut left = RowSet::new(alloc, rows)?;
        let mut called = RowSet::new(alloc, pivots.len() as u32)?;
        let mut made = Reducers::none(alloc, rows)?;
        let mut low = 0;
        for (number, pivot) in pivots.iter().enumerate() {
            let Some(next) = made.with_pivot(&mut left, &mut called, columns, low, *pivot)? else {
                return Err(PivotRefusal::Bad { at: number as u32 });
            };
            made = next;
            low = pivot.column + 1;
        }
        Ok(made)
    }

    /// Whether every column reduces to nothing, by each pivot in order.
    ///
    /// Refuses only for want of memory. The cost is linear in the rows added, the rows of the columns, and for each column
    /// `(rows + pivots) / 4096`. Memory: two bits for each row and each pivot.
    pub fn reduce_all(&self, alloc: Global, columns: &[Column]) -> Result<bool, NoMemory>
        requires ascend { AllAscend self.now.rows (map (λ column. column.rows) columns.now) }
        ensures { IfOk result (λ yes. yes ≡ list_all (λ c. is_empty (reduced_by self.now.rows self.now.list c)) (map (λ column. column.rows) columns.now)) }
    {
        let mut left = RowSet::new(alloc, self.rows())?;
        let mut called = RowSet::new(alloc, self.count())?;
        for column in columns {
            self.reduce(&mut left, &mut called, column.rows.as_slice());
            if left.least_from(0).is_some() {
                return Ok(false);
            }
        }
        Ok(true)
    }

    // No pivots, over so many rows.
    fn none(alloc: Global, rows: u32) -> Result<Reducers, NoMemory>
        ensures { IfOk result (λ made. made ≡ record { rows = rows; list = [] }) }
    {
        Ok(Reducers {
            columns: Blocks::new(alloc),
            pivot_rows: Vec::new(alloc),
            pivot_of: vec![in alloc; None; rows as usize]?,
        })
    }

    // Toggles some rows in what is left of a column, and with each row the pivot whose row it is.
    fn add(&self, left: &mut RowSet, called: &mut RowSet, rows: &[u32])
        requires left { self.now.rows ≤ length left.old * 64 }
        requires room { length self.now.list ≤ length called.old * 64 }
        requires rows { All (λ row. row < self.now.rows) rows.now }
        requires called { row_in called.old ≡ calls self.now.list (row_in left.old) }
        ensures left { length left.new ≡ length left.old }
        ensures room { length called.new ≡ length called.old }
        ensures rows { row_in left.new ≡ plus (row_in left.old) (odd_times rows.now) }
        ensures called { row_in called.new ≡ calls self.now.list (row_in left.new) }
    {
        for row in rows {
            left.toggle(*row);
            if let Some(pivot) = self.pivot_of[*row as usize] {
                called.toggle(pivot);
            }
        }
    }

    // Reduces a column by each pivot in order. A reduced column has no row of an earlier pivot, so it is enough to take
    // the least pivot that is called for as long as there is one.
    fn reduce(&self, left: &mut RowSet, called: &mut RowSet, column: &[u32])
        requires left { self.now.rows ≤ length left.old * 64 }
        requires room { length self.now.list ≤ length called.old * 64 }
        requires empty { row_in left.old ≡ none }
        requires none_called { row_in called.old ≡ none }
        requires column { Ascends 0 self.now.rows column.now }
        ensures left { length left.new ≡ length left.old }
        ensures room { length called.new ≡ length called.old }
        ensures reduced { row_in left.new ≡ has (reduced_by self.now.rows self.now.list column.now) }
        ensures free { calls self.now.list (row_in left.new) ≡ none }
        ensures none_called { row_in called.new ≡ none }
    {
        self.add(left, called, column);
        let mut low = 0;
        while let Some(pivot) = called.least_from(low) {
            self.add(left, called, self.columns.list(pivot as usize));
            low = pivot + 1;
        }
    }

    // The number of rows.
    fn rows(&self) -> u32
        ensures { result ≡ self.now.rows }
    {
        self.pivot_of.as_slice().len() as u32
    }

    /// The number of pivots. Constant time.
    pub fn count(&self) -> u32
        ensures { result ≡ length self.now.list }
    {
        self.pivot_rows.as_slice().len() as u32
    }

    // Takes what is left of a column, which has the row and calls for no pivot, as the reduced column of one pivot more.
    fn with_column(self, left: &mut RowSet, row: u32) -> Result<Reducers, NoMemory>
        requires few { length self.list + 1 < 2 ^ 32 }
        requires room { self.rows ≤ length left.old * 64 }
        requires inside { (k : ℕ) → self.rows ≤ k → row_in left.old k ≡ false }
        requires row { row < self.rows }
        requires own { row_in left.old row ≡ true }
        requires free { calls self.list (row_in left.old) ≡ none }
        ensures room { length left.new ≡ length left.old }
        ensures empty { OnOk result (row_in left.new ≡ none) }
        ensures made { IfOk result (λ made. (column : List ℕ) → Ascends 0 self.rows column → has column ≡ row_in left.old
            → made ≡ record { rows = self.rows; list = self.list ++ record { row = row; column = column } ∷ [] }) }
    {
        let rows = self.rows();
        let number = self.count();
        let Reducers {
            mut columns,
            mut pivot_rows,
            mut pivot_of,
        } = self;
        take_rows(left, rows, 0, &mut columns)?;
        columns.close()?;
        pivot_of[row as usize] = Some(number);
        pivot_rows.push(row)?;
        Ok(Reducers {
            columns,
            pivot_rows,
            pivot_of,
        })
    }

    // The reducers with that of one pivot more, or None where it doesn't pass.
    fn with_pivot(
        self,
        left: &mut RowSet,
        called: &mut RowSet,
        columns: &[Column],
        low: u32,
        pivot: Pivot,
    ) -> Result<Option<Reducers>, NoMemory>
        requires few { length self.list + 1 < 2 ^ 32 }
        requires left { self.rows ≤ length left.old * 64 }
        requires room { length self.list ≤ length called.old * 64 }
        requires ascend { AllAscend self.rows (map (λ column. column.rows) columns.now) }
        requires empty { row_in left.old ≡ none }
        requires none_called { row_in called.old ≡ none }
        ensures left { length left.new ≡ length left.old }
        ensures room { length called.new ≡ length called.old }
        ensures passes { IfOk result (λ next. is_some next ≡ pivot_line_passes self.rows (map (λ column. column.rows) columns.now) low self.list pivot) }
        ensures made { IfOk result (λ next. IfSome next (λ made.
            made ≡ record { rows = self.rows; list = self.list ++ reducer self.rows (map (λ column. column.rows) columns.now) self.list pivot ∷ [] })) }
        ensures empty { IfOk result (λ next. IfSome next (λ made. row_in left.new ≡ none)) }
        ensures none_called { IfOk result (λ next. IfSome next (λ made. row_in called.new ≡ none)) }
    {
        if !is_in_range(pivot, low, columns.len(), self.rows()) {
            return Ok(None);
        }
        self.reduce(left, called, columns[pivot.column as usize].rows.as_slice());
        if !left.has(pivot.row) {
            return Ok(None);
        }
        Ok(Some(self.with_column(left, pivot.row)?))
    }
}
