// What is told of the elimination of columns.
ghost use Rattle.std.specs.Prelude.{◌≡◌, true, map, IsTrue};
ghost use Rattle.mod2_rank.specs.Ascending.{AllAscend};
ghost use Rattle.mod2_rank.specs.Linear.{Ascends};

use crate::stop::Stop;
use mod2_rank::{Outcome, Pivot, Verdict, eliminate};
use obd_base::{Column, Items, NoMemory};
use std::alloc::{AllocError, Global};

/// The elimination of columns, `ROWS : COLUMNS`: `;` stands between columns, and each is its rows, ascending and below
/// ROWS. The pivots, each as column and row with a point between, the rank, and the chain or the functional.
pub(crate) fn columns_told(alloc: Global, given: &str) -> Result<String, Stop> {
    let Some((rows, columns)) = given.split_once(" :") else {
        return Err(Stop::NotRead);
    };
    let Ok(rows) = rows.parse::<u32>() else {
        return Err(Stop::NotRead);
    };
    let columns = columns_of(alloc, columns)?;
    outcome_of(alloc, &columns, rows)
}

fn outcome_of(alloc: Global, columns: &[Column], rows: u32) -> Result<String, Stop> {
    if rows == 0 || columns.len() > 1_000_000 || !all_ascend(rows, columns) {
        return Err(Stop::NotRead);
    }
    match eliminate(alloc, columns, rows) {
        Ok(outcome) => outcome_told(alloc, &outcome),
        Err(NoMemory) => Err(Stop::NoMemory),
    }
}

fn columns_of(alloc: Global, text: &str) -> Result<Vec<Column>, Stop> {
    let mut columns = Vec::new(alloc);
    for column in text.split(';') {
        columns.push(Column {
            rows: Items::from_vec(rows_of(alloc, column)?),
        })?;
    }
    Ok(columns)
}

fn rows_of(alloc: Global, text: &str) -> Result<Vec<u32>, Stop> {
    let mut rows = Vec::new(alloc);
    for word in text.split_whitespace() {
        let Ok(row) = word.parse::<u32>() else {
            return Err(Stop::NotRead);
        };
        rows.push(row)?;
    }
    Ok(rows)
}

// Each column ascends, and its rows are below the number of rows.
fn all_ascend(rows: u32, columns: &[Column]) -> bool
    ensures { IsTrue result → AllAscend rows (map (λ column. column.rows) columns.now) }
{
    for column in columns {
        if !ascends(rows, column.rows.as_slice()) {
            return false;
        }
    }
    true
}

// The rows of a column ascend, and are below the number of rows.
fn ascends(rows: u32, column: &[u32]) -> bool
    ensures { IsTrue result → Ascends 0 rows column.now }
{
    let mut least = 0;
    for row in column {
        if *row < least || *row >= rows {
            return false;
        }
        least = *row + 1;
    }
    true
}

fn outcome_told(alloc: Global, outcome: &Outcome) -> Result<String, Stop> {
    let mut text = String::from_str(alloc, "pivots")?;
    put_pivots(&mut text, outcome.pivots.as_slice())?;
    write!(text, ", rank {}", outcome.rank)?;
    put_verdict(&mut text, &outcome.verdict)?;
    Ok(text)
}

// Puts pivots, each behind a space.
fn put_pivots(text: &mut String, pivots: &[Pivot]) -> Result<(), AllocError> {
    for pivot in pivots {
        write!(text, " {}.{}", pivot.column, pivot.row)?;
    }
    Ok(())
}

fn put_verdict(text: &mut String, verdict: &Verdict) -> Result<(), AllocError> {
    match verdict {
        Verdict::Chain(chain) => {
            text.push_str(", chain")?;
            put_numbers(text, chain.as_slice())
        }
        Verdict::Functional(functional) => {
            text.push_str(", functional")?;
            put_numbers(text, functional.as_slice())
        }
    }
}

// Puts numbers, each behind a space.
fn put_numbers(text: &mut String, numbers: &[u32]) -> Result<(), AllocError> {
    for number in numbers {
        write!(text, " {number}")?;
    }
    Ok(())
}
