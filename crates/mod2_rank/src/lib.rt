//! Columns modulo two: sums, rank, pivots, chains and functionals, and the elimination that finds them.
//!
//! A column is the ascending list of its rows, and the contact row is the last one. `eliminate` takes the columns from
//! the first to the last, and reduces each from its least row on. The elimination order is this project's own. `Reducers`
//! and `is_verdict` hold pivots and a verdict that anybody may have written to their rules, without an elimination. Laws
//! that hold of any columns stand in `proofs/Laws`.
#![tactic(auto)]

mod blocks;
mod elimination;
mod given_pivots;
mod given_verdict;
mod one_column;
mod outcome;
mod row_set;
mod written;

pub use elimination::eliminate;
pub use given_pivots::{PivotRefusal, Reducers};
pub use given_verdict::is_verdict;
pub use outcome::{Outcome, Pivot, Verdict};

#[cfg(test)]
mod tests;
