//! The log of moves: the handle slides and the finger moves that were made, its text, and its replay.
//!
//! A log's text has one line for each slide and then one for each finger. A line is its kind, further words behind one
//! space each, and a line feed; numbers are decimal, with no leading zero. The form is this project's own.
#![tactic(auto)]

mod entry;
mod log;
mod number;
mod replay;
#[cfg(test)]
mod tests;

pub use log::{Log, LogRefusal};
pub use replay::ReplayRefusal;
