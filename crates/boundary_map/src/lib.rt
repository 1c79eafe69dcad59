//! The columns of the differential of a diagram: for each generator the generators to which an odd number of domains
//! lead from it.
//!
//! A domain is a set of pieces, none of them base, that keeps a rule at each point of the diagram and whose corners add
//! up. Domains are after the empty embedded bigons and rectangles of Sarkar and Wang (2010); the sets that are
//! counted are this project's own.
#![tactic(auto)]

mod led;
mod plain;
mod quadrants;
mod rules;
mod sets;
mod tried;
mod walked;

pub use plain::columns_plain;
pub use walked::columns;
