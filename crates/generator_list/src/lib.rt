//! The generators of a drawing in lexicographic order: one point on each arc, on strands that are all different.
//!
//! The points of an arc are numbered along its first side from the start, and its contact point comes last; generators
//! are numbered from 0. The contact generator, of all contact points, so has the last number. The numbering is this
//! project's own.
//!
//! The search goes arc by arc. It leaves a beginning as soon as the arcs after it can't be given different strands
//! that it doesn't use; every beginning that is kept so has an end. On each arc it goes from point to point along the
//! strands that may be taken, and passes over no other point.
#![tactic(auto)]

mod generators;
mod links;
mod listing;
mod open_rows;
mod packed;
mod points;
mod refusal;
mod search;
mod strand_sets;

pub use generators::Generators;
pub use listing::list;
pub use refusal::ListRefusal;
