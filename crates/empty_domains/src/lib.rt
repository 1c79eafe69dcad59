//! The domains that start at a generator of a nice drawing, found by walking along rows of pieces from its points.
//!
//! A walk starts at a point of the generator, at either of its names. Row by row it goes over pieces that aren't base,
//! over the chords at their far sides and through the glued segments there, and reads off a bigon where a row's first
//! chord leads back to its own side, and a rectangle where it leads to a side on which the generator's point of a later
//! arc comes before. It gives up at a base piece, at a point of the generator inside, and where the chords of a row
//! don't run side by side.
//!
//! Each step that is read off so is tested: its rows are swept, no earlier row may end it, and the rule of domains must
//! hold at the points near the pieces along its rows. `Walks::targets` tells where the domains from a generator lead, and
//! `domains_from` has the sets too; by their clauses these are all domains of the definition, each once. Pieces go by the
//! numbers of their first spans, as in `drawing`.
//!
//! The sets that are counted are after the empty embedded bigons and rectangles of Sarkar and Wang (2010); the walk is
//! this project's own.
#![tactic(auto)]

mod collect;
mod domains;
mod drawing_tables;
mod generator_sides;
mod rules;
mod starts;
mod steps;
mod strip;
mod tables;
mod targets;
#[cfg(test)]
mod tests;
mod verify;
mod walks;

pub use domains::Domain;
pub use strip::Step;
pub use walks::{Walks, domains_from};
