//! Drawings of strands in the polygon, of which no two chords cross.
//!
//! Each arc has a strand, which runs from the end of the arc's second side to the end of its first side. Where
//! it leaves the polygon through a side it comes back through the side's partner, so the polygon cuts it into
//! chords. The points of an arc are its crossing points, numbered along the arc's first side from the start, and
//! then its contact point. A generator is a choice of one point on each arc such that the points lie on
//! different strands; it is after Honda, Kazez and Matić (2009).
#![tactic(auto)]

mod chords;
mod counts;
mod drawing;
mod finger;
mod identity;
mod layout;
mod left_turns;
mod links;
mod nested;
mod pieces;
mod places;
mod push;
mod read;
mod refusal;
mod strands;
mod thinning;
mod turn_links;
mod turns;
mod window;
mod words;

pub use drawing::Drawing;
pub use finger::Finger;
pub use refusal::DrawRefusal;
