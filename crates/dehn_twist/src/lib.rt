//! Dehn twists carried out on drawings.
//!
//! A twist inserts a parallel copy of its curve into a strand at each point where the strand meets the curve, and the
//! chords are rejoined; what comes is made tight. It is the tight drawing whose words are the reduced images of the
//! words before. A positive twist turns to the right. The surgery is this project's own form of a known one.
#![tactic(auto)]

mod chords;
mod copies;
mod counts;
mod loops;
mod meetings;
mod order;
mod ring;
mod single_twist;
mod surgery;

pub use single_twist::twist;
