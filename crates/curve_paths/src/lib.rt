//! Embedded curves on a page, the words that are read along them, and the action of a Dehn twist on words.
//!
//! A curve on a page is given by its crossings with labels, in order: the occurrence of the label through
//! which it leaves, and the place of the point among the curve's own points of that label, from the start of
//! occurrence 0. It enters through the other occurrence. Chord `i` runs from the entry of crossing `i` to the
//! exit of crossing `i + 1`, read round. The entries of a twist word stand here, and what the words of all strands
//! are after them is defined here. The direction of a positive twist, to the right, and the form of the action
//! are this project's own.
#![tactic(auto)]

mod chords;
mod copies;
mod crossing;
mod curve;
mod joined;
mod named;
mod path;
mod places;
mod refusal;
mod twist;

pub use copies::{copied_path, page_names};
pub use curve::Curve;
pub use named::{NamedPath, NamedTwist};
pub use path::{Cross, PageCurve};
pub use refusal::CurveRefusal;
pub use twist::{TooLong, Twist};
