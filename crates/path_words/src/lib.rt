//! Words of sides of a polygon: their reduced forms, and the action of a Dehn twist on them.
//!
//! A word is the list of the sides by which a path leaves the polygon, one after another. Two successive
//! letters cancel where the second is the partner of the first; a word from which nothing more can be
//! cancelled is reduced, and each word has exactly one reduced form. A positive twist turns to the right.
//! The form of the action is this project's own. A power is so many single twists one after another, on the words
//! of all strands at once, which are kept to 4,000 letters together.
#![tactic(auto)]

mod action;
mod image;
mod once;
mod powers;
mod pushes;
mod reduce_word;
mod refusal;
mod stack;

pub use action::{ActRefusal, act};
pub use powers::by_power;
pub use reduce_word::reduce;
pub use refusal::TwistRefusal;
