//! The monodromy of an open book, drawn: the images of the arc basis under a word in Dehn twists.
//!
//! The words of the arcs' images are found first, by one single twist after another, the first entry of the word first. What
//! comes is their tight drawing. Two ways that leave a polygon by one side run on side by side until their goals differ, and
//! no two strands cross, so the points of a side stand in the order in which the ways out by them part: the places are
//! ranks of futures, and no single twist has to be drawn. The drawing is tested; one that didn't pass would be made by
//! carrying the strands of the identity along single twists about curves made tight. The form is this project's own.
#![tactic(auto)]

mod compare;
mod curve;
mod direct;
mod futures;
mod refusal;
mod turns;
mod ways;
mod word;
mod words;

pub use refusal::MonodromyRefusal;
pub use word::drawn;
pub use words::words_of;
