//! Closed curves on a polygon made tight.
//!
//! A curve turns where it leaves by a side and its next exit comes back through it. A turn is innermost where no point
//! of the curve stands between its two points on the side; without it the curve is the same up to an isotopy of the
//! surface that the polygon is glued to. A curve is tight where its word, read round, has no two letters that cancel;
//! one that bounds a disk has no exits left. What is proved is that innermost turns taken out lead there, that the word
//! of what is left is the cyclic reduced form of the curve's word, and that a Dehn twist about either acts alike on words.
//! The definitions are this project's own.
#![tactic(auto)]

mod all;
mod part;
mod tight;
mod turns;

pub use all::all_made_tight;
pub use tight::made_tight;
