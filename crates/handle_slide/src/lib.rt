//! Arc slides: one side of a polygon is slid over the next side, and curves on the polygon are carried along.
//!
//! A slide at side `k` reads the sides from `k` round. Sides `k` and `k + 1` become one new side, and the partner of `k`
//! becomes the two sides `k + 1` and the partner of the new side. The surface that the polygon is glued to and the curves
//! on it stay, and one arc of the basis is another one afterwards. The definitions are this project's own.
#![tactic(auto)]

mod carried;
mod points;
mod refusal;
mod sides;
mod slid;
mod slides;
mod top;

pub use refusal::{RefusedSlide, SlideRefusal};
pub use slid::Slid;
pub use slides::slide_all;
pub use top::slide;
