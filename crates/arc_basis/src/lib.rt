//! The basis of a page: the one polygon that the page's polygons are joined to, whose sides are glued in
//! pairs along the arcs of the basis, and the labels along which they were joined, the seams.
//!
//! Labels are taken by number. One whose two sides lie on two polygons joins them: the polygon of its second
//! side is set in place of its first side, and the label becomes a seam. The sides of the polygon that is
//! left are numbered from 0, counterclockwise. The order of joining is this project's own.
#![tactic(auto)]

mod basis;
mod joining;
mod sides;

pub use basis::{Basis, join};
