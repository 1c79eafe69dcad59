//! The page of an open book: polygons whose sides are glued in pairs along labels, and the one polygon
//! with paired sides that they are joined to.
//!
//! A page is given as polygons, each the list of its labels read counterclockwise; each label occurs twice
//! over all polygons. Labels are numbered from 0 by first appearance, polygon by polygon. The occurrence of
//! a label that is read first is 0, the other is 1. The form of pages is this project's own.
#![tactic(auto)]

mod label_tables;
mod labelled;
mod page;
mod polygon;
mod reached;
mod refusal;
mod rules;

pub use page::{Page, SideLabel};
pub use polygon::Polygon;
pub use refusal::PageRefusal;
