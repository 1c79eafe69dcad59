//! The certificate of an open book, its text, and whether a text is a valid certificate.
//!
//! A certificate writes an open book, the strands of its first drawing, fingers that lead to a nice drawing, how many generators that
//! one has, pivots of its columns and a verdict: a chain that bounds the contact generator, or a functional that is one there and even
//! on every column. `print` gives its text, `parse` reads a text, and `check` tells whether the lines of a text, whoever wrote it, keep
//! their rules, and what it then says of the contact class.
//!
//! A certificate's lines stand in the order of its fields. A line is its kind, further words behind one space each, and a line feed.
//! Lines are counted from 1; sides, strands, arcs, chords, segments, places and generators from 0. The form of the text and the rules
//! of the lines are this project's own. `check` does anew what the lines say, by the crates of pages, slides, twists, drawings, fingers,
//! generators and columns; it asks neither the strategy that finds fingers nor the elimination that finds pivots.
#![tactic(auto)]

mod basis_lines;
mod basis_stage;
mod book_stage;
mod certificate;
mod checked;
mod checker;
mod curve_lines;
mod curves_stage;
mod drawing_stage;
mod entries;
mod fault;
mod final_lines;
mod finals_stage;
mod finger_lines;
mod fingers_stage;
mod generator_lines;
mod generators_stage;
mod line;
mod lines;
mod outcome_stage;
mod page_lines;
mod parsing;
mod polygons_stage;
mod printed;
mod row;
mod settling;
mod slides_stage;
mod strand_lines;
mod strands_stage;
mod surface;
mod taking;
mod tokens;
mod twist_lines;
mod twists_stage;
mod words;

pub use certificate::Certificate;
pub use checked::{Answer, Checked, Reason};
pub use checker::check;
pub use line::{Word, put_line, put_numbered, put_rows};
pub use parsing::{ParseRefusal, parse};
pub use printed::print;
