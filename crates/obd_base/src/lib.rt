//! The ground that every other crate stands on: numbers of things, the two ends of the program, text,
//! and two small types that contracts see as a list and as a name.
//!
//! A `Source` gives bytes and a `Sink` takes them. Each is known by two meanings alone: its bytes, where
//! it tells them, and how often it has failed. All of it is this project's own.
#![tactic(auto)]

mod causes;
mod endless;
mod items;
mod mem_sink;
mod mem_source;
mod name;
mod numbers;
mod points;
mod standard;
mod streams;
mod text;
mod whole;

pub use causes::{Failed, NoMemory, WriteFault};
pub use endless::Endless;
pub use items::Items;
pub use mem_sink::{MemSink, NullSink};
pub use mem_source::{MemSource, SureSource};
pub use name::Name;
pub use numbers::{ArcNo, GenNo, LabelNo, PieceNo, SideNo, StrandNo};
pub use points::{Column, Exit, Point, Sign};
pub use standard::{StdSink, StdSource};
pub use streams::{Sink, Source};
pub use text::Text;
pub use whole::{ReadRefusal, read_all, write_all_of};
