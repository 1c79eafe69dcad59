//! The strategy that makes a drawing nice: bursts of finger moves.
//!
//! A burst takes the farthest bad piece apart: it pushes the chords between the piece and the base, one after another,
//! along a path of pieces. After it the weight, which is the sum of badness times distance, is lower, so the bursts come
//! to an end. Segments are numbered by side, and on a side from 0, counterclockwise; chords by strand, and along the
//! strand from 0. Nice diagrams are after Sarkar and Wang (2010); the strategy is this project's own.
#![tactic(auto)]

mod bursts;
mod chord_name;
mod chosen;
mod counts;
mod doors;
mod fingers;
mod measured;
mod next;
mod numbers;
mod path;
mod plan;
mod raised;
mod refusal;

pub use bursts::make_nice;
pub use chord_name::ChordName;
pub use next::burst;
pub use refusal::PlanRefusal;
