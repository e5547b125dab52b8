//! The lines of a stream, in whatever pieces its source gives them.
//!
//! A `LineReader` reads pieces of a fixed size and gives out one line after the other. Of a line that is longer than it
//! may be it keeps no more than that many bytes, and passes over the rest.
#![tactic(auto)]

mod answer;
mod draft;
mod reader;
mod store;
mod turns;

pub use answer::{LineFault, Piece};
pub use reader::LineReader;
