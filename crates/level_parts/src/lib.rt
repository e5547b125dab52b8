//! The connected parts of a level: the children that edges join, each part as a level of its own with the numbers that its
//! children and edges have in the whole.
#![tactic(auto)]

mod copying;
mod grouping;
mod laws;
mod levels;
mod numbering;
mod splitting;

pub use laws::{parts_are_levels, parts_say_the_same};
pub use levels::{PartLevel, PartLevels, Seats};
pub use splitting::split;
