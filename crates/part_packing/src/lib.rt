//! The parts of a level that no edges join, in rows. The engine stands them in rows too, of the width of a square that holds them all;
//! here they are moved into rows whose shape comes near the one that is asked for.
#![tactic(auto)]

mod bounds;
mod groups;
mod packing;
mod rows;

pub use packing::pack_parts;
pub use rows::{Rows, rows_for};
