//! The layout of one level, in the frame in which its direction runs to the right: its edges are oriented and a layering of least
//! span is found with the flow that shows it, units and links are made from these, rows ordered and placed, and the level drawn.
#![tactic(auto)]

mod bounds;
mod certificates;
mod chaining;
mod keys;
mod laws;
mod layout;
mod lines;
mod networks;
mod orienting;
mod phases;
mod units;

pub use bounds::{links_are_few, pins_are_low};
pub use chaining::LevelChains;
pub use laws::layers_stay_low;
pub use layout::layout_level;
