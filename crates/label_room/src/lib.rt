//! The room that labels take: their sizes, the sides of nodes with all that stands there, and what stands beside lines where they
//! leave or enter a node.
#![tactic(auto)]

mod blocks;
mod docks;
mod growing;
mod labels;
mod lines;
mod reserves;
mod rooms;
mod shrinking;
mod sides;
mod spans;
mod strips;
mod values;

pub use blocks::{Beside, Block, Owner, beside_edge};
pub use docks::{Dock, Sides, sides_of};
pub use growing::{GrownPorts, grow_ports};
pub use labels::{Align, Stack, measure, measured_labels, place_stack, stack_of};
pub use lines::{axis_of, lines_at, spots_at};
pub use shrinking::raise_ports;
pub use sides::borders;
pub use strips::{Reach, Strips};
pub use values::{Padding, has_name, has_names, inside_asked, padding_in, size_in};
