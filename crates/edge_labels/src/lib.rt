//! Labels of edges. One in mid-edge stands in a layer of its own: it is sent as a leaf between two pieces of the edge. Labels at an
//! end stand beside the line, if the end has room for them, or in such a layer next to the node.
#![tactic(auto)]

mod bands;
mod columns;
mod fitting;
mod holders;
mod placing;
mod slides;
mod spots;

pub use placing::{EdgeLabels, Known, place_edge_labels, raise_edge_labels};
pub use spots::{Spot, spot_of};
