//! The drawing of a graph with edges that cross borders of levels.
//!
//! Open levels are drawn one by one from the inside out. After each layout the leaf that stands for the border is cut off, and what led to
//! it goes straight on to the border from where it left the last column. In the level around, the node is a leaf with pinned ports where
//! the edges arrive. The orders in which edges cross borders are sought from the outside in, and then node by node.
#![tactic(auto)]

mod across;
mod costs;
mod cutting;
mod drawings;
mod edges;
mod gaps;
mod layout;
mod nodes;
mod port_rooms;
mod search;
mod standing;
mod titles;
mod writing;

pub use across::draw_across;
