//! The graph of one open level as it is laid out by itself: its pieces of edges, its children, of which each with an open level is a
//! leaf of known size, and its border as a thin leaf at each side that edges cross.
//!
//! `level_graph` makes that graph, from the model and from what earlier layouts tell. A layout of it with free ports tells in which
//! order the borders of children are wanted (`orders_by`), one with pinned ports where the edges arrive. `missing_helpers` tells the
//! helper edges that a level lacks, so that its border has layers of its own.
#![tactic(auto)]

mod borders;
mod children;
mod edges;
mod graph;
mod helpers;
mod known;
mod members;
mod orders;
mod pins;
mod ports;
mod rooms;
mod sorting;
mod spots;
mod ties;

pub use graph::{LevelGraph, level_graph};
pub use helpers::missing_helpers;
pub use known::{Helper, Known, Mode, Orders, Stand};
pub use orders::orders_by;
pub use pins::{Pins, pinned_places};
pub use spots::{PinnedSpot, SpotKey, spot_key, spots_of};
