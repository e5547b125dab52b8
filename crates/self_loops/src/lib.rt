//! Self-loops: the lanes above and below a child that an edge from the child to itself runs on, and the gaps beside the
//! child that it passes. All is read off one table, by the sides of the edge's two docks.
#![tactic(auto)]

mod lanes;

pub use lanes::{LoopEnds, LoopLane, lanes_of_loops, loop_legs, passes, way};
