//! Layerings of least cost by pivots of a spanning tree of tight edges, each with a flow that proves it.
#![tactic(auto)]

mod chain;
mod choice;
mod cuts;
mod entering;
mod first_walk;
mod growing;
mod laws;
mod passing;
mod rerooting;
mod rooted;
mod solving;
mod tree;
mod waiting;

pub use laws::{
    growth_keeps, last_is_best, one_way, parts_cut, pivot_ends, pivot_goes_on, pivot_keeps,
    six_nodes,
};
pub use network_laws::{NetEdge, Network, Solution};
pub use solving::{Solved, Way, solve};
