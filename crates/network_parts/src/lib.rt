//! Layerings of least cost of networks that fall into connected parts: each part is solved as a network of its own.
#![tactic(auto)]

mod dividing;
mod joining;
mod laws;
mod solving;

pub use dividing::count_parts;
pub use laws::parts_have_one_numbering;
pub use network_laws::{NetEdge, Network, Solution};
pub use solving::solve_parts;
