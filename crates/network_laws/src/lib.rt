//! Networks, layerings and their cost, and the duality between costs and flows. Beside the laws stand the parts of a
//! network, its edges by node, and the layering from which solvers start.
#![tactic(auto)]

mod laws;
mod links;
mod lower;
mod network;
mod order;
mod parts;
mod sorted;
mod sums;

pub use laws::{done_solves, flow_bounds};
pub use links::{End, Links, end_node, far_node, first_of, link_edges, next_of};
pub use lower::begin_at_zero;
pub use network::{NetEdge, Network, Solution};
pub use parts::part_numbers;
pub use sorted::is_sorted_network;
pub use sums::greatest_sums;
