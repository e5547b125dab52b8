//! The places of units by network simplex.
//!
//! The tops of all units are the layers of a network, after section 4 of Gansner, Koutsofios, North and Vo 1993:
//! units of a row keep their distances, and each link has a node of its own that both its ends stand below, so
//! that a layering of least cost makes the links least high together. A link can weigh more than others: so much
//! each unit of its height costs. The flow that proves the layering's cost is a proof of the height. Gaps that no
//! unit reaches over are then closed.
#![tactic(auto)]

mod closing;
mod flows;
mod heights;
mod least;
mod network;
mod pairs;
mod placing;
mod start;
mod straight;

pub use least::{LeastPlacing, PairFlow};
pub use placing::{place_least, place_straight};
