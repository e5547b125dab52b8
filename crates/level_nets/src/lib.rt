//! The nets of the gaps of a level, the slots on which they pass, and the borders of gaps and columns; and which net of its
//! gap each link, each inverted dock and each passage of a self-loop is.
#![tactic(auto)]

mod borders;
mod pushing;
pub mod reading;
mod routing;
pub mod sheet;

pub use routing::{LoopLegs, Routing, gaps_of};
