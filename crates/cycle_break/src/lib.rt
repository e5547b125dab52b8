//! Which edges of a graph to turn round so that no cycle is left, orders of its nodes, and ways through it.
//!
//! `orient` takes out sources and sinks in turn, lists the edges that lead backwards in the order found, and takes
//! those off the list that close no cycle. `topological` and `path` answer for one arena, which they leave as it is.
#![tactic(auto)]

mod ordering;
mod orienting;
mod placing;
mod searching;

pub use ordering::topological;
pub use orienting::{Reversed, orient};
pub use searching::path;
