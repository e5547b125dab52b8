//! Least values under floors and differences.
//!
//! Each bound says that one value is at least another value and a gap. The bounds go forward in an
//! order of the values, so one walk along the order finds the least values that keep all bounds, and
//! tells for each value the bound that holds it up. It is the longest path of an acyclic graph, used
//! to pack blocks against each other as in Brandes and Köpf 2002.
#![tactic(auto)]

mod bounds;
mod walk;

pub use bounds::{Bound, Constraints, Least};
pub use walk::least_lines;
