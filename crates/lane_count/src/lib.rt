//! Counts and tests that look at many elements at a time.
//!
//! A count of keys above a bound, and a test whether one of many stretches meets a given one. Both take
//! a list in blocks of one vector's lanes, and what is left one by one. They take no memory.
#![tactic(auto)]

mod counting;
mod meeting;

pub use counting::count_above;
pub use meeting::any_meets;
