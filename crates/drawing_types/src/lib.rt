//! What documents and the phases of a layout share: points, rectangles and sides, tests on axis-parallel segments, routes, sweeps,
//! and lists that contracts see as lists.
#![tactic(auto)]

pub mod list;
pub mod section;
pub mod segments;
pub mod shape;
pub mod sweep;
