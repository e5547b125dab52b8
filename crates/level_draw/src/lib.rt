//! The drawing of one level from its units, rows and tops: columns and gaps, traces, boxes, ports and sections, moved so that
//! it begins at 0, in the frame in which the level's direction runs to the right. Boxes and traces are read off the level's table,
//! its gaps and the places of its nets.
#![tactic(auto)]

mod chains;
mod drawing;
mod loops;
mod outlines;
mod parts;
mod places;
mod sections;
mod shifting;
mod steps;
mod tracing;

pub use drawing::{Basis, LevelOut, Plan, draw, draw_by_table};
pub use tracing::{Routes, routes_of};
