//! The ends of a level's edges: where they dock, the anchors, ports and outlines that follow, and the lanes beside these.
//!
//! Everything is read once and kept by number: the places at the far ends of links by edge, the spots of each child in
//! document order, the orders of its sides, the docks of its spots, and the lanes of docks and self-loops with their places
//! from the outline. `table_of` puts together what a drawing needs of them.
#![tactic(auto)]

mod courses;
mod docks;
mod lanes;
mod laws;
mod loops;
mod orders;
mod outlines;
mod spots;
mod tables;
mod units;

pub use lanes::{lane_side, room};
pub use laws::{tables_need_no_orders, tables_read_no_tops};
pub use outlines::hull;
pub use spots::port_rows;
pub use tables::table_of;
