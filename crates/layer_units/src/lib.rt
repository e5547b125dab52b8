//! What the phases are given of a level: its units and links, and the rows to start with.
//!
//! Units and links come from the children's layers, still without heights, pins and ranks. The ranks of links' ends say where
//! an end stands among those of its child's side: ports that are in a fixed order or at fixed positions keep it whatever the
//! order of the rows, so ranks are found before rows are ordered. For an order of the rows, the table of docks, lanes and
//! outlines gives each child's unit the room for its outline and its lanes, and each link the heights at which it leaves its
//! tail and enters its head. The table itself reads none of these, so the one that is made before they are known holds for the
//! units and links that have them.
#![tactic(auto)]

mod children;
mod ends;
mod fitting;
mod heights;
mod passing;
mod pins;
mod ports;
mod ranking;
mod ranks;
mod rows;
mod runs;
mod tables;
mod units;

pub use fitting::{UnitsAndTable, pinned};
pub use ranking::ranked;
pub use ranks::{fitted_units_are_units, ranks_need_no_rows};
pub use rows::start_of;
pub use tables::tables_read_no_heights;
pub use units::units_of;
