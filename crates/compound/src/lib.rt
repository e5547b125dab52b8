//! The layout of a whole document: its levels from the inside out, each in the frame in which its direction runs to the right
//! and then rotated back, and the ports of the root. And that a drawing which comes so from layouts obeys its document.
#![tactic(auto)]

mod bounds;
mod boxes;
mod drawings;
mod figures;
mod laws;
mod layout;
mod parts;
mod placing;
mod ports;
mod sizes;

pub use bounds::{planned_boxes_are_small, planned_levels_have_room};
pub use boxes::boxes_are_drawn;
pub use drawings::documents_are_drawn;
pub use laws::plans_stay;
pub use layout::lay_out;
pub use parts::parted_levels_are_drawn;
pub use placing::place_root_ports;
pub use ports::root_ports_are_kept;
