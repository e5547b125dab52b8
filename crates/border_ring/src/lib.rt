//! The ring between the columns of a level and the border of its node. Most routes go straight through it. Where a port of the node has
//! its own place, or several routes lead to one place, they change their height here, on slots. Labels within the node follow when it
//! grows, and keep clear of the lines in the ring.
#![tactic(auto)]

mod bundles;
mod heights;
mod leading;
mod rectangles;
mod ring;
mod rooms;
mod slots;
mod titles;
mod ways;

pub use leading::{Ends, Led, led_on};
pub use rectangles::{Bounds, Reach, whole_box};
pub use ring::Content;
pub use titles::{Room, Title, moved_titles, slide_titles};
