//! Sides, orders and places of a child's ports and implicit ends, in the working frame: the frame in which the level's
//! direction runs to the right.
#![tactic(auto)]

mod children;
mod docks;
mod laws;
mod ordering;
mod ranks;
mod sides;
mod spots;
mod spreading;

pub use children::{Child, ChildPort, is_pinned, is_pinned_spot};
pub use docks::{dock_of, size_along};
pub use laws::{
    directions_rotate, fixed_orders_are_kept, offsets_rise, orders_agree, ports_stand,
    spots_are_ordered,
};
pub use ordering::order_side;
pub use sides::{is_mirrored, side_of};
pub use spots::{Mean, Spot};
pub use spreading::{spread, spread_at};
