//! Routes of nets in one gap: which vertical segment stands in which slot.
//!
//! Cycles of conflicts are cut by a search in depth, which goes from net to net and cuts the links that lead back to a net on the
//! way by which it came. Slots of few crossings are looked for by code that promises nothing, and judged.
#![tactic(auto)]

mod assigning;
mod chains;
mod choosing;
mod crossings;
mod cutting;
mod demands;
mod depths;
mod dropping;
mod easing;
mod exchanging;
mod filling;
mod fitting;
mod heights;
mod lanes;
pub mod laws;
mod links;
mod marks;
mod middles;
mod precedence;
mod ranks;
mod segments;
mod settling;
mod sifting;
mod slotting;
mod tracks;
mod uncrossing;
mod untangling;
mod walking;

pub use assigning::assign;
pub use cutting::cut_cycles;
pub use easing::assign_near;
pub use links::Link;
pub use net_routes::{Net, NetRoute, Pin, Slots};
pub use uncrossing::{assign_uncrossed, assign_uncrossed_near};
