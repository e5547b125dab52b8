//! The points of a route, from the slots of gaps and the heights of lanes.
#![tactic(auto)]

use drawing_types::shape::Point;
use net_routes::{Net, Slots};

/// A gap between columns. Slot s stands at `first + s * step`, and `slots` has one route for each net.
#[derive(Drop)]
pub struct Gap {
    pub left: i64,
    pub first: i64,
    pub step: i64,
    pub right: i64,
    pub nets: Vec<Net>,
    pub slots: Slots,
}

/// A lane, by its height, or a net of a gap; `from_a` says that the route enters the net at its pin `a`.
#[derive(Clone, Copy)]
pub enum Step {
    Lane(i64),
    Leg { gap: u32, net: u32, from_a: bool },
}

/// The lanes and nets that a route passes, in order.
#[derive(Drop)]
pub struct Trace {
    pub start: Point,
    pub steps: Vec<Step>,
    pub end: Point,
}

mod joining;
pub mod laws;
mod tidying;

pub use joining::join;
pub use tidying::tidy;
