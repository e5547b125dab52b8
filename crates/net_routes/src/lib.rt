//! Nets of a gap and their routes: what routes keep apart, how often they cross, and what is promised of slots.
#![tactic(auto)]

/// The end of a net at the gap's left or right border, at this height.
#[derive(Clone, Copy)]
pub struct Pin {
    pub on_left: bool,
    pub height: i64,
}

/// Two pins to be joined.
#[derive(Clone, Copy)]
pub struct Net {
    pub a: Pin,
    pub b: Pin,
}

/// How a net passes its gap. The first slot of a `Two` belongs to the pin `a`.
#[derive(Clone, Copy)]
pub enum NetRoute {
    Straight,
    One {
        slot: u32,
    },
    Two {
        first: u32,
        height: i64,
        second: u32,
    },
}

/// The number of slots of a gap, and a route for each net.
#[derive(Drop)]
pub struct Slots {
    pub count: u32,
    pub routes: Vec<NetRoute>,
}

/// An upright piece between two heights in a slot.
#[derive(Clone, Copy)]
pub struct Upright {
    pub slot: u32,
    pub from: i64,
    pub to: i64,
}

pub mod laws;
