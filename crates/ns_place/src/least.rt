//! What a placing of least height answers.

use elk_layers::Lines;

/// Two units that a distance holds apart, with their part of the proof.
#[derive(Clone, Copy)]
pub struct PairFlow {
    /// The number of the upper unit.
    pub upper: u32,
    /// The number of the lower unit.
    pub lower: u32,
    /// Whether the units are consecutive children of a row, whose outlines are to be apart, and not neighbours.
    pub body: bool,
    pub flow: u64,
}

/// Lines whose links are least high together, each times its weight, and the flow that proves it.
#[derive(Drop)]
pub struct LeastPlacing {
    pub lines: Lines,
    /// The heights of all links together, each times its weight.
    pub height: u128,
    /// By link, within its weight.
    pub link_flow: Vec<i64>,
    /// For each row its neighbours and then its consecutive children.
    pub pairs: Vec<PairFlow>,
}
