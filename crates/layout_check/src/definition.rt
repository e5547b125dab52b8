//! The definitions of a good drawing.

/// The definitions of a good drawing, in the order in which they are asked for.
#[derive(Clone, Copy, PartialEq, Eq, Debug)]
pub enum Definition {
    Apart,
    Inside,
    PortsKept,
    Route,
    Clear,
    Sharing,
    Reversed,
    Layering,
    FlowProof,
}
