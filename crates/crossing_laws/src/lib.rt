//! What holds of the crossings of a drawing: the nets of a gap cross, where they are drawn, as often as their routes do by their
//! slots.
#![tactic(auto)]

mod laws;

pub use laws::{drawn_nets_cross, nets_cross_as_drawn};
