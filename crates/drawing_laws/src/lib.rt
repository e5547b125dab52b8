//! What holds of every drawing: a flow shows that no layering has a smaller span; levels that lie within their nodes' padding
//! give a drawing the form that its document asks for; and a drawing says the same in the frame in which its direction runs to
//! the right.
#![tactic(auto)]

mod fits;
mod laws;
mod rotating;

pub use fits::held_drawings_fit;
pub use laws::least_by_flow;
pub use rotating::{
    boxes_rotate, distances_rotate, docks_rotate, paths_rotate, rotates_back, routes_rotate,
    sides_rotate,
};
