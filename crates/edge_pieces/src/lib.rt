//! Edges that are led through leaves that are made for them: one piece leads to each leaf, and one from the last to the target. After
//! the answer the pieces are one route again.
#![tactic(auto)]

mod leaves;
mod pieces;

pub use leaves::{Leaf, Shape, leaf_on};
pub use pieces::{Led, join_pieces, lead_through};
