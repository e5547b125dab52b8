//! What the engine's rules find in a document, at all places: each rule is total, and what an earlier one refuses is no fault of a later.
#![tactic(auto)]

mod asked;
mod context;
mod ends;
mod finds;
mod ids;
mod limits;
mod ports;
mod rules;
mod shapes;

pub use asked::Asked;
pub use context::{Context, Join, Reference, context_of, is_extended};
pub use finds::{Case, End, Find, Outline, Plenty, Side};
pub use ids::{Key, is_same, key_of};
pub use limits::MOST_LEVELS;
pub use rules::finds_in;
