//! Stages that rewrite edges of a draft, and positions of its nodes, before the engine reads it: what levels share that are laid out
//! together, positions by an earlier drawing, edges of several ends, ports within their nodes, cycles and merged ends.
//!
//! Stages are called in the order of this list, each with the record of what it did, and put right in the reverse order. Where a
//! stage has no record, undoing the draft's journal puts it right.
#![tactic(auto)]

mod arcs;
mod hyper;
mod insets;
mod merge;
mod positions;
mod shared;
mod trees;
mod turns;

pub use arcs::{Arc, back_arcs};
pub use hyper::{Hyperedges, copied_options, join_hyperedges, split_hyperedges};
pub use insets::{Insets, draw_insets, move_insets};
pub use merge::{levels_of, merge_ends, merging_levels};
pub use positions::{keep_document_order, keep_places};
pub use shared::share_options;
pub use turns::{Turns, turn_again, turn_edges};
