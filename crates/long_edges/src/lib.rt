//! Edges that span several layers, as chains of edges that climb one layer each.
//!
//! `split_all` puts one new node on each layer strictly between an edge's ends, so that the phases after it meet
//! only edges between neighbouring layers. It reserves all memory before it changes the arena.
#![tactic(auto)]

mod chains;
mod heights;
mod splitting;

pub use chains::{Chains, Lane};
pub use splitting::split_all;
