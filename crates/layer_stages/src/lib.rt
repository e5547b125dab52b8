//! Layers that are asked for, by the constraints of nodes or by partitions.
//!
//! `ask_for_layers` finds the ranks of children, and `edges_against` the edges that run against these, which are turned round. When
//! nothing is made any more in the draft, `seek_layers` gives the document in which the engine finds layers for the children, and
//! `bind_layers` reads its answer: from then on each node of the draft has to stand in the layer found for it. Once the draft is placed,
//! `unbind_layers` takes all of this out again.
#![tactic(auto)]

mod against;
mod arcs;
mod asking;
mod bars;
mod binding;
mod bindings;
mod ends;
mod parts;
mod ranks;
mod seeking;

pub use against::{arcs_against, edges_against};
pub use arcs::LevelArc;
pub use asking::ask_for_layers;
pub use binding::{BoundLayers, bind_layers, unbind_layers};
pub use ranks::{AskedRanks, Border, Ranks, ranks_of};
pub use seeking::{SoughtLayers, seek_layers};
