//! Labels of ports and of nodes, and the sizes of nodes that grow with what stands in them.
//!
//! The steps of a draft with labels, in their order: `port_labels_of` and `node_labels_of` find the labels that are placed,
//! `place_port_labels` lets them stand at their ports, `size_nodes` makes nodes as large as they ask for, and `place_node_labels` lets
//! labels stand in and beyond nodes. Labels of edges are placed between the labels of ports and the sizes of nodes, and ports grow
//! after all of it. Once the draft is placed, the steps that gave records are raised in the reverse order. `keep_outside` comes last, if
//! ports are moved then.
#![tactic(auto)]

mod at_ports;
mod beyond;
mod cells;
mod frames;
mod groups;
mod inside;
mod leasts;
mod outside;
mod placing;
mod sizes;

pub use at_ports::{
    InnerLabels, PortLabels, beside_port, place_port_labels, port_labels_of, raise_port_labels,
};
pub use groups::{NodeLabels, is_outside, node_labels_of, placement_of};
pub use outside::keep_outside;
pub use placing::{PlacedLabels, place_node_labels, raise_node_labels};
pub use sizes::{Lacks, SizedNodes, lacks_of, padding_of, size_nodes};
