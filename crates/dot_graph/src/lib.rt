//! From a graph in DOT to the graph that pictures are made of: nodes with sizes, labels and ports, clusters as nodes that hold others,
//! edges between nodes, ports and clusters, and the options of layouts that attributes of Graphviz ask for.
//!
//! Every graph can be translated. What has no effect gives a warning with its place in the text.
#![tactic(auto)]

mod arrows;
mod clusters;
mod edges;
mod ends;
mod ids;
mod joints;
mod known;
mod layers;
mod levels;
mod naming;
mod nodes;
mod planned;
mod ranks;
mod records;
mod sides;
mod spacing;
mod spots;
mod walks;
mod whole;

pub use whole::{Translation, translate};
