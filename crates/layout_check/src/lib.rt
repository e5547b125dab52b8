//! Whether a drawing obeys its document: yes, or the first definition of a good drawing that fails, and where.
//!
//! Boxes, ports, routes and certificates are judged level by level on a scene: the drawing of a document with the lists that are
//! made of it once. Each test answers the first fault. Worked drawings, and changes of them, say what the definitions ask.
#![tactic(auto)]

mod anchors;
mod apart;
mod beyond;
mod blocks;
mod bounds;
mod box_bounds;
mod box_laws;
mod clear;
mod definition;
mod distances;
mod drawings;
mod ends;
mod fault;
mod flow;
mod framed;
mod inside;
mod judge;
mod kept;
mod layering;
mod level;
mod levels;
mod lists;
mod names;
mod order;
mod pairs;
mod partners;
mod parts;
mod paths;
mod port_laws;
mod ports;
mod read;
mod reversed;
mod route;
mod scene;
mod shape_lists;
mod shapes;
mod sharing;
mod sides;
mod spots;
mod stretches;
mod sums;
mod touch;
mod verdict;

pub use box_laws::{fault_breaks_apart, fault_breaks_inside};
pub use definition::Definition;
pub use drawings::{box_level, parallel_edges, round_trip, split_level};
pub use fault::Place;
pub use port_laws::fault_breaks_ports;
pub use verdict::{Verdict, check};
