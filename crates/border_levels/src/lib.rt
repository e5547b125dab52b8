//! A graph with edges that cross borders of levels: its nodes, its edges in pairs of ends, and its levels. A level is open if such an
//! edge ends within its node; all levels around it are open then as well.
//!
//! Each pair of ends is led through a piece at every level that it passes, and through crossings of the borders between them. Nodes,
//! ports and edges are named by their numbers in the draft, and pairs, crossings and pieces by those in the model.
#![tactic(auto)]

mod building;
mod chains;
mod crossings;
mod middles;
mod model;
mod pairs;
mod piece_labels;
mod port_sides;
mod port_stacks;
mod turns;
mod ways;

pub use building::model_of;
pub use crossings::{Crossing, Piece, PieceEnd, SentLabel};
pub use model::{LevelNode, LevelPort, Model, PortRule, is_forward, line_of};
pub use pairs::{Dock, Pair, PairEnd, PieceLabel, Step};
pub use port_stacks::{PortStack, port_stack_of};
pub use ways::{Reach, Way, reaches_of, way_of};
