//! The levels of a document: each is read from it, and its drawing is written into that of the document.
//!
//! A level is the children, edges and distances of a node, in the frame in which its direction runs to the right. An index of
//! the document is made once, in one pass over its nodes, one over its ports and one over its edges, and by it each level is
//! read in a time that follows its own size. A level's drawing is rotated back from that frame, moved to begin at the padding of
//! its node, and written into the document's drawing; so is the size that a node needs round its content.
#![tactic(auto)]

mod canvas;
mod figure;
mod grouping;
mod index;
mod laws;
mod reading;
mod rotating;
mod rotating_back;
mod sizes;
mod start;
mod writable;
mod writing;

pub use canvas::{Canvas, blank, placed};
pub use figure::{LevelFigure, figure_of};
pub use grouping::Groups;
pub use index::{Index, index_of};
pub use laws::{levels_are_levels, levels_of_leaves_are_levels};
pub use reading::{level_in, read_child};
pub use sizes::frame_node;
pub use writable::{sizes_frame, tight_drawings_are_writable};
pub use writing::{LevelNumbers, write_level, write_ports_of};
