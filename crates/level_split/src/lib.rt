//! The layouts of a level that isn't laid out as one whole, in the frame in which its direction runs to the right: of one whose
//! connected parts stand apart, each laid out by itself and their drawings in rows, and of one whose children are boxes in rows.
#![tactic(auto)]

mod boxes_layout;
mod certificate;
mod drawing;
mod laws;
mod layout;
mod layouts;
mod limit;
mod outlines;
mod placing;

pub use boxes_layout::{BoxesOut, layout_boxes};
pub use laws::{parts_are_bounded, parts_are_drawn};
pub use layout::{PartsOut, layout_parts};
