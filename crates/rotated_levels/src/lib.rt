//! Laws of levels' drawings: what they keep when they are rotated back from the frame of their direction into the document, and
//! when those of connected parts are put together; and how large they can be.
//!
//! Outlines, their distances and the box round the level; sides, anchors and docks; ports; routes; and the certificate, with
//! the document's numbers of its edges: each keeps in the document what it keeps in the frame.
#![tactic(auto)]

mod bounds;
mod boxes;
mod certificates;
mod docks;
mod joined_certificates;
mod joining;
mod laws;
mod ports;
mod routes;

pub use bounds::{extents_are_bounded, extents_are_small};
pub use boxes::{box_examples, distances_rotate_back, framed_boxes_fit, outlines_rotate_back};
pub use certificates::certificates_rotate_back;
pub use docks::{docks_rotate_back, sides_rotate_back};
pub use joined_certificates::certificates_join;
pub use joining::drawings_join;
pub use laws::levels_are_drawn;
pub use ports::{port_examples, ports_rotate_back};
pub use routes::routes_rotate_back;
