//! Boxes in rows: a list of boxes is packed into rows from left to right, with a new row below the last one where a box
//! would pass the limit, as text is broken into lines; and the limit is found that gives the squarest extent.
#![tactic(auto)]

mod packing;
mod spacing;
mod squarest;
mod walk;

pub use packing::{Rows, pack};
pub use spacing::rows_are_spaced;
pub use squarest::{Squarest, best};
