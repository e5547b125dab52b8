//! The places of units by alignment.
//!
//! A sweep chooses links that are to be horizontal: each unit is aligned with a median of its neighbours in the layer that was visited
//! before, in the four sweeps of Brandes and Köpf 2002: the layers from the left or from the right, each row from the top or from
//! the bottom. Links that cross a link between two lanes are left out, so long edges come out straight. The units that these links
//! join form blocks, and the blocks get their least places. Of the four sweeps the first that needs the least height is taken.
#![tactic(auto)]

mod choosing;
mod ends;
mod heights;
pub mod laws;
mod marking;
mod medians;
mod placing;
mod reaching;
pub mod row_laws;
mod spokes;
mod visiting;

pub use choosing::{Alignment, align, align_marked};
pub use medians::Median;
pub use placing::place;
