//! The units of a layered drawing, the links between them, and what is meant by a good order of their
//! rows and by their least places.
//!
//! A level is drawn in layers, as in Sugiyama, Tagawa and Toda 1981. Each layer has a row of units: its
//! children, and a lane for each long edge that passes. The crates that order the rows and place the
//! units speak of one set of definitions, in `specs/`: the keys of a link's ends, crossings, the
//! barycentre rule and the four orders of its sweeps, the links that an alignment chooses (after Brandes
//! and Köpf 2002), and least lines.
#![tactic(auto)]

mod copying;
mod distances;
mod noting;
mod rows;
mod units;

pub use copying::copy_of;
pub use distances::{body_room, room};
pub use noting::{note_places, places};
pub use rows::children_of;
pub use units::{Layered, Lines, Link, Order, Unit};
