//! A graph in lists of nodes, ports, edges and labels, which stages rewrite before the engine reads it and put right after its answer.
//!
//! What a stage changes is written into a journal, so that it can be undone in the reverse order, with the stage's own work between.
#![tactic(auto)]

mod answer;
mod coordinates;
mod document;
mod draft;
mod edges;
mod element;
mod ids;
mod journal;
mod kinds;
mod numbers;
mod options;
mod owners;
mod points;
mod reading;
mod result;
mod sections;
mod sides;
mod values;

pub use answer::place;
pub use coordinates::{absolute_places, tell_coordinates};
pub use document::document_of;
pub use draft::{Draft, How};
pub use edges::{Joined, joined_edges};
pub use element::{Edge, Element, End, Given, Label, Node, Port, Section};
pub use journal::Mark;
pub use kinds::{Direction, Routing, Side};
pub use numbers::{rounded, rounded_up, whole_port, whole_size};
pub use options::{Options, number_said, says};
pub use owners::owners_of;
pub use points::{Point, Size, tidy};
pub use reading::read;
pub use result::tell;
pub use sides::Kind;
pub use values::{number_value, text_value};
