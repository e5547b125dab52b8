//! Where things stand in a JSON text and in the graph that it says: paths, lines and columns, the elements of a graph with the options
//! that they carry, and what is wrong with a text that is no JSON.
#![tactic(auto)]

mod carried;
mod elements;
mod lines;
mod marks;
mod misread;
mod reader;
mod steps;
mod strings;
mod texts;
mod words;

pub use carried::{Carried, carried_key, general_key};
pub use elements::{Element, Kind, elements_of, steps_to, value_at};
pub use lines::{Lines, Spot, letters_of};
pub use marks::{Double, Places};
pub use misread::{Misread, Unread};
pub use reader::read_places;
pub use steps::{Step, copied, path_text, steps_value, told_path};
pub use texts::{quoted, value_text};
