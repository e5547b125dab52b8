//! What the attributes of Graphviz say of how an element looks: its shape, its size, its colours and lines, and its labels, as members
//! of the graphs that pictures are made of.
#![tactic(auto)]

mod given;
mod labels;
mod lines;
mod members;
mod notes;
mod paints;
mod shapes;
mod sizes;
mod styles;

pub use given::Given;
pub use labels::{
    DEFAULT_FONT_SIZE, asked_font_size, font_size, label_in, label_value, put_letters, text_in,
};
pub use lines::{Line, line_of};
pub use members::{Members, number_value, put_list, put_number, put_object, put_text};
pub use notes::Notes;
pub use shapes::{Form, Shape, shape_of};
pub use sizes::{POINTS, least_extent, node_extent, whole};
pub use styles::{Kind, links_into, style_of};
