//! The texts of labels as Graphviz writes them: with escapes such as `\N` and `\n`, with names of characters, with tags of HTML, and
//! with the fields of records.
#![tactic(auto)]

mod cells;
mod entities;
mod escapes;
mod html;
mod records;
mod sizes;

pub use cells::{Cell, cells_of};
pub use escapes::{Names, label_text, plain_text};
pub use html::html_text;
pub use records::{Field, record_of};
pub use sizes::{Extent, extent_of};
