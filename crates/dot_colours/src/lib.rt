//! Colours as Graphviz writes them: names of X11, digits, and hues. Each becomes a code such as `#FF8000`, which pictures know.
#![tactic(auto)]

mod channels;
mod colours;
mod names;
mod table;

pub use colours::{TRANSPARENT, colour_of};
