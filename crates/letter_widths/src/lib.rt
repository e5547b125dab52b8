//! How wide texts are in the font of pictures, and how large their letters are.
#![tactic(auto)]

mod sizes;
mod table;
mod widths;

pub use sizes::{asked_size, letter_size};
pub use table::{TEXT_DROP, TEXT_LARGEST, TEXT_LINE, TEXT_SMALLEST};
pub use widths::{begin, width_of};
