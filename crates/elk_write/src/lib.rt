//! A placed document as JSON, and back: the written members are put into the value that the document was read from, and a
//! drawing is read from them again.
#![tactic(auto)]

mod answer;
mod ids;
mod levels;
mod marks;
mod numbers;
mod own;
mod parts;
mod placing;
mod reading;
mod text;
mod tokens;
mod writing;

pub use answer::answer_value;
pub use ids::id_text;
pub use placing::placed_of;
pub use text::text_of;
pub use writing::answer_text;
