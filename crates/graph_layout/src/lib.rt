//! A graph laid out: stages rewrite it, the engine lays out what they made of it, and stages put the drawing right.
#![tactic(auto)]

mod bare;
mod floats;
mod junctions;
mod labels;
mod laid;
mod lengths;
mod level;
mod pipeline;
mod placing;
mod renaming;
mod stages;

pub use bare::{Sent, bare_document, lowered_document};
pub use floats::{with_plain_numbers, with_plain_request};
pub use laid::{Laid, laid_out_as_it_is, told};
pub use lengths::whole_options;
pub use level::{DrawnLevel, draw_level};
pub use pipeline::{OneLevel, placed_draft};
