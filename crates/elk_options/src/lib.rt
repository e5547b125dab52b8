//! Options of nodes, ports and edges: which are read in which role, their three spellings, their values and defaults.
#![tactic(auto)]

pub mod laws;
pub mod names;
mod numbers;
pub mod options;
mod padding;
mod readers;
mod texts;
mod values;

pub use names::OptionName;
pub use options::{BadValue, Options, Role, read_options};
pub use padding::read_padding;
