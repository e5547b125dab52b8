//! What a graph has without the effect that was meant: options that nothing reads, values that nothing knows, members that look like
//! those that are read, and labels that are wider than their nodes. The drawing is made all the same.
#![tactic(auto)]

mod asked;
mod labels;
mod members;
mod options;
mod scan;
mod warning;

pub use scan::{double_member, warnings_of};
pub use warning::{Warning, warning_value};
