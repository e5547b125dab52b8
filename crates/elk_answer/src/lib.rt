//! From a document's bytes to the bytes of its drawing.
#![tactic(auto)]

mod bytes;

pub use bytes::answer;
