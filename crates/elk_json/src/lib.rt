//! Reading a document: from bytes to a JSON value, from a value to its nodes, ports and edges in document order, and the
//! rule that refuses a value, with its place.
#![tactic(auto)]

mod build;
pub mod bytes;
mod collect;
pub mod document;
pub mod elements;
mod ends;
pub mod fault;
mod ids;
pub mod key;
pub mod laws;
mod limits;
mod listed;
mod marks;
mod members;
mod ranges;
mod reading;
mod rules;
mod shape;
mod table;
mod whole;

pub use bytes::parse;
pub use document::read_doc;
pub use fault::{DocFault, Refusal, Rule, rule_name, rule_number};
