//! All that is wrong with a graph, each fault with its rule, its place and what may stand there. A document is judged by the engine's
//! rules, and what they find is told of the graph for which it is sent.
#![tactic(auto)]

mod across;
mod calls;
mod details;
mod fault;
mod near;
mod origin;
mod rules;
mod texts;

pub use calls::faults_of_call;
pub use fault::{Fault, fault_value};
pub use texts::{nested_fault, text_fault};
