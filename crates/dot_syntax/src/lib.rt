//! Reads the DOT language as Graphviz does: a text becomes a graph of nodes, edges and subgraphs, each with its attributes, or a fault
//! says where the text can't be read. Lines such as `a -> b : label` are read as well, without the frame `digraph { }`.
//!
//! Every text is read in time that grows with its length. What could grow faster has a limit of its own: the edges between two
//! subgraphs, the nodes that subgraphs share, and the attributes that defaults give.
#![tactic(auto)]

mod attributes;
mod builder;
mod charset;
mod defaults;
mod edges;
mod fault;
mod form;
mod graph;
mod letters;
mod lexer;
mod lines;
mod members;
mod parser;
mod place;
mod read;
mod statements;
mod subgraphs;
mod token;

pub use attributes::{Attributes, Written};
pub use fault::{DotFault, Misread, Warning, add_warning};
pub use graph::{Edge, Graph, Node, Subgraph};
pub use place::Place;
pub use read::read_dot;
