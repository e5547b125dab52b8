//! What is counted of a document's edges.

/// How many edges a document has, and the sum of their weights.
#[derive(Clone, Copy, Debug, PartialEq, Eq)]
pub struct Counts {
    pub edges: u32,
    pub weight: u32,
}
