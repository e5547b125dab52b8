//! A graph by its links, and what is cut in it.

/// A link between two nodes, by their numbers.
#[derive(Clone, Copy)]
pub struct Link {
    pub tail: u32,
    pub head: u32,
}

/// Which links are cut, by their numbers, and the depths of the nodes, by theirs.
#[derive(Drop)]
pub struct Cuts {
    pub cut: Vec<bool>,
    pub depths: Vec<u32>,
}
