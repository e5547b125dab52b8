//! A level in the working frame.
ghost use Rattle.std.specs.Prelude.{◌≡◌, ◌==◌};

use drawing_types::list::Items;
use drawing_types::sweep::Sweep;
use elk_doc::document::{Choices, Placing, Spacing};
use port_order::Child;

/// An end of an edge of a level: a child, by its number in the level, and one of its ports or none.
#[derive(Clone, Copy)]
pub struct EdgeEnd {
    pub child: u32,
    pub port: Option<u32>,
}

/// An edge of a level, with its weight.
#[derive(Clone, Copy)]
pub struct LevelEdge {
    pub source: EdgeEnd,
    pub target: EdgeEnd,
    pub weight: u32,
}

impl LevelEdge {
    /// Whether the edge is a self-loop.
    pub fn is_loop(self) -> bool
        ensures { result ≡ (self.source.child == self.target.child) }
    {
        self.source.child == self.target.child
    }
}

/// A level: its children and edges in document order, and its options, all lengths in whole document units and in the frame in
/// which its direction runs to the right.
#[derive(Drop)]
pub struct LevelIn {
    pub children: Items<Child>,
    pub edges: Items<LevelEdge>,
    pub spacing: Spacing,
    pub fixed: Option<Sweep>,
    pub placing: Placing,
    pub choices: Choices,
}
