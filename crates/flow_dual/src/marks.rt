//! What a search is led by, and what it notes of the nodes that it reaches.

ghost use Rattle.std.specs.Prelude.{◌≡◌, ◌<◌, true, set, length, IfOk};
ghost use Rattle.flow_dual.specs.Labels.{label_at};
ghost use Rattle.flow_dual.specs.Queue.{links_at};
ghost use Rattle.flow_dual.specs.Searching.{IsCleared};

use crate::Label;
use network_laws::{End, Links, NetEdge};
use std::alloc::{AllocError, Global};

/// A network's edges, and those of each node by either end.
#[derive(Clone, Copy)]
pub struct Linked<'a> {
    pub edges: &'a [NetEdge],
    pub tails: &'a Links,
    pub heads: &'a Links,
}

impl<'a> Linked<'a> {
    /// The edges of each node by this end.
    pub fn links_at(&self, end: End) -> &'a Links
        ensures { result.now ≡ links_at end self.now.tails.now self.now.heads.now }
    {
        match end {
            End::Tail => self.tails,
            End::Head => self.heads,
        }
    }
}

/// Which nodes are reached, how, and how far all was raised by then; and a list of them in the order in which they came.
#[derive(Drop)]
pub struct Marks {
    pub reached: Vec<bool>,
    pub labels: Vec<Label>,
    pub dist: Vec<u64>,
    pub order: Vec<u32>,
}

impl Marks {
    /// With room for how much flow a node was reached.
    pub fn room_at(&self, v: u32) -> u64
        requires { v < length self.now.labels.items }
        ensures { result ≡ (label_at self.now.labels.items v).room }
    {
        let labels = self.labels.as_slice();
        labels[v as usize].room
    }

    /// Notes how a node is reached.
    pub fn put(&mut self, v: u32, label: Label)
        requires marks { v < length self.old.reached.items }
        requires labels { v < length self.old.labels.items }
        ensures marks { self.new.reached.items ≡ set self.old.reached.items v true }
        ensures labels { self.new.labels.items ≡ set self.old.labels.items v label }
        ensures dist { self.new.dist ≡ self.old.dist }
        ensures order { self.new.order ≡ self.old.order }
    {
        self.reached[v as usize] = true;
        self.labels[v as usize] = label;
    }
}

/// Marks of no node.
pub fn no_marks(alloc: Global, nodes: usize) -> Result<Marks, AllocError>
    ensures cleared { IfOk result (λ m. IsCleared nodes m.reached.items m.labels.items) }
    ensures dist { IfOk result (λ m. length m.dist.items ≡ nodes) }
{
    let blank = Label {
        parent: 0,
        depth: 0,
        room: 0,
    };
    Ok(Marks {
        reached: vec![in alloc; false; nodes]?,
        labels: vec![in alloc; blank; nodes]?,
        dist: vec![in alloc; 0; nodes]?,
        order: Vec::new(alloc),
    })
}
