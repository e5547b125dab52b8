//! The fills on which nodes, edges and texts stand.

use crate::ink::opaque;
use crate::levels::{Levels, Node};

impl<'a> Levels<'a> {
    fn opaque_fill_of(&self, node: usize) -> Option<&str> {
        match self.nodes.get(node) {
            Some(node) => opaque(node.style.fill()),
            None => None,
        }
    }

    // The fill on which the texts within a node stand, where the document asks for one.
    pub(crate) fn fill_within(&self, at: usize) -> Option<&str> {
        match self.nodes.get(at) {
            Some(node) if !node.compound => node.style.fill(),
            _ => self.background_of(at),
        }
    }

    // Whether the document asks for a fill around a node.
    pub(crate) fn is_on_fill(&self, node: &Node<'_>) -> bool {
        match node.parent {
            Some(parent) => self.background_of(parent).is_some(),
            None => false,
        }
    }

    // The fill on which the content of a node is drawn, where the document asks for one: the node's own, or one around it.
    pub(crate) fn background_of(&self, node: usize) -> Option<&str> {
        let mut at = node;
        for _ in 0..self.nodes.len() {
            match self.opaque_fill_of(at) {
                Some(fill) => return Some(fill),
                None => at = self.parent_of(at)?,
            }
        }
        None
    }
}
