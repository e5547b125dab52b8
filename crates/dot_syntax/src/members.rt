//! Nodes, and the subgraphs in which they stand.

use crate::attributes::Entry;
use crate::builder::{Builder, MOST_ELEMENTS};
use crate::defaults::Defaults;
use crate::edges::End;
use crate::fault::DotFault;
use crate::graph::Node;
use crate::place::Place;

// The most nodes of all subgraphs together.
const MOST_MEMBERS: usize = 1 << 20;

impl Builder {
    /// The node of a name, which is made if it is new. It stands in the subgraph from now on.
    pub(crate) fn node(
        &mut self,
        name: String,
        place: Place,
        defaults: Defaults,
        subgraph: usize,
    ) -> Result<usize, DotFault> {
        let known = self.nodes.get(name.as_str()).copied();
        let node = match known {
            Some(node) => node,
            None => self.new_node(name, place, defaults)?,
        };
        self.include(node, subgraph, place)?;
        Ok(node)
    }

    fn new_node(
        &mut self,
        name: String,
        place: Place,
        defaults: Defaults,
    ) -> Result<usize, DotFault> {
        let node = self.graph.nodes.len();
        if node >= MOST_ELEMENTS {
            return Err(self.too_large(place, "more than 65,536 nodes"));
        }
        self.nodes.insert(name.clone()?, node)?;
        let set = defaults.node;
        self.graph.nodes.push(Node { name, place, set })?;
        Ok(node)
    }

    // What holds a subgraph has all its nodes, so the way up ends where the node is known.
    fn include(&mut self, node: usize, subgraph: usize, place: Place) -> Result<(), DotFault> {
        let mut at = Some(subgraph);
        for _ in 0..self.graph.subgraphs.len() {
            at = match at {
                Some(subgraph) => self.included(node, subgraph, place)?,
                None => return Ok(()),
            };
        }
        Ok(())
    }

    // Answers what holds the subgraph, unless that has the node already.
    fn included(
        &mut self,
        node: usize,
        subgraph: usize,
        place: Place,
    ) -> Result<Option<usize>, DotFault> {
        let is_full = self.members >= MOST_MEMBERS;
        let Some(holder) = self.graph.subgraphs.get_mut(subgraph) else {
            return Ok(None);
        };
        if holder.parent.is_none() || holder.nodes.contains(&node) {
            return Ok(None);
        }
        if is_full {
            return Err(self.too_large(place, "too many nodes in subgraphs"));
        }
        holder.nodes.insert(node)?;
        let parent = holder.parent;
        self.members = self.members.saturating_add(1);
        Ok(parent)
    }

    /// Gives nodes the attributes of a list. Nodes that had the same ones share them again.
    pub(crate) fn change_nodes(
        &mut self,
        ends: &[End],
        list: &[Entry],
        place: Place,
    ) -> Result<(), DotFault> {
        let mut last = None;
        for end in ends {
            let old = match self.graph.nodes.get(end.node) {
                Some(node) => node.set,
                None => 0,
            };
            let new = match last {
                Some((from, to)) if from == old => to,
                _ => self.merged(old, list, place)?,
            };
            last = Some((old, new));
            if let Some(node) = self.graph.nodes.get_mut(end.node) {
                node.set = new;
            }
        }
        Ok(())
    }
}
