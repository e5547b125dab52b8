//! Self-loops, and where they lie.

use graph_draft::{Draft, Joined, Kind, Side, joined_edges};
use label_room::{Dock, Sides, sides_of};
use std::alloc::{AllocError, Global};
use std::collections::BTreeMap;

// The self-loops of a draft, and what stands at the sides of its nodes.
#[derive(Drop)]
pub(crate) struct Loops {
    pub(crate) sides: Sides,
    // How many ends of edges each port has.
    counts: Vec<usize>,
    by_node: BTreeMap<usize, Vec<Joined>>,
}

fn count_end(counts: &mut [usize], port: Option<usize>) {
    if let Some(count) = counts.get_mut(port.unwrap_or(usize::MAX)) {
        *count = count.saturating_add(1);
    }
}

fn add_loop(
    alloc: Global,
    by_node: &mut BTreeMap<usize, Vec<Joined>>,
    found: Joined,
) -> Result<(), AllocError> {
    if let Some(loops) = by_node.get_mut(&found.source.node) {
        loops.push(found)?;
        return Ok(());
    }
    by_node.insert(found.source.node, vec![in alloc; found]?)?;
    Ok(())
}

// The side at which both ends of a loop stand, unless they are one port.
pub(crate) fn side_of_loop(sides: &Sides, found: &Joined) -> Option<Side> {
    let (source, target) = (found.source, found.target);
    let side = sides.side_of_end(source, found.edge, Kind::Source)?;
    let other = sides.side_of_end(target, found.edge, Kind::Target)?;
    let is_one_port = source.port.is_some() && source.port == target.port;
    if side == other && !is_one_port {
        Some(side)
    } else {
        None
    }
}

impl Loops {
    pub(crate) fn of(alloc: Global, draft: &Draft) -> Result<Loops, AllocError> {
        let mut counts: Vec<usize> = vec![in alloc; 0; draft.ports.len()]?;
        let mut by_node = BTreeMap::new(alloc);
        for found in joined_edges(alloc, draft)?.iter() {
            count_end(counts.as_mut_slice(), found.source.port);
            count_end(counts.as_mut_slice(), found.target.port);
            if found.is_loop() {
                add_loop(alloc, &mut by_node, *found)?;
            }
        }
        Ok(Loops {
            sides: sides_of(alloc, draft)?,
            counts,
            by_node,
        })
    }

    // Whether a dock belongs to a loop alone.
    fn is_own(&self, found: &Joined, dock: Dock) -> bool {
        match dock {
            Dock::End(edge, _) => edge == found.edge,
            Dock::Port(port) => {
                let is_end = found.source.port == Some(port) || found.target.port == Some(port);
                is_end && self.counts.get(port).copied().unwrap_or(0) <= 1
            }
        }
    }

    // What stands at a side that isn't a loop's own.
    pub(crate) fn foreign(
        &self,
        alloc: Global,
        found: &Joined,
        side: Side,
    ) -> Result<Vec<Dock>, AllocError> {
        let mut foreign = Vec::new(alloc);
        for dock in self.sides.at(found.source.node, side) {
            if !self.is_own(found, *dock) {
                foreign.push(*dock)?;
            }
        }
        Ok(foreign)
    }

    // The loops at a side of a node, in document order.
    pub(crate) fn at(
        &self,
        alloc: Global,
        node: usize,
        side: Side,
    ) -> Result<Vec<Joined>, AllocError> {
        let mut here = Vec::new(alloc);
        if let Some(loops) = self.by_node.get(&node) {
            for found in loops.iter() {
                if side_of_loop(&self.sides, found) == Some(side) {
                    here.push(*found)?;
                }
            }
        }
        Ok(here)
    }
}
