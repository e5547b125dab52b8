//! Ends for helper edges.

use graph_draft::{Draft, End, Kind, Side};
use label_room::{Dock, Sides, sides_of};
use std::alloc::{AllocError, Global};
use std::collections::BTreeMap;

// The ends for helper edges: at each side of a node the first dock, so that no more of them share it, or else the node itself.
#[derive(Drop)]
pub(crate) struct Ends {
    sides: Sides,
    known: BTreeMap<(usize, Side), End>,
}

// The end of an edge at a node, as one at a port where one can be made.
fn docked(
    alloc: Global,
    draft: &mut Draft,
    edge: usize,
    kind: Kind,
) -> Result<Option<End>, AllocError> {
    if let Some((mut source, mut target)) = draft.ends_of(edge) {
        let end = match kind {
            Kind::Source => &mut source,
            Kind::Target => &mut target,
        };
        let dock = draft.dock_of(alloc, *end)?;
        *end = dock;
        draft.change_ends(alloc, edge, source, target)?;
        return Ok(Some(dock));
    }
    Ok(None)
}

// The port of a leaf that was made for labels, which has one at either side.
fn port_of_leaf(draft: &Draft, node: usize, side: Side) -> Option<usize> {
    for port in draft.ports_of(node) {
        if draft.side_asked(*port) == Some(side) {
            return Some(*port);
        }
    }
    None
}

impl Ends {
    pub(crate) fn of(alloc: Global, draft: &Draft) -> Result<Ends, AllocError> {
        Ok(Ends {
            sides: sides_of(alloc, draft)?,
            known: BTreeMap::new(alloc),
        })
    }

    fn find(
        &self,
        alloc: Global,
        draft: &mut Draft,
        node: usize,
        side: Side,
    ) -> Result<End, AllocError> {
        let port = if node < draft.given_nodes {
            match self.sides.at(node, side).first() {
                Some(Dock::Port(port)) => Some(*port),
                Some(Dock::End(edge, kind)) => match docked(alloc, draft, *edge, *kind)? {
                    Some(end) => end.port,
                    None => None,
                },
                None => None,
            }
        } else {
            port_of_leaf(draft, node, side)
        };
        Ok(End { node, port })
    }

    // The end for helper edges at a side of a node.
    pub(crate) fn at(
        &mut self,
        alloc: Global,
        draft: &mut Draft,
        node: usize,
        side: Side,
    ) -> Result<End, AllocError> {
        if let Some(end) = self.known.get(&(node, side)) {
            return Ok(*end);
        }
        let end = self.find(alloc, draft, node, side)?;
        self.known.insert((node, side), end)?;
        Ok(end)
    }
}
