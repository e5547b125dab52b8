//! What stands beside lines where they leave or enter a node: labels of ports, labels of the ends of edges, and room for loops.

use crate::blocks::Block;
use crate::reserves::Reserves;
use graph_draft::{Draft, Element, Side};
use std::alloc::{AllocError, Global};
use std::collections::BTreeMap;

/// How far a port with all that stands beside its lines reaches.
#[derive(Clone, Copy, Drop)]
pub struct Reach {
    /// Outward from the side.
    pub out: f64,
    /// Along the side, to either hand of the line.
    pub aside: f64,
}

/// What stands beside the lines of ports, and the room that nodes keep beyond their sides.
#[derive(Drop)]
pub struct Strips {
    blocks: BTreeMap<usize, Vec<Block>>,
    pub(crate) reserves: Reserves,
}

impl Strips {
    /// Nothing yet.
    pub fn none(alloc: Global) -> Strips {
        Strips {
            blocks: BTreeMap::new(alloc),
            reserves: Reserves::none(alloc),
        }
    }

    /// Something stands beside the lines of a port, beyond what stands there already.
    pub fn add(&mut self, alloc: Global, port: usize, block: Block) -> Result<(), AllocError> {
        if let Some(blocks) = self.blocks.get_mut(&port) {
            blocks.push(block)?;
            return Ok(());
        }
        let blocks = vec![in alloc; block]?;
        self.blocks.insert(port, blocks)?;
        Ok(())
    }

    /// A node keeps so much room beyond a side.
    pub fn reserve(
        &mut self,
        alloc: Global,
        node: usize,
        side: Side,
        depth: f64,
    ) -> Result<(), AllocError> {
        self.reserves.keep(alloc, node, side, depth)
    }

    /// The room that a node was asked to keep beyond a side.
    pub fn reserved_at(&self, node: usize, side: Side) -> f64 {
        self.reserves.at(node, side)
    }

    /// Whether nothing stands beside any line.
    pub fn is_empty(&self) -> bool {
        self.blocks.is_empty()
    }

    /// What stands beside the lines of a port, from the node outwards.
    pub fn at(&self, port: usize) -> &[Block] {
        match self.blocks.get(&port) {
            Some(blocks) => blocks.as_slice(),
            None => &[],
        }
    }

    /// How far from a side of its node a port with all of it reaches. Pinned ports may stand within their node, or away from it.
    pub fn end_of(&self, draft: &Draft, port: usize, side: Side) -> f64 {
        self.reach_of(draft, port, side).out + face_of(draft, port, side)
    }

    /// How far out a port reaches with all of it, and how far along a side to either hand.
    pub fn reach_of(&self, draft: &Draft, port: usize, side: Side) -> Reach {
        let mut blocks: f64 = 0.0;
        let mut aside: f64 = 0.0;
        for block in self.at(port) {
            blocks += block.out + side.outward(block.size);
            aside = aside.max(block.aside + side.along(block.size));
        }
        Reach {
            out: side.outward(draft.size_of(Element::Port(port))) + blocks,
            aside,
        }
    }
}

// How far outward from a side of its node a pinned port begins.
fn face_of(draft: &Draft, port: usize, side: Side) -> f64 {
    let node = match draft.ports.get(port) {
        Some(port) if draft.is_pinned(port.node) => Element::Node(port.node),
        _ => return 0.0,
    };
    let room = draft.size_of(node);
    let (place, size) = (
        draft.place_of(Element::Port(port)),
        draft.size_of(Element::Port(port)),
    );
    match side {
        Side::North => -(place.y + size.height),
        Side::East => place.x - room.width,
        Side::South => place.y - room.height,
        Side::West => -(place.x + size.width),
    }
}
