//! The room that nodes keep beyond their sides.

use graph_draft::Side;
use std::alloc::{AllocError, Global};
use std::collections::BTreeMap;

// The room that one node keeps, in the order in which it was asked for.
#[derive(Drop)]
pub(crate) struct Reserve {
    pub(crate) node: usize,
    pub(crate) depths: Vec<(Side, f64)>,
}

// The nodes that keep room, in the order in which they were first asked.
#[derive(Drop)]
pub(crate) struct Reserves {
    pub(crate) nodes: Vec<Reserve>,
    places: BTreeMap<usize, usize>,
}

fn deepen(depths: &mut [(Side, f64)], side: Side, depth: f64) -> bool {
    for (other, kept) in depths.iter_mut() {
        if *other == side {
            *kept = kept.max(depth);
            return true;
        }
    }
    false
}

impl Reserves {
    pub(crate) fn none(alloc: Global) -> Reserves {
        Reserves {
            nodes: Vec::new(alloc),
            places: BTreeMap::new(alloc),
        }
    }

    pub(crate) fn at(&self, node: usize, side: Side) -> f64 {
        let reserve = match self.places.get(&node) {
            Some(at) => self.nodes.get(*at),
            None => None,
        };
        if let Some(reserve) = reserve {
            for (other, depth) in reserve.depths.iter() {
                if *other == side {
                    return *depth;
                }
            }
        }
        0.0
    }

    pub(crate) fn keep(
        &mut self,
        alloc: Global,
        node: usize,
        side: Side,
        depth: f64,
    ) -> Result<(), AllocError> {
        let at = match self.places.get(&node) {
            Some(at) => *at,
            None => {
                let at = self.nodes.len();
                self.nodes.push(Reserve {
                    node,
                    depths: Vec::new(alloc),
                })?;
                self.places.insert(node, at)?;
                at
            }
        };
        if let Some(reserve) = self.nodes.get_mut(at) {
            if !deepen(reserve.depths.as_mut_slice(), side, depth) {
                reserve.depths.push((side, depth.max(0.0)))?;
            }
        }
        Ok(())
    }
}
