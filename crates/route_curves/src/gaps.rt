//! The gaps between layers.

use crate::frame::Span;
use std::alloc::{AllocError, Global};
use std::collections::BTreeMap;

// A curve goes straight for so long before a layer, so that an arrow head comes in level; in a narrow gap for a part of that.
const STUB: f64 = 10.0;

const MOST_OF_GAP: f64 = 0.25;

/// Where slanted pieces lie between two layers.
#[derive(Clone, Copy, Drop)]
pub struct Gap {
    pub from: f64,
    pub to: f64,
    /// For how long a curve goes straight before the second layer.
    pub stub: f64,
}

/// A node of a level: from where to where it reaches along the flow, its layer, and its part of the level.
#[derive(Clone, Copy, Drop)]
pub struct Layered {
    pub span: Span,
    pub layer: usize,
    pub part: usize,
}

/// The gaps between the layers of a level, one list for each of its parts, in ascending order.
#[derive(Drop)]
pub struct Gaps {
    lists: Vec<Vec<Gap>>,
    places: BTreeMap<usize, usize>,
}

// The gap that begins at or behind one place and has another place within.
fn gap_around(gaps: &[Gap], before: f64, within: f64) -> Option<Gap> {
    let at = gaps.partition_point(|gap| gap.from < within);
    let gap = gaps.get(at.checked_sub(1)?)?;
    if before <= gap.from && within < gap.to {
        Some(*gap)
    } else {
        None
    }
}

impl Gaps {
    /// No gaps.
    pub fn none(alloc: Global) -> Gaps {
        Gaps {
            lists: Vec::new(alloc),
            places: BTreeMap::new(alloc),
        }
    }

    // The gap of a part that begins at or behind one place and has another place within; the first of all parts if none is named.
    // Parts stand beside one another, so a route never passes a gap of another part.
    pub(crate) fn around(&self, part: Option<usize>, before: f64, within: f64) -> Option<Gap> {
        if let Some(part) = part {
            let place = self.places.get(&part).copied()?;
            return gap_around(self.lists.get(place)?.as_slice(), before, within);
        }
        for gaps in self.lists.iter() {
            let found = gap_around(gaps.as_slice(), before, within);
            if found.is_some() {
                return found;
            }
        }
        None
    }
}

// The layers of the parts of a level, by their numbers, in the order in which the parts come up.
#[derive(Drop)]
struct Parts {
    layers: Vec<BTreeMap<usize, Span>>,
    places: BTreeMap<usize, usize>,
}

impl Parts {
    fn add(&mut self, alloc: Global, node: Layered) -> Result<(), AllocError> {
        let next = self.layers.len();
        let place = *self.places.entry(node.part)?.or_insert(next);
        if place == next {
            self.layers.push(BTreeMap::new(alloc))?;
        }
        if let Some(layers) = self.layers.get_mut(place) {
            let span = match layers.get(&node.layer) {
                Some(span) => Span {
                    from: span.from.min(node.span.from),
                    to: span.to.max(node.span.to),
                },
                None => node.span,
            };
            layers.insert(node.layer, span)?;
        }
        Ok(())
    }
}

fn gaps_of(alloc: Global, layers: &BTreeMap<usize, Span>) -> Result<Vec<Gap>, AllocError> {
    let mut gaps = Vec::new(alloc);
    let mut before: Option<Span> = None;
    for (_, layer) in layers.iter() {
        if let Some(before) = before {
            let (from, to) = (before.to, layer.from);
            let stub = STUB.min((to - from) * MOST_OF_GAP);
            gaps.push(Gap { from, to, stub })?;
        }
        before = Some(*layer);
    }
    Ok(gaps)
}

/// The gaps between the layers of a level.
pub fn gaps_between(alloc: Global, nodes: &[Layered]) -> Result<Gaps, AllocError> {
    let mut parts = Parts {
        layers: Vec::new(alloc),
        places: BTreeMap::new(alloc),
    };
    for node in nodes {
        parts.add(alloc, *node)?;
    }
    let Parts { layers, places } = parts;
    let mut lists = Vec::new(alloc);
    for layers in layers.iter() {
        lists.push(gaps_of(alloc, layers)?)?;
    }
    Ok(Gaps { lists, places })
}
