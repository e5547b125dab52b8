//! The lanes in which the loops at a side of a node run.

use crate::spots::Span;
use std::alloc::{AllocError, Global};
use std::cmp::OrderedFloat;

// From where on along the side each lane is free. These numbers are the leaves of a tree, in which each number is the less of the two
// below it. The root stands at 1, and what is below a number at twice its place and next to that.
#[derive(Drop)]
struct Lanes {
    tree: Vec<f64>,
    // Where the leaves begin, and how far below the root they are.
    leaves: usize,
    depth: usize,
}

impl Lanes {
    // At least so many lanes, all free.
    fn free(alloc: Global, count: usize) -> Result<Lanes, AllocError> {
        let mut leaves: usize = 1;
        let mut depth: usize = 0;
        for _ in 0..64 {
            if leaves < count {
                leaves = leaves.saturating_mul(2);
                depth = depth.saturating_add(1);
            }
        }
        Ok(Lanes {
            tree: vec![in alloc; f64::NEG_INFINITY; leaves.saturating_mul(2)]?,
            leaves,
            depth,
        })
    }

    fn at(&self, place: usize) -> f64 {
        self.tree.get(place).copied().unwrap_or(f64::INFINITY)
    }

    fn set(&mut self, place: usize, free: f64) {
        if let Some(number) = self.tree.get_mut(place) {
            *number = free;
        }
    }

    // Takes the first lane that is free where a loop begins. It is free again where the loop ends.
    fn take(&mut self, span: Span) -> usize {
        let mut place: usize = 1;
        for _ in 0..self.depth {
            place = place.saturating_mul(2);
            if self.at(place) > span.from {
                place = place.saturating_add(1);
            }
        }
        let lane = place.saturating_sub(self.leaves);
        self.set(place, span.to);
        for _ in 0..self.depth {
            place = place / 2;
            let below = place.saturating_mul(2);
            let free = self.at(below).min(self.at(below.saturating_add(1)));
            self.set(place, free);
        }
        lane
    }
}

// The lanes of loops with these ends along a side, so that none lies on another one: what lies within a loop has a lane before it.
pub(crate) fn lanes_of(alloc: Global, loops: &[Span]) -> Result<Vec<usize>, AllocError> {
    let mut order: Vec<(usize, Span)> = Vec::new(alloc);
    for (at, span) in loops.iter().enumerate() {
        order.push((at, *span))?;
    }
    order.sort_by_key(|(_, span)| (OrderedFloat(span.to), OrderedFloat(-span.from)))?;
    let mut free = Lanes::free(alloc, loops.len())?;
    let mut lanes: Vec<usize> = vec![in alloc; 0; loops.len()]?;
    for (at, span) in order.iter() {
        if let Some(lane) = lanes.get_mut(*at) {
            *lane = free.take(*span);
        }
    }
    Ok(lanes)
}
