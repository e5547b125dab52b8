//! Orders of vertices in which most arcs lead onwards.

use crate::layers::Arc;
use std::alloc::{AllocError, Global};

// A vertex on the way, and the number of the arc along which to go on.
#[derive(Clone, Copy, Debug, Drop)]
struct Visit {
    vertex: usize,
    next: usize,
}

// A walk through a graph, depth first.
#[derive(Drop)]
struct Walk {
    is_seen: Vec<bool>,
    path: Vec<Visit>,
    // The vertices from which all ways have been gone, in this order.
    left: Vec<usize>,
}

impl Walk {
    fn new(alloc: Global, count: usize) -> Result<Walk, AllocError> {
        Ok(Walk {
            is_seen: vec![in alloc; false; count]?,
            path: Vec::new(alloc),
            left: Vec::new(alloc),
        })
    }

    // Goes to a vertex, unless it has been seen.
    fn enter(&mut self, arcs: &[Arc], vertex: usize) -> Result<(), AllocError> {
        match self.is_seen.get_mut(vertex) {
            Some(is_seen) if !*is_seen => *is_seen = true,
            _ => return Ok(()),
        }
        let next = arcs.partition_point(|arc| arc.tail < vertex);
        self.path.push(Visit { vertex, next })?;
        Ok(())
    }

    // Goes on along an arc, or leaves a vertex. It answers whether there was one on the way.
    fn step(&mut self, arcs: &[Arc]) -> Result<bool, AllocError> {
        let Some(visit) = self.path.pop() else {
            return Ok(false);
        };
        match arcs.get(visit.next) {
            Some(arc) if arc.tail == visit.vertex => {
                let next = visit.next.saturating_add(1);
                self.path.push(Visit { next, ..visit })?;
                self.enter(arcs, arc.head)?;
            }
            _ => self.left.push(visit.vertex)?,
        }
        Ok(true)
    }

    fn walk_from(&mut self, arcs: &[Arc], vertex: usize) -> Result<(), AllocError> {
        self.enter(arcs, vertex)?;
        for _ in 0..usize::MAX {
            if !self.step(arcs)? {
                break;
            }
        }
        Ok(())
    }
}

/// The places of the vertices below a count in an order in which all arcs lead onwards but those that close a cycle. The arcs stand in
/// the order of their tails.
pub(crate) fn places_of(
    alloc: Global,
    count: usize,
    arcs: &[Arc],
) -> Result<Vec<usize>, AllocError> {
    let mut walk = Walk::new(alloc, count)?;
    for vertex in 0..count {
        walk.walk_from(arcs, vertex)?;
    }
    let mut places = vec![in alloc; 0; count]?;
    for (number, vertex) in walk.left.iter().rev().enumerate() {
        if let Some(place) = places.get_mut(*vertex) {
            *place = number;
        }
    }
    Ok(places)
}
