//! Docks: the places at nodes where routes have their ends.

use crate::geometry::Point;
use crate::path::{PointKey, point_key};
use crate::routes::Route;
use std::alloc::{AllocError, Global};
use std::collections::BTreeMap;

// The routes that have an end at one anchor of a node, by their numbers, in document order.
#[derive(Drop)]
pub(crate) struct Dock {
    // The rank of its node, in the order in which routes reach nodes.
    rank: usize,
    pub(crate) routes: Vec<usize>,
}

// The docks in the order in which routes come to them, and where to find each.
#[derive(Drop)]
struct Docks {
    list: Vec<Dock>,
    ranks: BTreeMap<usize, usize>,
    places: BTreeMap<(usize, PointKey), usize>,
}

impl Docks {
    fn rank_of(&mut self, node: usize) -> Result<usize, AllocError> {
        let next = self.ranks.len();
        Ok(*self.ranks.entry(node)?.or_insert(next))
    }

    fn add(
        &mut self,
        alloc: Global,
        node: usize,
        anchor: Point,
        route: usize,
    ) -> Result<(), AllocError> {
        let rank = self.rank_of(node)?;
        let next = self.list.len();
        let place = *self
            .places
            .entry((node, point_key(anchor)))?
            .or_insert(next);
        if place == next {
            let routes = Vec::new(alloc);
            self.list.push(Dock { rank, routes })?;
        }
        if let Some(dock) = self.list.get_mut(place) {
            // A route may begin where it ends.
            if dock.routes.last() != Some(&route) {
                dock.routes.push(route)?;
            }
        }
        Ok(())
    }
}

pub(crate) fn docks_of(alloc: Global, routes: &[Route]) -> Result<Vec<Dock>, AllocError> {
    let mut docks = Docks {
        list: Vec::new(alloc),
        ranks: BTreeMap::new(alloc),
        places: BTreeMap::new(alloc),
    };
    for (at, route) in routes.iter().enumerate() {
        if let (Some(node), Some(anchor)) = (route.source, route.points.first()) {
            docks.add(alloc, node, *anchor, at)?;
        }
        if let (Some(node), Some(anchor)) = (route.target, route.points.last()) {
            docks.add(alloc, node, *anchor, at)?;
        }
    }
    let Docks { mut list, .. } = docks;
    list.sort_by_key(|dock| dock.rank)?;
    Ok(list)
}
