//! The sections of edges.

use crate::draft::Draft;
use crate::element::Section;
use crate::points::{Point, tidy};
use std::alloc::{AllocError, Global};

const NO_POINTS: &[Point] = &[];

fn plain_section(alloc: Global, points: Vec<Point>) -> Section {
    Section {
        points,
        incoming: Vec::new(alloc),
        outgoing: Vec::new(alloc),
        source: Some(0),
        target: Some(0),
    }
}

impl Draft {
    /// The points of an edge's first section; none where it isn't placed.
    pub fn route_of(&self, edge: usize) -> &[Point] {
        match self.edges.get(edge) {
            Some(edge) => match edge.sections.first() {
                Some(section) => section.points.as_slice(),
                None => NO_POINTS,
            },
            None => NO_POINTS,
        }
    }

    /// Its own copy of a route.
    pub fn copy_of_route(&self, alloc: Global, edge: usize) -> Result<Vec<Point>, AllocError> {
        let mut points = Vec::new(alloc);
        for point in self.route_of(edge) {
            points.push(*point)?;
        }
        Ok(points)
    }

    /// Gives an edge one section with these points, as they are.
    pub fn set_route(
        &mut self,
        alloc: Global,
        edge: usize,
        points: Vec<Point>,
    ) -> Result<(), AllocError> {
        let sections = vec![in alloc; plain_section(alloc, points)]?;
        if let Some(edge) = self.edges.get_mut(edge) {
            edge.sections = sections;
        }
        Ok(())
    }

    /// Gives an edge of one section another route, without the points at which it doesn't turn. A route of one point keeps both its
    /// ends.
    pub fn route(
        &mut self,
        alloc: Global,
        edge: usize,
        points: &[Point],
    ) -> Result<(), AllocError> {
        let mut kept = tidy(alloc, points)?;
        if kept.len() < 2 {
            kept = Vec::new(alloc);
            if let (Some(first), Some(last)) = (points.first(), points.last()) {
                kept.push(*first)?;
                kept.push(*last)?;
            }
        }
        self.set_route(alloc, edge, kept)
    }
}
