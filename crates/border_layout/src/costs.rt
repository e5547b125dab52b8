//! What is counted in a drawing: crossings, bends and length.

use graph_draft::Point;
use std::alloc::{AllocError, Global};
use std::cmp::OrderedFloat;

/// What counts for the choice among drawings: crossings first, then bends, then length.
#[derive(Clone, Copy, Debug, Drop, PartialEq, Eq, PartialOrd, Ord)]
pub(crate) struct Cost {
    pub(crate) crossings: usize,
    bends: usize,
    length: OrderedFloat<f64>,
}

// A line of a route along one of the axes: the coordinate that all its points have, and from where to where the other one reaches.
#[derive(Clone, Copy, Drop)]
struct Line {
    route: usize,
    at: f64,
    from: f64,
    to: f64,
}

// The lines of routes, those of no length left out.
#[derive(Drop)]
struct Lines {
    upright: Vec<Line>,
    level: Vec<Line>,
}

impl Lines {
    fn add(&mut self, route: usize, a: Point, b: Point) -> Result<(), AllocError> {
        if a.x != b.x {
            self.level.push(Line {
                route,
                at: a.y,
                from: a.x.min(b.x),
                to: a.x.max(b.x),
            })?;
        } else if a.y != b.y {
            self.upright.push(Line {
                route,
                at: a.x,
                from: a.y.min(b.y),
                to: a.y.max(b.y),
            })?;
        }
        Ok(())
    }

    fn of(alloc: Global, routes: &[Vec<Point>]) -> Result<Lines, AllocError> {
        let mut lines = Lines {
            upright: Vec::new(alloc),
            level: Vec::new(alloc),
        };
        for (route, points) in routes.iter().enumerate() {
            for (a, b) in points.iter().zip(points.iter().skip(1)) {
                lines.add(route, *a, *b)?;
            }
        }
        lines.level.sort_by_key(|line| OrderedFloat(line.at))?;
        Ok(lines)
    }
}

// How often a vertical line crosses horizontal ones of other routes within both. These are sorted from the top to the bottom.
fn crossings_with(one: Line, level: &[Line]) -> usize {
    let first = level.partition_point(|line| line.at <= one.from);
    let mut count: usize = 0;
    for other in level.iter().skip(first) {
        if other.at >= one.to {
            break;
        }
        if other.route != one.route && other.from < one.at && one.at < other.to {
            count = count.saturating_add(1);
        }
    }
    count
}

fn crossings_of(alloc: Global, routes: &[Vec<Point>]) -> Result<usize, AllocError> {
    let lines = Lines::of(alloc, routes)?;
    let mut count: usize = 0;
    for one in lines.upright.iter() {
        count = count.saturating_add(crossings_with(*one, lines.level.as_slice()));
    }
    Ok(count)
}

fn length_of(points: &[Point]) -> f64 {
    let mut length = 0.0;
    for (a, b) in points.iter().zip(points.iter().skip(1)) {
        length = length + (b.x - a.x).abs() + (b.y - a.y).abs();
    }
    length
}

/// The cost of a drawing with these routes.
pub(crate) fn cost_of(alloc: Global, routes: &[Vec<Point>]) -> Result<Cost, AllocError> {
    let mut bends: usize = 0;
    let mut length = 0.0;
    for points in routes {
        bends = bends.saturating_add(points.len().saturating_sub(2));
        length += length_of(points.as_slice());
    }
    Ok(Cost {
        crossings: crossings_of(alloc, routes)?,
        bends,
        length: OrderedFloat(length),
    })
}
