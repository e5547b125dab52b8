//! Junction points: where routes with a common dock part or join. Circuit drawings mark these points with a dot.

use crate::docks::{Dock, docks_of};
use crate::element::{elements_of, has_items, place_of};
use crate::geometry::Point;
use crate::levels::{Edge, Levels, levels_of};
use crate::path::{PointKey, point_key};
use crate::routes::{Route, add_routes};
use crate::ways::{Passes, passes_of};
use serde_json::Value;
use std::alloc::{AllocError, Global};
use std::cmp::OrderedFloat;
use std::collections::{BTreeMap, BTreeSet};

// A line without ends, along which segments lie.
#[derive(Clone, Copy, Drop, PartialEq, Eq, PartialOrd, Ord)]
enum Axis {
    Level(OrderedFloat<f64>),
    Upright(OrderedFloat<f64>),
}

// The routes of a dock that have a segment along a line, by their numbers.
type Axes = BTreeMap<Axis, Vec<usize>>;

fn axis_of(from: Point, to: Point) -> Axis {
    if from.y == to.y {
        Axis::Level(OrderedFloat(to.y))
    } else {
        Axis::Upright(OrderedFloat(to.x))
    }
}

fn add_axes(alloc: Global, axes: &mut Axes, at: usize, turns: &[Point]) -> Result<(), AllocError> {
    for k in 1..turns.len() {
        let axis = axis_of(turns[k - 1], turns[k]);
        let routes = axes.entry(axis)?.or_insert(Vec::new(alloc));
        if routes.last() != Some(&at) {
            routes.push(at)?;
        }
    }
    Ok(())
}

fn axes_of(alloc: Global, dock: &Dock, routes: &[Route]) -> Result<Axes, AllocError> {
    let mut axes = BTreeMap::new(alloc);
    for at in dock.routes.iter() {
        if let Some(route) = routes.get(*at) {
            add_axes(alloc, &mut axes, *at, route.turns.as_slice())?;
        }
    }
    Ok(axes)
}

// Adds the ways that routes take at a point.
fn add_passing(
    passing: &mut Vec<(usize, Passes)>,
    near: Option<&Vec<usize>>,
    routes: &[Route],
    point: Point,
) -> Result<(), AllocError> {
    if let Some(near) = near {
        for at in near.iter() {
            if let Some(route) = routes.get(*at) {
                passing.push((*at, passes_of(route.turns.as_slice(), point)))?;
            }
        }
    }
    Ok(())
}

fn earlier(one: Option<usize>, other: usize) -> Option<usize> {
    match one {
        Some(one) if one < other => Some(one),
        _ => Some(other),
    }
}

// The first route that parts from another at a point, or joins it there.
fn first_parting(
    alloc: Global,
    point: Point,
    axes: &Axes,
    routes: &[Route],
) -> Result<Option<usize>, AllocError> {
    let mut passing = Vec::new(alloc);
    let level = axes.get(&Axis::Level(OrderedFloat(point.y)));
    let upright = axes.get(&Axis::Upright(OrderedFloat(point.x)));
    add_passing(&mut passing, level, routes, point)?;
    add_passing(&mut passing, upright, routes, point)?;
    let mut all = Passes::NONE;
    for (_, passes) in passing.iter() {
        all = all.and(*passes);
    }
    let parting = all.parting();
    let mut first = None;
    for (at, passes) in passing.iter() {
        if passes.meets(parting) {
            first = earlier(first, *at);
        }
    }
    Ok(first)
}

// The junction points in the whole drawing.
#[derive(Drop)]
struct Found {
    by_edge: Vec<Vec<Point>>,
    told: BTreeSet<PointKey>,
}

impl Found {
    fn tell_once(&mut self, edge: usize, point: Point) -> Result<(), AllocError> {
        if self.told.contains(&point_key(point)) {
            return Ok(());
        }
        self.tell(edge, point)
    }

    fn tell(&mut self, edge: usize, point: Point) -> Result<(), AllocError> {
        if let Some(points) = self.by_edge.get_mut(edge) {
            points.push(point)?;
            self.told.insert(point_key(point))?;
        }
        Ok(())
    }
}

fn join_at(
    alloc: Global,
    point: Point,
    axes: &Axes,
    routes: &[Route],
    found: &mut Found,
) -> Result<(), AllocError> {
    if found.told.contains(&point_key(point)) {
        return Ok(());
    }
    let first = first_parting(alloc, point, axes, routes)?;
    match first.and_then(|at| routes.get(at)) {
        Some(route) => found.tell(route.edge, point),
        None => Ok(()),
    }
}

fn join_dock(
    alloc: Global,
    dock: &Dock,
    routes: &[Route],
    found: &mut Found,
) -> Result<(), AllocError> {
    let axes = axes_of(alloc, dock, routes)?;
    let mut seen = BTreeSet::new(alloc);
    for at in dock.routes.iter() {
        if let Some(route) = routes.get(*at) {
            let points = route.points.as_slice();
            for k in 1..points.len().saturating_sub(1) {
                if seen.insert(point_key(points[k]))? {
                    join_at(alloc, points[k], &axes, routes, found)?;
                }
            }
        }
    }
    Ok(())
}

fn has_several(section: &Value, key: &str) -> bool {
    match section.get(key).and_then(Value::as_array) {
        Some(items) => items.len() > 1,
        None => false,
    }
}

// The points at which routes of an edge begin or end.
fn ends_of(alloc: Global, edge: &Edge<'_>) -> Result<BTreeSet<PointKey>, AllocError> {
    let mut ends = BTreeSet::new(alloc);
    for section in edge.sections.iter() {
        if !has_items(section.value, "incomingSections") {
            if let Some(start) = section.points.first() {
                ends.insert(point_key(*start))?;
            }
        }
        if !has_items(section.value, "outgoingSections") {
            if let Some(end) = section.points.last() {
                ends.insert(point_key(*end))?;
            }
        }
    }
    Ok(ends)
}

// The points at which several sections of an edge follow one, or one follows several.
fn meetings_of(alloc: Global, edge: &Edge<'_>) -> Result<Vec<Point>, AllocError> {
    let mut meetings = Vec::new(alloc);
    for section in edge.sections.iter() {
        if has_several(section.value, "incomingSections") {
            if let Some(start) = section.points.first() {
                meetings.push(*start)?;
            }
        }
        if has_several(section.value, "outgoingSections") {
            if let Some(end) = section.points.last() {
                meetings.push(*end)?;
            }
        }
    }
    Ok(meetings)
}

// Tells where sections of an edge meet, other than at its docks.
fn join_sections(
    alloc: Global,
    (at, edge): (usize, &Edge<'_>),
    origin: Point,
    found: &mut Found,
) -> Result<(), AllocError> {
    let ends = ends_of(alloc, edge)?;
    for point in meetings_of(alloc, edge)? {
        if !ends.contains(&point_key(point)) {
            found.tell_once(at, point.moved(origin))?;
        }
    }
    Ok(())
}

// The junction points of each edge in the whole drawing. Each is told once, with the first edge of its dock that passes it.
fn found_junctions(alloc: Global, levels: &Levels<'_>) -> Result<Vec<Vec<Point>>, AllocError> {
    let mut routes = Vec::new(alloc);
    let mut found = Found {
        by_edge: Vec::new(alloc),
        told: BTreeSet::new(alloc),
    };
    for (at, edge) in levels.edges.iter().enumerate() {
        found.by_edge.push(Vec::new(alloc))?;
        if edge.value.get("routing").is_none() {
            add_routes(alloc, (at, edge), levels, &mut routes)?;
        } else {
            // Slanted and curved routes of several edges part by degrees, those of one edge where its sections meet.
            join_sections(alloc, (at, edge), levels.origin_of(edge.home), &mut found)?;
        }
    }
    for dock in docks_of(alloc, routes.as_slice())? {
        if dock.routes.len() > 1 {
            join_dock(alloc, &dock, routes.as_slice(), &mut found)?;
        }
    }
    Ok(found.by_edge)
}

/// Where orthogonal routes with a common dock part or join, and where sections of one edge do: for each edge of a placed graph, in document order, its points as pairs of x and y,
/// relative to what its route is relative to. Each point is told once in the whole drawing, with the first edge of its dock that
/// passes it.
pub fn junction_points(alloc: Global, placed: &Value) -> Result<Vec<Vec<(f64, f64)>>, AllocError> {
    let levels = levels_of(alloc, placed)?;
    let mut told = Vec::new(alloc);
    let found = found_junctions(alloc, &levels)?;
    for (edge, points) in levels.edges.iter().zip(found.as_slice()) {
        let origin = levels.origin_of(edge.home);
        let mut pairs = Vec::new(alloc);
        for point in points.iter() {
            pairs.push((point.x - origin.x, point.y - origin.y))?;
        }
        told.push(pairs)?;
    }
    Ok(told)
}

// The junction points of each edge in the whole drawing: those in the document, or else those found here.
pub(crate) fn junctions_of(
    alloc: Global,
    levels: &Levels<'_>,
) -> Result<Vec<Vec<Point>>, AllocError> {
    let mut junctions = found_junctions(alloc, levels)?;
    for (at, edge) in levels.edges.iter().enumerate() {
        if tells_junctions(edge.value.get("junctionPoints")) {
            if let Some(points) = junctions.get_mut(at) {
                let origin = levels.origin_of(edge.home);
                points.clear();
                for point in elements_of(alloc, edge.value, "junctionPoints")? {
                    points.push(place_of(point).moved(origin))?;
                }
            }
        }
    }
    Ok(junctions)
}

fn tells_junctions(value: Option<&Value>) -> bool {
    match value {
        None => false,
        Some(value) => !value.is_null(),
    }
}
