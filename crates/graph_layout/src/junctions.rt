//! The points where routes of edges part or join, in a draft and in the graph that has its places.

use elk_picture::junction_points;
use graph_draft::{Draft, Edge, Point, absolute_places, number_value};
use serde_json::value::Map;
use serde_json::{Value, put};
use std::alloc::{AllocError, Global};
use std::cmp::OrderedFloat;
use std::collections::BTreeSet;

const ROOT: usize = 0;

// Gives edges the points where their routes part from others. It answers whether there are any.
fn add_junctions(alloc: Global, draft: &mut Draft, placed: &Value) -> Result<bool, AllocError> {
    let mut has_any = false;
    for (at, pairs) in junction_points(alloc, placed)?.iter().enumerate() {
        if let Some(edge) = draft.edges.get_mut(at) {
            edge.junctions.clear();
            for (x, y) in pairs.iter() {
                edge.junctions.push(Point { x: *x, y: *y })?;
                has_any = true;
            }
        }
    }
    Ok(has_any)
}

// A point that can be looked up.
#[derive(Clone, Copy, Drop, PartialEq, Eq, PartialOrd, Ord)]
struct Place {
    x: OrderedFloat<f64>,
    y: OrderedFloat<f64>,
}

const ORIGIN: Point = Point { x: 0.0, y: 0.0 };

// Where the contents of a draft's nodes stand in the whole drawing.
#[derive(Drop)]
struct Origins {
    // For each node its place. None if the points of all edges are relative to the root.
    places: Vec<Point>,
}

fn is_flat(draft: &Draft) -> bool {
    draft
        .nodes
        .iter()
        .take(draft.given_nodes)
        .all(|node| node.parent.unwrap_or(ROOT) == ROOT)
}

impl Origins {
    fn of(alloc: Global, draft: &Draft) -> Result<Origins, AllocError> {
        let places = if is_flat(draft) {
            Vec::new(alloc)
        } else {
            absolute_places(alloc, draft)?
        };
        Ok(Origins { places })
    }

    // What the points of an edge are relative to. A draft that is laid out has at most 50 levels.
    fn of_edge(&self, draft: &Draft, edge: usize) -> Point {
        if self.places.is_empty() {
            return ORIGIN;
        }
        match draft.container_of(edge) {
            Some(level) => self.places.get(level).copied().unwrap_or(ORIGIN),
            None => ORIGIN,
        }
    }
}

// Whether no end of a route has been at the point before.
fn is_new(
    ends: &mut BTreeSet<Place>,
    origin: Point,
    point: Option<&Point>,
) -> Result<bool, AllocError> {
    match point {
        // Zero has one sign.
        Some(point) => Ok(ends.insert(Place {
            x: OrderedFloat(point.x + origin.x + 0.0),
            y: OrderedFloat(point.y + origin.y + 0.0),
        })?),
        None => Ok(true),
    }
}

fn are_new(ends: &mut BTreeSet<Place>, origin: Point, edge: &Edge) -> Result<bool, AllocError> {
    for section in edge.sections.iter() {
        let (first, last) = (section.points.first(), section.points.last());
        if !is_new(ends, origin, first)? || !is_new(ends, origin, last)? {
            return Ok(false);
        }
    }
    Ok(true)
}

// Whether routes may part or join. None does if all of their ends are at different points of the drawing.
fn may_have_junctions(alloc: Global, draft: &Draft) -> Result<bool, AllocError> {
    let origins = Origins::of(alloc, draft)?;
    let mut ends = BTreeSet::new(alloc);
    for (at, edge) in draft.edges.iter().take(draft.given_edges).enumerate() {
        if !are_new(&mut ends, origins.of_edge(draft, at), edge)? {
            return Ok(true);
        }
    }
    Ok(false)
}

/// Gives the edges of a draft the points where their routes part from others, which are looked for in the placed graph. It answers whether
/// there are any.
pub(crate) fn find_junctions(
    alloc: Global,
    draft: &mut Draft,
    placed: &Value,
) -> Result<bool, AllocError> {
    if may_have_junctions(alloc, draft)? {
        add_junctions(alloc, draft, placed)
    } else {
        Ok(false)
    }
}

// Where a number stands in a list; behind its end if it doesn't.
fn place_in(list: &[usize], number: usize) -> usize {
    list.iter()
        .position(|it| *it == number)
        .unwrap_or(list.len())
}

// The pointer from the root to an edge, as of JSON.
fn pointer_to(
    alloc: Global,
    draft: &Draft,
    edge: usize,
    home: usize,
) -> Result<String, AllocError> {
    let mut places = Vec::new(alloc);
    let mut node = home;
    for _ in 0..draft.nodes.len() {
        let Some(parent) = draft.parent_of(node) else {
            break;
        };
        places.push(place_in(draft.children_of(parent), node))?;
        node = parent;
    }
    let mut pointer = String::new(alloc);
    for place in places.iter().rev() {
        let step = format!(in alloc; "/children/{place}")?;
        pointer.push_str(step.as_str())?;
    }
    let place = place_in(draft.edges_of(home), edge);
    let step = format!(in alloc; "/edges/{place}")?;
    pointer.push_str(step.as_str())?;
    Ok(pointer)
}

fn points_value(alloc: Global, points: &[Point]) -> Result<Value, AllocError> {
    let mut values = Vec::new(alloc);
    for point in points {
        let mut members = Map::new(alloc);
        put(&mut members, alloc, "x", number_value(point.x))?;
        put(&mut members, alloc, "y", number_value(point.y))?;
        values.push(Value::Object(members))?;
    }
    Ok(Value::Array(values))
}

fn tell_at(
    alloc: Global,
    placed: &mut Value,
    pointer: &str,
    points: &[Point],
) -> Result<(), AllocError> {
    if let Some(Value::Object(members)) = placed.pointer_mut(pointer) {
        put(
            members,
            alloc,
            "junctionPoints",
            points_value(alloc, points)?,
        )?;
    }
    Ok(())
}

/// Writes the junctions of a draft into the graph that has its places.
pub(crate) fn tell_junctions(
    alloc: Global,
    placed: &mut Value,
    draft: &Draft,
) -> Result<(), AllocError> {
    for (at, edge) in draft.edges.iter().take(draft.given_edges).enumerate() {
        if !edge.junctions.is_empty() {
            let pointer = pointer_to(alloc, draft, at, edge.home)?;
            tell_at(alloc, placed, pointer.as_str(), edge.junctions.as_slice())?;
        }
    }
    Ok(())
}
