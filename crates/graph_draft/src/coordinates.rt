//! What coordinates are relative to, by ELK's options json.shapeCoords and json.edgeCoords: the parent, the root, or the container of an
//! edge. The drawing is made relative to parents and containers.

use crate::draft::Draft;
use crate::element::Element;
use crate::points::Point;
use std::alloc::{AllocError, Global};

// What the points of edges are relative to.
#[derive(Clone, Copy, Drop, PartialEq, Eq)]
enum EdgeBase {
    Container,
    Parent,
    Root,
}

// What the shapes and the edges in a node are relative to.
#[derive(Clone, Copy, Drop)]
struct Mode {
    is_root: bool,
    edges: EdgeBase,
}

const PLAIN: Mode = Mode {
    is_root: false,
    edges: EdgeBase::Container,
};

const SHAPES: &str = "json.shapeCoords";

const EDGES: &str = "json.edgeCoords";

fn shapes_of(draft: &Draft, node: usize, around: Mode) -> bool {
    let element = Element::Node(node);
    if draft.asks(element, SHAPES, "ROOT") {
        true
    } else if draft.asks(element, SHAPES, "PARENT") {
        false
    } else {
        around.is_root
    }
}

fn edges_of(draft: &Draft, node: usize, around: Mode) -> EdgeBase {
    let element = Element::Node(node);
    if draft.asks(element, EDGES, "CONTAINER") {
        EdgeBase::Container
    } else if draft.asks(element, EDGES, "PARENT") {
        EdgeBase::Parent
    } else if draft.asks(element, EDGES, "ROOT") {
        EdgeBase::Root
    } else {
        around.edges
    }
}

fn mode_at(modes: &[Mode], node: Option<usize>) -> Mode {
    match node {
        Some(node) => modes.get(node).copied().unwrap_or(PLAIN),
        None => PLAIN,
    }
}

// For each node its mode: as it asks, or else that of the node around it.
fn modes_of(alloc: Global, draft: &Draft) -> Result<Vec<Mode>, AllocError> {
    let mut modes: Vec<Mode> = Vec::new(alloc);
    for at in 0..draft.given_nodes {
        let around = mode_at(modes.as_slice(), draft.parent_of(at));
        modes.push(Mode {
            is_root: shapes_of(draft, at, around),
            edges: edges_of(draft, at, around),
        })?;
    }
    Ok(modes)
}

const ORIGIN: Point = Point { x: 0.0, y: 0.0 };

fn point_at(points: &[Point], at: usize) -> Point {
    points.get(at).copied().unwrap_or(ORIGIN)
}

/// For each node of the graph its place in the whole drawing.
pub fn absolute_places(alloc: Global, draft: &Draft) -> Result<Vec<Point>, AllocError> {
    let mut places: Vec<Point> = Vec::new(alloc);
    for at in 0..draft.given_nodes {
        let around = match draft.parent_of(at) {
            Some(parent) => point_at(places.as_slice(), parent),
            None => ORIGIN,
        };
        places.push(draft.place_of(Element::Node(at)).moved(around))?;
    }
    Ok(places)
}

fn move_labels(
    alloc: Global,
    draft: &mut Draft,
    element: Element,
    by: Point,
) -> Result<(), AllocError> {
    for at in Vec::from_slice(alloc, draft.labels_of(element))?.iter() {
        let is_placed = match draft.labels.get(*at) {
            Some(label) => label.placed || label.has_place,
            None => false,
        };
        if is_placed {
            let place = draft.place_of(Element::Label(*at)).moved(by);
            draft.put(Element::Label(*at), place);
        }
    }
    Ok(())
}

fn move_points(points: &mut [Point], by: Point) {
    for point in points.iter_mut() {
        *point = point.moved(by);
    }
}

fn move_edge(alloc: Global, draft: &mut Draft, at: usize, by: Point) -> Result<(), AllocError> {
    if let Some(edge) = draft.edges.get_mut(at) {
        for section in edge.sections.iter_mut() {
            move_points(section.points.as_mut_slice(), by);
        }
        move_points(edge.junctions.as_mut_slice(), by);
    }
    move_labels(alloc, draft, Element::Edge(at), by)
}

// How far the points of an edge are moved.
fn shift_of(draft: &Draft, modes: &[Mode], places: &[Point], edge: usize, home: usize) -> Point {
    let base = match mode_at(modes, Some(home)).edges {
        EdgeBase::Container => return ORIGIN,
        EdgeBase::Parent => point_at(places, home),
        EdgeBase::Root => ORIGIN,
    };
    let level = draft.container_of(edge).unwrap_or(home);
    let from = point_at(places, level);
    Point {
        x: from.x - base.x,
        y: from.y - base.y,
    }
}

// Moves the ports and the labels of a node, and the labels of its ports, to what is relative to the root.
fn move_parts(alloc: Global, draft: &mut Draft, at: usize, by: Point) -> Result<(), AllocError> {
    for port in Vec::from_slice(alloc, draft.ports_of(at))?.iter() {
        let place = draft.place_of(Element::Port(*port)).moved(by);
        move_labels(alloc, draft, Element::Port(*port), place)?;
        draft.put(Element::Port(*port), place);
    }
    move_labels(alloc, draft, Element::Node(at), by)
}

// Whether all coordinates are told as they are.
fn are_plain(modes: &[Mode]) -> bool {
    modes
        .iter()
        .all(|mode| !mode.is_root && mode.edges == EdgeBase::Container)
}

fn move_edges(
    alloc: Global,
    draft: &mut Draft,
    modes: &[Mode],
    places: &[Point],
) -> Result<(), AllocError> {
    for at in 0..draft.given_edges {
        if let Some(edge) = draft.edges.get(at) {
            let by = shift_of(draft, modes, places, at, edge.home);
            if !by.is_at(ORIGIN) {
                move_edge(alloc, draft, at, by)?;
            }
        }
    }
    Ok(())
}

fn move_nodes(
    alloc: Global,
    draft: &mut Draft,
    modes: &[Mode],
    places: &[Point],
) -> Result<(), AllocError> {
    for at in 0..draft.given_nodes {
        let parent = draft.parent_of(at);
        if parent.is_some() && mode_at(modes, parent).is_root {
            let place = point_at(places, at);
            move_parts(alloc, draft, at, place)?;
            draft.put(Element::Node(at), place);
        }
    }
    Ok(())
}

/// Makes the places of a draft relative to what the graph asks for. It answers whether it asks for another base than usual.
pub fn tell_coordinates(alloc: Global, draft: &mut Draft) -> Result<bool, AllocError> {
    let modes = modes_of(alloc, draft)?;
    if are_plain(modes.as_slice()) {
        return Ok(false);
    }
    let places = absolute_places(alloc, draft)?;
    move_edges(alloc, draft, modes.as_slice(), places.as_slice())?;
    move_nodes(alloc, draft, modes.as_slice(), places.as_slice())?;
    Ok(true)
}
