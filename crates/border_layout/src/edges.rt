//! The routes and the labels of edges at open levels, written into the draft.

use crate::drawings::{Drawings, point_at};
use crate::gaps::{LevelGaps, all_gaps};
use border_levels::{Model, Pair, Piece, Step};
use edge_stages::{join_hyperedges, split_hyperedges};
use graph_draft::{Element, Point, Routing};
use route_curves::{Frame, Gaps, Placed, Stretch, flipped, points_along, stretches_of};
use std::alloc::{AllocError, Global};
use std::collections::BTreeMap;

// What is known of the whole drawing.
#[derive(Clone, Copy, Drop)]
struct Whole<'a> {
    drawings: &'a Drawings,
    // By node where it stands.
    origins: &'a [Point],
    // By level its gaps, if some routes are slanted or curved.
    gaps: &'a BTreeMap<usize, LevelGaps>,
}

// The point as far from the corner of the whole drawing as another one is from a base.
fn from_base(point: Point, base: Point) -> Point {
    Point {
        x: point.x - base.x,
        y: point.y - base.y,
    }
}

impl Whole<'_> {
    // The stretches of a step of an edge that isn't drawn orthogonal, within the level of its piece.
    fn stretches_of_step(
        &self,
        alloc: Global,
        model: &Model,
        step: Step,
        piece: &Piece,
        has_stubs: bool,
    ) -> Result<Vec<Stretch>, AllocError> {
        let none = Gaps::none(alloc);
        let found = self.gaps.get(&piece.level);
        let level = Placed {
            frame: Frame(model.direction_of(piece.level)),
            gaps: match found {
                Some(level) => &level.gaps,
                None => &none,
            },
            part: match found {
                Some(level) => Some(level.part_of(model, piece)),
                None => None,
            },
            has_stubs,
        };
        let points = self.drawings.route_of(piece.level, step.piece);
        let stretches = stretches_of(alloc, points, &level)?;
        if step.is_flipped {
            flipped(alloc, stretches.as_slice())
        } else {
            Ok(stretches)
        }
    }

    // The stretches of an edge of one pair, relative to its level.
    fn stretches(
        &self,
        alloc: Global,
        model: &Model,
        pair: &Pair,
    ) -> Result<Vec<Stretch>, AllocError> {
        let is_curved = model.routing_of(pair.level) == Some(Routing::Splines);
        let has_stubs = is_curved || model.has_loops;
        let base = point_at(self.origins, pair.level);
        let mut all = Vec::new(alloc);
        for step in pair.pieces.iter() {
            if let Some(piece) = model.piece(step.piece) {
                let origin = point_at(self.origins, piece.level);
                for it in self.stretches_of_step(alloc, model, *step, piece, has_stubs)? {
                    all.push(Stretch {
                        from: from_base(it.from.moved(origin), base),
                        to: from_base(it.to.moved(origin), base),
                        ..it
                    })?;
                }
            }
        }
        Ok(all)
    }

    // The route of a pair, relative to a base.
    fn route(
        &self,
        alloc: Global,
        model: &Model,
        pair: &Pair,
        base: Point,
    ) -> Result<Vec<Point>, AllocError> {
        let mut points = Vec::new(alloc);
        for point in self
            .drawings
            .route_of_pair(alloc, model, pair, self.origins)?
            .iter()
        {
            points.push(from_base(*point, base))?;
        }
        Ok(points)
    }
}

// An edge of open levels: its pairs, and the outermost of the levels to which these belong. All its points are relative to that.
#[derive(Drop)]
struct OpenEdge {
    edge: usize,
    pairs: Vec<usize>,
    around: usize,
}

// The edges of open levels. The pairs of one edge stand side by side.
fn open_edges(alloc: Global, model: &Model) -> Result<Vec<OpenEdge>, AllocError> {
    let mut edges: Vec<OpenEdge> = Vec::new(alloc);
    for (at, pair) in model.pairs.iter().enumerate() {
        if pair.pieces.is_empty() {
            continue;
        }
        let is_more = match edges.last() {
            Some(last) => last.edge == pair.edge,
            None => false,
        };
        if !is_more {
            edges.push(OpenEdge {
                edge: pair.edge,
                pairs: Vec::new(alloc),
                around: pair.level,
            })?;
        }
        if let Some(last) = edges.last_mut() {
            last.pairs.push(at)?;
            if model.depth_of(pair.level) < model.depth_of(last.around) {
                last.around = pair.level;
            }
        }
    }
    Ok(edges)
}

// By pair the edge of the draft that gets its route: when edges of several ends are split, an edge is made for each pair but the first.
fn routed_edges(alloc: Global, model: &Model) -> Result<Vec<usize>, AllocError> {
    let mut next = model.draft.edges.len();
    let mut numbers = Vec::new(alloc);
    for pair in model.pairs.iter() {
        if pair.at == 0 {
            numbers.push(pair.edge)?;
        } else {
            numbers.push(next)?;
            next = next.saturating_add(1);
        }
    }
    Ok(numbers)
}

fn set_routes_of(
    alloc: Global,
    model: &mut Model,
    whole: Whole<'_>,
    edge: &OpenEdge,
    routed: &[usize],
) -> Result<(), AllocError> {
    let base = point_at(whole.origins, edge.around);
    for at in edge.pairs.iter() {
        let points = match model.pair(*at) {
            Some(pair) => whole.route(alloc, model, pair, base)?,
            None => continue,
        };
        if let Some(number) = routed.get(*at) {
            model.draft.set_route(alloc, *number, points)?;
        }
    }
    Ok(())
}

// Gives edges their orthogonal routes. Those of several ends are split for it, and joined again.
fn set_routes(
    alloc: Global,
    model: &mut Model,
    whole: Whole<'_>,
    edges: &[OpenEdge],
) -> Result<(), AllocError> {
    let routed = routed_edges(alloc, model)?;
    let mark = model.draft.mark();
    let split = split_hyperedges(alloc, &mut model.draft)?;
    for edge in edges {
        set_routes_of(alloc, model, whole, edge, routed.as_slice())?;
    }
    join_hyperedges(alloc, &mut model.draft, split)?;
    model.draft.undo_to(mark)
}

// The points of a section of an edge of several pairs that isn't drawn orthogonal. It keeps its corners.
fn bent_corners(
    alloc: Global,
    frame: Frame,
    points: &[Point],
    routing: Routing,
) -> Result<Vec<Point>, AllocError> {
    let none = Gaps::none(alloc);
    let level = Placed {
        frame,
        gaps: &none,
        part: None,
        has_stubs: false,
    };
    let stretches = stretches_of(alloc, points, &level)?;
    points_along(alloc, stretches.as_slice(), routing)
}

// Draws an edge of one pair anew, with slanted or curved routes.
fn bend_pair(
    alloc: Global,
    model: &mut Model,
    whole: Whole<'_>,
    (edge, pair): (usize, usize),
    routing: Routing,
) -> Result<(), AllocError> {
    let stretches = match model.pair(pair) {
        Some(pair) => whole.stretches(alloc, model, pair)?,
        None => return Ok(()),
    };
    let points = points_along(alloc, stretches.as_slice(), routing)?;
    if !points.is_empty() {
        model.draft.set_route(alloc, edge, points)?;
    }
    Ok(())
}

// Draws an edge anew if the level to which its points are relative asks for slanted or curved routes.
fn bend(
    alloc: Global,
    model: &mut Model,
    whole: Whole<'_>,
    edge: &OpenEdge,
) -> Result<(), AllocError> {
    let Some(routing) = model.routing_of(edge.around) else {
        return Ok(());
    };
    if let [pair] = edge.pairs.as_slice() {
        return bend_pair(alloc, model, whole, (edge.edge, *pair), routing);
    }
    let frame = Frame(model.direction_of(edge.around));
    if let Some(edge) = model.draft.edges.get_mut(edge.edge) {
        for section in edge.sections.iter_mut() {
            let points = bent_corners(alloc, frame, section.points.as_slice(), routing)?;
            if !points.is_empty() {
                section.points = points;
            }
        }
    }
    Ok(())
}

// Writes the places of the labels of an edge, relative to what its points are relative to.
fn write_labels(
    alloc: Global,
    model: &mut Model,
    whole: Whole<'_>,
    edge: &OpenEdge,
) -> Result<(), AllocError> {
    let mut labels = Vec::new(alloc);
    for at in edge.pairs.iter().take(1) {
        if let Some(pair) = model.pair(*at) {
            for label in pair.labels.iter() {
                labels.push(*label)?;
            }
        }
    }
    let base = point_at(whole.origins, edge.around);
    for it in labels.iter() {
        let level = match model.piece(it.piece) {
            Some(piece) => piece.level,
            None => continue,
        };
        if let Some((Some(place), size)) = whole.drawings.label_of(level, it.piece, it.at) {
            let place = place.moved(point_at(whole.origins, level));
            let label = Element::Label(it.label);
            model.draft.put(label, from_base(place, base));
            model.draft.resize(label, size);
        }
    }
    Ok(())
}

/// Writes the edges of open levels into the draft. It tells levels to be altered that aren't.
pub(crate) fn write_edges(
    alloc: Global,
    model: &mut Model,
    drawings: &Drawings,
) -> Result<(), AllocError> {
    let origins = drawings.origins(alloc, model)?;
    let gaps = all_gaps(alloc, model, drawings)?;
    let whole = Whole {
        drawings,
        origins: origins.as_slice(),
        gaps: &gaps,
    };
    let edges = open_edges(alloc, model)?;
    set_routes(alloc, model, whole, edges.as_slice())?;
    for edge in edges.iter() {
        bend(alloc, model, whole, edge)?;
        write_labels(alloc, model, whole, edge)?;
        let routing = model.routing_of(edge.around);
        if let Some(edge) = model.draft.edges.get_mut(edge.edge) {
            edge.routing = routing;
        }
    }
    Ok(())
}
