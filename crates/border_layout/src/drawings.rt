//! Drawn levels, and how they stand in the whole drawing.

use border_graphs::LevelGraph;
use border_levels::{Model, Pair, Step};
use border_ring::Title;
use graph_draft::{Draft, Element, Point, Size, tidy};
use graph_layout::DrawnLevel;
use std::alloc::{AllocError, Global};
use std::collections::BTreeMap;

/// The level itself in the draft of a drawn level.
pub(crate) const ROOT: usize = 0;

pub(crate) const ORIGIN: Point = Point { x: 0.0, y: 0.0 };

/// A level as the engine drew it.
#[derive(Drop)]
pub(crate) struct Drawing {
    pub(crate) level: DrawnLevel,
    /// The pieces of edges, in the order in which they were sent.
    pub(crate) pieces: Vec<usize>,
    // By piece its place in that order.
    places: BTreeMap<usize, usize>,
    /// How many children the level has. The leaves that stand for its border follow these.
    pub(crate) children: usize,
    first: Option<usize>,
    last: Option<usize>,
}

impl Drawing {
    pub(crate) fn of(
        alloc: Global,
        level: DrawnLevel,
        sent: &LevelGraph,
    ) -> Result<Drawing, AllocError> {
        let mut places = BTreeMap::new(alloc);
        for (at, piece) in sent.pieces.iter().enumerate() {
            places.insert(*piece, at)?;
        }
        Ok(Drawing {
            level,
            pieces: Vec::from_slice(alloc, sent.pieces.as_slice())?,
            places,
            children: sent.children,
            first: sent.first,
            last: sent.last,
        })
    }

    /// Whether the leaf at a place among the children stands for the border.
    pub(crate) fn is_border(&self, at: usize) -> bool {
        self.first == Some(at) || self.last == Some(at)
    }

    /// The node at a place among the children, in the draft of the drawing.
    pub(crate) fn child_at(&self, at: usize) -> Option<usize> {
        self.level.draft.children_of(ROOT).get(at).copied()
    }

    // The edge that was sent for the piece at a place, in the draft of the drawing.
    fn edge_at(&self, at: usize) -> Option<usize> {
        self.level.draft.edges_of(ROOT).get(at).copied()
    }

    /// The route of the piece at a place, as it was drawn.
    pub(crate) fn route_at(&self, at: usize) -> &[Point] {
        match self.edge_at(at) {
            Some(edge) => self.level.draft.route_of(edge),
            None => NO_POINTS,
        }
    }

    /// The labels of the piece at a place, in the draft of the drawing.
    pub(crate) fn labels_at(&self, at: usize) -> &[usize] {
        match self.edge_at(at) {
            Some(edge) => self.level.draft.labels_of(Element::Edge(edge)),
            None => NO_NUMBERS,
        }
    }
}

const NO_POINTS: &[Point] = &[];

const NO_NUMBERS: &[usize] = &[];

/// Where a label stands, by a stage or else by an earlier drawing; nothing if it has no place.
pub(crate) fn place_of_label(draft: &Draft, label: usize) -> Option<Point> {
    match draft.labels.get(label) {
        Some(found) if found.placed || found.has_place => {
            Some(draft.place_of(Element::Label(label)))
        }
        _ => None,
    }
}

/// A drawn level as it stands in its node: its content is moved to where the ring around it leaves room, and its routes are led on to the
/// border. Places are measured from the node's corner.
#[derive(Drop)]
pub(crate) struct Placement {
    /// The number of its drawing.
    pub(crate) drawing: usize,
    pub(crate) size: Size,
    /// How far the content is moved from where it was drawn.
    pub(crate) shift: Point,
    /// The routes of its pieces, in the order of the drawing.
    pub(crate) routes: Vec<Vec<Point>>,
    /// The labels of the node that stand within it.
    pub(crate) titles: Vec<Title>,
    /// Whether its certificate holds for the edges of the graph.
    pub(crate) is_plain: bool,
}

/// All levels that were drawn, and how each stands now.
#[derive(Drop)]
pub(crate) struct Drawings {
    pub(crate) drawn: Vec<Drawing>,
    pub(crate) placed: Vec<Placement>,
    /// By level the number of its placement.
    pub(crate) now: BTreeMap<usize, usize>,
}

impl Drawings {
    pub(crate) fn none(alloc: Global) -> Drawings {
        Drawings {
            drawn: Vec::new(alloc),
            placed: Vec::new(alloc),
            now: BTreeMap::new(alloc),
        }
    }

    pub(crate) fn place(&mut self, level: usize, placement: Placement) -> Result<(), AllocError> {
        let at = self.placed.len();
        self.placed.push(placement)?;
        self.now.insert(level, at)?;
        Ok(())
    }

    /// How a level stands.
    pub(crate) fn placement_of(&self, level: usize) -> Option<&Placement> {
        self.placed.get(*self.now.get(&level)?)
    }

    /// The drawing of a level.
    pub(crate) fn drawing_of(&self, level: usize) -> Option<&Drawing> {
        self.drawn.get(self.placement_of(level)?.drawing)
    }

    /// Where the node at a place among the children of a level stands.
    fn place_of_child(&self, level: usize, at: usize) -> Option<Point> {
        let child = self.drawing_of(level)?.child_at(at)?;
        let draft = &self.drawing_of(level)?.level.draft;
        let place = draft.place_of(Element::Node(child));
        Some(place.moved(self.placement_of(level)?.shift))
    }

    /// By node where it stands in the whole drawing, as far as open levels reach.
    pub(crate) fn origins(&self, alloc: Global, model: &Model) -> Result<Vec<Point>, AllocError> {
        let mut origins = vec![in alloc; ORIGIN; model.nodes.len()]?;
        // Each level stands behind those around it.
        for level in model.levels.iter() {
            let around = point_at(origins.as_slice(), *level);
            for (at, child) in model.draft.children_of(*level).iter().enumerate() {
                if let (Some(place), Some(slot)) = (
                    self.place_of_child(*level, at),
                    origins.get_mut(*child),
                ) {
                    *slot = place.moved(around);
                }
            }
        }
        Ok(origins)
    }

    /// The route of a piece within its level.
    pub(crate) fn route_of(&self, level: usize, piece: usize) -> &[Point] {
        match self.found_route(level, piece) {
            Some(points) => points,
            None => NO_POINTS,
        }
    }

    fn found_route(&self, level: usize, piece: usize) -> Option<&[Point]> {
        let at = *self.drawing_of(level)?.places.get(&piece)?;
        Some(self.placement_of(level)?.routes.get(at)?.as_slice())
    }

    /// A label of a piece: where it stands within the level of the piece, if it has a place, and its size.
    pub(crate) fn label_of(
        &self,
        level: usize,
        piece: usize,
        at: usize,
    ) -> Option<(Option<Point>, Size)> {
        let drawing = self.drawing_of(level)?;
        let label = *drawing.labels_at(*drawing.places.get(&piece)?).get(at)?;
        let draft = &drawing.level.draft;
        let size = draft.size_of(Element::Label(label));
        let shift = self.placement_of(level)?.shift;
        Some(match place_of_label(draft, label) {
            Some(place) => (Some(place.moved(shift)), size),
            None => (None, size),
        })
    }

    fn add_step(
        &self,
        points: &mut Vec<Point>,
        model: &Model,
        step: Step,
        origins: &[Point],
    ) -> Result<(), AllocError> {
        if let Some(piece) = model.piece(step.piece) {
            let origin = point_at(origins, piece.level);
            let own = self.route_of(piece.level, step.piece);
            if step.is_flipped {
                for point in own.iter().rev() {
                    points.push(point.moved(origin))?;
                }
            } else {
                for point in own {
                    points.push(point.moved(origin))?;
                }
            }
        }
        Ok(())
    }

    /// The route of a pair in the whole drawing.
    pub(crate) fn route_of_pair(
        &self,
        alloc: Global,
        model: &Model,
        pair: &Pair,
        origins: &[Point],
    ) -> Result<Vec<Point>, AllocError> {
        let mut points = Vec::new(alloc);
        for step in pair.pieces.iter() {
            self.add_step(&mut points, model, *step, origins)?;
        }
        let mut kept = tidy(alloc, points.as_slice())?;
        if kept.len() < 2 {
            kept = Vec::new(alloc);
            if let (Some(first), Some(last)) = (points.first(), points.last()) {
                kept.push(*first)?;
                kept.push(*last)?;
            }
        }
        Ok(kept)
    }

    /// The routes of all pairs of open levels in the whole drawing.
    pub(crate) fn routes(
        &self,
        alloc: Global,
        model: &Model,
    ) -> Result<Vec<Vec<Point>>, AllocError> {
        let origins = self.origins(alloc, model)?;
        let mut routes = Vec::new(alloc);
        for pair in model.pairs.iter() {
            if !pair.pieces.is_empty() {
                routes.push(self.route_of_pair(alloc, model, pair, origins.as_slice())?)?;
            }
        }
        Ok(routes)
    }
}

/// A point of a list, or else the corner of the whole drawing.
pub(crate) fn point_at(points: &[Point], at: usize) -> Point {
    points.get(at).copied().unwrap_or(ORIGIN)
}
