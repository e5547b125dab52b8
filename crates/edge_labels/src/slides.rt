//! A label in mid-edge stands in one layer. If its line is long, it moves towards the middle of the line, as far as nothing else
//! stands there.

use crate::bands::{Bands, Rect};
use graph_draft::{Draft, Element, Point, Side, joined_edges, rounded};
use label_room::{Stack, place_stack};
use std::alloc::{AllocError, Global};
use std::collections::BTreeMap;

// The whole way is tried first, and then parts of it.
const PARTS: [f64; 4] = [1.0, 0.75, 0.5, 0.25];

// A shorter way is not worth it.
const LEAST_WAY: f64 = 4.0;

// Labels that stand at a line of their edge.
#[derive(Drop)]
pub(crate) struct Slide {
    pub(crate) level: usize,
    pub(crate) edge: usize,
    // The side out of which the line runs.
    pub(crate) side: Side,
    pub(crate) stack: Stack,
    // Where the line lies across its direction.
    pub(crate) line: f64,
    // The room between labels and lines.
    pub(crate) room: f64,
    pub(crate) labels: Vec<usize>,
}

impl Slide {
    // From where to where the labels reach along their line.
    fn reach(&self, draft: &Draft) -> (f64, f64) {
        let (mut from, mut to) = (f64::INFINITY, f64::NEG_INFINITY);
        for label in self.labels.iter() {
            let label = Element::Label(*label);
            let start = self.side.back(draft.place_of(label));
            from = from.min(start);
            to = to.max(start + self.side.outward(draft.size_of(label)));
        }
        (from, to)
    }

    // Whether the labels stand at the line between two points of the route.
    fn is_at(&self, (from, to): (f64, f64), one: Point, other: Point) -> bool {
        let side = self.side;
        let is_beside = side.down(one) == self.line && side.down(other) == self.line;
        let (start, end) = (side.back(one), side.back(other));
        is_beside && start.min(end) <= from && to <= start.max(end)
    }

    // How far the labels may move to stand in the middle of the straight line that they are at.
    fn way(&self, draft: &Draft) -> f64 {
        let (from, to) = self.reach(draft);
        let points = draft.route_of(self.edge);
        for (point, next) in points.iter().zip(points.iter().skip(1)) {
            if self.is_at((from, to), *point, *next) {
                let ends = self.side.back(*point) + self.side.back(*next);
                return rounded((ends - from - to) / 2.0);
            }
        }
        0.0
    }

    // Places the labels so far along the line.
    fn place(&self, draft: &mut Draft, distance: f64) {
        let back = self.side.back(self.stack.place) + distance;
        let place = self.side.with_back(self.stack.place, back);
        let stack = Stack {
            place,
            ..self.stack
        };
        place_stack(draft, self.labels.as_slice(), stack);
    }

    // Whether none of the labels meets any of some rectangles.
    fn is_clear(&self, draft: &Draft, others: &[Rect]) -> bool {
        for label in self.labels.iter() {
            let rect = Rect::of_label(draft, *label);
            if others.iter().any(|other| rect.meets(*other, self.room)) {
                return false;
            }
        }
        true
    }

    // Places the labels as far along the way as they meet nothing.
    fn place_clear(&self, draft: &mut Draft, way: f64, others: &[Rect]) {
        for part in PARTS {
            self.place(draft, rounded(way * part));
            if self.is_clear(draft, others) {
                return;
            }
        }
        place_stack(draft, self.labels.as_slice(), self.stack);
    }

    fn slide(
        &self,
        alloc: Global,
        draft: &mut Draft,
        bands: &mut Bands,
        way: f64,
    ) -> Result<(), AllocError> {
        let labels = self.labels.as_slice();
        let mut near = Vec::new(alloc);
        for label in labels {
            bands.near(&mut near, Rect::of_label(draft, *label), way, self.room)?;
        }
        let others = bands.others(alloc, near.as_slice(), self.edge, labels)?;
        self.place_clear(draft, way, others.as_slice());
        bands.follow(draft, near.as_slice(), labels);
        Ok(())
    }
}

// All that stands at the levels of some labels.
fn obstacles_of(
    alloc: Global,
    draft: &Draft,
    slides: &[(Slide, f64)],
) -> Result<BTreeMap<usize, Bands>, AllocError> {
    let mut obstacles = BTreeMap::new(alloc);
    for (slide, _) in slides {
        obstacles.insert(slide.level, Bands::none(alloc, slide.side))?;
    }
    for node in 0..draft.given_nodes {
        if let Some(level) = draft.parent_of(node) {
            if let Some(bands) = obstacles.get_mut(&level) {
                bands.add_node(alloc, draft, node)?;
            }
        }
    }
    for found in joined_edges(alloc, draft)?.iter() {
        if let Some(bands) = obstacles.get_mut(&found.level) {
            bands.add_edge(alloc, draft, found)?;
        }
    }
    Ok(obstacles)
}

/// Moves labels towards the middles of their lines, in their order.
pub(crate) fn slide_labels(
    alloc: Global,
    draft: &mut Draft,
    slides: Vec<Slide>,
) -> Result<(), AllocError> {
    let mut movable = Vec::new(alloc);
    for slide in slides {
        let way = slide.way(draft);
        if way.abs() >= LEAST_WAY {
            movable.push((slide, way))?;
        }
    }
    if movable.is_empty() {
        return Ok(());
    }
    let mut obstacles = obstacles_of(alloc, draft, movable.as_slice())?;
    for (slide, way) in movable.iter() {
        if let Some(bands) = obstacles.get_mut(&slide.level) {
            slide.slide(alloc, draft, bands, *way)?;
        }
    }
    Ok(())
}
