//! What stands at a level, in bands across an axis, so that only a label's neighbours are looked at.

use graph_draft::{Draft, Element, Joined, Point, Side, Size};
use std::alloc::{AllocError, Global};
use std::collections::BTreeMap;
use std::num::saturating_f64_to_i64;

const BAND: f64 = 64.0;

#[derive(Clone, Copy, Drop)]
pub(crate) struct Rect {
    left: f64,
    top: f64,
    right: f64,
    bottom: f64,
}

impl Rect {
    fn at(place: Point, size: Size) -> Rect {
        Rect {
            left: place.x,
            top: place.y,
            right: place.x + size.width,
            bottom: place.y + size.height,
        }
    }

    // The rectangle of a line between two points. It has no width.
    fn between(one: Point, other: Point) -> Rect {
        Rect {
            left: one.x.min(other.x),
            top: one.y.min(other.y),
            right: one.x.max(other.x),
            bottom: one.y.max(other.y),
        }
    }

    // The rectangle of an element whose place is relative to `origin`.
    fn within(draft: &Draft, element: Element, origin: Point) -> Rect {
        Rect::at(
            draft.place_of(element).moved(origin),
            draft.size_of(element),
        )
    }

    /// The rectangle of a label of an edge.
    pub(crate) fn of_label(draft: &Draft, label: usize) -> Rect {
        Rect::at(
            draft.place_of(Element::Label(label)),
            draft.size_of(Element::Label(label)),
        )
    }

    // What it covers on a way along the lines that run out of a side, and a unit more at both ends.
    fn swept(self, side: Side, way: f64) -> Rect {
        let (back, ahead) = (way.min(0.0) - 1.0, way.max(0.0) + 1.0);
        if side.is_upright() {
            Rect {
                left: self.left + back,
                right: self.right + ahead,
                ..self
            }
        } else {
            Rect {
                top: self.top + back,
                bottom: self.bottom + ahead,
                ..self
            }
        }
    }

    /// Whether another rectangle is nearer than so much room.
    pub(crate) fn meets(self, other: Rect, room: f64) -> bool {
        self.left < other.right + room
            && other.left < self.right + room
            && self.top < other.bottom + room
            && other.top < self.bottom + room
    }
}

// What a rectangle is that of.
#[derive(Clone, Copy, Drop, PartialEq, Eq)]
enum Owner {
    Line(usize),
    Label(usize),
    Node,
}

#[derive(Clone, Copy, Drop)]
struct Obstacle {
    owner: Owner,
    rect: Rect,
}

/// The rectangles at a level, by the bands that they reach into.
#[derive(Drop)]
pub(crate) struct Bands {
    // The side out of which lines run, along which labels move.
    side: Side,
    all: Vec<Obstacle>,
    bands: BTreeMap<i64, Vec<usize>>,
}

fn band_of(place: f64) -> i64 {
    saturating_f64_to_i64((place / BAND).floor())
}

fn is_placed(draft: &Draft, label: usize) -> bool {
    match draft.labels.get(label) {
        Some(label) => label.placed || label.has_place,
        None => false,
    }
}

impl Bands {
    /// No rectangles. Labels move along the lines that run out of a side.
    pub(crate) fn none(alloc: Global, side: Side) -> Bands {
        Bands {
            side,
            all: Vec::new(alloc),
            bands: BTreeMap::new(alloc),
        }
    }

    // From where to where a rectangle reaches across the axis.
    fn reach(&self, rect: Rect) -> (f64, f64) {
        if self.side.is_upright() {
            (rect.top, rect.bottom)
        } else {
            (rect.left, rect.right)
        }
    }

    fn add(&mut self, alloc: Global, owner: Owner, rect: Rect) -> Result<(), AllocError> {
        let at = self.all.len();
        self.all.push(Obstacle { owner, rect })?;
        let (from, to) = self.reach(rect);
        for band in band_of(from)..=band_of(to) {
            if let Some(list) = self.bands.get_mut(&band) {
                list.push(at)?;
                continue;
            }
            let list = vec![in alloc; at]?;
            self.bands.insert(band, list)?;
        }
        Ok(())
    }

    fn add_labels(
        &mut self,
        alloc: Global,
        draft: &Draft,
        element: Element,
        origin: Point,
    ) -> Result<(), AllocError> {
        for label in draft.labels_of(element) {
            if is_placed(draft, *label) {
                let rect = Rect::within(draft, Element::Label(*label), origin);
                self.add(alloc, Owner::Label(*label), rect)?;
            }
        }
        Ok(())
    }

    /// Adds a node, its ports, and the labels of both.
    pub(crate) fn add_node(
        &mut self,
        alloc: Global,
        draft: &Draft,
        node: usize,
    ) -> Result<(), AllocError> {
        let element = Element::Node(node);
        let corner = draft.place_of(element);
        let rect = Rect::at(corner, draft.size_of(element));
        self.add(alloc, Owner::Node, rect)?;
        self.add_labels(alloc, draft, element, corner)?;
        for port in draft.ports_of(node) {
            let port = Element::Port(*port);
            self.add(alloc, Owner::Node, Rect::within(draft, port, corner))?;
            let origin = draft.place_of(port).moved(corner);
            self.add_labels(alloc, draft, port, origin)?;
        }
        Ok(())
    }

    /// Adds the lines of an edge, and its labels.
    pub(crate) fn add_edge(
        &mut self,
        alloc: Global,
        draft: &Draft,
        found: &Joined,
    ) -> Result<(), AllocError> {
        let points = draft.route_of(found.edge);
        for (point, next) in points.iter().zip(points.iter().skip(1)) {
            let line = Rect::between(*point, *next);
            self.add(alloc, Owner::Line(found.edge), line)?;
        }
        let origin = Point { x: 0.0, y: 0.0 };
        self.add_labels(alloc, draft, Element::Edge(found.edge), origin)
    }

    /// The rectangles that one might meet on a way along the axis, by their numbers.
    pub(crate) fn near(
        &self,
        found: &mut Vec<usize>,
        rect: Rect,
        way: f64,
        room: f64,
    ) -> Result<(), AllocError> {
        let (from, to) = self.reach(rect);
        let covered = rect.swept(self.side, way);
        for band in band_of(from - room)..=band_of(to + room) {
            if let Some(list) = self.bands.get(&band) {
                for at in list.iter() {
                    if self.is_met(*at, covered, room) {
                        found.push(*at)?;
                    }
                }
            }
        }
        Ok(())
    }

    // Whether a rectangle is nearer than so much room to another one.
    fn is_met(&self, at: usize, other: Rect, room: f64) -> bool {
        match self.all.get(at) {
            Some(obstacle) => obstacle.rect.meets(other, room),
            None => false,
        }
    }

    /// Those of some rectangles that are neither lines of an edge nor its labels.
    pub(crate) fn others(
        &self,
        alloc: Global,
        near: &[usize],
        edge: usize,
        labels: &[usize],
    ) -> Result<Vec<Rect>, AllocError> {
        let mut others = Vec::new(alloc);
        for at in near {
            if let Some(obstacle) = self.all.get(*at) {
                let is_own = match obstacle.owner {
                    Owner::Line(line) => line == edge,
                    Owner::Label(label) => labels.contains(&label),
                    Owner::Node => false,
                };
                if !is_own {
                    others.push(obstacle.rect)?;
                }
            }
        }
        Ok(others)
    }

    /// Follows labels that have moved along the axis, if they are among some rectangles.
    pub(crate) fn follow(&mut self, draft: &Draft, near: &[usize], labels: &[usize]) {
        for at in near {
            if let Some(obstacle) = self.all.get_mut(*at) {
                if let Owner::Label(label) = obstacle.owner {
                    if labels.contains(&label) {
                        obstacle.rect = Rect::of_label(draft, label);
                    }
                }
            }
        }
    }
}
