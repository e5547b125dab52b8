//! Levels in the frame in which their direction runs to the right.

use graph_draft::{Direction, Draft, Element, Point, Size};

/// The frame of a level, by its direction.
#[derive(Clone, Copy, Debug, Drop, PartialEq, Eq)]
pub struct Frame(pub Direction);

/// A point in a frame: `u` along the direction, `v` across.
#[derive(Clone, Copy, Drop)]
pub struct Along {
    pub u: f64,
    pub v: f64,
}

/// From where to where something reaches along a frame.
#[derive(Clone, Copy, Drop)]
pub struct Span {
    pub from: f64,
    pub to: f64,
}

impl Frame {
    /// A point of the level in the frame.
    pub fn of(self, point: Point) -> Along {
        let Point { x, y } = point;
        match self.0 {
            Direction::Right => Along { u: x, v: y },
            Direction::Left => Along { u: -x, v: y },
            Direction::Down => Along { u: y, v: x },
            Direction::Up => Along { u: -y, v: x },
        }
    }

    /// A point of the frame in the level.
    pub fn back(self, point: Along) -> Point {
        let Along { u, v } = point;
        match self.0 {
            Direction::Right => Point { x: u, y: v },
            Direction::Left => Point { x: -u, y: v },
            Direction::Down => Point { x: v, y: u },
            Direction::Up => Point { x: v, y: -u },
        }
    }

    /// From where to where a box reaches along the frame.
    pub fn span_of(self, place: Point, size: Size) -> Span {
        let far = Point {
            x: place.x + size.width,
            y: place.y + size.height,
        };
        let (a, b) = (self.of(place).u, self.of(far).u);
        Span {
            from: a.min(b),
            to: a.max(b),
        }
    }
}

/// The box of a placed node with its ports: its place and its size.
pub fn outline_of(draft: &Draft, node: usize) -> (Point, Size) {
    let place = draft.place_of(Element::Node(node));
    let size = draft.size_of(Element::Node(node));
    let mut low = place;
    let mut high = Point {
        x: place.x + size.width,
        y: place.y + size.height,
    };
    for port in draft.ports_of(node) {
        let corner = draft.place_of(Element::Port(*port)).moved(place);
        let size = draft.size_of(Element::Port(*port));
        low = Point {
            x: low.x.min(corner.x),
            y: low.y.min(corner.y),
        };
        high = Point {
            x: high.x.max(corner.x + size.width),
            y: high.y.max(corner.y + size.height),
        };
    }
    let size = Size {
        width: high.x - low.x,
        height: high.y - low.y,
    };
    (low, size)
}
