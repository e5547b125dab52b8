//! Labels within the node of an open level, which its own layout has placed: they follow when the node grows, and keep clear of the
//! lines that cross its border.

use crate::rectangles::Bounds;
use graph_draft::{Direction, Point, Size, rounded};
use label_room::Padding;
use std::alloc::{AllocError, Global};

// How far a label keeps from lines, and from the border.
const CLEAR: f64 = 4.0;

const EDGE: f64 = 5.0;

/// A label within a node. Only a label that has a place is moved.
#[derive(Clone, Copy, Drop)]
pub struct Title {
    pub place: Option<Point>,
    pub size: Size,
}

/// Labels stay where they were asked for when the size of their node changes. `shares` tells for each label which share of the growth it
/// follows, in width and in height: 0, a half or 1.
pub fn moved_titles(
    alloc: Global,
    titles: &[Title],
    shares: &[(f64, f64)],
    before: Size,
    size: Size,
) -> Result<Vec<Title>, AllocError> {
    let mut moved = Vec::new(alloc);
    for (at, title) in titles.iter().enumerate() {
        let (share, share_down) = shares.get(at).copied().unwrap_or((0.0, 0.0));
        let by = Point {
            x: rounded((size.width - before.width) * share),
            y: rounded((size.height - before.height) * share_down),
        };
        let place = match title.place {
            Some(place) => Some(place.moved(by)),
            None => None,
        };
        moved.push(Title { place, ..*title })?;
    }
    Ok(moved)
}

// The axis along which a label slides.
#[derive(Clone, Copy, Drop, PartialEq, Eq)]
enum Axis {
    Across,
    Down,
}

// The axis for a label that follows its share of its node's growth. What stands beside the content slides beside it.
fn axis_for(share: Option<(f64, f64)>) -> Axis {
    match share {
        Some((across, down)) if down == 0.5 && across != 0.5 => Axis::Down,
        _ => Axis::Across,
    }
}

impl Axis {
    // A point with its coordinate along the axis first; and back.
    fn turn(self, point: Point) -> Point {
        match self {
            Axis::Across => point,
            Axis::Down => Point {
                x: point.y,
                y: point.x,
            },
        }
    }

    fn turn_size(self, size: Size) -> Size {
        match self {
            Axis::Across => size,
            Axis::Down => Size {
                width: size.height,
                height: size.width,
            },
        }
    }

    fn turn_bounds(self, bounds: Bounds) -> Bounds {
        Bounds {
            low: self.turn(bounds.low),
            high: self.turn(bounds.high),
        }
    }

    // How far labels keep from the borders at both ends of the axis.
    fn edges(self, padding: Padding) -> (f64, f64) {
        match self {
            Axis::Across => (EDGE, EDGE),
            Axis::Down => (padding.top.max(EDGE), padding.bottom.max(EDGE)),
        }
    }

    // Labels that stand above one another may touch.
    fn clearance(self) -> f64 {
        match self {
            Axis::Across => CLEAR,
            Axis::Down => 0.0,
        }
    }
}

// From where to where an obstacle reaches along the axis on which a label slides, with what the label keeps from it.
#[derive(Clone, Copy, Drop)]
struct Taken {
    from: f64,
    to: f64,
}

fn add_taken(
    taken: &mut Vec<Taken>,
    obstacles: &[Bounds],
    axis: Axis,
    (place, size): (Point, Size),
    clear: f64,
) -> Result<(), AllocError> {
    for it in obstacles {
        let it = axis.turn_bounds(*it);
        if it.low.y < place.y + size.height && it.high.y > place.y {
            taken.push(Taken {
                from: it.low.x - clear,
                to: it.high.x + clear,
            })?;
        }
    }
    Ok(())
}

fn is_free(taken: &[Taken], width: f64, at: f64) -> bool {
    for it in taken {
        if it.to > at && it.from < at + width {
            return false;
        }
    }
    true
}

// The nearest place for a label along its axis that is clear of what stands there and lies between two places; nothing if there is none.
fn free_place(taken: &[Taken], x: f64, width: f64, from: f64, to: f64) -> Option<f64> {
    if is_free(taken, width, x) {
        return Some(x);
    }
    let mut found: Option<f64> = None;
    for it in taken {
        for at in [it.from - width, it.to] {
            let is_nearer = match found {
                Some(best) => (at - x).abs() < (best - x).abs(),
                None => true,
            };
            if is_nearer && at >= from && at <= to && is_free(taken, width, at) {
                found = Some(at);
            }
        }
    }
    found
}

// The lines of some routes.
fn lines_of(alloc: Global, routes: &[Vec<Point>]) -> Result<Vec<Bounds>, AllocError> {
    let mut lines = Vec::new(alloc);
    for points in routes {
        for (point, next) in points.iter().zip(points.iter().skip(1)) {
            let mut line = Bounds::none();
            line.add_point(*point);
            line.add_point(*next);
            lines.push(line)?;
        }
    }
    Ok(lines)
}

/// A node within which labels slide.
#[derive(Clone, Copy, Drop)]
pub struct Room {
    pub size: Size,
    pub padding: Padding,
    /// The direction of its level. Where the node grows, the content stays where the level begins.
    pub direction: Direction,
}

impl Axis {
    // Whether a node grows at the beginning of the axis.
    fn grows_before(self, direction: Direction) -> bool {
        match self {
            Axis::Across => direction == Direction::Left,
            Axis::Down => direction == Direction::Up,
        }
    }
}

// Where a label that slides along an axis begins on it, and how much longer the node has to be for it.
fn slid_to(axis: Axis, taken: &[Taken], (place, size): (Point, Size), room: Room) -> (f64, f64) {
    let (before, behind) = axis.edges(room.padding);
    let length = axis.turn_size(room.size).width;
    let (x, width) = (place.x, size.width);
    let (from, to) = (x.min(before), length - behind - width);
    if let Some(found) = free_place(taken, x, width, from, to) {
        return (found, 0.0);
    }
    let lack = if axis.grows_before(room.direction) {
        let beyond = free_place(taken, x, width, f64::NEG_INFINITY, to);
        before - beyond.unwrap_or(x).floor()
    } else {
        let beyond = free_place(taken, x, width, from, f64::INFINITY);
        (beyond.unwrap_or(x) + width).ceil() + behind - length
    };
    (x, lack)
}

/// Labels move to where no line passes, as near as there is room: those beside the content up or down, all others to the left or right.
/// `shares` are those with which they follow their node. It answers the labels, and how much larger the node has to be for those
/// without room.
pub fn slide_titles(
    alloc: Global,
    titles: &[Title],
    shares: &[(f64, f64)],
    routes: &[Vec<Point>],
    room: Room,
) -> Result<(Vec<Title>, Size), AllocError> {
    let lines = lines_of(alloc, routes)?;
    let (mut others, mut slid) = (Vec::new(alloc), Vec::new(alloc));
    let mut lack = Size::NONE;
    for (at, title) in titles.iter().enumerate() {
        let mut title = *title;
        if let Some(place) = title.place {
            let axis = axis_for(shares.get(at).copied());
            let (place, size) = (axis.turn(place), axis.turn_size(title.size));
            let mut taken = Vec::new(alloc);
            add_taken(&mut taken, lines.as_slice(), axis, (place, size), CLEAR)?;
            let clear = axis.clearance();
            add_taken(&mut taken, others.as_slice(), axis, (place, size), clear)?;
            let (x, more) = slid_to(axis, taken.as_slice(), (place, size), room);
            match axis {
                Axis::Across => lack.width = lack.width.max(more),
                Axis::Down => lack.height = lack.height.max(more),
            }
            let moved = axis.turn(Point { x, y: place.y });
            let mut bounds = Bounds::none();
            bounds.add_box(moved, title.size);
            others.push(bounds)?;
            title.place = Some(moved);
        }
        slid.push(title)?;
    }
    Ok((slid, lack))
}
