//! Points, boxes, ports and routes, rotated back from the frame of a direction.
ghost use Rattle.std.specs.Prelude.{◌≡◌, ◌+ℤ◌, ◌-ℤ◌, map, neg_ℤ};
ghost use Rattle.std.specs.List.{All};
ghost use Rattle.working_frame.specs.Drawing.{plus};
ghost use Rattle.working_frame.specs.Ranges.{IsFar, IsFarPoint, IsFarSection};
ghost use Rattle.elk_doc.specs.Sound.{IsLength, IsSoundSize};
ghost use Rattle.level_io.specs.Back as back;
ghost use Rattle.level_io.specs.Ranges.{IsLong, IsLongBox};

use drawing_types::list::Items;
use drawing_types::section::Section;
use drawing_types::shape::{Point, Rect, Size};
use elk_doc::document::Direction;

// The sum of two numbers.
fn sum(a: i64, b: i64) -> i64
    requires a { IsFar a }
    requires b { IsFar b }
    ensures { result ≡ a +ℤ b }
{
    a + b
}

// The negative of the sum of two numbers.
fn mirrored(a: i64, b: i64) -> i64
    requires a { IsFar a }
    requires b { IsFar b }
    ensures { result ≡ neg_ℤ (a +ℤ b) }
{
    -(a + b)
}

// The low end of a stretch of this size that is moved and then mirrored at 0.
fn mirrored_end(by: i64, low: i64, size: i64) -> i64
    requires by { IsFar by }
    requires low { IsFar low }
    requires size { IsLong size }
    ensures { result ≡ neg_ℤ ((by +ℤ low) +ℤ size) }
{
    -(by + low + size)
}

// The low end of a stretch of this size within another that is mirrored.
fn end_within(outer: i64, low: i64, size: i64) -> i64
    requires outer { IsLong outer }
    requires low { IsFar low }
    requires size { IsLength size }
    ensures { result ≡ outer -ℤ (low +ℤ size) }
{
    outer - (low + size)
}

/// A box that keeps its size and is put at a place of the frame, moved by `by` there.
pub(crate) fn box_back(way: Direction, by: Point, place: Point, outer: Rect) -> Rect
    requires by { IsFarPoint by }
    requires place { IsFarPoint place }
    requires long { IsLongBox outer }
    ensures { result ≡ back.box_back way (plus by place) outer }
{
    let width = outer.width;
    let height = outer.height;
    match way {
        Direction::Right => Rect {
            x: sum(by.x, place.x),
            y: sum(by.y, place.y),
            width,
            height,
        },
        Direction::Left => Rect {
            x: mirrored_end(by.x, place.x, width),
            y: sum(by.y, place.y),
            width,
            height,
        },
        Direction::Down => Rect {
            x: sum(by.y, place.y),
            y: sum(by.x, place.x),
            width,
            height,
        },
        Direction::Up => Rect {
            x: sum(by.y, place.y),
            y: mirrored_end(by.x, place.x, height),
            width,
            height,
        },
    }
}

/// The place of a port of this size in its box.
pub(crate) fn place_back(way: Direction, outer: Rect, size: Size, place: Point) -> Point
    requires long { IsLongBox outer }
    requires size { IsSoundSize size }
    requires place { IsFarPoint place }
    ensures { result ≡ back.place_back way outer size place }
{
    match way {
        Direction::Right => place,
        Direction::Left => Point {
            x: end_within(outer.width, place.x, size.width),
            y: place.y,
        },
        Direction::Down => Point {
            x: place.y,
            y: place.x,
        },
        Direction::Up => Point {
            x: place.y,
            y: end_within(outer.height, place.x, size.height),
        },
    }
}

// A point of a route.
fn point_back(way: Direction, by: Point, point: Point) -> Point
    requires by { IsFarPoint by }
    requires point { IsFarPoint point }
    ensures { result ≡ back.moved_back way by point }
{
    match way {
        Direction::Right => Point {
            x: sum(by.x, point.x),
            y: sum(by.y, point.y),
        },
        Direction::Left => Point {
            x: mirrored(by.x, point.x),
            y: sum(by.y, point.y),
        },
        Direction::Down => Point {
            x: sum(by.y, point.y),
            y: sum(by.x, point.x),
        },
        Direction::Up => Point {
            x: sum(by.y, point.y),
            y: mirrored(by.x, point.x),
        },
    }
}

fn rotate_back(way: Direction, by: Point, points: &mut [Point])
    requires by { IsFarPoint by }
    requires points { All IsFarPoint points.old }
    ensures { points.new ≡ map (back.moved_back way by) points.old }
{
    for i in 0..points.len() {
        points[i] = point_back(way, by, points[i]);
    }
}

/// A route that is moved by `by` in the frame.
pub(crate) fn section_back(way: Direction, by: Point, section: Section) -> Section
    requires by { IsFarPoint by }
    requires section { IsFarSection section }
    ensures { result ≡ back.section_back way by section }
{
    let mut bends = section.bends.into_vec();
    rotate_back(way, by, bends.as_mut_slice());
    Section {
        start: point_back(way, by, section.start),
        bends: Items::from_vec(bends),
        end: point_back(way, by, section.end),
    }
}
