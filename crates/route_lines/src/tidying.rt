//! Dropping the points of a path at which nothing turns.
ghost use Rattle.std.specs.Prelude.{◌≡◌, ◌↔◌, List, [], ◌∷◌, reverse, IsTrue, IfOk, OnOk};
ghost use Rattle.drawing_types.specs.Segments.{IsAxisParallel, IsBetween};
ghost use Rattle.route_lines.specs.Tidied.{IsMiddle, IsTidied, IsSectionOf, IsMiddleBeforeFirst};

use drawing_types::list::Items;
use drawing_types::section::Section;
use drawing_types::shape::Point;
use std::alloc::{AllocError, Global};

// Whether the segment from `a` to `b` is parallel to an axis.
fn is_axis_parallel(a: Point, b: Point) -> bool
    ensures { IsTrue result ↔ IsAxisParallel a b }
{
    if a.x == b.x {
        return true;
    }
    a.y == b.y
}

// Whether `z` lies between `a` and `b`, in either order, both included.
fn is_between(a: i64, b: i64, z: i64) -> bool
    ensures { IsTrue result ↔ IsBetween a b z }
{
    if a.min(b) > z {
        return false;
    }
    if z > a.max(b) {
        return false;
    }
    true
}

// Whether `b` lies on the segment from `a` to `c`, and this is parallel to an axis.
fn is_middle(a: Point, b: Point, c: Point) -> bool
    ensures { IsTrue result ↔ IsMiddle a b c }
{
    if !is_axis_parallel(a, c) {
        return false;
    }
    if !is_between(a.x, c.x, b.x) {
        return false;
    }
    is_between(a.y, c.y, b.y)
}

// Whether these are one point.
fn is_same(a: Point, b: Point) -> bool
    ensures { IsTrue result ↔ (a ≡ b) }
{
    if a.x != b.x {
        return false;
    }
    a.y == b.y
}

// Whether `head` lies between `point` and the last point that was kept behind it.
fn is_passed(point: Point, head: Point, kept: &[Point]) -> bool
    ensures { IsTrue result ↔ IsMiddleBeforeFirst point head (reverse kept.now) }
{
    match kept.last() {
        None => false,
        Some(next) => is_middle(point, head, *next),
    }
}

// The tidied points of a path, from some point on: the first of them, and those behind it from the last to the second.
#[derive(Drop)]
pub struct Path {
    head: Point,
    behind: Vec<Point>,
}

impl Path {
    ghost use Rattle.route_lines.specs.Path.{points_along};

    // A path of one point.
    pub fn new(alloc: Global, end: Point) -> Self
        ensures { points_along result ≡ end ∷ [] }
    {
        Path {
            head: end,
            behind: Vec::new(alloc),
        }
    }

    // Puts a point before the others. It drops the one that is first by now where this is the same or lies between its
    // two neighbours.
    pub fn put_before(&mut self, point: Point) -> Result<(), AllocError>
        ensures { OnOk result ((ps : List Point) → IsTidied ps (points_along self.old) → IsTidied (point ∷ ps) (points_along self.new)) }
    {
        if is_same(point, self.head) {
            return Ok(());
        }
        if is_passed(point, self.head, &self.behind) {
            self.head = point;
            return Ok(());
        }
        self.behind.push(self.head)?;
        self.head = point;
        Ok(())
    }

    // All points, from the first to the last.
    fn into_vec(mut self) -> Result<Vec<Point>, AllocError>
        ensures { IfOk result (λ points. points.items ≡ points_along self) }
    {
        self.behind.push(self.head)?;
        self.behind.reverse();
        Ok(self.behind)
    }

    // The section with these points. One point is both start and end.
    pub fn into_section(mut self) -> Section
        ensures { IsSectionOf (points_along self) result }
    {
        self.behind.reverse();
        let start = self.head;
        let end = self.behind.pop().unwrap_or(start);
        Section {
            start,
            bends: Items::from_vec(self.behind),
            end,
        }
    }
}

/// The path with one of two equal neighbours dropped, and each point between its two neighbours on one line parallel to an
/// axis, until none is left. Routes have no other lines: a point between its neighbours on a slanted line stays.
///
/// The path is read from its end, so that each point is dropped once at most and none is looked at again.
///
/// Proved:
/// - A path is tidied: one of two equal neighbours is dropped, until none is left.
/// - So is each point between its two neighbours on one line parallel to an axis.
pub fn tidy(alloc: Global, points: &[Point]) -> Result<Vec<Point>, AllocError>
    ensures { IfOk result (λ tidied. IsTidied points.now tidied.items) }
{
    if points.is_empty() {
        return Ok(Vec::new(alloc));
    }
    let mut index = points.len() - 1;
    let mut path = Path::new(alloc, points[index]);
    'points: while index > 0 {
        index -= 1;
        path.put_before(points[index])?;
    }
    path.into_vec()
}
