//! The borders of routes: a quick test in front of those that look at each segment.
ghost use Rattle.std.specs.Prelude.{◌≡◌, ◌<◌, ◌^◌, ◌+ℤ◌, ◌≤ℤ◌, ◌<ℤ◌, neg_ℤ, pos, IfOk, IsTrue};
ghost use Rattle.elk_doc.specs.Fits.{Fits};
ghost use Rattle.drawing_types.specs.Ranges.{IsWithin};
ghost use Rattle.layout_check.specs.Bounds.{AreRouteBounds, HoldsPoint, HoldsRoute, LieApart, LieOff};

use crate::read::{point_at, point_count};
use drawing_types::section::Section;
use drawing_types::shape::{Point, Rect};
use elk_doc::document::Doc;
use elk_doc::drawing::Placed;
use std::alloc::{AllocError, Global};

/// The least and the greatest coordinates of the points of a route.
#[derive(Clone, Copy)]
pub struct RouteBounds {
    pub left: i64,
    pub top: i64,
    pub right: i64,
    pub bottom: i64,
}

// A number below two others.
fn lower(one: i64, other: i64) -> i64
    ensures one { result ≤ℤ one }
    ensures other { result ≤ℤ other }
{
    if one < other { one } else { other }
}

// A number above two others.
fn upper(one: i64, other: i64) -> i64
    ensures one { one ≤ℤ result }
    ensures other { other ≤ℤ result }
{
    if one < other { other } else { one }
}

// The bounds that hold a point more.
fn with_point(bounds: RouteBounds, point: Point) -> RouteBounds
    ensures kept { (q : Point) → HoldsPoint bounds q → HoldsPoint result q }
    ensures held { HoldsPoint result point }
{
    RouteBounds {
        left: lower(bounds.left, point.x),
        top: lower(bounds.top, point.y),
        right: upper(bounds.right, point.x),
        bottom: upper(bounds.bottom, point.y),
    }
}

// The bounds of a route.
pub(crate) fn bounds_of(section: &Section) -> RouteBounds
    ensures { HoldsRoute result section.now }
{
    let start = section.start;
    let mut bounds = RouteBounds {
        left: start.x,
        top: start.y,
        right: start.x,
        bottom: start.y,
    };
    for i in 0..point_count(section) {
        bounds = with_point(bounds, point_at(section, i));
    }
    bounds
}

/// The bounds of the routes of all edges.
pub fn route_bounds(
    alloc: Global,
    doc: &Doc,
    placed: &Placed,
) -> Result<Vec<RouteBounds>, AllocError>
    requires { Fits doc.now placed.now }
    ensures { IfOk result (λ bounds. AreRouteBounds doc.now placed.now bounds.items) }
{
    let mut bounds = Vec::new(alloc);
    for edge in 0..doc.edges().len() {
        bounds.push(bounds_of(placed.section(edge as u32)))?;
    }
    Ok(bounds)
}

// The end of a stretch, by its low end and its size.
fn end_of(low: i64, size: i64) -> i128
    ensures value { result ≡ low +ℤ size }
    ensures small { IsWithin (neg_ℤ (pos (2 ^ 65))) (pos (2 ^ 65)) result }
{
    i128::from(low) + i128::from(size)
}

// Whether a stretch ends before a number.
fn ends_before(low: i64, size: i64, bound: i64) -> bool
    ensures { IsTrue result → (low +ℤ size) <ℤ bound }
{
    let end = end_of(low, size);
    let start = i128::from(bound);
    if end >= start {
        return false;
    }
    true
}

// Whether the bounds have no point in a closed rectangle.
pub(crate) fn lie_off(bounds: RouteBounds, r: Rect) -> bool
    ensures { IsTrue result → LieOff bounds r }
{
    if bounds.right < r.x {
        return true;
    }
    if bounds.bottom < r.y {
        return true;
    }
    if ends_before(r.x, r.width, bounds.left) {
        return true;
    }
    ends_before(r.y, r.height, bounds.top)
}

// Whether two bounds have no point in common.
pub(crate) fn lie_apart(one: RouteBounds, other: RouteBounds) -> bool
    ensures { IsTrue result → LieApart one other }
{
    if one.right < other.left {
        return true;
    }
    if other.right < one.left {
        return true;
    }
    if one.bottom < other.top {
        return true;
    }
    other.bottom < one.top
}
