//! Exact tests on axis-parallel segments.
ghost use Rattle.std.specs.Prelude.{◌↔◌, IsTrue};
ghost use Rattle.drawing_types.specs.Segments.{IsAxisParallel, MeetsRect, MeetsSpan, EntersRect, EntersSpan, Share, IsPiece};

use crate::shape::{Point, Rect};

// Whether the stretch between `a` and `b` meets the closed stretch of this size from `low` on.
fn meets_span(a: i64, b: i64, low: i64, size: i64) -> bool
    ensures { IsTrue result ↔ MeetsSpan a b low size }
{
    if size < 0 || low > a.max(b) {
        return false;
    }
    let end = i128::from(low) + i128::from(size);
    if i128::from(a.min(b)) > end {
        return false;
    }
    true
}

// Whether the stretch between `a` and `b` has a point strictly inside the stretch of this size from `low` on.
fn enters_span(a: i64, b: i64, low: i64, size: i64) -> bool
    ensures { IsTrue result ↔ EntersSpan a b low size }
{
    if size <= 0 || low >= a.max(b) {
        return false;
    }
    let end = i128::from(low) + i128::from(size);
    if i128::from(a.min(b)) >= end {
        return false;
    }
    true
}

// Whether the rectangle with these borders is not empty, and more than a point.
fn is_piece(left: i64, right: i64, top: i64, bottom: i64) -> bool
    ensures { IsTrue result ↔ IsPiece left right top bottom }
{
    if left > right || top > bottom {
        return false;
    }
    left < right || top < bottom
}

/// Whether a point of the segment from `a` to `b` lies in the closed rectangle.
///
/// Proved:
/// - Each test on axis-parallel segments equals its definition. (`segment_enters_rect`, `segments_share`)
pub fn segment_meets_rect(a: Point, b: Point, r: Rect) -> bool
    requires { IsAxisParallel a b }
    ensures { IsTrue result ↔ MeetsRect a b r }
{
    meets_span(a.x, b.x, r.x, r.width) && meets_span(a.y, b.y, r.y, r.height)
}

/// Whether a point of the segment from `a` to `b` lies strictly inside the rectangle.
pub fn segment_enters_rect(a: Point, b: Point, r: Rect) -> bool
    requires { IsAxisParallel a b }
    ensures { IsTrue result ↔ EntersRect a b r }
{
    enters_span(a.x, b.x, r.x, r.width) && enters_span(a.y, b.y, r.y, r.height)
}

/// Whether the segments from `a` to `b` and from `c` to `d` have a piece of positive length in common.
pub fn segments_share(a: Point, b: Point, c: Point, d: Point) -> bool
    requires first { IsAxisParallel a b }
    requires second { IsAxisParallel c d }
    ensures { IsTrue result ↔ Share a b c d }
{
    let left = a.x.min(b.x).max(c.x.min(d.x));
    let right = a.x.max(b.x).min(c.x.max(d.x));
    let top = a.y.min(b.y).max(c.y.min(d.y));
    let bottom = a.y.max(b.y).min(c.y.max(d.y));
    is_piece(left, right, top, bottom)
}
