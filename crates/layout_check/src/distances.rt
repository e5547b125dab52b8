//! Distances between rectangles, in the frame of a direction.
ghost use Rattle.std.specs.Prelude.{◌≡◌, ◌↔◌, ◌+ℤ◌, ◌^◌, neg_ℤ, pos, IsTrue, true, false};
ghost use Rattle.drawing_types.specs.Ranges.{IsWithin};
ghost use Rattle.layout_check.specs.FirstApart.{IsBeyond, StandsClearIn};
ghost use Rattle.elk_doc.specs.Shapes.{rotated};
ghost use Rattle.drawing_types.specs.Shapes.{bottom_of, right_of};

use drawing_types::shape::Rect;
use elk_doc::document::Direction;

// The end of a stretch, by its low end and its size.
fn end_of(low: i64, size: i64) -> i128
    ensures value { result ≡ low +ℤ size }
    ensures small { IsWithin (neg_ℤ (pos (2 ^ 65))) (pos (2 ^ 65)) result }
{
    i128::from(low) + i128::from(size)
}

// The left border of a rectangle in the frame of a direction.
pub(crate) fn left(way: Direction, r: Rect) -> i128
    ensures value { result ≡ (rotated way r).x }
    ensures small { IsWithin (neg_ℤ (pos (2 ^ 65))) (pos (2 ^ 65)) result }
{
    match way {
        Direction::Right => i128::from(r.x),
        Direction::Left => -end_of(r.x, r.width),
        Direction::Down => i128::from(r.y),
        Direction::Up => -end_of(r.y, r.height),
    }
}

// The right border of a rectangle in the frame of a direction.
pub(crate) fn right(way: Direction, r: Rect) -> i128
    ensures value { result ≡ right_of (rotated way r) }
    ensures small { IsWithin (neg_ℤ (pos (2 ^ 65))) (pos (2 ^ 65)) result }
{
    match way {
        Direction::Right => end_of(r.x, r.width),
        Direction::Left => -i128::from(r.x),
        Direction::Down => end_of(r.y, r.height),
        Direction::Up => -i128::from(r.y),
    }
}

// The upper border of a rectangle in the frame of a direction.
pub(crate) fn top(way: Direction, r: Rect) -> i64
    ensures { result ≡ (rotated way r).y }
{
    match way {
        Direction::Right => r.y,
        Direction::Left => r.y,
        Direction::Down => r.x,
        Direction::Up => r.x,
    }
}

// The lower border of a rectangle in the frame of a direction.
pub(crate) fn bottom(way: Direction, r: Rect) -> i128
    ensures value { result ≡ bottom_of (rotated way r) }
    ensures small { IsWithin (neg_ℤ (pos (2 ^ 65))) (pos (2 ^ 65)) result }
{
    match way {
        Direction::Right => end_of(r.y, r.height),
        Direction::Left => end_of(r.y, r.height),
        Direction::Down => end_of(r.x, r.width),
        Direction::Up => end_of(r.x, r.width),
    }
}

// Whether one rectangle lies left of another with this room, in the frame of a direction.
fn is_left_by(gap: i64, way: Direction, r: Rect, s: Rect) -> bool
    ensures { IsTrue result ↔ IsBeyond true gap way r s }
{
    let end = right(way, r) + i128::from(gap);
    let start = left(way, s);
    if end > start {
        return false;
    }
    true
}

// Whether one rectangle lies above another with this room, in the frame of a direction.
fn is_above_by(gap: i64, way: Direction, r: Rect, s: Rect) -> bool
    ensures { IsTrue result ↔ IsBeyond false gap way r s }
{
    let end = bottom(way, r) + i128::from(gap);
    let start = i128::from(top(way, s));
    if end > start {
        return false;
    }
    true
}

// Whether one rectangle lies left of another with this room, or above it.
pub(crate) fn is_beyond(across: bool, gap: i64, way: Direction, r: Rect, s: Rect) -> bool
    ensures { IsTrue result ↔ IsBeyond across gap way r s }
{
    if across {
        is_left_by(gap, way, r, s)
    } else {
        is_above_by(gap, way, r, s)
    }
}

// Whether one rectangle lies left of another or above it.
pub(crate) fn stands_clear(gap: i64, way: Direction, r: Rect, s: Rect) -> bool
    ensures { IsTrue result ↔ StandsClearIn gap way r s }
{
    if is_left_by(gap, way, r, s) {
        return true;
    }
    is_above_by(gap, way, r, s)
}
