//! Coordinates along and across sides.
ghost use Rattle.std.specs.Prelude.{◌≡◌, ◌↔◌, ◌<◌, IsTrue, length};
ghost use Rattle.elk_doc.specs.Fits.{FitsBox};
ghost use Rattle.elk_doc.specs.PortsKept.{IsOnSide, across, clockwise, flush, is_pinned, pins, side_length};
ghost use Rattle.elk_doc.specs.Sound.{IsSoundSize};
ghost use Rattle.layout_check.specs.Spots.{AgreeAcross, AgreeAlong, StandsFlush};

use drawing_types::shape::{Point, Rect, Side, Size};
use elk_doc::document::{Doc, PortRule};
use elk_doc::sides::along;

// The coordinate of a point across a side.
pub(crate) fn across(side: Side, point: Point) -> i64
    ensures { result ≡ across side point }
{
    match side {
        Side::North => point.y,
        Side::East => point.x,
        Side::South => point.y,
        Side::West => point.x,
    }
}

// The length of a side of a rectangle.
pub(crate) fn side_length(side: Side, r: Rect) -> i64
    ensures { result ≡ side_length side r }
{
    match side {
        Side::North => r.width,
        Side::East => r.height,
        Side::South => r.width,
        Side::West => r.height,
    }
}

// Where a port of this size stands across a side, flush outside.
pub(crate) fn flush(side: Side, outer: Rect, size: Size) -> i64
    requires { IsSoundSize size }
    ensures { result ≡ flush side outer size }
{
    match side {
        Side::North => -size.height,
        Side::East => outer.width,
        Side::South => outer.height,
        Side::West => -size.width,
    }
}

// A coordinate along a side, counted clockwise.
pub(crate) fn clockwise(side: Side, z: i64) -> i128
    ensures { result ≡ clockwise side z }
{
    match side {
        Side::North => i128::from(z),
        Side::East => i128::from(z),
        Side::South => -i128::from(z),
        Side::West => -i128::from(z),
    }
}

// Whether a port is pinned under a rule.
fn pins(rule: PortRule, leaf: bool, asked: bool) -> bool
    ensures { result ≡ pins rule leaf asked }
{
    match rule {
        PortRule::Free => false,
        PortRule::FixedSide => false,
        PortRule::FixedOrder => false,
        PortRule::FixedPos => leaf || asked,
    }
}

// Whether a port is pinned.
pub(crate) fn is_pinned(doc: &Doc, port: u32) -> bool
    requires { port < length doc.now.ports }
    ensures { result ≡ is_pinned doc.now port }
{
    let found = doc.port(port);
    let node = doc.node(found.node);
    pins(node.rule, node.level.is_none(), found.side.is_some())
}

// Whether two points, if this is asked, agree along a side.
pub(crate) fn agree_along(asked: bool, side: Side, a: Point, b: Point) -> bool
    ensures { IsTrue result ↔ AgreeAlong asked side a b }
{
    if !asked {
        return true;
    }
    along(side, a) == along(side, b)
}

// Whether two points, if this is asked, agree across a side.
pub(crate) fn agree_across(asked: bool, side: Side, a: Point, b: Point) -> bool
    ensures { IsTrue result ↔ AgreeAcross asked side a b }
{
    if !asked {
        return true;
    }
    across(side, a) == across(side, b)
}

// Whether a port at a place, if this is asked, stands flush outside a side.
pub(crate) fn stands_flush(asked: bool, side: Side, outer: Rect, place: Point, size: Size) -> bool
    requires { IsSoundSize size }
    ensures { IsTrue result ↔ StandsFlush asked side outer place size }
{
    if !asked {
        return true;
    }
    across(side, place) == flush(side, outer, size)
}

// Whether a point lies on the line of a side.
pub(crate) fn is_on_side(side: Side, r: Rect, q: Point) -> bool
    requires { FitsBox r }
    ensures { IsTrue result ↔ IsOnSide side r q }
{
    match side {
        Side::North => q.y == r.y,
        Side::East => q.x == r.x + r.width,
        Side::South => q.y == r.y + r.height,
        Side::West => q.x == r.x,
    }
}
