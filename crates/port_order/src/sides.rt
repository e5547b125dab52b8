//! The side of a spot.
ghost use Rattle.std.specs.Prelude.{◌≡◌, ◌<◌, ◌^◌, length};
ghost use Rattle.elk_doc.specs.Sides.{side_from};
ghost use Rattle.drawing_types.specs.Ranges.{IsPlaceWithin};
ghost use Rattle.port_order.specs.Conditions.{IsChild, IsSmall, IsSpot};
ghost use Rattle.elk_doc.specs.PortsKept.{runs_forward};
ghost use Rattle.port_order.specs.Sides.{first_side, given_side, is_forward, is_mirrored, side_else, side_of, side_of_place, sticks_out, touches, tried_sides};

use crate::children::{Child, port_at};
use crate::spots::Spot;
use drawing_types::shape::{Point, Side, Size};
use elk_doc::document::Direction;
use elk_doc::sides::side_from;

/// The side of a spot in the working frame. A port lies on the side that its child's rule gives it; every other port,
/// and every implicit end, lies on the west where edges only enter it, and on the east otherwise.
///
/// Proved:
/// - Sides of a child's ports and implicit ends in the working frame.
pub fn side_of(child: &Child, spot: &Spot) -> Side
    requires child { IsChild child.now }
    requires spot { IsSpot child.now spot.now }
    ensures { result ≡ side_of child.now spot.now }
{
    let only_enters = spot.enters && !spot.leaves;
    match spot.port {
        Some(port) => side_else(given_side(child, port), only_enters),
        None => side_else(None, only_enters),
    }
}

/// Whether the document's offsets along a working side run from the right.
pub fn is_mirrored(direction: Direction, side: Side) -> bool
    ensures { result ≡ is_mirrored direction side }
{
    match direction {
        Direction::Right => false,
        Direction::Left => side == Side::North || side == Side::South,
        Direction::Down => false,
        Direction::Up => side == Side::North || side == Side::South,
    }
}

/// Whether the document's clockwise runs from the left or the top along a working side.
pub(crate) fn is_forward(direction: Direction, side: Side) -> bool
    ensures { result ≡ is_forward direction side }
{
    match direction {
        Direction::Right => runs_forward(side),
        Direction::Left => !runs_forward(side),
        Direction::Down => !runs_forward(side),
        Direction::Up => runs_forward(side),
    }
}

// Whether clockwise runs from the left or the top along a side.
fn runs_forward(side: Side) -> bool
    ensures { result ≡ runs_forward side }
{
    match side {
        Side::North => true,
        Side::East => true,
        Side::South => false,
        Side::West => false,
    }
}

// The side that is there, and else the one by the flow of edges.
fn side_else(given: Option<Side>, only_enters: bool) -> Side
    ensures { result ≡ side_else given only_enters }
{
    match given {
        Some(side) => side,
        None => { if only_enters { Side::West } else { Side::East } }
    }
}

// The side that a port is given by its child's rule.
fn given_side(child: &Child, port: u32) -> Option<Side>
    requires child { IsChild child.now }
    requires port { port < length child.now.ports }
    ensures { result ≡ given_side child.now port }
{
    let found = port_at(child, port);
    let by_place = side_of_place(child.direction, child.size, found.place, found.size);
    side_from(child.rule, found.side, !child.compound, by_place)
}

// The side of the place that a port is given: the first on which it sticks out, else the first that it touches.
fn side_of_place(direction: Direction, outer: Size, place: Point, size: Size) -> Option<Side>
    requires near { IsPlaceWithin (2 ^ 54) place }
    requires small { IsSmall size }
    ensures { result ≡ side_of_place direction outer place size }
{
    let touched = side_touched(direction, outer, place, size);
    for side in tried_sides(direction) {
        if sticks_out(outer, place, size, *side) {
            return Some(*side);
        }
    }
    touched
}

// The first side that a port touches from within.
fn side_touched(direction: Direction, outer: Size, place: Point, size: Size) -> Option<Side>
    requires near { IsPlaceWithin (2 ^ 54) place }
    requires small { IsSmall size }
    ensures { result ≡ first_side (touches outer place size) (tried_sides direction) None }
{
    for side in tried_sides(direction) {
        if touches(outer, place, size, *side) {
            return Some(*side);
        }
    }
    None
}

// The sides in the order in which they are tried: the document's west, east, north and south.
fn tried_sides(direction: Direction) -> &'static [Side]
    ensures { result.now ≡ tried_sides direction }
{
    match direction {
        Direction::Right => &[Side::West, Side::East, Side::North, Side::South],
        Direction::Left => &[Side::East, Side::West, Side::North, Side::South],
        Direction::Down => &[Side::North, Side::South, Side::West, Side::East],
        Direction::Up => &[Side::North, Side::South, Side::East, Side::West],
    }
}

// Whether a port sticks out of a box on a side.
fn sticks_out(outer: Size, place: Point, size: Size, side: Side) -> bool
    requires near { IsPlaceWithin (2 ^ 54) place }
    requires small { IsSmall size }
    ensures { result ≡ sticks_out outer place size side }
{
    match side {
        Side::North => place.y < 0,
        Side::East => place.x + size.width > outer.width,
        Side::South => place.y + size.height > outer.height,
        Side::West => place.x < 0,
    }
}

// Whether a port touches a side of a box from within.
fn touches(outer: Size, place: Point, size: Size, side: Side) -> bool
    requires near { IsPlaceWithin (2 ^ 54) place }
    requires small { IsSmall size }
    ensures { result ≡ touches outer place size side }
{
    match side {
        Side::North => place.y == 0,
        Side::East => place.x + size.width == outer.width,
        Side::South => place.y + size.height == outer.height,
        Side::West => place.x == 0,
    }
}
