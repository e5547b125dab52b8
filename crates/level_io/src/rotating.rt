//! Sizes, places and sides in the frame of a direction.
ghost use Rattle.std.specs.Prelude.{◌≡◌, ◌^◌, ◌-ℤ◌, cond, false, Option, None, Some};
ghost use Rattle.elk_doc.specs.Sound.{IsLength, IsSoundSize};
ghost use Rattle.drawing_types.specs.Ranges.{IsPlaceWithin};
ghost use Rattle.elk_doc.specs.declared.document.Direction.TheVariants.{Down, Left, Up};
ghost use Rattle.drawing_types.specs.Shapes.{half_of};
ghost use Rattle.drawing_laws.specs.Rotating.{rotated_side};
ghost use Rattle.port_order.specs.Conditions.{IsSmall};
ghost use Rattle.port_order.specs.Sides.{side_else};
ghost use Rattle.working_frame.specs.Rotated.{half_along, rotated_given, rotated_place};

use drawing_types::shape::{Point, Side, Size};
use elk_doc::document::Direction;
use elk_doc::sides::size_along;
use port_order::is_mirrored;

/// The place of something of this size within a box, from the box's corner in the frame.
pub(crate) fn rotated_place(way: Direction, outer: Size, size: Size, place: Point) -> Point
    requires outer { IsSmall outer }
    requires size { IsSoundSize size }
    requires far { IsPlaceWithin (2 ^ 53) place }
    ensures { result ≡ rotated_place way outer size place }
{
    match way {
        Direction::Right => place,
        Direction::Left => Point {
            x: outer.width - (place.x + size.width),
            y: place.y,
        },
        Direction::Down => Point {
            x: place.y,
            y: place.x,
        },
        Direction::Up => Point {
            x: outer.height - (place.y + size.height),
            y: place.x,
        },
    }
}

// A side in the frame of a direction that runs to the left.
fn mirrored_side(side: Side) -> Side
    ensures { result ≡ rotated_side Left side }
{
    match side {
        Side::North => Side::North,
        Side::East => Side::West,
        Side::South => Side::South,
        Side::West => Side::East,
    }
}

// A side in the frame of a direction that runs down.
fn exchanged_side(side: Side) -> Side
    ensures { result ≡ rotated_side Down side }
{
    match side {
        Side::North => Side::West,
        Side::East => Side::South,
        Side::South => Side::East,
        Side::West => Side::North,
    }
}

// A side in the frame of a direction that runs up.
fn quarter_side(side: Side) -> Side
    ensures { result ≡ rotated_side Up side }
{
    match side {
        Side::North => Side::East,
        Side::East => Side::South,
        Side::South => Side::West,
        Side::West => Side::North,
    }
}

// A side in the frame.
fn rotated_side(way: Direction, side: Side) -> Side
    ensures { result ≡ rotated_side way side }
{
    match way {
        Direction::Right => side,
        Direction::Left => mirrored_side(side),
        Direction::Down => exchanged_side(side),
        Direction::Up => quarter_side(side),
    }
}

/// A side that is given or asked for, in the frame.
pub(crate) fn rotated_given(way: Direction, side: Option<Side>) -> Option<Side>
    ensures { result ≡ rotated_given way side }
{
    match side {
        None => None,
        Some(given) => Some(rotated_side(way, given)),
    }
}

// The half of a length, rounded down or up.
fn half_of(length: i64, up: bool) -> i64
    requires { IsLength length }
    ensures { result ≡ cond up (length -ℤ half_of length) (half_of length) }
{
    let half = (length as u64 / 2) as i64;
    if up { length - half } else { half }
}

/// How far the anchor of a port lies within it along its side: a half of its length there, rounded down in the document's
/// frame. A port whose side is left to the flow of edges has it along the height.
pub(crate) fn half_along(way: Direction, given: Option<Side>, size: Size) -> i64
    requires { IsSoundSize size }
    ensures { result ≡ half_along way (side_else given false) size }
{
    let side = given.unwrap_or(Side::East);
    half_of(size_along(side, size), is_mirrored(way, side))
}
