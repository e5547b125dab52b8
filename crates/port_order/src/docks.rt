//! The offsets of spots along their sides.
ghost use Rattle.std.specs.Prelude.{◌≡◌, ◌<◌, ◌^◌, pos, length, IsFalse};
ghost use Rattle.elk_doc.specs.PortsKept.{size_along};
ghost use Rattle.drawing_types.specs.Ranges.{IsWithin};
ghost use Rattle.port_order.specs.Child.{is_pinned_spot};
ghost use Rattle.port_order.specs.Conditions.{IsChild, IsSmall, IsSpot};
ghost use Rattle.port_order.specs.Sides.{side_of};
ghost use Rattle.port_order.specs.Places.{HoldsOnce, dock_of, place_in, spread_offset, rotated_spread};

use crate::children::{Child, given_offset, is_pinned_spot};
use crate::sides::{is_mirrored, side_of};
use crate::spots::Spot;
use crate::spreading::part_at;
use drawing_types::shape::{Side, Size};
use elk_doc::sides;

/// The offset of a spot's anchor along its side, in the working frame: that of its given place where its port is pinned,
/// and else the spread one, by the place of the spot's number in the order of its side.
pub fn dock_of(child: &Child, spot: &Spot, order: &[u32]) -> i64
    requires child { IsChild child.now }
    requires spot { IsSpot child.now spot.now }
    requires order { IsFalse (is_pinned_spot child.now spot.now) → HoldsOnce order.now spot.now.number }
    ensures value { result ≡ dock_of child.now spot.now order.now }
    ensures inside { IsFalse (is_pinned_spot child.now spot.now) → IsWithin (pos 0) (size_along (side_of child.now spot.now) child.now.size) result }
{
    let side = side_of(child, spot);
    match spot.port {
        Some(port) => {
            if is_pinned_spot(child, spot) {
                given_offset(child, side, port)
            } else {
                spread_offset(child, side, order, spot.number)
            }
        }
        None => spread_offset(child, side, order, spot.number),
    }
}

// The offset of a spread spot's anchor.
fn spread_offset(child: &Child, side: Side, order: &[u32], number: u32) -> i64
    requires child { IsChild child.now }
    requires order { HoldsOnce order.now number }
    ensures value { result ≡ spread_offset child.now side order.now number }
    ensures inside { IsWithin (pos 0) (size_along side child.now.size) result }
{
    let mirrored = is_mirrored(child.direction, side);
    let len = size_along(side, child.size);
    rotated_spread(mirrored, len, order.len(), place_in(order, number))
}

// The working offset of a spread spot by its place from the top or the left. Where the document counts offsets from the
// right, and rounds there, it is the side's length less the document's offset.
fn rotated_spread(mirrored: bool, len: i64, k: usize, place: usize) -> i64
    requires len { IsWithin (pos 0) (pos (2 ^ 47)) len }
    requires place { place < k }
    ensures value { result ≡ rotated_spread mirrored len k place }
    ensures inside { IsWithin (pos 0) len result }
{
    if mirrored {
        len - part_at(len, k, k - (place + 1))
    } else {
        part_at(len, k, place)
    }
}

// The place of a number that stands in a list.
fn place_in(order: &[u32], number: u32) -> usize
    requires { HoldsOnce order.now number }
    ensures value { result ≡ place_in order.now number }
    ensures inside { result < length order.now }
{
    for (place, other) in order.iter().enumerate() {
        if *other == number {
            return place;
        }
    }
    unreachable!()
}

/// The length of a small box along a side.
pub fn size_along(side: Side, size: Size) -> i64
    requires { IsSmall size }
    ensures value { result ≡ size_along side size }
    ensures small { IsWithin (pos 0) (pos (2 ^ 47)) result }
{
    sides::size_along(side, size)
}
