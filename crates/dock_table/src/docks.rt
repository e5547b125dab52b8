//! The docks of spots.
ghost use Rattle.std.specs.Prelude.{◌≡◌, ◌+ℤ◌, ◌<◌, ◌≤◌, ◌^◌, length, map, pos, true, false, IfOk, IfSome, IsFalse};
ghost use Rattle.std.specs.List.{All};
ghost use Rattle.elk_doc.specs.PortsKept as kept;
ghost use Rattle.elk_doc.specs.Sound as sound;
ghost use Rattle.drawing_types.specs.Ranges.{IsWithin};
ghost use Rattle.port_order.specs.Child as ports;
ghost use Rattle.port_order.specs.Conditions.{AreSpots, IsSpot};
ghost use Rattle.port_order.specs.Places as places;
ghost use Rattle.port_order.specs.Sides as sides;
ghost use Rattle.dock_table.specs.Sides as spec;
ghost use Rattle.level_model.specs.Conditions.{plain_level, IsLevel};
ghost use Rattle.dock_table.specs.Narrow.{IsNarrow, IsOffset};
ghost use Rattle.dock_table.specs.Rows.{AreCounted, row_lists};
ghost use Rattle.dock_table.specs.Sides.{AreDocks, AreFour, HavePlaces, HaveOrders, dock_by, dock_lists, docks_at, four_of, order_on};

use crate::orders::SideOrders;
use crate::spots::Rows;
use drawing_types::shape::{Dock, Side};
use elk_doc::sides::along;
use elk_layers::note_places;
use level_model::LevelIn;
use port_order::{Child, Spot, is_mirrored, is_pinned, side_of, size_along, spread_at};
use std::alloc::{AllocError, Global};

// By number, the places of spread spots in the orders of their sides.
fn side_places(
    alloc: Global,
    child: &Child,
    spots: &[Spot],
    orders: &SideOrders,
) -> Result<Vec<u32>, AllocError>
    requires orders { AreFour child.now spots.now (four_of orders.now) }
    requires numbers { AreCounted spots.now }
    requires few { length spots.now ≤ 2 ^ 16 }
    ensures { IfOk result (λ place. HavePlaces child.now spots.now (four_of orders.now) place.items) }
{
    let mut place: Vec<u32> = vec![in alloc; 0; spots.len()]?;
    note_sides(place.as_mut_slice(), child, spots, orders);
    Ok(place)
}

// Notes the places of the spread spots of all four sides.
fn note_sides(place: &mut [u32], child: &Child, spots: &[Spot], orders: &SideOrders)
    requires orders { AreFour child.now spots.now (four_of orders.now) }
    requires numbers { AreCounted spots.now }
    requires few { length spots.now ≤ 2 ^ 16 }
    requires as_long { length place.old ≡ length spots.now }
    ensures { HavePlaces child.now spots.now (four_of orders.now) place.new }
{
    note_places(place, orders.on(Side::North));
    note_places(place, orders.on(Side::East));
    note_places(place, orders.on(Side::South));
    note_places(place, orders.on(Side::West));
}

// The working offset of a spread spot by its place from the top or the left.
fn rotated_spread(mirrored: bool, len: i64, count: u32, place: u32) -> i64
    requires len { IsWithin (pos 0) (pos (2 ^ 47)) len }
    requires place { place < count }
    ensures value { result ≡ places.rotated_spread mirrored len count place }
    ensures inside { IsWithin (pos 0) len result }
{
    if mirrored {
        len - spread_at(len, count, count - (place + 1))
    } else {
        spread_at(len, count, place)
    }
}

// The offset of a spread spot by its place in the order of its side.
fn spread_offset(child: &Child, side: Side, count: u32, place: u32) -> i64
    requires child { IsNarrow child.now }
    requires place { place < count }
    ensures value { result ≡ places.rotated_spread (sides.is_mirrored child.now.direction side) (kept.size_along side child.now.size) count place }
    ensures offset { IsOffset result }
{
    let mirrored = is_mirrored(child.direction, side);
    rotated_spread(mirrored, size_along(side, child.size), count, place)
}

// The offset of the anchor of a pinned port.
fn given_offset(child: &Child, side: Side, port: u32) -> i64
    requires child { IsNarrow child.now }
    requires port { port < length child.now.ports }
    requires pinned { ports.is_pinned child.now port ≡ true }
    requires side { side ≡ sides.side_else (sides.given_side child.now port) false }
    ensures value { result ≡ sound.along side (ports.port_at child.now port).place +ℤ (ports.port_at child.now port).half }
    ensures offset { IsOffset result }
{
    let found = *child.ports.at(port as usize);
    along(side, found.place) + found.half
}

// The offset of a spot's anchor along its side.
fn offset_by(child: &Child, side: Side, port: Option<u32>, count: u32, place: u32) -> i64
    requires child { IsNarrow child.now }
    requires side { ports.is_pinned_at child.now port ≡ true → side ≡ sides.side_else (sides.given_to child.now port) false }
    requires port { IfSome port (λ k. k < length child.now.ports) }
    requires place { IsFalse (ports.is_pinned_at child.now port) → place < count }
    ensures value { result ≡ spec.offset_by child.now side (ports.is_pinned_at child.now port) port count place }
    ensures offset { IsOffset result }
{
    match port {
        Some(port) => {
            if is_pinned(child, port) {
                given_offset(child, side, port)
            } else {
                spread_offset(child, side, count, place)
            }
        }
        None => spread_offset(child, side, count, place),
    }
}

// The dock of a spot, by its place among the spread spots of its side.
fn dock_at(child: &Child, node: u32, spot: &Spot, orders: &SideOrders, place: u32) -> Dock
    requires child { IsNarrow child.now }
    requires spot { IsSpot child.now spot.now }
    requires few { length (order_on (four_of orders.now) (sides.side_of child.now spot.now)) ≤ 2 ^ 16 }
    requires once { IsFalse (ports.is_pinned_spot child.now spot.now)
        → places.HoldsOnce (order_on (four_of orders.now) (sides.side_of child.now spot.now)) spot.now.number }
    requires place { IsFalse (ports.is_pinned_spot child.now spot.now)
        → place ≡ places.place_in (order_on (four_of orders.now) (sides.side_of child.now spot.now)) spot.now.number }
    ensures value { result ≡ dock_by child.now node (four_of orders.now) spot.now }
    ensures offset { IsOffset result.offset }
{
    let side = side_of(child, spot);
    let count = orders.on(side).len() as u32;
    let offset = offset_by(child, side, spot.port, count, place);
    Dock { node, side, offset }
}

/// The docks of a child's spots, under the orders of its sides. `node` is the child's number.
pub(crate) fn docks_of_child(
    alloc: Global,
    child: &Child,
    node: u32,
    spots: &[Spot],
    orders: &SideOrders,
) -> Result<Vec<Dock>, AllocError>
    requires child { IsNarrow child.now }
    requires spots { AreSpots child.now spots.now }
    requires numbers { AreCounted spots.now }
    requires few { length spots.now ≤ 2 ^ 16 }
    requires orders { AreFour child.now spots.now (four_of orders.now) }
    ensures docks { IfOk result (λ docks. docks.items ≡ map (dock_by child.now node (four_of orders.now)) spots.now) }
    ensures offsets { IfOk result (λ docks. All (λ d. IsOffset d.offset) docks.items) }
{
    let place = side_places(alloc, child, spots, orders)?;
    let mut docks: Vec<Dock> = Vec::with_capacity(alloc, spots.len())?;
    for (i, spot) in spots.iter().enumerate() {
        docks.push(dock_at(child, node, spot, orders, place[i]))?;
    }
    Ok(docks)
}

/// By child, the docks of its spots.
#[derive(Drop)]
pub(crate) struct Docks {
    lists: Vec<Vec<Dock>>,
}

impl Docks {
    /// The docks of a child's spots.
    pub(crate) fn at(&self, child: usize) -> &[Dock]
        requires { child < length (dock_lists self.now) }
        ensures { result.now ≡ docks_at (dock_lists self.now) child }
    {
        self.lists[child].as_slice()
    }
}

/// The docks of all spots of a level.
pub(crate) fn docks_of(
    alloc: Global,
    level: &LevelIn,
    rows: &Rows,
    orders: &[SideOrders],
) -> Result<Docks, AllocError>
    requires level { IsLevel (plain_level level.now) }
    requires rows { HaveOrders (plain_level level.now) (row_lists rows.now) (map four_of orders.now) }
    ensures { IfOk result
        (λ docks. AreDocks (plain_level level.now) (row_lists rows.now) (map four_of orders.now) (length level.now.children)
        (dock_lists docks)) }
{
    let mut lists: Vec<Vec<Dock>> = Vec::with_capacity(alloc, level.children.len())?;
    for (c, child) in level.children.as_slice().iter().enumerate() {
        let docks = docks_of_child(alloc, child, c as u32, rows.at(c), &orders[c])?;
        lists.push(docks)?;
    }
    Ok(Docks { lists })
}
