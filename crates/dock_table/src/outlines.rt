//! Anchors, places of ports, and outlines, from the corner of a child's box.
ghost use Rattle.std.specs.Prelude.{◌≡◌, ◌-ℤ◌, ◌<◌, ◌≤◌, ◌^◌, ℕ, length, pos, slice_index_or, IfOk, IfSome};
ghost use Rattle.std.specs.List.{All, range_with_len};
ghost use Rattle.drawing_types.specs.declared.shape.Dock.{Dock as ADock};
ghost use Rattle.drawing_types.specs.Shapes as shapes_rules;
ghost use Rattle.drawing_types.specs.Ranges.{IsPlaceWithin};
ghost use Rattle.port_order.specs.Child as ports;
ghost use Rattle.port_order.specs.Conditions.{IsSmall};
ghost use Rattle.port_order.specs.Places as places;
ghost use Rattle.dock_table.specs.Outlines.{dock_in, outline_by};
ghost use Rattle.dock_table.specs.Narrow.{IsNarrow, IsNearRect, IsOffset};

use drawing_types::shape::{Dock, Point, Rect, Side, Size};
use elk_doc::places;
use port_order::{Child, is_pinned};
use std::alloc::{AllocError, Global};

// How far the outer face of a port that is flush stands from the box's corner, across its side.
fn outer_face(side: Side, outer: Size, size: Size) -> i64
    requires outer { IsSmall outer }
    requires size { IsSmall size }
    ensures { result ≡ places.outer_face side outer size }
{
    match side {
        Side::North => -size.height,
        Side::East => outer.width + size.width,
        Side::South => outer.height + size.height,
        Side::West => -size.width,
    }
}

// The outer face of a port at its given place.
fn given_face(side: Side, place: Point, size: Size) -> i64
    requires near { IsPlaceWithin (2 ^ 54) place }
    requires size { IsSmall size }
    ensures { result ≡ places.given_face side place size }
{
    match side {
        Side::North => place.y,
        Side::East => place.x + size.width,
        Side::South => place.y + size.height,
        Side::West => place.x,
    }
}

// Where the outer face of a port stands.
fn face_of(child: &Child, side: Side, port: u32) -> i64
    requires child { IsNarrow child.now }
    requires port { port < length child.now.ports }
    ensures value { result ≡ places.face_of child.now side port }
    ensures near { IsOffset result }
{
    face_at(child, side, port)
}

// The same, however far it is.
fn face_at(child: &Child, side: Side, port: u32) -> i64
    requires child { IsNarrow child.now }
    requires port { port < length child.now.ports }
    ensures { result ≡ places.face_of child.now side port }
{
    let found = *child.ports.at(port as usize);
    if is_pinned(child, port) && !child.compound {
        given_face(side, found.place, found.size)
    } else {
        outer_face(side, child.size, found.size)
    }
}

// The point with this coordinate across a side and this offset along it.
fn on_side(side: Side, face: i64, offset: i64) -> Point
    requires face { IsOffset face }
    requires offset { IsOffset offset }
    ensures value { result ≡ places.on_side side face offset }
    ensures near { IsPlaceWithin (2 ^ 48) result }
{
    match side {
        Side::North => Point { x: offset, y: face },
        Side::East => Point { x: face, y: offset },
        Side::South => Point { x: offset, y: face },
        Side::West => Point { x: face, y: offset },
    }
}

/// The anchor of a spot with this offset.
pub(crate) fn anchor_at(child: &Child, side: Side, port: Option<u32>, offset: i64) -> Point
    requires child { IsNarrow child.now }
    requires port { IfSome port (λ k. k < length child.now.ports) }
    requires offset { IsOffset offset }
    ensures value { result ≡ places.anchor_at child.now side port offset }
    ensures near { IsPlaceWithin (2 ^ 48) result }
{
    match port {
        Some(port) => on_side(side, face_of(child, side, port), offset),
        None => {
            let no_size = Size {
                width: 0,
                height: 0,
            };
            on_side(side, outer_face(side, child.size, no_size), offset)
        }
    }
}

// The corner of a port's box, from its outer face and its start along its side.
fn corner_of(side: Side, face: i64, start: i64, size: Size) -> Point
    requires size { IsSmall size }
    requires face { IsOffset face }
    ensures { result ≡ places.corner_of side face start size }
{
    match side {
        Side::North => Point { x: start, y: face },
        Side::East => Point {
            x: face - size.width,
            y: start,
        },
        Side::South => Point {
            x: start,
            y: face - size.height,
        },
        Side::West => Point { x: face, y: start },
    }
}

// The start of a port along its side, from its anchor's offset.
fn start_of(child: &Child, port: u32, offset: i64) -> i64
    requires child { IsNarrow child.now }
    requires port { port < length child.now.ports }
    requires offset { IsOffset offset }
    ensures { result ≡ offset -ℤ (ports.port_at child.now port).half }
{
    let found = *child.ports.at(port as usize);
    offset - found.half
}

// The size of a port.
fn size_of(child: &Child, port: u32) -> Size
    requires child { IsNarrow child.now }
    requires port { port < length child.now.ports }
    ensures value { result ≡ (ports.port_at child.now port).size }
    ensures small { IsSmall result }
{
    let found = *child.ports.at(port as usize);
    found.size
}

// The place of a port whose anchor has this offset.
fn place_of_port(child: &Child, side: Side, port: u32, offset: i64) -> Point
    requires child { IsNarrow child.now }
    requires port { port < length child.now.ports }
    requires offset { IsOffset offset }
    ensures { result ≡ places.place_of_port child.now side port offset }
{
    let start = start_of(child, port, offset);
    let face = face_of(child, side, port);
    corner_of(side, face, start, size_of(child, port))
}

// The rectangle of this size at a place.
fn rect_at(place: Point, size: Size) -> Rect
    ensures { result ≡ shapes_rules.rect_at place size }
{
    Rect {
        x: place.x,
        y: place.y,
        width: size.width,
        height: size.height,
    }
}

// The rectangle of a port whose anchor has this offset.
fn port_rect(child: &Child, side: Side, port: u32, offset: i64) -> Rect
    requires child { IsNarrow child.now }
    requires port { port < length child.now.ports }
    requires offset { IsOffset offset }
    ensures value { result ≡ shapes_rules.rect_at (places.place_of_port child.now side port offset) (ports.port_at child.now port).size }
    ensures near { IsNearRect result }
{
    let place = place_of_port(child, side, port, offset);
    rect_at(place, size_of(child, port))
}

/// The least rectangle that holds two.
pub fn hull(a: Rect, b: Rect) -> Rect
    requires a_near { IsNearRect a }
    requires b_near { IsNearRect b }
    ensures value { result ≡ shapes_rules.hull a b }
    ensures near { IsNearRect result }
{
    places::hull(a, b)
}

/// The outline of a child by the docks of its spots, of which those of ports come first: the least rectangle that holds its
/// box and its ports.
pub(crate) fn outline_of(child: &Child, docks: &[Dock]) -> Rect
    requires child { IsNarrow child.now }
    requires docks { length child.now.ports ≤ length docks.now }
    requires offsets { All (λ (d : ADock). IsOffset d.offset) docks.now }
    ensures value { result ≡ outline_by child.now docks.now (range_with_len 0 (length child.now.ports)) }
    ensures near { IsNearRect result }
{
    let mut outline = Rect {
        x: 0,
        y: 0,
        width: child.size.width,
        height: child.size.height,
    };
    let mut port = child.ports.len();
    'ports: while port > 0 {
        port -= 1;
        let dock = docks[port];
        outline = hull(
            outline,
            port_rect(child, dock.side, port as u32, dock.offset),
        );
    }
    outline
}

/// The places of a child's ports by the docks of its spots, of which those of ports come first.
pub(crate) fn ports_of(
    alloc: Global,
    child: &Child,
    docks: &[Dock],
) -> Result<Vec<Point>, AllocError>
    requires child { IsNarrow child.now }
    requires docks { length child.now.ports ≤ length docks.now }
    requires offsets { All (λ (d : ADock). IsOffset d.offset) docks.now }
    ensures as_many { IfOk result (λ ports. length ports.items ≡ length child.now.ports) }
    ensures ports { IfOk result
        (λ ports. (k : ℕ) → k < length child.now.ports
        → slice_index_or ports.items k (record { x = pos 0; y = pos 0 })
        ≡ places.place_of_port child.now (dock_in docks.now k).side k (dock_in docks.now k).offset) }
{
    let mut ports: Vec<Point> = Vec::with_capacity(alloc, child.ports.len())?;
    for port in 0..child.ports.len() {
        let dock = docks[port];
        ports.push(place_of_port(child, dock.side, port as u32, dock.offset))?;
    }
    Ok(ports)
}
