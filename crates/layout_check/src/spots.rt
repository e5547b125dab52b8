//! Ports and ends of edges as they stand on the sides of their nodes.
ghost use Rattle.std.specs.Prelude.{◌≡◌, ◌↔◌, ◌≤◌, ◌<◌, ◌^◌, ◌+ℤ◌, ◌≤ℤ◌, IsTrue, false, true, length, pos};
ghost use Rattle.elk_doc.specs.Numbers.{count_below};
ghost use Rattle.elk_doc.specs.PortsKept.{is_at_node, is_spread_end, is_spread_port, port_offset, size_along};
ghost use Rattle.drawing_types.specs.Shapes.{is_side};
ghost use Rattle.drawing_types.specs.Shapes.{half_of};
ghost use Rattle.elk_doc.specs.Sound.{IsSoundSize, along};
ghost use Rattle.drawing_types.specs.Ranges.{IsPlaceWithin};
ghost use Rattle.layout_check.specs.Scenes.{IsScene};
ghost use Rattle.layout_check.specs.Spots.{IsRoomy, KeepApart, LiesOn, end_spot, is_implicit, port_spot};

use crate::scene::{Scene, dock_of, side_at};
use crate::sides::{is_pinned, side_length};
use drawing_types::shape::{Point, Rect, Side, Size};
use elk_doc::document::End;
use elk_doc::sides::end_of;

// A port or an end of an edge on a side of its node.
#[derive(Clone, Copy)]
pub(crate) struct SideSpot {
    pub node: u32,
    pub side: Side,
    pub offset: i64,
    pub spread: bool,
}

// The half of a length, rounded down.
fn half_of(length: i64) -> i64
    requires { pos 0 ≤ℤ length }
    ensures value { result ≡ half_of length }
    ensures least { pos 0 ≤ℤ result }
    ensures most { result ≤ℤ length }
{
    (length as u64 / 2) as i64
}

// The coordinate of the middle of a port along a side.
pub(crate) fn middle_along(side: Side, place: Point, size: Size) -> i64
    requires near { IsPlaceWithin (2 ^ 53) place }
    requires small { IsSoundSize size }
    ensures { result ≡ along side place +ℤ half_of (size_along side size) }
{
    match side {
        Side::North => place.x + half_of(size.width),
        Side::East => place.y + half_of(size.height),
        Side::South => place.x + half_of(size.width),
        Side::West => place.y + half_of(size.height),
    }
}

// The offset of a port's anchor along its side.
pub(crate) fn port_offset(scene: &Scene<'_>, port: u32) -> i64
    requires port_in { port < length scene.now.doc.now.ports }
    requires scene { IsScene scene.now }
    ensures { result ≡ port_offset scene.now.doc.now scene.now.placed.now port }
{
    let side = side_at(scene, port);
    middle_along(
        side,
        scene.placed.port_place(port),
        scene.doc.port(port).size,
    )
}

// A port as it stands on a side of its node.
pub(crate) fn port_spot(scene: &Scene<'_>, port: u32) -> SideSpot
    requires port_in { port < length scene.now.doc.now.ports }
    requires scene { IsScene scene.now }
    ensures { result ≡ port_spot scene.now.doc.now scene.now.placed.now port }
{
    let offset = port_offset(scene, port);
    SideSpot {
        node: scene.doc.port(port).node,
        side: side_at(scene, port),
        offset,
        spread: !is_pinned(scene.doc, port),
    }
}

// Whether an end stands at a node itself.
fn is_implicit(end: End) -> bool
    ensures { result ≡ is_implicit end }
{
    match end {
        End::Node(_) => true,
        End::Port(_) => false,
    }
}

// An end of an edge as it stands on a side of its node.
pub(crate) fn end_spot(scene: &Scene<'_>, edge: u32, at_source: bool) -> SideSpot
    requires edge_in { edge < length scene.now.doc.now.edges }
    requires scene { IsScene scene.now }
    ensures { result ≡ end_spot scene.now.doc.now scene.now.placed.now edge at_source }
{
    let dock = dock_of(scene, edge, at_source);
    SideSpot {
        node: dock.node,
        side: dock.side,
        offset: dock.offset,
        spread: is_implicit(end_of(scene.doc, edge, at_source)),
    }
}

// Whether two sides are one.
pub(crate) fn is_side(side: Side, other: Side) -> bool
    ensures { result ≡ is_side side other }
{
    match side {
        Side::North => match other {
            Side::North => true,
            Side::East => false,
            Side::South => false,
            Side::West => false,
        },
        Side::East => match other {
            Side::North => false,
            Side::East => true,
            Side::South => false,
            Side::West => false,
        },
        Side::South => match other {
            Side::North => false,
            Side::East => false,
            Side::South => true,
            Side::West => false,
        },
        Side::West => match other {
            Side::North => false,
            Side::East => false,
            Side::South => false,
            Side::West => true,
        },
    }
}

// Whether an end stands at this node itself.
fn is_at_node(end: End, node: u32) -> bool
    ensures { result ≡ is_at_node end node }
{
    match end {
        End::Node(other) => other == node,
        End::Port(_) => false,
    }
}

// Whether a port is a spread spot on a side of a node.
fn is_spread_port(scene: &Scene<'_>, node: u32, side: Side, port: u32) -> bool
    requires port_in { port < length scene.now.doc.now.ports }
    requires scene { IsScene scene.now }
    ensures { result ≡ is_spread_port scene.now.doc.now scene.now.placed.now node side port }
{
    let of_node = scene.doc.port(port).node == node;
    let free = !is_pinned(scene.doc, port);
    let on_side = is_side(side_at(scene, port), side);
    of_node && (free && on_side)
}

// Whether an end of an edge is a spread spot on a side of a node.
fn is_spread_end(scene: &Scene<'_>, node: u32, side: Side, at_source: bool, edge: u32) -> bool
    requires edge_in { edge < length scene.now.doc.now.edges }
    requires scene { IsScene scene.now }
    ensures { result ≡ is_spread_end scene.now.doc.now scene.now.placed.now node side at_source edge }
{
    let dock = dock_of(scene, edge, at_source);
    if dock.node != node {
        return false;
    }
    let of_node = is_at_node(end_of(scene.doc, edge, at_source), node);
    let on_side = is_side(dock.side, side);
    of_node && on_side
}

// How many ports are spread spots on a side of a node.
fn port_count(scene: &Scene<'_>, node: u32, side: Side) -> usize
    requires scene { IsScene scene.now }
    ensures value { result ≡ count_below (is_spread_port scene.now.doc.now scene.now.placed.now node side) (length scene.now.doc.now.ports) }
    ensures few { result ≤ length scene.now.doc.now.ports }
{
    let mut count = 0;
    for port in 0..scene.doc.ports().len() {
        if is_spread_port(scene, node, side, port as u32) {
            count += 1;
        }
    }
    count
}

// How many ends of edges, at their sources or at their targets, are spread spots on a side of a node.
fn end_count(scene: &Scene<'_>, node: u32, side: Side, at_source: bool) -> usize
    requires scene { IsScene scene.now }
    ensures value { result ≡ count_below (is_spread_end scene.now.doc.now scene.now.placed.now node side at_source) (length scene.now.doc.now.edges) }
    ensures few { result ≤ length scene.now.doc.now.edges }
{
    let mut count = 0;
    for edge in 0..scene.doc.edges().len() {
        if is_spread_end(scene, node, side, at_source, edge as u32) {
            count += 1;
        }
    }
    count
}

// Whether a side of a node is longer than the number of its spread spots.
pub(crate) fn is_roomy(scene: &Scene<'_>, node: u32, side: Side) -> bool
    requires node_in { node < length scene.now.doc.now.nodes }
    requires scene { IsScene scene.now }
    ensures { IsTrue result ↔ IsRoomy scene.now.doc.now scene.now.placed.now node side }
{
    let _node = scene.doc.node(node);
    let ports = port_count(scene, node, side);
    let leaving = end_count(scene, node, side, true);
    let entering = end_count(scene, node, side, false);
    let count = ports + leaving + entering;
    (count as i64) < side_length(side, scene.placed.box_of(node))
}

// Whether two spots, if both are spread ones of one side with room, have different offsets.
pub(crate) fn are_apart(roomy: bool, one: SideSpot, other: SideSpot) -> bool
    ensures { IsTrue result ↔ KeepApart roomy one other }
{
    if one.node != other.node {
        return true;
    }
    if !roomy {
        return true;
    }
    if !one.spread {
        return true;
    }
    if !other.spread {
        return true;
    }
    if !is_side(one.side, other.side) {
        return true;
    }
    one.offset != other.offset
}

// Whether the offset of a spot, if this is asked, lies on its side of a rectangle.
pub(crate) fn lies_on(asked: bool, outer: Rect, spot: SideSpot) -> bool
    ensures { IsTrue result ↔ LiesOn asked outer spot }
{
    if !asked {
        return true;
    }
    if spot.offset < 0 {
        return false;
    }
    spot.offset <= side_length(spot.side, outer)
}
