//! Content that lies inside its node's padding.
ghost use Rattle.std.specs.Prelude.{◌↔◌, ◌<◌, ◌+ℤ◌, ◌-ℤ◌, ◌≤ℤ◌, IsTrue, MatchOption, length};
ghost use Rattle.elk_doc.specs.Inside.{Inside, IsWithinPadding};
ghost use Rattle.layout_check.specs.Faults.{IsFirst};
ghost use Rattle.layout_check.specs.Scenes.{IsScene};
ghost use Rattle.layout_check.specs.FirstInside.{FirstInside, OutlineHolds, PointsHold, PointsWithin};

use crate::Place;
use crate::beyond::point_rect;
use crate::fault::Fault;
use crate::read::{is_edge_of, point_at, point_count};
use crate::scene::{Scene, outline_at};
use drawing_types::section::Section;
use drawing_types::shape::Rect;
use elk_doc::document::{LevelOptions, Padding};
use elk_doc::form::is_child;

// Whether a stretch, given by its low end and its size, ends this far before a limit.
fn ends_before(low: i64, size: i64, limit: i64, room: i64) -> bool
    ensures { IsTrue result ↔ ((low +ℤ size) ≤ℤ (limit -ℤ room)) }
{
    let end = i128::from(low) + i128::from(size);
    let most = i128::from(limit) - i128::from(room);
    if end > most {
        return false;
    }
    true
}

// Whether a rectangle lies within the padding of another, relative to that one.
fn is_within(outer: Rect, room: Padding, r: Rect) -> bool
    ensures { IsTrue result ↔ IsWithinPadding outer room r }
{
    if room.left > r.x {
        return false;
    }
    if room.top > r.y {
        return false;
    }
    if !ends_before(r.x, r.width, outer.width, room.right) {
        return false;
    }
    ends_before(r.y, r.height, outer.height, room.bottom)
}

// Whether all points of a route lie within the padding of a box.
fn are_within(section: &Section, outer: Rect, room: Padding) -> bool
    ensures { IsTrue result ↔ PointsWithin section.now outer room }
{
    for i in 0..point_count(section) {
        if !is_within(outer, room, point_rect(point_at(section, i))) {
            return false;
        }
    }
    true
}

// Whether a node, if it is a child, has its outline inside.
fn outline_holds(scene: &Scene<'_>, node: u32, options: &LevelOptions, child: u32) -> bool
    requires node_in { node < length scene.now.doc.now.nodes }
    requires child_in { child < length scene.now.doc.now.nodes }
    requires scene { IsScene scene.now }
    ensures { IsTrue result ↔ OutlineHolds scene.now.doc.now scene.now.placed.now node options.now child }
{
    if !is_child(scene.doc, node, child) {
        return true;
    }
    let outline = outline_at(scene, child);
    is_within(scene.placed.box_of(node), options.padding, outline)
}

// Whether an edge, if it belongs to the level, has its route inside.
fn points_hold(scene: &Scene<'_>, node: u32, options: &LevelOptions, edge: u32) -> bool
    requires node_in { node < length scene.now.doc.now.nodes }
    requires edge_in { edge < length scene.now.doc.now.edges }
    requires scene { IsScene scene.now }
    ensures { IsTrue result ↔ PointsHold scene.now.doc.now scene.now.placed.now node options.now edge }
{
    if !is_edge_of(scene.doc, node, edge) {
        return true;
    }
    are_within(
        scene.placed.section(edge),
        scene.placed.box_of(node),
        options.padding,
    )
}

// The first child whose outline is not inside.
fn first_outline(scene: &Scene<'_>, node: u32, options: &LevelOptions) -> Option<u32>
    requires node_in { node < length scene.now.doc.now.nodes }
    requires scene { IsScene scene.now }
    ensures { IsFirst (OutlineHolds scene.now.doc.now scene.now.placed.now node options.now) result }
{
    for child in 0..scene.doc.nodes().len() {
        if !outline_holds(scene, node, options, child as u32) {
            return Some(child as u32);
        }
    }
    None
}

// The first edge whose route is not inside.
fn first_route(scene: &Scene<'_>, node: u32, options: &LevelOptions) -> Option<u32>
    requires node_in { node < length scene.now.doc.now.nodes }
    requires scene { IsScene scene.now }
    ensures { IsFirst (PointsHold scene.now.doc.now scene.now.placed.now node options.now) result }
{
    for edge in 0..scene.doc.edges().len() {
        if !points_hold(scene, node, options, edge as u32) {
            return Some(edge as u32);
        }
    }
    None
}

/// The first child of a node whose outline is not within the node's padding, and else the first edge of its level with a
/// point that is not.
pub fn inside_fault(scene: &Scene<'_>, node: u32, options: &LevelOptions) -> Option<Fault>
    requires node_in { node < length scene.now.doc.now.nodes }
    requires scene { IsScene scene.now }
    ensures { MatchOption result
        (Inside scene.now.doc.now scene.now.placed.now node options.now)
        (FirstInside scene.now.doc.now scene.now.placed.now node options.now) }
{
    if let Some(child) = first_outline(scene, node, options) {
        return Some(Fault::lone(Place::Node(child)));
    }
    match first_route(scene, node, options) {
        Some(edge) => Some(Fault::lone(Place::Edge(edge))),
        None => None,
    }
}
