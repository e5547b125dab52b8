//! Orthogonal routes that leave both docks outward.
ghost use Rattle.std.specs.Prelude.{◌≡◌, ◌↔◌, ℕ, ◌<◌, IsTrue, MatchOption, false, length, true};
ghost use Rattle.elk_doc.specs.Drawing.{path_of};
ghost use Rattle.elk_doc.specs.Places.{dock_of};
ghost use Rattle.elk_doc.specs.Route.{IsOrthogonal, IsStep, IsTurn, LeavesOutward, Route};
ghost use Rattle.elk_doc.specs.Sides.{side_of_end};
ghost use Rattle.layout_check.specs.Faults.{IsFirst};
ghost use Rattle.layout_check.specs.Scenes.{IsScene};
ghost use Rattle.layout_check.specs.FirstRoutes.{FirstRoute, IsAnchored, LeavesBoth, RouteHolds};
ghost use Rattle.layout_check.specs.Stretches.{AreSteps, AreTurns};

use crate::Place;
use crate::anchors::anchor_at;
use crate::fault::Fault;
use crate::read::{is_edge_of, point_at, point_count};
use crate::scene::{Scene, dock_of};
use drawing_types::section::Section;
use drawing_types::shape::{Point, Side};

// Whether two points differ in exactly one coordinate.
fn is_step(a: Point, b: Point) -> bool
    ensures { IsTrue result ↔ IsStep a b }
{
    if a.x == b.x { a.y != b.y } else { a.y == b.y }
}

// Whether the way from `a` over `b` to `c` turns by a right angle.
fn is_turn(a: Point, b: Point, c: Point) -> bool
    ensures { IsTrue result ↔ IsTurn a b c }
{
    if a.x == b.x && b.y != c.y {
        return false;
    }
    if a.y == b.y && b.x != c.x {
        return false;
    }
    true
}

// Whether the way from `a` to `b` leaves outward from this side.
fn leaves_outward(side: Side, a: Point, b: Point) -> bool
    ensures { IsTrue result ↔ LeavesOutward side a b }
{
    match side {
        Side::North => a.x == b.x && b.y < a.y,
        Side::East => a.y == b.y && a.x < b.x,
        Side::South => a.x == b.x && a.y < b.y,
        Side::West => a.y == b.y && b.x < a.x,
    }
}

// Whether consecutive points differ in exactly one coordinate.
fn are_steps(section: &Section) -> bool
    ensures { IsTrue result ↔ AreSteps section.now }
{
    for i in 0..point_count(section) - 1 {
        if !is_step(point_at(section, i), point_at(section, i + 1)) {
            return false;
        }
    }
    true
}

// Whether consecutive segments are perpendicular.
fn are_turns(section: &Section) -> bool
    ensures { IsTrue result ↔ AreTurns section.now }
{
    for i in 0..point_count(section) - 2 {
        let turn = is_turn(
            point_at(section, i),
            point_at(section, i + 1),
            point_at(section, i + 2),
        );
        if !turn {
            return false;
        }
    }
    true
}

// Whether the route leaves its source outward, and its target, seen from the end.
fn is_outward(scene: &Scene<'_>, edge: u32) -> bool
    requires edge_in { edge < length scene.now.doc.now.edges }
    requires scene { IsScene scene.now }
    ensures { IsTrue result ↔ LeavesBoth scene.now.doc.now scene.now.placed.now edge }
{
    let section = scene.placed.section(edge);
    let count = point_count(section);
    let from = dock_of(scene, edge, true).side;
    if !leaves_outward(from, point_at(section, 0), point_at(section, 1)) {
        return false;
    }
    let to = dock_of(scene, edge, false).side;
    leaves_outward(
        to,
        point_at(section, count - 1),
        point_at(section, count - 2),
    )
}

// Whether the route consists of steps that turn, and leaves both ends outward.
fn is_orthogonal(scene: &Scene<'_>, edge: u32) -> bool
    requires edge_in { edge < length scene.now.doc.now.edges }
    requires scene { IsScene scene.now }
    ensures { IsTrue result
        ↔ IsOrthogonal (path_of scene.now.placed.now edge) (side_of_end scene.now.doc.now scene.now.placed.now edge true)
        (side_of_end scene.now.doc.now scene.now.placed.now edge false) }
{
    let section = scene.placed.section(edge);
    if !are_steps(section) {
        return false;
    }
    if !are_turns(section) {
        return false;
    }
    is_outward(scene, edge)
}

// Whether both ends of an edge have one dock.
fn has_one_dock(scene: &Scene<'_>, edge: u32) -> bool
    requires edge_in { edge < length scene.now.doc.now.edges }
    requires scene { IsScene scene.now }
    ensures { IsTrue result ↔ dock_of scene.now.doc.now scene.now.placed.now edge true ≡ dock_of scene.now.doc.now scene.now.placed.now edge false }
{
    let source = dock_of(scene, edge, true);
    source == dock_of(scene, edge, false)
}

// Whether the route begins and ends at its anchors.
fn is_anchored(scene: &Scene<'_>, edge: u32) -> bool
    requires edge_in { edge < length scene.now.doc.now.edges }
    requires scene { IsScene scene.now }
    ensures { IsTrue result ↔ IsAnchored scene.now.doc.now scene.now.placed.now edge }
{
    let section = scene.placed.section(edge);
    if section.start != anchor_at(scene.doc, scene.placed, scene.sides, edge, true) {
        return false;
    }
    section.end == anchor_at(scene.doc, scene.placed, scene.sides, edge, false)
}

// Whether a route leads from anchor to anchor as its docks ask.
fn is_route(scene: &Scene<'_>, edge: u32) -> bool
    requires edge_in { edge < length scene.now.doc.now.edges }
    requires scene { IsScene scene.now }
    ensures { IsTrue result ↔ Route scene.now.doc.now scene.now.placed.now edge }
{
    if !is_anchored(scene, edge) {
        return false;
    }
    if has_one_dock(scene, edge) {
        return scene.placed.section(edge).bends.as_slice().is_empty();
    }
    is_orthogonal(scene, edge)
}

// Whether an edge, if it belongs to the level of the node, has a good route.
fn route_holds(scene: &Scene<'_>, node: u32, edge: u32) -> bool
    requires edge_in { edge < length scene.now.doc.now.edges }
    requires scene { IsScene scene.now }
    ensures { IsTrue result ↔ RouteHolds scene.now.doc.now scene.now.placed.now node edge }
{
    if !is_edge_of(scene.doc, node, edge) {
        return true;
    }
    is_route(scene, edge)
}

// The first edge of the level whose route fails.
fn first_route(scene: &Scene<'_>, node: u32) -> Option<u32>
    requires scene { IsScene scene.now }
    ensures { IsFirst (RouteHolds scene.now.doc.now scene.now.placed.now node) result }
{
    for edge in 0..scene.doc.edges().len() {
        if !route_holds(scene, node, edge as u32) {
            return Some(edge as u32);
        }
    }
    None
}

/// The first edge of a node's level whose route does not lead orthogonally from anchor to anchor, outward from both docks.
pub fn route_fault(scene: &Scene<'_>, node: u32) -> Option<Fault>
    requires scene { IsScene scene.now }
    ensures { MatchOption result
        ((e : ℕ) → RouteHolds scene.now.doc.now scene.now.placed.now node e)
        (FirstRoute scene.now.doc.now scene.now.placed.now node) }
{
    match first_route(scene, node) {
        Some(edge) => Some(Fault::lone(Place::Edge(edge))),
        None => None,
    }
}
