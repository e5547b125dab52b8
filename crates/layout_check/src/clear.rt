//! Routes that keep out of boxes.
ghost use Rattle.std.specs.Prelude.{◌≡◌, ◌⊎◌, ◌↔◌, ℕ, ◌<◌, IsTrue, MatchOption, length};
ghost use Rattle.elk_doc.specs.Clear.{Clear};
ghost use Rattle.elk_doc.specs.Drawing.{section_of};
ghost use Rattle.elk_doc.specs.Level.{IsEdge, source_node, target_node};
ghost use Rattle.elk_doc.specs.Places.{outline_of};
ghost use Rattle.elk_doc.specs.Route.{Route};
ghost use Rattle.layout_check.specs.Faults.{IsFirst};
ghost use Rattle.layout_check.specs.Scenes.{IsScene};
ghost use Rattle.layout_check.specs.Bounds.{HoldsRoute};
ghost use Rattle.layout_check.specs.FirstRoutes.{ChildClear, ClearHolds, FirstClear};
ghost use Rattle.layout_check.specs.Stretches.{AreParallel, KeepsOff, KeepsOut};

use crate::Place;
use crate::bounds::{RouteBounds, bounds_of, lie_off};
use crate::fault::Fault;
use crate::read::{is_edge_of, point_at, point_count};
use crate::scene::{Scene, outline_at};
use drawing_types::section::Section;
use drawing_types::segments::{segment_enters_rect, segment_meets_rect};
use drawing_types::shape::Rect;
use elk_doc::document::Doc;
use elk_doc::form::is_child;
use elk_doc::level::node_of;

// Whether no segment has a point in the closed rectangle.
fn keeps_off(section: &Section, r: Rect) -> bool
    requires { AreParallel section.now }
    ensures { IsTrue result ↔ KeepsOff section.now r }
{
    for i in 0..point_count(section) - 1 {
        if segment_meets_rect(point_at(section, i), point_at(section, i + 1), r) {
            return false;
        }
    }
    true
}

// Whether no segment has a point strictly inside the rectangle.
fn keeps_out(section: &Section, r: Rect) -> bool
    requires { AreParallel section.now }
    ensures { IsTrue result ↔ KeepsOut section.now r }
{
    for i in 0..point_count(section) - 1 {
        if segment_enters_rect(point_at(section, i), point_at(section, i + 1), r) {
            return false;
        }
    }
    true
}

// Whether a node is an end node of an edge.
fn is_end_node(doc: &Doc, edge: u32, node: u32) -> bool
    requires { edge < length doc.now.edges }
    ensures { IsTrue result ↔ ((source_node doc.now edge ≡ node) ⊎ (target_node doc.now edge ≡ node)) }
{
    if node_of(doc, doc.edge(edge).source) == node {
        return true;
    }
    node_of(doc, doc.edge(edge).target) == node
}

// Whether the route of an edge keeps off the outline of a node.
fn keeps_off_outline(scene: &Scene<'_>, edge: u32, child: u32) -> bool
    requires edge_in { edge < length scene.now.doc.now.edges }
    requires child_in { child < length scene.now.doc.now.nodes }
    requires scene { IsScene scene.now }
    requires parallel { AreParallel (section_of scene.now.placed.now edge) }
    ensures { IsTrue result ↔ KeepsOff (section_of scene.now.placed.now edge) (outline_of scene.now.doc.now scene.now.placed.now child) }
{
    keeps_off(scene.placed.section(edge), outline_at(scene, child))
}

// Whether a route keeps out of a child: of its outline, and of the box of an end node.
fn is_clear(scene: &Scene<'_>, edge: u32, child: u32) -> bool
    requires edge_in { edge < length scene.now.doc.now.edges }
    requires child_in { child < length scene.now.doc.now.nodes }
    requires scene { IsScene scene.now }
    requires parallel { AreParallel (section_of scene.now.placed.now edge) }
    ensures { IsTrue result ↔ Clear scene.now.doc.now scene.now.placed.now edge child }
{
    if is_end_node(scene.doc, edge, child) {
        keeps_out(scene.placed.section(edge), scene.placed.box_of(child))
    } else {
        keeps_off_outline(scene, edge, child)
    }
}

// Whether a node is no end node of an edge, and its outline lies off the bounds of the edge's route.
fn is_far(scene: &Scene<'_>, bounds: RouteBounds, edge: u32, child: u32) -> bool
    requires edge_in { edge < length scene.now.doc.now.edges }
    requires child_in { child < length scene.now.doc.now.nodes }
    requires scene { IsScene scene.now }
    requires bounds { HoldsRoute bounds (section_of scene.now.placed.now edge) }
    ensures { IsTrue result → Clear scene.now.doc.now scene.now.placed.now edge child }
{
    if !lie_off(bounds, outline_at(scene, child)) {
        return false;
    }
    !is_end_node(scene.doc, edge, child)
}

// Whether a node, if it is a child, is clear of a route, by the bounds of the route first.
pub(crate) fn child_clear(
    scene: &Scene<'_>,
    bounds: RouteBounds,
    node: u32,
    edge: u32,
    child: u32,
) -> bool
    requires edge_in { edge < length scene.now.doc.now.edges }
    requires child_in { child < length scene.now.doc.now.nodes }
    requires scene { IsScene scene.now }
    requires parallel { AreParallel (section_of scene.now.placed.now edge) }
    requires bounds { HoldsRoute bounds (section_of scene.now.placed.now edge) }
    ensures { IsTrue result ↔ ChildClear scene.now.doc.now scene.now.placed.now node edge child }
{
    if is_far(scene, bounds, edge, child) {
        return true;
    }
    if !is_child(scene.doc, node, child) {
        return true;
    }
    is_clear(scene, edge, child)
}

// The first child of a node that is not clear of a route.
fn first_met(scene: &Scene<'_>, node: u32, edge: u32) -> Option<u32>
    requires edge_in { edge < length scene.now.doc.now.edges }
    requires scene { IsScene scene.now }
    requires route { Route scene.now.doc.now scene.now.placed.now edge }
    ensures { IsFirst (ChildClear scene.now.doc.now scene.now.placed.now node edge) result }
{
    let bounds = bounds_of(scene.placed.section(edge));
    for child in 0..scene.doc.nodes().len() {
        if !child_clear(scene, bounds, node, edge, child as u32) {
            return Some(child as u32);
        }
    }
    None
}

// The first child that an edge, if it belongs to the level of the node, is not clear of.
fn first_unclear(scene: &Scene<'_>, node: u32, edge: u32) -> Option<u32>
    requires edge_in { edge < length scene.now.doc.now.edges }
    requires scene { IsScene scene.now }
    requires routes { (e : ℕ) → IsEdge scene.now.doc.now node e → Route scene.now.doc.now scene.now.placed.now e }
    ensures { IsFirst (ClearHolds scene.now.doc.now scene.now.placed.now node edge) result }
{
    if !is_edge_of(scene.doc, node, edge) {
        return None;
    }
    first_met(scene, node, edge)
}

// The first edge of a node's level that is not clear of a child, with the first such child: each edge is compared with each
// child.
pub(crate) fn clear_fault_by_pairs(scene: &Scene<'_>, node: u32) -> Option<Fault>
    requires scene { IsScene scene.now }
    requires routes { (e : ℕ) → IsEdge scene.now.doc.now node e → Route scene.now.doc.now scene.now.placed.now e }
    ensures { MatchOption result
        ((e a : ℕ) → ClearHolds scene.now.doc.now scene.now.placed.now node e a)
        (FirstClear scene.now.doc.now scene.now.placed.now node) }
{
    for edge in 0..scene.doc.edges().len() {
        if let Some(child) = first_unclear(scene, node, edge as u32) {
            return Some(Fault {
                first: Place::Edge(edge as u32),
                second: Place::Node(child),
            });
        }
    }
    None
}
