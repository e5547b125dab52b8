//! Routes that share a piece only where their edges share a dock.
ghost use Rattle.std.specs.Prelude.{◌≡◌, ◌↔◌, ℕ, ◌<◌, IsTrue, MatchOption, length, true, false};
ghost use Rattle.elk_doc.specs.Level.{IsEdge};
ghost use Rattle.elk_doc.specs.Places.{dock_of};
ghost use Rattle.elk_doc.specs.Route.{Route};
ghost use Rattle.drawing_types.specs.Segments.{IsAxisParallel};
ghost use Rattle.elk_doc.specs.Sharing.{DocksShare, Sharing};
ghost use Rattle.layout_check.specs.Faults.{IsFirst};
ghost use Rattle.layout_check.specs.Scenes.{IsScene};
ghost use Rattle.layout_check.specs.FirstRoutes.{FirstSharing, SharingHolds};
ghost use Rattle.layout_check.specs.Stretches.{AreFree, AreParallel, IsFreeOf};

use crate::Place;
use crate::fault::Fault;
use crate::read::{is_edge_of, point_at, point_count};
use crate::scene::{Scene, dock_of};
use drawing_types::section::Section;
use drawing_types::segments::segments_share;
use drawing_types::shape::{Dock, Point};

// Whether the segment from `a` to `b` has no piece in common with a route.
fn is_free_of(a: Point, b: Point, section: &Section) -> bool
    requires first { IsAxisParallel a b }
    requires second { AreParallel section.now }
    ensures { IsTrue result ↔ IsFreeOf a b section.now }
{
    for j in 0..point_count(section) - 1 {
        if segments_share(a, b, point_at(section, j), point_at(section, j + 1)) {
            return false;
        }
    }
    true
}

// Whether two routes have no piece in common.
fn are_free(one: &Section, other: &Section) -> bool
    requires one { AreParallel one.now }
    requires other { AreParallel other.now }
    ensures { IsTrue result ↔ AreFree one.now other.now }
{
    for i in 0..point_count(one) - 1 {
        if !is_free_of(point_at(one, i), point_at(one, i + 1), other) {
            return false;
        }
    }
    true
}

// Whether two ends of edges have one dock, of the lists of all.
fn is_same(one: Dock, other: Dock) -> bool
    ensures { IsTrue result ↔ (one ≡ other) }
{
    one == other
}

// Whether a dock of one edge is a dock of another.
fn share_dock(scene: &Scene<'_>, edge: u32, other: u32) -> bool
    requires edge_in { edge < length scene.now.doc.now.edges }
    requires other_in { other < length scene.now.doc.now.edges }
    requires scene { IsScene scene.now }
    ensures { IsTrue result ↔ DocksShare (dock_of scene.now.doc.now scene.now.placed.now edge) (dock_of scene.now.doc.now scene.now.placed.now other) }
{
    let source = dock_of(scene, edge, true);
    let target = dock_of(scene, edge, false);
    let other_source = dock_of(scene, other, true);
    let other_target = dock_of(scene, other, false);
    if is_same(source, other_source) {
        return true;
    }
    if is_same(source, other_target) {
        return true;
    }
    if is_same(target, other_source) {
        return true;
    }
    is_same(target, other_target)
}

// Whether the routes of two edges share a piece only where the edges share a dock.
fn is_sharing(scene: &Scene<'_>, edge: u32, other: u32) -> bool
    requires edge_in { edge < length scene.now.doc.now.edges }
    requires other_in { other < length scene.now.doc.now.edges }
    requires scene { IsScene scene.now }
    requires edge_route { Route scene.now.doc.now scene.now.placed.now edge }
    requires other_route { Route scene.now.doc.now scene.now.placed.now other }
    ensures { IsTrue result ↔ Sharing scene.now.doc.now scene.now.placed.now edge other }
{
    if are_free(scene.placed.section(edge), scene.placed.section(other)) {
        return true;
    }
    share_dock(scene, edge, other)
}

// Whether two edges, if they belong to the level of the node and the other has the greater number, share rightly.
pub(crate) fn sharing_holds(scene: &Scene<'_>, node: u32, edge: u32, other: u32) -> bool
    requires edge_in { edge < length scene.now.doc.now.edges }
    requires other_in { other < length scene.now.doc.now.edges }
    requires edge_of { IsEdge scene.now.doc.now node edge }
    requires scene { IsScene scene.now }
    requires routes { (e : ℕ) → IsEdge scene.now.doc.now node e → Route scene.now.doc.now scene.now.placed.now e }
    ensures { IsTrue result ↔ SharingHolds scene.now.doc.now scene.now.placed.now node edge other }
{
    if other <= edge {
        return true;
    }
    if !is_edge_of(scene.doc, node, other) {
        return true;
    }
    is_sharing(scene, edge, other)
}

// The first edge of greater number that shares wrongly with an edge of the level.
fn first_partner(scene: &Scene<'_>, node: u32, edge: u32) -> Option<u32>
    requires edge_of { IsEdge scene.now.doc.now node edge }
    requires scene { IsScene scene.now }
    requires routes { (e : ℕ) → IsEdge scene.now.doc.now node e → Route scene.now.doc.now scene.now.placed.now e }
    ensures { IsFirst (SharingHolds scene.now.doc.now scene.now.placed.now node edge) result }
{
    for other in 0..scene.doc.edges().len() {
        if !sharing_holds(scene, node, edge, other as u32) {
            return Some(other as u32);
        }
    }
    None
}

// The first edge of greater number that shares wrongly with an edge, if that belongs to the level.
fn first_sharing(scene: &Scene<'_>, node: u32, edge: u32) -> Option<u32>
    requires edge_in { edge < length scene.now.doc.now.edges }
    requires scene { IsScene scene.now }
    requires routes { (e : ℕ) → IsEdge scene.now.doc.now node e → Route scene.now.doc.now scene.now.placed.now e }
    ensures { IsFirst (SharingHolds scene.now.doc.now scene.now.placed.now node edge) result }
{
    if !is_edge_of(scene.doc, node, edge) {
        return None;
    }
    first_partner(scene, node, edge)
}

// The first two edges of a node's level that share wrongly: each edge is compared with each of greater number.
pub(crate) fn sharing_fault_by_pairs(scene: &Scene<'_>, node: u32) -> Option<Fault>
    requires scene { IsScene scene.now }
    requires routes { (e : ℕ) → IsEdge scene.now.doc.now node e → Route scene.now.doc.now scene.now.placed.now e }
    ensures { MatchOption result
        ((e f : ℕ) → SharingHolds scene.now.doc.now scene.now.placed.now node e f)
        (FirstSharing scene.now.doc.now scene.now.placed.now node) }
{
    for edge in 0..scene.doc.edges().len() {
        if let Some(other) = first_sharing(scene, node, edge as u32) {
            return Some(Fault {
                first: Place::Edge(edge as u32),
                second: Place::Edge(other),
            });
        }
    }
    None
}
