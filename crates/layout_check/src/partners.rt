//! Edges that share rightly, by the bounds of their routes first.
ghost use Rattle.std.specs.Prelude.{ℕ, ◌<◌, IsTrue, MatchOption, false, length, true};
ghost use Rattle.elk_doc.specs.Level.{IsEdge};
ghost use Rattle.elk_doc.specs.Route.{Route};
ghost use Rattle.layout_check.specs.Scenes.{IsScene};
ghost use Rattle.layout_check.specs.Bounds.{AreRouteBounds};
ghost use Rattle.layout_check.specs.FirstRoutes.{FirstSharing, SharingHolds};

use crate::bounds::{RouteBounds, lie_apart};
use crate::fault::Fault;
use crate::read::is_edge_of;
use crate::scene::Scene;
use crate::sharing::{sharing_fault_by_pairs, sharing_holds};

// Whether two edges, if they belong to the level of the node and the other has the greater number, share rightly.
fn partner_holds(
    scene: &Scene<'_>,
    bounds: &[RouteBounds],
    node: u32,
    edge: u32,
    other: u32,
) -> bool
    requires edge_of { IsEdge scene.now.doc.now node edge }
    requires other_in { other < length scene.now.doc.now.edges }
    requires scene { IsScene scene.now }
    requires bounds { AreRouteBounds scene.now.doc.now scene.now.placed.now bounds.now }
    requires routes { (e : ℕ) → IsEdge scene.now.doc.now node e → Route scene.now.doc.now scene.now.placed.now e }
    ensures { IsTrue result → SharingHolds scene.now.doc.now scene.now.placed.now node edge other }
{
    if lie_apart(bounds[edge as usize], bounds[other as usize]) {
        return true;
    }
    sharing_holds(scene, node, edge, other)
}

// Whether an edge of the level shares rightly with all of greater number.
fn partners_hold(scene: &Scene<'_>, bounds: &[RouteBounds], node: u32, edge: u32) -> bool
    requires edge_of { IsEdge scene.now.doc.now node edge }
    requires scene { IsScene scene.now }
    requires bounds { AreRouteBounds scene.now.doc.now scene.now.placed.now bounds.now }
    requires routes { (e : ℕ) → IsEdge scene.now.doc.now node e → Route scene.now.doc.now scene.now.placed.now e }
    ensures { IsTrue result → (f : ℕ) → SharingHolds scene.now.doc.now scene.now.placed.now node edge f }
{
    for other in edge as usize + 1..scene.doc.edges().len() {
        let holds = partner_holds(scene, bounds, node, edge, other as u32);
        if !holds {
            return false;
        }
    }
    true
}

// Whether an edge, if it belongs to the level, shares rightly with all of greater number.
fn edge_holds(scene: &Scene<'_>, bounds: &[RouteBounds], node: u32, edge: u32) -> bool
    requires edge_in { edge < length scene.now.doc.now.edges }
    requires scene { IsScene scene.now }
    requires bounds { AreRouteBounds scene.now.doc.now scene.now.placed.now bounds.now }
    requires routes { (e : ℕ) → IsEdge scene.now.doc.now node e → Route scene.now.doc.now scene.now.placed.now e }
    ensures { IsTrue result → (f : ℕ) → SharingHolds scene.now.doc.now scene.now.placed.now node edge f }
{
    if !is_edge_of(scene.doc, node, edge) {
        return true;
    }
    partners_hold(scene, bounds, node, edge)
}

// Whether any two edges of the level share rightly.
fn all_hold(scene: &Scene<'_>, bounds: &[RouteBounds], node: u32) -> bool
    requires scene { IsScene scene.now }
    requires bounds { AreRouteBounds scene.now.doc.now scene.now.placed.now bounds.now }
    requires routes { (e : ℕ) → IsEdge scene.now.doc.now node e → Route scene.now.doc.now scene.now.placed.now e }
    ensures { IsTrue result → (e f : ℕ) → SharingHolds scene.now.doc.now scene.now.placed.now node e f }
{
    for edge in 0..scene.doc.edges().len() {
        let holds = edge_holds(scene, bounds, node, edge as u32);
        if !holds {
            return false;
        }
    }
    true
}

/// The first two edges of a node's level whose routes have a piece of positive length in common and whose docks are all
/// different. The bounds are those of all routes.
pub fn sharing_fault(scene: &Scene<'_>, bounds: &[RouteBounds], node: u32) -> Option<Fault>
    requires scene { IsScene scene.now }
    requires bounds { AreRouteBounds scene.now.doc.now scene.now.placed.now bounds.now }
    requires routes { (e : ℕ) → IsEdge scene.now.doc.now node e → Route scene.now.doc.now scene.now.placed.now e }
    ensures { MatchOption result
        ((e f : ℕ) → SharingHolds scene.now.doc.now scene.now.placed.now node e f)
        (FirstSharing scene.now.doc.now scene.now.placed.now node) }
{
    if all_hold(scene, bounds, node) {
        return None;
    }
    sharing_fault_by_pairs(scene, node)
}
