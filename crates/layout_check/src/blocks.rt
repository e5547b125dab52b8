//! Routes that keep out of boxes, by many outlines at a time first.
ghost use Rattle.std.specs.Prelude.{ℕ, ◌<◌, ◌≤◌, ◌+◌, IsTrue, MatchOption, length};
ghost use Rattle.elk_doc.specs.Drawing.{section_of};
ghost use Rattle.elk_doc.specs.Level.{IsEdge};
ghost use Rattle.elk_doc.specs.Route.{Route};
ghost use Rattle.layout_check.specs.Scenes.{IsScene};
ghost use Rattle.layout_check.specs.Bounds.{HoldsRoute};
ghost use Rattle.layout_check.specs.Ends.{AreEnds, EndsClear};
ghost use Rattle.layout_check.specs.FirstRoutes.{ChildClear, ClearHolds, FirstClear};
ghost use Rattle.layout_check.specs.Stretches.{AreParallel};

use crate::bounds::{RouteBounds, bounds_of};
use crate::clear::{child_clear, clear_fault_by_pairs};
use crate::fault::Fault;
use crate::read::is_edge_of;
use crate::scene::Scene;
use crate::stretches::{OutlineEnds, are_off};
use elk_doc::level::node_of;

// How many outlines are looked at together.
const BLOCK: usize = 16;

// Whether the children with numbers from `from` and below `to` are clear of a route, by the bounds of the route first.
fn some_clear(
    scene: &Scene<'_>,
    bounds: RouteBounds,
    node: u32,
    edge: u32,
    from: usize,
    to: usize,
) -> bool
    requires edge_in { edge < length scene.now.doc.now.edges }
    requires inside { to ≤ length scene.now.doc.now.nodes }
    requires scene { IsScene scene.now }
    requires parallel { AreParallel (section_of scene.now.placed.now edge) }
    requires bounds { HoldsRoute bounds (section_of scene.now.placed.now edge) }
    ensures { IsTrue result → (a : ℕ) → from ≤ a → a < to → ChildClear scene.now.doc.now scene.now.placed.now node edge a }
{
    let _nodes = scene.doc.nodes();
    for child in from..to {
        if !child_clear(scene, bounds, node, edge, child as u32) {
            return false;
        }
    }
    true
}

// Whether the nodes with numbers from `from` and below `to` are clear of a route: all at once if their outlines lie off
// its bounds and none is an end node, and else one by one.
fn block_clear(
    scene: &Scene<'_>,
    ends: &OutlineEnds,
    bounds: RouteBounds,
    node: u32,
    edge: u32,
    from: usize,
    to: usize,
) -> bool
    requires edge_in { edge < length scene.now.doc.now.edges }
    requires ordered { from ≤ to }
    requires inside { to ≤ length scene.now.doc.now.nodes }
    requires scene { IsScene scene.now }
    requires ends { AreEnds scene.now.doc.now scene.now.placed.now ends.now }
    requires parallel { AreParallel (section_of scene.now.placed.now edge) }
    requires bounds { HoldsRoute bounds (section_of scene.now.placed.now edge) }
    requires own { EndsClear scene.now.doc.now scene.now.placed.now node edge }
    ensures { IsTrue result → (a : ℕ) → from ≤ a → a < to → ChildClear scene.now.doc.now scene.now.placed.now node edge a }
{
    if are_off(scene.doc, scene.placed, ends, bounds, from, to) {
        return true;
    }
    some_clear(scene, bounds, node, edge, from, to)
}

// Where the block that begins at `from` ends.
fn block_end(from: usize, count: usize) -> usize
    requires { from ≤ count }
    ensures ordered { from ≤ result }
    ensures inside { result ≤ count }
    ensures whole { (a : ℕ) → a < from + 16 → a < count → a < result }
{
    if count - from < BLOCK {
        count
    } else {
        from + BLOCK
    }
}

// Whether all children of a node are clear of a route.
fn all_clear(scene: &Scene<'_>, ends: &OutlineEnds, node: u32, edge: u32) -> bool
    requires edge_in { edge < length scene.now.doc.now.edges }
    requires scene { IsScene scene.now }
    requires ends { AreEnds scene.now.doc.now scene.now.placed.now ends.now }
    requires route { Route scene.now.doc.now scene.now.placed.now edge }
    ensures { IsTrue result → (a : ℕ) → ChildClear scene.now.doc.now scene.now.placed.now node edge a }
{
    let bounds = bounds_of(scene.placed.section(edge));
    let source = node_of(scene.doc, scene.doc.edge(edge).source);
    if !child_clear(scene, bounds, node, edge, source) {
        return false;
    }
    let target = node_of(scene.doc, scene.doc.edge(edge).target);
    if !child_clear(scene, bounds, node, edge, target) {
        return false;
    }
    let count = scene.doc.nodes().len();
    for block in 0..count / BLOCK + 1 {
        let from = block * BLOCK;
        let to = block_end(from, count);
        if !block_clear(scene, ends, bounds, node, edge, from, to) {
            return false;
        }
    }
    true
}

// Whether all children of a node are clear of the route of an edge, if that belongs to the level.
fn edge_clear(scene: &Scene<'_>, ends: &OutlineEnds, node: u32, edge: u32) -> bool
    requires edge_in { edge < length scene.now.doc.now.edges }
    requires scene { IsScene scene.now }
    requires ends { AreEnds scene.now.doc.now scene.now.placed.now ends.now }
    requires routes { (e : ℕ) → IsEdge scene.now.doc.now node e → Route scene.now.doc.now scene.now.placed.now e }
    ensures { IsTrue result → (a : ℕ) → ClearHolds scene.now.doc.now scene.now.placed.now node edge a }
{
    if !is_edge_of(scene.doc, node, edge) {
        return true;
    }
    all_clear(scene, ends, node, edge)
}

// Whether all routes of the level are clear of all children.
fn are_clear(scene: &Scene<'_>, ends: &OutlineEnds, node: u32) -> bool
    requires scene { IsScene scene.now }
    requires ends { AreEnds scene.now.doc.now scene.now.placed.now ends.now }
    requires routes { (e : ℕ) → IsEdge scene.now.doc.now node e → Route scene.now.doc.now scene.now.placed.now e }
    ensures { IsTrue result → (e a : ℕ) → ClearHolds scene.now.doc.now scene.now.placed.now node e a }
{
    for edge in 0..scene.doc.edges().len() {
        if !edge_clear(scene, ends, node, edge as u32) {
            return false;
        }
    }
    true
}

/// The first edge of a node's level whose route meets the outline of a child that is no end node of it, or enters the box
/// of one that is, with the first such child. The ends are those of all outlines.
pub fn clear_fault(scene: &Scene<'_>, ends: &OutlineEnds, node: u32) -> Option<Fault>
    requires scene { IsScene scene.now }
    requires ends { AreEnds scene.now.doc.now scene.now.placed.now ends.now }
    requires routes { (e : ℕ) → IsEdge scene.now.doc.now node e → Route scene.now.doc.now scene.now.placed.now e }
    ensures { MatchOption result
        ((e a : ℕ) → ClearHolds scene.now.doc.now scene.now.placed.now node e a)
        (FirstClear scene.now.doc.now scene.now.placed.now node) }
{
    if are_clear(scene, ends, node) {
        return None;
    }
    clear_fault_by_pairs(scene, node)
}
