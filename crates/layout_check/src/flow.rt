//! A flow that shows that the span is least.
ghost use Rattle.std.specs.Prelude.{◌≡◌, ◌↔◌, ℕ, ◌<◌, IfOk, IsTrue, MatchOption, length, slice_index};
ghost use Rattle.elk_doc.specs.FlowProof.{FlowProof};
ghost use Rattle.elk_doc.specs.Level.{is_edge_of};
ghost use Rattle.elk_doc.specs.Numbers.{sum_below};
ghost use Rattle.layout_check.specs.Scenes.{IsScene};
ghost use Rattle.layout_check.specs.FirstLevels.{AreFlows, FirstFlow, IsBalanced, IsIdle};

use crate::Place;
use crate::fault::Fault;
use crate::read::is_edge_of;
use crate::scene::Scene;
use crate::sums::{are_balanced, value_at};
use elk_doc::document::Doc;
use elk_doc::drawing::Certificate;
use elk_doc::level::is_loop;
use std::alloc::{AllocError, Global};

// The sum of the numbers of the level's edges.
fn sum_of(doc: &Doc, node: u32, values: &[u64]) -> u128
    ensures { result ≡ sum_below (is_edge_of doc.now node) (slice_index values.now) (length doc.now.edges) }
{
    let mut sum: u128 = 0;
    for edge in 0..doc.edges().len() {
        if is_edge_of(doc, node, edge as u32) {
            sum += value_at(values, edge);
        }
    }
    sum
}

// Whether an edge of the level, if it is a self-loop, has no flow.
fn is_idle(doc: &Doc, node: u32, _certificate: &Certificate, flows: &[u64], edge: u32) -> bool
    requires edge_in { edge < length doc.now.edges }
    requires flows { AreFlows doc.now node _certificate.now flows.now }
    ensures { IsTrue result ↔ IsIdle doc.now node _certificate.now edge }
{
    if !is_edge_of(doc, node, edge) {
        return true;
    }
    if !is_loop(doc, edge) {
        return true;
    }
    flows[edge as usize] == 0
}

// Whether all self-loops of the level have no flow.
fn are_idle(doc: &Doc, node: u32, certificate: &Certificate, flows: &[u64]) -> bool
    requires flows { AreFlows doc.now node certificate.now flows.now }
    ensures { IsTrue result ↔ ((e : ℕ) → IsIdle doc.now node certificate.now e) }
{
    for edge in 0..doc.edges().len() {
        if !is_idle(doc, node, certificate, flows, edge as u32) {
            return false;
        }
    }
    true
}

// The fault of a flow of which it is known whether it balances at every child.
fn fault_if(
    scene: &Scene<'_>,
    node: u32,
    certificate: &Certificate,
    flows: &[u64],
    balanced: bool,
) -> Option<Fault>
    requires flows { AreFlows scene.now.doc.now node certificate.now flows.now }
    requires balanced { IsTrue balanced ↔ ((a : ℕ) → IsBalanced scene.now.doc.now scene.now.placed.now node certificate.now a) }
    ensures { MatchOption result
        (FlowProof scene.now.doc.now scene.now.placed.now node certificate.now)
        (FirstFlow scene.now.doc.now scene.now.placed.now node certificate.now) }
{
    let fault = Some(Fault::lone(Place::Node(node)));
    if !are_idle(scene.doc, node, certificate, flows) {
        return fault;
    }
    if !balanced {
        return fault;
    }
    if sum_of(scene.doc, node, flows) != u128::from(certificate.span) {
        return fault;
    }
    None
}

/// The node, where the written flow of its level does not balance at every child, runs along a self-loop, or has another
/// sum than the span. The flows are those of the level, by edge.
pub fn flow_fault(
    alloc: Global,
    scene: &Scene<'_>,
    node: u32,
    certificate: &Certificate,
    flows: &[u64],
) -> Result<Option<Fault>, AllocError>
    requires scene { IsScene scene.now }
    requires flows { AreFlows scene.now.doc.now node certificate.now flows.now }
    ensures { IfOk result (λ fault.
        MatchOption fault
        (FlowProof scene.now.doc.now scene.now.placed.now node certificate.now)
        (FirstFlow scene.now.doc.now scene.now.placed.now node certificate.now)) }
{
    let balanced = are_balanced(alloc, scene, node, certificate, flows)?;
    Ok(fault_if(scene, node, certificate, flows, balanced))
}
