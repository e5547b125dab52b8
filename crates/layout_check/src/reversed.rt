//! Reversed edges that close cycles, and no cycle left.
ghost use Rattle.std.specs.Prelude.{◌≡◌, ◌↔◌, ◌<◌, All, Contains, IfOk, IsTrue, MatchOption, length};
ghost use Rattle.elk_doc.specs.Fits.{MayBeListed};
ghost use Rattle.elk_doc.specs.Reversed.{Reversed};
ghost use Rattle.layout_check.specs.Faults.{IsFirst};
ghost use Rattle.layout_check.specs.FirstLevels.{AreSteps, ClosesAt, FirstReversed, IsUnlisted, NeverRound, step_of};
ghost use Rattle.layout_check.specs.Steps.{AreBelow};

use crate::Place;
use crate::fault::Fault;
use crate::paths::{Step, reaches};
use crate::read::is_edge_of;
use elk_doc::document::Doc;
use elk_doc::drawing::Certificate;
use elk_doc::level::{is_loop, node_of};
use std::alloc::{AllocError, Global};

// Whether a list of numbers has this one.
fn contains(numbers: &[u32], number: u32) -> bool
    ensures { IsTrue result ↔ Contains numbers.now number }
{
    numbers.contains(&number)
}

// Whether an edge of the level is not listed and no self-loop.
fn is_unlisted(doc: &Doc, node: u32, certificate: &Certificate, edge: u32) -> bool
    requires { edge < length doc.now.edges }
    ensures { IsTrue result ↔ IsUnlisted doc.now node certificate.now edge }
{
    if !is_edge_of(doc, node, edge) {
        return false;
    }
    if is_loop(doc, edge) {
        return false;
    }
    !contains(certificate.reversed.as_slice(), edge)
}

// The step of an edge as it is given.
fn step_of(doc: &Doc, edge: u32) -> Step
    requires { edge < length doc.now.edges }
    ensures value { result ≡ step_of doc.now edge }
    ensures from_in { result.from < length doc.now.nodes }
    ensures to_in { result.to < length doc.now.nodes }
{
    Step {
        from: node_of(doc, doc.edge(edge).source),
        to: node_of(doc, doc.edge(edge).target),
    }
}

// The unlisted edges of the level, as steps.
fn unlisted_steps(
    alloc: Global,
    doc: &Doc,
    node: u32,
    certificate: &Certificate,
) -> Result<Vec<Step>, AllocError>
    ensures { IfOk result (λ steps. AreSteps doc.now node certificate.now steps.items) }
{
    let mut steps = Vec::new(alloc);
    for edge in 0..doc.edges().len() {
        let step = step_of(doc, edge as u32);
        if is_unlisted(doc, node, certificate, edge as u32) {
            steps.push(step)?;
        }
    }
    Ok(steps)
}

// Whether an edge, if it is listed, closes a cycle of unlisted edges.
fn closes_at(
    alloc: Global,
    doc: &Doc,
    node: u32,
    certificate: &Certificate,
    steps: &[Step],
    edge: u32,
) -> Result<bool, AllocError>
    requires edge_in { edge < length doc.now.edges }
    requires steps { AreSteps doc.now node certificate.now steps.now }
    ensures { IfOk result (λ closes. IsTrue closes ↔ ClosesAt doc.now node certificate.now edge) }
{
    if !contains(certificate.reversed.as_slice(), edge) {
        return Ok(true);
    }
    let step = step_of(doc, edge);
    let found = reaches(alloc, doc.nodes().len(), steps, step.to, step.from)?;
    Ok(found)
}

// The first listed edge that closes no cycle.
fn first_open(
    alloc: Global,
    doc: &Doc,
    node: u32,
    certificate: &Certificate,
    steps: &[Step],
) -> Result<Option<u32>, AllocError>
    requires listed { All (MayBeListed doc.now node) certificate.now.reversed }
    requires steps { AreSteps doc.now node certificate.now steps.now }
    ensures { IfOk result (IsFirst (ClosesAt doc.now node certificate.now)) }
{
    for edge in 0..doc.edges().len() {
        let closes = closes_at(alloc, doc, node, certificate, steps, edge as u32)?;
        if !closes {
            return Ok(Some(edge as u32));
        }
    }
    Ok(None)
}

// Whether each step leads to a greater height, so that none leads round.
fn are_rising(steps: &[Step], heights: &[u32]) -> bool
    requires { AreBelow (length heights.now) steps.now }
    ensures { IsTrue result → NeverRound steps.now }
{
    for step in steps {
        if heights[step.from as usize] >= heights[step.to as usize] {
            return false;
        }
    }
    true
}

// Whether no step leads round.
fn never_round(alloc: Global, steps: &[Step], heights: &[u32]) -> Result<bool, AllocError>
    requires { AreBelow (length heights.now) steps.now }
    ensures { IfOk result (λ never. IsTrue never ↔ NeverRound steps.now) }
{
    if are_rising(steps, heights) {
        return Ok(true);
    }
    for step in steps {
        let back = reaches(alloc, heights.len(), steps, step.to, step.from)?;
        if back {
            return Ok(false);
        }
    }
    Ok(true)
}

/// The first listed edge of a node's level from whose target no unlisted edges lead back to its source, and else the node,
/// where unlisted edges lead round. The heights are numbers by node: where each unlisted edge leads to a greater one, as
/// the layers of a good drawing do, no path has to be sought.
pub fn reversed_fault(
    alloc: Global,
    doc: &Doc,
    node: u32,
    certificate: &Certificate,
    heights: &[u32],
) -> Result<Option<Fault>, AllocError>
    requires listed { All (MayBeListed doc.now node) certificate.now.reversed }
    requires heights { length heights.now ≡ length doc.now.nodes }
    ensures { IfOk result (λ fault.
        MatchOption fault
        (Reversed doc.now node certificate.now)
        (FirstReversed doc.now node certificate.now)) }
{
    let steps = unlisted_steps(alloc, doc, node, certificate)?;
    let open = first_open(alloc, doc, node, certificate, steps.as_slice())?;
    if let Some(edge) = open {
        return Ok(Some(Fault::lone(Place::Edge(edge))));
    }
    let never = never_round(alloc, steps.as_slice(), heights)?;
    if never {
        return Ok(None);
    }
    Ok(Some(Fault::lone(Place::Node(node))))
}
