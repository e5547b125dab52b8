//! What a drawing and a level's certificate have at each node or edge, each computed once.
ghost use Rattle.std.specs.Prelude.{◌≡◌, ◌<◌, IfOk, slice_index};
ghost use Rattle.elk_doc.specs.Fits.{Fits};
ghost use Rattle.layout_check.specs.Shapes.{AreHeads, AreTails, AreWeights};
ghost use Rattle.layout_check.specs.ListedLevels.{AreLayers, AreParts};
ghost use Rattle.layout_check.specs.FirstLevels.{AreByChild, AreFlows};

use crate::read::{head_node, is_edge_of, tail_node};
use elk_doc::document::Doc;
use elk_doc::drawing::{Certificate, Placed};
use elk_doc::form::is_child;
use std::alloc::{AllocError, Global};

/// The nodes at which the oriented edges enter, by edge.
pub fn heads(alloc: Global, doc: &Doc, placed: &Placed) -> Result<Vec<u32>, AllocError>
    requires { Fits doc.now placed.now }
    ensures { IfOk result (λ ends. AreHeads doc.now placed.now ends.items) }
{
    let mut ends = Vec::new(alloc);
    for edge in 0..doc.edges().len() {
        ends.push(head_node(doc, placed, edge as u32))?;
    }
    Ok(ends)
}

/// The nodes at which the oriented edges leave, by edge.
pub fn tails(alloc: Global, doc: &Doc, placed: &Placed) -> Result<Vec<u32>, AllocError>
    requires { Fits doc.now placed.now }
    ensures { IfOk result (λ ends. AreTails doc.now placed.now ends.items) }
{
    let mut ends = Vec::new(alloc);
    for edge in 0..doc.edges().len() {
        ends.push(tail_node(doc, placed, edge as u32))?;
    }
    Ok(ends)
}

/// The weights of the edges.
pub fn weights(alloc: Global, doc: &Doc) -> Result<Vec<u64>, AllocError>
    ensures { IfOk result (λ weights. AreWeights doc.now weights.items) }
{
    let mut weights = Vec::new(alloc);
    for edge in 0..doc.edges().len() {
        weights.push(u64::from(doc.edge(edge as u32).weight))?;
    }
    Ok(weights)
}

// The number at a place of a list, and 0 past its end.
pub(crate) fn number_at(values: &[u32], place: usize) -> u32
    ensures { result ≡ slice_index values.now place }
{
    values.get(place).copied().unwrap_or(0)
}

pub(crate) fn flow_at(values: &[u64], place: usize) -> u64
    ensures { result ≡ slice_index values.now place }
{
    values.get(place).copied().unwrap_or(0)
}

// The numbers of a list that has one for each child of a node, by node: at a child its own.
fn by_child(alloc: Global, doc: &Doc, node: u32, values: &[u32]) -> Result<Vec<u32>, AllocError>
    ensures { IfOk result (λ numbers. AreByChild doc.now node values.now numbers.items) }
{
    let mut numbers = Vec::new(alloc);
    let mut place = 0;
    for child in 0..doc.nodes().len() {
        numbers.push(number_at(values, place))?;
        if is_child(doc, node, child as u32) {
            place += 1;
        }
    }
    Ok(numbers)
}

/// The written layers, by node: at a child of the node its layer.
pub fn layers(
    alloc: Global,
    doc: &Doc,
    node: u32,
    certificate: &Certificate,
) -> Result<Vec<u32>, AllocError>
    ensures { IfOk result (λ layers. AreLayers doc.now node certificate.now layers.items) }
{
    by_child(alloc, doc, node, certificate.layers.as_slice())
}

/// The written parts, by node: at a child of the node the number of its part.
pub fn parts(
    alloc: Global,
    doc: &Doc,
    node: u32,
    certificate: &Certificate,
) -> Result<Vec<u32>, AllocError>
    ensures { IfOk result (λ parts. AreParts doc.now node certificate.now parts.items) }
{
    by_child(alloc, doc, node, certificate.parts.as_slice())
}

/// The written flow, by edge: at an edge of the node's level its flow.
pub fn flows(
    alloc: Global,
    doc: &Doc,
    node: u32,
    certificate: &Certificate,
) -> Result<Vec<u64>, AllocError>
    ensures { IfOk result (λ flows. AreFlows doc.now node certificate.now flows.items) }
{
    let mut flows = Vec::new(alloc);
    let mut place = 0;
    for edge in 0..doc.edges().len() {
        flows.push(flow_at(certificate.flow.as_slice(), place))?;
        if is_edge_of(doc, node, edge as u32) {
            place += 1;
        }
    }
    Ok(flows)
}
