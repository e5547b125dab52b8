//! The children, the edges and the ports of each node.
ghost use Rattle.std.specs.Prelude.{◌≡◌, ◌<◌, ℕ, length, Option, Some, IfOk};
ghost use Rattle.elk_doc.specs.Document.{node_at, node_of_port};
ghost use Rattle.elk_doc.specs.Level.{level_of_edge};
ghost use Rattle.level_io.specs.Indexed.{AreKeys, IsIndex};

use crate::grouping::{Groups, group};
use elk_doc::document::Doc;
use elk_doc::level::level_of;
use std::alloc::{AllocError, Global};

/// By node its children, the edges of its level and its ports, each in document order. By node, edge and port, its place
/// among the children of its parent, the edges of its level and the ports of its node.
#[derive(Drop)]
pub struct Index {
    pub children: Groups,
    pub edges: Groups,
    pub ports: Groups,
}

// By node, its parent.
fn parents(alloc: Global, doc: &Doc) -> Result<Vec<Option<u32>>, AllocError>
    ensures { IfOk result (λ keys. AreKeys (λ c. (node_at doc.now c).parent) (length doc.now.nodes) keys.items) }
{
    let mut keys = Vec::with_capacity(alloc, doc.nodes().len())?;
    for node in 0..doc.nodes().len() {
        keys.push(doc.node(node as u32).parent)?;
    }
    Ok(keys)
}

// By port, its node.
fn nodes_of_ports(alloc: Global, doc: &Doc) -> Result<Vec<Option<u32>>, AllocError>
    ensures { IfOk result (λ keys. AreKeys (λ k. Some (node_of_port doc.now k)) (length doc.now.ports) keys.items) }
{
    let mut keys = Vec::with_capacity(alloc, doc.ports().len())?;
    for port in 0..doc.ports().len() {
        keys.push(Some(doc.port(port as u32).node))?;
    }
    Ok(keys)
}

// By edge, the node of its level.
fn levels_of_edges(alloc: Global, doc: &Doc) -> Result<Vec<Option<u32>>, AllocError>
    ensures { IfOk result (λ keys. AreKeys (λ e. Some (level_of_edge doc.now e)) (length doc.now.edges) keys.items) }
{
    let mut keys = Vec::with_capacity(alloc, doc.edges().len())?;
    for edge in 0..doc.edges().len() {
        keys.push(Some(level_of(doc, edge as u32)))?;
    }
    Ok(keys)
}

/// The index of a document, in one pass over its nodes, one over its ports and one over its edges.
///
/// The only error is out of memory.
///
/// Proved:
/// - An index of a document: for each node its children, the edges of its level and its ports, and for each of these its place among
///   them.
pub fn index_of(alloc: Global, doc: &Doc) -> Result<Index, AllocError>
    ensures { IfOk result (IsIndex doc.now) }
{
    let count = doc.nodes().len();
    let parents = parents(alloc, doc)?;
    let children = group(alloc, parents.as_slice(), count)?;
    let levels = levels_of_edges(alloc, doc)?;
    let edges = group(alloc, levels.as_slice(), count)?;
    let nodes = nodes_of_ports(alloc, doc)?;
    let ports = group(alloc, nodes.as_slice(), count)?;
    Ok(Index {
        children,
        edges,
        ports,
    })
}
