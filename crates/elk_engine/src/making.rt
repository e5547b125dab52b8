//! The document, list by list.
ghost use Rattle.std.specs.Prelude.{◌≡◌, ◌≤◌, ◌<◌, ◌++◌, IfOk, OnOk};
ghost use Rattle.elk_engine.specs.DemoDocument.{
  demo_document,
  demo_leaf,
  demo_nodes,
  demo_root,
  half_edge,
  half_edges,
  triple_edge,
  triple_edges,
};

use crate::counting::triple_weight;
use drawing_types::shape::Size;
use elk_doc::document::{Direction, Doc, Edge, End, Id, Node, PortRule, default_options};
use std::alloc::{AllocError, Global};

/// The document of `demo`, with this number of leaves.
///
/// Proved:
/// - The document of `demo n`, for each n from 1 to 1,024, is the defined one: n leaves under a root with the default options.
/// - It has an edge to each leaf except the first, from the leaf of half its number.
/// - It has an edge from each leaf to the leaf of three times its number, if there is one.
pub fn demo(alloc: Global, nodes: u32) -> Result<Doc, AllocError>
    requires some { 1 ≤ nodes }
    requires few { nodes ≤ 1024 }
    ensures { IfOk result (λ d. d ≡ demo_document nodes) }
{
    let list = node_list(alloc, nodes)?;
    let mut edges = half_list(alloc, nodes)?;
    push_triples(&mut edges, nodes)?;
    Ok(Doc::new(list, Vec::new(alloc), edges))
}

// The root, which has no id.
fn root_node() -> Node
    ensures { result ≡ demo_root }
{
    Node {
        id: None,
        parent: None,
        size: Size {
            width: 0,
            height: 0,
        },
        rule: PortRule::Free,
        position: None,
        level: Some(default_options(Direction::Right)),
    }
}

// The leaf of a number.
fn leaf_node(number: u32) -> Node
    ensures { result ≡ demo_leaf number }
{
    let height = 20 + 10 * (number % 4);
    Node {
        id: Some(Id::Whole(number as i128)),
        parent: Some(0),
        size: Size {
            width: 30,
            height: height as i64,
        },
        rule: PortRule::Free,
        position: None,
        level: None,
    }
}

// The root and the leaves.
fn node_list(alloc: Global, nodes: u32) -> Result<Vec<Node>, AllocError>
    requires { nodes ≤ 1024 }
    ensures { IfOk result (λ list. list.items ≡ demo_nodes nodes) }
{
    let mut list = Vec::new(alloc);
    list.push(root_node())?;
    for number in 1..nodes + 1 {
        list.push(leaf_node(number))?;
    }
    Ok(list)
}

// The edge to a leaf from the leaf of half its number.
fn edge_to(number: u32) -> Edge
    ensures { result ≡ half_edge number }
{
    Edge {
        id: Id::Whole(number as i128),
        source: End::Node(number / 2),
        target: End::Node(number),
        weight: 1,
    }
}

// The edges to all leaves but the first.
fn half_list(alloc: Global, nodes: u32) -> Result<Vec<Edge>, AllocError>
    requires some { 1 ≤ nodes }
    requires few { nodes ≤ 1024 }
    ensures { IfOk result (λ edges. edges.items ≡ half_edges nodes) }
{
    let mut edges = Vec::new(alloc);
    for number in 2..nodes + 1 {
        edges.push(edge_to(number))?;
    }
    Ok(edges)
}

// The edge from a leaf to the leaf of three times its number.
fn edge_from(nodes: u32, number: u32) -> Edge
    requires some { nodes ≤ 1024 }
    requires few { number ≤ 1024 }
    ensures { result ≡ triple_edge nodes number }
{
    let id = nodes + number;
    Edge {
        id: Id::Whole(id as i128),
        source: End::Node(number),
        target: End::Node(3 * number),
        weight: triple_weight(number),
    }
}

// Pushes the edges from leaves to the leaves of three times their numbers.
fn push_triples(edges: &mut Vec<Edge>, nodes: u32) -> Result<(), AllocError>
    requires { nodes ≤ 1024 }
    ensures { OnOk result (edges.new.items ≡ edges.old.items ++ triple_edges nodes) }
{
    for number in 1..nodes / 3 + 1 {
        edges.push(edge_from(nodes, number))?;
    }
    Ok(())
}
