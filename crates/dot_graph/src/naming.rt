//! Names of graphs and edges.

use dot_syntax::{Edge, Graph};
use std::alloc::{AllocError, Global};

/// The text of a label that shows nothing: a blank without a width.
pub(crate) const BLANK: &str = "\u{200b}";

/// The name of the graph, which is empty if it has none.
pub(crate) fn graph_name(graph: &Graph) -> &str {
    match graph.subgraphs.first() {
        Some(root) => match &root.name {
            Some(name) => name.as_str(),
            None => "",
        },
        None => "",
    }
}

/// The name of a node.
pub(crate) fn node_name(graph: &Graph, node: usize) -> &str {
    match graph.nodes.get(node) {
        Some(node) => node.name.as_str(),
        None => "",
    }
}

fn push_end(
    out: &mut String,
    graph: &Graph,
    node: usize,
    port: Option<usize>,
) -> Result<(), AllocError> {
    out.push_str(node_name(graph, node))?;
    if let Some(port) = port {
        if let Some(written) = graph.attributes.written(port) {
            out.push(':')?;
            out.push_str(written.text.as_str())?;
        }
    }
    Ok(())
}

/// What Graphviz calls an edge: its ends, with an arrow between them, or a line in an undirected graph.
pub(crate) fn edge_name(alloc: Global, graph: &Graph, edge: &Edge) -> Result<String, AllocError> {
    let mut name = String::new(alloc);
    push_end(&mut name, graph, edge.tail, edge.tail_port)?;
    name.push_str(if graph.directed { "->" } else { "--" })?;
    push_end(&mut name, graph, edge.head, edge.head_port)?;
    Ok(name)
}
