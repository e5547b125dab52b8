//! The whole drawing.

use crate::bare::bare_document;
use crate::floats::with_plain_values;
use crate::junctions::{find_junctions, tell_junctions};
use crate::pipeline::answer_to;
use elk_json::DocFault;
use graph_draft::{Draft, How, tell, tell_coordinates};
use serde_json::Value;
use std::alloc::{AllocError, Global};

/// A graph with its drawing.
#[derive(Drop)]
pub struct Laid {
    pub placed: Value,
    /// The document that the engine was sent last.
    pub document: Value,
}

/// A graph with the drawing that stands in its draft. Edges get their junctions, and coordinates are told as the graph asks.
pub fn told(
    alloc: Global,
    graph: Value,
    mut draft: Draft,
    document: Value,
) -> Result<Laid, AllocError> {
    let mut placed = graph;
    tell(alloc, &mut placed, &draft)?;
    let has_junctions = find_junctions(alloc, &mut draft, &placed)?;
    if tell_coordinates(alloc, &mut draft)? {
        tell(alloc, &mut placed, &draft)?;
    } else if has_junctions {
        tell_junctions(alloc, &mut placed, &draft)?;
    }
    Ok(Laid { placed, document })
}

/// Lays out a graph that lacks the form that stages rely on, as the engine takes it. It is refused for what is wrong with it, rather than
/// for a fraction that the engine wouldn't read.
pub fn laid_out_as_it_is(alloc: Global, graph: &Value, how: &How) -> Result<Laid, DocFault> {
    let sent = bare_document(alloc, graph, how)?;
    answer_to(alloc, &sent.document)?;
    let document = with_plain_values(alloc, graph.clone()?)?;
    let placed = answer_to(alloc, &document)?;
    Ok(Laid { placed, document })
}
