//! What the engine is asked for the layers of parts: nodes without sizes, in which bars stand where one rank ends and the next begins.

use crate::bars::{DEAREST, add_arcs, bars_of};
use crate::parts::{Part, SHORTNESS, bound_parts};
use crate::ranks::AskedRanks;
use graph_draft::{Draft, number_value, text_value};
use serde_json::value::Map;
use serde_json::{Value, put};
use std::alloc::{AllocError, Global};
use std::num::nearest_usize_to_f64;

/// The parts of levels whose layers are sought.
#[derive(Drop)]
pub struct SoughtLayers {
    pub(crate) parts: Vec<Part>,
}

fn id_of(alloc: Global, part: usize, at: usize) -> Result<Value, AllocError> {
    Ok(Value::String(format!(in alloc; "{part}.{at}")?))
}

fn node_value(alloc: Global, part: usize, at: usize) -> Result<Value, AllocError> {
    let mut members = Map::new(alloc);
    put(&mut members, alloc, "id", id_of(alloc, part, at)?)?;
    Ok(Value::Object(members))
}

// The edge of a number, with its tail, its head and its weight.
fn edge_value(
    alloc: Global,
    part: usize,
    at: usize,
    (tail, head, weight): (usize, usize, f64),
) -> Result<Value, AllocError> {
    let mut options = Map::new(alloc);
    put(
        &mut options,
        alloc,
        SHORTNESS,
        number_value(weight.min(DEAREST)),
    )?;
    let mut members = Map::new(alloc);
    put(&mut members, alloc, "id", id_of(alloc, part, at)?)?;
    put(&mut members, alloc, "source", id_of(alloc, part, tail)?)?;
    put(&mut members, alloc, "target", id_of(alloc, part, head)?)?;
    put(&mut members, alloc, "layoutOptions", Value::Object(options))?;
    Ok(Value::Object(members))
}

// The level that the engine reads for a part: all edges of the drawing are dearer than those of bars.
fn level_value(alloc: Global, at: usize, part: &Part) -> Result<Value, AllocError> {
    let bars = bars_of(alloc, part)?;
    let count = part.nodes.len();
    let mut of_bars = Vec::new(alloc);
    for (k, bar) in bars.iter().enumerate() {
        add_arcs(alloc, &mut of_bars, part, *bar, count.saturating_add(k))?;
    }
    let factor = nearest_usize_to_f64(of_bars.len()) + 1.0;
    let mut edges = Vec::new(alloc);
    for arc in part.arcs.iter() {
        let ends = (arc.tail, arc.head, arc.weight * factor);
        edges.push(edge_value(alloc, at, edges.len(), ends)?)?;
    }
    for arc in of_bars.iter() {
        let ends = (arc.tail, arc.head, arc.weight);
        edges.push(edge_value(alloc, at, edges.len(), ends)?)?;
    }
    let mut children = Vec::new(alloc);
    for k in 0..count.saturating_add(bars.len()) {
        children.push(node_value(alloc, at, k)?)?;
    }
    let mut members = Map::new(alloc);
    let id = Value::String(format!(in alloc; "{at}")?);
    put(&mut members, alloc, "id", id)?;
    put(&mut members, alloc, "children", Value::Array(children))?;
    put(&mut members, alloc, "edges", Value::Array(edges))?;
    Ok(Value::Object(members))
}

impl SoughtLayers {
    /// Whether no layers are sought, so that the engine isn't asked.
    pub fn is_empty(&self) -> bool {
        self.parts.is_empty()
    }

    /// The document in which the engine finds the layers. Its answer has a level for each part.
    pub fn document(&self, alloc: Global) -> Result<Value, AllocError> {
        let mut children = Vec::new(alloc);
        for (at, part) in self.parts.iter().enumerate() {
            children.push(level_value(alloc, at, part)?)?;
        }
        let mut members = Map::new(alloc);
        put(&mut members, alloc, "id", text_value(alloc, "layers")?)?;
        put(&mut members, alloc, "children", Value::Array(children))?;
        Ok(Value::Object(members))
    }
}

/// Finds the parts of a draft whose nodes are to be bound to layers. Nothing is made any more in the draft but what binds them.
pub fn seek_layers(
    alloc: Global,
    draft: &Draft,
    ranks: &AskedRanks,
) -> Result<SoughtLayers, AllocError> {
    Ok(SoughtLayers {
        parts: bound_parts(alloc, draft, ranks)?,
    })
}
