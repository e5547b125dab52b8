//! Nodes bound to layers: edges so dear that they lead from a layer to the next, those that pass layers by a thin leaf in each of these,
//! and helper edges that join what no edge does.

use crate::bindings::{Bindings, Spanning, bindings_of, layers_from};
use crate::ends::Ends;
use crate::parts::{Part, SHORTNESS};
use crate::seeking::SoughtLayers;
use edge_pieces::{Led, Shape, join_pieces, lead_through, leaf_on};
use edge_stages::keep_document_order;
use graph_draft::{Draft, Element, Mark, Options, number_value};
use serde_json::Value;
use std::alloc::{AllocError, Global};

/// What binds the nodes of a draft to layers.
#[derive(Drop)]
pub struct BoundLayers {
    mark: Mark,
    led: Vec<Led>,
}

fn make_dear(draft: &mut Draft, edge: usize, weight: f64) -> Result<(), AllocError> {
    draft.ask(Element::Edge(edge), SHORTNESS, number_value(weight))
}

fn hold_edge(
    alloc: Global,
    draft: &mut Draft,
    level: usize,
    it: &Spanning,
    weight: f64,
) -> Result<Option<Led>, AllocError> {
    let weight = it.arc.weight.max(weight);
    let mut leaves = Vec::new(alloc);
    for _ in 1..it.length {
        leaves.push(leaf_on(alloc, draft, level, Shape::POINT)?)?;
    }
    if leaves.is_empty() {
        make_dear(draft, it.arc.edge, weight)?;
        return Ok(None);
    }
    let led = lead_through(alloc, draft, it.arc.edge, leaves.as_slice())?;
    for piece in led.pieces() {
        make_dear(draft, *piece, weight)?;
    }
    Ok(Some(led))
}

fn hold_edges(
    alloc: Global,
    draft: &mut Draft,
    bound: &mut BoundLayers,
    part: &Part,
    bindings: &Bindings,
) -> Result<(), AllocError> {
    if bindings.dear.iter().any(|it| it.length > 1) {
        keep_document_order(alloc, draft, part.level)?;
    }
    for it in bindings.dear.iter() {
        if let Some(led) = hold_edge(alloc, draft, part.level, it, bindings.weight)? {
            bound.led.push(led)?;
        }
    }
    Ok(())
}

// Joins nodes of neighbouring layers by helper edges.
fn hold_pairs(
    alloc: Global,
    draft: &mut Draft,
    ends: &mut Ends,
    part: &Part,
    bindings: &Bindings,
) -> Result<(), AllocError> {
    let direction = draft.direction_of(part.level);
    for (tail, head) in bindings.links.iter() {
        if let (Some(tail), Some(head)) = (part.nodes.get(*tail), part.nodes.get(*head)) {
            let source = ends.at(alloc, draft, tail.node, direction.ahead())?;
            let target = ends.at(alloc, draft, head.node, direction.behind())?;
            let options = Options::none(alloc);
            let helper = draft.add_edge(alloc, part.level, source, target, options)?;
            make_dear(draft, helper, bindings.weight)?;
        }
    }
    Ok(())
}

/// Binds the nodes of a draft to the layers that stand in the engine's answer to the document of `sought`. The draft is the one in
/// which they were sought, as it was then.
pub fn bind_layers(
    alloc: Global,
    draft: &mut Draft,
    sought: &SoughtLayers,
    answer: &Value,
) -> Result<BoundLayers, AllocError> {
    let mut bound = BoundLayers {
        mark: draft.mark(),
        led: Vec::new(alloc),
    };
    let mut all = Vec::new(alloc);
    for (at, part) in sought.parts.iter().enumerate() {
        let level = match answer.get("children") {
            Some(Value::Array(items)) => items.get(at),
            _ => None,
        };
        let layers = layers_from(alloc, part, level)?;
        let bindings = bindings_of(alloc, part, layers.as_slice())?;
        hold_edges(alloc, draft, &mut bound, part, &bindings)?;
        all.push(bindings)?;
    }
    let mut ends = Ends::of(alloc, draft)?;
    for (part, bindings) in sought.parts.iter().zip(all.iter()) {
        hold_pairs(alloc, draft, &mut ends, part, bindings)?;
        draft.alter(part.level);
    }
    Ok(bound)
}

/// Joins the routes of edges of a placed draft that were led through leaves.
pub fn unbind_layers(
    alloc: Global,
    draft: &mut Draft,
    bound: BoundLayers,
) -> Result<(), AllocError> {
    for led in bound.led.iter().rev() {
        join_pieces(alloc, draft, led)?;
    }
    draft.undo_to(bound.mark)
}
