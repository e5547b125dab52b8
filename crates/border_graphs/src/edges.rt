//! Edges as they are sent: pieces at an open level, and whole edges at closed ones.

use crate::children::{has_spots, node_id};
use crate::members::{Members, add_label, labels_in, options_in, put_list, put_options};
use crate::ports::{PortKey, port_id};
use crate::spots::{SpotKey, dock_key, spot_key};
use border_levels::{Model, PairEnd, Piece, PieceEnd};
use graph_draft::{Draft, Edge, Element, End, text_value};
use layer_stages::Border;
use serde_json::value::Map;
use serde_json::{Value, put};
use std::alloc::{AllocError, Global};

// The ids of the leaves that stand for the border of a level.
pub(crate) fn border_name(border: Border) -> &'static str {
    match border {
        Border::First => "first",
        Border::Last => "last",
    }
}

// Whether pairs of an edge of several ends begin at one port that is made for them.
pub(crate) fn has_dock(model: &Model, end: PairEnd) -> bool {
    let is_due = end.is_shared && end.port.is_none() && !has_spots(model, end.node);
    is_due && !model.draft.is_pinned(end.node)
}

// The port at which an end of a piece is sent; none if it is sent at the node itself.
pub(crate) fn port_of(model: &Model, end: PieceEnd) -> Option<PortKey> {
    match end {
        PieceEnd::Frame(crossing) => Some(PortKey::Frame(crossing)),
        PieceEnd::Border(crossing) => Some(PortKey::Spot(spot_key(model, crossing))),
        PieceEnd::Own(own) => {
            let is_at_port = own.port.is_some() || has_spots(model, own.node);
            if is_at_port || has_dock(model, own) {
                Some(PortKey::Spot(dock_key(own.dock)))
            } else {
                None
            }
        }
    }
}

fn put_end(
    members: &mut Members,
    alloc: Global,
    model: &Model,
    end: PieceEnd,
    border: Border,
) -> Result<(), AllocError> {
    let (node, port) = match border {
        Border::First => ("source", "sourcePort"),
        Border::Last => ("target", "targetPort"),
    };
    let id = match end.node(model) {
        Some(at) => node_id(alloc, at)?,
        None => text_value(alloc, border_name(border))?,
    };
    put(members, alloc, node, id)?;
    match port_of(model, end) {
        Some(key) => put(members, alloc, port, port_id(alloc, key)?),
        None => Ok(()),
    }
}

fn piece_value(
    alloc: Global,
    model: &Model,
    at: usize,
    piece: &Piece,
) -> Result<Value, AllocError> {
    let mut members = Map::new(alloc);
    let id = Value::String(format!(in alloc; "e{at}")?);
    put(&mut members, alloc, "id", id)?;
    put_end(&mut members, alloc, model, piece.from, Border::First)?;
    put_end(&mut members, alloc, model, piece.to, Border::Last)?;
    if let Some(edge) = model.draft.edges.get(piece.edge) {
        put_options(&mut members, alloc, options_in(alloc, &edge.options)?)?;
    }
    let mut labels = Vec::new(alloc);
    for sent in piece.labels.iter() {
        let (label, spot) = (sent.label, sent.spot);
        add_label(&mut labels, alloc, &model.draft, label, Some(spot))?;
    }
    put_list(&mut members, alloc, "labels", labels)?;
    Ok(Value::Object(members))
}

/// Pieces as edges, in their order.
pub(crate) fn sent_pieces(
    alloc: Global,
    model: &Model,
    pieces: &[usize],
) -> Result<Vec<Value>, AllocError> {
    let mut edges = Vec::new(alloc);
    for at in pieces {
        if let Some(piece) = model.piece(*at) {
            edges.push(piece_value(alloc, model, *at, piece)?)?;
        }
    }
    Ok(edges)
}

/// A helper edge between a child and the border, by its number.
pub(crate) fn helper_edge(
    alloc: Global,
    number: usize,
    child: usize,
    border: Border,
) -> Result<Value, AllocError> {
    let key = PortKey::Helper(number);
    let mut members = Map::new(alloc);
    put(&mut members, alloc, "id", port_id(alloc, key)?)?;
    let (node, end, port) = match border {
        Border::First => ("target", "source", "sourcePort"),
        Border::Last => ("source", "target", "targetPort"),
    };
    put(&mut members, alloc, node, node_id(alloc, child)?)?;
    let name = text_value(alloc, border_name(border))?;
    put(&mut members, alloc, end, name)?;
    put(&mut members, alloc, port, port_id(alloc, key)?)?;
    Ok(Value::Object(members))
}

fn end_value(alloc: Global, end: End) -> Result<Value, AllocError> {
    match end.port {
        Some(port) => port_id(alloc, PortKey::Spot(SpotKey::Port(port))),
        None => node_id(alloc, end.node),
    }
}

fn put_ends(
    members: &mut Members,
    alloc: Global,
    key: &str,
    ends: &[End],
) -> Result<(), AllocError> {
    let mut values = Vec::new(alloc);
    for end in ends {
        values.push(end_value(alloc, *end)?)?;
    }
    put_list(members, alloc, key, values)
}

fn edge_value(alloc: Global, draft: &Draft, at: usize, edge: &Edge) -> Result<Value, AllocError> {
    let mut members = Map::new(alloc);
    let id = Value::String(format!(in alloc; "c{at}")?);
    put(&mut members, alloc, "id", id)?;
    put_ends(&mut members, alloc, "sources", edge.sources.as_slice())?;
    put_ends(&mut members, alloc, "targets", edge.targets.as_slice())?;
    put_options(&mut members, alloc, options_in(alloc, &edge.options)?)?;
    let labels = labels_in(alloc, draft, draft.labels_of(Element::Edge(at)))?;
    put_list(&mut members, alloc, "labels", labels)?;
    Ok(Value::Object(members))
}

/// The edges of a level that isn't open, as they are.
pub(crate) fn closed_edges(
    alloc: Global,
    model: &Model,
    level: usize,
) -> Result<Vec<Value>, AllocError> {
    let mut edges = Vec::new(alloc);
    let mut last = None;
    for at in model.pairs_of(level) {
        if let Some(pair) = model.pair(*at) {
            // The pairs of one edge stand side by side.
            if last != Some(pair.edge) {
                last = Some(pair.edge);
                if let Some(edge) = model.draft.edges.get(pair.edge) {
                    edges.push(edge_value(alloc, &model.draft, pair.edge, edge)?)?;
                }
            }
        }
    }
    Ok(edges)
}
