//! The graph of a level.

use crate::borders::{border_leaf, crossed_at, sides_of};
use crate::children::{SentNode, Task, labels_at, node_id, sent_children};
use crate::edges::{has_dock, helper_edge, sent_pieces};
use crate::known::{Known, Mode};
use crate::members::{Members, ask, ask_word, labels_in, options_in, put_list, put_options};
use crate::ports::{PortKey, SentPort};
use crate::rooms::{padding_for_labels, padding_within};
use crate::spots::{PinnedSpot, dock_key};
use crate::ties::break_ties;
use border_levels::{Model, PieceEnd};
use graph_draft::Element;
use layer_stages::Border;
use route_curves::options_for;
use serde_json::value::Map;
use serde_json::{Value, put};
use std::alloc::{AllocError, Global};
use std::collections::{BTreeMap, BTreeSet};

// The index of the ports of helper edges, behind all others.
const LAST_INDEX: usize = 1048576;

/// The graph of one open level as it is laid out. Its children are those of the level in their order, then the leaves that stand for
/// its border. Its edges are the pieces in their order, then helper edges.
#[derive(Drop)]
pub struct LevelGraph {
    pub document: Value,
    /// The edges whose labels stay in their layers, by their places in the list.
    pub still: BTreeSet<usize>,
    /// The leaves that stand for the border, by their places among the children that are sent.
    pub ends: BTreeMap<usize, Border>,
    /// The pieces, in the order in which they are sent.
    pub pieces: Vec<usize>,
    /// How many children the level has.
    pub children: usize,
    /// The place of the leaf for the border at the first layer among the children that are sent; none if nothing leads there.
    pub first: Option<usize>,
    /// The same for the last layer.
    pub last: Option<usize>,
    /// What stands at each child with crossings of its border or pinned ports, in the order of the ports that are sent for it.
    pub spots: BTreeMap<usize, Vec<PinnedSpot>>,
}

// The nodes that are sent of a level.
#[derive(Drop)]
struct Sending {
    nodes: Vec<SentNode>,
    // By crossing its place in the order at its side, where that order is kept.
    kept: BTreeMap<usize, f64>,
    // The places of the leaves for the border.
    first: Option<usize>,
    last: Option<usize>,
}

impl Sending {
    // The children of a level, and the leaves for its border.
    fn of(alloc: Global, task: Task<'_>) -> Result<Sending, AllocError> {
        let mut sending = Sending {
            nodes: sent_children(alloc, task)?,
            kept: BTreeMap::new(alloc),
            first: None,
            last: None,
        };
        sending.first = sending.add_border(alloc, task, Border::First)?;
        sending.last = sending.add_border(alloc, task, Border::Last)?;
        Ok(sending)
    }

    // Adds the leaf for the border at an end, if anything leads there. It answers its place.
    fn add_border(
        &mut self,
        alloc: Global,
        task: Task<'_>,
        border: Border,
    ) -> Result<Option<usize>, AllocError> {
        let crossed = crossed_at(alloc, task, border)?;
        if crossed.crossings.is_empty() {
            return Ok(None);
        }
        if crossed.is_kept {
            let mut place = 0.0;
            for crossing in crossed.crossings.iter() {
                self.kept.insert(*crossing, place)?;
                place += 1.0;
            }
        }
        let at = self.nodes.len();
        let leaf = border_leaf(alloc, task, border, &crossed)?;
        self.nodes.push(leaf)?;
        Ok(Some(at))
    }
}

// Pairs of one edge of several ends begin at one port of size 0.
fn share_dock(
    model: &Model,
    children: &[usize],
    nodes: &mut [SentNode],
    end: PieceEnd,
) -> Result<(), AllocError> {
    let own = match end {
        PieceEnd::Own(own) if has_dock(model, own) => own,
        _ => return Ok(()),
    };
    let key = PortKey::Spot(dock_key(own.dock));
    if let Ok(at) = children.binary_search(&own.node) {
        if let Some(node) = nodes.get_mut(at) {
            if !node.ports.iter().any(|port| port.key == key) {
                node.ports.push(SentPort::bare(key))?;
            }
        }
    }
    Ok(())
}

fn share_docks(
    model: &Model,
    level: usize,
    nodes: &mut [SentNode],
    pieces: &[usize],
) -> Result<(), AllocError> {
    // Children stand in the order of their numbers.
    let children = model.draft.children_of(level);
    for at in pieces {
        if let Some(piece) = model.piece(*at) {
            share_dock(model, children, nodes, piece.from)?;
            share_dock(model, children, nodes, piece.to)?;
        }
    }
    Ok(())
}

// Adds a helper edge, by its number, and its port at a leaf for the border.
fn add_helper(
    alloc: Global,
    task: Task<'_>,
    nodes: &mut [SentNode],
    edges: &mut Vec<Value>,
    (number, child): (usize, usize),
    (leaf, border): (usize, Border),
) -> Result<(), AllocError> {
    let (_, facing) = sides_of(task, border);
    if let Some(node) = nodes.get_mut(leaf) {
        node.ports.push(SentPort {
            side: Some(facing),
            index: Some(LAST_INDEX),
            ..SentPort::bare(PortKey::Helper(number))
        })?;
        edges.push(helper_edge(alloc, number, child, border)?)?;
    }
    Ok(())
}

fn add_helpers(
    alloc: Global,
    task: Task<'_>,
    nodes: &mut [SentNode],
    edges: &mut Vec<Value>,
    (first, last): (Option<usize>, Option<usize>),
) -> Result<(), AllocError> {
    let helpers = match task.known.helpers.get(&task.level) {
        Some(helpers) => helpers.as_slice(),
        None => return Ok(()),
    };
    let children = task.model.draft.children_of(task.level);
    for (number, helper) in helpers.iter().enumerate() {
        let (leaf, border) = if helper.is_last {
            (last, Border::Last)
        } else {
            (first, Border::First)
        };
        if let (Some(leaf), Some(child)) = (leaf, children.get(helper.at)) {
            add_helper(alloc, task, nodes, edges, (number, *child), (leaf, border))?;
        }
    }
    Ok(())
}

fn is_of_boxes(model: &Model, level: usize) -> bool {
    match model.draft.option(Element::Node(level), "algorithm") {
        Some(Value::String(name)) => name.as_str().ends_with("box"),
        _ => false,
    }
}

fn level_options(
    alloc: Global,
    model: &Model,
    level: usize,
    has_pieces: bool,
    has_border: bool,
) -> Result<Members, AllocError> {
    let mut options = match model.draft.nodes.get(level) {
        Some(node) => options_in(alloc, &node.options)?,
        None => Map::new(alloc),
    };
    if model.routing_of(level).is_some() {
        for (name, value) in options_for(alloc, &model.draft, level)? {
            ask(&mut options, alloc, name, value)?;
        }
    }
    if has_border {
        let padding = Value::String(padding_within(alloc, model, level)?);
        ask(&mut options, alloc, "padding", padding)?;
        let whole = Value::Bool(false);
        ask(&mut options, alloc, "separateConnectedComponents", whole)?;
    } else if let Some(padding) = padding_for_labels(alloc, model, level)? {
        ask(&mut options, alloc, "padding", Value::String(padding))?;
    }
    if has_pieces && is_of_boxes(model, level) {
        ask_word(&mut options, alloc, "algorithm", "layered")?;
    }
    Ok(options)
}

// The labels of a level's node that its own layout places. Those outside stand in the level around.
fn level_labels(alloc: Global, model: &Model, level: usize) -> Result<Vec<Value>, AllocError> {
    let draft = &model.draft;
    if draft.parent_of(level).is_some() {
        return labels_at(alloc, draft, level, false);
    }
    labels_in(alloc, draft, draft.labels_of(Element::Node(level)))
}

fn document_of(
    alloc: Global,
    model: &Model,
    level: usize,
    options: Members,
    nodes: Vec<SentNode>,
    edges: Vec<Value>,
) -> Result<Value, AllocError> {
    let mut members = Map::new(alloc);
    put(&mut members, alloc, "id", node_id(alloc, level)?)?;
    put_options(&mut members, alloc, options)?;
    let labels = level_labels(alloc, model, level)?;
    put_list(&mut members, alloc, "labels", labels)?;
    let mut children = Vec::new(alloc);
    for node in nodes {
        children.push(node.value(alloc, &model.draft)?)?;
    }
    put_list(&mut members, alloc, "children", children)?;
    put_list(&mut members, alloc, "edges", edges)?;
    Ok(Value::Object(members))
}

// What is cut off, or drawn anew, is no place for labels: those of such pieces stay in their layers.
fn still_among(
    alloc: Global,
    model: &Model,
    pieces: &[usize],
) -> Result<BTreeSet<usize>, AllocError> {
    let mut still = BTreeSet::new(alloc);
    for (at, number) in pieces.iter().enumerate() {
        if let Some(piece) = model.piece(*number) {
            if model.is_bent || piece.from.is_frame() || piece.to.is_frame() {
                still.insert(at)?;
            }
        }
    }
    Ok(still)
}

fn ends_of(
    alloc: Global,
    (first, last): (Option<usize>, Option<usize>),
) -> Result<BTreeMap<usize, Border>, AllocError> {
    let mut ends = BTreeMap::new(alloc);
    if let Some(leaf) = first {
        ends.insert(leaf, Border::First)?;
    }
    if let Some(leaf) = last {
        ends.insert(leaf, Border::Last)?;
    }
    Ok(ends)
}

fn spots_in(
    alloc: Global,
    children: &[usize],
    nodes: &[SentNode],
) -> Result<BTreeMap<usize, Vec<PinnedSpot>>, AllocError> {
    let mut spots = BTreeMap::new(alloc);
    for (child, node) in children.iter().zip(nodes.iter()) {
        let mut here = Vec::new(alloc);
        for port in node.ports.iter() {
            if let Some(spot) = port.spot {
                here.push(spot)?;
            }
        }
        if !here.is_empty() {
            spots.insert(*child, here)?;
        }
    }
    Ok(spots)
}

/// The graph of an open level.
pub fn level_graph(
    alloc: Global,
    model: &Model,
    known: &Known,
    level: usize,
    mode: Mode,
) -> Result<LevelGraph, AllocError> {
    let task = Task {
        model,
        known,
        level,
        mode,
    };
    let Sending {
        mut nodes,
        kept,
        first,
        last,
    } = Sending::of(alloc, task)?;
    let mut pieces = Vec::from_slice(alloc, model.pieces_of(level))?;
    let (some, others) = (pieces.as_mut_slice(), nodes.as_mut_slice());
    break_ties(alloc, task, &kept, some, others)?;
    share_docks(model, level, nodes.as_mut_slice(), pieces.as_slice())?;
    let mut edges = sent_pieces(alloc, model, pieces.as_slice())?;
    let leaves = (first, last);
    add_helpers(alloc, task, nodes.as_mut_slice(), &mut edges, leaves)?;
    let children = model.draft.children_of(level);
    let spots = spots_in(alloc, children, nodes.as_slice())?;
    let has_border = first.is_some() || last.is_some();
    let options = level_options(alloc, model, level, !pieces.is_empty(), has_border)?;
    Ok(LevelGraph {
        document: document_of(alloc, model, level, options, nodes, edges)?,
        still: still_among(alloc, model, pieces.as_slice())?,
        ends: ends_of(alloc, leaves)?,
        children: children.len(),
        pieces,
        first,
        last,
        spots,
    })
}
