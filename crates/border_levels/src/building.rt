//! How the model of a graph is built.

use crate::chains::lead_pairs;
use crate::model::{LevelNode, LevelPort, Model, PortRule};
use crate::pairs::{Pair, pairs_of};
use crate::port_sides::{find_port_sides, find_stem_sides};
use crate::port_stacks::port_stack_of;
use crate::turns::turn_pairs;
use crate::ways::{Reach, reaches_of};
use edge_stages::{keep_places, share_options};
use graph_draft::{Draft, Element, How, read, says};
use node_labels::port_labels_of;
use route_curves::routing_of;
use serde_json::Value;
use std::alloc::{AllocError, Global};
use std::collections::BTreeMap;

const RULES: &[(&str, PortRule)] = &[
    ("FREE", PortRule::Free),
    ("UNDEFINED", PortRule::Free),
    ("FIXED_SIDE", PortRule::FixedSide),
    ("FIXED_ORDER", PortRule::FixedOrder),
    ("FIXED_POS", PortRule::FixedPos),
];

fn rule_of(draft: &Draft, node: usize) -> PortRule {
    let asked = match draft.option(Element::Node(node), "portConstraints") {
        None | Some(Value::Null) => return PortRule::Free,
        asked => asked,
    };
    for (name, rule) in RULES {
        if says(asked, *name) {
            return *rule;
        }
    }
    PortRule::Other
}

fn nodes_of(alloc: Global, draft: &Draft) -> Result<Vec<LevelNode>, AllocError> {
    let mut nodes: Vec<LevelNode> = Vec::new(alloc);
    for at in 0..draft.given_nodes {
        let around = match draft.parent_of(at) {
            Some(parent) => nodes.get(parent),
            None => None,
        };
        let depth = match around {
            Some(around) => around.depth.saturating_add(1),
            None => 0,
        };
        nodes.push(LevelNode {
            depth,
            direction: draft.direction_of(at),
            rule: rule_of(draft, at),
            routing: routing_of(draft, at),
            is_open: false,
            pairs: Vec::new(alloc),
            crossings: Vec::new(alloc),
            pieces: Vec::new(alloc),
        })?;
    }
    Ok(nodes)
}

fn ports_of(alloc: Global, draft: &Draft) -> Result<Vec<LevelPort>, AllocError> {
    let mut ports = Vec::new(alloc);
    for at in 0..draft.given_ports {
        let is_labelled_inside = match port_stack_of(alloc, draft, at)? {
            Some(stack) => stack.is_inside,
            None => false,
        };
        ports.push(LevelPort {
            is_labelled_inside,
            ..LevelPort::UNKNOWN
        })?;
    }
    Ok(ports)
}

// Opens all levels around a node.
fn open_around(draft: &Draft, nodes: &mut [LevelNode], node: usize) {
    let mut inner = node;
    for _ in 0..draft.nodes.len() {
        let Some(level) = draft.parent_of(inner) else {
            break;
        };
        if let Some(node) = nodes.get_mut(level) {
            node.is_open = true;
        }
        inner = level;
    }
}

// Gives each pair to its level, and opens those around the ends of pairs that cross borders.
fn enter_pairs(draft: &Draft, nodes: &mut [LevelNode], pairs: &[Pair]) -> Result<(), AllocError> {
    for (at, pair) in pairs.iter().enumerate() {
        if let Some(level) = nodes.get_mut(pair.level) {
            level.pairs.push(at)?;
        }
        if pair.is_across() {
            open_around(draft, nodes, pair.source.node);
            open_around(draft, nodes, pair.target.node);
        }
    }
    Ok(())
}

fn open_levels(alloc: Global, nodes: &[LevelNode]) -> Result<Vec<usize>, AllocError> {
    let mut levels = Vec::new(alloc);
    for (at, node) in nodes.iter().enumerate() {
        if node.is_open {
            levels.push(at)?;
        }
    }
    Ok(levels)
}

// Whether some edges cross borders, and all of them are drawn.
fn is_across(alloc: Global, draft: &Draft) -> Result<bool, AllocError> {
    let mut is_across = false;
    for reach in reaches_of(alloc, draft)? {
        match reach {
            Reach::Within => {}
            Reach::Across => is_across = true,
            Reach::Undrawn => return Ok(false),
        }
    }
    Ok(is_across)
}

// The model of a draft before its pairs are led through levels.
fn begun(alloc: Global, mut draft: Draft) -> Result<Model, AllocError> {
    share_options(alloc, &mut draft)?;
    keep_places(alloc, &mut draft)?;
    // Labels of ports get the sizes of their texts.
    let _ = port_labels_of(alloc, &mut draft)?;
    let mut nodes = nodes_of(alloc, &draft)?;
    let ports = ports_of(alloc, &draft)?;
    let pairs = pairs_of(alloc, &draft)?;
    enter_pairs(&draft, nodes.as_mut_slice(), pairs.as_slice())?;
    let levels = open_levels(alloc, nodes.as_slice())?;
    let has_loops = pairs.iter().any(Pair::is_loop);
    let is_bent = nodes
        .iter()
        .any(|node| node.is_open && node.routing.is_some());
    Ok(Model {
        draft,
        nodes,
        ports,
        pairs,
        crossings: Vec::new(alloc),
        pieces: Vec::new(alloc),
        stems: BTreeMap::new(alloc),
        levels,
        has_loops,
        is_bent,
    })
}

/// The model of a graph. Nothing where no edge crosses borders, where one that does isn't drawn, or where the graph lacks the form that
/// stages rely on.
pub fn model_of(alloc: Global, graph: &Value, how: &How) -> Result<Option<Model>, AllocError> {
    let Some(draft) = read(alloc, graph, how)? else {
        return Ok(None);
    };
    if !is_across(alloc, &draft)? {
        return Ok(None);
    }
    let mut model = begun(alloc, draft)?;
    turn_pairs(alloc, &mut model)?;
    find_port_sides(alloc, &mut model)?;
    find_stem_sides(alloc, &mut model)?;
    lead_pairs(alloc, &mut model)?;
    Ok(Some(model))
}
