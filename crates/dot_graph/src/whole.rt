//! A whole graph.

use crate::clusters::{Holding, level_value};
use crate::edges::edge_value;
use crate::ends::Ends;
use crate::ids::Ids;
use crate::known::{Owner, Seen, tell_misplaced};
use crate::levels::{Levels, levels_of};
use crate::naming::graph_name;
use crate::nodes::{node_value, plan_node};
use crate::planned::Planned;
use crate::ranks::{Ranks, ranks_of};
use crate::sides::Direction;
use crate::spacing::{Spacing, spacing_of};
use dot_looks::{Given, Notes};
use dot_syntax::{Graph, Warning};
use serde_json::Value;
use std::alloc::{AllocError, Global};
use std::mem;

/// A graph as it is drawn, and what a reader of its text should know, in the order of the text.
#[derive(Drop)]
pub struct Translation {
    pub graph: Value,
    pub warnings: Vec<Warning>,
}

// The name of a graph that has none.
const UNNAMED: &str = "graph";

// The children of a level, each with the number of its first node.
type Children = Vec<(usize, Value)>;

// Tells which attributes have no effect.
fn tell_attributes(alloc: Global, graph: &Graph, notes: &mut Notes) -> Result<(), AllocError> {
    let attributes = &graph.attributes;
    let mut seen = Seen::new(alloc);
    for (number, subgraph) in graph.subgraphs.iter().enumerate() {
        seen.tell(alloc, Owner::Graph, attributes, subgraph.set, notes)?;
        if number > 0 {
            tell_misplaced(alloc, graph, number, notes)?;
        }
    }
    let mut seen = Seen::new(alloc);
    for node in graph.nodes.iter() {
        seen.tell(alloc, Owner::Node, attributes, node.set, notes)?;
    }
    let mut seen = Seen::new(alloc);
    for edge in graph.edges.iter() {
        seen.tell(alloc, Owner::Edge, attributes, edge.set, notes)?;
    }
    Ok(())
}

fn planned_nodes(
    alloc: Global,
    graph: &Graph,
    direction: Direction,
    notes: &mut Notes,
) -> Result<Vec<Planned>, AllocError> {
    let mut planned = Vec::new(alloc);
    for node in graph.nodes.iter() {
        planned.push(plan_node(alloc, graph, node, direction, notes)?)?;
    }
    Ok(planned)
}

// Nodes have their names as ids. A level whose name is a node's gets another id.
fn level_ids(
    alloc: Global,
    graph: &Graph,
    levels: &Levels,
    ids: &mut Ids,
) -> Result<Vec<String>, AllocError> {
    for node in graph.nodes.iter() {
        ids.take(node.name.as_str())?;
    }
    let mut level_ids = Vec::new(alloc);
    for (number, level) in levels.all.iter().enumerate() {
        let name = match graph.subgraphs.get(level.subgraph) {
            Some(subgraph) => match &subgraph.name {
                Some(name) => name.as_str(),
                None if number == 0 => UNNAMED,
                None => "cluster",
            },
            None => UNNAMED,
        };
        level_ids.push(ids.take(name)?)?;
    }
    Ok(level_ids)
}

fn is_compound(graph: &Graph) -> bool {
    match graph.subgraphs.first() {
        Some(root) => {
            let attributes = &graph.attributes;
            let set = root.set;
            let given = Given { attributes, set };
            given.is_true("compound")
        }
        None => false,
    }
}

fn ends_of(
    alloc: Global,
    graph: &Graph,
    levels: &Levels,
    direction: Direction,
    notes: &mut Notes,
) -> Result<Ends, AllocError> {
    let mut ids = Ids::new(alloc);
    let level_ids = level_ids(alloc, graph, levels, &mut ids)?;
    Ok(Ends {
        ids,
        planned: planned_nodes(alloc, graph, direction, notes)?,
        level_ids,
        direction,
        is_compound: is_compound(graph),
    })
}

fn edge_values(
    alloc: Global,
    graph: &Graph,
    levels: &Levels,
    ranks: &Ranks,
    ends: &mut Ends,
    notes: &mut Notes,
) -> Result<Vec<Value>, AllocError> {
    let mut ids = Ids::new(alloc);
    let mut values = Vec::new(alloc);
    for (number, edge) in graph.edges.iter().enumerate() {
        // Ids count the edges that are left out too.
        let value = edge_value(alloc, graph, levels, edge, ends, &mut ids, notes)?;
        if !ranks.is_left_out(number) {
            values.push(value)?;
        }
    }
    Ok(values)
}

// The values of nodes, by their levels.
fn leaves_of(
    alloc: Global,
    graph: &Graph,
    levels: &Levels,
    ranks: &Ranks,
    planned: Vec<Planned>,
    notes: &mut Notes,
) -> Result<Vec<Children>, AllocError> {
    let mut lists: Vec<Children> = Vec::new(alloc);
    for _ in levels.all.iter() {
        lists.push(Vec::new(alloc))?;
    }
    for ((number, node), planned) in graph.nodes.iter().enumerate().zip(planned) {
        let standing = ranks.of_node(number);
        let value = node_value(alloc, graph, node, planned, standing, notes)?;
        if let Some(list) = lists.get_mut(levels.home(number)) {
            list.push((number, value))?;
        }
    }
    Ok(lists)
}

// The values of children in the order of their first nodes.
fn in_order(alloc: Global, mut children: Children) -> Result<Vec<Value>, AllocError> {
    children.sort_by_key(|child| child.0)?;
    let mut values = Vec::new(alloc);
    for (_, value) in children {
        values.push(value)?;
    }
    Ok(values)
}

fn first_node(children: &[(usize, Value)]) -> usize {
    let mut first = usize::MAX;
    for child in children {
        first = first.min(child.0);
    }
    first
}

fn taken(alloc: Global, lists: &mut [Children], level: usize) -> Children {
    match lists.get_mut(level) {
        Some(list) => mem::replace(list, Vec::new(alloc)),
        None => Vec::new(alloc),
    }
}

// What is known of all levels.
#[derive(Drop)]
struct Plan {
    levels: Levels,
    ranks: Ranks,
    spacing: Spacing,
    // By level.
    ids: Vec<String>,
}

// What a level holds.
#[derive(Drop)]
struct Content {
    children: Children,
    edges: Vec<Value>,
}

fn id_at(alloc: Global, ids: &[String], level: usize) -> Result<String, AllocError> {
    match ids.get(level) {
        Some(id) => id.clone(),
        None => Ok(String::new(alloc)),
    }
}

fn value_of(
    alloc: Global,
    graph: &Graph,
    plan: &Plan,
    level: usize,
    content: Content,
    notes: &mut Notes,
) -> Result<Value, AllocError> {
    let Content { children, edges } = content;
    let holding = Holding {
        id: id_at(alloc, plan.ids.as_slice(), level)?,
        children: in_order(alloc, children)?,
        edges,
        standing: plan.ranks.of_level(level),
        is_partitioned: plan.ranks.is_divided(level),
    };
    let number = match plan.levels.all.get(level) {
        Some(level) => level.subgraph,
        None => 0,
    };
    match graph.subgraphs.get(number) {
        Some(subgraph) => level_value(alloc, graph, subgraph, plan.spacing, holding, notes),
        None => Ok(Value::Null),
    }
}

// Puts a cluster into the level that holds it, unless it has no node.
fn settle(
    alloc: Global,
    graph: &Graph,
    plan: &Plan,
    lists: &mut [Children],
    level: usize,
    notes: &mut Notes,
) -> Result<(), AllocError> {
    let children = taken(alloc, lists, level);
    if children.is_empty() {
        return Ok(());
    }
    let first = first_node(children.as_slice());
    let edges = Vec::new(alloc);
    let content = Content { children, edges };
    let value = value_of(alloc, graph, plan, level, content, notes)?;
    if let Some(list) = lists.get_mut(plan.levels.holder(level)) {
        list.push((first, value))?;
    }
    Ok(())
}

// Puts the clusters into the levels that hold them, the innermost first, and all of it into the graph.
fn nested(
    alloc: Global,
    graph: &Graph,
    plan: &Plan,
    mut lists: Vec<Children>,
    edges: Vec<Value>,
    notes: &mut Notes,
) -> Result<Value, AllocError> {
    for level in (1..plan.levels.all.len()).rev() {
        settle(alloc, graph, plan, lists.as_mut_slice(), level, notes)?;
    }
    let children = taken(alloc, lists.as_mut_slice(), 0);
    let content = Content { children, edges };
    value_of(alloc, graph, plan, 0, content, notes)
}

fn translated(alloc: Global, graph: &Graph, notes: &mut Notes) -> Result<Value, AllocError> {
    tell_attributes(alloc, graph, notes)?;
    let spacing = spacing_of(alloc, graph, notes)?;
    let levels = levels_of(alloc, graph, notes)?;
    let ranks = ranks_of(alloc, graph, &levels, notes)?;
    let mut ends = ends_of(alloc, graph, &levels, spacing.direction, notes)?;
    let edges = edge_values(alloc, graph, &levels, &ranks, &mut ends, notes)?;
    let Ends {
        planned,
        level_ids,
        ..
    } = ends;
    let lists = leaves_of(alloc, graph, &levels, &ranks, planned, notes)?;
    let plan = Plan {
        levels,
        ranks,
        spacing,
        ids: level_ids,
    };
    nested(alloc, graph, &plan, lists, edges, notes)
}

/// The graph that pictures are made of, from a graph in DOT.
pub fn translate(alloc: Global, graph: &Graph) -> Result<Translation, AllocError> {
    let mut notes = Notes::new(alloc);
    for warning in graph.warnings.iter() {
        notes.add(warning.place, warning.message.as_str())?;
    }
    let value = translated(alloc, graph, &mut notes)?;
    let mut warnings = notes.into_warnings();
    warnings.sort_by_key(|warning| (warning.place.line, warning.place.column))?;
    Ok(Translation {
        graph: value,
        warnings,
    })
}
