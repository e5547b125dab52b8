//! What stands in each part of a placed level.

use crate::bounds::Bounds;
use graph_draft::{Draft, Joined, Size, joined_edges};
use route_curves::outline_of;
use serde_json::Value;
use std::alloc::{AllocError, Global};
use std::collections::BTreeMap;

// The children and the edges of a part, and the rectangle around them.
#[derive(Drop)]
pub(crate) struct Group {
    pub(crate) children: Vec<usize>,
    pub(crate) edges: Vec<usize>,
    pub(crate) bounds: Bounds,
}

// The parts of a level, by their numbers.
pub(crate) type Groups = BTreeMap<u64, Group>;

// The part of each child of a level; none if the engine tells no parts.
pub(crate) fn parts_of(alloc: Global, draft: &Draft, level: usize) -> Result<Vec<u64>, AllocError> {
    let mut parts = Vec::new(alloc);
    let layering = match draft.nodes.get(level) {
        Some(node) => node.layering.as_ref(),
        None => None,
    };
    if let Some(Value::Array(items)) = layering.and_then(|layering| layering.get("parts")) {
        for item in items.iter() {
            parts.push(item.as_u64().unwrap_or(0))?;
        }
    }
    Ok(parts)
}

fn add_child(
    alloc: Global,
    draft: &Draft,
    groups: &mut Groups,
    child: usize,
    part: u64,
) -> Result<(), AllocError> {
    if groups.get(&part).is_none() {
        let group = Group {
            children: Vec::new(alloc),
            edges: Vec::new(alloc),
            bounds: Bounds::none(),
        };
        groups.insert(part, group)?;
    }
    if let Some(group) = groups.get_mut(&part) {
        let (place, size) = outline_of(draft, child);
        group.children.push(child)?;
        group.bounds.add(place, size);
    }
    Ok(())
}

fn add_edge(draft: &Draft, group: &mut Group, found: &Joined) -> Result<(), AllocError> {
    group.edges.push(found.edge)?;
    for point in draft.route_of(found.edge) {
        group.bounds.add(*point, Size::NONE);
    }
    Ok(())
}

// The parts of a level.
pub(crate) fn groups_of(
    alloc: Global,
    draft: &Draft,
    level: usize,
    parts: &[u64],
) -> Result<Groups, AllocError> {
    let mut groups = BTreeMap::new(alloc);
    let mut part_of = BTreeMap::new(alloc);
    for (child, part) in draft.children_of(level).iter().zip(parts.iter()) {
        add_child(alloc, draft, &mut groups, *child, *part)?;
        part_of.insert(*child, *part)?;
    }
    for found in joined_edges(alloc, draft)?.iter() {
        if found.level == level {
            if let Some(part) = part_of.get(&found.source.node) {
                if let Some(group) = groups.get_mut(part) {
                    add_edge(draft, group, found)?;
                }
            }
        }
    }
    Ok(groups)
}
