//! Which edges cross borders, by the levels of their ends.

use graph_draft::{Draft, Element, says};
use std::alloc::{AllocError, Global};

/// The way of an edge between two nodes.
#[derive(Drop)]
pub struct Way {
    /// The node to whose content the edge belongs.
    pub level: usize,
    /// The nodes from its source up to the level, which is left out. None if the level is the source.
    pub up: Vec<usize>,
    /// The nodes from its target up to the level, which is left out. None if the level is the target.
    pub down: Vec<usize>,
}

impl Way {
    /// Whether it crosses a border.
    pub fn is_across(&self) -> bool {
        self.up.len() != 1 || self.down.len() != 1
    }
}

// The way of a self-loop, which is as long on either side.
fn loop_way(alloc: Global, draft: &Draft, node: usize) -> Result<Option<Way>, AllocError> {
    match draft.parent_of(node) {
        Some(level) => Ok(Some(Way {
            level,
            up: vec![in alloc; node]?,
            down: vec![in alloc; node]?,
        })),
        None => Ok(None),
    }
}

/// The way between two nodes. A self-loop of the root has none.
pub fn way_of(
    alloc: Global,
    draft: &Draft,
    source: usize,
    target: usize,
) -> Result<Option<Way>, AllocError> {
    if source == target {
        return loop_way(alloc, draft, source);
    }
    let (mut up, mut down) = (Vec::new(alloc), Vec::new(alloc));
    let (mut one, mut other) = (source, target);
    for _ in 0..draft.nodes.len().saturating_mul(2) {
        if one == other {
            let level = one;
            return Ok(Some(Way { level, up, down }));
        }
        // Each node stands behind its parent.
        if one > other {
            up.push(one)?;
            one = draft.level_around(one);
        } else {
            down.push(other)?;
            other = draft.level_around(other);
        }
    }
    Ok(None)
}

// Whether a node asks to be laid out by itself; nothing where it doesn't say.
fn separation_asked(draft: &Draft, node: usize) -> Option<bool> {
    let asked = draft.option(Element::Node(node), "hierarchyHandling");
    if says(asked, "INCLUDE_CHILDREN") {
        Some(false)
    } else if says(asked, "SEPARATE_CHILDREN") {
        Some(true)
    } else {
        None
    }
}

// Which nodes are laid out by themselves, by what they ask for, or else the nearest node around them that asks.
fn separate_nodes(alloc: Global, draft: &Draft) -> Result<Vec<bool>, AllocError> {
    let mut separate: Vec<bool> = Vec::new(alloc);
    // Each node stands behind its parent.
    for at in 0..draft.nodes.len() {
        let around = match draft.parent_of(at) {
            Some(parent) => separate.get(parent).copied().unwrap_or(false),
            None => false,
        };
        separate.push(separation_asked(draft, at).unwrap_or(around))?;
    }
    Ok(separate)
}

/// How an edge lies among levels.
#[derive(Clone, Copy, Debug, Drop, PartialEq, Eq)]
pub enum Reach {
    /// It joins nodes of one level.
    Within,
    /// It crosses borders between levels that are laid out together.
    Across,
    /// It isn't drawn: one of the levels that it passes is laid out by itself, or it leads from the root to the root.
    Undrawn,
}

fn is_separate(separate: &[bool], node: usize) -> bool {
    separate.get(node).copied().unwrap_or(false)
}

// Whether some node of a way but the first, which is the end itself, is laid out by itself.
fn is_cut(separate: &[bool], nodes: &[usize]) -> bool {
    nodes
        .iter()
        .skip(1)
        .any(|node| is_separate(separate, *node))
}

fn reach_of_way(separate: &[bool], way: Option<&Way>) -> Reach {
    let Some(way) = way else {
        return Reach::Undrawn;
    };
    if !way.is_across() {
        Reach::Within
    } else if is_separate(separate, way.level)
        || is_cut(separate, way.up.as_slice())
        || is_cut(separate, way.down.as_slice())
    {
        Reach::Undrawn
    } else {
        Reach::Across
    }
}

// The reach of an edge of which one pair of ends has one reach, and others have another.
fn joined(one: Reach, other: Reach) -> Reach {
    match one {
        Reach::Undrawn => Reach::Undrawn,
        Reach::Within => other,
        Reach::Across => match other {
            Reach::Undrawn => Reach::Undrawn,
            _ => Reach::Across,
        },
    }
}

fn reach_of(
    alloc: Global,
    draft: &Draft,
    separate: &[bool],
    edge: usize,
) -> Result<Reach, AllocError> {
    let mut reach = Reach::Within;
    if let Some(edge) = draft.edges.get(edge) {
        for source in edge.sources.iter() {
            for target in edge.targets.iter() {
                let way = way_of(alloc, draft, source.node, target.node)?;
                reach = joined(reach, reach_of_way(separate, way.as_ref()));
            }
        }
    }
    Ok(reach)
}

/// By edge how it lies among levels, with all its ends.
pub fn reaches_of(alloc: Global, draft: &Draft) -> Result<Vec<Reach>, AllocError> {
    let separate = separate_nodes(alloc, draft)?;
    let mut reaches = Vec::new(alloc);
    for edge in 0..draft.given_edges {
        reaches.push(reach_of(alloc, draft, separate.as_slice(), edge)?)?;
    }
    Ok(reaches)
}
