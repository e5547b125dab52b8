//! The parts of levels that are laid out together.

use crate::arcs::{LevelArc, arcs_in};
use crate::ranks::{AskedRanks, FIRST, Ranks};
use disjoint_sets::DisjointSets;
use graph_draft::{Draft, Element, says};
use std::alloc::{AllocError, Global};
use std::collections::{BTreeMap, BTreeSet};

pub(crate) const SPLIT: &str = "separateConnectedComponents";

pub(crate) const SHORTNESS: &str = "layered.priority.shortness";

// A child of a level.
#[derive(Clone, Copy, Debug, Drop)]
pub(crate) struct PartNode {
    pub(crate) node: usize,
    pub(crate) rank: Option<usize>,
    // Whether it was made for labels.
    pub(crate) is_made: bool,
}

// An edge between two nodes of a part, by their places there.
#[derive(Clone, Copy, Drop)]
pub(crate) struct PartArc {
    pub(crate) edge: usize,
    pub(crate) tail: usize,
    pub(crate) head: usize,
    pub(crate) weight: f64,
}

// The children of a level that are laid out together, with the edges between them.
#[derive(Drop)]
pub(crate) struct Part {
    pub(crate) level: usize,
    // The rank of the constraint LAST.
    pub(crate) last: usize,
    pub(crate) nodes: Vec<PartNode>,
    pub(crate) arcs: Vec<PartArc>,
}

impl Part {
    fn is_bound(&self) -> bool {
        // A level of several partitions binds all of its parts.
        self.last > FIRST.saturating_add(2)
            || self.nodes.iter().any(|node| match node.rank {
                Some(rank) => rank <= FIRST || rank >= self.last,
                None => false,
            })
    }
}

// For each child of a level the number of its part.
fn numbers_of(
    alloc: Global,
    draft: &Draft,
    level: usize,
    arcs: &[LevelArc],
) -> Result<Vec<usize>, AllocError> {
    let count = draft.children_of(level).len();
    if !says(draft.sent_option(alloc, level, SPLIT)?.as_ref(), "TRUE") {
        return vec![in alloc; 0; count];
    }
    let mut sets = DisjointSets::singletons(alloc, count)?;
    for arc in arcs {
        sets.join(arc.tail, arc.head);
    }
    let mut known = BTreeMap::new(alloc);
    let mut numbers = Vec::new(alloc);
    for at in 0..count {
        let key = sets.find(at);
        let number = match known.get(&key) {
            Some(number) => *number,
            None => known.len(),
        };
        known.insert(key, number)?;
        numbers.push(number)?;
    }
    Ok(numbers)
}

// The part of a number, which is made if it comes next.
fn part_at(
    alloc: Global,
    parts: &mut Vec<Part>,
    number: usize,
    (level, last): (usize, usize),
) -> Result<Option<&mut Part>, AllocError> {
    if number == parts.len() {
        parts.push(Part {
            level,
            last,
            nodes: Vec::new(alloc),
            arcs: Vec::new(alloc),
        })?;
    }
    Ok(parts.get_mut(number))
}

// All parts of a level.
fn all_parts_of(
    alloc: Global,
    draft: &Draft,
    level: usize,
    ranks: &Ranks,
    arcs: &[LevelArc],
) -> Result<Vec<Part>, AllocError> {
    let numbers = numbers_of(alloc, draft, level, arcs)?;
    let mut parts = Vec::new(alloc);
    let mut places = Vec::new(alloc);
    for (at, (node, number)) in draft
        .children_of(level)
        .iter()
        .zip(numbers.iter())
        .enumerate()
    {
        if let Some(part) = part_at(alloc, &mut parts, *number, (level, ranks.last))? {
            places.push(part.nodes.len())?;
            part.nodes.push(PartNode {
                node: *node,
                rank: ranks.at(at),
                is_made: at >= ranks.of.len(),
            })?;
        }
    }
    let place_of = |at: usize| places.get(at).copied().unwrap_or(0);
    for arc in arcs {
        let number = numbers.get(arc.tail).copied().unwrap_or(0);
        if let Some(part) = parts.get_mut(number) {
            part.arcs.push(PartArc {
                edge: arc.edge,
                tail: place_of(arc.tail),
                head: place_of(arc.head),
                weight: draft
                    .number(Element::Edge(arc.edge), SHORTNESS, 0.0)
                    .max(1.0),
            })?;
        }
    }
    Ok(parts)
}

// The parts of levels in which something is bound to layers.
pub(crate) fn bound_parts(
    alloc: Global,
    draft: &Draft,
    ranks: &AskedRanks,
) -> Result<Vec<Part>, AllocError> {
    let mut levels = BTreeSet::new(alloc);
    for (level, _) in ranks.iter() {
        levels.insert(*level)?;
    }
    let mut bound = Vec::new(alloc);
    for (level, arcs) in arcs_in(alloc, draft, &levels)?.iter() {
        if let Some(ranks) = ranks.get(level) {
            for part in all_parts_of(alloc, draft, *level, ranks, arcs.as_slice())? {
                if part.is_bound() {
                    bound.push(part)?;
                }
            }
        }
    }
    Ok(bound)
}
