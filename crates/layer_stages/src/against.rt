//! The edges that run against the ranks that are asked for, or close cycles.

use crate::arcs::{LevelArc, arcs_in};
use crate::ranks::{AskedRanks, FIRST_PARTITION, Ranks};
use edge_stages::{Arc, back_arcs};
use graph_draft::Draft;
use std::alloc::{AllocError, Global};
use std::collections::{BTreeMap, BTreeSet};

fn heads_of(alloc: Global, count: usize, arcs: &[LevelArc]) -> Result<Vec<Vec<usize>>, AllocError> {
    let mut heads: Vec<Vec<usize>> = Vec::new(alloc);
    for _ in 0..count {
        heads.push(Vec::new(alloc))?;
    }
    for arc in arcs {
        if let Some(list) = heads.get_mut(arc.tail) {
            list.push(arc.head)?;
        }
    }
    Ok(heads)
}

// Gives a rank to all children without one to which arcs lead from a child.
fn spread(
    alloc: Global,
    full: &mut Vec<Option<usize>>,
    heads: &[Vec<usize>],
    from: usize,
    rank: usize,
) -> Result<(), AllocError> {
    let mut waiting = vec![in alloc; from]?;
    for _ in 0..usize::MAX {
        let node = match waiting.pop() {
            Some(node) => node,
            None => break,
        };
        if let Some(list) = heads.get(node) {
            for head in list.iter() {
                if let Some(open) = full.get_mut(*head) {
                    if open.is_none() {
                        *open = Some(rank);
                        waiting.push(*head)?;
                    }
                }
            }
        }
    }
    Ok(())
}

// Ranks for all: a child that has none is taken to stand in the last partition from which edges lead to it.
fn full_ranks(
    alloc: Global,
    ranks: &Ranks,
    count: usize,
    arcs: &[LevelArc],
) -> Result<Vec<usize>, AllocError> {
    let heads = heads_of(alloc, count, arcs)?;
    let mut full = Vec::new(alloc);
    let mut starts = Vec::new(alloc);
    for at in 0..count {
        let rank = ranks.at(at);
        full.push(rank)?;
        match rank {
            Some(rank) if FIRST_PARTITION <= rank && rank < ranks.last => {
                starts.push((rank, at))?;
            }
            _ => {}
        }
    }
    starts.sort()?;
    for (rank, at) in starts.iter().rev() {
        spread(alloc, &mut full, heads.as_slice(), *at, *rank)?;
    }
    let mut all = Vec::new(alloc);
    for rank in full {
        all.push(rank.unwrap_or(FIRST_PARTITION))?;
    }
    Ok(all)
}

// The arcs that close cycles, of those that join children of one rank.
fn edges_back(
    alloc: Global,
    count: usize,
    arcs: &[LevelArc],
    full: &[usize],
) -> Result<BTreeSet<usize>, AllocError> {
    let mut edges = Vec::new(alloc);
    let mut within = Vec::new(alloc);
    for arc in arcs {
        if full.get(arc.tail) == full.get(arc.head) {
            edges.push(arc.edge)?;
            within.push(Arc {
                tail: arc.tail,
                head: arc.head,
            })?;
        }
    }
    let mut back = BTreeSet::new(alloc);
    for at in back_arcs(alloc, count, within.as_slice())? {
        if let Some(edge) = edges.get(at) {
            back.insert(*edge)?;
        }
    }
    Ok(back)
}

/// The edges of a level to turn round, by the numbers in its arcs: those that run against the ranks, and those that close cycles within
/// one rank. `count` is the number of its children. Without ranks all children are of one.
pub fn arcs_against(
    alloc: Global,
    count: usize,
    arcs: &[LevelArc],
    ranks: Option<&Ranks>,
) -> Result<Vec<usize>, AllocError> {
    let full = match ranks {
        Some(ranks) => full_ranks(alloc, ranks, count, arcs)?,
        None => vec![in alloc; 0; count]?,
    };
    let back = edges_back(alloc, count, arcs, full.as_slice())?;
    let mut edges = Vec::new(alloc);
    for arc in arcs {
        if full.get(arc.tail) > full.get(arc.head) || back.contains(&arc.edge) {
            edges.push(arc.edge)?;
        }
    }
    Ok(edges)
}

/// The edges of some levels to turn round, by the levels' numbers: those that run against the ranks that the levels ask for, and those
/// that close cycles within one rank.
pub fn edges_against(
    alloc: Global,
    draft: &Draft,
    levels: &BTreeSet<usize>,
    ranks: &AskedRanks,
) -> Result<BTreeMap<usize, Vec<usize>>, AllocError> {
    let mut against = BTreeMap::new(alloc);
    for (level, arcs) in arcs_in(alloc, draft, levels)?.iter() {
        let count = draft.children_of(*level).len();
        let edges = arcs_against(alloc, count, arcs.as_slice(), ranks.get(level))?;
        against.insert(*level, edges)?;
    }
    Ok(against)
}
