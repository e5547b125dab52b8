//! Bars that stand where one rank ends and the next begins.

use crate::parts::{Part, PartNode};
use crate::ranks::{FIRST, FIRST_PARTITION};
use std::alloc::{AllocError, Global};

pub(crate) const DEAREST: f64 = 1048576.0;

// A bar between two ranks.
#[derive(Clone, Copy, Debug, Drop)]
pub(crate) struct Bar {
    before: usize,
    behind: usize,
    // Whether it stands between a constraint and all other nodes, and not between two partitions.
    is_outer: bool,
}

// An arc to a bar or from it, by places in the part. Bars stand behind the nodes.
#[derive(Clone, Copy, Drop)]
pub(crate) struct BarArc {
    pub(crate) tail: usize,
    pub(crate) head: usize,
    pub(crate) weight: f64,
}

// The ranks of a part, in ascending order.
fn ranks_in(alloc: Global, part: &Part) -> Result<Vec<usize>, AllocError> {
    let mut ranks = Vec::new(alloc);
    for node in part.nodes.iter() {
        if let Some(rank) = node.rank {
            ranks.push(rank)?;
        }
    }
    ranks.sort()?;
    Ok(ranks)
}

fn push_outer(bars: &mut Vec<Bar>, before: usize, is_there: bool) -> Result<(), AllocError> {
    if is_there {
        bars.push(Bar {
            before,
            behind: before.saturating_add(1),
            is_outer: true,
        })?;
    }
    Ok(())
}

// The bars of a part: between borders, separate layers, partitions and all the rest.
pub(crate) fn bars_of(alloc: Global, part: &Part) -> Result<Vec<Bar>, AllocError> {
    let ranks = ranks_in(alloc, part)?;
    let last = part.last;
    let least = ranks.first().copied().unwrap_or(FIRST_PARTITION);
    let most = ranks.last().copied().unwrap_or(FIRST_PARTITION);
    let mut bars = Vec::new(alloc);
    push_outer(&mut bars, 0, least == 0)?;
    push_outer(&mut bars, FIRST.saturating_sub(1), least <= FIRST)?;
    let mut partition = None;
    for rank in ranks.iter() {
        if *rank > FIRST && *rank < last {
            match partition {
                Some(before) if before != *rank => bars.push(Bar {
                    before,
                    behind: *rank,
                    is_outer: false,
                })?,
                _ => {}
            }
            partition = Some(*rank);
        }
    }
    push_outer(&mut bars, last, most >= last)?;
    let separate = last.saturating_add(1);
    push_outer(&mut bars, separate, most > separate)?;
    Ok(bars)
}

// A child without a rank stands between those of FIRST and LAST, and a leaf that was made for labels where its edge leads it.
fn is_before(bar: Bar, node: &PartNode) -> bool {
    match node.rank {
        _ if node.is_made => false,
        rank if bar.is_outer => rank.unwrap_or(FIRST_PARTITION) <= bar.before,
        rank => rank == Some(bar.before),
    }
}

fn is_behind(bar: Bar, node: &PartNode) -> bool {
    match node.rank {
        _ if node.is_made => false,
        rank if bar.is_outer => rank.unwrap_or(FIRST_PARTITION) >= bar.behind,
        rank => rank == Some(bar.behind),
    }
}

// Which nodes stand before a bar, and which behind it.
fn sides_of(alloc: Global, part: &Part, bar: Bar) -> Result<(Vec<bool>, Vec<bool>), AllocError> {
    let (mut before, mut behind) = (Vec::new(alloc), Vec::new(alloc));
    for node in part.nodes.iter() {
        before.push(is_before(bar, node))?;
        behind.push(is_behind(bar, node))?;
    }
    Ok((before, behind))
}

fn is_told(flags: &[bool], at: usize) -> bool {
    flags.get(at).copied().unwrap_or(false)
}

fn clear(flags: &mut [bool], at: usize) {
    if let Some(flag) = flags.get_mut(at) {
        *flag = false;
    }
}

// The nodes before a bar that lead to none of these, and the nodes behind it to which none of these leads.
fn ends_at(
    alloc: Global,
    part: &Part,
    before: &[bool],
    behind: &[bool],
) -> Result<(Vec<bool>, Vec<bool>), AllocError> {
    let mut into = Vec::from_slice(alloc, before)?;
    let mut from = Vec::from_slice(alloc, behind)?;
    for arc in part.arcs.iter() {
        if is_told(before, arc.tail) && is_told(before, arc.head) {
            clear(into.as_mut_slice(), arc.tail);
        }
        if is_told(behind, arc.tail) && is_told(behind, arc.head) {
            clear(from.as_mut_slice(), arc.head);
        }
    }
    Ok((into, from))
}

fn weight_of(is_firm: bool) -> f64 {
    if is_firm { DEAREST } else { 1.0 }
}

// Adds the arcs of a bar. FIRST and LAST are bound to it as firmly as can be.
pub(crate) fn add_arcs(
    alloc: Global,
    arcs: &mut Vec<BarArc>,
    part: &Part,
    bar: Bar,
    number: usize,
) -> Result<(), AllocError> {
    let (before, behind) = sides_of(alloc, part, bar)?;
    let (into, from) = ends_at(alloc, part, before.as_slice(), behind.as_slice())?;
    for (tail, node) in part.nodes.iter().enumerate() {
        let is_last = bar.before == part.last && node.rank == Some(part.last);
        if is_last || is_told(into.as_slice(), tail) {
            let weight = weight_of(is_last);
            let head = number;
            arcs.push(BarArc { tail, head, weight })?;
        }
    }
    for (head, node) in part.nodes.iter().enumerate() {
        let is_first = bar.behind == FIRST && node.rank == Some(FIRST);
        if is_first || is_told(from.as_slice(), head) {
            let weight = weight_of(is_first);
            let tail = number;
            arcs.push(BarArc { tail, head, weight })?;
        }
    }
    Ok(())
}
