//! Edges in pairs of ends.

use crate::ways::{Way, way_of};
use graph_draft::{Draft, Edge, End, Kind};
use std::alloc::{AllocError, Global};

/// What a line at a node's side belongs to.
#[derive(Clone, Copy, Debug, Drop, PartialEq, Eq, PartialOrd, Ord)]
pub enum Dock {
    /// A declared port of the draft.
    Port(usize),
    /// The common end of an edge of several ends, by the edge's number in the draft.
    Stem(usize),
    /// One end of one pair, and whether that is its source.
    End(usize, bool),
    /// All merged ends of one kind at a node, and whether their pieces leave it.
    Merged(usize, bool),
}

/// An end of a pair.
#[derive(Clone, Copy, Debug, Drop)]
pub struct PairEnd {
    pub node: usize,
    pub port: Option<usize>,
    pub dock: Dock,
    /// Whether the other pairs of the edge have this end as well.
    pub is_shared: bool,
}

/// One source and one target of an edge.
#[derive(Drop)]
pub struct Pair {
    /// The edge of the draft.
    pub edge: usize,
    /// Which pair of the edge it is.
    pub at: usize,
    /// The end that all pairs of an edge of several ends share.
    pub stem: Option<Kind>,
    /// Which of the edge's sources it has.
    pub source_at: usize,
    /// Which of the edge's targets it has.
    pub target_at: usize,
    pub source: PairEnd,
    pub target: PairEnd,
    /// The node to whose content it belongs.
    pub level: usize,
    /// The nodes from its source up to its level, which is left out. None if the level is its source.
    pub up: Vec<usize>,
    /// The nodes from its target up to its level, which is left out. None if the level is its target.
    pub down: Vec<usize>,
    /// Whether it is turned round at its level.
    pub is_turned: bool,
    /// Its pieces, from its source to its target; none if its level isn't open.
    pub pieces: Vec<Step>,
    /// The labels of its edge, if it is the first pair.
    pub labels: Vec<PieceLabel>,
}

/// A piece on the way of a pair.
#[derive(Clone, Copy, Debug, Drop)]
pub struct Step {
    pub piece: usize,
    /// Whether the piece is sent from the pair's target to its source.
    pub is_flipped: bool,
}

/// A label of an edge, with the piece with which it is sent, and its place among the labels of that piece.
#[derive(Clone, Copy, Debug, Drop)]
pub struct PieceLabel {
    pub label: usize,
    pub piece: usize,
    pub at: usize,
}

impl Pair {
    /// Whether it crosses a border.
    pub fn is_across(&self) -> bool {
        self.up.len() != 1 || self.down.len() != 1
    }

    /// Whether it leads from a node to itself.
    pub fn is_loop(&self) -> bool {
        self.source.node == self.target.node
    }
}

fn stem_of(edge: &Edge) -> Option<Kind> {
    if edge.sources.len() > 1 {
        Some(Kind::Target)
    } else if edge.targets.len() > 1 {
        Some(Kind::Source)
    } else {
        None
    }
}

// An end of an edge as that of a pair.
fn end_of(end: End, kind: Kind, stem: Option<Kind>, edge: usize, pair: usize) -> PairEnd {
    let End { node, port } = end;
    let is_shared = stem == Some(kind);
    let dock = match port {
        Some(port) => Dock::Port(port),
        None if is_shared => Dock::Stem(edge),
        None => Dock::End(pair, kind == Kind::Source),
    };
    PairEnd {
        node,
        port,
        dock,
        is_shared,
    }
}

// Adds the pair of one source and one target of an edge, each with its place among the edge's ends.
fn add_pair(
    alloc: Global,
    draft: &Draft,
    pairs: &mut Vec<Pair>,
    (number, edge): (usize, &Edge),
    (source_at, source): (usize, End),
    (target_at, target): (usize, End),
) -> Result<(), AllocError> {
    let (stem, pair) = (stem_of(edge), pairs.len());
    if let Some(way) = way_of(alloc, draft, source.node, target.node)? {
        let Way { level, up, down } = way;
        let before = source_at.saturating_mul(edge.targets.len());
        pairs.push(Pair {
            edge: number,
            at: before.saturating_add(target_at),
            stem,
            source_at,
            target_at,
            source: end_of(source, Kind::Source, stem, number, pair),
            target: end_of(target, Kind::Target, stem, number, pair),
            level,
            up,
            down,
            is_turned: false,
            pieces: Vec::new(alloc),
            labels: Vec::new(alloc),
        })?;
    }
    Ok(())
}

/// The pairs of all edges, in document order. An edge of several ends is a pair for each. Pairs share the dock of their common end.
pub(crate) fn pairs_of(alloc: Global, draft: &Draft) -> Result<Vec<Pair>, AllocError> {
    let mut pairs = Vec::new(alloc);
    for (number, edge) in draft.edges.iter().take(draft.given_edges).enumerate() {
        for (source_at, source) in edge.sources.iter().enumerate() {
            for (target_at, target) in edge.targets.iter().enumerate() {
                let (source, target) = ((source_at, *source), (target_at, *target));
                add_pair(alloc, draft, &mut pairs, (number, edge), source, target)?;
            }
        }
    }
    Ok(pairs)
}
