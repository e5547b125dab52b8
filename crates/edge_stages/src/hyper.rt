//! An edge of one source and many targets, or the other way round, is sent as an edge for each pair, all from one dock. After the
//! answer it is one edge again, with a tree of sections.

use crate::trees::sections_of;
use graph_draft::{Draft, Element, End, Kind, Mark, Options};
use std::alloc::{AllocError, Global};

// An edge of several ends that was split: it has the first pair, and each edge that was made for it one of the others.
#[derive(Drop)]
struct Split {
    mark: Mark,
    edge: usize,
    stem: Kind,
    made: Vec<usize>,
}

/// The edges of several ends that were split.
#[derive(Drop)]
pub struct Hyperedges {
    splits: Vec<Split>,
}

// The end at which an edge has one element, if it has several at the other: that end, and these.
fn ends_in(
    alloc: Global,
    draft: &Draft,
    edge: usize,
) -> Result<Option<(Kind, End, Vec<End>)>, AllocError> {
    let edge = match draft.edges.get(edge) {
        Some(edge) => edge,
        None => return Ok(None),
    };
    match (edge.sources.as_slice(), edge.targets.as_slice()) {
        ([stem], [_, _, ..]) => {
            let twigs = Vec::from_slice(alloc, edge.targets.as_slice())?;
            Ok(Some((Kind::Source, *stem, twigs)))
        }
        ([_, _, ..], [stem]) => {
            let twigs = Vec::from_slice(alloc, edge.sources.as_slice())?;
            Ok(Some((Kind::Target, *stem, twigs)))
        }
        _ => Ok(None),
    }
}

// The source and the target of an edge between the stem and one of the other ends.
fn pair_of(stem: Kind, dock: End, twig: End) -> (End, End) {
    match stem {
        Kind::Source => (dock, twig),
        Kind::Target => (twig, dock),
    }
}

/// A copy of the options of an edge, for the edges into which it is parted.
pub fn copied_options(alloc: Global, draft: &Draft, edge: usize) -> Result<Options, AllocError> {
    match draft.edges.get(edge) {
        Some(edge) => edge.options.copy(alloc),
        None => Ok(Options::none(alloc)),
    }
}

fn split_edge(
    alloc: Global,
    draft: &mut Draft,
    edge: usize,
    (stem, end, twigs): (Kind, End, Vec<End>),
) -> Result<Split, AllocError> {
    let home = match draft.edges.get(edge) {
        Some(edge) => edge.home,
        None => 0,
    };
    let dock = draft.dock_of(alloc, end)?;
    let mut made = Vec::new(alloc);
    for (at, twig) in twigs.iter().enumerate() {
        let (source, target) = pair_of(stem, dock, *twig);
        if at == 0 {
            draft.change_ends(alloc, edge, source, target)?;
        } else {
            let options = copied_options(alloc, draft, edge)?;
            let pair = draft.add_edge(alloc, home, source, target, options)?;
            draft.set_owner(Element::Edge(pair), Element::Edge(edge));
            made.push(pair)?;
        }
    }
    if let Some(level) = draft.parent_of(end.node) {
        draft.alter(level);
    }
    Ok(Split {
        mark: draft.mark(),
        edge,
        stem,
        made,
    })
}

/// Splits edges of one source and many targets, or the other way round.
pub fn split_hyperedges(alloc: Global, draft: &mut Draft) -> Result<Hyperedges, AllocError> {
    let mut splits = Vec::new(alloc);
    for edge in 0..draft.given_edges {
        if let Some(ends) = ends_in(alloc, draft, edge)? {
            splits.push(split_edge(alloc, draft, edge, ends)?)?;
        }
    }
    Ok(Hyperedges { splits })
}

fn join(alloc: Global, draft: &mut Draft, split: Split) -> Result<(), AllocError> {
    draft.undo_to(split.mark)?;
    let mut routes = vec![in alloc; draft.copy_of_route(alloc, split.edge)?]?;
    for edge in split.made.iter() {
        routes.push(draft.copy_of_route(alloc, *edge)?)?;
    }
    let sections = sections_of(alloc, routes, split.stem)?;
    if let Some(edge) = draft.edges.get_mut(split.edge) {
        if !sections.is_empty() {
            edge.sections = sections;
        }
    }
    Ok(())
}

/// Makes one edge again of the edges into which each was split.
pub fn join_hyperedges(
    alloc: Global,
    draft: &mut Draft,
    hyperedges: Hyperedges,
) -> Result<(), AllocError> {
    let Hyperedges { mut splits } = hyperedges;
    splits.reverse();
    for split in splits {
        join(alloc, draft, split)?;
    }
    Ok(())
}
