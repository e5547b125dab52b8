//! The stages of a layout, in their order.

use crate::labels::{Kinds, Labels, make_room, needs_room, place_labels};
use crate::pipeline::OneLevel;
use edge_stages::{
    Hyperedges, Insets, Turns, draw_insets, join_hyperedges, keep_places, levels_of, merge_ends,
    merging_levels, move_insets, share_options, split_hyperedges, turn_again, turn_edges,
};
use graph_draft::{Draft, Size};
use layer_stages::{
    AskedRanks, Border, BoundLayers, SoughtLayers, ask_for_layers, bind_layers, edges_against,
    seek_layers, unbind_layers,
};
use node_labels::{Lacks, keep_outside};
use route_curves::{Curves, ask_for_curves, draw_curves, measure_gaps};
use serde_json::Value;
use std::alloc::{AllocError, Global};
use std::collections::{BTreeMap, BTreeSet};

/// What the stages did.
#[derive(Drop)]
pub(crate) struct Deeds {
    curves: Curves,
    hyperedges: Hyperedges,
    insets: Insets,
    turns: Turns,
    labels: Option<Labels>,
    bound: Option<BoundLayers>,
    /// The ranks of the levels that ask for layers.
    pub(crate) ranks: AskedRanks,
    /// The least sizes that levels ask for, by their nodes' numbers.
    pub(crate) leasts: BTreeMap<usize, Size>,
}

// Turns the edges that close cycles or run against the layers that are asked for, where stages rely on an order of the nodes, and merges
// ends.
fn order_edges(
    alloc: Global,
    draft: &mut Draft,
    ranks: &AskedRanks,
    has_labels: bool,
) -> Result<Turns, AllocError> {
    let merging = merging_levels(alloc, draft)?;
    let mut levels = if has_labels {
        levels_of(alloc, draft)?
    } else {
        BTreeSet::new(alloc)
    };
    for level in merging.iter() {
        levels.insert(*level)?;
    }
    for (level, _) in ranks.iter() {
        levels.insert(*level)?;
    }
    let against = edges_against(alloc, draft, &levels, ranks)?;
    let turns = turn_edges(alloc, draft, against)?;
    merge_ends(alloc, draft, &merging)?;
    Ok(turns)
}

const ROOT: usize = 0;

// The leaves that stand for the border of the outermost level, by their numbers.
fn ends_in(
    alloc: Global,
    draft: &Draft,
    one: &OneLevel,
) -> Result<BTreeMap<usize, Border>, AllocError> {
    let mut ends = BTreeMap::new(alloc);
    for (at, border) in one.ends.iter() {
        if let Some(child) = draft.children_of(ROOT).get(*at) {
            ends.insert(*child, *border)?;
        }
    }
    Ok(ends)
}

// The edges of the outermost level whose labels stay in their layers, by their numbers.
fn still_in(alloc: Global, draft: &Draft, one: &OneLevel) -> Result<BTreeSet<usize>, AllocError> {
    let mut still = BTreeSet::new(alloc);
    for at in one.still.iter() {
        if let Some(edge) = draft.edges_of(ROOT).get(*at) {
            still.insert(*edge)?;
        }
    }
    Ok(still)
}

/// Rewrites a draft for the engine. `lacks` tells what nodes lacked when they were laid out before.
pub(crate) fn lower(
    alloc: Global,
    draft: &mut Draft,
    lacks: &Lacks,
    one: &OneLevel,
) -> Result<Deeds, AllocError> {
    let ends = ends_in(alloc, draft, one)?;
    let still = still_in(alloc, draft, one)?;
    share_options(alloc, draft)?;
    keep_places(alloc, draft)?;
    let curves = ask_for_curves(alloc, draft)?;
    let hyperedges = split_hyperedges(alloc, draft)?;
    let insets = move_insets(alloc, draft)?;
    let has_labels = needs_room(draft);
    let ranks = ask_for_layers(alloc, draft, &ends)?;
    let turns = order_edges(alloc, draft, &ranks, has_labels)?;
    let (labels, leasts) = if has_labels {
        let curved = curves.levels(alloc)?;
        let kinds = Kinds {
            turned: turns.turned(),
            curved: &curved,
            still: &still,
            insets: &insets,
        };
        let (labels, leasts) = make_room(alloc, draft, lacks, kinds)?;
        (Some(labels), leasts)
    } else {
        (None, BTreeMap::new(alloc))
    };
    Ok(Deeds {
        curves,
        hyperedges,
        insets,
        turns,
        labels,
        bound: None,
        ranks,
        leasts,
    })
}

impl Deeds {
    /// The layers that are to be found before the engine places the draft.
    pub(crate) fn sought(&self, alloc: Global, draft: &Draft) -> Result<SoughtLayers, AllocError> {
        seek_layers(alloc, draft, &self.ranks)
    }

    /// Binds nodes to the layers that stand in an answer.
    pub(crate) fn bind(
        &mut self,
        alloc: Global,
        draft: &mut Draft,
        sought: &SoughtLayers,
        answer: &Value,
    ) -> Result<(), AllocError> {
        self.bound = Some(bind_layers(alloc, draft, sought, answer)?);
        Ok(())
    }
}

/// Puts a placed draft right, the last stage first.
pub(crate) fn raise(alloc: Global, draft: &mut Draft, deeds: Deeds) -> Result<(), AllocError> {
    let Deeds {
        mut curves,
        hyperedges,
        insets,
        turns,
        labels,
        bound,
        ..
    } = deeds;
    if let Some(bound) = bound {
        unbind_layers(alloc, draft, bound)?;
    }
    measure_gaps(alloc, draft, &mut curves)?;
    if let Some(labels) = labels {
        place_labels(alloc, draft, labels)?;
    }
    turn_again(alloc, draft, turns)?;
    let moves = draw_insets(alloc, draft, insets)?;
    keep_outside(alloc, draft, moves)?;
    join_hyperedges(alloc, draft, hyperedges)?;
    draw_curves(alloc, draft, curves)
}
