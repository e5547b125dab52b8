//! Edges without ports that leave a node share one dock, and so do those that enter it, if their level asks for it.

use graph_draft::{Draft, Element, End, Kind, joined_edges};
use std::alloc::{AllocError, Global};
use std::collections::{BTreeMap, BTreeSet};

/// The nodes that have children.
pub fn levels_of(alloc: Global, draft: &Draft) -> Result<BTreeSet<usize>, AllocError> {
    let mut levels = BTreeSet::new(alloc);
    for level in 0..draft.given_nodes {
        if !draft.children_of(level).is_empty() {
            levels.insert(level)?;
        }
    }
    Ok(levels)
}

/// The levels whose edges are merged.
pub fn merging_levels(alloc: Global, draft: &Draft) -> Result<BTreeSet<usize>, AllocError> {
    let mut merging = BTreeSet::new(alloc);
    for level in levels_of(alloc, draft)?.iter() {
        if draft.asks(Element::Node(*level), "layered.mergeEdges", "TRUE") {
            merging.insert(*level)?;
        }
    }
    Ok(merging)
}

// The docks that were made, by their nodes; nothing where none can be made.
#[derive(Drop)]
struct Docks {
    of_sources: BTreeMap<usize, Option<End>>,
    of_targets: BTreeMap<usize, Option<End>>,
}

impl Docks {
    // The dock for an end of one kind; the end as it is where it names a port, or where no dock can be made.
    fn dock_of(
        &mut self,
        alloc: Global,
        draft: &mut Draft,
        end: End,
        kind: Kind,
    ) -> Result<End, AllocError> {
        if end.port.is_some() {
            return Ok(end);
        }
        let made = match kind {
            Kind::Source => &mut self.of_sources,
            Kind::Target => &mut self.of_targets,
        };
        if let Some(dock) = made.get(&end.node) {
            return Ok(dock.unwrap_or(end));
        }
        let dock = draft.dock_at(alloc, end.node)?;
        made.insert(end.node, dock)?;
        Ok(dock.unwrap_or(end))
    }
}

/// Leads the edges of some levels to docks that they share.
pub fn merge_ends(
    alloc: Global,
    draft: &mut Draft,
    levels: &BTreeSet<usize>,
) -> Result<(), AllocError> {
    if levels.is_empty() {
        return Ok(());
    }
    let mut docks = Docks {
        of_sources: BTreeMap::new(alloc),
        of_targets: BTreeMap::new(alloc),
    };
    for joined in joined_edges(alloc, draft)? {
        if levels.contains(&joined.level) && !joined.is_loop() {
            let source = docks.dock_of(alloc, draft, joined.source, Kind::Source)?;
            let target = docks.dock_of(alloc, draft, joined.target, Kind::Target)?;
            draft.change_ends(alloc, joined.edge, source, target)?;
        }
    }
    Ok(())
}
