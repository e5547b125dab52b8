//! Which levels ask for layers.

use crate::parts::SPLIT;
use crate::ranks::{AskedRanks, Border, is_partitioned, ranks_of};
use edge_stages::levels_of;
use graph_draft::{Draft, Element};
use serde_json::Value;
use std::alloc::{AllocError, Global};
use std::collections::BTreeMap;

// Asks that a level with partitions is laid out as a whole, so that they hold for all of its parts, unless it asks for separate parts
// itself.
fn keep_whole(draft: &mut Draft, level: usize) -> Result<(), AllocError> {
    if is_partitioned(draft, level) && draft.option(Element::Node(level), SPLIT).is_none() {
        draft.ask(Element::Node(level), SPLIT, Value::Bool(false))?;
    }
    Ok(())
}

/// The ranks of the children of all levels that ask for layers. `borders` has the leaves that stand for the border of their level, by
/// their numbers. It is called before any node is made in the draft.
pub fn ask_for_layers(
    alloc: Global,
    draft: &mut Draft,
    borders: &BTreeMap<usize, Border>,
) -> Result<AskedRanks, AllocError> {
    let mut asked = BTreeMap::new(alloc);
    for level in levels_of(alloc, draft)?.iter() {
        if let Some(ranks) = ranks_of(alloc, draft, *level, borders)? {
            asked.insert(*level, ranks)?;
            keep_whole(draft, *level)?;
        }
    }
    Ok(asked)
}
