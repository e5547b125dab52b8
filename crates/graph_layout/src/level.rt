//! One level of a larger graph, drawn by itself.

use crate::lengths::read_whole;
use crate::pipeline::{OneLevel, Placed, place_by_engine};
use elk_json::DocFault;
use graph_draft::{Draft, How, Point, Size};
use label_room::Padding;
use node_labels::{lacks_of, padding_of};
use route_curves::outline_of;
use serde_json::Value;
use std::alloc::{AllocError, Global};
use std::collections::BTreeMap;

const ROOT: usize = 0;

/// A level that is drawn by itself.
#[derive(Drop)]
pub struct DrawnLevel {
    /// The level as the root of a graph. Its labels are those of the level's node.
    pub draft: Draft,
    /// The padding with which it was sent.
    pub padding: Padding,
    /// The least size that its node asks for, which it needn't have yet.
    pub least: Size,
    /// By child the box of the node as it was sent, with its ports: its place and its size.
    pub outlines: Vec<(Point, Size)>,
    /// The certificate of the level as it was sent, if there is one.
    pub layering: Option<Value>,
}

fn outlines_in(alloc: Global, draft: &Draft) -> Result<Vec<(Point, Size)>, AllocError> {
    let mut outlines = Vec::new(alloc);
    for child in draft.children_of(ROOT) {
        outlines.push(outline_of(draft, *child))?;
    }
    Ok(outlines)
}

fn layering_in(draft: &Draft) -> Result<Option<Value>, AllocError> {
    match draft.nodes.get(ROOT) {
        Some(node) => match &node.layering {
            Some(layering) => Ok(Some(layering.clone()?)),
            None => Ok(None),
        },
        None => Ok(None),
    }
}

fn finished(alloc: Global, placed: Placed, least: Size) -> Result<DrawnLevel, DocFault> {
    let padding = padding_of(&placed.draft, ROOT);
    let outlines = outlines_in(alloc, &placed.draft)?;
    let layering = layering_in(&placed.draft)?;
    let (draft, _) = placed.raised(alloc)?;
    Ok(DrawnLevel {
        draft,
        padding,
        least,
        outlines,
        layering,
    })
}

/// Draws the level at the root of a graph. Its own node needn't have the least size that it asks for. Nothing where the graph lacks the
/// form that stages rely on; a graph that can't be drawn is refused by the rule that the engine names.
pub fn draw_level(
    alloc: Global,
    graph: &Value,
    how: &How,
    one: &OneLevel,
) -> Result<Option<DrawnLevel>, DocFault> {
    let Some(draft) = read_whole(alloc, graph, how)? else {
        return Ok(None);
    };
    let mut first = place_by_engine(alloc, draft, &BTreeMap::new(alloc), one)?;
    let least = first.take_least(ROOT);
    let lacks = lacks_of(alloc, &first.draft, first.leasts())?;
    if lacks.is_empty() {
        return Ok(Some(finished(alloc, first, least)?));
    }
    drop(first);
    let Some(draft) = read_whole(alloc, graph, how)? else {
        return Ok(None);
    };
    let mut last = place_by_engine(alloc, draft, &lacks, one)?;
    let least = last.take_least(ROOT);
    Ok(Some(finished(alloc, last, least)?))
}
