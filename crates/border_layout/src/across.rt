//! The layout of a graph whose edges cross borders of levels.

use crate::drawings::{Drawings, ROOT};
use crate::layout::Layout;
use crate::search::{improve, search};
use crate::writing::write_drawing;
use border_levels::{Model, model_of};
use elk_json::DocFault;
use graph_draft::{Draft, How, number_said};
use serde_json::Value;
use std::alloc::{AllocError, Global};
use std::collections::BTreeMap;

// How much the search may lay out for each step of layered.effort: nodes and pieces of edges, in all calls.
const WORK: f64 = 150.0;

const USUAL_EFFORT: f64 = 7.0;

fn effort_of(alloc: Global, draft: &Draft) -> Result<f64, AllocError> {
    let asked = draft.sent_option(alloc, ROOT, "layered.effort")?;
    Ok(number_said(asked.as_ref()).unwrap_or(USUAL_EFFORT))
}

// The levels of a model as they are drawn, and where each crossing of the root's border lies along its side.
fn drawings_of(
    alloc: Global,
    model: &Model,
    how: &How,
) -> Result<(Drawings, BTreeMap<usize, f64>), DocFault> {
    let mut layout = Layout::new(alloc, model, how)?;
    layout.up(alloc)?;
    if model.levels.len() > 1 {
        improve(alloc, &mut layout)?;
    }
    let effort = effort_of(alloc, &model.draft)?;
    search(alloc, &mut layout, WORK * effort)?;
    Ok(layout.ended(alloc))
}

/// Draws a graph with edges that cross borders of levels. Nothing where no edge does, where one that does isn't drawn, or where the graph
/// lacks the form that stages rely on.
///
/// The draft has the places of nodes, ports and labels, and the routes of edges. Junctions and other coordinates are for the caller to
/// add. A level that can't be drawn is refused by the rule that the engine names.
pub fn draw_across(alloc: Global, graph: &Value, how: &How) -> Result<Option<Draft>, DocFault> {
    let Some(mut model) = model_of(alloc, graph, how)? else {
        return Ok(None);
    };
    let (drawings, pins) = drawings_of(alloc, &model, how)?;
    write_drawing(alloc, &mut model, &drawings, &pins)?;
    let Model { draft, .. } = model;
    Ok(Some(draft))
}
