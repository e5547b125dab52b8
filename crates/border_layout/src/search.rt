//! The search for better orders of borders: from the outside in, and then node by node, by laying out the node and those around it anew.

use crate::costs::Cost;
use crate::layout::Layout;
use elk_json::DocFault;
use std::alloc::{AllocError, Global};
use std::num::nearest_usize_to_f64;

// How many times orders are looked for from the outside in, after which all is laid out anew.
const ROUNDS: usize = 2;

/// Looks for the orders of all borders from the outside in, and keeps the best drawing.
pub(crate) fn improve(alloc: Global, layout: &mut Layout<'_>) -> Result<(), DocFault> {
    let mut last = layout.cost(alloc)?;
    let (mut least, mut best) = (last, layout.state(alloc)?);
    for _ in 0..ROUNDS {
        layout.down(alloc)?;
        layout.up(alloc)?;
        let cost = layout.cost(alloc)?;
        if cost < least {
            least = cost;
            best = layout.state(alloc)?;
        }
        if cost == last {
            break;
        }
        last = cost;
    }
    layout.restore(best);
    Ok(())
}

// What is tried with the border of a node.
#[derive(Clone, Copy, Drop)]
enum Trial {
    // The order that the level around wants while all others stay.
    AsWanted(usize),
    // The order that its own level finds by itself.
    AsFound,
}

// The nodes whose borders several edges cross, each with the level around it.
fn crossed_nodes(alloc: Global, layout: &Layout<'_>) -> Result<Vec<(usize, usize)>, AllocError> {
    let model = layout.model;
    let mut nodes = Vec::new(alloc);
    for level in model.levels.iter() {
        if let Some(parent) = model.draft.parent_of(*level) {
            if model.crossings_of(*level).len() > 1 {
                nodes.push((*level, parent))?;
            }
        }
    }
    Ok(nodes)
}

// The cost of a drawing with another order at the border of a node, or else the least so far. An order that makes nothing better is
// undone.
fn tried(
    alloc: Global,
    layout: &mut Layout<'_>,
    node: usize,
    trial: Trial,
    least: Cost,
) -> Result<Cost, DocFault> {
    let before = layout.state(alloc)?;
    match trial {
        Trial::AsWanted(level) => layout.order(alloc, level, Some(node))?,
        Trial::AsFound => layout.forget_order(node),
    }
    layout.up_from(alloc, node)?;
    let cost = layout.cost(alloc)?;
    if cost < least {
        return Ok(cost);
    }
    layout.restore(before);
    Ok(least)
}

fn is_done(layout: &Layout<'_>, until: f64, least: Cost) -> bool {
    nearest_usize_to_f64(layout.work) >= until || least.crossings == 0
}

/// Tries other orders for each node whose border several edges cross, and keeps what is better. `most` is how many nodes and pieces of
/// edges may be laid out for it.
pub(crate) fn search(alloc: Global, layout: &mut Layout<'_>, most: f64) -> Result<(), DocFault> {
    let until = nearest_usize_to_f64(layout.work) + most;
    let nodes = crossed_nodes(alloc, layout)?;
    let mut least = layout.cost(alloc)?;
    for _ in 0..usize::MAX {
        let before = least.crossings;
        for (node, level) in nodes.iter() {
            for trial in [Trial::AsWanted(*level), Trial::AsFound] {
                if !is_done(layout, until, least) {
                    least = tried(alloc, layout, *node, trial, least)?;
                }
            }
        }
        if is_done(layout, until, least) || least.crossings >= before {
            break;
        }
    }
    Ok(())
}
