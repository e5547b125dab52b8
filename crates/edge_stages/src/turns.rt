//! Edges that close cycles are turned round before the engine sees them, in the way in which it would turn them itself: a label in
//! mid-edge makes two edges of one, and it might turn only one of these.

use graph_draft::{Draft, Mark};
use serde_json::Value;
use std::alloc::{AllocError, Global};
use std::collections::{BTreeMap, BTreeSet};

// What is done after the answer.
#[derive(Drop)]
enum Deed {
    // The route of an edge runs the other way.
    Turn { edge: usize },
    // A level's certificate tells its edges that were turned round.
    Tell { level: usize, edges: Vec<usize> },
}

/// The edges that were turned round.
#[derive(Drop)]
pub struct Turns {
    deeds: Vec<(Mark, Deed)>,
    turned: BTreeSet<usize>,
}

impl Turns {
    /// No edges.
    pub fn none(alloc: Global) -> Turns {
        Turns {
            deeds: Vec::new(alloc),
            turned: BTreeSet::new(alloc),
        }
    }

    /// The edges that were turned round.
    pub fn turned(&self) -> &BTreeSet<usize> {
        &self.turned
    }
}

/// Turns edges round, which are given by their levels' numbers.
pub fn turn_edges(
    alloc: Global,
    draft: &mut Draft,
    edges: BTreeMap<usize, Vec<usize>>,
) -> Result<Turns, AllocError> {
    let mut turns = Turns::none(alloc);
    for (level, edges) in edges {
        for edge in edges.iter() {
            if let Some((source, target)) = draft.ends_of(*edge) {
                draft.change_ends(alloc, *edge, target, source)?;
                turns.turned.insert(*edge)?;
                turns
                    .deeds
                    .push((draft.mark(), Deed::Turn { edge: *edge }))?;
            }
        }
        turns
            .deeds
            .push((draft.mark(), Deed::Tell { level, edges }))?;
    }
    Ok(turns)
}

fn turn_route(alloc: Global, draft: &mut Draft, edge: usize) -> Result<(), AllocError> {
    let mut points = draft.copy_of_route(alloc, edge)?;
    points.reverse();
    draft.route(alloc, edge, points.as_slice())
}

fn tell(alloc: Global, draft: &mut Draft, level: usize, edges: &[usize]) -> Result<(), AllocError> {
    if edges.is_empty() {
        return Ok(());
    }
    let mut ids = Vec::new(alloc);
    for edge in edges {
        let id = match draft.edges.get(*edge) {
            Some(edge) => edge.id.as_ref(),
            None => None,
        };
        ids.push(match id {
            Some(id) => id.clone()?,
            None => Value::Null,
        })?;
    }
    if let Some(level) = draft.nodes.get_mut(level) {
        if let Some(Value::Object(layering)) = level.layering.as_mut() {
            layering.insert(String::from_str(alloc, "reversed")?, Value::Array(ids))?;
        }
    }
    Ok(())
}

/// Turns the edges round again.
pub fn turn_again(alloc: Global, draft: &mut Draft, turns: Turns) -> Result<(), AllocError> {
    let Turns { mut deeds, .. } = turns;
    deeds.reverse();
    for (mark, deed) in deeds {
        draft.undo_to(mark)?;
        match deed {
            Deed::Turn { edge } => turn_route(alloc, draft, edge)?,
            Deed::Tell { level, edges } => tell(alloc, draft, level, edges.as_slice())?,
        }
    }
    Ok(())
}
