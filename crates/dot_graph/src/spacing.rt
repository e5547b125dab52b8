//! Options of layouts that hold for all levels of a graph.

use crate::known::tell_value;
use crate::sides::Direction;
use dot_looks::{Given, Members, Notes, POINTS, put_number, put_text, whole};
use dot_syntax::Graph;
use serde_json::value::Map;
use std::alloc::{AllocError, Global};

// The spaces between ranks, and between nodes of a rank, in inches.
const RANKS: f64 = 0.5;

const NODES: f64 = 0.25;

// The least of each.
const LEAST: f64 = 0.02;

/// How the levels of a graph are laid out.
#[derive(Clone, Copy, Debug, Drop)]
pub(crate) struct Spacing {
    pub(crate) direction: Direction,
    // In points.
    between_ranks: f64,
    between_nodes: f64,
    // The name of a kind of routes, unless they are orthogonal by default.
    routing: Option<&'static str>,
}

fn direction_of(
    alloc: Global,
    given: Given<'_>,
    notes: &mut Notes,
) -> Result<Direction, AllocError> {
    let (Some(written), Some(name)) = (given.written("rankdir"), given.text("rankdir")) else {
        return Ok(Direction::Down);
    };
    match Direction::named(name) {
        Some(direction) => Ok(direction),
        None => {
            tell_value(alloc, written, "rankdir", "TB, LR, BT or RL", notes)?;
            Ok(Direction::Down)
        }
    }
}

fn is_among(name: &str, names: &[&str]) -> bool {
    names.iter().any(|it| name.eq_ignore_ascii_case(*it))
}

fn routing_named(name: &str) -> Option<&'static str> {
    if is_among(name, &["ortho"]) {
        Some("ORTHOGONAL")
    } else if is_among(name, &["polyline", "line", "false", "no", "0"]) {
        Some("POLYLINE")
    } else if is_among(name, &["true", "spline", "curved", "yes", "1"]) {
        Some("SPLINES")
    } else {
        None
    }
}

fn routing_of(
    alloc: Global,
    given: Given<'_>,
    notes: &mut Notes,
) -> Result<Option<&'static str>, AllocError> {
    let Some(written) = given.written("splines") else {
        return Ok(None);
    };
    let routing = routing_named(written.text.as_str());
    if routing.is_none() {
        tell_value(alloc, written, "splines", "ortho, polyline or true", notes)?;
    }
    Ok(routing)
}

fn points_of(given: Given<'_>, name: &str, by_default: f64) -> f64 {
    whole(given.number(name).unwrap_or(by_default).max(LEAST) * POINTS)
}

/// How the levels of a graph are laid out, by the attributes of the graph.
pub(crate) fn spacing_of(
    alloc: Global,
    graph: &Graph,
    notes: &mut Notes,
) -> Result<Spacing, AllocError> {
    let attributes = &graph.attributes;
    let set = match graph.subgraphs.first() {
        Some(root) => root.set,
        None => 0,
    };
    let given = Given { attributes, set };
    Ok(Spacing {
        direction: direction_of(alloc, given, notes)?,
        between_ranks: points_of(given, "ranksep", RANKS),
        between_nodes: points_of(given, "nodesep", NODES),
        routing: routing_of(alloc, given, notes)?,
    })
}

impl Spacing {
    /// The options of a level.
    pub(crate) fn options(self, alloc: Global) -> Result<Members, AllocError> {
        let mut options: Members = Map::new(alloc);
        put_text(&mut options, alloc, "elk.direction", self.direction.name())?;
        put_number(
            &mut options,
            alloc,
            "elk.layered.spacing.nodeNodeBetweenLayers",
            self.between_ranks,
        )?;
        put_number(
            &mut options,
            alloc,
            "elk.spacing.nodeNode",
            self.between_nodes,
        )?;
        if let Some(routing) = self.routing {
            put_text(&mut options, alloc, "elk.edgeRouting", routing)?;
        }
        Ok(options)
    }
}
