//! The sides of the declared ports of nodes with open levels, and their order at each side; and the sides of common ends of edges at such
//! nodes to which pairs lead from within and from outside.

use crate::model::{Model, PortRule, is_forward, line_of};
use crate::pairs::{Pair, PairEnd};
use crate::port_stacks::port_stack_of;
use graph_draft::{Direction, Draft, Element, Kind, Side, number_said};
use node_labels::beside_port;
use std::alloc::{AllocError, Global};
use std::cmp::OrderedFloat;
use std::collections::BTreeMap;

// How edges meet a port: they leave it or enter it outside, and within they lead on what enters or leaves there.
#[derive(Clone, Copy, Drop)]
struct Meetings {
    is_left: bool,
    is_entered: bool,
    leads_in: bool,
    leads_out: bool,
}

const NO_MEETINGS: Meetings = Meetings {
    is_left: false,
    is_entered: false,
    leads_in: false,
    leads_out: false,
};

impl Meetings {
    fn add(&mut self, is_within: bool, is_source: bool, is_turned: bool) {
        if is_within {
            if is_source {
                self.leads_in = true;
            } else {
                self.leads_out = true;
            }
        } else if is_source == is_turned {
            self.is_entered = true;
        } else {
            self.is_left = true;
        }
    }

    // Whether edges rather enter the port than leave it.
    fn is_behind(self) -> bool {
        let is_fed = self.is_entered || (self.leads_in && !self.leads_out);
        !self.is_left && is_fed
    }

    // The side at which they meet it, in a level of a direction.
    fn side(self, direction: Direction) -> Side {
        if self.is_behind() {
            direction.behind()
        } else {
            direction.ahead()
        }
    }
}

fn meet(
    meetings: &mut [Meetings],
    end: PairEnd,
    level: usize,
    (is_source, is_turned): (bool, bool),
) {
    if let Some(port) = end.port {
        if let Some(met) = meetings.get_mut(port) {
            met.add(end.node == level, is_source, is_turned);
        }
    }
}

fn meetings_of(alloc: Global, model: &Model) -> Result<Vec<Meetings>, AllocError> {
    let mut meetings = vec![in alloc; NO_MEETINGS; model.ports.len()]?;
    for pair in model.pairs.iter() {
        let ports = meetings.as_mut_slice();
        meet(ports, pair.source, pair.level, (true, pair.is_turned));
        meet(ports, pair.target, pair.level, (false, pair.is_turned));
    }
    Ok(meetings)
}

// The side of a port: that for which it asks, if its node lets it ask, or else by how edges meet it.
fn side_of(
    draft: &Draft,
    port: usize,
    rule: PortRule,
    direction: Direction,
    met: Meetings,
) -> Side {
    let asked = match rule {
        PortRule::Free => None,
        _ => draft.side_asked(port),
    };
    asked.unwrap_or(met.side(direction))
}

// The room that labels of a port take within its node: inwards from the side, and along it behind the port's line.
fn room_of(
    alloc: Global,
    draft: &Draft,
    port: usize,
    node: usize,
    side: Side,
) -> Result<(f64, f64), AllocError> {
    if let Some(stack) = port_stack_of(alloc, draft, port)? {
        if stack.is_inside {
            let beside = beside_port(draft, node, side);
            let depth = side.outward(stack.size) + 2.0 * beside.out;
            let length = side.along(stack.size) + 2.0 * beside.aside;
            return Ok((depth.ceil(), length.ceil()));
        }
    }
    Ok((0.0, 0.0))
}

// What comes first of two ports of a node: their index, then where their lines are given, clockwise.
fn key_of(draft: &Draft, port: usize, side: Side) -> (OrderedFloat<f64>, OrderedFloat<f64>) {
    let index = number_said(draft.option(Element::Port(port), "port.index")).unwrap_or(0.0);
    let line = line_of(draft, port, side);
    let clockwise = if is_forward(side) { line } else { -line };
    // Without the negative zero.
    (OrderedFloat(index + 0.0), OrderedFloat(clockwise + 0.0))
}

// Finds where each port of a node comes at its side, from the left or the top.
fn rank_ports(alloc: Global, model: &mut Model, node: usize) -> Result<(), AllocError> {
    let mut sorted = Vec::new(alloc);
    for port in model.draft.ports_of(node) {
        let key = key_of(&model.draft, *port, model.port(*port).side);
        sorted.push((key, *port))?;
    }
    sorted.sort_by_key(|(key, _)| *key)?;
    let mut rank: i64 = 0;
    for (_, at) in sorted {
        if let Some(port) = model.ports.get_mut(at) {
            port.rank = if is_forward(port.side) {
                rank
            } else {
                0i64.saturating_sub(rank)
            };
        }
        rank = rank.saturating_add(1);
    }
    Ok(())
}

fn find_sides_at(
    alloc: Global,
    model: &mut Model,
    node: usize,
    meetings: &[Meetings],
) -> Result<(), AllocError> {
    let direction = model.direction_of(model.draft.level_around(node));
    let rule = model.rule_of(node);
    for at in Vec::from_slice(alloc, model.draft.ports_of(node))? {
        let met = meetings.get(at).copied().unwrap_or(NO_MEETINGS);
        let side = side_of(&model.draft, at, rule, direction, met);
        let (depth, length) = room_of(alloc, &model.draft, at, node, side)?;
        if let Some(port) = model.ports.get_mut(at) {
            port.side = side;
            port.depth = depth;
            port.length = length;
        }
    }
    rank_ports(alloc, model, node)
}

// How the pairs of an edge meet their common end.
#[derive(Clone, Copy, Drop)]
struct Stem {
    node: usize,
    met: Meetings,
    has_inner: bool,
    has_outer: bool,
}

// The common end of a pair's edge at a node without a port, and whether it is the source.
fn stem_end(pair: &Pair) -> Option<(PairEnd, bool)> {
    let (end, is_source) = match pair.stem? {
        Kind::Source => (pair.source, true),
        Kind::Target => (pair.target, false),
    };
    match end.port {
        Some(_) => None,
        None => Some((end, is_source)),
    }
}

fn stems_of(alloc: Global, model: &Model) -> Result<BTreeMap<usize, Stem>, AllocError> {
    let mut stems: BTreeMap<usize, Stem> = BTreeMap::new(alloc);
    for pair in model.pairs.iter() {
        if let Some((end, is_source)) = stem_end(pair) {
            let mut stem = stems.get(&pair.edge).copied().unwrap_or(Stem {
                node: end.node,
                met: NO_MEETINGS,
                has_inner: false,
                has_outer: false,
            });
            let is_within = end.node == pair.level;
            stem.has_inner = stem.has_inner || is_within;
            stem.has_outer = stem.has_outer || !is_within;
            if !pair.is_loop() {
                stem.met.add(is_within, is_source, pair.is_turned);
            }
            stems.insert(pair.edge, stem)?;
        }
    }
    Ok(stems)
}

/// Finds the sides of common ends of edges without ports, as far as pairs lead to them both from within and from outside: all of these
/// begin at one dock, as at a port.
pub(crate) fn find_stem_sides(alloc: Global, model: &mut Model) -> Result<(), AllocError> {
    for (edge, stem) in stems_of(alloc, model)?.iter() {
        if stem.has_inner && stem.has_outer {
            let direction = model.direction_of(model.draft.level_around(stem.node));
            model.stems.insert(*edge, stem.met.side(direction))?;
        }
    }
    Ok(())
}

/// Finds the side of each port of a node with an open level, by what it asks for or else by how edges meet it.
pub(crate) fn find_port_sides(alloc: Global, model: &mut Model) -> Result<(), AllocError> {
    let meetings = meetings_of(alloc, model)?;
    for level in Vec::from_slice(alloc, model.levels.as_slice())? {
        find_sides_at(alloc, model, level, meetings.as_slice())?;
    }
    Ok(())
}
