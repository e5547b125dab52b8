//! How pairs are led: which border each crosses at which side, and through which pieces.

use crate::crossings::{Crossing, Piece, PieceEnd};
use crate::middles::{add_piece, middle_of};
use crate::model::Model;
use crate::pairs::{Dock, Pair, PairEnd, Step};
use crate::piece_labels::share_labels;
use graph_draft::{Direction, Kind, Side};
use std::alloc::{AllocError, Global};
use std::collections::BTreeMap;
use std::mem;

// The crossings and the pieces that pairs of one dock share.
#[derive(Drop)]
struct Shared {
    crossings: BTreeMap<(usize, Side, Dock), usize>,
    // The pieces that lead to the crossing of their level's border, from the crossing of a child's border or else from the dock itself.
    pieces: BTreeMap<(usize, Option<usize>), usize>,
}

// The border of a node that a pair crosses at a side. Pairs of one dock share it.
fn crossing_at(
    model: &mut Model,
    shared: &mut Shared,
    asked: Crossing,
) -> Result<usize, AllocError> {
    let key = (asked.node, asked.side, asked.dock);
    if let Some(at) = shared.crossings.get(&key) {
        return Ok(*at);
    }
    let at = model.crossings.len();
    model.crossings.push(asked)?;
    if let Some(node) = model.nodes.get_mut(asked.node) {
        node.crossings.push(at)?;
    }
    shared.crossings.insert(key, at)?;
    Ok(at)
}

fn is_on_axis(direction: Direction, side: Side) -> bool {
    side == direction.ahead() || side == direction.behind()
}

// The side of a node's own level to which a pair is led that crosses the border at another side. If the two differ, it turns between
// the columns and the border.
fn exit_for(direction: Direction, is_up: bool, side: Side) -> Side {
    if is_on_axis(direction, side) {
        side
    } else if is_up {
        direction.ahead()
    } else {
        direction.behind()
    }
}

// The crossings of the borders of a chain, the outermost first. Each goes on to the side to which the pair is led around it.
fn crossings_on(
    alloc: Global,
    model: &mut Model,
    shared: &mut Shared,
    (chain, is_up): (&[usize], bool),
    (dock, first): (Dock, Side),
) -> Result<Vec<usize>, AllocError> {
    let mut crossings = Vec::new(alloc);
    let mut side = first;
    for k in (1..chain.len()).rev() {
        if let Some(node) = chain.get(k).copied() {
            let exit = exit_for(model.direction_of(node), is_up, side);
            let asked = Crossing {
                node,
                side,
                exit,
                dock,
                port: None,
                is_inner: false,
            };
            crossings.push(crossing_at(model, shared, asked)?)?;
            side = exit;
        }
    }
    Ok(crossings)
}

// The way of a pair from its level to one of its ends: the end of its piece there, and the steps within, the outermost first.
#[derive(Drop)]
struct Led {
    end: PieceEnd,
    steps: Vec<Step>,
}

// The step of a pair from the border of a level to that of a child, or else to the pair's own end.
fn step_within(
    alloc: Global,
    model: &mut Model,
    shared: &mut Shared,
    edge: usize,
    (border, inner): (usize, Option<usize>),
    last: PairEnd,
) -> Result<(usize, bool), AllocError> {
    let (level, exit) = match model.crossings.get(border) {
        Some(crossing) => (crossing.node, crossing.exit),
        None => (0, Side::North),
    };
    // What leads to the side of the first layer is sent as if it came from there.
    let is_ahead = exit == model.direction_of(level).ahead();
    if let Some(piece) = shared.pieces.get(&(border, inner)) {
        return Ok((*piece, is_ahead));
    }
    let within = match inner {
        Some(at) => PieceEnd::Border(at),
        None => PieceEnd::Own(last),
    };
    let (from, to) = if is_ahead {
        (within, PieceEnd::Frame(border))
    } else {
        (PieceEnd::Frame(border), within)
    };
    let piece = Piece {
        level,
        edge,
        from,
        to,
        is_turned: !is_ahead,
        labels: Vec::new(alloc),
    };
    let at = add_piece(model, piece)?;
    shared.pieces.insert((border, inner), at)?;
    Ok((at, is_ahead))
}

fn climb(
    alloc: Global,
    model: &mut Model,
    shared: &mut Shared,
    pair: &Pair,
    kind: Kind,
    first: Side,
) -> Result<Led, AllocError> {
    let (chain, last) = match kind {
        Kind::Source => (pair.up.as_slice(), pair.source),
        Kind::Target => (pair.down.as_slice(), pair.target),
    };
    let is_up = kind == Kind::Source;
    let crossings = crossings_on(alloc, model, shared, (chain, is_up), (last.dock, first))?;
    let mut steps = Vec::new(alloc);
    for (k, border) in crossings.iter().enumerate() {
        let inner = crossings.get(k.saturating_add(1)).copied();
        let (piece, is_ahead) = step_within(
            alloc,
            model,
            shared,
            pair.edge,
            (*border, inner),
            last,
        )?;
        steps.push(Step {
            piece,
            is_flipped: is_ahead != is_up,
        })?;
    }
    let end = match crossings.first() {
        Some(border) => PieceEnd::Border(*border),
        None => PieceEnd::Own(last),
    };
    Ok(Led { end, steps })
}

// The border at which a pair ends from within a node that holds its other end.
fn inner_crossing(
    model: &mut Model,
    shared: &mut Shared,
    end: PairEnd,
    kind: Kind,
) -> Result<usize, AllocError> {
    let direction = model.direction_of(end.node);
    let by_flow = match kind {
        Kind::Source => direction.behind(),
        Kind::Target => direction.ahead(),
    };
    let side = match end.dock {
        Dock::Port(port) => model.port(port).side,
        Dock::Stem(edge) => model.stems.get(&edge).copied().unwrap_or(by_flow),
        Dock::End(_, _) | Dock::Merged(_, _) => by_flow,
    };
    let exit = if is_on_axis(direction, side) {
        side
    } else {
        by_flow
    };
    let asked = Crossing {
        node: end.node,
        side,
        exit,
        dock: end.dock,
        port: end.port,
        is_inner: true,
    };
    let at = crossing_at(model, shared, asked)?;
    if let Some(crossing) = model.crossings.get_mut(at) {
        crossing.is_inner = true;
    }
    Ok(at)
}

// The border at which a pair ends from within, if one of its ends holds the other.
fn inner_of(
    model: &mut Model,
    shared: &mut Shared,
    pair: &Pair,
) -> Result<Option<usize>, AllocError> {
    if pair.up.is_empty() {
        Ok(Some(inner_crossing(model, shared, pair.source, Kind::Source)?))
    } else if pair.down.is_empty() {
        Ok(Some(inner_crossing(model, shared, pair.target, Kind::Target)?))
    } else {
        Ok(None)
    }
}

// The side at which a pair first crosses a border on the way from its level to an end.
fn first_side(model: &Model, pair: &Pair, kind: Kind, inner: Option<usize>) -> Side {
    if let Some(at) = inner {
        if let Some(crossing) = model.crossings.get(at) {
            return crossing.exit;
        }
    }
    let direction = model.direction_of(pair.level);
    if pair.is_turned == (kind == Kind::Source) {
        direction.behind()
    } else {
        direction.ahead()
    }
}

// The way to an end of a pair, which may be the node of its level.
fn way_to(
    alloc: Global,
    model: &mut Model,
    shared: &mut Shared,
    pair: &Pair,
    kind: Kind,
    inner: Option<usize>,
) -> Result<Led, AllocError> {
    let is_within = match kind {
        Kind::Source => pair.up.is_empty(),
        Kind::Target => pair.down.is_empty(),
    };
    match inner {
        Some(at) if is_within => Ok(Led {
            end: PieceEnd::Frame(at),
            steps: Vec::new(alloc),
        }),
        _ => {
            let first = first_side(model, pair, kind, inner);
            climb(alloc, model, shared, pair, kind, first)
        }
    }
}

// Leads a pair through a piece at each level that it passes, and through the borders between them.
fn lead_pair(
    alloc: Global,
    model: &mut Model,
    shared: &mut Shared,
    pair: &mut Pair,
) -> Result<(), AllocError> {
    let inner = inner_of(model, shared, pair)?;
    let source = way_to(alloc, model, shared, pair, Kind::Source, inner)?;
    let target = way_to(alloc, model, shared, pair, Kind::Target, inner)?;
    for step in source.steps.iter().rev() {
        pair.pieces.push(*step)?;
    }
    let middle = pair.pieces.len();
    let step = middle_of(alloc, model, pair, source.end, target.end)?;
    pair.pieces.push(step)?;
    for step in target.steps.iter() {
        pair.pieces.push(*step)?;
    }
    if pair.at == 0 {
        share_labels(alloc, model, pair, middle)?;
    }
    Ok(())
}

/// Leads all pairs of open levels.
pub(crate) fn lead_pairs(alloc: Global, model: &mut Model) -> Result<(), AllocError> {
    let mut shared = Shared {
        crossings: BTreeMap::new(alloc),
        pieces: BTreeMap::new(alloc),
    };
    let mut pairs = mem::replace(&mut model.pairs, Vec::new(alloc));
    for pair in pairs.iter_mut() {
        if model.is_open(pair.level) {
            lead_pair(alloc, model, &mut shared, pair)?;
        }
    }
    model.pairs = pairs;
    Ok(())
}
