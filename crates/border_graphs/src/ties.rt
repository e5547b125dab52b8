//! The engine orders what stands at a side by where its lines lead, and by number if several lead to one node. So ports and edges are
//! sent in the order in which the other node has them, if its ports are pinned.

use crate::children::{SentNode, Task};
use crate::edges::port_of;
use crate::ports::PortKey;
use crate::sorting::sort_among;
use crate::spots::{SpotKey, crossing_at, dock_key};
use border_levels::{Model, PieceEnd};
use std::alloc::{AllocError, Global};
use std::collections::BTreeMap;

// Where an end stands at its node as far as that is known, and whether that is sent.
#[derive(Clone, Copy, Drop)]
struct EndPlace {
    at: f64,
    is_sent: bool,
}

// Where an end at a border is pinned.
fn pin_of(task: Task<'_>, node: usize, end: PieceEnd) -> Option<f64> {
    let crossing = match end {
        PieceEnd::Border(at) | PieceEnd::Frame(at) => at,
        PieceEnd::Own(own) => crossing_at(task.model, node, own.dock)?.0,
    };
    let stand = task.known.placed.get(&node)?;
    stand.pins.get(&crossing).copied()
}

// Where the level would have an end if its node were free.
fn wish_for(task: Task<'_>, node: usize, end: PieceEnd) -> Option<f64> {
    let key = match end {
        PieceEnd::Border(at) | PieceEnd::Frame(at) => SpotKey::Border(at),
        PieceEnd::Own(own) => dock_key(own.dock),
    };
    let wishes = task.known.wishes.get(&node)?;
    wishes.get(&key).copied()
}

// `kept` has the places of the crossings of the level's own border that keep their order.
fn place_of(task: Task<'_>, kept: &BTreeMap<usize, f64>, end: PieceEnd) -> Option<EndPlace> {
    if let PieceEnd::Frame(crossing) = end {
        let at = kept.get(&crossing).copied()?;
        return Some(EndPlace { at, is_sent: true });
    }
    let node = end.node(task.model)?;
    if !task.model.is_open(node) || task.model.crossings_of(node).is_empty() {
        return None;
    }
    let at = match pin_of(task, node, end) {
        Some(pin) => pin,
        None => wish_for(task, node, end)?,
    };
    let is_sent = !task.mode.is_free_at(node);
    Some(EndPlace { at, is_sent })
}

// The place of one end of a piece, of that which is sent if there is one.
fn place_among(from: Option<EndPlace>, to: Option<EndPlace>) -> Option<f64> {
    match (from, to) {
        (Some(from), Some(to)) if !from.is_sent && to.is_sent => Some(to.at),
        (Some(from), _) => Some(from.at),
        (None, Some(to)) => Some(to.at),
        (None, None) => None,
    }
}

// What is known of where pieces arrive.
fn places_of(
    alloc: Global,
    task: Task<'_>,
    kept: &BTreeMap<usize, f64>,
    pieces: &[usize],
) -> Result<Vec<Option<f64>>, AllocError> {
    let mut places = Vec::new(alloc);
    for at in pieces {
        let place = match task.model.piece(*at) {
            Some(piece) => place_among(
                place_of(task, kept, piece.from),
                place_of(task, kept, piece.to),
            ),
            None => None,
        };
        places.push(place)?;
    }
    Ok(places)
}

// The children that a piece joins, none for the border of the level, in one order for both directions.
fn joined_by(model: &Model, from: PieceEnd, to: PieceEnd) -> (Option<usize>, Option<usize>) {
    let (from, to) = (from.node(model), to.node(model));
    if from <= to { (from, to) } else { (to, from) }
}

// Pieces with known places by what they join: for each its place in the list, and where it arrives.
fn groups_in(
    alloc: Global,
    model: &Model,
    pieces: &[usize],
    places: &[Option<f64>],
) -> Result<BTreeMap<(Option<usize>, Option<usize>), Vec<(usize, f64)>>, AllocError> {
    let mut groups: BTreeMap<(Option<usize>, Option<usize>), Vec<(usize, f64)>> = BTreeMap::new(
        alloc,
    );
    for (k, (at, place)) in pieces.iter().zip(places.iter()).enumerate() {
        if let (Some(piece), Some(place)) = (model.piece(*at), *place) {
            let joined = joined_by(model, piece.from, piece.to);
            if let Some(group) = groups.get_mut(&joined) {
                group.push((k, place))?;
                continue;
            }
            groups.insert(joined, vec![in alloc; (k, place)]?)?;
        }
    }
    Ok(groups)
}

// The sum of the places of lines, and how many they are.
#[derive(Clone, Copy, Drop)]
struct Sum {
    places: f64,
    count: f64,
}

fn add_place(
    sums: &mut BTreeMap<PortKey, Sum>,
    key: PortKey,
    place: f64,
) -> Result<(), AllocError> {
    let Sum { places, count } = match sums.get(&key) {
        Some(sum) => *sum,
        None => Sum {
            places: 0.0,
            count: 0.0,
        },
    };
    let sum = Sum {
        places: places + place,
        count: count + 1.0,
    };
    sums.insert(key, sum)?;
    Ok(())
}

// The places of the lines at each port, summed up.
fn sums_of(
    alloc: Global,
    model: &Model,
    pieces: &[usize],
    places: &[Option<f64>],
) -> Result<BTreeMap<PortKey, Sum>, AllocError> {
    let mut sums = BTreeMap::new(alloc);
    for (at, place) in pieces.iter().zip(places.iter()) {
        if let (Some(piece), Some(place)) = (model.piece(*at), *place) {
            for end in [piece.from, piece.to] {
                if let Some(key) = port_of(model, end) {
                    add_place(&mut sums, key, place)?;
                }
            }
        }
    }
    Ok(sums)
}

// Free ports of a node stand in the order of the places to which their lines lead.
fn sort_ports(
    alloc: Global,
    node: &mut SentNode,
    sums: &BTreeMap<PortKey, Sum>,
) -> Result<(), AllocError> {
    if !node.is_free || node.ports.len() < 2 {
        return Ok(());
    }
    let mut means = Vec::new(alloc);
    for (k, port) in node.ports.iter().enumerate() {
        if let Some(sum) = sums.get(&port.key) {
            means.push((k, sum.places / sum.count))?;
        }
    }
    sort_among(alloc, node.ports.as_mut_slice(), means.as_slice())
}

/// Sorts pieces that join the same two nodes, and the free ports of nodes. `kept` has the places of the crossings of the level's own
/// border that keep their order.
pub(crate) fn break_ties(
    alloc: Global,
    task: Task<'_>,
    kept: &BTreeMap<usize, f64>,
    pieces: &mut [usize],
    nodes: &mut [SentNode],
) -> Result<(), AllocError> {
    let model = task.model;
    let places = places_of(alloc, task, kept, pieces)?;
    let groups = groups_in(alloc, model, pieces, places.as_slice())?;
    let sums = sums_of(alloc, model, pieces, places.as_slice())?;
    for (_, group) in groups.iter() {
        sort_among(alloc, pieces, group.as_slice())?;
    }
    for node in nodes.iter_mut() {
        sort_ports(alloc, node, &sums)?;
    }
    Ok(())
}
