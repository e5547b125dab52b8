//! The order in which edges cross the border of a node.

use crate::known::Orders;
use border_levels::{Crossing, Model};
use graph_draft::Side;
use std::alloc::{AllocError, Global};
use std::cmp::OrderedFloat;
use std::collections::BTreeMap;

// By what a crossing is sorted among those to which one side of the level leads: first come those that turn to the low side in the
// ring, then those straight ahead, then those that turn to the high side. Those that turn don't cross one another.
#[derive(Clone, Copy, Drop, PartialEq, Eq, PartialOrd, Ord)]
struct Turn {
    way: i64,
    place: OrderedFloat<f64>,
}

fn turn_of(crossing: &Crossing, place: f64) -> Turn {
    if crossing.is_on_axis() {
        let place = OrderedFloat(place);
        return Turn { way: 0, place };
    }
    let is_low = matches!(crossing.side, Side::North | Side::West);
    let is_outward = matches!(crossing.exit, Side::East | Side::South);
    let place = if is_low == is_outward { place } else { -place };
    Turn {
        way: if is_low { -1 } else { 1 },
        place: OrderedFloat(place),
    }
}

// The crossings of a node's border to which one side of its level leads.
fn order_at(
    alloc: Global,
    model: &Model,
    node: usize,
    exit: Side,
    places: &BTreeMap<usize, f64>,
) -> Result<Vec<usize>, AllocError> {
    let mut turns = Vec::new(alloc);
    for at in model.crossings_of(node) {
        if let Some(crossing) = model.crossing(*at) {
            if crossing.exit == exit {
                let place = places.get(at).copied().unwrap_or(f64::INFINITY);
                turns.push((turn_of(&crossing, place), *at))?;
            }
        }
    }
    turns.sort_by_key(|(turn, _)| *turn)?;
    let mut order = Vec::new(alloc);
    for (_, at) in turns.iter() {
        order.push(*at)?;
    }
    Ok(order)
}

/// The crossings of a node's border by the side of its level that leads to them, in the order of their places. `places` has for each
/// crossing where along its side of the node it lies, as far as that is known.
pub fn orders_by(
    alloc: Global,
    model: &Model,
    node: usize,
    places: &BTreeMap<usize, f64>,
) -> Result<Orders, AllocError> {
    let mut orders = BTreeMap::new(alloc);
    for exit in Side::ALL {
        let order = order_at(alloc, model, node, exit, places)?;
        if !order.is_empty() {
            orders.insert(exit, order)?;
        }
    }
    Ok(orders)
}
