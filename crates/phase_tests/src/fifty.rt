//! A drawing with fifty long edges that are drawn by lot.
use elk_layers::{Layered, Link, Order, Unit};
use std::alloc::{AllocError, Global};

const LAYERS: u32 = 8;

pub(crate) fn small(number: u64) -> u32 {
    match u32::try_from(number) {
        Ok(number) => number,
        Err(_) => 0,
    }
}

// A number below `sides`, by a linear congruence.
fn roll(state: &mut u64, sides: u64) -> u32 {
    *state = state
        .wrapping_mul(6_364_136_223_846_793_005)
        .wrapping_add(1_442_695_040_888_963_407);
    match (*state >> 33).checked_rem(sides) {
        Some(rest) => small(rest),
        None => 0,
    }
}

fn child(number: u32) -> Unit {
    Unit {
        layer: number % LAYERS,
        child: Some(number),
        height: 30,
        body_top: 0,
        body_height: 30,
        north: 0,
        south: 0,
    }
}

fn lane(layer: u32) -> Unit {
    Unit {
        layer,
        child: None,
        height: 0,
        body_top: 0,
        body_height: 0,
        north: 0,
        south: 0,
    }
}

// Adds a unit, last in its layer's row.
fn add(layered: &mut Layered, order: &mut Order, unit: Unit) -> Result<u32, AllocError> {
    let number = small(layered.units.len() as u64);
    layered.units.push(unit)?;
    if let Some(row) = order.rows.get_mut(unit.layer as usize) {
        row.push(number)?;
    }
    Ok(number)
}

fn join(
    layered: &mut Layered,
    edge: u32,
    ends: (u32, u32),
    pins: (i64, i64),
) -> Result<(), AllocError> {
    layered.links.push(Link {
        edge,
        tail: ends.0,
        head: ends.1,
        tail_rank: 0,
        head_rank: 0,
        tail_at: pins.0,
        head_at: pins.1,
    })?;
    Ok(())
}

// An edge over at least two layers, with a lane in each.
fn add_edge(
    layered: &mut Layered,
    order: &mut Order,
    edge: u32,
    state: &mut u64,
) -> Result<(), AllocError> {
    let from = roll(state, 3) % 3;
    let to = 5 + roll(state, 3) % 3;
    let mut tail = from + 8 * (roll(state, 3) % 3);
    let mut pin = i64::from(roll(state, 31));
    for layer in from + 1..to {
        let head = add(layered, order, lane(layer))?;
        join(layered, edge, (tail, head), (pin, 0))?;
        tail = head;
        pin = 0;
    }
    let head = to + 8 * (roll(state, 3) % 3);
    join(
        layered,
        edge,
        (tail, head),
        (pin, i64::from(roll(state, 31))),
    )
}

/// Each row has three children and then lanes by the numbers of their edges.
pub fn fifty(alloc: Global) -> Result<(Layered, Order), AllocError> {
    let mut layered = Layered {
        layers: LAYERS,
        units: Vec::new(alloc),
        links: Vec::new(alloc),
        node_node: 20,
        edge_node: 10,
        edge_edge: 10,
    };
    let mut order = Order {
        rows: Vec::new(alloc),
    };
    for layer in 0..LAYERS {
        order.rows.push(Vec::new(alloc))?;
    }
    for number in 0..24 {
        add(&mut layered, &mut order, child(number))?;
    }
    let mut state = 1;
    for edge in 0..50 {
        add_edge(&mut layered, &mut order, edge, &mut state)?;
    }
    Ok((layered, order))
}
