//! Crossings that searches for orders leave, on graphs of a few rows. The fewest of each graph were found by trying all orders.

use crate::checks::{are_rows, is_sound};
use crate::efforts::found;
use crate::fifty::small;
use crate::held::held;
use crate::networks::{number_or, numbers};
use cross_reduce::crossings;
use elk_layers::{Layered, Link, Order, Unit};
use std::alloc::{AllocError, Global};
use std::test::Fail;

fn unit(layer: u32) -> Unit {
    Unit {
        layer,
        child: Some(0),
        height: 10,
        body_top: 0,
        body_height: 10,
        north: 0,
        south: 0,
    }
}

fn link(ends: &[u32]) -> Link {
    Link {
        edge: 0,
        tail: number_or(ends, 0, 0),
        head: number_or(ends, 1, 0),
        tail_rank: 0,
        head_rank: 0,
        tail_at: 5,
        head_at: 5,
    }
}

// Adds a row of so many units.
fn add_row(
    alloc: Global,
    layered: &mut Layered,
    order: &mut Order,
    size: u32,
) -> Result<(), AllocError> {
    let mut row = Vec::new(alloc);
    for _ in 0..size {
        row.push(small(layered.units.len() as u64))?;
        layered.units.push(unit(layered.layers))?;
    }
    order.rows.push(row)?;
    layered.layers = layered.layers.wrapping_add(1);
    Ok(())
}

// A graph of rows of so many units, which are numbered along the rows. Its links are written with commas between: tail and head.
fn graph(alloc: Global, rows: &str, links: &str) -> Result<(Layered, Order), Fail> {
    let mut layered = Layered {
        layers: 0,
        units: Vec::new(alloc),
        links: Vec::new(alloc),
        node_node: 20,
        edge_node: 10,
        edge_edge: 7,
    };
    let mut order = Order {
        rows: Vec::new(alloc),
    };
    for size in &numbers(alloc, rows)? {
        add_row(alloc, &mut layered, &mut order, *size)?;
    }
    for ends in links.split(',') {
        layered.links.push(link(numbers(alloc, ends)?.as_slice()))?;
    }
    Ok((layered, order))
}

// The crossings of an order, or the greatest number where the rows are none.
fn counted(alloc: Global, layered: &Layered, order: &Order) -> Result<u64, AllocError> {
    if !is_sound(layered) || !are_rows(layered, order) {
        return Ok(u64::MAX);
    }
    crossings(alloc, layered, order)
}

// The crossings that the search of an effort leaves.
fn left_by(alloc: Global, given: (Layered, Order), effort: u32) -> Result<u64, AllocError> {
    let (layered, start) = given;
    if !is_sound(&layered) || !are_rows(&layered, &start) {
        return Ok(u64::MAX);
    }
    let order = found(alloc, &layered, start, effort)?;
    counted(alloc, &layered, &order)
}

// A key for each unit: its number for those that are written in a text, and none for the others.
fn keys_of(alloc: Global, count: usize, units: &str) -> Result<Vec<Option<i64>>, Fail> {
    let mut keys = Vec::new(alloc);
    for _ in 0..count {
        keys.push(None)?;
    }
    for unit in &numbers(alloc, units)? {
        if let Some(key) = keys.get_mut(*unit as usize) {
            *key = Some(i64::from(*unit));
        }
    }
    Ok(keys)
}

// The crossings that are left where some units are held in their order.
fn left_beside(
    alloc: Global,
    given: (Layered, Order),
    keys: &[Option<i64>],
) -> Result<u64, AllocError> {
    let (layered, start) = given;
    if !is_sound(&layered) || !are_rows(&layered, &start) {
        return Ok(u64::MAX);
    }
    if keys.len() != layered.units.len() {
        return Ok(u64::MAX);
    }
    let order = held(alloc, &layered, start, keys)?;
    counted(alloc, &layered, &order)
}

// The crossings of a graph at first, and those that are left where the units of a text are held.
fn around(alloc: Global, rows: &str, links: &str, units: &str) -> Result<(u64, u64), Fail> {
    let (layered, order) = graph(alloc, rows, links)?;
    let before = counted(alloc, &layered, &order)?;
    let keys = keys_of(alloc, layered.units.len(), units)?;
    let after = left_beside(alloc, (layered, order), keys.as_slice())?;
    Ok((before, after))
}

// The crossings that sweeps and exchanges leave alone, and those after the whole search: sweeps from other starts, annealing, and
// moves of whole edges.
fn by_search(alloc: Global, rows: &str, links: &str) -> Result<(u64, u64), Fail> {
    let swept = left_by(alloc, graph(alloc, rows, links)?, 0)?;
    let searched = left_by(alloc, graph(alloc, rows, links)?, 7)?;
    Ok((swept, searched))
}

const DENSE: &str = "\
0 6, 0 8, 0 11, 1 9, 2 8, 2 9, 3 7, 3 9, 3 11, 4 6, 4 10, 5 6, 6 12, 6 14, 6 15, 8 14, 9 14, 9 17, 10 14, 10 15, \
10 17, 11 15";

const FOUR_ROWS: &str = "\
0 5, 0 8, 0 9, 0 10, 1 5, 2 5, 2 6, 2 9, 3 10, 4 7, 5 11, 5 13, 5 14, 6 13, 7 12, 8 11, 8 16, 9 13, 10 11, 11 17, \
11 18, 11 19, 12 20, 14 17, 14 19, 15 21";

const SPARSE: &str = "\
0 5, 0 8, 1 4, 1 6, 1 8, 2 6, 3 4, 3 5, 3 7, 4 9, 6 9, 7 9, 7 10, 7 13, 8 9, 9 16, 10 14, 12 14, 12 15, 12 17";

#[test]
fn the_search_leaves_the_fewest_crossings(rt: HostRuntime) -> Result<(), Fail> {
    let alloc = rt.alloc();
    for (rows, links, fewest) in [
        ("6 6 6", DENSE, 10),
        ("5 6 6 5", FOUR_ROWS, 4),
        ("4 5 5 4", SPARSE, 2),
    ] {
        let (swept, searched) = by_search(alloc, rows, links)?;
        assert_eq!(rt; searched, fewest);
        assert!(rt; swept > fewest);
    }
    Ok(())
}

const FIVE_EDGES: &str = "\
0 3, 0 4, 0 5, 0 6, 1 7, 3 9, 4 10, 5 11, 6 12, 7 13, 8 14, 9 15, 10 14, 11 15, 12 15, 13 14";

const ONE_GAP: &str = "0 3, 1 3, 1 4, 1 6, 1 7, 2 5, 2 8, 2 9, 5 12, 6 11, 7 11, 8 10, 9 10";

const SHORT_AND_LONG: &str = "\
1 7, 1 8, 2 6, 3 10, 4 10, 5 11, 6 12, 7 13, 8 14, 10 16, 11 15, 11 16, 12 17, 13 17, 14 16";

// Children are held, and the long edges between them are put where they cross least.
#[test]
fn long_edges_that_are_put_in_anew_cross_least(rt: HostRuntime) -> Result<(), Fail> {
    let alloc = rt.alloc();
    for (rows, links, units, crossings) in [
        ("2 6 6 2", FIVE_EDGES, "0 1 2 3 8 9 14 15", (4, 3)),
        ("3 7 3", ONE_GAP, "0 1 2 3 4 5 10 11 12", (10, 4)),
        (
            "3 6 6 3",
            SHORT_AND_LONG,
            "0 1 2 3 4 5 9 10 11 15 16 17",
            (5, 1),
        ),
    ] {
        assert_eq!(rt; around(alloc, rows, links, units)?, crossings);
    }
    Ok(())
}
