//! Checks of units, links and rows, for tests on drawings whose numbers are drawn by lot.
ghost use Rattle.std.specs.Prelude.{◌≡◌, ◌≢◌, ◌<◌, ◌≤◌, ◌^◌, ◌≤ℤ◌, ℕ, pos, length, slice_index, IsTrue};
ghost use Rattle.elk_layers.specs.Layered.{plain, rows_of, row_at, IsSound, AreRows, IsFromZero, IsSpacing, HasBodyWithin, HasUnit};
ghost use Rattle.bk_place.specs.Checked.{AreFound, AreGoodLinks, AreGoodRows, AreGoodUnits, IsGoodLink, IsGoodPlace, IsGoodRow, IsGoodUnit};

use elk_layers::{Layered, Link, Order, Unit};

/// The most units that a checked drawing has.
const UNITS: usize = 4096;

/// The greatest height of a unit, and the greatest spacing.
const FAR: i64 = 1 << 20;

// A unit's outline lies within it.
fn has_body(unit: &Unit) -> bool
    requires { unit.now.height ≤ℤ pos (2 ^ 20) }
    ensures { IsTrue result → HasBodyWithin unit.now }
{
    if unit.body_top < 0 || unit.body_height < 0 {
        return false;
    }
    if unit.body_top > FAR || unit.body_height > FAR {
        return false;
    }
    unit.body_top + unit.body_height <= unit.height
}

fn is_good_unit(unit: &Unit, layers: u32) -> bool
    ensures { IsTrue result → IsGoodUnit layers unit.now }
{
    if unit.layer >= layers || unit.height < 0 || unit.height > FAR {
        return false;
    }
    match unit.child {
        Some(_) => has_body(unit),
        None => unit.height == 0,
    }
}

fn are_good_units(units: &[Unit], layers: u32) -> bool
    ensures { IsTrue result → AreGoodUnits layers units.now }
{
    for unit in units {
        if !is_good_unit(unit, layers) {
            return false;
        }
    }
    true
}

fn has_tail_pin(link: &Link, tail: &Unit) -> bool
    ensures { IsTrue result → IsFromZero link.now.tail_at tail.now.height }
{
    if link.tail_at < 0 {
        return false;
    }
    link.tail_at <= tail.height
}

fn has_head_pin(link: &Link, head: &Unit) -> bool
    ensures { IsTrue result → IsFromZero link.now.head_at head.now.height }
{
    if link.head_at < 0 {
        return false;
    }
    link.head_at <= head.height
}

fn is_good_link(units: &[Unit], link: &Link) -> bool
    ensures { IsTrue result → IsGoodLink units.now link.now }
{
    if link.tail as usize >= units.len() || link.head as usize >= units.len() {
        return false;
    }
    let tail = units[link.tail as usize];
    let head = units[link.head as usize];
    if tail.layer >= head.layer || head.layer - tail.layer != 1 {
        return false;
    }
    if link.tail_rank >= 65536 || link.head_rank >= 65536 {
        return false;
    }
    if !has_tail_pin(link, &tail) {
        return false;
    }
    has_head_pin(link, &head)
}

fn are_good_links(units: &[Unit], links: &[Link]) -> bool
    ensures { IsTrue result → AreGoodLinks units.now links.now }
{
    for link in links {
        if !is_good_link(units, link) {
            return false;
        }
    }
    true
}

fn is_spacing(distance: i64) -> bool
    ensures { IsTrue result → IsSpacing distance }
{
    if distance < 1 {
        return false;
    }
    distance <= FAR
}

/// Whether a drawing keeps what every call asks, and is small.
pub fn is_sound(layered: &Layered) -> bool
    ensures { IsTrue result → IsSound (plain layered.now) }
{
    if layered.units.len() > UNITS || layered.links.len() > UNITS {
        return false;
    }
    if !is_spacing(layered.node_node) || !is_spacing(layered.edge_node) {
        return false;
    }
    if !is_spacing(layered.edge_edge) {
        return false;
    }
    let units = layered.units.as_slice();
    if !are_good_units(units, layered.layers) {
        return false;
    }
    are_good_links(units, layered.links.as_slice())
}

// No unit before this place of a row is the one that stands there.
fn is_new(row: &[u32], place: usize) -> bool
    requires { place < length row.now }
    ensures { IsTrue result → ((i : ℕ) → i < place → slice_index row.now i ≢ slice_index row.now place) }
{
    for i in 0..place {
        if row[i] == row[place] {
            return false;
        }
    }
    true
}

fn is_good_place(units: &[Unit], layer: usize, row: &[u32], place: usize) -> bool
    requires { place < length row.now }
    ensures { IsTrue result → IsGoodPlace units.now layer row.now place }
{
    let unit = row[place] as usize;
    if unit >= units.len() {
        return false;
    }
    if units[unit].layer as usize != layer {
        return false;
    }
    is_new(row, place)
}

fn is_good_row(units: &[Unit], layer: usize, row: &[u32]) -> bool
    ensures { IsTrue result → IsGoodRow units.now layer row.now }
{
    for i in 0..row.len() {
        if !is_good_place(units, layer, row, i) {
            return false;
        }
    }
    true
}

// A row of an order.
fn row_in(order: &Order, r: usize) -> &[u32]
    requires { r < length (rows_of order.now) }
    ensures { result.now ≡ row_at (rows_of order.now) r }
{
    order.rows[r].as_slice()
}

fn are_good_rows(units: &[Unit], order: &Order) -> bool
    ensures { IsTrue result → AreGoodRows units.now (rows_of order.now) }
{
    for r in 0..order.rows.len() {
        if !is_good_row(units, r, row_in(order, r)) {
            return false;
        }
    }
    true
}

fn has_unit(row: &[u32], unit: usize) -> bool
    ensures { IsTrue result → HasUnit row.now unit }
{
    for i in 0..row.len() {
        if row[i] as usize == unit {
            return true;
        }
    }
    false
}

fn are_found(units: &[Unit], order: &Order) -> bool
    ensures { IsTrue result → AreFound units.now (rows_of order.now) }
{
    for u in 0..units.len() {
        let layer = units[u].layer as usize;
        if layer >= order.rows.len() || !has_unit(row_in(order, layer), u) {
            return false;
        }
    }
    true
}

/// Whether each row holds the units of its layer, each once.
pub fn are_rows(layered: &Layered, order: &Order) -> bool
    ensures { IsTrue result → AreRows (plain layered.now) (rows_of order.now) }
{
    let units = layered.units.as_slice();
    if order.rows.len() != layered.layers as usize || !are_good_rows(units, order) {
        return false;
    }
    are_found(units, order)
}
