//! The visits: at each unit, the first of its medians that is free.
ghost use Rattle.std.specs.Prelude.{◌≡◌, ◌<◌, [], length, IfOk, OnOk};
ghost use Rattle.elk_layers.specs.Layered.{plain, rows_of, IsSound, AreRows};
ghost use Rattle.elk_layers.specs.Alignment as spec;
ghost use Rattle.elk_layers.specs.Straight.{AreStraight};
ghost use Rattle.bk_place.specs.Choosing as choosing;
ghost use Rattle.bk_place.specs.Choosing.{AreLast, IsMarked};
ghost use Rattle.bk_place.specs.Medians as spec_medians;
ghost use Rattle.bk_place.specs.Medians.{CanTake, Takes};

use crate::ends::goes_up;
use crate::marking::marks;
use crate::medians::{Median, Medians, medians_by_unit};
use crate::visiting::visits;
use drawing_types::sweep::Sweep;
use elk_layers::{Layered, Order, places};
use std::alloc::{AllocError, Global};

/// Links by number, in the order in which a sweep chose them.
#[derive(Drop)]
pub struct Alignment {
    pub links: Vec<u32>,
}

/// Whether a place lies strictly beyond another, in the direction of the visits.
fn is_beyond(sweep: Sweep, here: u32, other: u32) -> bool
    ensures { result ≡ spec.is_beyond sweep here other }
{
    if goes_up(sweep) {
        other < here
    } else {
        here < other
    }
}

/// Whether a place lies beyond the last one, if there is one.
fn is_past(sweep: Sweep, last: Option<u32>, here: u32) -> bool
    ensures { result ≡ choosing.is_past sweep last here }
{
    match last {
        None => true,
        Some(other) => is_beyond(sweep, here, other),
    }
}

/// Whether a median's far end lies beyond the last one, if there is one.
fn is_open(sweep: Sweep, last: Option<u32>, median: Option<Median>) -> bool
    ensures { result ≡ spec_medians.is_open sweep last median }
{
    match median {
        None => false,
        Some(median) => is_past(sweep, last, median.place),
    }
}

/// The first of two medians whose far end lies beyond the last one.
fn first_open(
    sweep: Sweep,
    last: Option<u32>,
    first: Option<Median>,
    second: Option<Median>,
) -> Option<Median>
    ensures { result ≡ spec_medians.first_open sweep last first second }
{
    if is_open(sweep, last, first) {
        return first;
    }
    if is_open(sweep, last, second) {
        return second;
    }
    None
}

/// The first of a unit's medians that can be chosen.
fn taken(sweep: Sweep, last: Option<u32>, medians: Medians) -> Option<Median>
    ensures { result ≡ spec_medians.taken sweep last medians }
{
    if goes_up(sweep) {
        first_open(sweep, last, medians.low, medians.high)
    } else {
        first_open(sweep, last, medians.high, medians.low)
    }
}

/// Visits a unit with these medians: adds the link that it chooses, and notes the place of its far end.
fn visit(
    sweep: Sweep,
    medians: Medians,
    last: &mut [Option<u32>],
    chosen: &mut Vec<u32>,
) -> Result<(), AllocError>
    requires layer { medians.layer < length last.old }
    ensures { OnOk result (Takes sweep medians chosen.old.items chosen.new.items last.old last.new) }
{
    let layer = medians.layer as usize;
    if let Some(median) = taken(sweep, last[layer], medians) {
        chosen.push(median.number)?;
        last[layer] = Some(median.place);
    }
    Ok(())
}

/// Visits all units.
fn visit_all(
    alloc: Global,
    layered: &Layered,
    order: &Order,
    sweep: Sweep,
    table: &[Medians],
    last: &mut [Option<u32>],
) -> Result<Vec<u32>, AllocError>
    requires can { CanTake (plain layered.now) (rows_of order.now) sweep table.now }
    requires last { AreLast (plain layered.now) (rows_of order.now) sweep [] last.old }
    ensures { IfOk result (λ v. v.items ≡ spec.aligned (plain layered.now) (rows_of order.now) sweep) }
{
    let visited = visits(alloc, order, sweep)?;
    let mut chosen: Vec<u32> = Vec::with_capacity(alloc, visited.len())?;
    for unit in visited.as_slice() {
        visit(sweep, table[*unit as usize], last, &mut chosen)?;
    }
    Ok(chosen)
}

/// What the sweeps of an order share: the place of each unit in its row, and by link whether it is marked.
#[derive(Drop)]
pub struct Marked {
    pub place: Vec<u32>,
    pub marked: Vec<bool>,
}

/// The places of the units of an order, and the links that no sweep makes horizontal, since they aren't inner and
/// cross a link between two lanes.
///
/// It is the same for all sweeps, so several of them are cheaper by `align_marked`. The only error is want of
/// memory.
pub fn marked_order(alloc: Global, layered: &Layered, order: &Order) -> Result<Marked, AllocError>
    requires sound { IsSound (plain layered.now) }
    requires rows { AreRows (plain layered.now) (rows_of order.now) }
    ensures { IfOk result (λ m. IsMarked (plain layered.now) (rows_of order.now) m.place.items m.marked.items) }
{
    let place = places(alloc, layered, order)?;
    let marked = marks(alloc, layered, place.as_slice())?;
    Ok(Marked { place, marked })
}

/// The links that a sweep makes horizontal, where the medians of the units' links to its side are known.
///
/// They are those of `align`. The only error is out of memory.
pub fn align_by(
    alloc: Global,
    layered: &Layered,
    order: &Order,
    table: &[Medians],
    sweep: Sweep,
) -> Result<Alignment, AllocError>
    requires can { CanTake (plain layered.now) (rows_of order.now) sweep table.now }
    ensures chosen { IfOk result (λ a. a.links.items ≡ spec.aligned (plain layered.now) (rows_of order.now) sweep) }
    ensures straight { IfOk result (λ a. AreStraight (plain layered.now) (rows_of order.now) a.links.items) }
{
    let mut last: Vec<Option<u32>> = vec![in alloc; None; order.rows.as_slice().len()]?;
    let links = visit_all(alloc, layered, order, sweep, table, last.as_mut_slice())?;
    Ok(Alignment { links })
}

/// The links that a sweep makes horizontal, where the places and the marked links of the order are known.
///
/// They are those of `align`. The only error is out of memory.
pub fn align_marked(
    alloc: Global,
    layered: &Layered,
    order: &Order,
    known: &Marked,
    sweep: Sweep,
) -> Result<Alignment, AllocError>
    requires sound { IsSound (plain layered.now) }
    requires rows { AreRows (plain layered.now) (rows_of order.now) }
    requires known { IsMarked (plain layered.now) (rows_of order.now) known.now.place.items known.now.marked.items }
    ensures chosen { IfOk result (λ a. a.links.items ≡ spec.aligned (plain layered.now) (rows_of order.now) sweep) }
    ensures straight { IfOk result (λ a. AreStraight (plain layered.now) (rows_of order.now) a.links.items) }
{
    let table = medians_by_unit(alloc, layered, known, sweep)?;
    align_by(alloc, layered, order, table.as_slice(), sweep)
}

/// The links that a sweep makes horizontal, in the order in which it chooses them.
///
/// LEFT visits the layers from the second to the last and looks at the links to the left, RIGHT from the last
/// but one to the first and looks to the right; UP visits each row from the top, DOWN from the bottom. A
/// visited unit takes the first of its medians that is not marked and whose far end lies strictly beyond those
/// taken before in this gap. So no two of these links that lie in one gap cross or meet. The only error is out of memory. (The vertical alignment of Brandes and Köpf
/// 2002.)
///
/// Proved:
/// - The links that each of the four sweeps makes horizontal, in the order in which they are chosen. (`align_marked`)
pub fn align(
    alloc: Global,
    layered: &Layered,
    order: &Order,
    sweep: Sweep,
) -> Result<Alignment, AllocError>
    requires sound { IsSound (plain layered.now) }
    requires rows { AreRows (plain layered.now) (rows_of order.now) }
    ensures chosen { IfOk result (λ a. a.links.items ≡ spec.aligned (plain layered.now) (rows_of order.now) sweep) }
    ensures straight { IfOk result (λ a. AreStraight (plain layered.now) (rows_of order.now) a.links.items) }
{
    let known = marked_order(alloc, layered, order)?;
    align_marked(alloc, layered, order, &known, sweep)
}
