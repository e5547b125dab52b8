//! Exchanges of neighbours, as long as one lowers the crossings.
ghost use Rattle.std.specs.Prelude.{◌≡◌, ℕ, ◌<◌, ◌≤◌, ◌+◌, ◌^◌, ◌||◌, ◌&&◌, ℤ, Option, length, IfOk, OnOk, slice_index, nat_lt, count_by, cond};
ghost use Rattle.std.specs.List.{swap};
ghost use Rattle.elk_layers.specs.Layered.{plain, rows_of, row_at, IsSound, AreRows};
ghost use Rattle.elk_layers.specs.Crossings.{HasSameRows, NoBetterSwap};
ghost use Rattle.elk_layers.specs.Crossings as crossing;
ghost use Rattle.cross_reduce.specs.Reduced.{after_pair, after_row, after_rows, SettlesTo};
ghost use Rattle.cross_reduce.specs.Fans.{far_keys, fan_lists, fan_at, AreFans};
ghost use Rattle.cross_reduce.specs.declared.fans.Towards.TheVariants.{Left, Right};
ghost use Rattle.cross_reduce.specs.Fans as fan;
ghost use Rattle.cross_reduce.specs.Exchanges.{FitsKey, FitKeys, IsState, IsTried, KeepsOthers, crossed_above, crossed_between};
ghost use Rattle.cross_reduce.specs.Held as held_spec;
ghost use Rattle.cross_reduce.specs.Held.{AreHeldRows, NoBetterFreeSwap, IsNoneHeld, IsNoBetterFree, NoneFreeInRow, AreSettled};

use crate::fans::{Fans, Far, Towards};
use crate::holding::is_held;
use crate::settling::note_row;
use crate::sweeping::fans_for;
use elk_layers::{Layered, Order, places};
use lane_count::count_above;
use std::alloc::{AllocError, Global};

/// The keys of far ends.
fn keys(alloc: Global, fan: &[Far], place: &[u32]) -> Result<Vec<u32>, AllocError>
    requires { FitKeys place.now fan.now }
    ensures { IfOk result (λ v. v.items ≡ far_keys place.now fan.now) }
{
    let mut keys: Vec<u32> = Vec::with_capacity(alloc, fan.len())?;
    for far in fan {
        keys.push(place[far.unit as usize] * 65536 + far.rank)?;
    }
    Ok(keys)
}

/// How many pairs of a key of the one list and a key of the other descend.
fn descents(upper: &[u32], lower: &[u32]) -> u64
    requires upper { length upper.now ≤ 2 ^ 24 }
    requires lower { length lower.now ≤ 2 ^ 24 }
    ensures value { result ≡ fan.descents upper.now lower.now }
    ensures bound { result ≤ 2 ^ 48 }
{
    let mut total: u64 = 0;
    for key in lower {
        total += count_above(upper, *key);
    }
    total
}

/// The key of a far end.
fn key_of(place: &[u32], far: Far) -> u32
    requires { FitsKey place.now far }
    ensures { result ≡ fan.far_key place.now far }
{
    place[far.unit as usize] * 65536 + far.rank
}

/// One where a test holds, and else none.
fn one_if(test: bool) -> u64
    ensures value { result ≡ cond test 1 0 }
    ensures bound { result ≤ 1 }
{
    test as u64
}

/// How many far ends have greater keys.
fn keys_over(place: &[u32], fan: &[Far], key: u32) -> u64
    requires { FitKeys place.now fan.now }
    ensures value { result ≡ count_by (λ x. nat_lt key x) (far_keys place.now fan.now) }
    ensures bound { result ≤ length fan.now }
{
    let mut total: u64 = 0;
    for far in fan {
        total += one_if(key_of(place, *far) > key);
    }
    total
}

/// The crossings of the links of two neighbours to one side, where the first stands above the second.
fn crossed(place: &[u32], upper: &[Far], lower: &[Far]) -> u64
    requires upper { FitKeys place.now upper.now }
    requires lower { FitKeys place.now lower.now }
    ensures value { result ≡ crossed_above place.now upper.now lower.now }
    ensures bound { result ≤ 2 ^ 48 }
{
    let mut total: u64 = 0;
    for far in lower {
        total += keys_over(place, upper, key_of(place, *far));
    }
    total
}

/// The crossings of the links of two neighbours to one side, as they stand and exchanged.
///
/// For many links the keys are listed first, so that the kernel compares sixteen at once.
fn both_ways(
    alloc: Global,
    upper: &[Far],
    lower: &[Far],
    place: &[u32],
) -> Result<(u64, u64), AllocError>
    requires upper { FitKeys place.now upper.now }
    requires lower { FitKeys place.now lower.now }
    ensures now { IfOk result (λ v. v.0 ≡ crossed_above place.now upper.now lower.now) }
    ensures exchanged { IfOk result (λ v. v.1 ≡ crossed_above place.now lower.now upper.now) }
    ensures small { IfOk result (λ v. v.0 ≤ 2 ^ 48) }
    ensures small_then { IfOk result (λ v. v.1 ≤ 2 ^ 48) }
{
    if upper.len() <= 8 && lower.len() <= 8 {
        return Ok((crossed(place, upper, lower), crossed(place, lower, upper)));
    }
    let above = keys(alloc, upper, place)?;
    let below = keys(alloc, lower, place)?;
    Ok((
        descents(above.as_slice(), below.as_slice()),
        descents(below.as_slice(), above.as_slice()),
    ))
}

/// An order with what is kept along with it: the places, and the far ends of the links to both sides.
#[derive(Drop)]
struct State {
    order: Order,
    place: Vec<u32>,
    left: Fans,
    right: Fans,
}

/// Whether two neighbours have fewer crossings exchanged than as they stand.
fn is_better(
    alloc: Global,
    place: &[u32],
    left: &Fans,
    right: &Fans,
    upper: u32,
    lower: u32,
) -> Result<bool, AllocError>
    requires upper_left { upper < length (fan_lists left.now) }
    requires lower_left { lower < length (fan_lists left.now) }
    requires upper_right { upper < length (fan_lists right.now) }
    requires lower_right { lower < length (fan_lists right.now) }
    requires upper_left_fits { FitKeys place.now (fan_at (fan_lists left.now) upper) }
    requires lower_left_fits { FitKeys place.now (fan_at (fan_lists left.now) lower) }
    requires upper_right_fits { FitKeys place.now (fan_at (fan_lists right.now) upper) }
    requires lower_right_fits { FitKeys place.now (fan_at (fan_lists right.now) lower) }
    ensures { IfOk result
        (λ b. b
        ≡ nat_lt (crossed_between place.now (fan_lists left.now) (fan_lists right.now) lower upper)
        (crossed_between place.now (fan_lists left.now) (fan_lists right.now) upper lower)) }
{
    let (left_now, left_then) = both_ways(alloc, left.at(upper), left.at(lower), place)?;
    let (right_now, right_then) = both_ways(alloc, right.at(upper), right.at(lower), place)?;
    Ok(left_then + right_then < left_now + right_now)
}

/// Two neighbours of a row, from the top.
fn neighbours(order: &Order, r: usize, i: usize) -> (u32, u32)
    requires row { r < length (rows_of order.now) }
    requires place { i + 1 < length (row_at (rows_of order.now) r) }
    ensures upper { result.0 ≡ slice_index (row_at (rows_of order.now) r) i }
    ensures lower { result.1 ≡ slice_index (row_at (rows_of order.now) r) (i + 1) }
{
    let row = order.rows[r].as_slice();
    (row[i], row[i + 1])
}

/// Exchanges two neighbours of a row.
fn swap_in(order: &mut Order, r: usize, i: usize)
    requires row { r < length (rows_of order.old) }
    requires place { i + 1 < length (row_at (rows_of order.old) r) }
    ensures { rows_of order.new ≡ crossing.exchanged (rows_of order.old) r i }
{
    swap_neighbours(&mut order.rows[r], i);
}

/// Exchanges two neighbours of a list.
fn swap_neighbours(row: &mut Vec<u32>, i: usize)
    requires { i + 1 < length row.old.items }
    ensures { row.new.items ≡ swap row.old.items i (i + 1) }
{
    row.as_mut_slice().swap(i, i + 1);
}

/// Exchanges two neighbours.
fn exchange(layered: &Layered, state: &mut State, r: usize, i: usize)
    requires state { IsState (plain layered.now) (rows_of state.old.order) state.old.place.items (fan_lists state.old.left) (fan_lists state.old.right) }
    requires row { r < length (rows_of state.old.order) }
    requires place { i + 1 < length (row_at (rows_of state.old.order) r) }
    ensures rows { rows_of state.new.order ≡ crossing.exchanged (rows_of state.old.order) r i }
    ensures state { IsState (plain layered.now) (rows_of state.new.order) state.new.place.items (fan_lists state.new.left) (fan_lists state.new.right) }
{
    let (upper, lower) = neighbours(&state.order, r, i);
    swap_in(&mut state.order, r, i);
    state.place[upper as usize] = (i + 1) as u32;
    state.place[lower as usize] = i as u32;
}

/// Whether two units are both held.
fn are_both_held(held: &[Option<i64>], upper: u32, lower: u32) -> bool
    ensures { result ≡ (held_spec.is_held held.now upper && held_spec.is_held held.now lower) }
{
    is_held(held, upper) && is_held(held, lower)
}

/// Exchanges two neighbours where that lowers the crossings, unless both are held.
fn try_exchange(
    alloc: Global,
    layered: &Layered,
    held: &[Option<i64>],
    state: &mut State,
    r: usize,
    i: usize,
) -> Result<bool, AllocError>
    requires state { IsState (plain layered.now) (rows_of state.old.order) state.old.place.items (fan_lists state.old.left) (fan_lists state.old.right) }
    requires row { r < length (rows_of state.old.order) }
    requires place { i + 1 < length (row_at (rows_of state.old.order) r) }
    ensures state { OnOk result
        (IsState (plain layered.now) (rows_of state.new.order) state.new.place.items (fan_lists state.new.left)
        (fan_lists state.new.right)) }
    ensures same { OnOk result (HasSameRows (rows_of state.old.order) (rows_of state.new.order)) }
    ensures after { OnOk result (IsNoneHeld held.now → rows_of state.new.order ≡ after_pair (plain layered.now) (rows_of state.old.order) r i) }
    ensures ascends { OnOk result (AreHeldRows held.now (rows_of state.old.order) → AreHeldRows held.now (rows_of state.new.order)) }
    ensures tried { IfOk result
        (λ changed. IsTried (plain layered.now) (rows_of state.old.order) (rows_of state.new.order) changed
        (IsNoBetterFree (plain layered.now) held.now (rows_of state.old.order) r i)) }
    ensures others { OnOk result (KeepsOthers (rows_of state.old.order) (rows_of state.new.order) r) }
{
    let (upper, lower) = neighbours(&state.order, r, i);
    if are_both_held(held, upper, lower) {
        return Ok(false);
    }
    let place = state.place.as_slice();
    let better = is_better(alloc, place, &state.left, &state.right, upper, lower)?;
    if better {
        exchange(layered, state, r, i);
    }
    Ok(better)
}

/// Tries the neighbours of a row, from the top.
fn try_row(
    alloc: Global,
    layered: &Layered,
    held: &[Option<i64>],
    state: &mut State,
    r: usize,
) -> Result<bool, AllocError>
    requires state { IsState (plain layered.now) (rows_of state.old.order) state.old.place.items (fan_lists state.old.left) (fan_lists state.old.right) }
    requires row { r < length (rows_of state.old.order) }
    ensures state { OnOk result
        (IsState (plain layered.now) (rows_of state.new.order) state.new.place.items (fan_lists state.new.left)
        (fan_lists state.new.right)) }
    ensures same { OnOk result (HasSameRows (rows_of state.old.order) (rows_of state.new.order)) }
    ensures after { OnOk result (IsNoneHeld held.now → rows_of state.new.order ≡ after_row (plain layered.now) (rows_of state.old.order) r) }
    ensures ascends { OnOk result (AreHeldRows held.now (rows_of state.old.order) → AreHeldRows held.now (rows_of state.new.order)) }
    ensures tried { IfOk result
        (λ changed. IsTried (plain layered.now) (rows_of state.old.order) (rows_of state.new.order) changed
        (NoneFreeInRow (plain layered.now) held.now (rows_of state.old.order) r)) }
    ensures others { OnOk result (KeepsOthers (rows_of state.old.order) (rows_of state.new.order) r) }
{
    let mut changed = false;
    let len = row_len(&state.order, r);
    for i in 1..len {
        let now = try_exchange(alloc, layered, held, state, r, i - 1)?;
        changed = either(changed, now);
    }
    Ok(changed)
}

/// Whether one of two is true.
fn either(one: bool, other: bool) -> bool
    ensures { result ≡ (one || other) }
{
    one || other
}

/// The number of units in a row.
fn row_len(order: &Order, r: usize) -> usize
    requires { r < length (rows_of order.now) }
    ensures { result ≡ length (row_at (rows_of order.now) r) }
{
    order.rows[r].len()
}

/// Tries the neighbours of a row, if it isn't known to be settled.
fn try_unsettled(
    alloc: Global,
    layered: &Layered,
    held: &[Option<i64>],
    state: &mut State,
    settled: &mut Vec<bool>,
    r: usize,
) -> Result<bool, AllocError>
    requires state { IsState (plain layered.now) (rows_of state.old.order) state.old.place.items (fan_lists state.old.left) (fan_lists state.old.right) }
    requires settled { AreSettled (plain layered.now) held.now (rows_of state.old.order) settled.old.items }
    requires row { r < length (rows_of state.old.order) }
    ensures state { OnOk result
        (IsState (plain layered.now) (rows_of state.new.order) state.new.place.items (fan_lists state.new.left)
        (fan_lists state.new.right)) }
    ensures settled { OnOk result (AreSettled (plain layered.now) held.now (rows_of state.new.order) settled.new.items) }
    ensures same { OnOk result (HasSameRows (rows_of state.old.order) (rows_of state.new.order)) }
    ensures after { OnOk result (IsNoneHeld held.now → rows_of state.new.order ≡ after_row (plain layered.now) (rows_of state.old.order) r) }
    ensures ascends { OnOk result (AreHeldRows held.now (rows_of state.old.order) → AreHeldRows held.now (rows_of state.new.order)) }
    ensures tried { IfOk result
        (λ changed. IsTried (plain layered.now) (rows_of state.old.order) (rows_of state.new.order) changed
        (NoneFreeInRow (plain layered.now) held.now (rows_of state.old.order) r)) }
{
    if settled[r] {
        return Ok(false);
    }
    let changed = try_row(alloc, layered, held, state, r)?;
    note_row(settled, r, changed);
    Ok(changed)
}

/// Tries the neighbours of each row that isn't settled.
fn try_rows(
    alloc: Global,
    layered: &Layered,
    held: &[Option<i64>],
    state: &mut State,
    settled: &mut Vec<bool>,
) -> Result<bool, AllocError>
    requires state { IsState (plain layered.now) (rows_of state.old.order) state.old.place.items (fan_lists state.old.left) (fan_lists state.old.right) }
    requires settled { AreSettled (plain layered.now) held.now (rows_of state.old.order) settled.old.items }
    ensures state { OnOk result
        (IsState (plain layered.now) (rows_of state.new.order) state.new.place.items (fan_lists state.new.left)
        (fan_lists state.new.right)) }
    ensures settled { OnOk result (AreSettled (plain layered.now) held.now (rows_of state.new.order) settled.new.items) }
    ensures same { OnOk result (HasSameRows (rows_of state.old.order) (rows_of state.new.order)) }
    ensures after { OnOk result (IsNoneHeld held.now → rows_of state.new.order ≡ after_rows (plain layered.now) (rows_of state.old.order) (length (rows_of state.old.order))) }
    ensures ascends { OnOk result (AreHeldRows held.now (rows_of state.old.order) → AreHeldRows held.now (rows_of state.new.order)) }
    ensures tried { IfOk result
        (λ changed. IsTried (plain layered.now) (rows_of state.old.order) (rows_of state.new.order) changed
        (NoBetterFreeSwap (plain layered.now) held.now (rows_of state.old.order))) }
{
    let mut changed = false;
    for r in 0..layered.layers as usize {
        let now = try_unsettled(alloc, layered, held, state, settled, r)?;
        changed = either(changed, now);
    }
    Ok(changed)
}

/// The order with its places and these far ends.
fn state_with(
    alloc: Global,
    layered: &Layered,
    order: Order,
    left: Fans,
    right: Fans,
) -> Result<State, AllocError>
    requires sound { IsSound (plain layered.now) }
    requires rows { AreRows (plain layered.now) (rows_of order) }
    requires left { AreFans Left (plain layered.now).links (length (plain layered.now).units) (fan_lists left) }
    requires right { AreFans Right (plain layered.now).links (length (plain layered.now).units) (fan_lists right) }
    ensures order { IfOk result (λ state. rows_of state.order ≡ rows_of order) }
    ensures state { IfOk result (λ state. IsState (plain layered.now) (rows_of state.order) state.place.items (fan_lists state.left) (fan_lists state.right)) }
{
    let place = places(alloc, layered, &order)?;
    Ok(State {
        order,
        place,
        left,
        right,
    })
}

/// Exchanges neighbours of which not both are held until no exchange lowers the crossings, by the far ends of the links to both
/// sides.
///
/// A row in which no exchange did is tried again only once it or a row beside it has changed.
fn exchanged_free_by(
    alloc: Global,
    layered: &Layered,
    held: &[Option<i64>],
    order: Order,
    left: Fans,
    right: Fans,
) -> Result<Order, AllocError>
    requires sound { IsSound (plain layered.now) }
    requires rows { AreRows (plain layered.now) (rows_of order) }
    requires left { AreFans Left (plain layered.now).links (length (plain layered.now).units) (fan_lists left) }
    requires right { AreFans Right (plain layered.now).links (length (plain layered.now).units) (fan_lists right) }
    ensures same { IfOk result (λ o. HasSameRows (rows_of order) (rows_of o)) }
    ensures ascends { IfOk result (λ o. AreHeldRows held.now (rows_of order) → AreHeldRows held.now (rows_of o)) }
    ensures settled { IfOk result (λ o. NoBetterFreeSwap (plain layered.now) held.now (rows_of o)) }
    ensures settles { IfOk result (λ o. IsNoneHeld held.now → SettlesTo (plain layered.now) (rows_of order) (rows_of o)) }
{
    let mut state = state_with(alloc, layered, order, left, right)?;
    let mut settled: Vec<bool> = vec![in alloc; false; layered.layers as usize]?;
    let mut changed = true;
    while changed {
        changed = try_rows(alloc, layered, held, &mut state, &mut settled)?;
    }
    Ok(state.order)
}

/// Exchanges neighbours of which not both are held until no exchange lowers the crossings.
pub(crate) fn exchanged_free(
    alloc: Global,
    layered: &Layered,
    held: &[Option<i64>],
    order: Order,
) -> Result<Order, AllocError>
    requires sound { IsSound (plain layered.now) }
    requires rows { AreRows (plain layered.now) (rows_of order) }
    requires ascends { AreHeldRows held.now (rows_of order) }
    ensures same { IfOk result (λ o. HasSameRows (rows_of order) (rows_of o)) }
    ensures ascends { IfOk result (λ o. AreHeldRows held.now (rows_of o)) }
    ensures settled { IfOk result (λ o. NoBetterFreeSwap (plain layered.now) held.now (rows_of o)) }
{
    let left = fans_for(alloc, layered, Towards::Left)?;
    let right = fans_for(alloc, layered, Towards::Right)?;
    exchanged_free_by(alloc, layered, held, order, left, right)
}

/// Exchanges neighbours until no exchange lowers the crossings, by the far ends of the links to both sides.
pub(crate) fn exchanged_by(
    alloc: Global,
    layered: &Layered,
    order: Order,
    left: Fans,
    right: Fans,
) -> Result<Order, AllocError>
    requires sound { IsSound (plain layered.now) }
    requires rows { AreRows (plain layered.now) (rows_of order) }
    requires left { AreFans Left (plain layered.now).links (length (plain layered.now).units) (fan_lists left) }
    requires right { AreFans Right (plain layered.now).links (length (plain layered.now).units) (fan_lists right) }
    ensures same { IfOk result (λ o. HasSameRows (rows_of order) (rows_of o)) }
    ensures settled { IfOk result (λ o. NoBetterSwap (plain layered.now) (rows_of o)) }
    ensures settles { IfOk result (λ o. SettlesTo (plain layered.now) (rows_of order) (rows_of o)) }
{
    let none: Vec<Option<i64>> = Vec::new(alloc);
    exchanged_free_by(alloc, layered, none.as_slice(), order, left, right)
}

/// Exchanges neighbours until no exchange lowers the crossings.
pub(crate) fn exchanged(alloc: Global, layered: &Layered, order: Order) -> Result<Order, AllocError>
    requires sound { IsSound (plain layered.now) }
    requires rows { AreRows (plain layered.now) (rows_of order) }
    ensures same { IfOk result (λ o. HasSameRows (rows_of order) (rows_of o)) }
    ensures settled { IfOk result (λ o. NoBetterSwap (plain layered.now) (rows_of o)) }
    ensures settles { IfOk result (λ o. SettlesTo (plain layered.now) (rows_of order) (rows_of o)) }
{
    let left = fans_for(alloc, layered, Towards::Left)?;
    let right = fans_for(alloc, layered, Towards::Right)?;
    exchanged_by(alloc, layered, order, left, right)
}
