//! Two links that cross, with units that are held.
ghost use Rattle.std.specs.Prelude.{◌≡◌, length};
ghost use Rattle.elk_layers.specs.Layered.{plain, rows_of, IsSound, AreRows};

use crate::checks::{are_rows, is_sound};
use crate::crossings::{two_by_two, two_rows};
use cross_reduce::reduce_held;
use elk_layers::{Layered, Order};
use std::alloc::{AllocError, Global};
use std::test::Fail;

// The order in which the units with keys are held, of which nothing more is known.
pub(crate) fn held(
    alloc: Global,
    layered: &Layered,
    start: Order,
    keys: &[Option<i64>],
) -> Result<Order, AllocError>
    requires sound { IsSound (plain layered.now) }
    requires rows { AreRows (plain layered.now) (rows_of start) }
    requires keys { length keys.now ≡ length (plain layered.now).units }
{
    reduce_held(alloc, layered, start, keys, 7)
}

// The order of the units 0 and 1 before 2 and 3, of which 0 is joined with 3 and 1 with 2. The first two are held, the others by
// these keys.
fn order_by(alloc: Global, third: Option<i64>, fourth: Option<i64>) -> Result<Order, AllocError> {
    let layered = two_by_two(alloc, 3, 2)?;
    let start = two_rows(alloc)?;
    let keys = vec![in alloc; Some(0), Some(1), third, fourth]?;
    if !is_sound(&layered) || !are_rows(&layered, &start) {
        return Ok(start);
    }
    let keys = keys.as_slice();
    if keys.len() != layered.units.len() {
        return Ok(start);
    }
    held(alloc, &layered, start, keys)
}

// Whether the second row of an order is this.
fn has_second(order: &Order, row: &[u32]) -> bool {
    match order.rows.as_slice().get(1) {
        Some(second) => second.as_slice() == row,
        None => false,
    }
}

#[test]
fn held_units_keep_their_order(rt: HostRuntime) -> Result<(), Fail> {
    let alloc = rt.alloc();
    let by_key = order_by(alloc, Some(-5), Some(5))?;
    assert!(rt; has_second(&by_key, [2, 3].as_slice()));
    let flipped = order_by(alloc, Some(5), Some(-5))?;
    assert!(rt; has_second(&flipped, [3, 2].as_slice()));
    let equal = order_by(alloc, Some(5), Some(5))?;
    assert!(rt; has_second(&equal, [2, 3].as_slice()));
    let free = order_by(alloc, None, Some(5))?;
    assert!(rt; has_second(&free, [3, 2].as_slice()));
    Ok(())
}
