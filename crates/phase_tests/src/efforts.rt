//! Crossings of fifty long edges by the effort of the search for orders.
ghost use Rattle.elk_layers.specs.Layered.{plain, rows_of, IsSound, AreRows};

use crate::checks::{are_rows, is_sound};
use crate::fifty::fifty;
use cross_reduce::{crossings, reduce, reduce_with_effort};
use elk_layers::{Layered, Order};
use std::alloc::{AllocError, Global};
use std::test::Fail;

// The order that the search of an effort finds, of which nothing more is known.
pub(crate) fn found(
    alloc: Global,
    layered: &Layered,
    start: Order,
    effort: u32,
) -> Result<Order, AllocError>
    requires sound { IsSound (plain layered.now) }
    requires rows { AreRows (plain layered.now) (rows_of start) }
{
    reduce_with_effort(alloc, layered, start, effort)
}

// The usual order, of which nothing more is known.
fn usual(alloc: Global, layered: &Layered, start: Order) -> Result<Order, AllocError>
    requires sound { IsSound (plain layered.now) }
    requires rows { AreRows (plain layered.now) (rows_of start) }
{
    reduce(alloc, layered, start)
}

// The order by an effort, or the usual one where none is told.
fn order_by(alloc: Global, effort: Option<u32>) -> Result<(Layered, Order), AllocError> {
    let (layered, start) = fifty(alloc)?;
    if !is_sound(&layered) || !are_rows(&layered, &start) {
        return Ok((layered, start));
    }
    let order = match effort {
        Some(effort) => found(alloc, &layered, start, effort)?,
        None => usual(alloc, &layered, start)?,
    };
    Ok((layered, order))
}

// The crossings by an effort, or by the usual one; 0 where the rows are none.
fn crossings_by(alloc: Global, effort: Option<u32>) -> Result<u64, AllocError> {
    let (layered, order) = order_by(alloc, effort)?;
    if !is_sound(&layered) || !are_rows(&layered, &order) {
        return Ok(0);
    }
    crossings(alloc, &layered, &order)
}

#[test]
fn more_effort_leaves_fewer_crossings(rt: HostRuntime) -> Result<(), Fail> {
    let alloc = rt.alloc();
    let none = crossings_by(alloc, Some(0))?;
    let usual = crossings_by(alloc, Some(7))?;
    let great = crossings_by(alloc, Some(100))?;
    assert!(rt; 0 < great);
    assert!(rt; great < usual);
    assert!(rt; usual < none);
    assert_eq!(rt; crossings_by(alloc, None)?, usual);
    Ok(())
}

#[test]
fn no_effort_from_seven_on_leaves_more_crossings(rt: HostRuntime) -> Result<(), Fail> {
    let alloc = rt.alloc();
    let mut before = crossings_by(alloc, Some(7))?;
    for effort in [8, 10, 12, 15, 20, 30, 60, 100] {
        let now = crossings_by(alloc, Some(effort))?;
        assert!(rt; now <= before);
        before = now;
    }
    Ok(())
}
