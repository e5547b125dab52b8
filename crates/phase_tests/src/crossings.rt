//! Worked rows: two units beside two, and five beside five.
ghost use Rattle.std.specs.Prelude.{◌≡◌, [], ◌∷◌, IfOk};
ghost use Rattle.elk_layers.specs.Layered.{plain, rows_of, IsSound, AreRows};
ghost use Rattle.elk_layers.specs.Examples as example;

use cross_reduce::{crossings, reduce};
use elk_layers::{Layered, Link, Order, Unit};
use std::alloc::{AllocError, Global};
use std::test::Fail;

// A child without lanes.
fn child(layer: u32) -> Unit
    ensures { result ≡ example.child layer }
{
    Unit {
        layer,
        child: Some(0),
        height: 10,
        body_top: 0,
        body_height: 10,
        north: 0,
        south: 0,
    }
}

fn joins(tail: u32, head: u32) -> Link
    ensures { result ≡ example.joins tail head }
{
    Link {
        edge: 0,
        tail,
        head,
        tail_rank: 0,
        head_rank: 0,
        tail_at: 5,
        head_at: 5,
    }
}

fn drawing(units: Vec<Unit>, links: Vec<Link>) -> Layered
    ensures { plain result ≡ example.drawing units.items links.items }
{
    Layered {
        layers: 2,
        units,
        links,
        node_node: 20,
        edge_node: 10,
        edge_edge: 7,
    }
}

// Two units beside two, with the heads of the two links.
pub(crate) fn two_by_two(alloc: Global, first: u32, second: u32) -> Result<Layered, AllocError>
    ensures { IfOk result
        (λ l. plain l
        ≡ example.drawing (example.child 0 ∷ example.child 0 ∷ example.child 1 ∷ example.child 1 ∷ [])
        (example.joins 0 first ∷ example.joins 1 second ∷ [])) }
{
    let units = vec![in alloc; child(0), child(0), child(1), child(1)]?;
    let links = vec![in alloc; joins(0, first), joins(1, second)]?;
    Ok(drawing(units, links))
}

pub(crate) fn two_rows(alloc: Global) -> Result<Order, AllocError>
    ensures { IfOk result (λ o. rows_of o ≡ example.two_rows) }
{
    let rows = vec![in alloc; vec![in alloc; 0, 1]?, vec![in alloc; 2, 3]?]?;
    Ok(Order { rows })
}

// Five units beside five with six links.
fn five_by_five(alloc: Global) -> Result<Layered, AllocError>
    ensures { IfOk result (λ l. plain l ≡ example.five_by_five) }
{
    let units = vec![in alloc;
        child(0),
        child(0),
        child(0),
        child(0),
        child(0),
        child(1),
        child(1),
        child(1),
        child(1),
        child(1),
    ]?;
    let links = vec![in alloc;
        joins(0, 7),
        joins(1, 8),
        joins(2, 5),
        joins(2, 9),
        joins(3, 6),
        joins(4, 7),
    ]?;
    Ok(drawing(units, links))
}

fn five_rows(alloc: Global) -> Result<Order, AllocError>
    ensures { IfOk result (λ o. rows_of o ≡ example.five_rows) }
{
    let rows = vec![in alloc;
        vec![in alloc; 0, 1, 2, 3, 4]?,
        vec![in alloc; 5, 6, 7, 8, 9]?,
    ]?;
    Ok(Order { rows })
}

// The crossings of an order, and those after it is reduced.
fn before_and_after(
    alloc: Global,
    layered: &Layered,
    start: Order,
) -> Result<(u64, u64), AllocError>
    requires sound { IsSound (plain layered.now) }
    requires rows { AreRows (plain layered.now) (rows_of start) }
{
    let before = crossings(alloc, layered, &start)?;
    let order = reduce(alloc, layered, start)?;
    let after = crossings(alloc, layered, &order)?;
    Ok((before, after))
}

// The crossings of two links that cross.
fn of_two_that_cross(alloc: Global) -> Result<(u64, u64), AllocError> {
    let crossing = two_by_two(alloc, 3, 2)?;
    let crossing_rows = two_rows(alloc)?;
    before_and_after(alloc, &crossing, crossing_rows)
}

// The order of two links that don't cross.
fn kept_order(alloc: Global) -> Result<Order, AllocError> {
    let straight = two_by_two(alloc, 2, 3)?;
    let straight_rows = two_rows(alloc)?;
    reduce(alloc, &straight, straight_rows)
}

#[test]
fn two_beside_two(rt: HostRuntime) -> Result<(), Fail> {
    assert_eq!(rt; of_two_that_cross(rt.alloc())?, (1, 0));
    let kept = kept_order(rt.alloc())?;
    assert_eq!(rt; kept.rows.len(), 2);
    assert_eq!(rt; kept.rows[0].as_slice(), [0, 1].as_slice());
    assert_eq!(rt; kept.rows[1].as_slice(), [2, 3].as_slice());
    Ok(())
}

// The crossings of five units beside five.
fn of_five_beside_five(alloc: Global) -> Result<(u64, u64), AllocError> {
    let layered = five_by_five(alloc)?;
    let rows = five_rows(alloc)?;
    before_and_after(alloc, &layered, rows)
}

#[test]
fn five_beside_five(rt: HostRuntime) -> Result<(), Fail> {
    assert_eq!(rt; of_five_beside_five(rt.alloc())?, (7, 0));
    Ok(())
}
