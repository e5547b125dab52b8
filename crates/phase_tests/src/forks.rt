//! One unit with two links to two units, and with a third.
ghost use Rattle.std.specs.Prelude.{◌≡◌, IfOk};
ghost use Rattle.elk_layers.specs.Layered.{plain, rows_of};
ghost use Rattle.elk_layers.specs.PlaceExamples as example;
ghost use Rattle.phase_tests.specs.DoubledFork as second;

use elk_layers::{Layered, Link, Order, Unit};
use std::alloc::{AllocError, Global};

fn child(layer: u32) -> Unit
    ensures { result ≡ example.box layer }
{
    Unit {
        layer,
        child: Some(0),
        height: 30,
        body_top: 0,
        body_height: 30,
        north: 0,
        south: 0,
    }
}

fn leads(head: u32, at: i64) -> Link
    ensures { result ≡ example.leads head at }
{
    Link {
        edge: 0,
        tail: 0,
        head,
        tail_rank: 0,
        head_rank: 0,
        tail_at: at,
        head_at: 15,
    }
}

pub fn forked(alloc: Global) -> Result<Layered, AllocError>
    ensures { IfOk result (λ l. plain l ≡ example.forked) }
{
    let units = vec![in alloc; child(0), child(1), child(1)]?;
    let links = vec![in alloc; leads(1, 10), leads(2, 20)]?;
    Ok(Layered {
        layers: 2,
        units,
        links,
        node_node: 20,
        edge_node: 10,
        edge_edge: 10,
    })
}

/// The fork with a second link to the lower of the two.
pub fn doubled(alloc: Global) -> Result<Layered, AllocError>
    ensures { IfOk result (λ l. plain l ≡ second.doubled) }
{
    let units = vec![in alloc; child(0), child(1), child(1)]?;
    let links = vec![in alloc; leads(1, 10), leads(2, 20), leads(2, 20)]?;
    Ok(Layered {
        layers: 2,
        units,
        links,
        node_node: 20,
        edge_node: 10,
        edge_edge: 10,
    })
}

pub fn forked_rows(alloc: Global) -> Result<Order, AllocError>
    ensures { IfOk result (λ o. rows_of o ≡ example.forked_rows) }
{
    let rows = vec![in alloc; vec![in alloc; 0]?, vec![in alloc; 1, 2]?]?;
    Ok(Order { rows })
}
