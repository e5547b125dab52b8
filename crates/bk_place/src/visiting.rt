//! The order in which a sweep visits the units.
ghost use Rattle.std.specs.Prelude.{◌≡◌, ◌<◌, ◌-◌, ◌++◌, cond, IfOk};
ghost use Rattle.elk_layers.specs.Layered.{rows_of};
ghost use Rattle.elk_layers.specs.Alignment.{visited_row};
ghost use Rattle.elk_layers.specs.Alignment as spec;

use crate::ends::{goes_left, goes_up};
use drawing_types::sweep::Sweep;
use elk_layers::Order;
use std::alloc::{AllocError, Global};

/// A place counted from the front, or from the back.
fn counted(forward: bool, i: usize, count: usize) -> usize
    requires { i < count }
    ensures place { result ≡ cond forward i (count - 1 - i) }
    ensures below { result < count }
{
    if forward { i } else { count - 1 - i }
}

/// Adds the units of a row in the order of the visits.
fn push_row(sweep: Sweep, row: &[u32], visits: &mut Vec<u32>) -> Result<(), AllocError>
    ensures { IfOk result (λ _. visits.new.items ≡ visits.old.items ++ visited_row sweep row.now) }
{
    let up = goes_up(sweep);
    for i in 0..row.len() {
        let at = counted(up, i, row.len());
        visits.push(row[at])?;
    }
    Ok(())
}

/// The units in the order in which the sweep visits them.
pub(crate) fn visits(alloc: Global, order: &Order, sweep: Sweep) -> Result<Vec<u32>, AllocError>
    ensures { IfOk result (λ v. v.items ≡ spec.visits sweep (rows_of order.now)) }
{
    let left = goes_left(sweep);
    let rows = order.rows.as_slice();
    let mut visits: Vec<u32> = Vec::new(alloc);
    for i in 1..rows.len() {
        let at = counted(left, i, rows.len());
        push_row(sweep, rows[at].as_slice(), &mut visits)?;
    }
    Ok(visits)
}
