//! The pairs of units that keep a distance, and the distance.

ghost use Rattle.std.specs.Prelude.{◌≡◌, ◌<◌, ◌++◌, length, IfOk};
ghost use Rattle.std.specs.List.{All};
ghost use Rattle.elk_layers.specs.Layered.{plain, rows_of, IsSound, AreRows};
ghost use Rattle.ns_place.specs.Pairs.{neighbours, row_pairs, all_pairs, IsPair};
ghost use Rattle.ns_place.specs.Pairs as lines;

use crate::least::PairFlow;
use elk_layers::{Layered, Order, body_room, children_of, room};
use std::alloc::{AllocError, Global};

/// The distance of a pair from top to top.
pub(crate) fn distance(layered: &Layered, pair: PairFlow) -> i64
    requires sound { IsSound (plain layered.now) }
    requires pair { IsPair (plain layered.now) pair }
    ensures { result ≡ lines.distance (plain layered.now) pair }
{
    if pair.body {
        body_room(layered, pair.upper, pair.lower)
    } else {
        room(layered, pair.upper, pair.lower)
    }
}

/// Adds each unit of a list with the next one.
fn push_neighbours(units: &[u32], body: bool, pairs: &mut Vec<PairFlow>) -> Result<(), AllocError>
    ensures { IfOk result (λ _. pairs.new.items ≡ pairs.old.items ++ neighbours body units.now) }
{
    for i in 1..units.len() {
        pairs.push(PairFlow {
            upper: units[i - 1],
            lower: units[i],
            body,
            flow: 0,
        })?;
    }
    Ok(())
}

/// Adds the pairs of a row.
fn push_row(
    alloc: Global,
    layered: &Layered,
    row: &[u32],
    pairs: &mut Vec<PairFlow>,
) -> Result<(), AllocError>
    requires { All (λ u. u < length (plain layered.now).units) row.now }
    ensures { IfOk result (λ _. pairs.new.items ≡ pairs.old.items ++ row_pairs (plain layered.now) row.now) }
{
    push_neighbours(row, false, pairs)?;
    let inner = children_of(alloc, layered, row)?;
    push_neighbours(inner.as_slice(), true, pairs)
}

/// The pairs of all rows, without flow.
pub(crate) fn pairs_of(
    alloc: Global,
    layered: &Layered,
    order: &Order,
) -> Result<Vec<PairFlow>, AllocError>
    requires { AreRows (plain layered.now) (rows_of order.now) }
    ensures { IfOk result (λ v. v.items ≡ all_pairs (plain layered.now) (rows_of order.now)) }
{
    let mut pairs = Vec::new(alloc);
    for row in order.rows.iter() {
        push_row(alloc, layered, row.as_slice(), &mut pairs)?;
    }
    Ok(pairs)
}
