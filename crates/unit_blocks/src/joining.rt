//! The name of each unit's block, and the unit's offset in it.

ghost use Rattle.std.specs.Prelude.{◌≡◌, ◌<◌, length, slice_index_or, IfSome, IfOk, None};
ghost use Rattle.elk_layers.specs.Layered.{plain, rows_of, row_at, IsSound, AreRows};
ghost use Rattle.unit_blocks.specs.Joining.{name_for, offset_for, CanFollow, Joins, HaveHeads, AreJoinedUpTo, AreAllJoined};

use elk_layers::{Layered, Order};
use std::alloc::{AllocError, Global};

/// By unit, its block's name and its offset in the block.
#[derive(Drop)]
pub(crate) struct Joined {
    pub(crate) names: Vec<u32>,
    pub(crate) offsets: Vec<i64>,
}

/// The name that a unit takes over along the link into it, or its own.
fn name_along(layered: &Layered, names: &[u32], entry: Option<u32>, unit: u32) -> u32
    requires sound { IsSound (plain layered.now) }
    requires known { IfSome entry (λ k. k < length (plain layered.now).links) }
    requires long { length names.now ≡ length (plain layered.now).units }
    ensures { result ≡ name_for (plain layered.now) names.now entry unit }
{
    match entry {
        None => unit,
        Some(k) => {
            let links = layered.links.as_slice();
            let link = links[k as usize];
            names[link.tail as usize]
        }
    }
}

/// The offset at which the link into a unit is horizontal, or 0.
fn offset_along(layered: &Layered, offsets: &[i64], entry: Option<u32>) -> i64
    requires sound { IsSound (plain layered.now) }
    requires can { IfSome entry (λ k. CanFollow (plain layered.now) offsets.now k) }
    requires long { length offsets.now ≡ length (plain layered.now).units }
    ensures { result ≡ offset_for (plain layered.now) offsets.now entry }
{
    match entry {
        None => 0,
        Some(k) => {
            let links = layered.links.as_slice();
            let link = links[k as usize];
            offsets[link.tail as usize] + link.tail_at - link.head_at
        }
    }
}

/// Gives a unit its name and its offset.
fn join_unit(
    layered: &Layered,
    into: &[Option<u32>],
    names: &mut [u32],
    offsets: &mut [i64],
    unit: u32,
)
    requires sound { IsSound (plain layered.now) }
    requires unit { unit < length (plain layered.now).units }
    requires into { length into.now ≡ length (plain layered.now).units }
    requires names { length names.old ≡ length (plain layered.now).units }
    requires offsets { length offsets.old ≡ length (plain layered.now).units }
    requires can { IfSome (slice_index_or into.now unit None) (λ k. CanFollow (plain layered.now) offsets.old k) }
    ensures { Joins (plain layered.now) (slice_index_or into.now unit None) unit names.old names.new offsets.old offsets.new }
{
    let entry = into[unit as usize];
    let name = name_along(layered, names, entry, unit);
    let offset = offset_along(layered, offsets, entry);
    names[unit as usize] = name;
    offsets[unit as usize] = offset;
}

/// Gives the units of a row their names and offsets.
fn join_row(
    layered: &Layered,
    order: &Order,
    r: usize,
    into: &[Option<u32>],
    names: &mut [u32],
    offsets: &mut [i64],
)
    requires sound { IsSound (plain layered.now) }
    requires rows { AreRows (plain layered.now) (rows_of order.now) }
    requires row { r < length (rows_of order.now) }
    requires heads { HaveHeads (plain layered.now) into.now }
    requires before { AreJoinedUpTo (plain layered.now) (rows_of order.now) into.now r 0 names.old offsets.old }
    ensures { AreJoinedUpTo (plain layered.now) (rows_of order.now) into.now r (length (row_at (rows_of order.now) r)) names.new offsets.new }
{
    let row = order.rows[r].as_slice();
    for unit in row {
        join_unit(layered, into, names, offsets, *unit);
    }
}

/// Gives all units their names and offsets, from left to right.
fn join_rows(
    layered: &Layered,
    order: &Order,
    into: &[Option<u32>],
    names: &mut [u32],
    offsets: &mut [i64],
)
    requires sound { IsSound (plain layered.now) }
    requires rows { AreRows (plain layered.now) (rows_of order.now) }
    requires heads { HaveHeads (plain layered.now) into.now }
    requires start { AreJoinedUpTo (plain layered.now) (rows_of order.now) into.now 0 0 names.old offsets.old }
    ensures { AreAllJoined (plain layered.now) into.now names.new offsets.new }
{
    let rows = order.rows.as_slice();
    for r in 0..rows.len() {
        join_row(layered, order, r, into, names, offsets);
    }
}

/// The names and offsets of the units that these links join.
pub(crate) fn join_blocks(
    alloc: Global,
    layered: &Layered,
    order: &Order,
    into: &[Option<u32>],
) -> Result<Joined, AllocError>
    requires sound { IsSound (plain layered.now) }
    requires rows { AreRows (plain layered.now) (rows_of order.now) }
    requires heads { HaveHeads (plain layered.now) into.now }
    ensures { IfOk result (λ j. AreAllJoined (plain layered.now) into.now j.names.items j.offsets.items) }
{
    let count = layered.units.len();
    let mut names: Vec<u32> = vec![in alloc; 0; count]?;
    let mut offsets: Vec<i64> = vec![in alloc; 0; count]?;
    join_rows(
        layered,
        order,
        into,
        names.as_mut_slice(),
        offsets.as_mut_slice(),
    );
    Ok(Joined { names, offsets })
}
