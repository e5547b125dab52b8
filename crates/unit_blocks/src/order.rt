//! The order of the blocks, kept as a linked list while the rows are woven together.

ghost use Rattle.std.specs.Prelude.{◌≡◌, ℕ, ◌<◌, ◌+◌, Bool, List, length, slice_index, IfOk};
ghost use Rattle.std.specs.List.{All};
ghost use Rattle.unit_blocks.specs.Weaving.{woven};
ghost use Rattle.unit_blocks.specs.Blocks.{names_of};
ghost use Rattle.unit_blocks.specs.Blocks as blocks;
ghost use Rattle.elk_layers.specs.Layered.{plain, rows_of};
ghost use Rattle.unit_blocks.specs.Chains.{IsChain, inserted_after, IsWeavable, StepsTo, CanWeaveRows, HoldList, WalksTo, has_entry};

use elk_layers::{Layered, Order};
use std::alloc::{AllocError, Global};

/// Puts a new element in after another.
fn insert_after(next: &mut [u32], cursor: u32, new: u32)
    requires cursor { cursor < length next.old }
    requires new { new < length next.old }
    ensures { next.new ≡ inserted_after next.old cursor new }
{
    next[new as usize] = next[cursor as usize];
    next[cursor as usize] = new;
}

fn is_entered(into: &[Option<u32>], unit: u32) -> bool
    requires { unit < length into.now }
    ensures { result ≡ has_entry into.now unit }
{
    into[unit as usize].is_some()
}

/// The cursor goes to the block of an entered unit; another unit is put in after the cursor.
fn weave_unit(unit: u32, into: &[Option<u32>], names: &[u32], cursor: u32, next: &mut [u32]) -> u32
    requires unit { unit < length into.now }
    requires named { unit < length names.now }
    requires in_links { unit < length next.old }
    requires cursor { cursor < length next.old }
    ensures { StepsTo into.now names.now unit cursor next.old result next.new }
{
    if is_entered(into, unit) {
        names[unit as usize]
    } else {
        insert_after(next, cursor, unit);
        unit
    }
}

/// Weaves a row into the order: the cursor goes to the block of an entered unit, and each other unit is put
/// in after the cursor.
fn weave_row(row: &[u32], into: &[Option<u32>], names: &[u32], end: u32, next: &mut [u32])
    requires units { All (λ u. u < end) row.now }
    requires into { length into.now ≡ end }
    requires names { All (λ u. u < end) names.now }
    requires as_many { length names.now ≡ end }
    requires long { length next.old ≡ end + 1 }
    ensures long { length next.new ≡ end + 1 }
    ensures woven { (known : ℕ → Bool) (order : List ℕ) → IsWeavable known order row.now into.now names.now end
        → IsChain next.old end order end → IsChain next.new end (woven known order (names_of names.now row.now)) end }
{
    let mut cursor = end;
    for unit in row {
        cursor = weave_unit(*unit, into, names, cursor, next);
    }
}

/// Weaves all rows, from left to right.
fn weave_rows(
    layered: &Layered,
    order: &Order,
    into: &[Option<u32>],
    names: &[u32],
    end: u32,
    next: &mut [u32],
)
    requires can { CanWeaveRows (plain layered.now) (rows_of order.now) into.now names.now }
    requires end { end ≡ length (plain layered.now).units }
    requires names { All (λ u. u < end) names.now }
    requires long { length next.old ≡ end + 1 }
    requires empty { slice_index next.old end ≡ end }
    ensures long { length next.new ≡ end + 1 }
    ensures chain { IsChain next.new end (blocks.block_order (plain layered.now) (rows_of order.now) names.now) end }
{
    for row in order.rows.iter() {
        weave_row(row.as_slice(), into, names, end, next);
    }
}

/// Where the walk stands after an element was looked at.
fn walk_on(next: &[u32], end: u32, at: u32, found: &mut Vec<u32>) -> Result<u32, AllocError>
    requires in_links { at < length next.now }
    ensures { IfOk result (λ to. WalksTo next.now end at found.old.items to found.new.items) }
{
    if at == end {
        return Ok(at);
    }
    found.push(at)?;
    Ok(next[at as usize])
}

/// The list that the links hold.
fn listed(alloc: Global, next: &[u32], end: u32) -> Result<Vec<u32>, AllocError>
    requires long { length next.now ≡ end + 1 }
    requires holds { (order : List ℕ) × HoldList next.now end order }
    ensures { IfOk result (λ v. (order : List ℕ) → HoldList next.now end order → v.items ≡ order) }
{
    let mut found: Vec<u32> = Vec::new(alloc);
    let mut at = next[end as usize];
    for _ in 0..end {
        at = walk_on(next, end, at, &mut found)?;
    }
    Ok(found)
}

/// Weaves all rows into links that hold nothing yet, and lists what they hold then.
fn woven_order(
    alloc: Global,
    layered: &Layered,
    order: &Order,
    into: &[Option<u32>],
    names: &[u32],
    end: u32,
    next: &mut [u32],
) -> Result<Vec<u32>, AllocError>
    requires can { CanWeaveRows (plain layered.now) (rows_of order.now) into.now names.now }
    requires end { end ≡ length (plain layered.now).units }
    requires names { All (λ u. u < end) names.now }
    requires long { length next.old ≡ end + 1 }
    requires empty { slice_index next.old end ≡ end }
    ensures { IfOk result (λ v. v.items ≡ blocks.block_order (plain layered.now) (rows_of order.now) names.now) }
{
    weave_rows(layered, order, into, names, end, next);
    listed(alloc, next, end)
}

/// The names of the blocks in an order in which each row goes forward.
pub(crate) fn block_order(
    alloc: Global,
    layered: &Layered,
    order: &Order,
    into: &[Option<u32>],
    names: &[u32],
) -> Result<Vec<u32>, AllocError>
    requires can { CanWeaveRows (plain layered.now) (rows_of order.now) into.now names.now }
    requires names { All (λ u. u < length (plain layered.now).units) names.now }
    ensures { IfOk result (λ v. v.items ≡ blocks.block_order (plain layered.now) (rows_of order.now) names.now) }
{
    let units = layered.units.as_slice();
    let end = units.len() as u32;
    let mut next: Vec<u32> = vec![in alloc; end; units.len() + 1]?;
    woven_order(alloc, layered, order, into, names, end, next.as_mut_slice())
}
