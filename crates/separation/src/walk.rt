//! The walk along the bounds, from the first value of the order to the last.
ghost use Rattle.std.specs.Prelude.{◌≡◌, ℕ, ◌<◌, ◌≤◌, ◌^◌, ℤ, pos, ◌≤ℤ◌, length, slice_index, slice_index_or, IfOk, vec_len};
ghost use Rattle.std.specs.List.{All};
ghost use Rattle.std.specs.List.Sorted.{IsPermutation};
ghost use Rattle.std.specs.Prelude.{◌+ℤ◌};
ghost use Rattle.separation.specs.Order.{IsOrder, PositionsOf};
ghost use Rattle.separation.specs.Due.{DueBounds, IsReady, HoldsNothing};
ghost use Rattle.separation.specs.Lines.{value_at, Relaxed, IsSolvable, Settled};

use crate::bounds::{Bound, Constraints, Least};
use std::alloc::{AllocError, Global};

/// A bound's number beside the position of its `before`.
#[derive(Clone, Copy)]
struct Due {
    position: usize,
    bound: u32,
}

/// The position of each number in the order.
fn positions(alloc: Global, order: &[u32], count: usize) -> Result<Vec<usize>, AllocError>
    requires { IsOrder order.now count }
    ensures { IfOk result (λ v. PositionsOf order.now count v.items) }
{
    let mut position: Vec<usize> = vec![in alloc; 0; count]?;
    for (i, number) in order.iter().enumerate() {
        position[*number as usize] = i;
    }
    Ok(position)
}

/// The bounds by the positions of their `before`s, lowest first.
fn due_bounds(alloc: Global, bounds: &[Bound], position: &[usize]) -> Result<Vec<Due>, AllocError>
    requires few { length bounds.now < 2 ^ 32 }
    requires known { All (λ b. b.before < length position.now) bounds.now }
    ensures { IfOk result (λ v. DueBounds bounds.now position.now v.items) }
{
    let mut due = Vec::with_capacity(alloc, bounds.len())?;
    for (k, b) in bounds.iter().enumerate() {
        due.push(Due {
            position: position[b.before as usize],
            bound: k as u32,
        })?;
    }
    due.sort_by_key(|d| d.position)?;
    Ok(due)
}

/// Raises the bound's `after` where it stands too low.
fn relax(value: &mut [i64], tight: &mut [Option<u32>], b: Bound, number: u32)
    requires before { b.before < length value.old }
    requires after { b.after < length value.old }
    requires same { length tight.old ≡ length value.old }
    requires low { pos 0 ≤ℤ (value_at value.old b.before +ℤ b.gap +ℤ pos (2 ^ 62)) }
    requires high { (value_at value.old b.before +ℤ b.gap) ≤ℤ pos (2 ^ 62) }
    ensures { Relaxed value.old tight.old b number value.new tight.new }
{
    let low = value[b.before as usize] + b.gap;
    if value[b.after as usize] < low {
        value[b.after as usize] = low;
        tight[b.after as usize] = Some(number);
    }
}

/// Raises the values from their floors until all bounds hold.
fn settle(bounds: &[Bound], due: &[Due], value: &mut [i64], tight: &mut [Option<u32>])
    requires ready { IsReady value.old bounds.now due.now }
    requires at_floors { HoldsNothing value.old tight.old }
    ensures { Settled value.old bounds.now value.new tight.new }
{
    for d in due {
        let b = bounds[d.bound as usize];
        relax(value, tight, b, d.bound);
    }
}

/// The least values that keep all floors and bounds, and what holds each of them up.
///
/// Some values below 2^60 must keep them all; then no sum on the way leaves 62 bits. The only error is
/// out of memory.
///
/// Proved:
/// - The least values that keep floors and differences, and what holds each up.
pub fn least_lines(alloc: Global, c: &Constraints) -> Result<Least, AllocError>
    requires { IsSolvable c.now.order.items c.now.floor.items c.now.bounds.items }
    ensures { IfOk result (λ least. Settled c.now.floor.items c.now.bounds.items least.value.items least.tight.items) }
{
    let position = positions(alloc, c.order.as_slice(), c.floor.len())?;
    let due = due_bounds(alloc, c.bounds.as_slice(), position.as_slice())?;
    let mut value: Vec<i64> = Vec::from_slice(alloc, c.floor.as_slice())?;
    let mut tight: Vec<Option<u32>> = vec![in alloc; None; c.floor.len()]?;
    settle(
        c.bounds.as_slice(),
        due.as_slice(),
        value.as_mut_slice(),
        tight.as_mut_slice(),
    );
    Ok(Least { value, tight })
}
