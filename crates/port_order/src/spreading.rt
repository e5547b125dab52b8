//! Offsets that spread spots over a side.
ghost use Rattle.std.specs.Prelude.{◌≡◌, ◌<◌, ◌^◌, pos, IfOk};
ghost use Rattle.drawing_types.specs.Ranges.{IsWithin};
ghost use Rattle.port_order.specs.Places.{AreSpread, spread_at};

use std::alloc::{AllocError, Global};

/// The offset of the i-th of `k` spread spots on a side of length `len`, from the left or top in the document's frame.
///
/// Proved:
/// - Their offsets lie on their side, don't fall along it, and differ if the side is long enough. (`spread`, `dock_of`,
///   `offsets_rise`)
pub fn spread_at(len: i64, k: u32, i: u32) -> i64
    requires len { IsWithin (pos 0) (pos (2 ^ 47)) len }
    requires place { i < k }
    ensures value { result ≡ spread_at len k i }
    ensures inside { IsWithin (pos 0) len result }
{
    part_at(len, k as usize, i as usize)
}

/// The offsets of `k` spread spots on a side of length `len`, in rising order.
pub fn spread(alloc: Global, len: i64, k: u32) -> Result<Vec<i64>, AllocError>
    requires { IsWithin (pos 0) (pos (2 ^ 47)) len }
    ensures { IfOk result (λ offsets. AreSpread len k offsets.items) }
{
    let mut offsets: Vec<i64> = Vec::with_capacity(alloc, k as usize)?;
    for i in 0..k {
        offsets.push(spread_at(len, k, i))?;
    }
    Ok(offsets)
}

/// The same for any number of spots.
pub(crate) fn part_at(len: i64, k: usize, i: usize) -> i64
    requires len { IsWithin (pos 0) (pos (2 ^ 47)) len }
    requires place { i < k }
    ensures value { result ≡ spread_at len k i }
    ensures inside { IsWithin (pos 0) len result }
{
    (len as u128 * (i as u128 + 1) / (k as u128 + 1)) as i64
}
