//! A row by numbers of its units.
ghost use Rattle.std.specs.Prelude.{◌≡◌, ◌<◌, length, map, IfOk};
ghost use Rattle.std.specs.List.{All};
ghost use Rattle.std.specs.List.Sorted.{IsPermutation};

use std::alloc::{AllocError, Global};

/// A unit with the number by which it is ordered.
#[derive(Clone, Copy)]
struct Keyed {
    unit: u32,
    key: u64,
}

/// The units of a row with their numbers.
fn with_keys(alloc: Global, row: &[u32], keys: &[u64]) -> Result<Vec<Keyed>, AllocError>
    requires { All (λ u. u < length keys.now) row.now }
    ensures { IfOk result (λ v. map (λ (k : Keyed). k.unit) v.items ≡ row.now) }
{
    let mut list: Vec<Keyed> = Vec::with_capacity(alloc, row.len())?;
    for unit in row {
        list.push(Keyed {
            unit: *unit,
            key: keys[*unit as usize],
        })?;
    }
    Ok(list)
}

/// The units without the numbers.
fn units(alloc: Global, list: &[Keyed]) -> Result<Vec<u32>, AllocError>
    ensures { IfOk result (λ v. v.items ≡ map (λ (k : Keyed). k.unit) list.now) }
{
    let mut row = Vec::with_capacity(alloc, list.len())?;
    for keyed in list {
        row.push(keyed.unit)?;
    }
    Ok(row)
}

/// A row ordered by numbers of its units.
pub(crate) fn by_keys(alloc: Global, row: &[u32], keys: &[u64]) -> Result<Vec<u32>, AllocError>
    requires { All (λ u. u < length keys.now) row.now }
    ensures { IfOk result (λ v. IsPermutation row.now v.items) }
{
    let mut list = with_keys(alloc, row, keys)?;
    list.sort_by_key(|keyed| keyed.key)?;
    units(alloc, list.as_slice())
}
