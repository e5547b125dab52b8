//! Numbers grouped by keys, in one pass.
ghost use Rattle.std.specs.Prelude.{◌≡◌, ◌<◌, ◌≤◌, ◌++◌, ◌∷◌, [], ℕ, length, slice_index, slice_set, IfOk, OnOk};
ghost use Rattle.network_parts.specs.Dividing.{ArePlaces};
ghost use Rattle.level_parts.specs.Groups.{AreGrouped, HoldRows, lists_of, row_at};

use std::alloc::{AllocError, Global};

/// A key for each number from 0 on, the numbers of each key, and each number's place among those of its key.
#[derive(Drop)]
pub(crate) struct Groups {
    pub keys: Vec<u32>,
    pub rows: Vec<Vec<u32>>,
    pub places: Vec<u32>,
}

// So many empty rows.
fn empty_rows(alloc: Global, count: u32) -> Result<Vec<Vec<u32>>, AllocError>
    ensures as_many { IfOk result (λ rows. length rows.items ≡ count) }
    ensures empty { IfOk result (λ rows. (k : ℕ) → row_at (lists_of rows.items) k ≡ []) }
{
    let mut rows = Vec::with_capacity(alloc, count as usize)?;
    for _ in 0..count {
        rows.push(Vec::new(alloc))?;
    }
    Ok(rows)
}

// Adds a number to a row, and gives its place there.
fn add(rows: &mut [Vec<u32>], key: u32, number: u32) -> Result<u32, AllocError>
    requires there { key < length rows.old }
    requires few { length (row_at (lists_of rows.old) key) ≤ 2048 }
    ensures place { IfOk result (λ place. place ≡ length (row_at (lists_of rows.old) key)) }
    ensures rows { OnOk result (lists_of rows.new ≡ slice_set (lists_of rows.old) key (row_at (lists_of rows.old) key ++ number ∷ [])) }
{
    let place = rows[key as usize].len() as u32;
    rows[key as usize].push(number)?;
    Ok(place)
}

// Adds each number to the row of its key.
fn fill(alloc: Global, keys: &[u32], rows: &mut [Vec<u32>]) -> Result<Vec<u32>, AllocError>
    requires few { length keys.now ≤ 2048 }
    requires below { (i : ℕ) → i < length keys.now → slice_index keys.now i < length rows.old }
    requires empty { (k : ℕ) → row_at (lists_of rows.old) k ≡ [] }
    ensures places { IfOk result (λ places. ArePlaces keys.now (length keys.now) places.items) }
    ensures rows { OnOk result (HoldRows keys.now (length keys.now) (lists_of rows.new)) }
{
    let mut places = Vec::with_capacity(alloc, keys.len())?;
    for (i, key) in keys.iter().enumerate() {
        places.push(add(rows, *key, i as u32)?)?;
    }
    Ok(places)
}

/// The numbers from 0 on, one for each key, grouped by keys, which are below a count.
pub(crate) fn groups_of(alloc: Global, keys: Vec<u32>, count: u32) -> Result<Groups, AllocError>
    requires few { length keys.items ≤ 2048 }
    requires below { (i : ℕ) → i < length keys.items → slice_index keys.items i < count }
    ensures keys { IfOk result (λ groups. groups.keys.items ≡ keys.items) }
    ensures as_many { IfOk result (λ groups. length groups.rows.items ≡ count) }
    ensures grouped { IfOk result AreGrouped }
{
    let mut rows = empty_rows(alloc, count)?;
    let places = fill(alloc, keys.as_slice(), rows.as_mut_slice())?;
    Ok(Groups { keys, rows, places })
}
