//! Numbers in groups by their keys, in one pass.
ghost use Rattle.std.specs.Prelude.{◌≡◌, ℕ, ◌<◌, ◌≤◌, ◌^◌, ◌+◌, ◌++◌, ◌∷◌, [], List, Option, None, Some, length, slice_index, slice_index_or, slice_set, IfOk, OnOk};
ghost use Rattle.level_io.specs.Grouping.{AreGrouped, ArePlacesIn, IsGrouping, key_at, row_at, rows_in};

use std::alloc::{AllocError, Global};

/// Numbers in groups: for each group its numbers in ascending order, and by number the place in its group, from 0.
#[derive(Drop)]
pub struct Groups {
    pub rows: Vec<Vec<u32>>,
    pub places: Vec<u32>,
}

impl Groups {
    ghost use Rattle.std.specs.Prelude.{◌≡◌, ◌<◌, length, slice_index};
    ghost use Rattle.level_io.specs.Grouping.{row_at, rows_in};

    /// The numbers of a group.
    pub fn row(&self, group: u32) -> &[u32]
        requires { group < length self.now.rows.items }
        ensures { result.now ≡ row_at (rows_in self.now.rows.items) group }
    {
        self.rows[group as usize].as_slice()
    }

    /// The place of a number in its group, from 0.
    pub fn place(&self, number: u32) -> u32
        requires { number < length self.now.places.items }
        ensures { result ≡ slice_index self.now.places.items number }
    {
        self.places.as_slice()[number as usize]
    }
}

// So many empty groups.
fn empty_rows(alloc: Global, count: usize) -> Result<Vec<Vec<u32>>, AllocError>
    ensures as_many { IfOk result (λ rows. length rows.items ≡ count) }
    ensures empty { IfOk result (λ rows. (keys : List (Option ℕ)) → AreGrouped keys 0 (rows_in rows.items)) }
{
    let mut rows = Vec::with_capacity(alloc, count)?;
    for _ in 0..count {
        rows.push(Vec::new(alloc))?;
    }
    Ok(rows)
}

// Adds a number to a group, and gives its place there.
fn add_to(rows: &mut [Vec<u32>], group: u32, number: u32) -> Result<u32, AllocError>
    requires there { group < length rows.old }
    requires few { length (row_at (rows_in rows.old) group) < 2 ^ 13 }
    ensures place { IfOk result (λ place. place ≡ length (row_at (rows_in rows.old) group)) }
    ensures rows { OnOk result (rows_in rows.new ≡ slice_set (rows_in rows.old) group (row_at (rows_in rows.old) group ++ number ∷ [])) }
{
    let place = rows[group as usize].len() as u32;
    rows[group as usize].push(number)?;
    Ok(place)
}

// Adds a number to the group of its key, and gives its place there; without a key it is in no group.
fn add(rows: &mut [Vec<u32>], keys: &[Option<u32>], number: u32) -> Result<u32, AllocError>
    requires there { (k : ℕ) → key_at keys.now number ≡ Some k → k < length rows.old }
    requires inside { number < length keys.now }
    requires few { number < 2 ^ 13 }
    requires grouped { AreGrouped keys.now number (rows_in rows.old) }
    ensures place { IfOk result (λ place. (k : ℕ) → key_at keys.now number ≡ Some k → place ≡ length (row_at (rows_in rows.old) k)) }
    ensures grouped { OnOk result (AreGrouped keys.now (number + 1) (rows_in rows.new)) }
{
    match keys[number as usize] {
        Some(group) => add_to(rows, group, number),
        None => Ok(0),
    }
}

// Adds each number to the group of its key, and gives its place there.
fn fill(alloc: Global, keys: &[Option<u32>], rows: &mut [Vec<u32>]) -> Result<Vec<u32>, AllocError>
    requires there { (i k : ℕ) → i < length keys.now → key_at keys.now i ≡ Some k → k < length rows.old }
    requires few { length keys.now ≤ 2 ^ 13 }
    requires empty { AreGrouped keys.now 0 (rows_in rows.old) }
    ensures placed { IfOk result (λ places. ArePlacesIn keys.now (length keys.now) places.items) }
    ensures grouped { OnOk result (AreGrouped keys.now (length keys.now) (rows_in rows.new)) }
{
    let mut places = Vec::with_capacity(alloc, keys.len())?;
    for number in 0..keys.len() {
        places.push(add(rows, keys, number as u32)?)?;
    }
    Ok(places)
}

/// So many groups, each with the numbers of the keys that name it.
pub(crate) fn group(alloc: Global, keys: &[Option<u32>], count: usize) -> Result<Groups, AllocError>
    requires below { (i k : ℕ) → i < length keys.now → key_at keys.now i ≡ Some k → k < count }
    requires few { length keys.now ≤ 2 ^ 13 }
    ensures { IfOk result (IsGrouping keys.now count) }
{
    let mut rows = empty_rows(alloc, count)?;
    let places = fill(alloc, keys, rows.as_mut_slice())?;
    Ok(Groups { rows, places })
}
