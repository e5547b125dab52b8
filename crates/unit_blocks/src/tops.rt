//! Numbers, floors and tops of blocks.

ghost use Rattle.std.specs.Prelude.{◌≡◌, ℕ, ◌<◌, ◌≤◌, ◌^◌, ◌+ℤ◌, ◌≤ℤ◌, pos, length, slice_index, slice_index_or, IfOk};
ghost use Rattle.std.specs.List.{All};
ghost use Rattle.separation.specs.Lines.{value_at};
ghost use Rattle.elk_layers.specs.Layered.{place_in};
ghost use Rattle.unit_blocks.specs.Constraints.{block_at, offset_at};
ghost use Rattle.unit_blocks.specs.Phases.{IsSmall, AreSmall, IsLowered, AreFloorsSoFar, AreRootNumbers};
ghost use Rattle.elk_layers.specs.Occurring.{occurs, HasNoRepeat};

use std::alloc::{AllocError, Global};

/// Lowers a block's floor so that a unit at this offset stands at 0 or below.
fn lower_floor(floor: &mut [i64], block: u32, offset: i64)
    requires block { block < length floor.old }
    requires small { IsSmall offset }
    ensures { IsLowered floor.old block offset floor.new }
{
    let low = 0 - offset;
    if floor[block as usize] < low {
        floor[block as usize] = low;
    }
}

/// Lowers the floors, from 0, for each unit.
fn lower_floors(floor: &mut [i64], blocks: &[u32], offsets: &[i64])
    requires in_range { All (λ b. b < length floor.old) blocks.now }
    requires as_many { length offsets.now ≡ length blocks.now }
    requires small { AreSmall offsets.now }
    requires from_zero { (b : ℕ) → value_at floor.old b ≡ pos 0 }
    ensures { AreFloorsSoFar blocks.now offsets.now (length floor.old) (length blocks.now) floor.new }
{
    for (u, block) in blocks.iter().enumerate() {
        lower_floor(floor, *block, offsets[u]);
    }
}

/// The least value of each block at which no unit of it stands above 0.
pub(crate) fn floors(
    alloc: Global,
    blocks: &[u32],
    offsets: &[i64],
    count: usize,
) -> Result<Vec<i64>, AllocError>
    requires in_range { All (λ b. b < count) blocks.now }
    requires as_many { length offsets.now ≡ length blocks.now }
    requires small { AreSmall offsets.now }
    ensures { IfOk result (λ v. AreFloorsSoFar blocks.now offsets.now count (length blocks.now) v.items) }
{
    let mut floor: Vec<i64> = vec![in alloc; 0; count]?;
    lower_floors(floor.as_mut_slice(), blocks, offsets);
    Ok(floor)
}

/// The place of each root in the order of the roots.
fn root_numbers(alloc: Global, roots: &[u32], count: usize) -> Result<Vec<u32>, AllocError>
    requires in_range { All (λ u. u < count) roots.now }
    requires no_repeat { HasNoRepeat roots.now }
    requires few { length roots.now ≤ 2 ^ 24 }
    ensures long { IfOk result (λ v. length v.items ≡ count) }
    ensures numbers { IfOk result (λ v. AreRootNumbers roots.now (length roots.now) v.items) }
{
    let mut number: Vec<u32> = vec![in alloc; 0; count]?;
    for (b, root) in roots.iter().enumerate() {
        number[*root as usize] = b as u32;
    }
    Ok(number)
}

/// The number of each unit's block.
pub(crate) fn numbered(alloc: Global, roots: &[u32], names: &[u32]) -> Result<Vec<u32>, AllocError>
    requires roots_in_range { All (λ u. u < length names.now) roots.now }
    requires no_repeat { HasNoRepeat roots.now }
    requires few { length roots.now ≤ 2 ^ 24 }
    requires known { All (λ n. (n < length names.now) × (1 ≤ occurs n roots.now)) names.now }
    ensures long { IfOk result (λ v. length v.items ≡ length names.now) }
    ensures number { IfOk result (λ v. (u : ℕ) → u < length names.now → slice_index v.items u ≡ place_in roots.now (slice_index names.now u)) }
{
    let number = root_numbers(alloc, roots, names.len())?;
    let number_of = number.as_slice();
    let mut blocks = Vec::with_capacity(alloc, names.len())?;
    for name in names {
        blocks.push(number_of[*name as usize])?;
    }
    Ok(blocks)
}

/// Each unit at its block's value, lowered by its offset.
pub(crate) fn tops(
    alloc: Global,
    blocks: &[u32],
    offsets: &[i64],
    values: &[i64],
) -> Result<Vec<i64>, AllocError>
    requires in_range { All (λ b. b < length values.now) blocks.now }
    requires as_many { length offsets.now ≡ length blocks.now }
    requires small { AreSmall offsets.now }
    requires values_low { (b : ℕ) → b < length values.now → pos 0 ≤ℤ (value_at values.now b +ℤ pos (2 ^ 61)) }
    requires values_high { (b : ℕ) → b < length values.now → value_at values.now b ≤ℤ pos (2 ^ 61) }
    ensures long { IfOk result (λ v. length v.items ≡ length blocks.now) }
    ensures tops { IfOk result
        (λ v. (u : ℕ) → u < length blocks.now
        → value_at v.items u ≡ value_at values.now (block_at blocks.now u) +ℤ offset_at offsets.now u) }
{
    let mut top = Vec::with_capacity(alloc, blocks.len())?;
    for (u, block) in blocks.iter().enumerate() {
        top.push(values[*block as usize] + offsets[u])?;
    }
    Ok(top)
}
