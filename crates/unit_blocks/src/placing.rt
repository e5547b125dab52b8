//! The least lines of chosen links.

ghost use Rattle.std.specs.Prelude.{◌≡◌, ◌<◌, ◌≤◌, ◌^◌, length, IfOk};
ghost use Rattle.std.specs.List.{All};
ghost use Rattle.elk_layers.specs.Layered.{plain, rows_of, IsSound, AreRows};
ghost use Rattle.elk_layers.specs.Straight.{AreStraight};
ghost use Rattle.unit_blocks.specs.Constraints.{AreBlocks, AreOffsets, AreLeast, EndsWithinStack, Counts};
ghost use Rattle.unit_blocks.specs.Phases.{AreSmall, AreConstraints};

use crate::constraints::bounds_of;
use crate::entries::links_into;
use crate::joining::join_blocks;
use crate::order::block_order;
use crate::tops::{floors, numbered, tops};
use elk_layers::{Layered, Lines, Order};
use separation::{Constraints, least_lines};
use std::alloc::{AllocError, Global};

/// The blocks of chosen links.
#[derive(Drop)]
struct Blocks {
    /// The leftmost unit of each block, in an order in which each row goes forward.
    roots: Vec<u32>,
    /// By unit, the number of its block.
    block: Vec<u32>,
    /// By unit, how far it stands below its block's leftmost unit.
    offset: Vec<i64>,
}

/// The blocks of units that these links join.
fn blocks_of(
    alloc: Global,
    layered: &Layered,
    order: &Order,
    chosen: &[u32],
) -> Result<Blocks, AllocError>
    requires sound { IsSound (plain layered.now) }
    requires rows { AreRows (plain layered.now) (rows_of order.now) }
    requires straight { AreStraight (plain layered.now) (rows_of order.now) chosen.now }
    ensures blocks { IfOk result (λ b. AreBlocks (plain layered.now) (rows_of order.now) chosen.now b.block.items b.roots.items) }
    ensures offsets { IfOk result (λ b. AreOffsets (plain layered.now) chosen.now b.roots.items b.offset.items) }
    ensures small { IfOk result (λ b. AreSmall b.offset.items) }
    ensures few { IfOk result (λ b. length b.roots.items ≤ 2 ^ 24) }
{
    let into = links_into(alloc, layered, chosen)?;
    let joined = join_blocks(alloc, layered, order, into.as_slice())?;
    let names = joined.names.as_slice();
    let roots = block_order(alloc, layered, order, into.as_slice(), names)?;
    let block = numbered(alloc, roots.as_slice(), names)?;
    Ok(Blocks {
        roots,
        block,
        offset: joined.offsets,
    })
}

/// The numbers from 0 to below a count.
fn counting(alloc: Global, count: usize) -> Result<Vec<u32>, AllocError>
    requires { count ≤ 2 ^ 24 }
    ensures { IfOk result (λ v. Counts v.items count) }
{
    let mut numbers = Vec::with_capacity(alloc, count)?;
    for number in 0..count {
        numbers.push(number as u32)?;
    }
    Ok(numbers)
}

/// The distances of the units, as constraints on their blocks.
fn constraints_of(
    alloc: Global,
    layered: &Layered,
    order: &Order,
    blocks: &Blocks,
) -> Result<Constraints, AllocError>
    requires sound { IsSound (plain layered.now) }
    requires rows { AreRows (plain layered.now) (rows_of order.now) }
    requires in_range { All (λ b. b < length blocks.now.roots.items) blocks.now.block.items }
    requires as_many { length blocks.now.block.items ≡ length (plain layered.now).units }
    requires offsets { length blocks.now.offset.items ≡ length (plain layered.now).units }
    requires small { AreSmall blocks.now.offset.items }
    requires few { length blocks.now.roots.items ≤ 2 ^ 24 }
    ensures { IfOk result
        (λ c. AreConstraints (plain layered.now) (rows_of order.now) blocks.now.block.items blocks.now.roots.items
        blocks.now.offset.items c.order.items c.floor.items c.bounds.items) }
{
    let block = blocks.block.as_slice();
    let offset = blocks.offset.as_slice();
    let count = blocks.roots.as_slice().len();
    let floor = floors(alloc, block, offset, count)?;
    let bounds = bounds_of(alloc, layered, order, block, offset)?;
    let order = counting(alloc, count)?;
    Ok(Constraints {
        order,
        floor,
        bounds,
    })
}

/// The least lines in which these links are horizontal.
///
/// The links are given by number, and in each gap they run beside one another, so their blocks have a
/// linear order. All tops are at least 0, neighbours of a row keep their room, and outlines of consecutive
/// children of a row theirs; no lines that keep all of this have a lesser top anywhere. The only error is
/// out of memory. (The compaction of Brandes and Köpf 2002, as longest paths between blocks.)
///
/// Proved:
/// - The least lines that keep all distances and make the chosen links horizontal.
pub fn place_links(
    alloc: Global,
    layered: &Layered,
    order: &Order,
    chosen: &[u32],
) -> Result<Lines, AllocError>
    requires sound { IsSound (plain layered.now) }
    requires rows { AreRows (plain layered.now) (rows_of order.now) }
    requires straight { AreStraight (plain layered.now) (rows_of order.now) chosen.now }
    ensures least { IfOk result (λ lines. AreLeast (plain layered.now) (rows_of order.now) chosen.now lines.top.items) }
    ensures within { IfOk result (λ lines. EndsWithinStack (plain layered.now) lines.top.items) }
{
    let blocks = blocks_of(alloc, layered, order, chosen)?;
    let constraints = constraints_of(alloc, layered, order, &blocks)?;
    let least = least_lines(alloc, &constraints)?;
    let top = tops(
        alloc,
        blocks.block.as_slice(),
        blocks.offset.as_slice(),
        least.value.as_slice(),
    )?;
    Ok(Lines { top })
}
