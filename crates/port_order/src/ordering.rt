//! The order of the spread spots of a side.
ghost use Rattle.std.specs.Prelude.{◌≡◌, ◌<◌, ◌^◌, map, IfOk};
ghost use Rattle.std.specs.List.{All};
ghost use Rattle.std.specs.List.Sorted.{IsPermutation, IsSorted};
ghost use Rattle.port_order.specs.Conditions.{AreSpots, IsChild, IsSpot};
ghost use Rattle.port_order.specs.Order.{IsOrderOfSide};
ghost use Rattle.port_order.specs.Ranks.{HaveCounts, is_spread_on, ranks_of};

use crate::children::{Child, is_pinned_spot};
use crate::ranks::{Rank, rank_of};
use crate::sides::side_of;
use crate::spots::Spot;
use drawing_types::shape::Side;
use std::alloc::{AllocError, Global};

/// The numbers of the spread spots of a side, from the top or left in the working frame. Under a fixed order the ports
/// stand clockwise in the document, and the implicit ends after them by the mean of positions. Under any other rule the
/// spots of the east and west stand by the mean of positions, and those of the north and south by the flow of edges: what
/// only enters, then what does both or neither, then what only leaves. Ties go by document order.
///
/// Proved:
/// - Their orders: the order of a side has each spread spot once and is determined. (`spots_are_ordered`, `orders_agree`)
pub fn order_side(
    alloc: Global,
    child: &Child,
    side: Side,
    spots: &[Spot],
) -> Result<Vec<u32>, AllocError>
    requires child { IsChild child.now }
    requires spots { AreSpots child.now spots.now }
    ensures { IfOk result (λ order. IsOrderOfSide child.now side spots.now order.items) }
{
    let mut ranks = ranks_of(alloc, child, side, spots)?;
    ranks.sort_unstable();
    numbers_of(alloc, ranks.as_slice())
}

// The ranks of the spread spots of a side, in document order.
fn ranks_of(
    alloc: Global,
    child: &Child,
    side: Side,
    spots: &[Spot],
) -> Result<Vec<Rank>, AllocError>
    requires child { IsChild child.now }
    requires spots { AreSpots child.now spots.now }
    ensures ranks { IfOk result (λ ranks. ranks.items ≡ ranks_of child.now side spots.now) }
    ensures counts { IfOk result (λ _. HaveCounts child.now side spots.now) }
{
    let mut ranks: Vec<Rank> = Vec::new(alloc);
    for spot in spots {
        if is_spread_on(child, side, spot) {
            ranks.push(rank_of(child, side, *spot))?;
        }
    }
    Ok(ranks)
}

// Whether a spot is spread and lies on the side.
fn is_spread_on(child: &Child, side: Side, spot: &Spot) -> bool
    requires child { IsChild child.now }
    requires spot { IsSpot child.now spot.now }
    ensures { result ≡ is_spread_on child.now side spot.now }
{
    !is_pinned_spot(child, spot) && side_of(child, spot) == side
}

// The numbers of the spots with these ranks.
fn numbers_of(alloc: Global, ranks: &[Rank]) -> Result<Vec<u32>, AllocError>
    ensures { IfOk result (λ numbers. numbers.items ≡ map (λ r. r.number) ranks.now) }
{
    let mut numbers: Vec<u32> = Vec::with_capacity(alloc, ranks.len())?;
    for rank in ranks {
        numbers.push(rank.number)?;
    }
    Ok(numbers)
}
