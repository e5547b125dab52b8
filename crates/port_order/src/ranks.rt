//! The keys by which spots are sorted.
ghost use Rattle.std.specs.Prelude.{◌≡◌, ◌<◌, ◌≤◌, ◌^◌, length, pos, IfSome};
ghost use Rattle.elk_doc.specs.PortsKept.{counted};
ghost use Rattle.port_order.specs.Conditions.{IsChild, IsSpot};
ghost use Rattle.port_order.specs.Order.{flow_class};
ghost use Rattle.port_order.specs.Sides.{is_forward};
ghost use Rattle.port_order.specs.Ranks.{IsCounted, fine_mean, fixed_rank, flow_rank, free_rank, mean_rank, port_rank, rank_of};

use crate::children::{Child, given_offset, port_at};
use crate::sides::is_forward;
use crate::spots::{Mean, Spot};
use drawing_types::shape::Side;
use elk_doc::document::PortRule;

/// Where a spot stands among those of its side, by what counts first: its group, then a port's index and given place in a
/// fixed order, the mean of positions, and document order.
#[derive(Clone, Copy, PartialEq, Eq, PartialOrd, Ord)]
pub(crate) struct Rank {
    group: u8,
    index: i128,
    given: i64,
    mean: u128,
    tie: i64,
    pub(crate) number: u32,
}

/// The rank of a spot on a side.
pub(crate) fn rank_of(child: &Child, side: Side, spot: Spot) -> Rank
    requires child { IsChild child.now }
    requires spot { IsSpot child.now spot }
    ensures value { result ≡ rank_of child.now side spot }
    ensures count { IsCounted spot.mean }
{
    match child.rule {
        PortRule::FixedOrder => fixed_rank(child, side, &spot),
        _ => free_rank(side, &spot),
    }
}

// The rank under a fixed order: ports clockwise in the document, then implicit ends by their means.
fn fixed_rank(child: &Child, side: Side, spot: &Spot) -> Rank
    requires child { IsChild child.now }
    requires spot { IsSpot child.now spot.now }
    ensures { result ≡ fixed_rank child.now side spot.now spot.now.port }
{
    match spot.port {
        Some(port) => port_rank(child, side, port, spot.number),
        None => mean_rank(spot.mean, spot.number),
    }
}

// The rank without a fixed order: by means on the east and west, by flow on the north and south.
fn free_rank(side: Side, spot: &Spot) -> Rank
    requires { IfSome spot.now.mean (λ m. 1 ≤ m.count) }
    ensures { result ≡ free_rank side spot.now }
{
    match side {
        Side::North => flow_rank(spot),
        Side::East => mean_rank(spot.mean, spot.number),
        Side::South => flow_rank(spot),
        Side::West => mean_rank(spot.mean, spot.number),
    }
}

// The rank of a port in a fixed order. Where the document's clockwise runs from the bottom or the right, its keys are
// negated; given places rise from the top or the left either way.
fn port_rank(child: &Child, side: Side, port: u32, number: u32) -> Rank
    requires child { IsChild child.now }
    requires port { port < length child.now.ports }
    ensures { result ≡ port_rank (is_forward child.now.direction side) child.now side port number }
{
    let forward = is_forward(child.direction, side);
    Rank {
        group: 0,
        index: along_side(forward, port_at(child, port).index),
        given: given_offset(child, side, port),
        mean: 0,
        tie: tie_along(forward, number),
        number,
    }
}

// A number that rises from the top or the left, where clockwise runs forward or backward there.
fn along_side(forward: bool, number: i64) -> i128
    ensures { result ≡ counted forward number }
{
    if forward {
        number as i128
    } else {
        -(number as i128)
    }
}

// The same of a spot's number.
fn tie_along(forward: bool, number: u32) -> i64
    ensures { result ≡ counted forward (pos number) }
{
    if forward {
        number as i64
    } else {
        -(number as i64)
    }
}

// The rank by the mean of positions; spots without links come last.
fn mean_rank(mean: Option<Mean>, number: u32) -> Rank
    requires { IfSome mean (λ m. 1 ≤ m.count) }
    ensures { result ≡ mean_rank mean number }
{
    match mean {
        Some(mean) => Rank {
            group: 1,
            index: 0,
            given: 0,
            mean: fine_mean(mean),
            tie: number as i64,
            number,
        },
        None => Rank {
            group: 2,
            index: 0,
            given: 0,
            mean: 0,
            tie: number as i64,
            number,
        },
    }
}

// A mean in units of which 2^64 make 1, rounded down. Two means that differ do so by more than a unit, since counts are
// below 2^32, so this keeps their order.
fn fine_mean(mean: Mean) -> u128
    requires { 1 ≤ mean.count }
    ensures { result ≡ fine_mean mean }
{
    (mean.sum as u128 * (1 << 64)) / mean.count as u128
}

// The rank by the flow of edges: what only enters, then what does both or neither, then what only leaves.
fn flow_rank(spot: &Spot) -> Rank
    ensures { result ≡ flow_rank spot.now }
{
    Rank {
        group: flow_class(spot.leaves, spot.enters),
        index: 0,
        given: 0,
        mean: 0,
        tie: spot.number as i64,
        number: spot.number,
    }
}

// The place of a spot's flow among the three.
fn flow_class(leaves: bool, enters: bool) -> u8
    ensures { result ≡ flow_class leaves enters }
{
    match (leaves, enters) {
        (true, false) => 2,
        (false, true) => 0,
        _ => 1,
    }
}
