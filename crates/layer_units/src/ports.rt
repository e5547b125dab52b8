//! How many ports of its side come before a port, and how many are ranked on a side.
ghost use Rattle.std.specs.Prelude.{◌≡◌, ℕ, ◌<◌, ◌≤◌, length, map, slice_index, IfOk};
ghost use Rattle.std.specs.List.{filter};
ghost use Rattle.drawing_types.specs.declared.shape.Side.TheVariants.{East, West};
ghost use Rattle.port_order.specs.Child as own;
ghost use Rattle.port_order.specs.Conditions.{IsChild, IsSpot};
ghost use Rattle.port_order.specs.Order.{IsOrderOfSide};
ghost use Rattle.layer_units.specs.Ports as spec;
ghost use Rattle.layer_units.specs.Ports.{AreBefore, AreOrdered, ArePortSpots, AreRanksOf, comes_before, counts, plain_ranks, ranks_port};

use drawing_types::shape::Side;
use elk_doc::document::PortRule;
use elk_layers::note_places;
use port_order::{Child, Spot, dock_of, is_pinned_spot, order_side, side_of};
use std::alloc::{AllocError, Global};

/// A port as it is counted: its number, whether it is ranked, its side, and where it is pinned the offset of its anchor there.
#[derive(Clone, Copy)]
pub(crate) struct PortAt {
    number: u32,
    ranked: bool,
    side: Side,
    offset: i64,
}

/// By port of a child, how many of its side's ranked ports come before it, and how many ports are ranked on the child's west
/// and east sides.
#[derive(Drop)]
pub(crate) struct PortRanks {
    pub(crate) before: Vec<u32>,
    pub(crate) west: u32,
    pub(crate) east: u32,
}

// Whether a port is ranked.
fn ranks_port(rule: PortRule, pinned: bool) -> bool
    ensures { result ≡ ranks_port rule pinned }
{
    match rule {
        PortRule::Free => false,
        PortRule::FixedSide => false,
        PortRule::FixedOrder => true,
        PortRule::FixedPos => pinned,
    }
}

// A port by its spot.
fn port_at(child: &Child, spot: &Spot) -> PortAt
    requires child { IsChild child.now }
    requires spot { IsSpot child.now spot.now }
    ensures { result ≡ spec.port_at child.now spot.now }
{
    let pinned = is_pinned_spot(child, spot);
    let offset = if pinned { dock_of(child, spot, &[]) } else { 0 };
    PortAt {
        number: spot.number,
        ranked: ranks_port(child.rule, pinned),
        side: side_of(child, spot),
        offset,
    }
}

// The ports of a child.
fn ports_of(alloc: Global, child: &Child, spots: &[Spot]) -> Result<Vec<PortAt>, AllocError>
    requires child { IsChild child.now }
    requires spots { ArePortSpots child.now spots.now }
    ensures { IfOk result (λ ports. ports.items ≡ map (spec.port_at child.now) spots.now) }
{
    let mut ports: Vec<PortAt> = Vec::with_capacity(alloc, spots.len())?;
    for spot in spots {
        ports.push(port_at(child, spot))?;
    }
    Ok(ports)
}

// Whether a port is ranked on a side.
fn counts(side: Side, port: PortAt) -> bool
    ensures { result ≡ counts side port }
{
    if !port.ranked {
        return false;
    }
    port.side == side
}

// Whether a port has a smaller offset than another, or the same and a smaller number.
fn is_first(port: PortAt, own: PortAt) -> bool
    ensures { result ≡ spec.is_first own port }
{
    if port.offset < own.offset {
        return true;
    }
    if port.offset != own.offset {
        return false;
    }
    port.number < own.number
}

// Whether a ranked port lies on the side of another and comes before it by offset.
fn comes_before(own: PortAt, port: PortAt) -> bool
    ensures { result ≡ comes_before own port }
{
    if !counts(own.side, port) {
        return false;
    }
    is_first(port, own)
}

// The number of ports that are ranked on a side.
fn count_on(ports: &[PortAt], side: Side) -> u32
    requires { length ports.now ≤ 4096 }
    ensures value { result ≡ length (filter (counts side) ports.now) }
    ensures few { result ≤ length ports.now }
{
    let mut count: u32 = 0;
    for port in ports {
        if counts(side, *port) {
            count += 1;
        }
    }
    count
}

// The number of ports that come before one by offset.
fn count_before(ports: &[PortAt], own: PortAt) -> u32
    requires { length ports.now ≤ 4096 }
    ensures value { result ≡ length (filter (comes_before own) ports.now) }
    ensures few { result ≤ length ports.now }
{
    let mut count: u32 = 0;
    for port in ports {
        if comes_before(own, *port) {
            count += 1;
        }
    }
    count
}

// By port, the number of those that come before it by offset.
fn counted(alloc: Global, ports: &[PortAt]) -> Result<Vec<u32>, AllocError>
    requires { length ports.now ≤ 4096 }
    ensures { IfOk result (λ before. before.items ≡ map (λ own. length (filter (comes_before own) ports.now)) ports.now) }
{
    let mut before: Vec<u32> = Vec::with_capacity(alloc, ports.len())?;
    for own in ports {
        before.push(count_before(ports, *own))?;
    }
    Ok(before)
}

// Notes the places of ports in the orders of the west and the east.
fn note_sides(before: &mut [u32], child: &Child, spots: &[Spot], west: &[u32], east: &[u32])
    requires spots { ArePortSpots child.now spots.now }
    requires as_many { length before.old ≡ length spots.now }
    requires few { (k : ℕ) → slice_index before.old k ≤ length spots.now }
    requires west { IsOrderOfSide child.now West spots.now west.now }
    requires east { IsOrderOfSide child.now East spots.now east.now }
    ensures { AreOrdered child.now spots.now before.new }
{
    note_places(before, west);
    note_places(before, east);
}

// By port of a child in a fixed order, its place in the order of its side, where that is the west or the east.
fn ordered(alloc: Global, child: &Child, spots: &[Spot]) -> Result<Vec<u32>, AllocError>
    requires child { IsChild child.now }
    requires spots { ArePortSpots child.now spots.now }
    ensures { IfOk result (λ before. AreOrdered child.now spots.now before.items) }
{
    let west = order_side(alloc, child, Side::West, spots)?;
    let east = order_side(alloc, child, Side::East, spots)?;
    let mut before: Vec<u32> = vec![in alloc; 0; spots.len()]?;
    note_sides(
        before.as_mut_slice(),
        child,
        spots,
        west.as_slice(),
        east.as_slice(),
    );
    Ok(before)
}

// By port, how many ranked ports of its side come before it.
fn before_each(
    alloc: Global,
    child: &Child,
    spots: &[Spot],
    ports: &[PortAt],
) -> Result<Vec<u32>, AllocError>
    requires child { IsChild child.now }
    requires spots { ArePortSpots child.now spots.now }
    requires ports { ports.now ≡ map (spec.port_at child.now) spots.now }
    ensures { IfOk result (λ before. AreBefore child.now spots.now before.items) }
{
    match child.rule {
        PortRule::FixedOrder => ordered(alloc, child, spots),
        _ => counted(alloc, ports),
    }
}

/// The ranks of a child's ports, from their spots. They are of use where the child's ports are in a fixed order or at fixed
/// positions.
pub(crate) fn ranks_of(
    alloc: Global,
    child: &Child,
    spots: &[Spot],
) -> Result<PortRanks, AllocError>
    requires child { IsChild child.now }
    requires spots { ArePortSpots child.now spots.now }
    ensures { IfOk result (λ v. AreRanksOf child.now spots.now (plain_ranks v)) }
{
    let ports = ports_of(alloc, child, spots)?;
    let before = before_each(alloc, child, spots, ports.as_slice())?;
    let west = count_on(ports.as_slice(), Side::West);
    let east = count_on(ports.as_slice(), Side::East);
    Ok(PortRanks { before, west, east })
}
