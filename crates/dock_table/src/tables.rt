//! The table of a level's children, ends and self-loops.
ghost use Rattle.std.specs.Prelude.{◌≡◌, ℕ, ◌<◌, ◌≤◌, ◌^◌, List, [], length, map, IfOk};
ghost use Rattle.std.specs.List.{All};
ghost use Rattle.drawing_types.specs.declared.shape.Dock.{Dock as ADock};
ghost use Rattle.drawing_types.specs.declared.shape.Side.TheVariants.{North, South};
ghost use Rattle.elk_doc.specs.Sound.{IsSoundSpacing};
ghost use Rattle.elk_layers.specs.Layered.{plain, rows_of, IsSound, AreRows};
ghost use Rattle.level_model.specs.Conditions.{plain_level, plain_plan, IsLevel, IsSpoke};
ghost use Rattle.level_model.specs.Level.{Orders, PlainPlan};
ghost use Rattle.level_model.specs.Table.{IsTable, child_in};
ghost use Rattle.level_model.specs.Units.{AreOrders};
ghost use Rattle.dock_table.specs.Bounds.{AreNumbersIn, IsIn, IsLoopIn};
ghost use Rattle.dock_table.specs.Ends.{HaveChildren};
ghost use Rattle.dock_table.specs.Entries.{AreEndEntries, AreEntries, AreLanesOf, AreLoopEntries, AreReady, HaveBodies, HaveDocks, HaveFew, HavePlaces, HaveSpots, IsEndEntry, IsEntry, IsPlannedTable};
ghost use Rattle.dock_table.specs.Courses.{ReversedAreMarked};
ghost use Rattle.level_model.specs.Lanes.{height_by};
ghost use Rattle.dock_table.specs.Lanes.{AreReadable, height_or, lane_place_in, lane_side_in, lanes_at, plain_lanes};
ghost use Rattle.dock_table.specs.Narrow.{IsNarrow, IsNearRect, IsOffset};
ghost use Rattle.dock_table.specs.Rows.{AreSpotsOf, row_lists};
ghost use Rattle.dock_table.specs.Sides.{AreDocks, FourOrders, dock_lists, orders_in};

use crate::courses::courses_of;
use crate::docks::{Docks, docks_of};
use crate::lanes::{DockLanes, lane_height, lanes_of_child};
use crate::loops::{LoopLanes, end_docks, loop_lanes};
use crate::orders::orders_of;
use crate::outlines::{anchor_at, outline_of, ports_of};
use crate::spots::{Spots, spots_of};
use crate::units::units_of;
use drawing_types::list::Items;
use drawing_types::shape::{Dock, Side};
use elk_doc::document::Spacing;
use elk_layers::{Layered, Order};
use level_model::{ChildAt, EdgeEnd, EndAt, LevelIn, LoopAt, Table};
use port_order::Child;
use std::alloc::{AllocError, Global};

// By child, the lanes of its docks.
fn lanes_of(
    alloc: Global,
    level: &LevelIn,
    spots: &Spots,
    docks: &Docks,
    north: &LoopLanes,
    south: &LoopLanes,
) -> Result<Vec<DockLanes>, AllocError>
    requires level { IsLevel (plain_level level.now) }
    requires docks { HaveDocks (plain_level level.now) (dock_lists docks.now) }
    requires spots { HaveSpots (plain_level level.now) (dock_lists docks.now) (row_lists spots.now.rows) }
    requires north { HaveFew (length level.now.children) north.now.counts.items }
    requires south { HaveFew (length level.now.children) south.now.counts.items }
    ensures { IfOk result
        (λ v. AreLanesOf (plain_level level.now) (row_lists spots.now.rows) (dock_lists docks.now) north.now.counts.items
        south.now.counts.items (length level.now.children) (map plain_lanes v.items)) }
{
    let children = level.children.as_slice();
    let mut all: Vec<DockLanes> = Vec::with_capacity(alloc, children.len())?;
    for (c, child) in children.iter().enumerate() {
        let north_loops = north.counts[c];
        let south_loops = south.counts[c];
        let child_docks = docks.at(c);
        let child_spots = spots.rows.at(c);
        let lanes = lanes_of_child(
            alloc,
            child.size,
            child_docks,
            child_spots,
            north_loops,
            south_loops,
        )?;
        all.push(lanes)?;
    }
    Ok(all)
}

// A child of the table.
fn child_entry(
    alloc: Global,
    child: &Child,
    unit: u32,
    docks: &[Dock],
    lanes: &DockLanes,
) -> Result<ChildAt, AllocError>
    requires child { IsNarrow child.now }
    requires docks { length child.now.ports ≤ length docks.now }
    requires offsets { All (λ (d : ADock). IsOffset d.offset) docks.now }
    ensures { IfOk result (λ v. IsEntry child.now unit docks.now (plain_lanes lanes.now) v) }
{
    let ports = ports_of(alloc, child, docks)?;
    let outline = outline_of(child, docks);
    Ok(ChildAt {
        unit,
        outline,
        ports: Items::from_vec(ports),
        north: lanes.north,
        south: lanes.south,
    })
}

// The children of the table.
fn child_entries(
    alloc: Global,
    level: &LevelIn,
    units: &[u32],
    docks: &Docks,
    lanes: &[DockLanes],
) -> Result<Vec<ChildAt>, AllocError>
    requires level { IsLevel (plain_level level.now) }
    requires units { length units.now ≡ length level.now.children }
    requires docks { HaveDocks (plain_level level.now) (dock_lists docks.now) }
    requires lanes { length (map plain_lanes lanes.now) ≡ length level.now.children }
    ensures { IfOk result
        (λ entries. AreEntries (plain_level level.now) units.now (dock_lists docks.now) (map plain_lanes lanes.now)
        (length level.now.children) entries.items) }
{
    let children = level.children.as_slice();
    let mut entries: Vec<ChildAt> = Vec::with_capacity(alloc, children.len())?;
    for (c, child) in children.iter().enumerate() {
        let unit = units[c];
        let child_docks = docks.at(c);
        let entry = child_entry(alloc, child, unit, child_docks, &lanes[c])?;
        entries.push(entry)?;
    }
    Ok(entries)
}

// The height of the lane of the dock of a child's spot, or 0 where it has none.
fn end_lane(spacing: &Spacing, entry: &ChildAt, lanes: &DockLanes, number: u32) -> i64
    requires spacing { IsSoundSpacing spacing.now }
    requires near { IsNearRect entry.now.outline }
    requires few { entry.now.north ≤ 2 ^ 17 }
    requires lanes { (count : ℕ) × AreReadable (plain_lanes lanes.now) count × (number < count) }
    ensures value { result
        ≡ height_or spacing.now entry.now.north entry.now.outline.height (lane_side_in (plain_lanes lanes.now) number)
        (lane_place_in (plain_lanes lanes.now) number) }
    ensures near { IsIn result }
{
    let place = lanes.place_of(number);
    match lanes.side_of(number) {
        None => 0,
        Some(side) => lane_height(spacing, entry.north, entry.outline.height, side, place),
    }
}

// An end of the table, at a spoke, with its dock and the number of its spot.
fn end_entry(
    level: &LevelIn,
    entries: &[ChildAt],
    lanes: &[DockLanes],
    spoke: EdgeEnd,
    dock: Dock,
    number: u32,
) -> EndAt
    requires level { IsLevel (plain_level level.now) }
    requires spoke { IsSpoke (plain_level level.now) spoke }
    requires entries { length entries.now ≡ length level.now.children }
    requires lanes { length (map plain_lanes lanes.now) ≡ length level.now.children }
    requires near { IsNearRect (child_in entries.now spoke.child).outline }
    requires few { (child_in entries.now spoke.child).north ≤ 2 ^ 17 }
    requires number { (count : ℕ) × AreReadable (lanes_at (map plain_lanes lanes.now) spoke.child) count × (number < count) }
    requires offset { IsOffset dock.offset }
    ensures { IsEndEntry (plain_level level.now) (map plain_lanes lanes.now) entries.now spoke dock number result }
{
    let c = spoke.child as usize;
    let anchor = anchor_at(level.children.at(c), dock.side, spoke.port, dock.offset);
    let lane = end_lane(&level.spacing, &entries[c], &lanes[c], number);
    EndAt { dock, anchor, lane }
}

// The ends of the table.
fn end_entries(
    alloc: Global,
    level: &LevelIn,
    entries: &[ChildAt],
    lanes: &[DockLanes],
    ends: &[Dock],
    numbers: &[u32],
) -> Result<Vec<EndAt>, AllocError>
    requires { (lists : List (List ADock)) × AreReady (plain_level level.now) numbers.now lists ends.now (map plain_lanes lanes.now) entries.now }
    ensures { IfOk result
        (λ table. AreEndEntries (plain_level level.now) numbers.now ends.now (map plain_lanes lanes.now) entries.now
        (length level.now.edges) table.items) }
{
    let edges = level.edges.as_slice();
    let mut table: Vec<EndAt> = Vec::with_capacity(alloc, ends.len())?;
    for (e, edge) in edges.iter().enumerate() {
        let source_dock = ends[2 * e];
        let source_number = numbers[2 * e];
        let source = end_entry(
            level,
            entries,
            lanes,
            edge.source,
            source_dock,
            source_number,
        );
        let target_dock = ends[2 * e + 1];
        let target_number = numbers[2 * e + 1];
        let target = end_entry(
            level,
            entries,
            lanes,
            edge.target,
            target_dock,
            target_number,
        );
        table.push(source)?;
        table.push(target)?;
    }
    Ok(table)
}

// The heights of a self-loop's lanes by their places.
fn loop_entry(spacing: &Spacing, entry: &ChildAt, north: u32, south: u32) -> LoopAt
    requires spacing { IsSoundSpacing spacing.now }
    requires near { IsNearRect entry.now.outline }
    requires few { entry.now.north ≤ 2 ^ 17 }
    requires north { north ≤ 2 ^ 17 }
    requires south { south ≤ 2 ^ 17 }
    ensures north { result.north ≡ height_by spacing.now entry.now.north entry.now.outline.height North north }
    ensures south { result.south ≡ height_by spacing.now entry.now.north entry.now.outline.height South south }
    ensures near { IsLoopIn result }
{
    let height = entry.outline.height;
    let above = lane_height(spacing, entry.north, height, Side::North, north);
    let below = lane_height(spacing, entry.north, height, Side::South, south);
    LoopAt {
        north: above,
        south: below,
    }
}

// The self-loops of the table, by edge.
fn loop_entries(
    alloc: Global,
    level: &LevelIn,
    entries: &[ChildAt],
    north: &LoopLanes,
    south: &LoopLanes,
) -> Result<Vec<LoopAt>, AllocError>
    requires entries { HaveBodies (plain_level level.now) entries.now }
    requires north { HavePlaces (length level.now.edges) north.now.places.items }
    requires south { HavePlaces (length level.now.edges) south.now.places.items }
    ensures { IfOk result
        (λ table. AreLoopEntries (plain_level level.now) entries.now north.now.places.items south.now.places.items
        (length level.now.edges) table.items) }
{
    let edges = level.edges.as_slice();
    let mut table: Vec<LoopAt> = Vec::with_capacity(alloc, edges.len())?;
    for (e, edge) in edges.iter().enumerate() {
        let north_place = north.places[e];
        let south_place = south.places[e];
        let child = edge.source.child as usize;
        let entry = &entries[child];
        table.push(loop_entry(&level.spacing, entry, north_place, south_place))?;
    }
    Ok(table)
}

// The table of a level, from its spots and their docks.
fn table_from(
    alloc: Global,
    level: &LevelIn,
    layered: &Layered,
    spots: &Spots,
    docks: &Docks,
) -> Result<Table, AllocError>
    requires level { IsLevel (plain_level level.now) }
    requires few { length (plain layered.now).units ≤ 2 ^ 24 }
    requires children { HaveChildren (plain layered.now) (length level.now.children) }
    requires spots { (p : PlainPlan) × AreSpotsOf (plain_level level.now) p spots.now }
    requires docks { (vs : List FourOrders)
        × AreDocks (plain_level level.now) (row_lists spots.now.rows) vs (length level.now.children) (dock_lists docks.now) }
    ensures table { IfOk result
        (λ t. (p : PlainPlan) (vs : List FourOrders)
        → IsPlannedTable (plain_level level.now) (plain layered.now) spots.now (dock_lists docks.now) p vs
        → IsTable (plain_level level.now) p (orders_in vs) t) }
    ensures numbers { IfOk result AreNumbersIn }
{
    let ends = end_docks(alloc, level, spots, docks)?;
    let north = loop_lanes(alloc, level, ends.as_slice(), true)?;
    let south = loop_lanes(alloc, level, ends.as_slice(), false)?;
    let lanes = lanes_of(alloc, level, spots, docks, &north, &south)?;
    let units = units_of(alloc, layered, level.children.len())?;
    let children = child_entries(alloc, level, units.as_slice(), docks, lanes.as_slice())?;
    let end_table = end_entries(
        alloc,
        level,
        children.as_slice(),
        lanes.as_slice(),
        ends.as_slice(),
        spots.numbers.as_slice(),
    )?;
    let loops = loop_entries(alloc, level, children.as_slice(), &north, &south)?;
    Ok(Table {
        children: Items::from_vec(children),
        ends: Items::from_vec(end_table),
        loops: Items::from_vec(loops),
    })
}

/// The table of a level: what a drawing needs to know of its children, ends and self-loops. Of the layered drawing only
/// units, links and the places in rows are read. `is_reversed` marks the edges that are reversed.
///
/// The only error is out of memory.
///
/// Proved:
/// - The table of a level has, for every end of its edges, its dock, its anchor and the height of its dock's lane.
/// - It has, for every child, its outline and the places of its ports.
/// - It has the lanes of self-loops.
/// - All these are those of the level's plan, and in range. The orders of the sides are those of `order_side` in port_order.
///   (`tables_need_no_orders`, `tables_read_no_tops`)
pub fn table_of(
    alloc: Global,
    level: &LevelIn,
    layered: &Layered,
    order: &Order,
    is_reversed: &[bool],
) -> Result<Table, AllocError>
    requires level { IsLevel (plain_level level.now) }
    requires sound { IsSound (plain layered.now) }
    requires rows { AreRows (plain layered.now) (rows_of order.now) }
    requires is_reversed { (reversed : List ℕ) × ReversedAreMarked (plain_level level.now) is_reversed.now (plain_plan layered.now order.now [] reversed) }
    ensures table { IfOk result
        (λ t. (reversed : List ℕ) → ReversedAreMarked (plain_level level.now) is_reversed.now (plain_plan layered.now order.now [] reversed)
        → (o : Orders) × AreOrders (plain_level level.now) (plain_plan layered.now order.now [] reversed) o
        × IsTable (plain_level level.now) (plain_plan layered.now order.now [] reversed) o t) }
    ensures numbers { IfOk result AreNumbersIn }
{
    let courses = courses_of(alloc, level, layered, order, is_reversed)?;
    let spots = spots_of(alloc, level, courses.as_slice())?;
    let orders = orders_of(alloc, level, &spots.rows)?;
    let docks = docks_of(alloc, level, &spots.rows, orders.as_slice())?;
    let table = table_from(alloc, level, layered, &spots, &docks)?;
    Ok(table)
}
