//! The docks of edges' ends, and the lanes of self-loops.
ghost use Rattle.std.specs.Prelude.{◌≡◌, ℕ, ◌+◌, ◌*◌, ◌<◌, ◌≤◌, ◌^◌, ◌==◌, ◌&&◌, List, length, slice_index, slice_set, IfOk};
ghost use Rattle.std.specs.List.{All};
ghost use Rattle.drawing_types.specs.declared.shape.Dock.{Dock as ADock};
ghost use Rattle.level_model.specs.Conditions.{plain_level, IsLevel};
ghost use Rattle.level_model.specs.Level.{PlainPlan};
ghost use Rattle.dock_table.specs.Ends.{AreEndDocks, AreLoopLanes, CountsLoop, upright};
ghost use Rattle.dock_table.specs.Lanes.{loop_lane_on, same_dock};
ghost use Rattle.dock_table.specs.Narrow.{IsOffset};
ghost use Rattle.dock_table.specs.Outlines.{dock_in};
ghost use Rattle.dock_table.specs.Rows.{AreSpotsOf, row_lists};
ghost use Rattle.dock_table.specs.Sides.{AreDocks, FourOrders, dock_lists, docks_at, orders_in};

use crate::docks::Docks;
use crate::spots::Spots;
use drawing_types::shape::{Dock, Side};
use level_model::{LevelEdge, LevelIn};
use self_loops::passes;
use std::alloc::{AllocError, Global};

// The dock of a spot of a child.
fn dock_at(docks: &Docks, child: u32, number: u32) -> Dock
    requires child { child < length (dock_lists docks.now) }
    requires number { number < length (docks_at (dock_lists docks.now) child) }
    requires offsets { All (λ (d : ADock). IsOffset d.offset) (docks_at (dock_lists docks.now) child) }
    ensures value { result ≡ dock_in (docks_at (dock_lists docks.now) child) number }
    ensures offset { IsOffset result.offset }
{
    docks.at(child as usize)[number as usize]
}

/// The docks of all edges' ends, two for each edge, that at its source first.
pub(crate) fn end_docks(
    alloc: Global,
    level: &LevelIn,
    spots: &Spots,
    docks: &Docks,
) -> Result<Vec<Dock>, AllocError>
    requires level { IsLevel (plain_level level.now) }
    requires spots { (p : PlainPlan) × AreSpotsOf (plain_level level.now) p spots.now }
    requires docks { (vs : List FourOrders)
        × AreDocks (plain_level level.now) (row_lists spots.now.rows) vs (length level.now.children) (dock_lists docks.now) }
    ensures offsets { IfOk result (λ ends. All (λ (d : ADock). IsOffset d.offset) ends.items) }
    ensures docks { IfOk result
        (λ ends. (p : PlainPlan) (vs : List FourOrders) → AreSpotsOf (plain_level level.now) p spots.now
        → AreDocks (plain_level level.now) (row_lists spots.now.rows) vs (length level.now.children) (dock_lists docks.now)
        → AreEndDocks (plain_level level.now) p (orders_in vs) (length level.now.edges) ends.items) }
{
    let mut ends: Vec<Dock> = Vec::with_capacity(alloc, 2 * level.edges.len())?;
    let edges = level.edges.as_slice();
    for (e, edge) in edges.iter().enumerate() {
        let source = spots.numbers[2 * e];
        let target = spots.numbers[2 * e + 1];
        ends.push(dock_at(docks, edge.source.child, source))?;
        ends.push(dock_at(docks, edge.target.child, target))?;
    }
    Ok(ends)
}

// Whether two docks of one child are the same.
fn same_dock(a: Dock, b: Dock) -> bool
    ensures { result ≡ same_dock a b }
{
    a.side == b.side && a.offset == b.offset
}

// Whether a self-loop between these docks has a lane in the north, or in the south.
fn has_lane(source: Dock, target: Dock, north: bool) -> bool
    ensures { result ≡ loop_lane_on source target (upright north) }
{
    if same_dock(source, target) {
        return false;
    }
    let side = if north { Side::North } else { Side::South };
    passes(source.side, target.side, side)
}

/// By child, how many lanes self-loops have on one side of it, and by edge, the place of its lane there from the outline.
#[derive(Drop)]
pub(crate) struct LoopLanes {
    pub(crate) counts: Vec<u32>,
    pub(crate) places: Vec<u32>,
}

// Counts the lane of an edge at its child, and notes its place.
fn note_loop(lanes: &mut LoopLanes, edge: usize, child: u32)
    requires child { child < length lanes.old.counts.items }
    requires edge { edge < length lanes.old.places.items }
    requires few { slice_index lanes.old.counts.items child ≤ 2 ^ 16 }
    ensures counts { lanes.new.counts.items ≡ slice_set lanes.old.counts.items child (slice_index lanes.old.counts.items child + 1) }
    ensures places { lanes.new.places.items ≡ slice_set lanes.old.places.items edge (slice_index lanes.old.counts.items child) }
{
    let place = lanes.counts[child as usize];
    lanes.places[edge] = place;
    lanes.counts[child as usize] = place + 1;
}

// Whether an edge with these docks is a self-loop with a lane in the north, or in the south.
fn is_loop_on(edge: LevelEdge, source: Dock, target: Dock, north: bool) -> bool
    ensures { result ≡ ((edge.source.child == edge.target.child) && loop_lane_on source target (upright north)) }
{
    edge.is_loop() && has_lane(source, target, north)
}

// Counts the lane of an edge at its child, where it is a self-loop that has one in the north, or in the south.
fn count_loop(
    lanes: &mut LoopLanes,
    number: usize,
    edge: LevelEdge,
    source: Dock,
    target: Dock,
    north: bool,
)
    requires child { edge.source.child < length lanes.old.counts.items }
    requires edge { number < length lanes.old.places.items }
    requires few { slice_index lanes.old.counts.items edge.source.child ≤ 2 ^ 16 }
    ensures { CountsLoop ((edge.source.child == edge.target.child) && loop_lane_on source target (upright north)) number edge.source.child lanes.old lanes.new }
{
    if !is_loop_on(edge, source, target, north) {
        return;
    }
    note_loop(lanes, number, edge.source.child);
}

// No lanes yet.
fn no_lanes(alloc: Global, children: usize, edges: usize) -> Result<LoopLanes, AllocError>
    ensures counts { IfOk result (λ v. length v.counts.items ≡ children) }
    ensures places { IfOk result (λ v. length v.places.items ≡ edges) }
    ensures zero { IfOk result (λ v. (c : ℕ) → c < children → slice_index v.counts.items c ≡ 0) }
    ensures few { IfOk result (λ v. (e : ℕ) → slice_index v.places.items e ≤ 2 ^ 16) }
{
    let counts: Vec<u32> = vec![in alloc; 0; children]?;
    let places: Vec<u32> = vec![in alloc; 0; edges]?;
    Ok(LoopLanes { counts, places })
}

/// The lanes of self-loops in the north, or in the south, by the docks of edges' ends.
pub(crate) fn loop_lanes(
    alloc: Global,
    level: &LevelIn,
    ends: &[Dock],
    north: bool,
) -> Result<LoopLanes, AllocError>
    requires level { IsLevel (plain_level level.now) }
    requires ends { length ends.now ≡ 2 * length level.now.edges }
    ensures { IfOk result (λ v. AreLoopLanes (plain_level level.now) ends.now (upright north) (length level.now.edges) v) }
{
    let mut lanes = no_lanes(alloc, level.children.len(), level.edges.len())?;
    let edges = level.edges.as_slice();
    for (e, edge) in edges.iter().enumerate() {
        let source = ends[2 * e];
        let target = ends[2 * e + 1];
        count_loop(&mut lanes, e, *edge, source, target, north);
    }
    Ok(lanes)
}
