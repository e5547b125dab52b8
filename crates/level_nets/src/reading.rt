//! The nets of a level and their gaps, read off its table.
ghost use Rattle.std.specs.Prelude.{◌≡◌, ◌<◌, ◌+◌, [], ◌+ℤ◌, length, IsTrue};
ghost use Rattle.elk_layers.specs.Lines.{top_of};
ghost use Rattle.level_model.specs.Level.{end_at, enters};
ghost use Rattle.level_model.specs.Nets.{inverts, lane_side_of_end, of_link, of_dock, of_loop};
ghost use Rattle.drawing_types.specs.Shapes.{is_side};
ghost use Rattle.level_nets.specs.Parts.{plan_of};
ghost use Rattle.level_nets.specs.Read as read;
ghost use Rattle.level_nets.specs.Reach.{IsSheet, IsBeside, IsDockIn, IsPassing, IsBelow, parts_in};

use crate::sheet::{Sheet, child_at, end_at, is_loop, link_at, loop_at, top_of, unit_at};
use drawing_types::shape::{Dock, Side};
use level_model::LoopAt;
use net_routes::{Net, Pin};
use self_loops::{LoopEnds, loop_legs};

// A height so far below the top of a unit.
fn below_top(sheet: &Sheet<'_>, unit: u32, by: i64) -> i64
    requires sheet { IsSheet sheet.now }
    requires unit { unit < length sheet.now.layered.now.units.items }
    requires by { IsBelow by }
    ensures { result ≡ top_of (parts_in sheet.now).tops unit +ℤ by }
{
    top_of(sheet, unit) + by
}

/// A height so far below the top of the unit of a dock's child.
pub fn below_unit(sheet: &Sheet<'_>, dock: Dock, by: i64) -> i64
    requires sheet { IsSheet sheet.now }
    requires dock { IsDockIn (parts_in sheet.now) dock }
    requires by { IsBelow by }
    ensures { result ≡ read.below_unit (parts_in sheet.now) dock by }
{
    below_top(sheet, child_at(sheet, dock.node).unit, by)
}

// How far below the top of its unit an anchor on the east or west side lies.
fn anchor_below(sheet: &Sheet<'_>, dock: Dock) -> i64
    requires sheet { IsSheet sheet.now }
    requires dock { IsDockIn (parts_in sheet.now) dock }
    requires beside { IsBeside dock.side }
    ensures value { result ≡ read.anchor_below (parts_in sheet.now) dock }
    ensures below { IsBelow result }
{
    let child = child_at(sheet, dock.node);
    unit_at(sheet, child.unit).body_top + (dock.offset - child.outline.y)
}

/// The net of a link.
pub fn link_net(sheet: &Sheet<'_>, number: u32) -> Net
    requires sheet { IsSheet sheet.now }
    requires link { number < length sheet.now.layered.now.links.items }
    ensures { result ≡ read.net_named (parts_in sheet.now) (of_link number) }
{
    let link = link_at(sheet, number);
    Net {
        a: Pin {
            on_left: true,
            height: below_top(sheet, link.tail, link.tail_at),
        },
        b: Pin {
            on_left: false,
            height: below_top(sheet, link.head, link.head_at),
        },
    }
}

/// The gap of a link.
pub fn link_gap(sheet: &Sheet<'_>, number: u32) -> u32
    requires sheet { IsSheet sheet.now }
    requires link { number < length sheet.now.layered.now.links.items }
    ensures value { result ≡ read.gap_named (parts_in sheet.now) (of_link number) }
    ensures inside { result < sheet.now.layered.now.layers }
{
    unit_at(sheet, link_at(sheet, number).head).layer
}

/// The gap on a side of the column of a dock's child.
pub fn gap_at(sheet: &Sheet<'_>, dock: Dock, side: Side) -> u32
    requires sheet { IsSheet sheet.now }
    requires dock { IsDockIn (parts_in sheet.now) dock }
    ensures value { result ≡ read.gap_at (parts_in sheet.now) dock side }
    ensures inside { result < sheet.now.layered.now.layers + 1 }
{
    let layer = unit_at(sheet, child_at(sheet, dock.node).unit).layer;
    if side == Side::East { layer + 1 } else { layer }
}

// Whether two sides are the same.
fn is_side(side: Side, other: Side) -> bool
    ensures { result ≡ is_side side other }
{
    side == other
}

// Whether a dock is inverted for an edge that enters there, or leaves.
fn inverts(side: Side, enters: bool) -> bool
    ensures { result ≡ inverts side enters }
{
    match side {
        Side::North => false,
        Side::East => enters,
        Side::South => false,
        Side::West => !enters,
    }
}

/// Whether the oriented edge enters its child at an end.
pub fn enters(sheet: &Sheet<'_>, edge: u32, at_source: bool) -> bool
    requires sheet { IsSheet sheet.now }
    requires edge { edge < length sheet.now.level.now.edges }
    ensures { result ≡ enters (plan_of (parts_in sheet.now) []) (end_at edge at_source) }
{
    let is_reversed = sheet.is_reversed[edge as usize];
    if at_source { is_reversed } else { !is_reversed }
}

/// Whether an end's dock is inverted for its edge.
pub fn dock_inverts(sheet: &Sheet<'_>, edge: u32, at_source: bool) -> bool
    requires sheet { IsSheet sheet.now }
    requires edge { edge < length sheet.now.level.now.edges }
    ensures { result ≡ read.dock_inverts (parts_in sheet.now) (end_at edge at_source) }
{
    if is_loop(sheet, edge) {
        return false;
    }
    inverts(
        end_at(sheet, edge, at_source).dock.side,
        enters(sheet, edge, at_source),
    )
}

/// The net of an inverted dock, from its lane to its anchor.
pub fn dock_net(sheet: &Sheet<'_>, edge: u32, at_source: bool) -> Net
    requires sheet { IsSheet sheet.now }
    requires edge { edge < length sheet.now.level.now.edges }
    requires is_reversed { IsTrue (read.dock_inverts (parts_in sheet.now) (end_at edge at_source)) }
    ensures { result ≡ read.net_named (parts_in sheet.now) (of_dock (end_at edge at_source)) }
{
    let end = end_at(sheet, edge, at_source);
    let on_left = is_side(end.dock.side, Side::East);
    Net {
        a: Pin {
            on_left,
            height: below_unit(sheet, end.dock, end.lane),
        },
        b: Pin {
            on_left,
            height: below_unit(sheet, end.dock, anchor_below(sheet, end.dock)),
        },
    }
}

/// The gap of an inverted dock.
pub fn dock_gap(sheet: &Sheet<'_>, edge: u32, at_source: bool) -> u32
    requires sheet { IsSheet sheet.now }
    requires edge { edge < length sheet.now.level.now.edges }
    ensures value { result ≡ read.gap_named (parts_in sheet.now) (of_dock (end_at edge at_source)) }
    ensures inside { result < sheet.now.layered.now.layers + 1 }
{
    let dock = end_at(sheet, edge, at_source).dock;
    gap_at(sheet, dock, dock.side)
}

/// Whether a self-loop passes the gap on the left of its child, and whether it passes the one on the right. Other edges
/// pass neither.
pub fn passes(sheet: &Sheet<'_>, edge: u32) -> (bool, bool)
    requires sheet { IsSheet sheet.now }
    requires edge { edge < length sheet.now.level.now.edges }
    ensures west { result.0 ≡ read.passes_west (parts_in sheet.now) edge }
    ensures east { result.1 ≡ read.passes_east (parts_in sheet.now) edge }
{
    if !is_loop(sheet, edge) {
        return (false, false);
    }
    let source = end_at(sheet, edge, true).dock;
    let target = end_at(sheet, edge, false).dock;
    loop_legs(&LoopEnds {
        edge,
        source: source.side,
        target: target.side,
        source_at: source.offset,
        target_at: target.offset,
    })
}

// The lane by which an end of a self-loop at this side comes to the gaps.
fn lane_of_loop(lanes: LoopAt, side: Side) -> i64
    ensures { result ≡ read.lane_of_loop lanes (lane_side_of_end side) }
{
    match side {
        Side::North => lanes.north,
        Side::East => lanes.north,
        Side::South => lanes.south,
        Side::West => lanes.north,
    }
}

// How far below the top of its unit an end of a self-loop comes to the gap on a side: at its anchor there, else on its lane.
fn loop_below(sheet: &Sheet<'_>, edge: u32, dock: Dock, side: Side) -> i64
    requires sheet { IsSheet sheet.now }
    requires edge { edge < length sheet.now.level.now.edges }
    requires dock { IsDockIn (parts_in sheet.now) dock }
    requires beside { IsBeside side }
    requires passing { IsPassing (parts_in sheet.now) edge side dock }
    ensures value { result ≡ read.loop_below (parts_in sheet.now) edge dock side }
    ensures below { IsBelow result }
{
    if is_side(dock.side, side) {
        return anchor_below(sheet, dock);
    }
    lane_of_loop(loop_at(sheet, edge), dock.side)
}

// The pin of an end of a self-loop at the gap on a side.
fn loop_pin(sheet: &Sheet<'_>, edge: u32, at_source: bool, side: Side) -> Pin
    requires sheet { IsSheet sheet.now }
    requires edge { edge < length sheet.now.level.now.edges }
    requires passes { IsTrue (read.passes_on (parts_in sheet.now) edge side) }
    ensures { result ≡ read.loop_pin (parts_in sheet.now) edge (end_at edge at_source) side }
{
    let dock = end_at(sheet, edge, at_source).dock;
    Pin {
        on_left: is_side(side, Side::East),
        height: below_unit(sheet, dock, loop_below(sheet, edge, dock, side)),
    }
}

/// The net by which a self-loop passes the gap on a side, from its source to its target.
pub fn loop_net(sheet: &Sheet<'_>, edge: u32, side: Side) -> Net
    requires sheet { IsSheet sheet.now }
    requires edge { edge < length sheet.now.level.now.edges }
    requires passes { IsTrue (read.passes_on (parts_in sheet.now) edge side) }
    ensures { result ≡ read.net_named (parts_in sheet.now) (of_loop edge side) }
{
    Net {
        a: loop_pin(sheet, edge, true, side),
        b: loop_pin(sheet, edge, false, side),
    }
}

/// The gap that a self-loop passes on a side of its child.
pub fn loop_gap(sheet: &Sheet<'_>, edge: u32, side: Side) -> u32
    requires sheet { IsSheet sheet.now }
    requires edge { edge < length sheet.now.level.now.edges }
    ensures value { result ≡ read.gap_named (parts_in sheet.now) (of_loop edge side) }
    ensures inside { result < sheet.now.layered.now.layers + 1 }
{
    gap_at(sheet, end_at(sheet, edge, true).dock, side)
}
