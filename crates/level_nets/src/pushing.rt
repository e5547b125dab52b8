//! All nets of a level, each put behind those of its gap.
ghost use Rattle.std.specs.Prelude.{◌≡◌, ℕ, ◌+◌, ◌<◌, ◌^◌, List, [], ◌∷◌, ◌++◌, length, slice_set, IfOk, OnOk, IsTrue};
ghost use Rattle.route_lines.specs.Points.{gap_in};
ghost use Rattle.level_model.specs.Level.{end_at};
ghost use Rattle.level_model.specs.Nets.{Name, of_link, of_dock, of_loop, if_passed};
ghost use Rattle.level_nets.specs.Read.{HoldNets, names_of, dock_names, dock_inverts, passes_on, leg_behind};
ghost use Rattle.level_nets.specs.Held.{plain_gaps, with_net, AreFew, AreLinkLegs, AreDockLegs, IsLoopLegs, AreLoopLegs, behind_docks, behind_loops};
ghost use Rattle.level_nets.specs.Reach.{IsSheet, parts_in};

use crate::reading::{
    dock_gap, dock_inverts, dock_net, link_gap, link_net, loop_gap, loop_net, passes,
};
use crate::sheet::Sheet;
use drawing_types::shape::Side;
use net_routes::Net;
use route_lines::Gap;
use std::alloc::{AllocError, Global};

/// The places of a self-loop's nets in the gaps on the left and on the right of its child, where it passes these.
#[derive(Clone, Copy)]
pub struct LoopLegs {
    pub west: u32,
    pub east: u32,
}

// Puts a net behind those of a gap, and tells its place there.
fn push_net(gaps: &mut [Gap], gap: u32, net: Net) -> Result<u32, AllocError>
    requires gap { gap < length gaps.old }
    requires few { AreFew (plain_gaps gaps.old) }
    ensures leg { IfOk result (λ leg. leg ≡ length (gap_in (plain_gaps gaps.old) gap).nets) }
    ensures pushed { OnOk result (plain_gaps gaps.new ≡ slice_set (plain_gaps gaps.old) gap (with_net (gap_in (plain_gaps gaps.old) gap) net)) }
{
    let nets = &mut gaps[gap as usize].nets;
    let leg = nets.as_slice().len() as u32;
    nets.push(net)?;
    Ok(leg)
}

// Puts the net of a link into its gap.
fn push_link(sheet: &Sheet<'_>, gaps: &mut [Gap], link: u32) -> Result<u32, AllocError>
    requires sheet { IsSheet sheet.now }
    requires link { link < length sheet.now.layered.now.links.items }
    requires long { length gaps.old ≡ sheet.now.layered.now.layers + 1 }
    requires few { AreFew (plain_gaps gaps.old) }
    ensures held { OnOk result ((names : List Name) → HoldNets (parts_in sheet.now) names (plain_gaps gaps.old)
        → HoldNets (parts_in sheet.now) (names ++ of_link link ∷ []) (plain_gaps gaps.new)) }
    ensures leg { IfOk result (λ leg. (names : List Name) → HoldNets (parts_in sheet.now) names (plain_gaps gaps.old)
        → leg ≡ leg_behind (parts_in sheet.now) names (of_link link)) }
{
    push_net(gaps, link_gap(sheet, link), link_net(sheet, link))
}

// Puts the net of an end's dock into its gap where the dock is inverted.
fn push_dock(
    sheet: &Sheet<'_>,
    gaps: &mut [Gap],
    edge: u32,
    at_source: bool,
) -> Result<u32, AllocError>
    requires sheet { IsSheet sheet.now }
    requires edge { edge < length sheet.now.level.now.edges }
    requires long { length gaps.old ≡ sheet.now.layered.now.layers + 1 }
    requires few { AreFew (plain_gaps gaps.old) }
    ensures held { OnOk result ((names : List Name) → HoldNets (parts_in sheet.now) names (plain_gaps gaps.old)
        → HoldNets (parts_in sheet.now) (names ++ dock_names (parts_in sheet.now) (end_at edge at_source ∷ [])) (plain_gaps gaps.new)) }
    ensures leg { IfOk result (λ leg. (names : List Name) → HoldNets (parts_in sheet.now) names (plain_gaps gaps.old)
        → IsTrue (dock_inverts (parts_in sheet.now) (end_at edge at_source)) → leg ≡ leg_behind (parts_in sheet.now) names (of_dock (end_at edge at_source))) }
{
    if !dock_inverts(sheet, edge, at_source) {
        return Ok(0);
    }
    push_net(
        gaps,
        dock_gap(sheet, edge, at_source),
        dock_net(sheet, edge, at_source),
    )
}

// Puts the net of a self-loop into the gap on a side where the loop passes it.
fn push_passage(
    sheet: &Sheet<'_>,
    gaps: &mut [Gap],
    edge: u32,
    side: Side,
    passed: bool,
) -> Result<u32, AllocError>
    requires sheet { IsSheet sheet.now }
    requires edge { edge < length sheet.now.level.now.edges }
    requires passed { passed ≡ passes_on (parts_in sheet.now) edge side }
    requires long { length gaps.old ≡ sheet.now.layered.now.layers + 1 }
    requires few { AreFew (plain_gaps gaps.old) }
    ensures held { OnOk result ((names : List Name) → HoldNets (parts_in sheet.now) names (plain_gaps gaps.old)
        → HoldNets (parts_in sheet.now) (names ++ if_passed (passes_on (parts_in sheet.now) edge side) edge side) (plain_gaps gaps.new)) }
    ensures leg { IfOk result (λ leg. (names : List Name) → HoldNets (parts_in sheet.now) names (plain_gaps gaps.old)
        → IsTrue (passes_on (parts_in sheet.now) edge side) → leg ≡ leg_behind (parts_in sheet.now) names (of_loop edge side)) }
{
    if !passed {
        return Ok(0);
    }
    push_net(
        gaps,
        loop_gap(sheet, edge, side),
        loop_net(sheet, edge, side),
    )
}

/// Puts the nets of all links into gaps that have none, and tells their places there.
pub(crate) fn push_links(
    alloc: Global,
    sheet: &Sheet<'_>,
    gaps: &mut [Gap],
) -> Result<Vec<u32>, AllocError>
    requires sheet { IsSheet sheet.now }
    requires held { HoldNets (parts_in sheet.now) [] (plain_gaps gaps.old) }
    ensures held { OnOk result (HoldNets (parts_in sheet.now) (behind_docks (parts_in sheet.now) 0) (plain_gaps gaps.new)) }
    ensures legs { IfOk result (λ legs. AreLinkLegs (parts_in sheet.now) (length sheet.now.layered.now.links.items) legs.items) }
{
    let mut legs = Vec::new(alloc);
    'links: for link in 0..sheet.layered.links.len() as u32 {
        legs.push(push_link(sheet, gaps, link)?)?;
    }
    Ok(legs)
}

/// Puts the nets of all inverted docks behind those of links, and tells their places by end.
pub(crate) fn push_docks(
    alloc: Global,
    sheet: &Sheet<'_>,
    gaps: &mut [Gap],
) -> Result<Vec<u32>, AllocError>
    requires sheet { IsSheet sheet.now }
    requires held { HoldNets (parts_in sheet.now) (behind_docks (parts_in sheet.now) 0) (plain_gaps gaps.old) }
    ensures held { OnOk result (HoldNets (parts_in sheet.now) (behind_loops (parts_in sheet.now) 0) (plain_gaps gaps.new)) }
    ensures legs { IfOk result (λ legs. AreDockLegs (parts_in sheet.now) (length sheet.now.level.now.edges) legs.items) }
{
    let mut legs = Vec::new(alloc);
    'edges: for edge in 0..sheet.level.edges.len() as u32 {
        legs.push(push_dock(sheet, gaps, edge, true)?)?;
        legs.push(push_dock(sheet, gaps, edge, false)?)?;
    }
    Ok(legs)
}

// Puts the nets of a self-loop into the gaps that it passes.
fn push_loop(sheet: &Sheet<'_>, gaps: &mut [Gap], edge: u32) -> Result<LoopLegs, AllocError>
    requires sheet { IsSheet sheet.now }
    requires edge { edge < length sheet.now.level.now.edges }
    requires held { HoldNets (parts_in sheet.now) (behind_loops (parts_in sheet.now) edge) (plain_gaps gaps.old) }
    ensures held { OnOk result (HoldNets (parts_in sheet.now) (behind_loops (parts_in sheet.now) (edge + 1)) (plain_gaps gaps.new)) }
    ensures legs { IfOk result (λ legs. IsLoopLegs (parts_in sheet.now) edge legs) }
{
    let passed = passes(sheet, edge);
    let west = push_passage(sheet, gaps, edge, Side::West, passed.0)?;
    let east = push_passage(sheet, gaps, edge, Side::East, passed.1)?;
    Ok(LoopLegs { west, east })
}

/// Puts the nets of all self-loops behind the others, and tells their places by edge.
pub(crate) fn push_loops(
    alloc: Global,
    sheet: &Sheet<'_>,
    gaps: &mut [Gap],
) -> Result<Vec<LoopLegs>, AllocError>
    requires sheet { IsSheet sheet.now }
    requires held { HoldNets (parts_in sheet.now) (behind_loops (parts_in sheet.now) 0) (plain_gaps gaps.old) }
    ensures held { OnOk result (HoldNets (parts_in sheet.now) (names_of (parts_in sheet.now)) (plain_gaps gaps.new)) }
    ensures legs { IfOk result (λ legs. AreLoopLegs (parts_in sheet.now) (length sheet.now.level.now.edges) legs.items) }
{
    let mut legs = Vec::new(alloc);
    'edges: for edge in 0..sheet.level.edges.len() as u32 {
        legs.push(push_loop(sheet, gaps, edge)?)?;
    }
    Ok(legs)
}
