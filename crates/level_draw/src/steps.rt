//! The steps of edges between two children.
ghost use Rattle.std.specs.Prelude.{◌≡◌, ◌++◌, ◌<◌, [], cond, length, map, slice_index, IfOk, OnOk, IsFalse};
ghost use Rattle.elk_layers.specs.Layered.{link_at};
ghost use Rattle.self_loops.specs.Loops.{is_upright};
ghost use Rattle.level_model.specs.Level.{end_at, is_loop, holds};
ghost use Rattle.level_model.specs.Traces.{reversed_step, reversed_steps};
ghost use Rattle.level_model.specs.Table.{end_number};
ghost use Rattle.level_nets.specs.Reach.{IsSheet, parts_in};
ghost use Rattle.level_draw.specs.Chains.{AreNext, end_layer};
ghost use Rattle.level_draw.specs.Read as read;
ghost use Rattle.level_draw.specs.Reach.{AreNumbersIn, HaveLegs, IsLinked};

use crate::chains::Next;
use drawing_types::shape::Side;
use level_model::end_number;
use level_nets::Routing;
use level_nets::reading::{below_unit, dock_gap, dock_inverts, link_gap};
use level_nets::sheet::{Sheet, child_at, end_at, link_at, top_of, unit_at};
use route_lines::Step;
use std::alloc::AllocError;

// The lane of an end's dock.
fn dock_lane(sheet: &Sheet<'_>, edge: u32, at_source: bool) -> Step
    requires sheet { IsSheet sheet.now }
    requires numbers { AreNumbersIn sheet.now.table.now }
    requires edge { edge < length sheet.now.level.now.edges }
    ensures { result ≡ read.dock_lane_step (parts_in sheet.now) (end_at edge at_source) }
{
    let end = end_at(sheet, edge, at_source);
    Step::Lane(below_unit(sheet, end.dock, end.lane))
}

// The net between the lane and the anchor of an inverted dock.
fn dock_leg(sheet: &Sheet<'_>, routing: &Routing, edge: u32, at_source: bool, from_a: bool) -> Step
    requires sheet { IsSheet sheet.now }
    requires legs { HaveLegs (parts_in sheet.now) routing.now }
    requires edge { edge < length sheet.now.level.now.edges }
    ensures { result ≡ read.dock_leg (parts_in sheet.now) routing.now (end_at edge at_source) from_a }
{
    Step::Leg {
        gap: dock_gap(sheet, edge, at_source),
        net: *routing.docks.at(end_number(edge, at_source)),
        from_a,
    }
}

// Whether a dock lies on the north or the south side.
fn is_upright(side: Side) -> bool
    ensures { result ≡ is_upright side }
{
    match side {
        Side::North => true,
        Side::East => false,
        Side::South => true,
        Side::West => false,
    }
}

// The steps from a dock to the first link of its edge.
fn push_leaving(
    steps: &mut Vec<Step>,
    sheet: &Sheet<'_>,
    routing: &Routing,
    edge: u32,
    at_source: bool,
) -> Result<(), AllocError>
    requires sheet { IsSheet sheet.now }
    requires numbers { AreNumbersIn sheet.now.table.now }
    requires legs { HaveLegs (parts_in sheet.now) routing.now }
    requires edge { edge < length sheet.now.level.now.edges }
    ensures { OnOk result (steps.new.items ≡ steps.old.items ++ read.steps_out (parts_in sheet.now) routing.now (end_at edge at_source)) }
{
    if dock_inverts(sheet, edge, at_source) {
        steps.push(dock_leg(sheet, routing, edge, at_source, false))?;
        steps.push(dock_lane(sheet, edge, at_source))?;
        return Ok(());
    }
    if is_upright(end_at(sheet, edge, at_source).dock.side) {
        steps.push(dock_lane(sheet, edge, at_source))?;
    }
    Ok(())
}

// The steps from the last link of an edge to its dock.
fn push_entering(
    steps: &mut Vec<Step>,
    sheet: &Sheet<'_>,
    routing: &Routing,
    edge: u32,
    at_source: bool,
) -> Result<(), AllocError>
    requires sheet { IsSheet sheet.now }
    requires numbers { AreNumbersIn sheet.now.table.now }
    requires legs { HaveLegs (parts_in sheet.now) routing.now }
    requires edge { edge < length sheet.now.level.now.edges }
    ensures { OnOk result (steps.new.items ≡ steps.old.items ++ read.steps_in (parts_in sheet.now) routing.now (end_at edge at_source)) }
{
    if dock_inverts(sheet, edge, at_source) {
        steps.push(dock_lane(sheet, edge, at_source))?;
        steps.push(dock_leg(sheet, routing, edge, at_source, true))?;
        return Ok(());
    }
    if is_upright(end_at(sheet, edge, at_source).dock.side) {
        steps.push(dock_lane(sheet, edge, at_source))?;
    }
    Ok(())
}

// The net of a link.
fn link_leg(sheet: &Sheet<'_>, routing: &Routing, link: u32) -> Step
    requires sheet { IsSheet sheet.now }
    requires legs { HaveLegs (parts_in sheet.now) routing.now }
    requires link { link < length sheet.now.layered.now.links.items }
    ensures { result ≡ read.link_leg (parts_in sheet.now) routing.now link }
{
    Step::Leg {
        gap: link_gap(sheet, link),
        net: *routing.links.at(link as usize),
        from_a: true,
    }
}

// The layer of the child at an end.
fn end_layer(sheet: &Sheet<'_>, edge: u32, at_source: bool) -> u32
    requires sheet { IsSheet sheet.now }
    requires edge { edge < length sheet.now.level.now.edges }
    ensures { result ≡ end_layer (parts_in sheet.now) (end_at edge at_source) }
{
    unit_at(
        sheet,
        child_at(sheet, end_at(sheet, edge, at_source).dock.node).unit,
    )
    .layer
}

// Whether an edge is reversed.
fn runs_reversed(sheet: &Sheet<'_>, edge: u32) -> bool
    requires sheet { IsSheet sheet.now }
    requires edge { edge < length sheet.now.level.now.edges }
    ensures { result ≡ holds (parts_in sheet.now).reversed edge }
{
    sheet.is_reversed[edge as usize]
}

// How many links the chain of an edge has.
fn chain_length(sheet: &Sheet<'_>, edge: u32) -> u32
    requires sheet { IsSheet sheet.now }
    requires linked { IsLinked (parts_in sheet.now) }
    requires edge { edge < length sheet.now.level.now.edges }
    requires no_loop { IsFalse (is_loop (parts_in sheet.now).level edge) }
    ensures { result ≡ length (read.links_of (parts_in sheet.now) edge) }
{
    let is_reversed = runs_reversed(sheet, edge);
    end_layer(sheet, edge, is_reversed) - end_layer(sheet, edge, !is_reversed)
}

// From a link over the lane that it enters to the link that leaves the lane.
fn push_next(
    steps: &mut Vec<Step>,
    sheet: &Sheet<'_>,
    routing: &Routing,
    next: &Next,
    link: u32,
) -> Result<u32, AllocError>
    requires sheet { IsSheet sheet.now }
    requires legs { HaveLegs (parts_in sheet.now) routing.now }
    requires link { link < length sheet.now.layered.now.links.items }
    requires room { length next.now.outs.items ≡ length sheet.now.layered.now.units.items }
    requires out { slice_index next.now.outs.items (link_at sheet.now.layered.now.links.items link).head < length sheet.now.layered.now.links.items }
    ensures value { IfOk result (λ v. v ≡ slice_index next.now.outs.items (link_at sheet.now.layered.now.links.items link).head) }
    ensures steps { IfOk result (λ v. steps.new.items ≡ steps.old.items ++ read.next_steps (parts_in sheet.now) routing.now link v) }
{
    let head = link_at(sheet, link).head;
    steps.push(Step::Lane(top_of(sheet, head)))?;
    let out = next.outs[head as usize];
    steps.push(link_leg(sheet, routing, out))?;
    Ok(out)
}

// The links of an edge and the lanes between them.
fn push_chain(
    steps: &mut Vec<Step>,
    sheet: &Sheet<'_>,
    routing: &Routing,
    next: &Next,
    edge: u32,
) -> Result<(), AllocError>
    requires sheet { IsSheet sheet.now }
    requires legs { HaveLegs (parts_in sheet.now) routing.now }
    requires linked { IsLinked (parts_in sheet.now) }
    requires next { AreNext (parts_in sheet.now) (length sheet.now.layered.now.links.items) next.now.firsts.items next.now.outs.items }
    requires edge { edge < length sheet.now.level.now.edges }
    requires no_loop { IsFalse (is_loop (parts_in sheet.now).level edge) }
    ensures { OnOk result (steps.new.items ≡ steps.old.items ++ read.chain_steps (parts_in sheet.now) routing.now (read.links_of (parts_in sheet.now) edge)) }
{
    let mut link = next.firsts[edge as usize];
    steps.push(link_leg(sheet, routing, link))?;
    for _ in 1..chain_length(sheet, edge) {
        link = push_next(steps, sheet, routing, next, link)?;
    }
    Ok(())
}

// From the tail to the head of the oriented edge.
fn push_oriented(
    steps: &mut Vec<Step>,
    sheet: &Sheet<'_>,
    routing: &Routing,
    next: &Next,
    edge: u32,
) -> Result<(), AllocError>
    requires sheet { IsSheet sheet.now }
    requires numbers { AreNumbersIn sheet.now.table.now }
    requires legs { HaveLegs (parts_in sheet.now) routing.now }
    requires linked { IsLinked (parts_in sheet.now) }
    requires next { AreNext (parts_in sheet.now) (length sheet.now.layered.now.links.items) next.now.firsts.items next.now.outs.items }
    requires edge { edge < length sheet.now.level.now.edges }
    requires no_loop { IsFalse (is_loop (parts_in sheet.now).level edge) }
    ensures { OnOk result (steps.new.items ≡ steps.old.items ++ read.oriented_steps (parts_in sheet.now) routing.now edge) }
{
    let is_reversed = runs_reversed(sheet, edge);
    push_leaving(steps, sheet, routing, edge, !is_reversed)?;
    push_chain(steps, sheet, routing, next, edge)?;
    push_entering(steps, sheet, routing, edge, is_reversed)?;
    Ok(())
}

// A step the other way.
fn reversed_step(step: Step) -> Step
    ensures { result ≡ reversed_step step }
{
    match step {
        Step::Lane(height) => Step::Lane(height),
        Step::Leg { gap, net, from_a } => Step::Leg {
            gap,
            net,
            from_a: !from_a,
        },
    }
}

// Each step the other way.
fn turn_each(steps: &mut [Step])
    ensures { steps.new ≡ map reversed_step steps.old }
{
    for i in 0..steps.len() {
        steps[i] = reversed_step(steps[i]);
    }
}

// Steps the other way.
fn turn_steps(steps: &mut [Step])
    ensures { steps.new ≡ reversed_steps steps.old }
{
    turn_each(steps);
    steps.reverse();
}

/// The steps of an edge between two children, from its source to its target.
pub(crate) fn push_steps(
    steps: &mut Vec<Step>,
    sheet: &Sheet<'_>,
    routing: &Routing,
    next: &Next,
    edge: u32,
) -> Result<(), AllocError>
    requires empty { steps.old.items ≡ [] }
    requires sheet { IsSheet sheet.now }
    requires numbers { AreNumbersIn sheet.now.table.now }
    requires legs { HaveLegs (parts_in sheet.now) routing.now }
    requires linked { IsLinked (parts_in sheet.now) }
    requires next { AreNext (parts_in sheet.now) (length sheet.now.layered.now.links.items) next.now.firsts.items next.now.outs.items }
    requires edge { edge < length sheet.now.level.now.edges }
    requires no_loop { IsFalse (is_loop (parts_in sheet.now).level edge) }
    ensures { OnOk result
        (steps.new.items
        ≡ cond (holds sheet.now.reversed.now edge)
        (reversed_steps (read.oriented_steps (parts_in sheet.now) routing.now edge))
        (read.oriented_steps (parts_in sheet.now) routing.now edge)) }
{
    push_oriented(steps, sheet, routing, next, edge)?;
    if runs_reversed(sheet, edge) {
        turn_steps(steps.as_mut_slice());
    }
    Ok(())
}
