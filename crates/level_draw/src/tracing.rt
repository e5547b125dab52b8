//! The boxes and traces of a level.
ghost use Rattle.std.specs.Prelude.{◌≡◌, ◌+◌, ◌<◌, [], length, IfOk, OnOk};
ghost use Rattle.std.specs.List.{All};
ghost use Rattle.drawing_types.specs.Shapes.{is_side};
ghost use Rattle.level_model.specs.Level as level;
ghost use Rattle.level_nets.specs.Read.{dock_at, is_one_dock};
ghost use Rattle.level_model.specs.Marks.{AreMarks};
ghost use Rattle.level_nets.specs.Parts.{IsGiven};
ghost use Rattle.level_nets.specs.Reach.{IsSheet, parts_in};
ghost use Rattle.level_nets.specs.Routed.{AreGapsIn, AreLegsOf};
ghost use Rattle.level_draw.specs.Chains.{AreNext};
ghost use Rattle.level_draw.specs.Read as read;
ghost use Rattle.level_draw.specs.Reach.{AreNumbersIn, HaveLegs, IsBoxPoint, IsLinked};
ghost use Rattle.working_frame.specs.Ranges.{plain_trace};
ghost use Rattle.level_draw.specs.Traced.{AreRead, AreRoutesOf, AreTraces, IsTraceOf, plain_traces};

use crate::chains::{Next, next_links};
use crate::loops::push_loop;
use crate::places::{anchor_at, boxes_in};
use crate::steps::push_steps;
use drawing_types::shape::{Point, Side};
use level_nets::Routing;
use level_nets::sheet::{Sheet, end_at, is_loop};
use route_lines::{Step, Trace};
use std::alloc::{AllocError, Global};

/// The places of boxes by child, and traces by edge.
#[derive(Drop)]
pub struct Routes {
    pub boxes: Vec<Point>,
    pub traces: Vec<Trace>,
}

// The side of an end's dock.
fn side_of(sheet: &Sheet<'_>, edge: u32, at_source: bool) -> Side
    requires sheet { IsSheet sheet.now }
    requires edge { edge < length sheet.now.level.now.edges }
    ensures { result ≡ (dock_at (parts_in sheet.now) (level.end_at edge at_source)).side }
{
    end_at(sheet, edge, at_source).dock.side
}

// Whether two sides are the same.
fn is_side(side: Side, other: Side) -> bool
    ensures { result ≡ is_side side other }
{
    side == other
}

// Whether the two ends of a self-loop have one dock.
fn is_one_dock(sheet: &Sheet<'_>, edge: u32) -> bool
    requires sheet { IsSheet sheet.now }
    requires edge { edge < length sheet.now.level.now.edges }
    ensures { result ≡ is_one_dock (parts_in sheet.now) edge }
{
    let source = end_at(sheet, edge, true).dock;
    let target = end_at(sheet, edge, false).dock;
    is_side(source.side, target.side) && source.offset == target.offset
}

// The steps of an edge, put into an empty list.
fn push_edge(
    steps: &mut Vec<Step>,
    sheet: &Sheet<'_>,
    routing: &Routing,
    next: &Next,
    edge: u32,
) -> Result<(), AllocError>
    requires empty { steps.old.items ≡ [] }
    requires sheet { IsSheet sheet.now }
    requires numbers { AreNumbersIn sheet.now.table.now }
    requires legs { HaveLegs (parts_in sheet.now) routing.now }
    requires linked { IsLinked (parts_in sheet.now) }
    requires next { AreNext (parts_in sheet.now) (length sheet.now.layered.now.links.items) next.now.firsts.items next.now.outs.items }
    requires edge { edge < length sheet.now.level.now.edges }
    ensures { OnOk result (steps.new.items ≡ read.steps_of (parts_in sheet.now) routing.now edge) }
{
    if !is_loop(sheet, edge) {
        push_steps(steps, sheet, routing, next, edge)?;
        return Ok(());
    }
    if is_one_dock(sheet, edge) {
        return Ok(());
    }
    push_loop(
        steps,
        sheet,
        routing,
        edge,
        side_of(sheet, edge, true),
        side_of(sheet, edge, false),
    )?;
    Ok(())
}

// The steps of an edge.
fn steps_of(
    alloc: Global,
    sheet: &Sheet<'_>,
    routing: &Routing,
    next: &Next,
    edge: u32,
) -> Result<Vec<Step>, AllocError>
    requires sheet { IsSheet sheet.now }
    requires numbers { AreNumbersIn sheet.now.table.now }
    requires legs { HaveLegs (parts_in sheet.now) routing.now }
    requires linked { IsLinked (parts_in sheet.now) }
    requires next { AreNext (parts_in sheet.now) (length sheet.now.layered.now.links.items) next.now.firsts.items next.now.outs.items }
    requires edge { edge < length sheet.now.level.now.edges }
    ensures { IfOk result (λ steps. steps.items ≡ read.steps_of (parts_in sheet.now) routing.now edge) }
{
    let mut steps = Vec::new(alloc);
    push_edge(&mut steps, sheet, routing, next, edge)?;
    Ok(steps)
}

// The trace of an edge.
fn trace_of(
    alloc: Global,
    sheet: &Sheet<'_>,
    routing: &Routing,
    next: &Next,
    boxes: &[Point],
    edge: u32,
) -> Result<Trace, AllocError>
    requires sheet { IsSheet sheet.now }
    requires numbers { AreNumbersIn sheet.now.table.now }
    requires legs { HaveLegs (parts_in sheet.now) routing.now }
    requires linked { IsLinked (parts_in sheet.now) }
    requires next { AreNext (parts_in sheet.now) (length sheet.now.layered.now.links.items) next.now.firsts.items next.now.outs.items }
    requires boxes { All IsBoxPoint boxes.now }
    requires as_many { length boxes.now ≡ length sheet.now.level.now.children }
    requires edge { edge < length sheet.now.level.now.edges }
    ensures { IfOk result (λ trace. IsTraceOf (parts_in sheet.now) routing.now boxes.now edge (plain_trace trace)) }
{
    let start = anchor_at(sheet, boxes, edge, true);
    let steps = steps_of(alloc, sheet, routing, next, edge)?;
    let end = anchor_at(sheet, boxes, edge, false);
    Ok(Trace { start, steps, end })
}

// The traces of all edges.
fn traces_in(
    alloc: Global,
    sheet: &Sheet<'_>,
    routing: &Routing,
    next: &Next,
    boxes: &[Point],
) -> Result<Vec<Trace>, AllocError>
    requires sheet { IsSheet sheet.now }
    requires numbers { AreNumbersIn sheet.now.table.now }
    requires legs { HaveLegs (parts_in sheet.now) routing.now }
    requires linked { IsLinked (parts_in sheet.now) }
    requires next { AreNext (parts_in sheet.now) (length sheet.now.layered.now.links.items) next.now.firsts.items next.now.outs.items }
    requires boxes { All IsBoxPoint boxes.now }
    requires as_many { length boxes.now ≡ length sheet.now.level.now.children }
    ensures { IfOk result (λ traces. AreTraces (parts_in sheet.now) routing.now boxes.now (length sheet.now.level.now.edges) (plain_traces traces.items)) }
{
    let mut traces = Vec::with_capacity(alloc, sheet.level.edges.len())?;
    for edge in 0..sheet.level.edges.len() {
        traces.push(trace_of(alloc, sheet, routing, next, boxes, edge as u32)?)?;
    }
    Ok(traces)
}

// The boxes and traces, read off a sheet.
fn routes_in(alloc: Global, sheet: &Sheet<'_>, routing: &Routing) -> Result<Routes, AllocError>
    requires sheet { IsSheet sheet.now }
    requires numbers { AreNumbersIn sheet.now.table.now }
    requires legs { HaveLegs (parts_in sheet.now) routing.now }
    requires linked { IsLinked (parts_in sheet.now) }
    requires gaps { AreGapsIn routing.now.gaps }
    requires count { length routing.now.gaps ≡ sheet.now.layered.now.layers + 1 }
    ensures read { IfOk result (λ v. AreRead (parts_in sheet.now) routing.now v) }
    ensures near { IfOk result (λ v. All IsBoxPoint v.boxes.items) }
{
    let next = next_links(alloc, sheet)?;
    let boxes = boxes_in(alloc, sheet, routing.gaps.as_slice())?;
    let traces = traces_in(alloc, sheet, routing, &next, boxes.as_slice())?;
    Ok(Routes { boxes, traces })
}

/// The boxes and traces of a level, before the level is moved.
///
/// `routing` has the level's gaps and the places of its nets in them, as `gaps_of` finds them by the same sheet.
///
/// Proved:
/// - The place of each child's box is that of the plan.
/// - For each edge the lanes and nets that its route passes, from the source's anchor to the target's, are those of the plan.
pub fn routes_of(alloc: Global, sheet: &Sheet<'_>, routing: &Routing) -> Result<Routes, AllocError>
    requires given { IsGiven (parts_in sheet.now) }
    requires marked { AreMarks sheet.now.reversed.now (length sheet.now.level.now.edges) sheet.now.is_reversed.now }
    requires numbers { AreNumbersIn sheet.now.table.now }
    requires gaps { AreGapsIn routing.now.gaps }
    requires count { length routing.now.gaps ≡ sheet.now.layered.now.layers + 1 }
    requires legs { AreLegsOf (parts_in sheet.now) routing.now }
    ensures routes { IfOk result (λ v. AreRoutesOf (parts_in sheet.now) routing.now v) }
    ensures near { IfOk result (λ v. All IsBoxPoint v.boxes.items) }
{
    routes_in(alloc, sheet, routing)
}
