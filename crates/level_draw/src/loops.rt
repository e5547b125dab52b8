//! The steps of self-loops.
ghost use Rattle.std.specs.Prelude.{◌≡◌, ◌++◌, ◌<◌, length, OnOk};
ghost use Rattle.drawing_types.specs.declared.shape.Side.TheVariants.{North, East, South, West};
ghost use Rattle.level_nets.specs.Reach.{IsSheet, parts_in};
ghost use Rattle.level_draw.specs.Read as read;
ghost use Rattle.level_draw.specs.Reach.{AreNumbersIn, HaveLegs};

use drawing_types::shape::Side;
use level_nets::Routing;
use level_nets::reading::{below_unit, gap_at};
use level_nets::sheet::{Sheet, end_at, loop_at};
use route_lines::Step;
use self_loops::way;
use std::alloc::AllocError;

// The lane of a self-loop above its child.
fn north_lane(sheet: &Sheet<'_>, edge: u32) -> Step
    requires sheet { IsSheet sheet.now }
    requires numbers { AreNumbersIn sheet.now.table.now }
    requires edge { edge < length sheet.now.level.now.edges }
    ensures { result ≡ read.loop_lane (parts_in sheet.now) edge North }
{
    let dock = end_at(sheet, edge, true).dock;
    Step::Lane(below_unit(sheet, dock, loop_at(sheet, edge).north))
}

// The lane of a self-loop below its child.
fn south_lane(sheet: &Sheet<'_>, edge: u32) -> Step
    requires sheet { IsSheet sheet.now }
    requires numbers { AreNumbersIn sheet.now.table.now }
    requires edge { edge < length sheet.now.level.now.edges }
    ensures { result ≡ read.loop_lane (parts_in sheet.now) edge South }
{
    let dock = end_at(sheet, edge, true).dock;
    Step::Lane(below_unit(sheet, dock, loop_at(sheet, edge).south))
}

// The net of a self-loop in the gap on the left of its child.
fn west_leg(sheet: &Sheet<'_>, routing: &Routing, edge: u32) -> Step
    requires sheet { IsSheet sheet.now }
    requires legs { HaveLegs (parts_in sheet.now) routing.now }
    requires edge { edge < length sheet.now.level.now.edges }
    ensures { result ≡ read.loop_leg (parts_in sheet.now) routing.now edge West }
{
    let dock = end_at(sheet, edge, true).dock;
    Step::Leg {
        gap: gap_at(sheet, dock, Side::West),
        net: routing.loops.at(edge as usize).west,
        from_a: true,
    }
}

// The net of a self-loop in the gap on the right of its child.
fn east_leg(sheet: &Sheet<'_>, routing: &Routing, edge: u32) -> Step
    requires sheet { IsSheet sheet.now }
    requires legs { HaveLegs (parts_in sheet.now) routing.now }
    requires edge { edge < length sheet.now.level.now.edges }
    ensures { result ≡ read.loop_leg (parts_in sheet.now) routing.now edge East }
{
    let dock = end_at(sheet, edge, true).dock;
    Step::Leg {
        gap: gap_at(sheet, dock, Side::East),
        net: routing.loops.at(edge as usize).east,
        from_a: true,
    }
}

// The step of a self-loop on a side of its child.
fn loop_step(sheet: &Sheet<'_>, routing: &Routing, edge: u32, side: Side) -> Step
    requires sheet { IsSheet sheet.now }
    requires numbers { AreNumbersIn sheet.now.table.now }
    requires legs { HaveLegs (parts_in sheet.now) routing.now }
    requires edge { edge < length sheet.now.level.now.edges }
    ensures { result ≡ read.loop_step (parts_in sheet.now) routing.now edge side }
{
    match side {
        Side::North => north_lane(sheet, edge),
        Side::East => east_leg(sheet, routing, edge),
        Side::South => south_lane(sheet, edge),
        Side::West => west_leg(sheet, routing, edge),
    }
}

/// The steps of a self-loop from one side of its child to another.
pub(crate) fn push_loop(
    steps: &mut Vec<Step>,
    sheet: &Sheet<'_>,
    routing: &Routing,
    edge: u32,
    from: Side,
    to: Side,
) -> Result<(), AllocError>
    requires sheet { IsSheet sheet.now }
    requires numbers { AreNumbersIn sheet.now.table.now }
    requires legs { HaveLegs (parts_in sheet.now) routing.now }
    requires edge { edge < length sheet.now.level.now.edges }
    ensures { OnOk result (steps.new.items ≡ steps.old.items ++ read.loop_steps (parts_in sheet.now) routing.now edge from to) }
{
    for side in way(from, to) {
        steps.push(loop_step(sheet, routing, edge, *side))?;
    }
    Ok(())
}
