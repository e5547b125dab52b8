//! The parts of a drawing, moved so that they begin at 0.
ghost use Rattle.std.specs.Prelude.{◌≡◌, ◌-ℤ◌, IfOk};
ghost use Rattle.working_frame.specs.Reach.{IsReach, reached};
ghost use Rattle.working_frame.specs.Ranges.{IsFarPoint};
ghost use Rattle.level_draw.specs.Parts.{AreFar};
ghost use Rattle.level_draw.specs.Shifted.{AreShifted, IsFarReach, reach_or};

use crate::parts::Parts;
use drawing_types::shape::{Point, Size};
use std::alloc::{AllocError, Global};
use working_frame::{Reach, move_gaps, move_points, move_traces, moved_sections, reach_of};

/// Parts that are moved to the left and up.
pub(crate) fn shifted(alloc: Global, parts: Parts, by: Point) -> Result<Parts, AllocError>
    requires parts { AreFar parts }
    requires by { IsFarPoint by }
    ensures { IfOk result (AreShifted by.x by.y parts) }
{
    let mut gaps = parts.gaps;
    let mut traces = parts.traces;
    let mut boxes = parts.boxes;
    move_gaps(gaps.as_mut_slice(), by);
    move_traces(traces.as_mut_slice(), by);
    move_points(boxes.as_mut_slice(), by);
    let sections = moved_sections(alloc, parts.sections, by)?;
    Ok(Parts {
        gaps,
        traces,
        boxes,
        ports: parts.ports,
        sections,
        outlines: parts.outlines,
    })
}

// No reach is that of a drawing without parts, which lies at 0.
fn reach_or(reach: Option<Reach>) -> Reach
    ensures { result ≡ reach_or reach }
{
    let origin = Point { x: 0, y: 0 };
    match reach {
        Some(some) => some,
        None => Reach {
            low: origin,
            high: origin,
        },
    }
}

/// How far the parts reach.
pub(crate) fn reach_in(parts: &Parts) -> Reach
    requires { AreFar parts.now }
    ensures reach { IsReach (reached parts.now.outlines.items parts.now.sections.items) result }
    ensures far { IsFarReach result }
{
    reach_or(reach_of(parts.outlines.as_slice(), parts.sections.as_slice()))
}

/// The width and the height of a reach.
pub(crate) fn size_of(reach: Reach) -> Size
    requires { IsFarReach reach }
    ensures width { result.width ≡ reach.high.x -ℤ reach.low.x }
    ensures height { result.height ≡ reach.high.y -ℤ reach.low.y }
{
    Size {
        width: reach.high.x - reach.low.x,
        height: reach.high.y - reach.low.y,
    }
}
