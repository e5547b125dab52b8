//! Where boxes and anchors stand.
ghost use Rattle.std.specs.Prelude.{◌≡◌, ◌+◌, ◌<◌, ◌^◌, pos, length, IfOk};
ghost use Rattle.std.specs.List.{All};
ghost use Rattle.working_frame.specs.Ranges.{IsFarPoint};
ghost use Rattle.elk_layers.specs.Layered.{IsFromZero};
ghost use Rattle.route_lines.specs.Points.{gap_in};
ghost use Rattle.level_model.specs.FromPlan.{point_or};
ghost use Rattle.level_model.specs.Level.{end_at, spoke};
ghost use Rattle.level_nets.specs.Held.{plain_gaps};
ghost use Rattle.level_nets.specs.Reach.{IsSheet, parts_in};
ghost use Rattle.level_nets.specs.Routed.{AreGapsIn};
ghost use Rattle.level_draw.specs.Read as read;
ghost use Rattle.level_draw.specs.Reach.{AreNumbersIn, IsBoxPoint, IsLinked, IsNearPoint};
ghost use Rattle.level_draw.specs.Traced.{AreBoxes};

use drawing_types::shape::Point;
use level_nets::sheet::{Sheet, child_at, end_at, top_of, unit_at};
use route_lines::Gap;
use std::alloc::{AllocError, Global};

// The right border of a gap.
fn right_of(gaps: &[Gap], gap: u32) -> i64
    requires gap { gap < length gaps.now }
    requires gaps { AreGapsIn gaps.now }
    ensures value { result ≡ (gap_in (plain_gaps gaps.now) gap).right }
    ensures range { IsFromZero result (pos (2 ^ 51)) }
{
    gaps[gap as usize].right
}

// The place of a child's box.
fn box_at(sheet: &Sheet<'_>, gaps: &[Gap], child: u32) -> Point
    requires sheet { IsSheet sheet.now }
    requires numbers { AreNumbersIn sheet.now.table.now }
    requires gaps { AreGapsIn gaps.now }
    requires count { length gaps.now ≡ sheet.now.layered.now.layers + 1 }
    requires linked { IsLinked (parts_in sheet.now) }
    requires child { child < length sheet.now.level.now.children }
    ensures value { result ≡ read.box_at (parts_in sheet.now) (plain_gaps gaps.now) child }
    ensures near { IsBoxPoint result }
{
    let found = child_at(sheet, child);
    let unit = unit_at(sheet, found.unit);
    Point {
        x: right_of(gaps, unit.layer) - found.outline.x,
        y: top_of(sheet, found.unit) + (unit.body_top - found.outline.y),
    }
}

/// The places of all boxes.
pub(crate) fn boxes_in(
    alloc: Global,
    sheet: &Sheet<'_>,
    gaps: &[Gap],
) -> Result<Vec<Point>, AllocError>
    requires sheet { IsSheet sheet.now }
    requires numbers { AreNumbersIn sheet.now.table.now }
    requires gaps { AreGapsIn gaps.now }
    requires count { length gaps.now ≡ sheet.now.layered.now.layers + 1 }
    requires linked { IsLinked (parts_in sheet.now) }
    ensures boxes { IfOk result (λ boxes. AreBoxes (parts_in sheet.now) (plain_gaps gaps.now) (length sheet.now.level.now.children) boxes.items) }
    ensures near { IfOk result (λ boxes. All IsBoxPoint boxes.items) }
{
    let mut boxes = Vec::with_capacity(alloc, sheet.level.children.len())?;
    for child in 0..sheet.level.children.len() {
        boxes.push(box_at(sheet, gaps, child as u32))?;
    }
    Ok(boxes)
}

// The place of a point that lies so far from the corner of a box.
fn point_from(corner: Point, by: Point) -> Point
    requires corner { IsBoxPoint corner }
    requires by { IsNearPoint by }
    ensures value { result ≡ read.point_from corner by }
    ensures near { IsFarPoint result }
{
    Point {
        x: corner.x + by.x,
        y: corner.y + by.y,
    }
}

// The child at an end of an edge.
fn child_of(sheet: &Sheet<'_>, edge: u32, at_source: bool) -> u32
    requires edge { edge < length sheet.now.level.now.edges }
    ensures { result ≡ (spoke (parts_in sheet.now).level (end_at edge at_source)).child }
{
    let found = sheet.level.edges.at(edge as usize);
    if at_source {
        found.source.child
    } else {
        found.target.child
    }
}

/// The anchor of an end.
pub(crate) fn anchor_at(sheet: &Sheet<'_>, boxes: &[Point], edge: u32, at_source: bool) -> Point
    requires sheet { IsSheet sheet.now }
    requires numbers { AreNumbersIn sheet.now.table.now }
    requires boxes { All IsBoxPoint boxes.now }
    requires edge { edge < length sheet.now.level.now.edges }
    requires child { (spoke (parts_in sheet.now).level (end_at edge at_source)).child < length boxes.now }
    ensures value { result ≡ read.anchor_in (parts_in sheet.now) (point_or boxes.now) (end_at edge at_source) }
    ensures near { IsFarPoint result }
{
    let child = child_of(sheet, edge, at_source);
    point_from(boxes[child as usize], end_at(sheet, edge, at_source).anchor)
}
