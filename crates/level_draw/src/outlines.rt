//! The outlines of children in a drawing.
ghost use Rattle.std.specs.Prelude.{◌≡◌, ◌<◌, ◌≤◌, length, IfOk};
ghost use Rattle.level_model.specs.Table.{child_in};
ghost use Rattle.level_model.specs.FromPlan.{point_or};
ghost use Rattle.level_draw.specs.Outlines.{AreNearby, AreOutlines, IsNearby, outline_from};

use drawing_types::shape::{Point, Rect};
use level_model::ChildAt;
use std::alloc::{AllocError, Global};

// An outline that is known from the corner of its child's box.
fn outline_from(outline: Rect, corner: Point) -> Rect
    requires { IsNearby outline corner }
    ensures { result ≡ outline_from outline corner }
{
    Rect {
        x: corner.x + outline.x,
        y: corner.y + outline.y,
        width: outline.width,
        height: outline.height,
    }
}

/// The outlines of children, from the corners of their boxes.
pub(crate) fn outlines_of(
    alloc: Global,
    children: &[ChildAt],
    boxes: &[Point],
) -> Result<Vec<Rect>, AllocError>
    requires { AreNearby children.now boxes.now }
    ensures { IfOk result (λ outlines. AreOutlines children.now boxes.now (length children.now) outlines.items) }
{
    let mut outlines = Vec::with_capacity(alloc, children.len())?;
    for (c, child) in children.iter().enumerate() {
        outlines.push(outline_from(child.outline, boxes[c]))?;
    }
    Ok(outlines)
}
