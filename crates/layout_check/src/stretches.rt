//! Outlines by their lower and upper ends along x and along y: a quick test of many outlines at a time.
ghost use Rattle.std.specs.Prelude.{◌≡◌, ℕ, ◌<◌, ◌≤◌, ◌+ℤ◌, IfOk, IsTrue, length};
ghost use Rattle.drawing_types.specs.declared.shape.Rect.{Rect};
ghost use Rattle.elk_doc.specs.Places.{outline_of};
ghost use Rattle.layout_check.specs.Scenes.{IsScene};
ghost use Rattle.layout_check.specs.Bounds.{LieOff};
ghost use Rattle.layout_check.specs.Ends.{AreEnds, AreHighEnds, AreLowEnds, IsHighEnd, MeetNone, end_along, low_along};

use crate::bounds::RouteBounds;
use crate::scene::{Scene, outline_at};
use drawing_types::shape::Rect;
use elk_doc::document::Doc;
use elk_doc::drawing::Placed;
use lane_count::any_meets;
use std::alloc::{AllocError, Global};

/// The lower and upper ends of the outlines of all nodes, along x and along y. An upper end that is no `i64` is the greatest.
#[derive(Drop)]
pub struct OutlineEnds {
    pub left: Vec<i64>,
    pub right: Vec<i64>,
    pub top: Vec<i64>,
    pub bottom: Vec<i64>,
}

// The lower end of a rectangle along y, or along x.
fn low_along(down: bool, r: Rect) -> i64
    ensures { result ≡ low_along down r }
{
    if down { r.y } else { r.x }
}

// The end of a stretch, and the greatest number where that is none.
fn high_of(low: i64, size: i64) -> i64
    ensures { IsHighEnd (low +ℤ size) result }
{
    match low.checked_add(size) {
        Some(end) => end,
        None => i64::MAX,
    }
}

// The upper end of a rectangle along y, or along x.
fn high_along(down: bool, r: Rect) -> i64
    ensures { IsHighEnd (end_along down r) result }
{
    if down {
        high_of(r.y, r.height)
    } else {
        high_of(r.x, r.width)
    }
}

// The lower ends of all outlines along y, or along x.
fn low_ends(alloc: Global, scene: &Scene<'_>, down: bool) -> Result<Vec<i64>, AllocError>
    requires scene { IsScene scene.now }
    ensures { IfOk result (λ ends. AreLowEnds scene.now.doc.now scene.now.placed.now down (length scene.now.doc.now.nodes) ends.items) }
{
    let mut ends = Vec::new(alloc);
    for node in 0..scene.doc.nodes().len() {
        ends.push(low_along(down, outline_at(scene, node as u32)))?;
    }
    Ok(ends)
}

// The upper ends of all outlines along y, or along x.
fn high_ends(alloc: Global, scene: &Scene<'_>, down: bool) -> Result<Vec<i64>, AllocError>
    requires scene { IsScene scene.now }
    ensures { IfOk result (λ ends. AreHighEnds scene.now.doc.now scene.now.placed.now down (length scene.now.doc.now.nodes) ends.items) }
{
    let mut ends = Vec::new(alloc);
    for node in 0..scene.doc.nodes().len() {
        ends.push(high_along(down, outline_at(scene, node as u32)))?;
    }
    Ok(ends)
}

/// The ends of the outlines of all nodes.
pub fn outline_ends(alloc: Global, scene: &Scene<'_>) -> Result<OutlineEnds, AllocError>
    requires scene { IsScene scene.now }
    ensures { IfOk result (AreEnds scene.now.doc.now scene.now.placed.now) }
{
    Ok(OutlineEnds {
        left: low_ends(alloc, scene, false)?,
        right: high_ends(alloc, scene, false)?,
        top: low_ends(alloc, scene, true)?,
        bottom: high_ends(alloc, scene, true)?,
    })
}

// Whether no stretch with a number from `from` and below `to` meets the one from `a` to `b`.
fn meet_none(lo: &[i64], hi: &[i64], from: usize, to: usize, a: i64, b: i64) -> bool
    requires same { length lo.now ≡ length hi.now }
    requires ordered { from ≤ to }
    requires inside { to ≤ length lo.now }
    ensures { IsTrue result → MeetNone lo.now hi.now from to a b }
{
    !any_meets(&lo[from..to], &hi[from..to], a, b)
}

// Whether the outlines of the nodes with numbers from `from` and below `to` all lie left of these bounds or right of them,
// or all above or below.
pub(crate) fn are_off(
    _doc: &Doc,
    _placed: &Placed,
    ends: &OutlineEnds,
    bounds: RouteBounds,
    from: usize,
    to: usize,
) -> bool
    requires ordered { from ≤ to }
    requires inside { to ≤ length _doc.now.nodes }
    requires ends { AreEnds _doc.now _placed.now ends.now }
    ensures { IsTrue result → (a : ℕ) → from ≤ a → a < to → LieOff bounds (outline_of _doc.now _placed.now a) }
{
    let left = ends.left.as_slice();
    let right = ends.right.as_slice();
    if meet_none(left, right, from, to, bounds.left, bounds.right) {
        return true;
    }
    let top = ends.top.as_slice();
    let bottom = ends.bottom.as_slice();
    meet_none(top, bottom, from, to, bounds.top, bounds.bottom)
}
