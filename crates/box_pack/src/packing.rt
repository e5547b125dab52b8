//! Rows of boxes.
ghost use Rattle.std.specs.Prelude.{◌≡◌, ℕ, ◌^◌, ◌<◌, ◌≤◌, ◌≤ℤ◌, IfOk, pos, length};
ghost use Rattle.box_pack.specs.Boxes.{AreSizes, EachSize};
ghost use Rattle.box_pack.specs.Packed.{AreRows};
ghost use Rattle.box_pack.specs.Walk.{AreSpots, IsPage};

use crate::walk::{Page, behind, measure, row_for, top};
use drawing_types::list::Items;
use drawing_types::shape::{Point, Size};
use std::alloc::{AllocError, Global};

/// The places of boxes in rows, in the order of the boxes, and their extent.
#[derive(Drop)]
pub struct Rows {
    pub at: Items<Point>,
    pub extent: Size,
}

/// Packs boxes into rows. A box stands `gap` beside the one before it where it then reaches no further than `limit`,
/// and otherwise begins a row, `gap` below the tallest box of the row before. The first box of a row may pass the limit.
///
/// Proved:
/// - Boxes stand in rows under a limit of width.
pub fn pack(alloc: Global, sizes: &[Size], gap: i64, limit: i64) -> Result<Rows, AllocError>
    requires count { length sizes.now ≤ 2048 }
    requires sizes { AreSizes sizes.now }
    requires gap { (pos 1 ≤ℤ gap) × (gap ≤ℤ pos (2 ^ 20)) }
    requires limit { pos 0 ≤ℤ limit }
    ensures { IfOk result (AreRows sizes.now gap limit) }
{
    let page = Page { gap, limit };
    let extent = measure(sizes, &page).extent;
    let at = Items::from_vec(places(alloc, sizes, &page)?);
    Ok(Rows { at, extent })
}

// The places of the boxes.
fn places(alloc: Global, sizes: &[Size], page: &Page) -> Result<Vec<Point>, AllocError>
    requires count { length sizes.now ≤ 2048 }
    requires sizes { EachSize sizes.now }
    requires page { IsPage page.now }
    ensures count { IfOk result (λ at. length at.items ≡ length sizes.now) }
    ensures at { IfOk result (λ at. AreSpots sizes.now page.now (length sizes.now) at.items) }
{
    let mut at = Vec::new(alloc);
    let mut cursor = top();
    for size in sizes {
        let row = row_for(page, &cursor, size);
        at.push(Point { x: row.x, y: row.y })?;
        cursor = behind(page, &row, size);
    }
    Ok(at)
}
