//! The squarest rows.
ghost use Rattle.std.specs.Prelude.{◌≡◌, ℕ, ◌^◌, ◌<◌, ◌≤◌, ◌≤ℤ◌, ◌<ℤ◌, IfOk, pos, length};
ghost use Rattle.box_pack.specs.Boxes.{AreSizes, EachSize, long_side};
ghost use Rattle.box_pack.specs.Squareness.{IsSquarest};
ghost use Rattle.box_pack.specs.Walk.{IsLeastLimit};

use crate::packing::{Rows, pack};
use crate::walk::{Page, measure};
use drawing_types::shape::Size;
use std::alloc::{AllocError, Global};

/// The least limit that gives rows with the smallest long side, and these rows.
#[derive(Drop)]
pub struct Squarest {
    pub limit: i64,
    pub rows: Rows,
}

/// The squarest rows of these boxes. The greater of the extent's width and height is the least that any limit gives.
///
/// Proved:
/// - The rows that come closest to a square, under the least limit that gives them.
pub fn best(alloc: Global, sizes: &[Size], gap: i64) -> Result<Squarest, AllocError>
    requires count { length sizes.now ≤ 2048 }
    requires sizes { AreSizes sizes.now }
    requires gap { (pos 1 ≤ℤ gap) × (gap ≤ℤ pos (2 ^ 20)) }
    ensures { IfOk result (IsSquarest sizes.now gap) }
{
    let limit = least_limit(sizes, gap);
    let rows = pack(alloc, sizes, gap, limit)?;
    Ok(Squarest { limit, rows })
}

// The least limit that gives the smallest long side. Only limits at which the rows change are tried, each read off the
// rows of the one before, and none that is not below the smallest long side found so far: rows that change at a limit
// reach it.
fn least_limit(sizes: &[Size], gap: i64) -> i64
    requires count { length sizes.now ≤ 2048 }
    requires sizes { EachSize sizes.now }
    requires gap { (pos 1 ≤ℤ gap) × (gap ≤ℤ pos (2 ^ 20)) }
    ensures { IsLeastLimit sizes.now gap result }
{
    let mut page = Page { gap, limit: 0 };
    let mut measured = measure(sizes, &page);
    let mut least = long_side(&measured.extent);
    let mut limit = 0;
    'limits: while measured.next < least {
        page = Page {
            gap,
            limit: measured.next,
        };
        measured = measure(sizes, &page);
        let long = long_side(&measured.extent);
        if long < least {
            least = long;
            limit = page.limit;
        }
    }
    limit
}

// The long side of an extent.
fn long_side(extent: &Size) -> i64
    ensures { result ≡ long_side extent.now }
{
    extent.width.max(extent.height)
}
