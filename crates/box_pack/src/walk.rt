//! How rows are filled, box by box.
ghost use Rattle.std.specs.Prelude.{◌≡◌, ◌+◌, ◌*◌, ◌^◌, ◌<◌, ◌≤◌, ◌≤ℤ◌, pos, length};
ghost use Rattle.box_pack.specs.Boxes.{IsSize, EachSize};
ghost use Rattle.box_pack.specs.Walk.{IsNear, IsPage, before, behind, below, grown, measured_to, next_with, reach, row_for};

use drawing_types::shape::Size;

// A width that no row reaches.
const UNREACHED: i64 = 1 << 60;

/// The gap between boxes and between rows, and the limit of a row.
#[derive(Clone, Copy)]
pub struct Page {
    pub gap: i64,
    pub limit: i64,
}

/// A row that is being filled: where its next box stands, and the height of its tallest box. At 0 it is empty.
#[derive(Clone, Copy)]
pub struct Cursor {
    pub x: i64,
    pub y: i64,
    pub tall: i64,
}

/// The extent of rows, and the least limit above theirs that changes them, or 2^60 where there is none.
#[derive(Clone, Copy)]
pub struct Measured {
    pub extent: Size,
    pub next: i64,
}

/// The empty row at the top.
pub fn top() -> Cursor
    ensures { result ≡ record { x = pos 0; y = pos 0; tall = pos 0 } }
{
    Cursor {
        x: 0,
        y: 0,
        tall: 0,
    }
}

/// The row in which a box stands, before it does: this one, or the next.
pub fn row_for(page: &Page, cursor: &Cursor, size: &Size) -> Cursor
    requires page { IsPage page.now }
    requires near { IsNear 2048 cursor.now }
    requires size { IsSize size.now }
    ensures { result ≡ row_for page.now cursor.now size.now }
{
    if reach(cursor, size) > page.limit {
        below(page, cursor)
    } else {
        *cursor
    }
}

/// The row behind a box that stands in it.
pub fn behind(page: &Page, row: &Cursor, size: &Size) -> Cursor
    requires page { IsPage page.now }
    requires near { IsNear 2049 row.now }
    requires size { IsSize size.now }
    ensures { result ≡ behind page.now.gap row.now size.now }
{
    Cursor {
        x: row.x + size.width + page.gap,
        y: row.y,
        tall: row.tall.max(size.height),
    }
}

/// The extent of the rows of these boxes, and the next limit that changes the rows.
pub fn measure(sizes: &[Size], page: &Page) -> Measured
    requires count { length sizes.now ≤ 2048 }
    requires sizes { EachSize sizes.now }
    requires page { IsPage page.now }
    ensures { result ≡ measured_to sizes.now page.now (length sizes.now) }
{
    let mut cursor = top();
    let mut measured = Measured {
        extent: Size {
            width: 0,
            height: 0,
        },
        next: UNREACHED,
    };
    for size in sizes {
        let row = row_for(page, &cursor, size);
        measured = Measured {
            extent: grown(&measured.extent, &row, size),
            next: sooner(&measured, page, &cursor, size),
        };
        cursor = behind(page, &row, size);
    }
    measured
}

// How far a box would reach in the row. A row that is empty takes any box.
fn reach(cursor: &Cursor, size: &Size) -> i64
    requires near { IsNear 2048 cursor.now }
    requires size { IsSize size.now }
    ensures { result ≡ reach cursor.now size.now }
{
    if cursor.x > 0 {
        cursor.x + size.width
    } else {
        0
    }
}

// The row below.
fn below(page: &Page, cursor: &Cursor) -> Cursor
    requires page { IsPage page.now }
    requires near { IsNear 2048 cursor.now }
    ensures { result ≡ below page.now.gap cursor.now }
{
    Cursor {
        x: 0,
        y: cursor.y + cursor.tall + page.gap,
        tall: 0,
    }
}

// The extent with one more box.
fn grown(extent: &Size, row: &Cursor, size: &Size) -> Size
    requires near { IsNear 2049 row.now }
    requires size { IsSize size.now }
    ensures { result ≡ grown extent.now row.now size.now }
{
    Size {
        width: extent.width.max(row.x + size.width),
        height: extent.height.max(row.y + size.height),
    }
}

// The next limit with one more box.
fn sooner(measured: &Measured, page: &Page, cursor: &Cursor, size: &Size) -> i64
    requires near { IsNear 2048 cursor.now }
    requires size { IsSize size.now }
    ensures { result ≡ next_with measured.now.next page.now cursor.now size.now }
{
    let reached = reach(cursor, size);
    if reached > page.limit {
        measured.next.min(reached)
    } else {
        measured.next
    }
}
