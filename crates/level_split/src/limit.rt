//! How wide rows of parts may be.
ghost use Rattle.std.specs.Prelude.{◌≡◌, ◌*◌, ◌+◌, ◌<◌, ◌≤◌, ◌^◌, ℕ, ◌+ℤ◌, ◌≤ℤ◌, pos, length, nat_abs};
ghost use Rattle.box_pack.specs.Boxes.{EachSize, IsSize};
ghost use Rattle.elk_doc.specs.Sound.{IsDistance};
ghost use Rattle.level_split.specs.Limits.{IsRoot, IsRowLimit, IsWidest, area_of, area_to};

use drawing_types::shape::Size;

// The length of a side with a gap.
fn side(length: i64, gap: i64) -> u64
    requires length { (pos 0 ≤ℤ length) × (length ≤ℤ pos (2 ^ 48)) }
    requires gap { IsDistance gap }
    ensures value { result ≡ nat_abs (length +ℤ gap) }
    ensures small { result ≤ 2 ^ 49 }
{
    (length + gap).unsigned_abs()
}

// The area of a rectangle of these sides.
fn product(width: u64, height: u64) -> u128
    requires width { width ≤ 2 ^ 49 }
    requires height { height ≤ 2 ^ 49 }
    ensures value { result ≡ width * height }
    ensures small { result ≤ 2 ^ 98 }
{
    width as u128 * height as u128
}

// The area of a size with a gap on two sides.
fn area(size: &Size, gap: i64) -> u128
    requires size { IsSize size.now }
    requires gap { IsDistance gap }
    ensures value { result ≡ area_of size.now gap }
    ensures small { result ≤ 2 ^ 98 }
{
    product(side(size.width, gap), side(size.height, gap))
}

// The areas of all sizes together.
fn total_area(sizes: &[Size], gap: i64) -> u128
    requires count { length sizes.now ≤ 2048 }
    requires sizes { EachSize sizes.now }
    requires gap { IsDistance gap }
    ensures value { result ≡ area_to sizes.now gap (length sizes.now) }
    ensures small { result < 2 ^ 110 }
{
    let mut total: u128 = 0;
    for size in sizes {
        total += area(size, gap);
    }
    total
}

// The square of a number.
fn square(side: u64) -> u128
    requires { side ≤ 2 ^ 55 }
    ensures { result ≡ side * side }
{
    side as u128 * side as u128
}

// The greatest whole number whose square is no more than this, found by bisection.
fn root(area: u128) -> u64
    requires { area < 2 ^ 110 }
    ensures root { IsRoot area result }
    ensures small { result < 2 ^ 55 }
{
    let mut low: u64 = 0;
    let mut high: u64 = 1 << 55;
    'halves: while high - low > 1 {
        let middle = low + (high - low) / 2;
        if square(middle) <= area {
            low = middle;
        } else {
            high = middle;
        }
    }
    low
}

// The greatest width, and 0 where there is none.
fn widest(sizes: &[Size]) -> i64
    requires { EachSize sizes.now }
    ensures { IsWidest sizes.now result }
{
    let mut widest = 0;
    for size in sizes {
        widest = size.width.max(widest);
    }
    widest
}

/// The limit of rows of parts that have these extents: the widest of them, or the side of a square of their areas with a gap each,
/// whichever is greater. So rows come out about as wide as they are high together.
pub(crate) fn row_limit(sizes: &[Size], gap: i64) -> i64
    requires count { length sizes.now ≤ 2048 }
    requires sizes { EachSize sizes.now }
    requires gap { IsDistance gap }
    ensures limit { IsRowLimit sizes.now gap result }
    ensures least { pos 0 ≤ℤ result }
{
    let side = root(total_area(sizes, gap)) as i64;
    side.max(widest(sizes))
}
