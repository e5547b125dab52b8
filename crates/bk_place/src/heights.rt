//! The height that lines need.
ghost use Rattle.std.specs.Prelude.{◌≡◌, ℕ, ◌<◌, ◌^◌, ◌≤ℤ◌, ◌+ℤ◌, pos, length};
ghost use Rattle.std.specs.Int.{int_max};
ghost use Rattle.elk_layers.specs.Layered.{plain, unit_at, IsSound};
ghost use Rattle.elk_layers.specs.Lines.{top_of};
ghost use Rattle.elk_layers.specs.Lines as spec;

use elk_layers::{Layered, Lines, Unit};

/// The greater of two heights.
fn higher(a: i64, b: i64) -> i64
    ensures { result ≡ int_max a b }
{
    if a < b { b } else { a }
}

/// The sum of a unit's top and height.
fn end_at(tops: &[i64], units: &[Unit], u: usize) -> i64
    requires unit { u < length units.now }
    requires as_many { length tops.now ≡ length units.now }
    requires from_zero { pos 0 ≤ℤ top_of tops.now u }
    requires height { pos 0 ≤ℤ (unit_at units.now u).height }
    requires within { (top_of tops.now u +ℤ (unit_at units.now u).height) ≤ℤ pos (2 ^ 60) }
    ensures { result ≡ top_of tops.now u +ℤ (unit_at units.now u).height }
{
    tops[u] + units[u].height
}

/// The greatest sum of a unit's top and height, or 0 without units.
pub(crate) fn extent(layered: &Layered, lines: &Lines) -> i64
    requires as_many { length lines.now.top.items ≡ length (plain layered.now).units }
    requires from_zero { (u : ℕ) → u < length (plain layered.now).units → pos 0 ≤ℤ top_of lines.now.top.items u }
    requires heights { (u : ℕ) → u < length (plain layered.now).units → pos 0 ≤ℤ (unit_at (plain layered.now).units u).height }
    requires within { (u : ℕ) → u < length (plain layered.now).units
        → (top_of lines.now.top.items u +ℤ (unit_at (plain layered.now).units u).height) ≤ℤ pos (2 ^ 60) }
    ensures extent { result ≡ spec.extent (plain layered.now) lines.now.top.items }
    ensures low { pos 0 ≤ℤ result }
    ensures high { result ≤ℤ pos (2 ^ 60) }
{
    let tops = lines.top.as_slice();
    let units = layered.units.as_slice();
    let mut height: i64 = 0;
    for u in 0..units.len() {
        height = higher(height, end_at(tops, units, u));
    }
    height
}
