//! The heights of links.

ghost use Rattle.std.specs.Prelude.{◌≡◌, ℕ, ◌<◌, ◌≤◌, ◌^◌, ◌*◌, pos, ◌+ℤ◌, ◌-ℤ◌, ◌≤ℤ◌, length};
ghost use Rattle.std.specs.List.{All};
ghost use Rattle.elk_layers.specs.Lines.{top_of};
ghost use Rattle.ns_place.specs.Heights.{link_height, size, IsNearLink};
ghost use Rattle.ns_place.specs.Weighed.{weighed_heights};

use elk_layers::Link;

/// The difference of two heights.
fn between(a: i64, b: i64) -> u64
    requires low { pos 0 ≤ℤ a }
    requires low_other { pos 0 ≤ℤ b }
    ensures { result ≡ size (a -ℤ b) }
{
    if a < b {
        (b - a) as u64
    } else {
        (a - b) as u64
    }
}

/// How far one end of a link stands above the other.
pub(crate) fn height_of(top: &[i64], link: Link) -> u64
    requires { IsNearLink top.now link }
    ensures { result ≡ link_height top.now link }
{
    between(
        top[link.head as usize] + link.head_at,
        top[link.tail as usize] + link.tail_at,
    )
}

/// A height times a weight.
fn times(weight: u32, height: u64) -> u128
    ensures value { result ≡ weight * height }
    ensures small { result ≤ 2 ^ 96 }
{
    u128::from(weight) * u128::from(height)
}

/// The heights of all links together, each times its weight.
pub(crate) fn weighed_height(top: &[i64], links: &[Link], weights: &[u32]) -> u128
    requires few { length links.now ≤ 2 ^ 24 }
    requires one_each { length weights.now ≡ length links.now }
    requires near { All (IsNearLink top.now) links.now }
    ensures { result ≡ weighed_heights top.now links.now weights.now }
{
    let mut height: u128 = 0;
    for k in 0..links.len() {
        height += times(weights[k], height_of(top, links[k]));
    }
    height
}
