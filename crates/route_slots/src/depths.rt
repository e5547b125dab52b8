//! How far behind the first slots a net with a pin on the right at some height stands, and which nets are split.
ghost use Rattle.std.specs.Prelude.{◌≡◌, ◌<◌, ◌≤◌, ℕ, true, length, IfOk, IfSome, IfNone, unwrap_or};
ghost use Rattle.std.specs.Ordering.{int_cmp};
ghost use Rattle.std.specs.BTreeMap.{get};
ghost use Rattle.net_routes.specs.Limits.{net_limit};
ghost use Rattle.net_routes.specs.Conflicts.{LiesOnCycle};
ghost use Rattle.route_slots.specs.Numbers.{AreSides, HasNoSides, IsLinkOf, AreLinks};
ghost use Rattle.route_slots.specs.Depths.{depth, is_split, AreDepths, AreHeld, AreSized};

use crate::heights::{Heights, heights_of};
use crate::marks::is_straight;
use crate::{Link, cut_cycles};
use net_routes::{Net, Pin};
use std::alloc::{AllocError, Global};
use std::collections::BTreeMap;

/// Which nets are split, and the depths of the heights at which nets have pins on the left, by the numbers of these.
#[derive(Drop)]
pub struct Depths {
    pub splits: Vec<bool>,
    pub numbers: BTreeMap<i64, u32>,
    pub depths: Vec<u32>,
}

// The pins of a net that leads across the gap.
#[derive(Clone, Copy)]
struct Sides {
    left: Pin,
    right: Pin,
}

// The pins of a net that leads across the gap and is not straight.
fn sides_of(net: Net) -> Option<Sides>
    ensures sides { IfSome result (λ sides. AreSides net sides.left sides.right) }
    ensures none { IfNone result (HasNoSides net) }
{
    if is_straight(net) {
        return None;
    }
    if net.a.on_left == net.b.on_left {
        return None;
    }
    if net.a.on_left {
        return Some(Sides {
            left: net.a,
            right: net.b,
        });
    }
    Some(Sides {
        left: net.b,
        right: net.a,
    })
}

// The number of a pin's height, or another where it has none.
fn number_or(heights: &Heights, pin: Pin, other: u32) -> u32
    ensures { result ≡ unwrap_or (get int_cmp heights.now.numbers pin.height) other }
{
    match heights.numbers.get(&pin.height) {
        None => other,
        Some(number) => *number,
    }
}

// The net as a link between heights.
fn link_of(heights: &Heights, net: Net) -> Link
    ensures { IsLinkOf heights.now.numbers net result }
{
    match sides_of(net) {
        None => Link { tail: 0, head: 1 },
        Some(sides) => Link {
            tail: number_or(heights, sides.left, 0),
            head: number_or(heights, sides.right, 1),
        },
    }
}

// All nets as links.
fn links_of(alloc: Global, heights: &Heights, nets: &[Net]) -> Result<Vec<Link>, AllocError>
    ensures { IfOk result (λ links. AreLinks heights.now.numbers nets.now links.items (length nets.now)) }
{
    let mut links = Vec::new(alloc);
    'nets: for net in nets {
        links.push(link_of(heights, *net))?;
    }
    Ok(links)
}

/// The nets to be split, each of which lies on a cycle of conflicts, and the depths of all heights with pins on the left.
pub fn depths_of(alloc: Global, nets: &[Net]) -> Result<Depths, AllocError>
    requires { length nets.now ≤ net_limit }
    ensures depths { IfOk result (λ depths. AreDepths nets.now depths.splits.items (depth depths)) }
    ensures held { IfOk result (λ depths. AreHeld nets.now (depth depths)) }
    ensures sized { IfOk result (λ depths. AreSized depths) }
    ensures cycles { IfOk result (λ depths. (k : ℕ) → k < length nets.now → is_split depths.splits.items k ≡ true → LiesOnCycle nets.now k) }
{
    let heights = heights_of(alloc, nets)?;
    let links = links_of(alloc, &heights, nets)?;
    let cuts = cut_cycles(alloc, heights.bound, links.as_slice())?;
    Ok(Depths {
        splits: cuts.cut,
        numbers: heights.numbers,
        depths: cuts.depths,
    })
}
