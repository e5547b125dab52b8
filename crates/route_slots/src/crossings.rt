//! How many segments of nets cross.
ghost use Rattle.std.specs.Prelude.{◌≡◌, ◌≤◌, ◌<◌, ◌*◌, length};
ghost use Rattle.net_routes.specs.Limits.{net_limit};
ghost use Rattle.net_routes.specs.Crossings as count;
ghost use Rattle.net_routes.specs.Crossings.{sum_to, cut_at, crossings};

use net_routes::{Net, NetRoute, Pin, Upright};

// Whether the height lies between the two others.
#[tactic(auto, unfolding(net_routes::specs::Crossings::is_over))]
fn is_over(x: i64, y: i64, height: i64) -> bool
    ensures { result ≡ count.is_over x y height }
{
    x.min(y) < height && height < x.max(y)
}

// Whether the line between a border and a slot passes the other slot.
#[tactic(auto, unfolding(net_routes::specs::Crossings::passes))]
fn passes(on_left: bool, slot: u32, other: u32) -> bool
    ensures { result ≡ count.passes on_left slot other }
{
    if on_left { other < slot } else { slot < other }
}

// Whether the line between two slots passes the other slot.
#[tactic(auto, unfolding(net_routes::specs::Crossings::is_between))]
fn is_between(first: u32, second: u32, other: u32) -> bool
    ensures { result ≡ count.is_between first second other }
{
    if first < other {
        other < second
    } else {
        second < other && other < first
    }
}

#[tactic(auto, unfolding(net_routes::specs::Crossings::one))]
fn one(crosses: bool) -> u64
    ensures one { result ≡ count.one crosses }
    ensures few { result ≤ 1 }
{
    if crosses { 1 } else { 0 }
}

// Crossings of the line at a pin, whose segment stands in this slot, with another segment.
#[tactic(auto, unfolding(net_routes::specs::Crossings::pin_cut))]
fn pin_cut(pin: Pin, slot: u32, upright: Upright) -> u64
    ensures cut { result ≡ count.pin_cut pin slot upright }
    ensures few { result ≤ 1 }
{
    if !passes(pin.on_left, slot, upright.slot) {
        return 0;
    }
    one(is_over(upright.from, upright.to, pin.height))
}

// Crossings of the line between the two segments of a split net.
#[tactic(auto, unfolding(net_routes::specs::Crossings::bar_cut))]
fn bar_cut(first: u32, height: i64, second: u32, upright: Upright) -> u64
    ensures cut { result ≡ count.bar_cut first height second upright }
    ensures few { result ≤ 1 }
{
    if !is_between(first, second, upright.slot) {
        return 0;
    }
    one(is_over(upright.from, upright.to, height))
}

// Crossings of a net's horizontal lines with a segment.
#[tactic(auto, unfolding(net_routes::specs::Crossings::cuts))]
fn cuts(net: Net, route: NetRoute, upright: Upright) -> u64
    ensures cuts { result ≡ count.cuts net route upright }
    ensures few { result ≤ 3 }
{
    match route {
        NetRoute::Straight => one(is_over(upright.from, upright.to, net.a.height)),
        NetRoute::One { slot } => pin_cut(net.a, slot, upright) + pin_cut(net.b, slot, upright),
        NetRoute::Two {
            first,
            height,
            second,
        } => {
            pin_cut(net.a, first, upright)
                + pin_cut(net.b, second, upright)
                + bar_cut(first, height, second, upright)
        },
    }
}

/// Crossings of the second net's horizontal lines with segments of the first.
#[tactic(auto, unfolding(net_routes::specs::Crossings::cut))]
pub fn cut(net: Net, route: NetRoute, other: Net, other_route: NetRoute) -> u64
    ensures cut { result ≡ count.cut net route other other_route }
    ensures few { result ≤ 6 }
{
    match route {
        NetRoute::Straight => 0,
        NetRoute::One { slot } => cuts(
            other,
            other_route,
            Upright {
                slot,
                from: net.a.height,
                to: net.b.height,
            },
        ),
        NetRoute::Two {
            first,
            height,
            second,
        } => {
            let at_a = Upright {
                slot: first,
                from: net.a.height,
                to: height,
            };
            let at_b = Upright {
                slot: second,
                from: height,
                to: net.b.height,
            };
            cuts(other, other_route, at_a) + cuts(other, other_route, at_b)
        },
    }
}

// Crossings with the segments of one net.
fn row_crossings(nets: &[Net], routes: &[NetRoute], j: usize) -> u64
    requires len { length routes.now ≡ length nets.now }
    requires few { length nets.now ≤ net_limit }
    requires net { j < length nets.now }
    ensures row { result ≡ sum_to (cut_at nets.now routes.now j) (length nets.now) }
    ensures few { result ≤ 6 * net_limit }
{
    let mut total = 0;
    'nets: for k in 0..nets.len() {
        total += cut(nets[j], routes[j], nets[k], routes[k]);
    }
    total
}

/// All crossings of the gap.
pub fn crossings_of(nets: &[Net], routes: &[NetRoute]) -> u64
    requires len { length routes.now ≡ length nets.now }
    requires few { length nets.now ≤ net_limit }
    ensures { result ≡ crossings nets.now routes.now }
{
    let mut total = 0;
    'nets: for j in 0..nets.len() {
        total += row_crossings(nets, routes, j);
    }
    total
}
