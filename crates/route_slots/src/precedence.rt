//! Which nets have to stand before which, lest they overlap or cross more often than they have to.
ghost use Rattle.std.specs.Prelude.{◌≡◌, ◌<◌, true, false, length};
ghost use Rattle.route_slots.specs.NetDepths as order;
ghost use Rattle.net_routes.specs.Uncrossed as uncrossed;
ghost use Rattle.route_slots.specs.NetDepths.{KeepApart};
ghost use Rattle.net_routes.specs.Uncrossed.{Precedes};

use crate::crossings::cut;
use crate::exchanging::meets;
use crate::marks::is_straight;
use net_routes::{Net, NetRoute, Pin};

// Whether the first pin comes before the second on the way up the left border and down the right one.
#[tactic(auto, unfolding(net_routes::specs::Uncrossed::is_before))]
fn is_before(pin: Pin, other: Pin) -> bool
    ensures { result ≡ uncrossed.is_before pin other }
{
    if pin.on_left {
        if other.on_left {
            pin.height < other.height
        } else {
            true
        }
    } else {
        if other.on_left {
            false
        } else {
            other.height < pin.height
        }
    }
}

#[tactic(auto, unfolding(net_routes::specs::Uncrossed::first_pin))]
fn first_pin(net: Net) -> Pin
    ensures { result ≡ uncrossed.first_pin net }
{
    if is_before(net.a, net.b) {
        net.a
    } else {
        net.b
    }
}

#[tactic(auto, unfolding(net_routes::specs::Uncrossed::last_pin))]
fn last_pin(net: Net) -> Pin
    ensures { result ≡ uncrossed.last_pin net }
{
    if is_before(net.a, net.b) {
        net.b
    } else {
        net.a
    }
}

// Whether pins of the one net and the other come by turns, the first net's first.
#[tactic(auto, unfolding(net_routes::specs::Uncrossed::take_turns))]
fn take_turns(net: Net, other: Net) -> bool
    ensures { result ≡ uncrossed.take_turns net other }
{
    (is_before(first_pin(net), first_pin(other)) & is_before(first_pin(other), last_pin(net)))
        & is_before(last_pin(net), last_pin(other))
}

#[tactic(auto, unfolding(net_routes::specs::Uncrossed::alternate))]
fn alternate(net: Net, other: Net) -> bool
    ensures { result ≡ uncrossed.alternate net other }
{
    take_turns(net, other) | take_turns(other, net)
}

// How often the nets have to cross.
#[tactic(auto, unfolding(net_routes::specs::Uncrossed::asked, net_routes::specs::Crossings::one))]
fn asked(net: Net, other: Net) -> u64
    ensures { result ≡ uncrossed.asked net other }
{
    if alternate(net, other) { 1 } else { 0 }
}

// How often they cross with the first one before the second.
#[tactic(auto, unfolding(net_routes::specs::Uncrossed::in_order))]
fn in_order(net: Net, other: Net) -> u64
    ensures { result ≡ uncrossed.in_order net other }
{
    let first = NetRoute::One { slot: 0 };
    let second = NetRoute::One { slot: 1 };
    cut(net, first, other, second) + cut(other, second, net, first)
}

// Whether the first net has a pin on the left as high as one of the second's on the right.
#[tactic(auto, unfolding(crate::specs::NetDepths::conflicts))]
fn conflicts(net: Net, other: Net) -> bool
    ensures { result ≡ order.conflicts net other }
{
    (meets(net.a, other.a) | meets(net.a, other.b))
        | (meets(net.b, other.a) | meets(net.b, other.b))
}

// Whether the first net's segment has to stand before the second's, if both have one.
#[tactic(auto, unfolding(crate::specs::NetDepths::stands_first))]
fn stands_first(net: Net, other: Net) -> bool
    ensures { result ≡ order.stands_first net other }
{
    let more = in_order(other, net);
    if more == 0 {
        return conflicts(net, other);
    }
    conflicts(net, other) | (asked(net, other) < more)
}

// Whether all of the first net lies at lower heights than all of the second.
#[tactic(auto, unfolding(crate::specs::NetDepths::is_past))]
fn is_past(net: Net, other: Net) -> bool
    ensures { result ≡ order.is_past net other }
{
    net.a.height.max(net.b.height) < other.a.height.min(other.b.height)
}

// Whether the nets have no height in common.
fn keep_apart(net: Net, other: Net) -> bool
    ensures { result ≡ true → KeepApart net other }
{
    if is_past(net, other) {
        return true;
    }
    is_past(other, net)
}

/// Whether the net with the first number precedes the other.
pub fn precedes(nets: &[Net], first: usize, second: usize) -> bool
    requires first { first < length nets.now }
    requires second { second < length nets.now }
    ensures yes { result ≡ true → Precedes nets.now first second }
    ensures no { result ≡ false → Precedes nets.now first second → ⊥ }
{
    if first == second {
        return false;
    }
    let net = nets[first];
    let other = nets[second];
    if keep_apart(net, other) {
        return false;
    }
    if is_straight(net) {
        return false;
    }
    if is_straight(other) {
        return false;
    }
    stands_first(net, other)
}
