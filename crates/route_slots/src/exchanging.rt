//! What the exchange of two neighbouring slots changes.
ghost use Rattle.std.specs.Prelude.{◌≡◌, ◌≢◌, ◌<◌, ◌≤◌, ◌+◌, ◌^◌, ℕ, List, true, false, length, IfOk, if◌then◌else◌};
ghost use Rattle.net_routes.specs.Limits.{exchange_limit};
ghost use Rattle.net_routes.specs.Pieces.{net_at, route_at};
ghost use Rattle.net_routes.specs.Standing.{AreApart};
ghost use Rattle.net_routes.specs.Crossings.{crossings};
ghost use Rattle.route_slots.specs.Exchanges as swap;
ghost use Rattle.net_routes.specs.Exchanges as exchanges;
ghost use Rattle.route_slots.specs.Exchanges.{IsBetterAt, row_before, row_after, all_before, all_after};
ghost use Rattle.net_routes.specs.Exchanges.{AreExchanged, NoBetterAt};

use crate::crossings::cut;
use net_routes::{Net, NetRoute, Pin};
use std::alloc::{AllocError, Global};

// The slot's number after the exchange.
#[tactic(auto, unfolding(net_routes::specs::Exchanges::swapped))]
fn swapped(slot: u32, other: u32) -> u32
    requires { slot < 2 ^ 31 }
    ensures { result ≡ exchanges.swapped slot other }
{
    if other == slot {
        slot + 1
    } else if other == slot + 1 {
        slot
    } else {
        other
    }
}

// The route after the exchange.
#[tactic(auto, unfolding(net_routes::specs::Exchanges::exchanged))]
fn exchanged(slot: u32, route: NetRoute) -> NetRoute
    requires { slot < 2 ^ 31 }
    ensures { result ≡ exchanges.exchanged slot route }
{
    match route {
        NetRoute::Straight => NetRoute::Straight,
        NetRoute::One { slot: other } => NetRoute::One {
            slot: swapped(slot, other),
        },
        NetRoute::Two {
            first,
            height,
            second,
        } => NetRoute::Two {
            first: swapped(slot, first),
            height,
            second: swapped(slot, second),
        },
    }
}

/// All routes after the exchange of the slot and the next one.
pub fn exchange(alloc: Global, slot: u32, routes: &[NetRoute]) -> Result<Vec<NetRoute>, AllocError>
    requires { slot < 2 ^ 31 }
    ensures { IfOk result (λ others. AreExchanged slot routes.now others.items) }
{
    let mut others = Vec::new(alloc);
    'routes: for route in routes {
        others.push(exchanged(slot, *route))?;
    }
    Ok(others)
}

// Whether the slot is one of the two.
#[tactic(auto, unfolding(crate::specs::Exchanges::is_near))]
fn is_near(slot: u32, other: u32) -> bool
    requires { slot < 2 ^ 31 }
    ensures { result ≡ swap.is_near slot other }
{
    if other == slot {
        return true;
    }
    other == slot + 1
}

// Whether the net has a segment in one of the two slots.
#[tactic(auto, unfolding(crate::specs::Exchanges::touches))]
fn touches(slot: u32, route: NetRoute) -> bool
    requires { slot < 2 ^ 31 }
    ensures { result ≡ swap.touches slot route }
{
    match route {
        NetRoute::Straight => false,
        NetRoute::One { slot: other } => is_near(slot, other),
        NetRoute::Two { first, second, .. } => {
            if is_near(slot, first) {
                true
            } else {
                is_near(slot, second)
            }
        },
    }
}

// Crossings before and after the exchange.
#[derive(Clone, Copy)]
struct Change {
    before: u64,
    after: u64,
}

// The sum of both.
fn added(change: Change, other: Change) -> Change
    requires before { change.before + other.before < 2 ^ 64 }
    requires after { change.after + other.after < 2 ^ 64 }
    ensures before { result.before ≡ change.before + other.before }
    ensures after { result.after ≡ change.after + other.after }
{
    Change {
        before: change.before + other.before,
        after: change.after + other.after,
    }
}

// Crossings of two nets, if the second has a segment in the two slots.
#[tactic(auto, unfolding(crate::specs::Exchanges::near_before, crate::specs::Exchanges::near_after))]
fn pair_change(net: Net, route: NetRoute, other: Net, other_route: NetRoute, slot: u32) -> Change
    requires { slot < 2 ^ 31 }
    ensures before { result.before ≡ swap.near_before net route other other_route slot }
    ensures after { result.after ≡ swap.near_after net route other other_route slot }
    ensures few_before { result.before ≤ 6 }
    ensures few_after { result.after ≤ 6 }
{
    if !touches(slot, other_route) {
        return Change {
            before: 0,
            after: 0,
        };
    }
    Change {
        before: cut(net, route, other, other_route),
        after: cut(
            net,
            exchanged(slot, route),
            other,
            exchanged(slot, other_route),
        ),
    }
}

// Crossings of horizontal lines with the segments of one net.
fn row_change(nets: &[Net], routes: &[NetRoute], slot: u32, j: usize) -> Change
    requires len { length routes.now ≡ length nets.now }
    requires few { length nets.now ≤ exchange_limit }
    requires slot { slot < 2 ^ 31 }
    requires net { j < length nets.now }
    ensures before { result.before ≡ row_before nets.now routes.now slot j (length nets.now) }
    ensures after { result.after ≡ row_after nets.now routes.now slot j (length nets.now) }
    ensures few_before { result.before ≤ 6144 }
    ensures few_after { result.after ≤ 6144 }
{
    let mut change = Change {
        before: 0,
        after: 0,
    };
    'nets: for k in 0..nets.len() {
        let pair = pair_change(nets[j], routes[j], nets[k], routes[k], slot);
        change = added(change, pair);
    }
    change
}

// The same, if the net has a segment in the two slots.
fn near_change(nets: &[Net], routes: &[NetRoute], slot: u32, j: usize) -> Change
    requires len { length routes.now ≡ length nets.now }
    requires few { length nets.now ≤ exchange_limit }
    requires slot { slot < 2 ^ 31 }
    requires net { j < length nets.now }
    ensures before { result.before ≡ (if swap.touches slot (route_at routes.now j) then row_before nets.now routes.now slot j (length nets.now) else 0) }
    ensures after { result.after ≡ (if swap.touches slot (route_at routes.now j) then row_after nets.now routes.now slot j (length nets.now) else 0) }
    ensures few_before { result.before ≤ 6144 }
    ensures few_after { result.after ≤ 6144 }
{
    if touches(slot, routes[j]) {
        row_change(nets, routes, slot, j)
    } else {
        Change {
            before: 0,
            after: 0,
        }
    }
}

// Crossings of all nets with segments in the two slots.
fn whole_change(nets: &[Net], routes: &[NetRoute], slot: u32) -> Change
    requires len { length routes.now ≡ length nets.now }
    requires few { length nets.now ≤ exchange_limit }
    requires slot { slot < 2 ^ 31 }
    ensures before { result.before ≡ all_before nets.now routes.now slot (length nets.now) }
    ensures after { result.after ≡ all_after nets.now routes.now slot (length nets.now) }
{
    let mut change = Change {
        before: 0,
        after: 0,
    };
    'nets: for j in 0..nets.len() {
        change = added(change, near_change(nets, routes, slot, j));
    }
    change
}

// Whether the segment at the net's pin `a` stands in the slot.
#[tactic(auto, unfolding(crate::specs::Exchanges::at_a))]
fn at_a(route: NetRoute, slot: u32) -> bool
    ensures { result ≡ swap.at_a route slot }
{
    match route {
        NetRoute::Straight => false,
        NetRoute::One { slot: other } => other == slot,
        NetRoute::Two { first, .. } => first == slot,
    }
}

// Whether the segment at the net's pin `b` stands in the slot.
#[tactic(auto, unfolding(crate::specs::Exchanges::at_b))]
fn at_b(route: NetRoute, slot: u32) -> bool
    ensures { result ≡ swap.at_b route slot }
{
    match route {
        NetRoute::Straight => false,
        NetRoute::One { slot: other } => other == slot,
        NetRoute::Two { second, .. } => second == slot,
    }
}

/// Whether the first pin is on the left and the second on the right at one height.
#[tactic(auto, unfolding(crate::specs::Exchanges::meets))]
pub fn meets(pin: Pin, other: Pin) -> bool
    ensures { result ≡ swap.meets pin other }
{
    if pin.on_left {
        if other.on_left {
            false
        } else {
            pin.height == other.height
        }
    } else {
        false
    }
}

// Whether the pin meets one of the net's whose segments stand in the slot.
#[tactic(auto, unfolding(crate::specs::Exchanges::meets_in))]
fn meets_in(pin: Pin, net: Net, route: NetRoute, slot: u32) -> bool
    ensures { result ≡ swap.meets_in pin net route slot }
{
    (at_a(route, slot) & meets(pin, net.a)) | (at_b(route, slot) & meets(pin, net.b))
}

// Whether the first net has a pin on the left in the slot at the height of one of the second's on the right in the next.
#[tactic(auto, unfolding(crate::specs::Exchanges::blocks))]
fn blocks(net: Net, route: NetRoute, other: Net, other_route: NetRoute, slot: u32) -> bool
    requires { slot < 2 ^ 31 }
    ensures { result ≡ swap.blocks net route other other_route slot }
{
    (at_a(route, slot) & meets_in(net.a, other, other_route, slot + 1))
        | (at_b(route, slot) & meets_in(net.b, other, other_route, slot + 1))
}

// The same of two nets by their numbers, and not where they are one.
#[tactic(auto, unfolding(crate::specs::Exchanges::holds_back))]
fn holds_back(nets: &[Net], routes: &[NetRoute], slot: u32, j: usize, k: usize) -> bool
    requires len { length routes.now ≡ length nets.now }
    requires slot { slot < 2 ^ 31 }
    requires first { j < length nets.now }
    requires second { k < length nets.now }
    ensures { result ≡ swap.holds_back nets.now routes.now slot j k }
{
    if j == k {
        return false;
    }
    blocks(nets[j], routes[j], nets[k], routes[k], slot)
}

// Whether a segment of the net stands in the slot.
fn stands(route: NetRoute, slot: u32) -> bool
    ensures { result ≡ false → (swap.at_a route slot ≡ false) × (swap.at_b route slot ≡ false) }
{
    at_a(route, slot) | at_b(route, slot)
}

// Whether the net holds any other back from the exchange.
fn holds_any(nets: &[Net], routes: &[NetRoute], slot: u32, j: usize) -> bool
    requires len { length routes.now ≡ length nets.now }
    requires slot { slot < 2 ^ 31 }
    requires net { j < length nets.now }
    ensures some { result ≡ true → (k : ℕ) × (k < length nets.now) × (swap.holds_back nets.now routes.now slot j k ≡ true) }
    ensures none { result ≡ false → (k : ℕ) → k < length nets.now → swap.holds_back nets.now routes.now slot j k ≡ false }
{
    if !stands(routes[j], slot) {
        return false;
    }
    'nets: for k in 0..nets.len() {
        if holds_back(nets, routes, slot, j, k) {
            return true;
        }
    }
    false
}

// Whether a net holds another back from the exchange.
fn is_blocked(nets: &[Net], routes: &[NetRoute], slot: u32) -> bool
    requires len { length routes.now ≡ length nets.now }
    requires slot { slot < 2 ^ 31 }
    ensures some { result ≡ true → (j : ℕ) × (k : ℕ) × (j < length nets.now) × (k < length nets.now) × (swap.holds_back nets.now routes.now slot j k ≡ true) }
    ensures none { result ≡ false → (j k : ℕ) → j < length nets.now → k < length nets.now → swap.holds_back nets.now routes.now slot j k ≡ false }
{
    'nets: for j in 0..nets.len() {
        if holds_any(nets, routes, slot, j) {
            return true;
        }
    }
    false
}

/// Whether the exchange of the slot and the next one lessens the crossings, while segments still keep apart.
pub fn improves(nets: &[Net], routes: &[NetRoute], slot: u32) -> bool
    requires len { length routes.now ≡ length nets.now }
    requires few { length nets.now ≤ exchange_limit }
    requires slot { slot < 2 ^ 31 }
    ensures better { result ≡ true → IsBetterAt nets.now routes.now slot }
    ensures none { result ≡ false → NoBetterAt nets.now routes.now slot }
{
    let change = whole_change(nets, routes, slot);
    if change.before <= change.after {
        return false;
    }
    !is_blocked(nets, routes, slot)
}
