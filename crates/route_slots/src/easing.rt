//! Slots by which fewer lines run side by side too near each other, where that costs no crossing and no slot.
ghost use Rattle.std.specs.Prelude.{◌≡◌, ◌⊎◌, ◌≤◌, length, IfOk};
ghost use Rattle.std.specs.List.{All};
ghost use Rattle.net_routes.specs.Limits.{exchange_limit, net_limit};
ghost use Rattle.net_routes.specs.GapFree.{IsNet, AreHeights};
ghost use Rattle.net_routes.specs.Crossings.{crossings};
ghost use Rattle.net_routes.specs.Promised.{AreFewest};

use crate::assigning::assign;
use crate::crossings::crossings_of;
use crate::lanes::near_lanes;
use crate::settling::settle;
use crate::untangling::relaid;
use net_routes::{Net, Slots};
use std::alloc::{AllocError, Global};

// The other slots, if they are as many and cross no more.
fn calmer(nets: &[Net], slots: Slots, other: Slots) -> Slots
    requires few { length nets.now ≤ net_limit }
    requires len { length slots.routes.items ≡ length nets.now }
    requires other { length other.routes.items ≡ length nets.now }
    ensures which { (result ≡ slots) ⊎ (result ≡ other) }
    ensures count { result.count ≡ slots.count }
    ensures most { crossings nets.now result.routes.items ≤ crossings nets.now slots.routes.items }
{
    if other.count != slots.count {
        return slots;
    }
    let now = crossings_of(nets, slots.routes.as_slice());
    if crossings_of(nets, other.routes.as_slice()) > now {
        return slots;
    }
    other
}

// The other slots, if they are as many, cross no more, and let fewer lines run too near than so many.
fn roomier(
    alloc: Global,
    nets: &[Net],
    slots: Slots,
    other: Slots,
    near: i64,
    lanes: u64,
) -> Result<Slots, AllocError>
    requires few { length nets.now ≤ net_limit }
    requires len { length slots.routes.items ≡ length nets.now }
    requires other { length other.routes.items ≡ length nets.now }
    ensures which { IfOk result (λ best. (best ≡ slots) ⊎ (best ≡ other)) }
    ensures count { IfOk result (λ best. best.count ≡ slots.count) }
    ensures most { IfOk result (λ best. crossings nets.now best.routes.items ≤ crossings nets.now slots.routes.items) }
{
    if near_lanes(alloc, nets, &other, near)? >= lanes {
        return Ok(slots);
    }
    Ok(calmer(nets, slots, other))
}

// Slots in place of these, if they are as many, cross no more, and let fewer lines run too near.
fn ease(alloc: Global, nets: &[Net], slots: Slots, near: i64) -> Result<Slots, AllocError>
    requires few { length nets.now ≤ exchange_limit }
    requires pins { All IsNet nets.now }
    requires heights { All AreHeights nets.now }
    requires all { AreFewest nets.now slots.count slots.routes.items }
    ensures all { IfOk result (λ best. AreFewest nets.now best.count best.routes.items) }
    ensures most { IfOk result (λ best. crossings nets.now best.routes.items ≤ crossings nets.now slots.routes.items) }
{
    let lanes = near_lanes(alloc, nets, &slots, near)?;
    if lanes == 0 {
        return Ok(slots);
    }
    match relaid(alloc, nets, near, Some(&slots))? {
        None => Ok(slots),
        Some(other) => {
            let settled = settle(alloc, nets, other)?;
            roomier(alloc, nets, slots, settled, near, lanes)
        },
    }
}

/// A route for each net as by `assign`, where lines shall not run side by side nearer than a distance.
///
/// With a net's pin on the left that is nearer to another's pin on the right than `near`, the lines at the two pins run side by
/// side if the net of the pin on the left stands behind. In a gap of up to 1,024 nets it stands before the other where that is found
/// to make no more crossings and no more slots.
pub fn assign_near(alloc: Global, nets: &[Net], near: i64) -> Result<Slots, AllocError>
    requires few { length nets.now ≤ net_limit }
    requires pins { All IsNet nets.now }
    requires heights { All AreHeights nets.now }
    ensures { IfOk result (λ slots. AreFewest nets.now slots.count slots.routes.items) }
{
    let fewest = assign(alloc, nets)?;
    if nets.len() > 1024 {
        return Ok(fewest);
    }
    ease(alloc, nets, fewest, near)
}
