//! Slots by the demands of nets where not all can be met.
ghost use Rattle.std.specs.Prelude.{◌≡◌, ◌⊎◌, ◌≤◌, ◌+◌, length, IfOk, IfSome};
ghost use Rattle.std.specs.List.{All};
ghost use Rattle.net_routes.specs.Limits.{net_limit};
ghost use Rattle.net_routes.specs.GapFree.{IsNet, AreHeights};
ghost use Rattle.net_routes.specs.Crossings.{crossings};
ghost use Rattle.route_slots.specs.Exchanges.{AreLaid, AreSettled};

use crate::assigning::{assign, place};
use crate::choosing::{all_keep_order, marks_by};
use crate::crossings::crossings_of;
use crate::depths::depths_of;
use crate::fitting::fitted_segments;
use crate::lanes::eased_segments;
use crate::marks::{Mark, net_marks};
use crate::middles::{Height, middles_of};
use crate::settling::settle;
use net_routes::{Net, Slots};
use std::alloc::{AllocError, Global};

// The slots with fewer crossings, the first where they are as many.
fn less_crossed(nets: &[Net], slots: Slots, other: Slots) -> Slots
    requires few { length nets.now ≤ net_limit }
    requires len { length slots.routes.items ≡ length nets.now }
    requires other { length other.routes.items ≡ length nets.now }
    ensures which { (result ≡ slots) ⊎ (result ≡ other) }
    ensures most { crossings nets.now result.routes.items ≤ crossings nets.now slots.routes.items }
    ensures fewer { crossings nets.now result.routes.items ≤ crossings nets.now other.routes.items }
{
    let now = crossings_of(nets, slots.routes.as_slice());
    if crossings_of(nets, other.routes.as_slice()) >= now {
        return slots;
    }
    other
}

// Depths by demands, or from slots by which lines run too near.
fn depths_from(
    alloc: Global,
    nets: &[Net],
    marks: &[Mark],
    middles: &[Height],
    near: i64,
    from: Option<&Slots>,
) -> Result<Vec<u32>, AllocError>
    requires marks { length marks.now ≡ length nets.now }
    requires middles { length middles.now ≡ length nets.now }
{
    match from {
        None => fitted_segments(alloc, nets, marks, middles, near),
        Some(slots) => eased_segments(alloc, nets, slots, near),
    }
}

/// Slots by demands of which the lightest are dropped, if no two segments overlap by them. With slots to begin from, those by which
/// fewer lines run side by side too near.
pub fn relaid(
    alloc: Global,
    nets: &[Net],
    near: i64,
    from: Option<&Slots>,
) -> Result<Option<Slots>, AllocError>
    requires few { length nets.now ≤ net_limit }
    requires pins { All IsNet nets.now }
    requires heights { All AreHeights nets.now }
    ensures laid { IfOk result (λ found. IfSome found (λ slots. AreLaid nets.now slots.count slots.routes.items)) }
    ensures few { IfOk result (λ found. IfSome found (λ slots. slots.count ≤ length nets.now + length nets.now)) }
{
    let depths = depths_of(alloc, nets)?;
    let marks = net_marks(alloc, nets, &depths)?;
    let middles = middles_of(alloc, nets, marks.as_slice())?;
    let net_depths = depths_from(
        alloc,
        nets,
        marks.as_slice(),
        middles.as_slice(),
        near,
        from,
    )?;
    let others = marks_by(alloc, marks.as_slice(), net_depths.as_slice())?;
    if !all_keep_order(nets, others.as_slice()) {
        return Ok(None);
    }
    let slots = place(alloc, nets, others.as_slice(), middles.as_slice())?;
    Ok(Some(slots))
}

// The second slots after exchanges of neighbours, where there are any and they don't cross more than the first.
fn or_settled(
    alloc: Global,
    nets: &[Net],
    slots: Slots,
    other: Option<Slots>,
) -> Result<Slots, AllocError>
    requires few { length nets.now ≤ net_limit }
    requires settled { AreSettled nets.now slots.count slots.routes.items }
    requires laid { IfSome other (λ slots. AreLaid nets.now slots.count slots.routes.items) }
    requires count { IfSome other (λ slots. slots.count ≤ length nets.now + length nets.now) }
    ensures settled { IfOk result (λ best. AreSettled nets.now best.count best.routes.items) }
    ensures most { IfOk result (λ best. crossings nets.now best.routes.items ≤ crossings nets.now slots.routes.items) }
{
    match other {
        None => Ok(slots),
        Some(other) => {
            let settled = settle(alloc, nets, other)?;
            Ok(less_crossed(nets, settled, slots))
        },
    }
}

// The slots by demands, or those of `assign` where these cross no more.
fn settled(alloc: Global, nets: &[Net]) -> Result<Slots, AllocError>
    requires few { length nets.now ≤ net_limit }
    requires pins { All IsNet nets.now }
    requires heights { All AreHeights nets.now }
    ensures { IfOk result (λ slots. AreSettled nets.now slots.count slots.routes.items) }
{
    let fewest = assign(alloc, nets)?;
    match relaid(alloc, nets, 1, None)? {
        None => Ok(fewest),
        Some(slots) => {
            let settled = settle(alloc, nets, slots)?;
            Ok(less_crossed(nets, fewest, settled))
        },
    }
}

/// Slots by demands of which the lightest are dropped, or those of `assign` where these cross no more. Of slots by which lines keep
/// this distance those are taken that cross no more than without.
pub fn untangle(alloc: Global, nets: &[Net], near: i64) -> Result<Slots, AllocError>
    requires few { length nets.now ≤ net_limit }
    requires pins { All IsNet nets.now }
    requires heights { All AreHeights nets.now }
    ensures { IfOk result (λ slots. AreSettled nets.now slots.count slots.routes.items) }
{
    let slots = settled(alloc, nets)?;
    if near <= 1 {
        return Ok(slots);
    }
    let other = relaid(alloc, nets, near, None)?;
    or_settled(alloc, nets, slots, other)
}
