//! Links that cross a link between two lanes.
ghost use Rattle.std.specs.Prelude.{◌≡◌, ℕ, ◌<◌, List, length, map, IfOk, ◌||◌, ◌&&◌, not};
ghost use Rattle.std.specs.List.{All, list_any};
ghost use Rattle.elk_layers.specs.Layered as layers;
ghost use Rattle.elk_layers.specs.Layered.{plain, IsSound, IsSoundLink, AreRows};
ghost use Rattle.elk_layers.specs.Alignment as spec;
ghost use Rattle.elk_layers.specs.Places.{ArePlaces};
ghost use Rattle.bk_place.specs.Marks as mark;
ghost use Rattle.bk_place.specs.Marks.{pin_of, IsReach, IsLow, HoldBoth, overtakes, AreMarkedLinks};

use crate::ends::key_at;
use crate::reaching::{LinkEnd, Reach, is_overtaken, mirrored, mirrored_pins, reach_of};
use elk_layers::{Layered, Link};
use std::alloc::{AllocError, Global};

/// Whether the unit is a lane of a long edge.
pub(crate) fn is_lane(layered: &Layered, unit: u32) -> bool
    requires { unit < length (plain layered.now).units }
    ensures { result ≡ layers.is_lane (plain layered.now) unit }
{
    let units = layered.units.as_slice();
    units[unit as usize].child.is_none()
}

/// Whether the link joins two lanes.
fn is_inner(layered: &Layered, link: Link) -> bool
    requires { IsSoundLink (plain layered.now) link }
    ensures { result ≡ spec.is_inner (plain layered.now) link }
{
    if !is_lane(layered, link.tail) {
        return false;
    }
    is_lane(layered, link.head)
}

/// Where the link begins and where it ends.
fn pin_for(layered: &Layered, place: &[u32], link: Link) -> LinkEnd
    requires link { IsSoundLink (plain layered.now) link }
    requires places { length place.now ≡ length (plain layered.now).units }
    ensures pin { result ≡ pin_of (plain layered.now) place.now link }
    ensures low { IsLow result }
{
    let units = layered.units.as_slice();
    let gap = units[link.tail as usize].layer as u128 * 18446744073709551616;
    LinkEnd {
        start: gap + key_at(place, link.tail, link.tail_rank),
        finish: gap + key_at(place, link.head, link.head_rank),
    }
}

/// The links between lanes.
fn inner_pins(alloc: Global, layered: &Layered, place: &[u32]) -> Result<Vec<LinkEnd>, AllocError>
    requires sound { IsSound (plain layered.now) }
    requires places { length place.now ≡ length (plain layered.now).units }
    ensures pins { IfOk result (λ v. v.items ≡ mark.inner_pins (plain layered.now) place.now) }
    ensures low { IfOk result (λ v. All IsLow v.items) }
{
    let mut pins: Vec<LinkEnd> = Vec::with_capacity(alloc, layered.links.len())?;
    for link in layered.links.as_slice() {
        if is_inner(layered, *link) {
            pins.push(pin_for(layered, place, *link))?;
        }
    }
    Ok(pins)
}

/// Whether a link that is not inner crosses one of these.
fn is_crossed(layered: &Layered, place: &[u32], link: Link, above: &Reach, below: &Reach) -> bool
    requires link { IsSoundLink (plain layered.now) link }
    requires places { length place.now ≡ length (plain layered.now).units }
    requires above { IsReach above.now.pins.items above.now.highest.items }
    requires below { IsReach below.now.pins.items below.now.highest.items }
    ensures { (inner : List LinkEnd) → HoldBoth inner above.now.pins.items below.now.pins.items
        → result
        ≡ (not (spec.is_inner (plain layered.now) link)
        && list_any
        (λ other. overtakes other (pin_of (plain layered.now) place.now link)
        || overtakes (pin_of (plain layered.now) place.now link) other)
        inner) }
{
    if is_inner(layered, link) {
        return false;
    }
    let pin = pin_for(layered, place, link);
    if is_overtaken(above, pin) {
        return true;
    }
    is_overtaken(below, mirrored(pin))
}

/// By link, whether it is not inner and crosses one of these.
fn crossed(
    alloc: Global,
    layered: &Layered,
    place: &[u32],
    above: &Reach,
    below: &Reach,
) -> Result<Vec<bool>, AllocError>
    requires sound { IsSound (plain layered.now) }
    requires places { length place.now ≡ length (plain layered.now).units }
    requires above { IsReach above.now.pins.items above.now.highest.items }
    requires below { IsReach below.now.pins.items below.now.highest.items }
    requires both { HoldBoth (mark.inner_pins (plain layered.now) place.now) above.now.pins.items below.now.pins.items }
    ensures { IfOk result (λ v. v.items ≡ map (mark.is_crossed (plain layered.now) place.now) (plain layered.now).links) }
{
    let mut marked = Vec::with_capacity(alloc, layered.links.len())?;
    for link in layered.links.as_slice() {
        marked.push(is_crossed(layered, place, *link, above, below))?;
    }
    Ok(marked)
}

/// By link, whether it is marked: it is not inner and crosses a link between two lanes.
pub(crate) fn marks(
    alloc: Global,
    layered: &Layered,
    place: &[u32],
) -> Result<Vec<bool>, AllocError>
    requires sound { IsSound (plain layered.now) }
    requires places { length place.now ≡ length (plain layered.now).units }
    ensures { IfOk result
        (λ v. (rows : List (List ℕ)) → AreRows (plain layered.now) rows → ArePlaces (plain layered.now) rows place.now
        → AreMarkedLinks (plain layered.now) rows v.items) }
{
    let inner = inner_pins(alloc, layered, place)?;
    let above = reach_of(alloc, inner)?;
    // Sorted pins are in descending order when they are mirrored, which costs a sort one pass.
    let flipped = mirrored_pins(alloc, above.pins.as_slice())?;
    let below = reach_of(alloc, flipped)?;
    crossed(alloc, layered, place, &above, &below)
}
