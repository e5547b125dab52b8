//! The heights at which bundles cross the border at the ends of a level.

use crate::bundles::{Bundle, LevelEnd, NEAR, PlacedPort};
use std::alloc::{AllocError, Global};
use std::cmp::OrderedFloat;
use std::num::nearest_usize_to_f64;

// How far content is shifted at most so that ports with their own places are met straight.
const MOST_SHIFT: usize = 60;

// How far from the heights of other pieces bundles in a fixed order go on, the best first.
const STEPS: [f64; 8] = [5.0, 4.0, 6.0, 3.0, 7.0, 2.0, 8.0, 1.0];

// The same for bundles that arrive at one height.
const WAYS: [f64; 12] = [
    5.0, 4.0, 6.0, 3.0, 7.0, 8.0, -5.0, -4.0, -6.0, -3.0, -7.0, -8.0,
];

// The bundles that lead straight to an end of the level.
pub(crate) fn on_axis_at(
    alloc: Global,
    bundles: &[Bundle],
    end: LevelEnd,
) -> Result<Vec<usize>, AllocError> {
    let mut list = Vec::new(alloc);
    for bundle in bundles {
        if bundle.turn.is_none() && bundle.end == end {
            list.push(bundle.number)?;
        }
    }
    Ok(list)
}

fn add_pins(pins: &mut Vec<f64>, bundle: &Bundle) -> Result<(), AllocError> {
    for net in bundle.nets.iter() {
        pins.push(net.pin)?;
    }
    Ok(())
}

fn meets_pins(moved: &[(usize, f64)], pins: &[f64], step: f64) -> bool {
    for (_, place) in moved {
        if pins.contains(&(*place + step)) {
            return true;
        }
    }
    false
}

// How far from the places that they would exchange bundles meet no other piece.
fn free_step(moved: &[(usize, f64)], pins: &[f64]) -> f64 {
    for step in STEPS {
        if !meets_pins(moved, pins, step) {
            return step;
        }
    }
    0.0
}

// Keeps ports in their order: those that arrive out of it go on near the heights that are theirs by rank.
pub(crate) fn keep_order(
    alloc: Global,
    bundles: &mut [Bundle],
    list: &[usize],
) -> Result<(), AllocError> {
    let mut ranked = Vec::new(alloc);
    let mut places = Vec::new(alloc);
    let mut pins = Vec::new(alloc);
    for at in list {
        if let Some(bundle) = bundles.get(*at) {
            add_pins(&mut pins, bundle)?;
            if let Some(rank) = bundle.rank {
                ranked.push((rank, *at, bundle.pin()))?;
                places.push(bundle.pin())?;
            }
        }
    }
    if ranked.len() < 2 {
        return Ok(());
    }
    ranked.sort_by_key(|(rank, _, _)| *rank)?;
    places.sort_by_key(|place| OrderedFloat(*place))?;
    let mut moved = Vec::new(alloc);
    for ((_, at, pin), place) in ranked.iter().zip(places.iter()) {
        if *pin != *place {
            moved.push((*at, *place))?;
        }
    }
    let step = free_step(moved.as_slice(), pins.as_slice());
    for (at, place) in moved.iter() {
        if let Some(bundle) = bundles.get_mut(*at) {
            bundle.kept = Some(*place + step);
        }
    }
    Ok(())
}

// How many other bundles that lead to the same end would run over the port of one.
fn clashes_with(bundles: &[Bundle], one: &Bundle, shift: f64, given: f64) -> f64 {
    let mut clashes = 0.0;
    for other in bundles {
        let is_beside = other.turn.is_none() && other.end == one.end;
        if is_beside && other.number != one.number && other.is_met(shift, given) {
            clashes += 1.0;
        }
    }
    clashes
}

fn runs_over_port(ports: &[PlacedPort], one: &Bundle, shift: f64) -> bool {
    for port in ports {
        if port.side == one.side && one.is_met(shift, port.at) {
            return true;
        }
    }
    false
}

// How many bundles would bend, and how many would run over another or a port, if the content stood so far across.
fn cost_of_shift(bundles: &[Bundle], ports: &[PlacedPort], shift: f64) -> f64 {
    let (mut bends, mut clashes) = (0.0, 0.0);
    for one in bundles {
        if one.turn.is_some() {
            continue;
        }
        match one.given {
            Some(given) => {
                if one.nets.iter().any(|net| net.pin + shift != given) {
                    bends += 1.0;
                }
                clashes += clashes_with(bundles, one, shift, given);
            }
            None => {
                if runs_over_port(ports, one, shift) {
                    clashes += 1.0;
                }
            }
        }
    }
    clashes * 1000.0 + bends * 40.0 + shift
}

fn has_port_beside(bundles: &[Bundle], ports: &[PlacedPort]) -> bool {
    for bundle in bundles {
        if bundle.turn.is_none() && ports.iter().any(|port| port.side == bundle.side) {
            return true;
        }
    }
    false
}

// How far the content stands across the direction: as near as it can, and a little further if that spares bends.
pub(crate) fn shift_across(bundles: &[Bundle], ports: &[PlacedPort], nearest: f64) -> f64 {
    if !has_port_beside(bundles, ports) {
        return nearest;
    }
    let (mut best, mut least) = (nearest, f64::INFINITY);
    for more in 0..MOST_SHIFT {
        let shift = nearest + nearest_usize_to_f64(more);
        let cost = cost_of_shift(bundles, ports, shift);
        if cost < least {
            best = shift;
            least = cost;
        }
    }
    best
}

// The middle of the heights at which the pieces of a bundle arrive, or the upper one of two.
fn median(alloc: Global, bundle: &Bundle) -> Result<f64, AllocError> {
    let mut pins = Vec::new(alloc);
    add_pins(&mut pins, bundle)?;
    pins.sort_by_key(|pin| OrderedFloat(*pin))?;
    let middle = pins.len().saturating_sub(1) / 2;
    Ok(pins.get(middle).copied().unwrap_or(0.0))
}

// Moves what arrives with the content, and finds where it would cross the border by itself.
pub(crate) fn move_across(
    alloc: Global,
    bundle: &mut Bundle,
    shift: f64,
) -> Result<(), AllocError> {
    for net in bundle.nets.iter_mut() {
        net.pin += shift;
    }
    bundle.at = match (bundle.given, bundle.kept) {
        (Some(given), _) => given,
        (None, Some(kept)) => kept + shift,
        (None, None) => median(alloc, bundle)?,
    };
    Ok(())
}

fn is_clear(lines: &[f64], at: f64) -> bool {
    for line in lines {
        if (*line - at).abs() < NEAR {
            return false;
        }
    }
    true
}

// A height for a bundle that is clear of those of the others of a list.
fn clear_height(
    alloc: Global,
    bundles: &[Bundle],
    list: &[usize],
    bundle: &Bundle,
) -> Result<f64, AllocError> {
    let mut lines = Vec::new(alloc);
    for at in list {
        if *at != bundle.number {
            if let Some(other) = bundles.get(*at) {
                lines.push(other.at)?;
                add_pins(&mut lines, other)?;
            }
        }
    }
    for net in bundle.nets.iter() {
        let height = bundle.at + (net.pin - bundle.at);
        if is_clear(lines.as_slice(), height) {
            return Ok(height);
        }
    }
    for way in WAYS {
        if is_clear(lines.as_slice(), bundle.at + way) {
            return Ok(bundle.at + way);
        }
    }
    Ok(bundle.at + 1.0)
}

// Those that have to cross the border at their places come first, then ports by their ranks.
fn in_turn(
    alloc: Global,
    bundles: &[Bundle],
    list: &[usize],
) -> Result<Vec<(Option<i64>, usize)>, AllocError> {
    let mut sorted = Vec::new(alloc);
    for at in list {
        if let Some(bundle) = bundles.get(*at) {
            let rank = match bundle.given {
                Some(_) => None,
                None => Some(bundle.rank.unwrap_or(0)),
            };
            sorted.push((rank, *at))?;
        }
    }
    sorted.sort_by_key(|(rank, _)| *rank)?;
    Ok(sorted)
}

// Bundles that arrive at one height, since their lines end at one dock within, cross the border at different places.
pub(crate) fn keep_apart(
    alloc: Global,
    bundles: &mut [Bundle],
    list: &[usize],
) -> Result<(), AllocError> {
    let mut done: Vec<f64> = Vec::new(alloc);
    for (_, at) in in_turn(alloc, bundles, list)?.iter() {
        if let Some(bundle) = bundles.get(*at) {
            let mut height = bundle.at;
            if bundle.given.is_none() && done.contains(&height) {
                height = clear_height(alloc, bundles, list, bundle)?;
            }
            done.push(height)?;
            if let Some(bundle) = bundles.get_mut(*at) {
                bundle.at = height;
            }
        }
    }
    Ok(())
}

// Bundles at labelled ports cross the border so far before the next one that the label has room between them.
pub(crate) fn keep_room_for_labels(
    alloc: Global,
    bundles: &mut [Bundle],
    list: &[usize],
) -> Result<(), AllocError> {
    let mut sorted = Vec::new(alloc);
    for at in list {
        if let Some(bundle) = bundles.get(*at) {
            sorted.push((bundle.at, *at))?;
        }
    }
    sorted.sort_by_key(|(height, _)| OrderedFloat(*height))?;
    let mut least = f64::NEG_INFINITY;
    for (_, at) in sorted.iter() {
        if let Some(bundle) = bundles.get_mut(*at) {
            bundle.at = bundle.given.unwrap_or(bundle.at.max(least));
            least = bundle.at + bundle.label_room;
        }
    }
    Ok(())
}
