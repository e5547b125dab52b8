//! Pairs of numbers of which one begins before another and ends behind it.
ghost use Rattle.std.specs.Prelude.{◌≡◌, ℕ, ◌≤◌, ◌<◌, ◌+◌, length, slice_index, map, IfOk, ◌⊎◌};
ghost use Rattle.std.specs.List.{All, list_any};
ghost use Rattle.std.specs.List.Sorted.{IsPermutation, IsNonDecreasingBy};
ghost use Rattle.bk_place.specs.Marks as mark;
ghost use Rattle.bk_place.specs.Marks.{IsLow, IsHighest, IsReach, pin_at, overtakes};

use std::alloc::{AllocError, Global};

/// Where a link begins and where it ends.
#[derive(Clone, Copy)]
pub(crate) struct LinkEnd {
    pub(crate) start: u128,
    pub(crate) finish: u128,
}

/// Pins by where they begin, and the greatest end of the first ones, by their count.
#[derive(Drop)]
pub(crate) struct Reach {
    pub(crate) pins: Vec<LinkEnd>,
    pub(crate) highest: Vec<u128>,
}

/// The same seen from the other side.
pub(crate) fn mirrored(pin: LinkEnd) -> LinkEnd
    requires { IsLow pin }
    ensures { result ≡ mark.mirrored pin }
{
    let far = 1267650600228229401496703205376;
    LinkEnd {
        start: far - pin.start,
        finish: far - pin.finish,
    }
}

/// All of them seen from the other side.
pub(crate) fn mirrored_pins(alloc: Global, pins: &[LinkEnd]) -> Result<Vec<LinkEnd>, AllocError>
    requires { All IsLow pins.now }
    ensures { IfOk result (λ v. v.items ≡ map mark.mirrored pins.now) }
{
    let mut found = Vec::with_capacity(alloc, pins.len())?;
    for pin in pins {
        found.push(mirrored(*pin))?;
    }
    Ok(found)
}

/// The greater of two numbers.
fn greater(a: u128, b: u128) -> u128
    ensures first { a ≤ result }
    ensures second { b ≤ result }
    ensures one { (result ≡ a) ⊎ (result ≡ b) }
{
    if a < b { b } else { a }
}

/// The greatest end of the first pins, for each count of them.
fn running_highest(alloc: Global, pins: &[LinkEnd]) -> Result<Vec<u128>, AllocError>
    ensures long { IfOk result (λ v. length v.items ≡ length pins.now + 1) }
    ensures highest { IfOk result (λ v. (count : ℕ) → count < length v.items → IsHighest pins.now count (slice_index v.items count)) }
{
    let mut highest: Vec<u128> = Vec::with_capacity(alloc, pins.len())?;
    let mut top: u128 = 0;
    highest.push(top)?;
    for pin in pins {
        top = greater(top, pin.finish);
        highest.push(top)?;
    }
    Ok(highest)
}

/// Sorts the pins by where they begin.
pub(crate) fn reach_of(alloc: Global, pins: Vec<LinkEnd>) -> Result<Reach, AllocError>
    ensures same { IfOk result (λ r. IsPermutation pins.items r.pins.items) }
    ensures reach { IfOk result (λ r. IsReach r.pins.items r.highest.items) }
{
    let mut pins = pins;
    pins.sort_by_key(|p| p.start)?;
    let highest = running_highest(alloc, pins.as_slice())?;
    Ok(Reach { pins, highest })
}

/// How many pins begin before a place.
fn begin_before(pins: &[LinkEnd], place: u128) -> usize
    requires { IsNonDecreasingBy (λ (p : LinkEnd). p.start) pins.now }
    ensures bound { result ≤ length pins.now }
    ensures before { (j : ℕ) → j < result → (pin_at pins.now j).start < place }
    ensures behind { (j : ℕ) → result ≤ j → j < length pins.now → place ≤ (pin_at pins.now j).start }
{
    pins.partition_point(|p| p.start < place)
}

/// Whether a pin begins before this one and ends behind it.
pub(crate) fn is_overtaken(reach: &Reach, pin: LinkEnd) -> bool
    requires { IsReach reach.now.pins.items reach.now.highest.items }
    ensures { result ≡ list_any (λ other. overtakes other pin) reach.now.pins.items }
{
    let highest = reach.highest.as_slice();
    let before = begin_before(reach.pins.as_slice(), pin.start);
    pin.finish < highest[before]
}
