//! The crossings of an order, counted gap by gap.
ghost use Rattle.std.specs.Prelude.{◌≡◌, ◌<◌, ◌^◌, ◌≤◌, ◌+◌, ◌*◌, ℕ, length, map, nat_lt, slice_index, IfOk, count_by};
ghost use Rattle.std.specs.List.{All};
ghost use Rattle.std.specs.List.Sorted.{IsNonDecreasingBy, IsPermutation};
ghost use Rattle.elk_layers.specs.Layered.{plain, rows_of, IsSound, IsSoundLink, AreRows};
ghost use Rattle.elk_layers.specs.Crossings as spec;
ghost use Rattle.elk_layers.specs.Places.{ArePlaces};
ghost use Rattle.cross_reduce.specs.Places.{FitPlaces};
ghost use Rattle.cross_reduce.specs.Pins.{pin_of, pin_at, start_of, is_under, crossed, pin_from, HasSmallTail, IsBegin, EndsBelow};

use elk_layers::{Layered, Link, Order, places};
use lane_count::count_above;
use std::alloc::{AllocError, Global};

/// A link by its gap and the keys of its ends.
#[derive(Clone, Copy)]
struct LinkEnd {
    gap: u32,
    tail: u32,
    head: u32,
}

/// Where a link begins: by gap, and in it by tail key.
fn start(pin: &LinkEnd) -> u64
    ensures { result ≡ start_of pin.now }
{
    pin.gap as u64 * 4294967296 + pin.tail as u64
}

/// A link's gap and keys.
fn pin_for(layered: &Layered, place: &[u32], link: Link) -> LinkEnd
    requires places { FitPlaces (plain layered.now) place.now }
    requires link { IsSoundLink (plain layered.now) link }
    ensures { result ≡ pin_from (plain layered.now) place.now link }
{
    let units = layered.units.as_slice();
    LinkEnd {
        gap: units[link.tail as usize].layer,
        tail: place[link.tail as usize] * 65536 + link.tail_rank,
        head: place[link.head as usize] * 65536 + link.head_rank,
    }
}

/// All links, from gap to gap, and in a gap by tail key.
fn sorted_pins(alloc: Global, layered: &Layered, place: &[u32]) -> Result<Vec<LinkEnd>, AllocError>
    requires sound { IsSound (plain layered.now) }
    requires places { FitPlaces (plain layered.now) place.now }
    ensures permutation { IfOk result (λ v. IsPermutation (map (pin_from (plain layered.now) place.now) (plain layered.now).links) v.items) }
    ensures sorted { IfOk result (λ v. IsNonDecreasingBy start_of v.items) }
    ensures fits { IfOk result (λ v. All HasSmallTail v.items) }
{
    let mut pins = Vec::with_capacity(alloc, layered.links.len())?;
    for link in layered.links.as_slice() {
        pins.push(pin_for(layered, place, *link))?;
    }
    pins.sort_by_key(|p| start(p))?;
    Ok(pins)
}

/// The head keys, in the same order.
fn head_keys(alloc: Global, pins: &[LinkEnd]) -> Result<Vec<u32>, AllocError>
    ensures { IfOk result (λ v. v.items ≡ map (λ (p : LinkEnd). p.head) pins.now) }
{
    let mut heads = Vec::with_capacity(alloc, pins.len())?;
    for pin in pins {
        heads.push(pin.head)?;
    }
    Ok(heads)
}

/// How many links begin before a place.
fn begin_before(pins: &[LinkEnd], place: u64) -> usize
    requires { IsNonDecreasingBy start_of pins.now }
    ensures bound { result ≤ length pins.now }
    ensures before { (j : ℕ) → j < result → start_of (pin_at pins.now j) < place }
    ensures behind { (j : ℕ) → result ≤ j → j < length pins.now → place ≤ start_of (pin_at pins.now j) }
{
    pins.partition_point(|p| start(p) < place)
}

/// How many links begin before a place, and the greatest head key among some that don't.
#[derive(Clone, Copy)]
struct Begin {
    place: u64,
    count: usize,
    highest: u32,
}

/// The greater of two keys.
fn greater(one: u32, other: u32) -> u32
    ensures first { one ≤ result }
    ensures second { other ≤ result }
{
    if one < other { other } else { one }
}

/// The greatest of these keys, or 0 where there are none.
fn highest(heads: &[u32]) -> u32
    ensures { (j : ℕ) → j < length heads.now → slice_index heads.now j ≤ result }
{
    let mut top: u32 = 0;
    for head in heads {
        top = greater(top, *head);
    }
    top
}

/// How many links begin before a place, where it is known of one that may be the same, and how far those between it and a
/// link end.
fn begin_again(pins: &[LinkEnd], heads: &[u32], known: Begin, place: u64, i: usize) -> Begin
    requires sorted { IsNonDecreasingBy start_of pins.now }
    requires heads { length heads.now ≡ length pins.now }
    requires pin { i < length pins.now }
    requires reached { place ≤ start_of (pin_at pins.now i) }
    requires known { IsBegin pins.now known.place known.count }
    requires highest { EndsBelow heads.now known.count i known.highest }
    ensures place { result.place ≡ place }
    ensures begin { IsBegin pins.now result.place result.count }
    ensures highest { EndsBelow heads.now result.count i result.highest }
{
    if known.place == place {
        return known;
    }
    let count = begin_before(pins, place);
    Begin {
        place,
        count,
        highest: highest(&heads[count..i]),
    }
}

/// How many links begin before a link.
fn begin_before_pin(pins: &[LinkEnd], i: usize) -> usize
    requires sorted { IsNonDecreasingBy start_of pins.now }
    requires pin { i < length pins.now }
    ensures { IsBegin pins.now (start_of (pin_at pins.now i)) result }
{
    let place = start(&pins[i]);
    if i > 0 && start(&pins[i - 1]) < place {
        return i;
    }
    begin_before(pins, place)
}

/// How many keys are greater than a key, where none is greater than the greatest.
fn count_over(heads: &[u32], key: u32, highest: u32) -> u64
    requires { All (λ h. h ≤ highest) heads.now }
    ensures { result ≡ count_by (λ x. nat_lt key x) heads.now }
{
    if highest <= key {
        return 0;
    }
    count_above(heads, key)
}

/// How many links begin above a link of their gap and end below it, where it is known how many begin before the gap.
fn crossed_by(pins: &[LinkEnd], heads: &[u32], i: usize, gap: Begin) -> u64
    requires sorted { IsNonDecreasingBy start_of pins.now }
    requires fits { All HasSmallTail pins.now }
    requires heads { heads.now ≡ map (λ (p : LinkEnd). p.head) pins.now }
    requires pin { i < length pins.now }
    requires place { gap.place ≡ (pin_at pins.now i).gap * 4294967296 }
    requires gap { IsBegin pins.now gap.place gap.count }
    requires highest { EndsBelow heads.now gap.count i gap.highest }
    ensures { result ≡ count_by (λ b. is_under b (pin_at pins.now i)) pins.now }
{
    let end = begin_before_pin(pins, i);
    count_over(&heads[gap.count..end], pins[i].head, gap.highest)
}

/// The same, where one more link lies between them.
fn with_head(known: Begin, head: u32) -> Begin
    ensures place { result.place ≡ known.place }
    ensures count { result.count ≡ known.count }
    ensures kept { known.highest ≤ result.highest }
    ensures new { head ≤ result.highest }
{
    Begin {
        place: known.place,
        count: known.count,
        highest: greater(known.highest, head),
    }
}

/// The crossings among these links.
fn crossed_links(pins: &[LinkEnd], heads: &[u32]) -> u64
    requires sorted { IsNonDecreasingBy start_of pins.now }
    requires fits { All HasSmallTail pins.now }
    requires heads { heads.now ≡ map (λ (p : LinkEnd). p.head) pins.now }
    requires few { length pins.now ≤ 2 ^ 24 }
    ensures { result ≡ crossed pins.now }
{
    let mut gap = Begin {
        place: 0,
        count: 0,
        highest: 0,
    };
    let mut total: u64 = 0;
    for i in 0..pins.len() {
        gap = begin_again(pins, heads, gap, pins[i].gap as u64 * 4294967296, i);
        total += crossed_by(pins, heads, i, gap);
        gap = with_head(gap, heads[i]);
    }
    total
}

/// The number of pairs of links of one gap of which one begins further up and ends further down.
///
/// Both ends of the pairs are compared by their keys, so links that share a pin do not cross. The only
/// error is out of memory.
///
/// Proved:
/// - The number of crossings of an order of the rows.
pub fn crossings(alloc: Global, layered: &Layered, order: &Order) -> Result<u64, AllocError>
    requires sound { IsSound (plain layered.now) }
    requires rows { AreRows (plain layered.now) (rows_of order.now) }
    ensures { IfOk result (λ n. n ≡ spec.crossings (plain layered.now) (rows_of order.now)) }
{
    let place = places(alloc, layered, order)?;
    let pins = sorted_pins(alloc, layered, place.as_slice())?;
    let heads = head_keys(alloc, pins.as_slice())?;
    Ok(crossed_links(pins.as_slice(), heads.as_slice()))
}
