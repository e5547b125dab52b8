//! Depths of segments by which fewer lines run side by side too near each other, and no more cross. Nothing is promised of them:
//! the caller judges them.
use crate::demands::{PinSegment, in_order, lanes, pin_segment, split_segments};
use crate::fitting::depth_in;
use net_routes::{Net, NetRoute, Slots};
use std::alloc::{AllocError, Global};

// What a crossing weighs where a lane too near weighs 1, and what an order that may not be does.
const CROSSING: i64 = 1 << 20;

const FORBIDDEN: i64 = 1 << 44;

// Segments with the tracks that they stand in, and which of them are about to change tracks. So many more lanes are tried.
#[derive(Drop)]
struct Tracks {
    segments: Vec<PinSegment>,
    depths: Vec<u32>,
    chosen: Vec<bool>,
    count: u32,
    near: i64,
    tries: usize,
}

// A segment that changes tracks with those that it meets in the other one, and by how much less that weighs.
#[derive(Clone, Copy)]
struct Trade {
    number: usize,
    to: u32,
    change: i64,
}

// The heights that chosen segments pass.
#[derive(Clone, Copy)]
struct Reach {
    low: i64,
    high: i64,
}

// Adds a net's segments with their slots.
fn push_net(
    tracks: &mut Tracks,
    place: usize,
    net: Net,
    route: NetRoute,
) -> Result<(), AllocError> {
    match route {
        NetRoute::Straight => Ok(()),
        NetRoute::One { slot } => push_pin_segment(tracks, pin_segment(place, net.a, net.b), slot),
        NetRoute::Two {
            first,
            height,
            second,
        } => {
            let pair = split_segments(place, net, height);
            push_pin_segment(tracks, pair.at_a, first)?;
            push_pin_segment(tracks, pair.at_b, second)
        },
    }
}

fn push_pin_segment(tracks: &mut Tracks, segment: PinSegment, slot: u32) -> Result<(), AllocError> {
    tracks.segments.push(segment)?;
    tracks.depths.push(slot)?;
    tracks.chosen.push(false)?;
    Ok(())
}

// Steps in all tries of a gap, about.
const STEPS: usize = 1 << 24;

// The segments of a gap in its slots.
fn tracks_of(alloc: Global, nets: &[Net], slots: &Slots, near: i64) -> Result<Tracks, AllocError> {
    let mut tracks = Tracks {
        segments: Vec::new(alloc),
        depths: Vec::new(alloc),
        chosen: Vec::new(alloc),
        count: slots.count,
        near,
        tries: 0,
    };
    let routes = slots.routes.as_slice();
    'nets: for k in 0..nets.len() {
        if k < routes.len() {
            push_net(&mut tracks, k.wrapping_add(k), nets[k], routes[k])?;
        }
    }
    let steps = tracks.segments.len().saturating_mul(slots.count as usize);
    tracks.tries = STEPS / steps.max(1);
    Ok(tracks)
}

fn is_chosen(tracks: &Tracks, number: usize) -> bool {
    match tracks.chosen.as_slice().get(number) {
        None => false,
        Some(chosen) => *chosen,
    }
}

fn choose(chosen: &mut [bool], number: usize) {
    if number < chosen.len() {
        chosen[number] = true;
    }
}

// Whether the segments are of one net.
fn are_one(segment: &PinSegment, other: &PinSegment) -> bool {
    segment.place / 2 == other.place / 2
}

// Whether the first segment has to stand before the second.
fn comes_first(segment: &PinSegment, other: &PinSegment) -> bool {
    if are_one(segment, other) {
        return segment.pin.on_left;
    }
    lanes(segment, other, 1) > 0
}

// What it weighs that the first segment stands before the second.
fn weight(segment: &PinSegment, other: &PinSegment, near: i64) -> i64 {
    if comes_first(other, segment) {
        return FORBIDDEN;
    }
    if are_one(segment, other) {
        return 0;
    }
    let crossings = i64::from(in_order(segment, other)).wrapping_mul(CROSSING);
    crossings.wrapping_add(i64::from(lanes(other, segment, near)))
}

// What the segments weigh at these depths.
fn weight_at(
    segment: &PinSegment,
    depth: u32,
    other: &PinSegment,
    other_depth: u32,
    near: i64,
) -> i64 {
    if depth < other_depth {
        return weight(segment, other, near);
    }
    if other_depth < depth {
        return weight(other, segment, near);
    }
    0
}

// The segment's depth after those that are chosen have changed tracks.
fn depth_then(tracks: &Tracks, number: usize, from: u32, to: u32) -> u32 {
    let depth = depth_in(tracks.depths.as_slice(), number);
    if !is_chosen(tracks, number) {
        return depth;
    }
    if depth == from { to } else { from }
}

// Whether the order of two pairs of depths differs.
fn differs(depth: u32, other: u32, depth_then: u32, other_then: u32) -> bool {
    (depth < other) != (depth_then < other_then) || (other < depth) != (other_then < depth_then)
}

// How much more a segment that is chosen weighs beside the others then. Two that are chosen are counted once.
fn row_change(tracks: &Tracks, number: usize, from: u32, to: u32) -> i64 {
    let segments = tracks.segments.as_slice();
    let mut total = 0i64;
    if number >= segments.len() {
        return total;
    }
    let depth = depth_in(tracks.depths.as_slice(), number);
    let then = depth_then(tracks, number, from, to);
    'others: for other in 0..segments.len() {
        let is_counted = other < number && is_chosen(tracks, other);
        let other_depth = depth_in(tracks.depths.as_slice(), other);
        let other_then = depth_then(tracks, other, from, to);
        if other != number && !is_counted && differs(depth, other_depth, then, other_then) {
            let (segment, beside) = (&segments[number], &segments[other]);
            let now = weight_at(segment, depth, beside, other_depth, tracks.near);
            let after = weight_at(segment, then, beside, other_then, tracks.near);
            total = total.wrapping_add(after.wrapping_sub(now));
        }
    }
    total
}

// How much more all weighs after those that are chosen have changed tracks.
fn change_of(tracks: &Tracks, from: u32, to: u32) -> i64 {
    let mut total = 0i64;
    'segments: for number in 0..tracks.segments.len() {
        if is_chosen(tracks, number) {
            total = total.wrapping_add(row_change(tracks, number, from, to));
        }
    }
    total
}

// Whether a segment stands in the track then.
fn stays_used(tracks: &Tracks, from: u32, to: u32) -> bool {
    'segments: for number in 0..tracks.segments.len() {
        if depth_then(tracks, number, from, to) == from {
            return true;
        }
    }
    false
}

// Chooses the segment, if it has a height of the reach, which grows by it.
fn reached(tracks: &mut Tracks, number: usize, reach: Reach) -> Reach {
    let segment = match tracks.segments.as_slice().get(number) {
        None => return reach,
        Some(segment) => *segment,
    };
    if segment.low > reach.high || reach.low > segment.high {
        return reach;
    }
    choose(tracks.chosen.as_mut_slice(), number);
    Reach {
        low: reach.low.min(segment.low),
        high: reach.high.max(segment.high),
    }
}

// Chooses all segments of the two tracks within the reach.
fn reached_all(tracks: &mut Tracks, from: u32, to: u32, reach: Reach) -> Reach {
    let mut reach = reach;
    'segments: for number in 0..tracks.segments.len() {
        let depth = depth_in(tracks.depths.as_slice(), number);
        if depth == from || depth == to {
            reach = reached(tracks, number, reach);
        }
    }
    reach
}

// Chooses the segment, and all of the two tracks that have to change tracks with it.
fn choose_all(tracks: &mut Tracks, number: usize, from: u32, to: u32) {
    'segments: for at in 0..tracks.chosen.len() {
        if at < tracks.chosen.len() {
            tracks.chosen[at] = false;
        }
    }
    let mut reach = match tracks.segments.as_slice().get(number) {
        None => return,
        Some(segment) => Reach {
            low: segment.low,
            high: segment.high,
        },
    };
    'rounds: for _ in 0..tracks.segments.len() {
        let then = reached_all(tracks, from, to, reach);
        if then.low == reach.low && then.high == reach.high {
            return;
        }
        reach = then;
    }
}

// The better of two trades: the one given, and that of the segment with the track.
fn better(tracks: &mut Tracks, number: usize, to: u32, best: Trade) -> Trade {
    let from = depth_in(tracks.depths.as_slice(), number);
    if from == to {
        return best;
    }
    choose_all(tracks, number, from, to);
    if !stays_used(tracks, from, to) {
        return best;
    }
    let change = change_of(tracks, from, to);
    if change < best.change {
        Trade { number, to, change }
    } else {
        best
    }
}

// The best trade of the segment with tracks from the first to before the last.
fn best_among(tracks: &mut Tracks, number: usize, first: u32, last: u32, best: Trade) -> Trade {
    let mut best = best;
    'tracks: for to in first..last {
        best = better(tracks, number, to, best);
    }
    best
}

// Lets the segments of the trade change tracks.
fn carry_out(tracks: &mut Tracks, best: Trade) {
    let from = depth_in(tracks.depths.as_slice(), best.number);
    choose_all(tracks, best.number, from, best.to);
    'segments: for number in 0..tracks.depths.len() {
        let then = depth_then(tracks, number, from, best.to);
        if number < tracks.depths.len() {
            tracks.depths[number] = then;
        }
    }
}

// Makes the best trade by which the first segment stands no longer behind the second, if one is for the better.
fn part_lanes(tracks: &mut Tracks, behind: usize, before: usize) -> bool {
    tracks.tries = tracks.tries.saturating_sub(1);
    let none = Trade {
        number: behind,
        to: 0,
        change: 0,
    };
    let first = depth_in(tracks.depths.as_slice(), before);
    let last = depth_in(tracks.depths.as_slice(), behind);
    let count = tracks.count;
    let best = best_among(tracks, behind, 0, first.saturating_add(1), none);
    let best = best_among(tracks, before, last, count, best);
    if best.change >= 0 {
        return false;
    }
    carry_out(tracks, best);
    true
}

// How many lines of the two run too near each other, with the first segment behind the second.
fn lanes_at(tracks: &Tracks, behind: usize, before: usize) -> i8 {
    let segments = tracks.segments.as_slice();
    let depths = tracks.depths.as_slice();
    if behind >= segments.len() || before >= segments.len() {
        return 0;
    }
    if depth_in(depths, behind) <= depth_in(depths, before)
        || are_one(&segments[behind], &segments[before])
    {
        return 0;
    }
    lanes(&segments[behind], &segments[before], tracks.near)
}

// Tries to part each lane of a segment from those before it.
fn part_row(tracks: &mut Tracks, behind: usize) -> bool {
    let mut changed = false;
    'others: for before in 0..tracks.segments.len() {
        if tracks.tries > 0 && lanes_at(tracks, behind, before) > 0 {
            let now = part_lanes(tracks, behind, before);
            changed = changed || now;
        }
    }
    changed
}

fn part_rows(tracks: &mut Tracks) -> bool {
    let mut changed = false;
    'segments: for behind in 0..tracks.segments.len() {
        let now = part_row(tracks, behind);
        changed = changed || now;
    }
    changed
}

// The depths by the places of the segments, two for each net.
fn by_places(alloc: Global, tracks: &Tracks, nets: usize) -> Result<Vec<u32>, AllocError> {
    let mut placed = vec![in alloc; 0; nets.saturating_add(nets)]?;
    let segments = tracks.segments.as_slice();
    'segments: for number in 0..segments.len() {
        let place = segments[number].place;
        if place < placed.len() {
            placed[place] = depth_in(tracks.depths.as_slice(), number);
        }
    }
    Ok(placed)
}

/// Depths from the slots of a gap, two for each net, by which fewer lines run side by side nearer than this. While that leads to
/// fewer and makes no more crossings, a segment changes tracks with those that it meets in another. No track becomes empty.
pub fn eased_segments(
    alloc: Global,
    nets: &[Net],
    slots: &Slots,
    near: i64,
) -> Result<Vec<u32>, AllocError> {
    let mut tracks = tracks_of(alloc, nets, slots, near)?;
    'rounds: for _ in 0..4 {
        if !part_rows(&mut tracks) {
            return by_places(alloc, &tracks, nets.len());
        }
    }
    by_places(alloc, &tracks, nets.len())
}

/// How many lines run side by side nearer than this.
pub fn near_lanes(
    alloc: Global,
    nets: &[Net],
    slots: &Slots,
    near: i64,
) -> Result<u64, AllocError> {
    let tracks = tracks_of(alloc, nets, slots, near)?;
    let mut count = 0u64;
    'behind: for behind in 0..tracks.segments.len() {
        count = count.saturating_add(lanes_behind(&tracks, behind));
    }
    Ok(count)
}

fn lanes_behind(tracks: &Tracks, behind: usize) -> u64 {
    let mut count = 0u64;
    'others: for before in 0..tracks.segments.len() {
        count = count.saturating_add(u64::from(lanes_at(tracks, behind, before).unsigned_abs()));
    }
    count
}
