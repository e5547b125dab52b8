//! By how much each segment of a gap wants to stand before each other. Nothing is promised of it: who takes orders by it
//! judges them.
ghost use Rattle.std.specs.Prelude.{◌≡◌, ◌<◌, length};

use crate::marks::{Mark, is_straight};
use crate::middles::Height;
use net_routes::{Net, Pin};
use std::alloc::{AllocError, Global};

/// A segment with its pin and its other end, as a net of its own. Its place is twice the number of its net, or one more
/// for the second segment of a split net.
#[derive(Clone, Copy)]
pub struct PinSegment {
    pub place: usize,
    pub low: i64,
    pub high: i64,
    pub pin: Pin,
    pub end: Pin,
}

/// For each two segments by how much the first wants to stand before the second, row by row: less than 0 if behind.
#[derive(Drop)]
pub struct Demands {
    pub size: usize,
    pub weights: Vec<i8>,
}

// What has to be so, and what a crossing weighs. Each lane that would run too near weighs 1.
const HARD: i8 = 100;

const CROSSING: i8 = 8;

/// The segment from its pin to its other end.
pub fn pin_segment(place: usize, pin: Pin, end: Pin) -> PinSegment {
    PinSegment {
        place,
        low: pin.height.min(end.height),
        high: pin.height.max(end.height),
        pin,
        end,
    }
}

// The end of a split net's segment at its middle, on the other side than the segment's pin.
fn middle_end(pin: Pin, height: i64) -> Pin {
    Pin {
        on_left: !pin.on_left,
        height,
    }
}

/// The segments of a split net, at its two pins.
#[derive(Clone, Copy)]
pub struct Pair {
    pub at_a: PinSegment,
    pub at_b: PinSegment,
}

/// The segments of a net that is split at this height.
pub fn split_segments(place: usize, net: Net, height: i64) -> Pair {
    Pair {
        at_a: pin_segment(place, net.a, middle_end(net.a, height)),
        at_b: pin_segment(place.wrapping_add(1), net.b, middle_end(net.b, height)),
    }
}

// Adds the segments of a net.
fn push_pin_segments(
    segments: &mut Vec<PinSegment>,
    place: usize,
    net: Net,
    mark: Mark,
    middle: Height,
) -> Result<(), AllocError> {
    if mark.straight {
        return Ok(());
    }
    if !mark.split {
        segments.push(pin_segment(place, net.a, net.b))?;
        return Ok(());
    }
    let pair = split_segments(place, net, middle.value);
    segments.push(pair.at_a)?;
    segments.push(pair.at_b)?;
    Ok(())
}

/// The segments of all nets, but for straight ones.
pub fn pin_segments(
    alloc: Global,
    nets: &[Net],
    marks: &[Mark],
    middles: &[Height],
) -> Result<Vec<PinSegment>, AllocError>
    requires marks { length marks.now ≡ length nets.now }
    requires middles { length middles.now ≡ length nets.now }
{
    let mut segments = Vec::new(alloc);
    'nets: for k in 0..nets.len() {
        push_pin_segments(
            &mut segments,
            k.wrapping_add(k),
            nets[k],
            marks[k],
            middles[k],
        )?;
    }
    Ok(segments)
}

/// The segments of nets none of which is split.
pub fn whole_segments(alloc: Global, nets: &[Net]) -> Result<Vec<PinSegment>, AllocError> {
    let mut segments = Vec::new(alloc);
    'nets: for k in 0..nets.len() {
        if !is_straight(nets[k]) {
            segments.push(pin_segment(k.wrapping_add(k), nets[k].a, nets[k].b))?;
        }
    }
    Ok(segments)
}

/// Whether the segments have a height in common.
pub fn meet(segment: &PinSegment, other: &PinSegment) -> bool {
    segment.low <= other.high && other.low <= segment.high
}

fn count(is_so: bool) -> i8 {
    if is_so { 1 } else { 0 }
}

// The crossing at a pin with a segment that stands behind it, or with one before it.
fn crosses(pin: Pin, on_left: bool, other: &PinSegment) -> i8 {
    count(pin.on_left == on_left && other.low < pin.height && pin.height < other.high)
}

/// How often the segments cross with the first one before the second.
pub fn in_order(segment: &PinSegment, other: &PinSegment) -> i8 {
    crosses(segment.pin, false, other)
        .wrapping_add(crosses(segment.end, false, other))
        .wrapping_add(crosses(other.pin, true, segment))
        .wrapping_add(crosses(other.end, true, segment))
}

// Whether a pin on the left and one on the right are nearer than this.
fn are_near(pin: Pin, other: Pin, near: i64) -> i8 {
    let apart = pin.height.wrapping_sub(other.height);
    count(pin.on_left && !other.on_left && apart < near && apart > near.wrapping_neg())
}

/// How many lines would run nearer than this side by side with the first segment behind the second.
pub fn lanes(segment: &PinSegment, other: &PinSegment, near: i64) -> i8 {
    are_near(segment.pin, other.pin, near)
        .wrapping_add(are_near(segment.pin, other.end, near))
        .wrapping_add(are_near(segment.end, other.pin, near))
        .wrapping_add(are_near(segment.end, other.end, near))
}

// What a difference of conflicts, of crossings and of lanes weighs.
fn weight_by(conflicts: i8, crossings: i8, near: i8) -> i8 {
    if conflicts > 0 {
        return HARD;
    }
    if conflicts < 0 {
        return -HARD;
    }
    if crossings == 0 {
        return near;
    }
    crossings.wrapping_mul(CROSSING)
}

// By how much the first segment wants to stand before the second. Of two segments of one net that with the pin on the left does.
fn weight(segment: &PinSegment, other: &PinSegment, near: i64) -> i8 {
    if segment.place / 2 == other.place / 2 {
        return if segment.pin.on_left { HARD } else { -HARD };
    }
    if segment.high < other.low.saturating_sub(near)
        || other.high < segment.low.saturating_sub(near)
    {
        return 0;
    }
    weight_by(
        lanes(segment, other, 1).wrapping_sub(lanes(other, segment, 1)),
        in_order(other, segment).wrapping_sub(in_order(segment, other)),
        lanes(segment, other, near).wrapping_sub(lanes(other, segment, near)),
    )
}

fn set(weights: &mut [i8], at: usize, weight: i8) {
    if at < weights.len() {
        weights[at] = weight;
    }
}

// Sets the weights of a segment and of those behind it in the list.
fn set_row(demands: &mut Demands, segments: &[PinSegment], i: usize, near: i64)
    requires { i < length segments.now }
{
    let size = demands.size;
    'others: for j in i + 1..segments.len() {
        let more = weight(&segments[i], &segments[j], near);
        if more != 0 {
            let weights = demands.weights.as_mut_slice();
            set(weights, i.wrapping_mul(size).wrapping_add(j), more);
            set(
                weights,
                j.wrapping_mul(size).wrapping_add(i),
                more.wrapping_neg(),
            );
        }
    }
}

/// The demands of all segments. Pins on both sides that are nearer than `near` demand that their lines don't run side by side, unless
/// that makes more crossings; 1 demands nothing of the kind. Takes a byte for each two segments.
pub fn demands_of(
    alloc: Global,
    segments: &[PinSegment],
    near: i64,
) -> Result<Demands, AllocError> {
    let near = near.max(1);
    let size = segments.len();
    let mut demands = Demands {
        size,
        weights: vec![in alloc; 0i8; size.wrapping_mul(size)]?,
    };
    'segments: for i in 0..segments.len() {
        set_row(&mut demands, segments, i, near);
    }
    Ok(demands)
}

/// By how much the first segment wants to stand before the second.
pub fn wanted(demands: &Demands, first: usize, second: usize) -> i8 {
    let at = first.wrapping_mul(demands.size).wrapping_add(second);
    match demands.weights.as_slice().get(at) {
        None => 0,
        Some(weight) => *weight,
    }
}

/// What it costs to turn a demand down: more than any number of lesser ones.
pub fn load(weight: i8) -> u64 {
    let size = weight.unsigned_abs();
    if size >= 100 {
        return 1 << 40;
    }
    if size >= 8 {
        return u64::from(size / 8).wrapping_mul(1 << 20);
    }
    u64::from(size)
}
