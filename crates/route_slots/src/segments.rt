//! segments with their two ends, by the order of all heights alone, and how two of them cross.
ghost use Rattle.std.specs.Prelude.{◌≡◌, ◌≤◌, length};
ghost use Rattle.net_routes.specs.Limits.{exchange_limit};

use crate::marks::Mark;
use crate::middles::Height;
use net_routes::{Net, Pin};
use std::alloc::{AllocError, Global};

/// An end that leads on to the left or to the right. Its rank is the number of ends at lower heights.
#[derive(Clone, Copy)]
pub struct RankEnd {
    pub on_left: bool,
    pub rank: usize,
}

/// A segment between two ends. Its place is twice the number of its net, or one more for the second segment of a split net.
#[derive(Clone, Copy)]
pub struct RankSegment {
    pub place: usize,
    pub depth: u32,
    pub low: usize,
    pub high: usize,
    pub near: RankEnd,
    pub far: RankEnd,
}

// The end at a height, by all heights in order.
fn end_of(heights: &[i64], pin: Pin) -> RankEnd {
    let height = pin.height;
    RankEnd {
        on_left: pin.on_left,
        rank: heights.partition_point(|h| *h < height),
    }
}

// The end of a split net's segment at its middle, on the other side than the segment's pin.
fn middle_end(pin: Pin, middle: Height) -> Pin {
    Pin {
        on_left: !pin.on_left,
        height: middle.value,
    }
}

// The segment of a segment from its pin to the other end.
fn rank_segment(heights: &[i64], place: usize, depth: u32, pin: Pin, other: Pin) -> RankSegment {
    let near = end_of(heights, pin);
    let far = end_of(heights, other);
    RankSegment {
        place,
        depth,
        low: near.rank.min(far.rank),
        high: near.rank.max(far.rank),
        near,
        far,
    }
}

// Adds the heights of a net's ends.
fn push_heights(
    heights: &mut Vec<i64>,
    net: Net,
    mark: Mark,
    middle: Height,
) -> Result<(), AllocError> {
    if mark.straight {
        return Ok(());
    }
    heights.push(net.a.height)?;
    heights.push(net.b.height)?;
    if mark.split {
        heights.push(middle.value)?;
        heights.push(middle.value)?;
    }
    Ok(())
}

// Adds the segments of a net.
fn push_rank_segments(
    segments: &mut Vec<RankSegment>,
    heights: &[i64],
    place: usize,
    net: Net,
    mark: Mark,
    middle: Height,
) -> Result<(), AllocError> {
    if mark.straight {
        return Ok(());
    }
    if !mark.split {
        segments.push(rank_segment(heights, place, mark.at_a, net.a, net.b))?;
        return Ok(());
    }
    let turn = middle_end(net.a, middle);
    segments.push(rank_segment(heights, place, mark.at_a, net.a, turn))?;
    let turn = middle_end(net.b, middle);
    let other = place.wrapping_add(1);
    segments.push(rank_segment(heights, other, mark.at_b, net.b, turn))?;
    Ok(())
}

/// The segments of all nets by their low ends.
pub fn rank_segments(
    alloc: Global,
    nets: &[Net],
    marks: &[Mark],
    middles: &[Height],
) -> Result<Vec<RankSegment>, AllocError>
    requires few { length nets.now ≤ exchange_limit }
    requires marks { length marks.now ≡ length nets.now }
    requires middles { length middles.now ≡ length nets.now }
{
    let mut heights = Vec::new(alloc);
    'heights: for k in 0..nets.len() {
        push_heights(&mut heights, nets[k], marks[k], middles[k])?;
    }
    heights.sort_unstable();
    let mut segments = Vec::new(alloc);
    'nets: for k in 0..nets.len() {
        push_rank_segments(
            &mut segments,
            heights.as_slice(),
            k + k,
            nets[k],
            marks[k],
            middles[k],
        )?;
    }
    segments.sort_by_key(|s| s.low)?;
    Ok(segments)
}

/// The segment at another depth.
pub fn at_depth(segment: RankSegment, depth: u32) -> RankSegment {
    RankSegment {
        place: segment.place,
        depth,
        low: segment.low,
        high: segment.high,
        near: segment.near,
        far: segment.far,
    }
}

fn set_depth(depths: &mut [u32], segment: RankSegment) {
    if segment.place < depths.len() {
        depths[segment.place] = segment.depth;
    }
}

/// The depths of the segments by their places, two for each net.
pub fn depths_by_place(
    alloc: Global,
    segments: &[RankSegment],
    nets: usize,
) -> Result<Vec<u32>, AllocError>
    requires { nets ≤ exchange_limit }
{
    let mut depths = vec![in alloc; 0; nets + nets]?;
    'segments: for segment in segments {
        set_depth(depths.as_mut_slice(), *segment);
    }
    Ok(depths)
}

/// Whether the segments have a height in common.
pub fn meet(segment: &RankSegment, other: &RankSegment) -> bool {
    segment.low <= other.high && other.low <= segment.high
}

// Whether the first end is on the left and the second on the right at one height.
fn conflict(end: RankEnd, other: RankEnd) -> bool {
    end.rank == other.rank && end.on_left && !other.on_left
}

/// Whether the first segment has to stand before the second.
pub fn precedes(segment: &RankSegment, other: &RankSegment) -> bool {
    if segment.place / 2 == other.place / 2 {
        return segment.near.on_left;
    }
    conflict(segment.near, other.near)
        || conflict(segment.near, other.far)
        || conflict(segment.far, other.near)
        || conflict(segment.far, other.far)
}

// The crossing at an end with a segment that stands behind, less that with one that stands before.
fn lead(end: RankEnd, other: &RankSegment) -> i64 {
    if end.rank <= other.low || end.rank >= other.high {
        return 0;
    }
    if end.on_left { -1 } else { 1 }
}

/// The crossings of the two segments in this order, less those in the other.
pub fn excess(segment: &RankSegment, other: &RankSegment) -> i64 {
    let own = lead(segment.near, other).wrapping_add(lead(segment.far, other));
    own.wrapping_sub(lead(other.near, segment))
        .wrapping_sub(lead(other.far, segment))
}
