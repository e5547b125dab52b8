//! An order of segments for few crossings, where nets conflict. Nothing is promised of it: who takes it judges it.
ghost use Rattle.std.specs.Prelude.{◌<◌, length};

use crate::segments::{RankSegment, at_depth, excess, meet, precedes};
use std::alloc::{AllocError, Global};

// A place in the order, and the crossings that a segment has there more than at its own.
#[derive(Clone, Copy)]
struct Spot {
    at: usize,
    more: i64,
}

// The best place for the segment up to its own.
fn best_before(segments: &[RankSegment], at: usize) -> Spot
    requires { at < length segments.now }
{
    let segment = &segments[at];
    let mut best = Spot { at, more: 0 };
    let mut more = 0i64;
    'others: for back in 0..at {
        let other = &segments[at - 1 - back];
        if meet(segment, other) {
            if precedes(other, segment) {
                return best;
            }
            more = more.wrapping_add(excess(segment, other));
            if more < best.more {
                best = Spot {
                    at: at - 1 - back,
                    more,
                };
            }
        }
    }
    best
}

// The best place for the segment from its own on.
fn best_after(segments: &[RankSegment], at: usize) -> Spot
    requires { at < length segments.now }
{
    let segment = &segments[at];
    let mut best = Spot { at, more: 0 };
    let mut more = 0i64;
    'others: for place in at + 1..segments.len() {
        let other = &segments[place];
        if meet(segment, other) {
            if precedes(segment, other) {
                return best;
            }
            more = more.wrapping_add(excess(other, segment));
            if more < best.more {
                best = Spot { at: place, more };
            }
        }
    }
    best
}

// The best place for the segment, if it isn't its own.
fn best_spot(segments: &[RankSegment], at: usize) -> Option<usize>
    requires { at < length segments.now }
{
    let before = best_before(segments, at);
    let after = best_after(segments, at);
    if before.more < 0 && before.more <= after.more {
        return Some(before.at);
    }
    if after.more < 0 {
        return Some(after.at);
    }
    None
}

// The order with one segment at another place.
fn moved(
    alloc: Global,
    segments: &[RankSegment],
    from: usize,
    to: usize,
) -> Result<Vec<RankSegment>, AllocError>
    requires { from < length segments.now }
{
    let mut others = Vec::new(alloc);
    'segments: for at in 0..segments.len() {
        if at == to && to < from {
            others.push(segments[from])?;
        }
        if at != from {
            others.push(segments[at])?;
        }
        if at == to && to > from {
            others.push(segments[from])?;
        }
    }
    Ok(others)
}

// An order, and whether it is another than before.
#[derive(Drop)]
struct Round {
    segments: Vec<RankSegment>,
    changed: bool,
}

// Each segment at its best place, one after another.
fn sift_each(alloc: Global, segments: Vec<RankSegment>) -> Result<Round, AllocError> {
    let mut segments = segments;
    let mut changed = false;
    'segments: for at in 0..segments.len() {
        if at < segments.len() {
            if let Some(to) = best_spot(segments.as_slice(), at) {
                segments = moved(alloc, segments.as_slice(), at, to)?;
                changed = true;
            }
        }
    }
    Ok(Round { segments, changed })
}

// Pairs of segments that are looked at in all rounds, but for the first.
const PAIRS: usize = 1 << 23;

// How many rounds there are at most, by the number of segments.
fn rounds_of(count: usize) -> usize {
    let pairs = count.wrapping_mul(count);
    if pairs == 0 {
        return 1;
    }
    (PAIRS / pairs).max(1).min(8)
}

// Each segment at a depth behind those of all before it with which it has a height in common.
fn stand(alloc: Global, segments: &[RankSegment]) -> Result<Vec<RankSegment>, AllocError> {
    let mut standing: Vec<RankSegment> = Vec::new(alloc);
    'segments: for segment in segments {
        let depth = depth_behind(standing.as_slice(), segment);
        standing.push(at_depth(*segment, depth))?;
    }
    Ok(standing)
}

// The depth behind those of all segments with which this one has a height in common.
fn depth_behind(standing: &[RankSegment], segment: &RankSegment) -> u32 {
    let mut depth = 0u32;
    'others: for other in standing {
        if meet(other, segment) {
            depth = depth.max(other.depth.saturating_add(1));
        }
    }
    depth
}

/// The segments in an order in which none crosses less at another place, and each at the least depth that keeps the order of all
/// that have a height in common. (Sifting, as Matuszewski, Schoenfeld and Molitor 1999 order rows.)
///
/// No segment passes one before or behind which it has to stand. There are at most eight rounds over all segments, and fewer where
/// there are many segments.
pub fn sift(alloc: Global, segments: Vec<RankSegment>) -> Result<Vec<RankSegment>, AllocError> {
    let mut segments = segments;
    'rounds: for _ in 0..rounds_of(segments.len()) {
        let round = sift_each(alloc, segments)?;
        segments = round.segments;
        if !round.changed {
            return stand(alloc, segments.as_slice());
        }
    }
    stand(alloc, segments.as_slice())
}
