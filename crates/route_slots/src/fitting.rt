//! Depths of the segments of a gap for few slots, by the demands that an order keeps. Nothing is promised of them: who takes them
//! judges them.
ghost use Rattle.std.specs.Prelude.{◌≡◌, length};
ghost use Rattle.route_slots.specs.NetDepths.{net_depth};

use crate::demands::{Demands, PinSegment, demands_of, meet, pin_segments, wanted, whole_segments};
use crate::dropping::order_of;
use crate::marks::Mark;
use crate::middles::Height;
use net_routes::Net;
use std::alloc::{AllocError, Global};

// A segment in the order in which segments take their depths.
#[derive(Clone, Copy)]
struct Next {
    number: usize,
    behind: u32,
    shortness: i64,
}

/// The depth at a place, and 0 where there is none.
pub fn depth_in(depths: &[u32], place: usize) -> u32
    ensures { result ≡ net_depth depths.now place }
{
    match depths.get(place) {
        None => 0,
        Some(depth) => *depth,
    }
}

fn set_depth(depths: &mut [u32], place: usize, depth: u32) {
    if place < depths.len() {
        depths[place] = depth;
    }
}

fn mark(taken: &mut [bool], depth: u32) {
    let at = depth as usize;
    if at < taken.len() {
        taken[at] = true;
    }
}

// One more than the longest chain of kept demands of segments that stand behind this one and have their tails.
fn tail_of(demands: &Demands, tails: &[u32], number: usize) -> u32 {
    let mut most = 0u32;
    'others: for other in 0..tails.len() {
        if wanted(demands, number, other) > 0 {
            most = most.max(depth_in(tails, other));
        }
    }
    most.saturating_add(1)
}

// The length of the longest chain of kept demands from each segment on.
fn tails_of(alloc: Global, demands: &Demands, order: &[usize]) -> Result<Vec<u32>, AllocError> {
    let mut tails = vec![in alloc; 0; demands.size]?;
    'order: for number in order.iter().rev() {
        let tail = tail_of(demands, tails.as_slice(), *number);
        set_depth(tails.as_mut_slice(), *number, tail);
    }
    Ok(tails)
}

// The segments with the longest chains behind them first, and of these the longest.
fn queue_of(
    alloc: Global,
    segments: &[PinSegment],
    tails: &[u32],
) -> Result<Vec<Next>, AllocError> {
    let mut queue = Vec::new(alloc);
    'segments: for number in 0..segments.len() {
        queue.push(Next {
            number,
            behind: u32::MAX.saturating_sub(depth_in(tails, number)),
            shortness: segments[number].low.saturating_sub(segments[number].high),
        })?;
    }
    queue.sort_by_key(|t| t.shortness)?;
    queue.sort_by_key(|t| t.behind)?;
    Ok(queue)
}

// The least depth of a segment, and those from there on that are taken.
#[derive(Drop)]
struct Row {
    least: u32,
    taken: Vec<bool>,
}

// Looks at one segment that has its depth: it stands before this one, or in the way.
fn look(row: &mut Row, segment: &PinSegment, other: &PinSegment, depth: u32, weight: i8) {
    let meets = meet(segment, other);
    if weight < 0 {
        row.least = row
            .least
            .max(depth.saturating_add(if meets { 1 } else { 0 }));
    }
    if meets {
        mark(row.taken.as_mut_slice(), depth);
    }
}

// What the segments that had their turn before leave to this one.
fn row_of(
    alloc: Global,
    segments: &[PinSegment],
    demands: &Demands,
    queue: &[Next],
    depths: &[u32],
    turn: usize,
) -> Result<Row, AllocError> {
    let mut row = Row {
        least: 0,
        taken: vec![in alloc; false; segments.len()]?,
    };
    if turn >= queue.len() || queue[turn].number >= segments.len() {
        return Ok(row);
    }
    let number = queue[turn].number;
    'queue: for at in 0..turn {
        if at < queue.len() {
            let other = queue[at].number;
            if other < segments.len() {
                let weight = wanted(demands, number, other);
                let depth = depth_in(depths, other);
                look(&mut row, &segments[number], &segments[other], depth, weight);
            }
        }
    }
    Ok(row)
}

// The first depth from the least one on that is not taken.
fn free_depth(row: &Row) -> u32 {
    let mut depth = row.least;
    'depths: for at in row.least as usize..row.taken.len() {
        if !row.taken[at] {
            return depth;
        }
        depth = depth.saturating_add(1);
    }
    depth
}

// A depth for each segment, in turn the first one in which it meets no other and stands behind all that want to stand before it
// and had their turn. Of two that keep apart one may stand behind the other in the same slot.
fn fit(
    alloc: Global,
    segments: &[PinSegment],
    demands: &Demands,
    order: &[usize],
) -> Result<Vec<u32>, AllocError> {
    let tails = tails_of(alloc, demands, order)?;
    let queue = queue_of(alloc, segments, tails.as_slice())?;
    let mut depths = vec![in alloc; 0; segments.len()]?;
    'queue: for turn in 0..queue.len() {
        let row = row_of(
            alloc,
            segments,
            demands,
            queue.as_slice(),
            depths.as_slice(),
            turn,
        )?;
        set_depth(depths.as_mut_slice(), queue[turn].number, free_depth(&row));
    }
    Ok(depths)
}

/// Depths of nets, and an order in which most come after those that precede them.
#[derive(Drop)]
pub struct Fitted {
    pub depths: Vec<u32>,
    pub order: Vec<usize>,
}

// The depths by the places of the segments, two for each net.
fn by_places(
    alloc: Global,
    segments: &[PinSegment],
    depths: &[u32],
    nets: usize,
) -> Result<Vec<u32>, AllocError> {
    let mut placed = vec![in alloc; 0; nets.saturating_add(nets)]?;
    'segments: for number in 0..segments.len() {
        let depth = depth_in(depths, number);
        set_depth(placed.as_mut_slice(), segments[number].place, depth);
    }
    Ok(placed)
}

// The numbers of the nets of the segments.
fn nets_of(
    alloc: Global,
    segments: &[PinSegment],
    order: &[usize],
) -> Result<Vec<usize>, AllocError> {
    let mut nets = Vec::new(alloc);
    'order: for number in order.iter() {
        if let Some(segment) = segments.get(*number) {
            nets.push(segment.place / 2)?;
        }
    }
    Ok(nets)
}

/// Depths for nets none of which is split, one for each.
pub fn fitted_nets(alloc: Global, nets: &[Net], near: i64) -> Result<Fitted, AllocError> {
    let segments = whole_segments(alloc, nets)?;
    let demands = demands_of(alloc, segments.as_slice(), near)?;
    let order = order_of(alloc, &demands)?;
    let fitted = fit(alloc, segments.as_slice(), &demands, order.as_slice())?;
    let mut depths = vec![in alloc; 0; nets.len()]?;
    'segments: for number in 0..segments.len() {
        let depth = depth_in(fitted.as_slice(), number);
        set_depth(depths.as_mut_slice(), segments[number].place / 2, depth);
    }
    Ok(Fitted {
        depths,
        order: nets_of(alloc, segments.as_slice(), order.as_slice())?,
    })
}

/// Depths for the segments of nets by their marks, two for each net.
pub fn fitted_segments(
    alloc: Global,
    nets: &[Net],
    marks: &[Mark],
    middles: &[Height],
    near: i64,
) -> Result<Vec<u32>, AllocError>
    requires marks { length marks.now ≡ length nets.now }
    requires middles { length middles.now ≡ length nets.now }
{
    let segments = pin_segments(alloc, nets, marks, middles)?;
    let demands = demands_of(alloc, segments.as_slice(), near)?;
    let order = order_of(alloc, &demands)?;
    let depths = fit(alloc, segments.as_slice(), &demands, order.as_slice())?;
    by_places(alloc, segments.as_slice(), depths.as_slice(), nets.len())
}
