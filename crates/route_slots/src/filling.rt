//! Depths of segments for few crossings, track by track. Nothing is promised of them: the caller judges them.
use crate::segments::{RankEnd, RankSegment, at_depth};
use std::alloc::{AllocError, Global};

// For each rank, and one more, how many ends of the segments lie below it.
#[derive(Drop)]
struct Ends {
    lows: Vec<usize>,
    highs: Vec<usize>,
    lefts: Vec<usize>,
    rights: Vec<usize>,
}

// Counts an end.
fn tally(counts: &mut [usize], rank: usize) {
    let at = rank.wrapping_add(1);
    if at < counts.len() {
        counts[at] = counts[at].wrapping_add(1);
    }
}

fn tally_end(ends: &mut Ends, end: RankEnd) {
    if end.on_left {
        tally(ends.lefts.as_mut_slice(), end.rank);
    } else {
        tally(ends.rights.as_mut_slice(), end.rank);
    }
}

// Sums up what was counted.
fn sum_up(counts: &mut [usize]) {
    let mut total = 0usize;
    'ranks: for at in 0..counts.len() {
        if at < counts.len() {
            total = total.wrapping_add(counts[at]);
            counts[at] = total;
        }
    }
}

// The ends of a row whose ranks are below this one.
fn ends_of(alloc: Global, row: &[RankSegment], ranks: usize) -> Result<Ends, AllocError> {
    let size = ranks.saturating_add(1);
    let mut ends = Ends {
        lows: vec![in alloc; 0; size]?,
        highs: vec![in alloc; 0; size]?,
        lefts: vec![in alloc; 0; size]?,
        rights: vec![in alloc; 0; size]?,
    };
    'segments: for segment in row {
        tally(ends.lows.as_mut_slice(), segment.low);
        tally(ends.highs.as_mut_slice(), segment.high);
        tally_end(&mut ends, segment.near);
        tally_end(&mut ends, segment.far);
    }
    sum_up(ends.lows.as_mut_slice());
    sum_up(ends.highs.as_mut_slice());
    sum_up(ends.lefts.as_mut_slice());
    sum_up(ends.rights.as_mut_slice());
    Ok(ends)
}

// How many were counted below the rank.
fn below(counts: &[usize], rank: usize) -> usize {
    match counts.get(rank) {
        None => 0,
        Some(count) => *count,
    }
}

// How many were counted below the rank or at it.
fn up_to(counts: &[usize], rank: usize) -> usize {
    below(counts, rank.wrapping_add(1))
}

// How many segments contain the rank.
fn meeting(ends: &Ends, rank: usize) -> usize {
    up_to(ends.lows.as_slice(), rank).saturating_sub(below(ends.highs.as_slice(), rank))
}

// How many segments contain the rank between their ends.
fn covering(ends: &Ends, rank: usize) -> i128 {
    let begun = below(ends.lows.as_slice(), rank) as i128;
    begun.wrapping_sub(up_to(ends.highs.as_slice(), rank) as i128)
}

// How many of what was counted lies between the ends of the segment.
fn inside(counts: &[usize], segment: RankSegment) -> i128 {
    let before = below(counts, segment.high) as i128;
    before.wrapping_sub(up_to(counts, segment.low) as i128)
}

// What an end costs if its segment comes next, against last.
fn end_weight(ends: &Ends, end: RankEnd) -> i128 {
    let cover = covering(ends, end.rank);
    if end.on_left {
        0i128.wrapping_sub(cover)
    } else {
        cover
    }
}

// What it costs to put the segment next, against putting it last.
fn weight(ends: &Ends, segment: RankSegment) -> i128 {
    let own = end_weight(ends, segment.near).wrapping_add(end_weight(ends, segment.far));
    let lefts = inside(ends.lefts.as_slice(), segment);
    own.wrapping_add(lefts)
        .wrapping_sub(inside(ends.rights.as_slice(), segment))
}

// The greatest number of segments that contain one rank.
fn density(ends: &Ends, row: &[RankSegment]) -> usize {
    let mut most = 0;
    'segments: for segment in row {
        most = most.max(meeting(ends, segment.low));
    }
    most
}

// The low ends at which as many segments meet as anywhere, in order.
fn full_ranks(alloc: Global, ends: &Ends, row: &[RankSegment]) -> Result<Vec<usize>, AllocError> {
    let most = density(ends, row);
    let mut full = Vec::new(alloc);
    'segments: for segment in row {
        if meeting(ends, segment.low) == most {
            full.push(segment.low)?;
        }
    }
    Ok(full)
}

// How many of the ranks in order lie below this one.
fn count_before(ranks: &[usize], rank: usize) -> usize {
    ranks.partition_point(|r| *r < rank)
}

// How many of the ranks in order lie below this one or at it.
fn count_to(ranks: &[usize], rank: usize) -> usize {
    ranks.partition_point(|r| *r <= rank)
}

// The least sum of weights of segments that hold the first full ranks, and the last of these segments.
#[derive(Clone, Copy)]
struct Best {
    found: bool,
    total: i128,
    last: usize,
}

// No segments.
fn no_best(found: bool) -> Best {
    Best {
        found,
        total: 0,
        last: usize::MAX,
    }
}

fn best_at(bests: &[Best], at: usize) -> Best {
    match bests.get(at) {
        None => no_best(false),
        Some(best) => *best,
    }
}

// Keeps the lighter of two.
fn lighten(bests: &mut [Best], at: usize, best: Best) {
    if at < bests.len() {
        let old = bests[at];
        if best.found && (!old.found || best.total < old.total) {
            bests[at] = best;
        }
    }
}

// A segment's end, and its place in the row.
#[derive(Clone, Copy)]
struct Finish {
    high: usize,
    at: usize,
}

fn finishes_of(alloc: Global, row: &[RankSegment]) -> Result<Vec<Finish>, AllocError> {
    let mut finishes = Vec::new(alloc);
    'segments: for at in 0..row.len() {
        finishes.push(Finish {
            high: row[at].high,
            at,
        })?;
    }
    finishes.sort_by_key(|f| f.high)?;
    Ok(finishes)
}

// Sums of weights: by the full ranks held, and for each segment, as the last one, with the segment before it.
#[derive(Drop)]
struct Sums {
    bests: Vec<Best>,
    each: Vec<Best>,
    done: usize,
}

fn finish_at(finishes: &[Finish], at: usize) -> Option<Finish> {
    match finishes.get(at) {
        None => None,
        Some(finish) => Some(*finish),
    }
}

// Takes up the segments that end below the rank.
fn take_up(sums: &mut Sums, finishes: &[Finish], full: &[usize], rank: usize) {
    'segments: for _ in 0..finishes.len() {
        let finish = match finish_at(finishes, sums.done) {
            None => return,
            Some(finish) => finish,
        };
        if finish.high >= rank {
            return;
        }
        let own = best_at(sums.each.as_slice(), finish.at);
        let held = count_to(full, finish.high);
        lighten(
            sums.bests.as_mut_slice(),
            held,
            Best {
                found: own.found,
                total: own.total,
                last: finish.at,
            },
        );
        sums.done = sums.done.wrapping_add(1);
    }
}

// The sums over all segments of the row.
fn sums_of(
    alloc: Global,
    row: &[RankSegment],
    ends: &Ends,
    full: &[usize],
) -> Result<Sums, AllocError> {
    let finishes = finishes_of(alloc, row)?;
    let mut sums = Sums {
        bests: vec![in alloc; no_best(false); full.len()]?,
        each: Vec::new(alloc),
        done: 0,
    };
    sums.bests.push(no_best(false))?;
    lighten(sums.bests.as_mut_slice(), 0, no_best(true));
    'segments: for segment in row {
        take_up(&mut sums, finishes.as_slice(), full, segment.low);
        let before = best_at(sums.bests.as_slice(), count_before(full, segment.low));
        sums.each.push(Best {
            found: before.found,
            total: before.total.wrapping_add(weight(ends, *segment)),
            last: before.last,
        })?;
    }
    take_up(&mut sums, finishes.as_slice(), full, usize::MAX);
    Ok(sums)
}

// The segments of a row that stand in the next track: apart from each other, of least weight, and holding all full ranks.
fn lightest(alloc: Global, row: &[RankSegment], ranks: usize) -> Result<Vec<bool>, AllocError> {
    let ends = ends_of(alloc, row, ranks)?;
    let full = full_ranks(alloc, &ends, row)?;
    let sums = sums_of(alloc, row, &ends, full.as_slice())?;
    let mut chosen = vec![in alloc; false; row.len()]?;
    let mut at = best_at(sums.bests.as_slice(), full.len()).last;
    'segments: for _ in 0..row.len() {
        if at >= chosen.len() {
            return Ok(chosen);
        }
        chosen[at] = true;
        at = best_at(sums.each.as_slice(), at).last;
    }
    Ok(chosen)
}

// A rank above those of all ends.
fn ranks_of(segments: &[RankSegment]) -> usize {
    let mut most = 0usize;
    'segments: for segment in segments {
        most = most.max(segment.high.saturating_add(1));
    }
    most
}

// The least depth of a segment.
fn least_depth(segments: &[RankSegment]) -> u32 {
    let mut least = u32::MAX;
    'segments: for segment in segments {
        least = least.min(segment.depth);
    }
    least
}

// The segments of this depth, or those of all others.
fn part(
    alloc: Global,
    segments: &[RankSegment],
    depth: u32,
    same: bool,
) -> Result<Vec<RankSegment>, AllocError> {
    let mut some = Vec::new(alloc);
    'segments: for segment in segments {
        if (segment.depth == depth) == same {
            some.push(*segment)?;
        }
    }
    Ok(some)
}

// The segments of a row that aren't chosen; the others are filled in at the track.
fn take_track(
    alloc: Global,
    row: &[RankSegment],
    ranks: usize,
    filled: &mut Vec<RankSegment>,
    track: u32,
) -> Result<Vec<RankSegment>, AllocError> {
    let chosen = lightest(alloc, row, ranks)?;
    let mut rest = Vec::new(alloc);
    'segments: for at in 0..row.len() {
        if at < chosen.len() && chosen[at] {
            filled.push(at_depth(row[at], track))?;
        } else {
            rest.push(row[at])?;
        }
    }
    Ok(rest)
}

// The tracks of one depth, from this one on, and the number of the next.
fn fill_depth(
    alloc: Global,
    row: Vec<RankSegment>,
    ranks: usize,
    filled: &mut Vec<RankSegment>,
    track: u32,
) -> Result<u32, AllocError> {
    let mut row = row;
    let mut track = track;
    'tracks: for _ in 0..row.len() {
        if row.is_empty() {
            return Ok(track);
        }
        row = take_track(alloc, row.as_slice(), ranks, filled, track)?;
        track = track.wrapping_add(1);
    }
    Ok(track)
}

/// The segments track by track, those of each depth in tracks of their own. They come by their low ends.
///
/// A track takes, of the segments still to stand, some that keep apart and hold each height of full density, with the least sum
/// of what it costs to put each of them next, against putting it last.
pub fn fill(alloc: Global, segments: Vec<RankSegment>) -> Result<Vec<RankSegment>, AllocError> {
    let ranks = ranks_of(segments.as_slice());
    let mut segments = segments;
    let mut filled = Vec::new(alloc);
    let mut track = 0;
    'depths: for _ in 0..segments.len() {
        if segments.is_empty() {
            return Ok(filled);
        }
        let depth = least_depth(segments.as_slice());
        let row = part(alloc, segments.as_slice(), depth, true)?;
        segments = part(alloc, segments.as_slice(), depth, false)?;
        track = fill_depth(alloc, row, ranks, &mut filled, track)?;
    }
    Ok(filled)
}
