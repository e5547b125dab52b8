//! Neighbouring tracks of segments, exchanged for few crossings. Nothing is promised of them: the caller judges them.
use crate::segments::{RankSegment, at_depth, excess, meet, precedes};
use std::alloc::{AllocError, Global};

// The segments track by track, as they come.
fn tracks_of(alloc: Global, segments: &[RankSegment]) -> Result<Vec<Vec<RankSegment>>, AllocError> {
    let mut tracks = Vec::new(alloc);
    let mut track = Vec::new(alloc);
    let mut depth = 0;
    'segments: for segment in segments {
        if segment.depth != depth {
            tracks.push(track)?;
            track = Vec::new(alloc);
            depth = segment.depth;
        }
        track.push(*segment)?;
    }
    tracks.push(track)?;
    Ok(tracks)
}

// The crossings of a segment with those of the next track, less those in the other order; none if it has to stand before one.
fn row_excess(segment: &RankSegment, next: &[RankSegment]) -> Option<i64> {
    let mut total = 0i64;
    'others: for other in next {
        if meet(segment, other) {
            if precedes(segment, other) {
                return None;
            }
            total = total.wrapping_add(excess(segment, other));
        }
    }
    Some(total)
}

// Whether the two tracks cross less in the other order, and may stand so.
fn cross_more(track: &[RankSegment], next: &[RankSegment]) -> bool {
    let mut total = 0i64;
    'segments: for segment in track {
        match row_excess(segment, next) {
            None => return false,
            Some(more) => total = total.wrapping_add(more),
        }
    }
    total > 0
}

// Exchanges each two neighbours once that cross less so, and says whether there were any.
fn sweep(tracks: &mut [Vec<RankSegment>]) -> bool {
    let mut changed = false;
    'tracks: for at in 1..tracks.len() {
        if at < tracks.len() && cross_more(tracks[at - 1].as_slice(), tracks[at].as_slice()) {
            tracks.swap(at - 1, at);
            changed = true;
        }
    }
    changed
}

// The segments of all tracks, each at the depth of its track.
fn joined(alloc: Global, tracks: &[Vec<RankSegment>]) -> Result<Vec<RankSegment>, AllocError> {
    let mut segments = Vec::new(alloc);
    let mut depth = 0u32;
    'tracks: for track in tracks {
        push_track(&mut segments, track.as_slice(), depth)?;
        depth = depth.wrapping_add(1);
    }
    Ok(segments)
}

fn push_track(
    segments: &mut Vec<RankSegment>,
    track: &[RankSegment],
    depth: u32,
) -> Result<(), AllocError> {
    'segments: for segment in track {
        segments.push(at_depth(*segment, depth))?;
    }
    Ok(())
}

/// The segments with neighbouring tracks exchanged while they cross less so, in as many sweeps as there are tracks at most.
pub fn exchange_tracks(
    alloc: Global,
    segments: Vec<RankSegment>,
) -> Result<Vec<RankSegment>, AllocError> {
    let mut segments = segments;
    segments.sort_by_key(|s| s.depth)?;
    let mut tracks = tracks_of(alloc, segments.as_slice())?;
    'sweeps: for _ in 0..segments.len() {
        if !sweep(tracks.as_mut_slice()) {
            return joined(alloc, tracks.as_slice());
        }
    }
    joined(alloc, tracks.as_slice())
}
