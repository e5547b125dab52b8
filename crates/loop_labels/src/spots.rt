//! Where labels of loops begin along a side.

use std::alloc::AllocError;
use std::cmp::OrderedFloat;

// Where labels begin and end along a side.
#[derive(Clone, Copy, Drop)]
pub(crate) struct Span {
    pub(crate) from: f64,
    pub(crate) to: f64,
}

// The widest room between the ends of a loop that no other line divides.
fn widest(ends: Span, foreign: &[f64]) -> Span {
    let mut best = Span {
        from: ends.from,
        to: ends.from,
    };
    let mut from = ends.from;
    for line in foreign {
        if ends.from < *line && *line < ends.to {
            if *line - from > best.to - best.from {
                best = Span { from, to: *line };
            }
            from = *line;
        }
    }
    if ends.to - from > best.to - best.from {
        best = Span { from, to: ends.to };
    }
    best
}

// Where along a side labels begin so that no other line meets them: at the loop, or else behind the last line.
pub(crate) fn from_of(ends: Span, foreign: &[f64], length: f64, beside: f64) -> f64 {
    let room = widest(ends, foreign);
    let middle = ((room.from + room.to - length) / 2.0).floor();
    let is_met = foreign.iter().any(|line| middle - beside < *line
        && *line < middle + length + beside);
    if !is_met {
        return middle;
    }
    let mut last = ends.to;
    for line in foreign {
        last = last.max(*line);
    }
    last + beside
}

// Where labels begin that stand clear of others along the side, behind those that they would meet.
pub(crate) fn clear_of(
    placed: &mut Vec<Span>,
    wanted: f64,
    length: f64,
    beside: f64,
) -> Result<f64, AllocError> {
    placed.sort_by_key(|span| OrderedFloat(span.from))?;
    let mut from = wanted;
    for other in placed.iter() {
        if from < other.to + beside && other.from < from + length + beside {
            from = other.to + beside;
        }
    }
    placed.push(Span {
        from,
        to: from + length,
    })?;
    Ok(from)
}
