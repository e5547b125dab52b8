//! An order of the segments of a gap in which the lightest demands are dropped where all can't be met. Nothing is promised of it.
use crate::demands::{Demands, load, wanted};
use std::alloc::{AllocError, Global};

// What a segment that has no turn yet still waits for, or still holds back.
#[derive(Clone, Copy)]
struct Waiting {
    has_turn: bool,
    ahead: u32,
    behind: u32,
    load: u64,
}

// A segment, and whether it goes to the end of the order.
#[derive(Clone, Copy)]
struct Pick {
    number: usize,
    at_end: bool,
}

fn waiting_at(waiting: &[Waiting], at: usize) -> Waiting {
    match waiting.get(at) {
        None => Waiting {
            has_turn: true,
            ahead: 0,
            behind: 0,
            load: 0,
        },
        Some(here) => *here,
    }
}

// What a segment waits for with one more demand of it, or with one less.
fn changed(here: Waiting, weight: i8, more: bool) -> Waiting {
    let mut next = here;
    if weight < 0 {
        next.ahead = stepped(here.ahead, more);
        next.load = if more {
            here.load.saturating_add(load(weight))
        } else {
            here.load.saturating_sub(load(weight))
        };
    }
    if weight > 0 {
        next.behind = stepped(here.behind, more);
    }
    next
}

fn stepped(count: u32, more: bool) -> u32 {
    if more {
        count.saturating_add(1)
    } else {
        count.saturating_sub(1)
    }
}

// All demands of one segment.
fn waiting_of(demands: &Demands, number: usize) -> Waiting {
    let mut here = Waiting {
        has_turn: false,
        ahead: 0,
        behind: 0,
        load: 0,
    };
    'others: for other in 0..demands.size {
        here = changed(here, wanted(demands, number, other), true);
    }
    here
}

// Of the segments without a turn one that waits for none or holds none back, or else the one with the lightest demands.
fn next_pick(waiting: &[Waiting]) -> Option<Pick> {
    let mut best = None;
    let mut least = u64::MAX;
    'segments: for number in 0..waiting.len() {
        let here = waiting_at(waiting, number);
        if !here.has_turn {
            if here.ahead == 0 || here.behind == 0 {
                return Some(Pick {
                    number,
                    at_end: here.ahead != 0,
                });
            }
            if here.load < least {
                least = here.load;
                best = Some(Pick {
                    number,
                    at_end: false,
                });
            }
        }
    }
    best
}

// Takes a segment's demands from all others.
fn release(waiting: &mut [Waiting], demands: &Demands, number: usize) {
    'others: for other in 0..waiting.len() {
        if other < waiting.len() {
            let weight = wanted(demands, number, other);
            if weight != 0 {
                waiting[other] = changed(waiting[other], weight.wrapping_neg(), false);
            }
            if other == number {
                waiting[other].has_turn = true;
            }
        }
    }
}

// The segments at the front of the order, and those at its end from the last one on.
#[derive(Drop)]
struct Halves {
    front: Vec<usize>,
    back: Vec<usize>,
}

// Gives one segment after another its turn.
fn halves_of(alloc: Global, demands: &Demands) -> Result<Halves, AllocError> {
    let mut waiting = Vec::new(alloc);
    'segments: for number in 0..demands.size {
        waiting.push(waiting_of(demands, number))?;
    }
    let mut halves = Halves {
        front: Vec::new(alloc),
        back: Vec::new(alloc),
    };
    'queue: for _ in 0..demands.size {
        if let Some(pick) = next_pick(waiting.as_slice()) {
            if pick.at_end {
                halves.back.push(pick.number)?;
            } else {
                halves.front.push(pick.number)?;
            }
            release(waiting.as_mut_slice(), demands, pick.number);
        }
    }
    Ok(halves)
}

/// All segments in an order. The demands that it doesn't keep are dropped: of the segments on cycles of demands, or between such, the one
/// whose unmet demands weigh least comes next.
pub fn order_of(alloc: Global, demands: &Demands) -> Result<Vec<usize>, AllocError> {
    let halves = halves_of(alloc, demands)?;
    let mut order = halves.front;
    'back: for number in halves.back.iter().rev() {
        order.push(*number)?;
    }
    Ok(order)
}
