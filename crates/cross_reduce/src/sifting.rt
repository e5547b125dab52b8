//! Single units put at the places of their rows where they cross least.

use crate::flat::{Flat, Span, number_at, place_of};
use crate::neighbours::compare;
use crate::windows::move_unit;

/// A place, and how many more crossings a unit has there.
#[derive(Clone, Copy)]
struct Choice {
    place: usize,
    more: i64,
}

/// What a look along a row found: the best place, what the last one brings, and the work.
#[derive(Clone, Copy)]
struct Look {
    best: Choice,
    more: i64,
    work: u64,
}

impl Look {
    /// The look after one more place, which brings so many more crossings than the one before.
    fn with(self, place: usize, more: i32, work: u64) -> Look {
        let more = self.more.wrapping_add(i64::from(more));
        let best = if more < self.best.more {
            Choice { place, more }
        } else {
            self.best
        };
        Look {
            best,
            more,
            work: self.work.saturating_add(work),
        }
    }
}

/// Looks along the places below a unit's, up to one.
fn look_down(flat: &Flat, unit: u32, own: usize, last: usize, look: Look) -> Look {
    let mut look = look;
    for at in own.saturating_add(1)..last.saturating_add(1) {
        let other = number_at(flat.units.as_slice(), at);
        let (more, work) = compare(flat, unit, other);
        look = look.with(at, more, work);
    }
    look
}

/// Looks along the places above a unit's, up to one.
fn look_up(flat: &Flat, unit: u32, own: usize, first: usize, look: Look) -> Look {
    let mut look = look;
    for step in 1..own.saturating_sub(first).saturating_add(1) {
        let at = own.saturating_sub(step);
        let other = number_at(flat.units.as_slice(), at);
        let (more, work) = compare(flat, other, unit);
        look = look.with(at, more, work);
    }
    look
}

/// Moves a unit where it crosses least, so far at most. Tells the crossings that this takes away, and the work of it.
pub(crate) fn sift(flat: &mut Flat, row: Span, unit: u32, reach: usize) -> (i64, u64) {
    let own = place_of(flat.place.as_slice(), unit);
    let none = Choice {
        place: own,
        more: 0,
    };
    let start = Look {
        best: none,
        more: 0,
        work: 0,
    };
    let last = own.saturating_add(reach).min(row.last);
    let down = look_down(flat, unit, own, last, start);
    let first = own.saturating_sub(reach).max(row.first);
    let flipped = Look {
        best: down.best,
        more: 0,
        work: down.work,
    };
    let both = look_up(flat, unit, own, first, flipped);
    if both.best.more < 0 {
        move_unit(flat, unit, own, both.best.place);
    }
    (both.best.more.saturating_neg(), both.work)
}
