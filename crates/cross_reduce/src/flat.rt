//! An order with its rows in one list, as a search changes it.
//!
//! What a search makes of this list is taken as numbers by which the rows of a proved order are put in order.
//! So nothing is promised of it but that each access lies within its lists: what lies outside reads as 0.

use crate::fans::Far;
use elk_layers::{Layered, Link, Order};
use std::alloc::{AllocError, Global};

/// A number of a list, or 0 where there is none.
pub(crate) fn number_at(list: &[u32], i: usize) -> u32 {
    if i < list.len() { list[i] } else { 0 }
}

/// Sets a number of a list, if there is such a one.
pub(crate) fn set_number(list: &mut [u32], i: usize, number: u32) {
    if i < list.len() {
        list[i] = number;
    }
}

/// A row of at least two units: where its first and its last unit stand in the list.
#[derive(Clone, Copy)]
pub(crate) struct Span {
    pub(crate) first: usize,
    pub(crate) last: usize,
}

/// Where a unit's far ends to the left begin, those to the right, and where these end.
#[derive(Clone, Copy)]
struct Sides {
    left: u32,
    right: u32,
    end: u32,
}

/// The far ends of all links: those to the left of the first unit, those to its right, and so on.
#[derive(Drop)]
pub(crate) struct Ends {
    sides: Vec<Sides>,
    far: Vec<Far>,
}

impl Ends {
    /// How many far ends there are, two of each link.
    pub(crate) fn len(&self) -> usize {
        self.far.len()
    }

    /// The far ends of a unit's links to the left, and of those to the right.
    pub(crate) fn of(&self, unit: u32) -> (&[Far], &[Far]) {
        let unit = unit as usize;
        let far = self.far.as_slice();
        if unit < self.sides.len() {
            let sides = self.sides[unit];
            let (left, right, end) = (
                sides.left as usize,
                sides.right as usize,
                sides.end as usize,
            );
            if left <= right && right <= end && end <= far.len() {
                return (&far[left..right], &far[right..end]);
            }
        }
        (&far[0..0], &far[0..0])
    }
}

/// The place of a unit's left side among all sides.
fn left_side(unit: u32) -> usize {
    unit as usize * 2
}

/// The place of a unit's right side among all sides.
fn right_side(unit: u32) -> usize {
    unit as usize * 2 + 1
}

/// Counts one more at a place.
fn count_at(counts: &mut [u32], i: usize) {
    let count = number_at(counts, i);
    set_number(counts, i, count.wrapping_add(1));
}

/// How many links each side has, one place behind the side's.
fn side_counts(alloc: Global, layered: &Layered) -> Result<Vec<u32>, AllocError> {
    let sides = layered.units.len().saturating_mul(2).saturating_add(1);
    let mut counts: Vec<u32> = vec![in alloc; 0; sides]?;
    for link in layered.links.as_slice() {
        count_at(counts.as_mut_slice(), left_side(link.head).wrapping_add(1));
        count_at(counts.as_mut_slice(), right_side(link.tail).wrapping_add(1));
    }
    Ok(counts)
}

/// The sums of the counts up to each.
fn sums(alloc: Global, counts: &[u32]) -> Result<Vec<u32>, AllocError> {
    let mut sums: Vec<u32> = Vec::with_capacity(alloc, counts.len())?;
    let mut sum: u32 = 0;
    for count in counts {
        sum = sum.wrapping_add(*count);
        sums.push(sum)?;
    }
    Ok(sums)
}

/// Puts a far end where the next of its side belongs.
fn put_far(far: &mut [Far], next: &mut [u32], side: usize, end: Far) {
    let i = number_at(next, side) as usize;
    if i < far.len() {
        far[i] = end;
    }
    count_at(next, side);
}

/// Puts both ends of a link where they belong.
fn put_link(far: &mut [Far], next: &mut [u32], link: Link) {
    let tail = Far {
        unit: link.tail,
        rank: link.tail_rank,
    };
    let head = Far {
        unit: link.head,
        rank: link.head_rank,
    };
    put_far(far, next, left_side(link.head), tail);
    put_far(far, next, right_side(link.tail), head);
}

/// Where the far ends of each unit's sides begin and end.
fn sides_of(alloc: Global, first: &[u32], units: usize) -> Result<Vec<Sides>, AllocError> {
    let mut list: Vec<Sides> = Vec::with_capacity(alloc, units)?;
    for unit in 0..units {
        let side = unit.wrapping_mul(2);
        list.push(Sides {
            left: number_at(first, side),
            right: number_at(first, side.wrapping_add(1)),
            end: number_at(first, side.wrapping_add(2)),
        })?;
    }
    Ok(list)
}

/// The far ends of all links.
fn ends_for(alloc: Global, layered: &Layered) -> Result<Ends, AllocError> {
    let counts = side_counts(alloc, layered)?;
    let first = sums(alloc, counts.as_slice())?;
    let sides = sides_of(alloc, first.as_slice(), layered.units.len())?;
    let mut next = first;
    let none = Far { unit: 0, rank: 0 };
    let count = layered.links.len().saturating_mul(2);
    let mut far: Vec<Far> = vec![in alloc; none; count]?;
    for link in layered.links.as_slice() {
        put_link(far.as_mut_slice(), next.as_mut_slice(), *link);
    }
    Ok(Ends { sides, far })
}

/// An order in one list: its units, the place of each, its rows of two or more units, and the links.
#[derive(Drop)]
pub(crate) struct Flat {
    pub(crate) units: Vec<u32>,
    pub(crate) place: Vec<usize>,
    pub(crate) rows: Vec<Span>,
    pub(crate) ends: Ends,
}

impl Flat {
    /// A row of at least two units, or one without units where there are no more.
    pub(crate) fn row_at(&self, r: usize) -> Span {
        if r < self.rows.len() {
            self.rows[r]
        } else {
            Span { first: 0, last: 0 }
        }
    }
}

/// All units, row after row.
fn units_in(alloc: Global, order: &Order, count: usize) -> Result<Vec<u32>, AllocError> {
    let mut units: Vec<u32> = Vec::with_capacity(alloc, count)?;
    for row in order.rows.as_slice() {
        units.extend_from_slice(row.as_slice())?;
    }
    Ok(units)
}

/// The rows of at least two units.
fn spans_in(alloc: Global, order: &Order) -> Result<Vec<Span>, AllocError> {
    let mut spans: Vec<Span> = Vec::new(alloc);
    let mut first: usize = 0;
    for row in order.rows.as_slice() {
        let next = first.wrapping_add(row.len());
        if row.len() > 1 {
            spans.push(Span {
                first,
                last: next.wrapping_sub(1),
            })?;
        }
        first = next;
    }
    Ok(spans)
}

/// The place of a unit in the list.
pub(crate) fn place_of(place: &[usize], unit: u32) -> usize {
    let unit = unit as usize;
    if unit < place.len() { place[unit] } else { 0 }
}

/// Notes the place of a unit.
pub(crate) fn set_place(place: &mut [usize], unit: u32, i: usize) {
    let unit = unit as usize;
    if unit < place.len() {
        place[unit] = i;
    }
}

/// Notes the places of all units.
fn note_places(place: &mut [usize], units: &[u32]) {
    for (i, unit) in units.iter().enumerate() {
        set_place(place, *unit, i);
    }
}

/// An order in one list.
pub(crate) fn flat_of(alloc: Global, layered: &Layered, order: &Order) -> Result<Flat, AllocError> {
    let count = layered.units.len();
    let units = units_in(alloc, order, count)?;
    let mut place: Vec<usize> = vec![in alloc; 0; count]?;
    note_places(place.as_mut_slice(), units.as_slice());
    Ok(Flat {
        units,
        place,
        rows: spans_in(alloc, order)?,
        ends: ends_for(alloc, layered)?,
    })
}
