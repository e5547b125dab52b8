//! The stretches of routes: lines, and ways through gaps.

use crate::frame::{Along, Frame};
use crate::gaps::{Gap, Gaps};
use graph_draft::{Point, tidy};
use std::alloc::{AllocError, Global};

// Behind a layer, where edges that are turned round end, a curve goes straight for less than before it.
const BEHIND: f64 = 0.6;

/// A straight line of a route, or its way through a gap.
#[derive(Clone, Copy, Drop)]
pub struct Stretch {
    pub frame: Frame,
    pub is_gap: bool,
    pub from: Point,
    pub to: Point,
}

impl Stretch {
    // The stretch in the other direction.
    fn flipped(self) -> Stretch {
        Stretch {
            from: self.to,
            to: self.from,
            ..self
        }
    }
}

/// A placed level.
#[derive(Drop)]
pub struct Placed<'a> {
    pub frame: Frame,
    pub gaps: &'a Gaps,
    /// The part of the level to which a route belongs, if that is known.
    pub part: Option<usize>,
    /// Whether lines through gaps go straight before and behind layers. Slanted lines do so only if there are self-loops, which they
    /// would cross otherwise.
    pub has_stubs: bool,
}

// The way of a route through a gap, and the number of the point behind it.
#[derive(Clone, Copy, Drop)]
struct Way {
    entry: Along,
    exit: Along,
    next: usize,
}

// The number of the first point at or behind another one that isn't within a gap.
fn first_outside(points: &[Along], from: usize, gap: Gap) -> Option<usize> {
    for at in from..points.len() {
        let u = points[at].u;
        if u <= gap.from || u >= gap.to {
            return Some(at);
        }
    }
    None
}

impl Placed<'_> {
    // The way of a route that turns in a gap at a point, if it begins at one border and goes on at the other.
    fn way_through(&self, points: &[Along], before: Along, at: usize) -> Option<Way> {
        let first = points.get(at)?;
        if before.v != first.v {
            return None;
        }
        let gap = self.gaps.around(self.part, before.u, first.u)?;
        let next = first_outside(points, at.checked_add(1)?, gap)?;
        let (behind, last) = (points.get(next)?, points.get(next.checked_sub(1)?)?);
        if behind.u < gap.to || behind.v != last.v {
            return None;
        }
        let stub = if self.has_stubs { gap.stub } else { 0.0 };
        Some(Way {
            entry: Along {
                u: gap.from + stub * BEHIND,
                v: before.v,
            },
            exit: Along {
                u: gap.to - stub,
                v: behind.v,
            },
            next,
        })
    }

    // Adds a stretch, if it has a length.
    fn add(
        &self,
        found: &mut Vec<Stretch>,
        is_gap: bool,
        from: Along,
        to: Along,
    ) -> Result<(), AllocError> {
        if from.u != to.u || from.v != to.v {
            found.push(Stretch {
                frame: self.frame,
                is_gap,
                from: self.frame.back(from),
                to: self.frame.back(to),
            })?;
        }
        Ok(())
    }

    // The stretches of a route along the flow.
    fn stretches_along(&self, alloc: Global, points: &[Along]) -> Result<Vec<Stretch>, AllocError> {
        let mut found = Vec::new(alloc);
        let mut before = match points.first() {
            Some(first) => *first,
            None => return Ok(found),
        };
        let mut next = 1;
        for _ in 0..points.len() {
            match (self.way_through(points, before, next), points.get(next)) {
                (Some(way), _) => {
                    self.add(&mut found, false, before, way.entry)?;
                    self.add(&mut found, true, way.entry, way.exit)?;
                    before = way.exit;
                    next = way.next;
                }
                (None, Some(point)) => {
                    self.add(&mut found, false, before, *point)?;
                    before = *point;
                    next = next.saturating_add(1);
                }
                (None, None) => break,
            }
        }
        Ok(found)
    }
}

/// Stretches in the other direction.
pub fn flipped(alloc: Global, stretches: &[Stretch]) -> Result<Vec<Stretch>, AllocError> {
    let mut found = Vec::new(alloc);
    for stretch in stretches.iter().rev() {
        found.push(stretch.flipped())?;
    }
    Ok(found)
}

fn runs_back(along: &[Along]) -> bool {
    match (along.first(), along.last()) {
        (Some(first), Some(last)) => first.u > last.u,
        _ => false,
    }
}

/// The stretches of an orthogonal route of a level.
pub fn stretches_of(
    alloc: Global,
    points: &[Point],
    level: &Placed<'_>,
) -> Result<Vec<Stretch>, AllocError> {
    let mut along = Vec::new(alloc);
    for point in points {
        along.push(level.frame.of(*point))?;
    }
    if !runs_back(along.as_slice()) {
        return level.stretches_along(alloc, along.as_slice());
    }
    along.reverse();
    let found = level.stretches_along(alloc, along.as_slice())?;
    flipped(alloc, found.as_slice())
}

// Whether a line goes on in the direction of another one.
fn goes_on(alloc: Global, last: Stretch, next: Stretch) -> Result<bool, AllocError> {
    if last.is_gap || next.is_gap {
        return Ok(false);
    }
    Ok(tidy(alloc, &[last.from, last.to, next.to])?.len() == 2)
}

// Lines that go on in one direction are one.
pub(crate) fn joined(alloc: Global, stretches: &[Stretch]) -> Result<Vec<Stretch>, AllocError> {
    let mut found: Vec<Stretch> = Vec::new(alloc);
    for stretch in stretches {
        let last = found.last().copied();
        let longer = match last {
            Some(last) if goes_on(alloc, last, *stretch)? => Some(Stretch {
                to: stretch.to,
                ..last
            }),
            _ => None,
        };
        match (longer, found.last_mut()) {
            (Some(longer), Some(last)) => *last = longer,
            _ => found.push(*stretch)?,
        }
    }
    Ok(found)
}
