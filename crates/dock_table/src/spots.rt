//! The spots of children: their ports and the ends of edges that name the child itself.
ghost use Rattle.std.specs.Prelude.{◌≡◌, ◌+◌, ◌<◌, ◌≤◌, ◌^◌, length, slice_set, IfOk, OnOk, Some, map};
ghost use Rattle.std.specs.List.{range_with_len};
ghost use Rattle.level_model.specs.Conditions.{plain_level, IsLevel};
ghost use Rattle.level_model.specs.Level.{PlainPlan};
ghost use Rattle.dock_table.specs.Courses.{AreCourses};
ghost use Rattle.dock_table.specs.Rows as spec;
ghost use Rattle.dock_table.specs.Rows.{ArePortRows, AreSpotsOf, AreSpotsTo, HasPlace, IsCounted, bare, lists_of, number_in, row_at, row_lists, row_with, told_by};

use crate::courses::Course;
use level_model::{EdgeEnd, LevelIn};
use port_order::{Mean, Spot};
use std::alloc::{AllocError, Global};

/// What an end tells its spot: whether its edge is a self-loop, whether the edge enters there, and the place in its row of
/// the unit at the far end of its link.
#[derive(Clone, Copy)]
pub(crate) struct Told {
    pub(crate) looped: bool,
    pub(crate) enters: bool,
    pub(crate) place: u32,
}

/// By child, its spots in document order.
#[derive(Drop)]
pub(crate) struct Rows {
    lists: Vec<Vec<Spot>>,
}

impl Rows {
    /// The spots of a child.
    pub(crate) fn at(&self, child: usize) -> &[Spot]
        requires { child < length (row_lists self.now) }
        ensures { result.now ≡ row_at (row_lists self.now) child }
    {
        self.lists[child].as_slice()
    }
}

/// The spots of a level, and by end, two for each edge, the number of its spot.
#[derive(Drop)]
pub(crate) struct Spots {
    pub(crate) rows: Rows,
    pub(crate) numbers: Vec<u32>,
}

// What an end of an edge tells its spot.
fn told_by(course: Course, at_source: bool) -> Told
    ensures { result ≡ told_by course at_source }
{
    let enters = if at_source {
        course.is_reversed
    } else {
        !course.is_reversed
    };
    Told {
        looped: course.looped,
        enters,
        place: if enters { course.before } else { course.after },
    }
}

// A mean with one more place.
fn more_mean(mean: Option<Mean>, place: u32) -> Mean
    requires { IsCounted (2 ^ 16) mean }
    ensures { result ≡ spec.more_mean mean place }
{
    match mean {
        None => Mean {
            sum: place as u64,
            count: 1,
        },
        Some(mean) => Mean {
            sum: mean.sum + place as u64,
            count: mean.count + 1,
        },
    }
}

// A spot with one more link.
fn with_link(told: Told, spot: Spot) -> Spot
    requires { IsCounted (2 ^ 16) spot.mean }
    ensures { result ≡ spec.with_link told spot }
{
    Spot {
        port: spot.port,
        number: spot.number,
        leaves: spot.leaves || !told.enters,
        enters: spot.enters || told.enters,
        mean: Some(more_mean(spot.mean, told.place)),
    }
}

// A spot with one more end.
fn with_end(told: Told, spot: Spot) -> Spot
    requires { IsCounted (2 ^ 16) spot.mean }
    ensures { result ≡ spec.with_end told spot }
{
    if told.looped {
        spot
    } else {
        with_link(told, spot)
    }
}

// A spot without ends.
fn bare(port: Option<u32>, number: u32) -> Spot
    ensures { result ≡ bare port number }
{
    Spot {
        port,
        number,
        leaves: false,
        enters: false,
        mean: None,
    }
}

// Adds an end to a child's spots, at one of its ports or as a spot of its own, and gives the number of its spot.
fn add_to_row(row: &mut Vec<Spot>, port: Option<u32>, told: Told) -> Result<u32, AllocError>
    requires { HasPlace port row.old.items }
    ensures row { OnOk result (row.new.items ≡ row_with port told row.old.items) }
    ensures number { IfOk result (λ n. n ≡ number_in port row.old.items) }
{
    match port {
        None => {
            let number = row.len() as u32;
            row.push(with_end(told, bare(None, number)))?;
            Ok(number)
        }
        Some(port) => {
            row[port as usize] = with_end(told, row[port as usize]);
            Ok(port)
        }
    }
}

// Adds an end to the spots of its child, and gives the number of its spot.
fn add_end(rows: &mut Rows, spoke: EdgeEnd, told: Told) -> Result<u32, AllocError>
    requires child { spoke.child < length (row_lists rows.old) }
    requires place { HasPlace spoke.port (row_at (row_lists rows.old) spoke.child) }
    ensures rows { OnOk result
        (row_lists rows.new
        ≡ slice_set (row_lists rows.old) spoke.child (row_with spoke.port told (row_at (row_lists rows.old) spoke.child))) }
    ensures number { IfOk result (λ n. n ≡ number_in spoke.port (row_at (row_lists rows.old) spoke.child)) }
{
    let number = add_to_row(&mut rows.lists[spoke.child as usize], spoke.port, told)?;
    Ok(number)
}

// The spots of a child's ports, without ends.
fn port_row(alloc: Global, count: usize) -> Result<Vec<Spot>, AllocError>
    requires { count ≤ 2 ^ 16 }
    ensures { IfOk result (λ row. row.items ≡ map (λ k. bare (Some k) k) (range_with_len 0 count)) }
{
    let mut row: Vec<Spot> = Vec::with_capacity(alloc, count)?;
    for k in 0..count {
        row.push(bare(Some(k as u32), k as u32))?;
    }
    Ok(row)
}

/// By child, the spots of its ports, which no edge leaves or enters yet.
pub fn port_rows(alloc: Global, level: &LevelIn) -> Result<Vec<Vec<Spot>>, AllocError>
    requires { IsLevel (plain_level level.now) }
    ensures { IfOk result (λ rows. ArePortRows (plain_level level.now) (length level.now.children) (lists_of rows.items)) }
{
    let children = level.children.as_slice();
    let mut lists: Vec<Vec<Spot>> = Vec::with_capacity(alloc, children.len())?;
    for child in children {
        let row = port_row(alloc, child.ports.len())?;
        lists.push(row)?;
    }
    Ok(lists)
}

// Adds the two ends of an edge.
fn add_edge(
    spots: &mut Spots,
    level: &LevelIn,
    courses: &[Course],
    edge: usize,
) -> Result<(), AllocError>
    requires level { IsLevel (plain_level level.now) }
    requires courses { (p : PlainPlan) × AreCourses (plain_level level.now) p (length level.now.edges) courses.now }
    requires edge { edge < length level.now.edges }
    requires so_far { AreSpotsTo (plain_level level.now) courses.now edge spots.old }
    ensures { OnOk result (AreSpotsTo (plain_level level.now) courses.now (edge + 1) spots.new) }
{
    let found = *level.edges.at(edge);
    let course = courses[edge];
    let source = add_end(&mut spots.rows, found.source, told_by(course, true))?;
    let target = add_end(&mut spots.rows, found.target, told_by(course, false))?;
    spots.numbers.push(source)?;
    spots.numbers.push(target)?;
    Ok(())
}

/// The spots of a level's children, and the number of each end's spot.
pub(crate) fn spots_of(
    alloc: Global,
    level: &LevelIn,
    courses: &[Course],
) -> Result<Spots, AllocError>
    requires level { IsLevel (plain_level level.now) }
    requires courses { (p : PlainPlan) × AreCourses (plain_level level.now) p (length level.now.edges) courses.now }
    ensures { IfOk result
        (λ spots. (p : PlainPlan) → AreCourses (plain_level level.now) p (length level.now.edges) courses.now
        → AreSpotsOf (plain_level level.now) p spots) }
{
    let count = level.edges.len();
    let mut spots = Spots {
        rows: Rows {
            lists: port_rows(alloc, level)?,
        },
        numbers: Vec::with_capacity(alloc, 2 * count)?,
    };
    for edge in 0..count {
        add_edge(&mut spots, level, courses, edge)?;
    }
    Ok(spots)
}
