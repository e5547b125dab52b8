//! What the ends of an edge need to know of it.
ghost use Rattle.std.specs.Prelude.{◌≡◌, ◌≢◌, ℕ, ◌<◌, ◌≤◌, ◌^◌, ◌==◌, cond, List, [], length, slice_index, slice_set, IfOk, IsFalse, true};
ghost use Rattle.elk_layers.specs.Layered.{plain, link_at, rows_of, is_child, IsSound, AreRows};
ghost use Rattle.level_model.specs.Conditions.{plain_level, plain_plan, IsLevel};
ghost use Rattle.dock_table.specs.Courses as spec;
ghost use Rattle.dock_table.specs.Courses.{AreFirst, AreCourses, HaveEdges, IsReadable, ReversedAreMarked};

use elk_layers::{Layered, Link, Order, places};
use level_model::{LevelEdge, LevelIn};
use std::alloc::{AllocError, Global};

/// An edge as its ends see it: whether it is a self-loop, whether it is reversed, and, where it is no self-loop, the
/// places in their rows of the unit after its tail and of the unit before its head.
#[derive(Clone, Copy)]
pub(crate) struct Course {
    pub(crate) looped: bool,
    pub(crate) is_reversed: bool,
    pub(crate) after: u32,
    pub(crate) before: u32,
}

// The unit of a link at its head or its tail.
fn near_unit(link: Link, at_head: bool) -> u32
    ensures { result ≡ spec.near_unit link at_head }
{
    if at_head { link.head } else { link.tail }
}

// Notes a link for its edge, where it has a child at its head or its tail.
fn note_link(firsts: &mut [u32], layered: &Layered, link: u32, at_head: bool)
    requires sound { IsSound (plain layered.now) }
    requires link { link < length (plain layered.now).links }
    requires edges { HaveEdges (plain layered.now) (length firsts.old) }
    ensures { firsts.new
        ≡ cond (is_child (plain layered.now) (spec.near_unit (link_at (plain layered.now).links link) at_head))
        (slice_set firsts.old (link_at (plain layered.now).links link).edge link) firsts.old }
{
    let found = layered.links.as_slice()[link as usize];
    let unit = layered.units.as_slice()[near_unit(found, at_head) as usize];
    if unit.child.is_some() {
        firsts[found.edge as usize] = link;
    }
}

// Notes the first link of each edge that has a child at its head or its tail.
fn note_links(firsts: &mut [u32], layered: &Layered, at_head: bool)
    requires sound { IsSound (plain layered.now) }
    requires edges { HaveEdges (plain layered.now) (length firsts.old) }
    requires zero { (e : ℕ) → e < length firsts.old → slice_index firsts.old e ≡ 0 }
    ensures { AreFirst (spec.is_near (plain layered.now) at_head) (length (plain layered.now).links) (length firsts.old) firsts.new }
{
    let mut link = layered.links.as_slice().len();
    'links: while link > 0 {
        link -= 1;
        note_link(firsts, layered, link as u32, at_head);
    }
}

// By edge, the first link of the edge that has a child at its head or its tail.
fn first_links(
    alloc: Global,
    layered: &Layered,
    count: usize,
    at_head: bool,
) -> Result<Vec<u32>, AllocError>
    requires sound { IsSound (plain layered.now) }
    requires edges { HaveEdges (plain layered.now) count }
    ensures { IfOk result (λ firsts. AreFirst (spec.is_near (plain layered.now) at_head) (length (plain layered.now).links) count firsts.items) }
{
    let mut firsts: Vec<u32> = vec![in alloc; 0; count]?;
    note_links(firsts.as_mut_slice(), layered, at_head);
    Ok(firsts)
}

// An edge as its ends see it, by the numbers of its links at its tail and its head.
fn course_of(
    edge: LevelEdge,
    is_reversed: bool,
    links: &[Link],
    place: &[u32],
    first: u32,
    last: u32,
) -> Course
    requires first { edge.source.child ≢ edge.target.child → IsReadable links.now place.now first }
    requires last { edge.source.child ≢ edge.target.child → IsReadable links.now place.now last }
    ensures looped { result.looped ≡ (edge.source.child == edge.target.child) }
    ensures is_reversed { result.is_reversed ≡ is_reversed }
    ensures after { result.after ≡ cond (edge.source.child == edge.target.child) 0 (slice_index place.now (link_at links.now first).head) }
    ensures before { result.before ≡ cond (edge.source.child == edge.target.child) 0 (slice_index place.now (link_at links.now last).tail) }
{
    let looped = edge.is_loop();
    if looped {
        return Course {
            looped,
            is_reversed,
            after: 0,
            before: 0,
        };
    }
    Course {
        looped,
        is_reversed,
        after: place[links[first as usize].head as usize],
        before: place[links[last as usize].tail as usize],
    }
}

/// The edges of a level as their ends see them.
pub(crate) fn courses_of(
    alloc: Global,
    level: &LevelIn,
    layered: &Layered,
    order: &Order,
    is_reversed: &[bool],
) -> Result<Vec<Course>, AllocError>
    requires level { IsLevel (plain_level level.now) }
    requires sound { IsSound (plain layered.now) }
    requires rows { AreRows (plain layered.now) (rows_of order.now) }
    requires is_reversed { (reversed : List ℕ) × ReversedAreMarked (plain_level level.now) is_reversed.now (plain_plan layered.now order.now [] reversed) }
    ensures { IfOk result
        (λ courses. (reversed : List ℕ) → ReversedAreMarked (plain_level level.now) is_reversed.now (plain_plan layered.now order.now [] reversed)
        → AreCourses (plain_level level.now) (plain_plan layered.now order.now [] reversed) (length level.now.edges) courses.items) }
{
    let edges = level.edges.as_slice();
    let place = places(alloc, layered, order)?;
    let firsts = first_links(alloc, layered, edges.len(), false)?;
    let lasts = first_links(alloc, layered, edges.len(), true)?;
    let mut courses: Vec<Course> = Vec::with_capacity(alloc, edges.len())?;
    for (e, edge) in edges.iter().enumerate() {
        courses.push(course_of(
            *edge,
            is_reversed[e],
            layered.links.as_slice(),
            place.as_slice(),
            firsts[e],
            lasts[e],
        ))?;
    }
    Ok(courses)
}
