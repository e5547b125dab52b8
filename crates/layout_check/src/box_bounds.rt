//! Parts that stand apart by the rectangles that hold them: a quick test in front of the one that compares all their shapes.
ghost use Rattle.std.specs.Prelude.{◌<◌, ◌≤ℤ◌, ℕ, IfOk, IsTrue, length};
ghost use Rattle.layout_check.specs.BoxBounds.{BoundsApart, Covers, Encloses, Held, Keeps, OutlineHeld, RouteHeld, SectionHeld, bounds_at};
ghost use Rattle.layout_check.specs.FirstApart.{PartsHold};
ghost use Rattle.layout_check.specs.Levels.{IsReadLevel, at_level, doc_of};

use crate::beyond::{part_at, point_rect};
use crate::distances::{bottom, left, right, top};
use crate::level::Level;
use crate::read::{is_edge_of, point_at, point_count};
use crate::scene::outline_at;
use drawing_types::section::Section;
use drawing_types::shape::Rect;
use elk_doc::document::{Direction, LevelOptions};
use elk_doc::form::is_child;
use elk_doc::level::node_of;
use std::alloc::{AllocError, Global};

// The borders of all shapes of a part in the frame of a direction, the far ones with the room of components behind them.
#[derive(Clone, Copy)]
pub(crate) struct Bounds {
    pub left: i128,
    pub top: i128,
    pub right: i128,
    pub bottom: i128,
}

// Bounds that hold nothing, and lie apart from all others.
fn no_bounds() -> Bounds {
    Bounds {
        left: i128::MAX,
        top: i128::MAX,
        right: i128::MIN,
        bottom: i128::MIN,
    }
}

// The bounds of one rectangle.
fn bounds_of(gap: i64, way: Direction, r: Rect) -> Bounds
    ensures { Encloses gap way result r }
{
    Bounds {
        left: left(way, r),
        top: i128::from(top(way, r)),
        right: right(way, r) + i128::from(gap),
        bottom: bottom(way, r) + i128::from(gap),
    }
}

// A number below two others.
fn lower(one: i128, other: i128) -> i128
    ensures one { result ≤ℤ one }
    ensures other { result ≤ℤ other }
{
    if one < other { one } else { other }
}

// A number above two others.
fn upper(one: i128, other: i128) -> i128
    ensures one { one ≤ℤ result }
    ensures other { other ≤ℤ result }
{
    if one < other { other } else { one }
}

// Bounds that hold two others.
fn join(one: Bounds, other: Bounds) -> Bounds
    ensures one { Covers result one }
    ensures other { Covers result other }
{
    Bounds {
        left: lower(one.left, other.left),
        top: lower(one.top, other.top),
        right: upper(one.right, other.right),
        bottom: upper(one.bottom, other.bottom),
    }
}

// Lets the bounds of a part hold a rectangle, if there are such bounds.
fn add(options: &LevelOptions, bounds: &mut [Bounds], part: u32, r: Rect) -> bool
    ensures kept { Keeps options.now bounds.old bounds.new }
    ensures held { IsTrue result → Held options.now bounds.new part r }
{
    if part as usize >= bounds.len() {
        return false;
    }
    let around = bounds_of(options.component, options.direction, r);
    bounds[part as usize] = join(bounds[part as usize], around);
    true
}

// Lets the bounds of its part hold a node, if that is a child.
fn add_child(level: &Level<'_>, bounds: &mut [Bounds], child: u32) -> bool
    requires child_in { child < length (doc_of level.now).nodes }
    requires level { IsReadLevel level.now }
    ensures kept { Keeps level.now.options.now bounds.old bounds.new }
    ensures held { IsTrue result → at_level OutlineHeld level.now bounds.new child }
{
    if !is_child(level.scene.doc, level.node, child) {
        return true;
    }
    let part = part_at(level, child);
    let outline = outline_at(level.scene, child);
    add(level.options, bounds, part, outline)
}

// Lets the bounds of the parts hold all children.
fn add_children(level: &Level<'_>, bounds: &mut [Bounds]) -> bool
    requires level { IsReadLevel level.now }
    ensures { IsTrue result → (a : ℕ) → at_level OutlineHeld level.now bounds.new a }
{
    for child in 0..level.scene.doc.nodes().len() {
        let held = add_child(level, bounds, child as u32);
        if !held {
            return false;
        }
    }
    true
}

// Lets the bounds of a part hold all points of a route.
fn add_section(options: &LevelOptions, bounds: &mut [Bounds], part: u32, section: &Section) -> bool
    ensures kept { Keeps options.now bounds.old bounds.new }
    ensures held { IsTrue result → SectionHeld options.now bounds.new part section.now }
{
    for i in 0..point_count(section) {
        if !add(options, bounds, part, point_rect(point_at(section, i))) {
            return false;
        }
    }
    true
}

// Lets the bounds of its part hold the route of an edge, if that belongs to the level.
fn add_route(level: &Level<'_>, bounds: &mut [Bounds], edge: u32) -> bool
    requires edge_in { edge < length (doc_of level.now).edges }
    requires level { IsReadLevel level.now }
    ensures kept { Keeps level.now.options.now bounds.old bounds.new }
    ensures held { IsTrue result → at_level RouteHeld level.now bounds.new edge }
{
    if !is_edge_of(level.scene.doc, level.node, edge) {
        return true;
    }
    let source = node_of(level.scene.doc, level.scene.doc.edge(edge).source);
    let part = part_at(level, source);
    add_section(
        level.options,
        bounds,
        part,
        level.scene.placed.section(edge),
    )
}

// Lets the bounds of the parts hold all routes of the level.
fn add_routes(level: &Level<'_>, bounds: &mut [Bounds]) -> bool
    requires level { IsReadLevel level.now }
    ensures kept { Keeps level.now.options.now bounds.old bounds.new }
    ensures held { IsTrue result → (e : ℕ) → at_level RouteHeld level.now bounds.new e }
{
    for edge in 0..level.scene.doc.edges().len() {
        let held = add_route(level, bounds, edge as u32);
        if !held {
            return false;
        }
    }
    true
}

// Whether the one bounds lie left of the others or above them, or the other way round.
fn lie_apart(one: Bounds, other: Bounds) -> bool
    ensures { IsTrue result → BoundsApart one other }
{
    if one.right <= other.left {
        return true;
    }
    if other.right <= one.left {
        return true;
    }
    if one.bottom <= other.top {
        return true;
    }
    other.bottom <= one.top
}

// Whether bounds lie apart from all of greater number.
fn is_apart_from_later(bounds: &[Bounds], i: usize) -> bool
    requires { i < length bounds.now }
    ensures { IsTrue result → (j : ℕ) → i < j → j < length bounds.now → BoundsApart (bounds_at bounds.now i) (bounds_at bounds.now j) }
{
    let one = bounds[i];
    for j in i + 1..bounds.len() {
        if !lie_apart(one, bounds[j]) {
            return false;
        }
    }
    true
}

// Whether any two bounds lie apart.
fn are_apart(bounds: &[Bounds]) -> bool
    ensures { IsTrue result → (i j : ℕ) → i < j → j < length bounds.now → BoundsApart (bounds_at bounds.now i) (bounds_at bounds.now j) }
{
    for i in 0..bounds.len() {
        if !is_apart_from_later(bounds, i) {
            return false;
        }
    }
    true
}

// How many bounds the parts of the children want, of no more than there are nodes.
fn part_count(level: &Level<'_>) -> usize
    requires level { IsReadLevel level.now }
{
    let most = level.scene.doc.nodes().len();
    let mut count = 0;
    for child in 0..most {
        if is_child(level.scene.doc, level.node, child as u32) {
            let part = part_at(level, child as u32) as usize;
            if count <= part && part < most {
                count = part + 1;
            }
        }
    }
    count
}

// Whether any two parts stand apart, by the bounds that hold them. Where they don't, they may yet.
fn are_parts_apart(level: &Level<'_>, bounds: &mut [Bounds]) -> bool
    requires level { IsReadLevel level.now }
    ensures { IsTrue result → (a b : ℕ) → at_level PartsHold level.now a b }
{
    if !add_children(level, bounds) {
        return false;
    }
    if !add_routes(level, bounds) {
        return false;
    }
    are_apart(bounds)
}

// Whether any two parts of a split level stand apart, by the bounds that hold them. Where they don't, they may yet.
pub(crate) fn quickly_apart(alloc: Global, level: &Level<'_>) -> Result<bool, AllocError>
    requires level { IsReadLevel level.now }
    ensures { IfOk result (λ apart. IsTrue apart → (a b : ℕ) → at_level PartsHold level.now a b) }
{
    if !level.options.split {
        return Ok(true);
    }
    let count = part_count(level);
    let mut bounds = vec![in alloc; no_bounds(); count]?;
    let apart = are_parts_apart(level, bounds.as_mut_slice());
    Ok(apart)
}
