//! Distances of parts.
ghost use Rattle.std.specs.Prelude.{◌≡◌, ◌↔◌, ◌<◌, ℕ, IsTrue, MatchOption, length};
ghost use Rattle.elk_doc.specs.Apart.{PartsApart};
ghost use Rattle.elk_doc.specs.Drawing.{part_in};
ghost use Rattle.drawing_types.specs.Shapes.{point_rect};
ghost use Rattle.elk_doc.specs.Sound.{IsSound};
ghost use Rattle.layout_check.specs.Faults.{IsFirst};
ghost use Rattle.layout_check.specs.Names.{AreNames};
ghost use Rattle.layout_check.specs.FirstApart.{FirstPair, IsBeyond, IsLeastOfPart, OutlineBeyond, OutlineClear, PartBeyond, PartsBeyond, PartsClear, PartsHold, RouteBeyond, RouteClear, SectionBeyond, SectionClear};
ghost use Rattle.layout_check.specs.Levels.{AreNumbered, IsReadLevel, at_level, doc_of};

use crate::Place;
use crate::distances::is_beyond;
use crate::fault::Fault;
use crate::level::Level;
use crate::parts::is_leader;
use crate::read::{is_edge_of, point_at, point_count};
use crate::scene::outline_at;
use drawing_types::section::Section;
use drawing_types::shape::{Point, Rect};
use elk_doc::document::LevelOptions;
use elk_doc::form::is_child;
use elk_doc::level::node_of;

// A point as a rectangle without size.
pub(crate) fn point_rect(point: Point) -> Rect
    ensures { result ≡ point_rect point }
{
    Rect {
        x: point.x,
        y: point.y,
        width: 0,
        height: 0,
    }
}

// The written part of a node, of the list of all.
pub(crate) fn part_at(level: &Level<'_>, child: u32) -> u32
    requires child_in { child < length (doc_of level.now).nodes }
    requires level { IsReadLevel level.now }
    ensures { result ≡ part_in (doc_of level.now) level.now.node level.now.certificate.now child }
{
    level.parts[child as usize]
}

// Whether one rectangle lies beyond another with the room of components.
fn comes_beyond(options: &LevelOptions, across: bool, r: Rect, s: Rect) -> bool
    ensures { IsTrue result ↔ IsBeyond across options.now.component options.now.direction r s }
{
    is_beyond(across, options.component, options.direction, r, s)
}

// Whether a route lies beyond a rectangle.
fn section_beyond(options: &LevelOptions, across: bool, r: Rect, section: &Section) -> bool
    ensures { IsTrue result ↔ SectionBeyond options.now across r section.now }
{
    for i in 0..point_count(section) {
        if !comes_beyond(options, across, r, point_rect(point_at(section, i))) {
            return false;
        }
    }
    true
}

// Whether a node, if it is a child of part j, lies beyond a rectangle.
fn outline_beyond(level: &Level<'_>, across: bool, r: Rect, j: u32, child: u32) -> bool
    requires child_in { child < length (doc_of level.now).nodes }
    requires level { IsReadLevel level.now }
    ensures { IsTrue result ↔ at_level OutlineBeyond level.now across r j child }
{
    if !is_child(level.scene.doc, level.node, child) {
        return true;
    }
    if part_at(level, child) != j {
        return true;
    }
    comes_beyond(level.options, across, r, outline_at(level.scene, child))
}

// Whether all children of part j lie beyond a rectangle.
fn outlines_beyond(level: &Level<'_>, across: bool, r: Rect, j: u32) -> bool
    requires level { IsReadLevel level.now }
    ensures { IsTrue result ↔ ((b : ℕ) → at_level OutlineBeyond level.now across r j b) }
{
    for child in 0..level.scene.doc.nodes().len() {
        if !outline_beyond(level, across, r, j, child as u32) {
            return false;
        }
    }
    true
}

// Whether an edge, if it belongs to part j, has its route beyond a rectangle.
fn route_beyond(level: &Level<'_>, across: bool, r: Rect, j: u32, edge: u32) -> bool
    requires edge_in { edge < length (doc_of level.now).edges }
    requires level { IsReadLevel level.now }
    ensures { IsTrue result ↔ at_level RouteBeyond level.now across r j edge }
{
    if !is_edge_of(level.scene.doc, level.node, edge) {
        return true;
    }
    let source = node_of(level.scene.doc, level.scene.doc.edge(edge).source);
    if part_at(level, source) != j {
        return true;
    }
    section_beyond(level.options, across, r, level.scene.placed.section(edge))
}

// Whether the routes of all edges of part j lie beyond a rectangle.
fn routes_beyond(level: &Level<'_>, across: bool, r: Rect, j: u32) -> bool
    requires level { IsReadLevel level.now }
    ensures { IsTrue result ↔ ((e : ℕ) → at_level RouteBeyond level.now across r j e) }
{
    for edge in 0..level.scene.doc.edges().len() {
        if !route_beyond(level, across, r, j, edge as u32) {
            return false;
        }
    }
    true
}

// Whether all of part j lies beyond a rectangle.
fn part_beyond(level: &Level<'_>, across: bool, r: Rect, j: u32) -> bool
    requires level { IsReadLevel level.now }
    ensures { IsTrue result ↔ at_level PartBeyond level.now across r j }
{
    if !outlines_beyond(level, across, r, j) {
        return false;
    }
    routes_beyond(level, across, r, j)
}

// Whether part j lies beyond a node, if that is a child of part i.
fn outline_clear(level: &Level<'_>, across: bool, i: u32, j: u32, child: u32) -> bool
    requires child_in { child < length (doc_of level.now).nodes }
    requires level { IsReadLevel level.now }
    ensures { IsTrue result ↔ at_level OutlineClear level.now across i j child }
{
    if !is_child(level.scene.doc, level.node, child) {
        return true;
    }
    if part_at(level, child) != i {
        return true;
    }
    let outline = outline_at(level.scene, child);
    part_beyond(level, across, outline, j)
}

// Whether part j lies beyond all children of part i.
fn outlines_clear(level: &Level<'_>, across: bool, i: u32, j: u32) -> bool
    requires level { IsReadLevel level.now }
    ensures { IsTrue result ↔ ((a : ℕ) → at_level OutlineClear level.now across i j a) }
{
    for child in 0..level.scene.doc.nodes().len() {
        if !outline_clear(level, across, i, j, child as u32) {
            return false;
        }
    }
    true
}

// Whether part j lies beyond all points of a route.
fn section_clear(level: &Level<'_>, across: bool, j: u32, section: &Section) -> bool
    requires level { IsReadLevel level.now }
    ensures { IsTrue result ↔ at_level SectionClear level.now across j section.now }
{
    for t in 0..point_count(section) {
        let point = point_rect(point_at(section, t));
        if !part_beyond(level, across, point, j) {
            return false;
        }
    }
    true
}

// Whether part j lies beyond the route of an edge, if that belongs to part i.
fn route_clear(level: &Level<'_>, across: bool, i: u32, j: u32, edge: u32) -> bool
    requires edge_in { edge < length (doc_of level.now).edges }
    requires level { IsReadLevel level.now }
    ensures { IsTrue result ↔ at_level RouteClear level.now across i j edge }
{
    if !is_edge_of(level.scene.doc, level.node, edge) {
        return true;
    }
    let source = node_of(level.scene.doc, level.scene.doc.edge(edge).source);
    if part_at(level, source) != i {
        return true;
    }
    section_clear(level, across, j, level.scene.placed.section(edge))
}

// Whether part j lies beyond all routes of part i.
fn routes_clear(level: &Level<'_>, across: bool, i: u32, j: u32) -> bool
    requires level { IsReadLevel level.now }
    ensures { IsTrue result ↔ ((e : ℕ) → at_level RouteClear level.now across i j e) }
{
    for edge in 0..level.scene.doc.edges().len() {
        if !route_clear(level, across, i, j, edge as u32) {
            return false;
        }
    }
    true
}

// Whether all of part j lies beyond all of part i.
fn is_part_beyond(level: &Level<'_>, across: bool, i: u32, j: u32) -> bool
    requires level { IsReadLevel level.now }
    ensures { IsTrue result ↔ at_level PartsBeyond level.now across i j }
{
    if !outlines_clear(level, across, i, j) {
        return false;
    }
    routes_clear(level, across, i, j)
}

// Whether one part lies left of another or above it.
fn parts_clear(level: &Level<'_>, i: u32, j: u32) -> bool
    requires level { IsReadLevel level.now }
    ensures { IsTrue result ↔ at_level PartsClear level.now i j }
{
    if is_part_beyond(level, true, i, j) {
        return true;
    }
    is_part_beyond(level, false, i, j)
}

// Whether one of two parts lies left of the other or above it.
fn parts_apart(level: &Level<'_>, i: u32, j: u32) -> bool
    requires level { IsReadLevel level.now }
    ensures { IsTrue result ↔ at_level PartsApart level.now i j }
{
    if parts_clear(level, i, j) {
        return true;
    }
    parts_clear(level, j, i)
}

// Whether a node is the least child of its part.
fn is_least(level: &Level<'_>, names: &[u32], child: u32) -> bool
    requires sound { IsSound (doc_of level.now) }
    requires child_in { child < length (doc_of level.now).nodes }
    requires split { IsTrue level.now.options.now.split }
    requires names { AreNames (doc_of level.now) level.now.node names.now }
    requires right { AreNumbered level.now }
    ensures { IsTrue result ↔ IsLeastOfPart (doc_of level.now) level.now.node level.now.certificate.now child }
{
    is_leader(level.scene.doc, level.node, names, child)
}

// Whether two nodes, if they are the least children of two parts, the other of greater number, have parts that are apart.
fn parts_hold(level: &Level<'_>, names: &[u32], one: u32, other: u32) -> bool
    requires sound { IsSound (doc_of level.now) }
    requires one_in { one < length (doc_of level.now).nodes }
    requires other_in { other < length (doc_of level.now).nodes }
    requires level { IsReadLevel level.now }
    requires names { AreNames (doc_of level.now) level.now.node names.now }
    requires right { AreNumbered level.now }
    ensures { IsTrue result ↔ at_level PartsHold level.now one other }
{
    if !level.options.split {
        return true;
    }
    if other <= one {
        return true;
    }
    if !is_least(level, names, one) {
        return true;
    }
    if !is_least(level, names, other) {
        return true;
    }
    let i = part_at(level, one);
    let j = part_at(level, other);
    parts_apart(level, i, j)
}

// The first least child of greater number whose part is too near to that of another.
fn first_part_near(level: &Level<'_>, names: &[u32], one: u32) -> Option<u32>
    requires one_in { one < length (doc_of level.now).nodes }
    requires level { IsReadLevel level.now }
    requires names { AreNames (doc_of level.now) level.now.node names.now }
    requires right { AreNumbered level.now }
    ensures { IsFirst (at_level PartsHold level.now one) result }
{
    for other in 0..level.scene.doc.nodes().len() {
        let holds = parts_hold(level, names, one, other as u32);
        if !holds {
            return Some(other as u32);
        }
    }
    None
}

// The least children of the first two parts that are too near.
pub(crate) fn part_fault(level: &Level<'_>, names: &[u32]) -> Option<Fault>
    requires level { IsReadLevel level.now }
    requires names { AreNames (doc_of level.now) level.now.node names.now }
    requires right { AreNumbered level.now }
    ensures { MatchOption result
        ((a b : ℕ) → at_level PartsHold level.now a b)
        (FirstPair (at_level PartsHold level.now)) }
{
    if !level.options.split {
        return None;
    }
    for one in 0..level.scene.doc.nodes().len() {
        let found = first_part_near(level, names, one as u32);
        if let Some(other) = found {
            return Some(Fault {
                first: Place::Node(one as u32),
                second: Place::Node(other),
            });
        }
    }
    None
}
