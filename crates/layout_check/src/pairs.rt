//! Distances of pairs of children.
ghost use Rattle.std.specs.Prelude.{◌≡◌, ◌↔◌, ◌<◌, ℕ, IsTrue, MatchOption, length};
ghost use Rattle.elk_doc.specs.Apart.{BoxesApart, LayersApart};
ghost use Rattle.elk_doc.specs.Drawing.{part_in};
ghost use Rattle.layout_check.specs.Faults.{IsFirst};
ghost use Rattle.layout_check.specs.FirstApart.{BothApart, BoxesHold, FirstPair, LayersHold, LevelApart, MayBeNear};
ghost use Rattle.layout_check.specs.Levels.{IsReadLevel, at_level, doc_of};

use crate::Place;
use crate::distances::{is_beyond, stands_clear};
use crate::fault::Fault;
use crate::level::Level;
use crate::scene::outline_at;
use drawing_types::shape::Rect;
use elk_doc::document::Direction;
use elk_doc::form::is_child;

// Whether one of two rectangles stands above the other.
fn level_apart(gap: i64, way: Direction, r: Rect, s: Rect) -> bool
    ensures { IsTrue result ↔ LevelApart gap way r s }
{
    if is_beyond(false, gap, way, r, s) {
        return true;
    }
    is_beyond(false, gap, way, s, r)
}

// Whether two children stand apart, by their layers.
fn layers_apart(level: &Level<'_>, one: u32, other: u32) -> bool
    requires one_in { one < length (doc_of level.now).nodes }
    requires other_in { other < length (doc_of level.now).nodes }
    requires level { IsReadLevel level.now }
    ensures { IsTrue result ↔ at_level LayersApart level.now one other }
{
    let r = outline_at(level.scene, one);
    let s = outline_at(level.scene, other);
    let way = level.options.direction;
    let first = level.layers[one as usize];
    let second = level.layers[other as usize];
    if first < second {
        return is_beyond(true, level.options.spacing.node_layers, way, r, s);
    }
    if second < first {
        return true;
    }
    level_apart(level.options.spacing.node_node, way, r, s)
}

// Whether two children have one written part, where the level is split.
fn is_one_part(level: &Level<'_>, one: u32, other: u32) -> bool
    requires one_in { one < length (doc_of level.now).nodes }
    requires other_in { other < length (doc_of level.now).nodes }
    requires level { IsReadLevel level.now }
    ensures { IsTrue result
        ↔ (IsTrue level.now.options.now.split
        → part_in (doc_of level.now) level.now.node level.now.certificate.now one
        ≡ part_in (doc_of level.now) level.now.node level.now.certificate.now other) }
{
    if !level.options.split {
        return true;
    }
    level.parts[one as usize] == level.parts[other as usize]
}

// Whether two nodes are children of one part of a level that is not one of boxes, the other of greater number.
fn may_be_near(level: &Level<'_>, one: u32, other: u32) -> bool
    requires one_in { one < length (doc_of level.now).nodes }
    requires other_in { other < length (doc_of level.now).nodes }
    requires level { IsReadLevel level.now }
    ensures { IsTrue result ↔ MayBeNear (doc_of level.now) level.now.node level.now.options.now level.now.certificate.now one other }
{
    if other <= one {
        return false;
    }
    if level.options.boxes {
        return false;
    }
    if !is_child(level.scene.doc, level.node, one) {
        return false;
    }
    if !is_child(level.scene.doc, level.node, other) {
        return false;
    }
    is_one_part(level, one, other)
}

// Whether two children stand apart, whichever of them has the smaller layer.
fn both_apart(level: &Level<'_>, one: u32, other: u32) -> bool
    requires one_in { one < length (doc_of level.now).nodes }
    requires other_in { other < length (doc_of level.now).nodes }
    requires level { IsReadLevel level.now }
    ensures { IsTrue result ↔ at_level BothApart level.now one other }
{
    let apart = layers_apart(level, one, other);
    if !apart {
        return false;
    }
    layers_apart(level, other, one)
}

// Whether two nodes, if they are children of one part, the other of greater number, keep their distances.
fn layers_hold(level: &Level<'_>, one: u32, other: u32) -> bool
    requires one_in { one < length (doc_of level.now).nodes }
    requires other_in { other < length (doc_of level.now).nodes }
    requires level { IsReadLevel level.now }
    ensures { IsTrue result ↔ at_level LayersHold level.now one other }
{
    if !may_be_near(level, one, other) {
        return true;
    }
    both_apart(level, one, other)
}

// The first child of one part and greater number that is too near to a child.
fn first_near(level: &Level<'_>, one: u32) -> Option<u32>
    requires one_in { one < length (doc_of level.now).nodes }
    requires level { IsReadLevel level.now }
    ensures { IsFirst (at_level LayersHold level.now one) result }
{
    if !is_child(level.scene.doc, level.node, one) {
        return None;
    }
    for other in 0..level.scene.doc.nodes().len() {
        let holds = layers_hold(level, one, other as u32);
        if !holds {
            return Some(other as u32);
        }
    }
    None
}

// The first two children of one part that are too near.
pub(crate) fn near_fault(level: &Level<'_>) -> Option<Fault>
    requires level { IsReadLevel level.now }
    ensures { MatchOption result
        ((a b : ℕ) → at_level LayersHold level.now a b)
        (FirstPair (at_level LayersHold level.now)) }
{
    if level.options.boxes {
        return None;
    }
    for one in 0..level.scene.doc.nodes().len() {
        let found = first_near(level, one as u32);
        if let Some(other) = found {
            return Some(Fault {
                first: Place::Node(one as u32),
                second: Place::Node(other),
            });
        }
    }
    None
}

// Whether two boxes stand clear of each other, one way or the other.
fn boxes_apart(level: &Level<'_>, one: u32, other: u32) -> bool
    requires one_in { one < length (doc_of level.now).nodes }
    requires other_in { other < length (doc_of level.now).nodes }
    requires level { IsReadLevel level.now }
    ensures { IsTrue result ↔ BoxesApart (doc_of level.now) level.now.scene.now.placed.now level.now.options.now one other }
{
    let r = outline_at(level.scene, one);
    let s = outline_at(level.scene, other);
    if stands_clear(level.options.spacing.node_node, Direction::Right, r, s) {
        return true;
    }
    stands_clear(level.options.spacing.node_node, Direction::Right, s, r)
}

// Whether two nodes, if they are children of a level of boxes, the other of greater number, keep their distance.
fn boxes_hold(level: &Level<'_>, one: u32, other: u32) -> bool
    requires one_in { one < length (doc_of level.now).nodes }
    requires other_in { other < length (doc_of level.now).nodes }
    requires level { IsReadLevel level.now }
    ensures { IsTrue result ↔ BoxesHold (doc_of level.now) level.now.scene.now.placed.now level.now.node level.now.options.now one other }
{
    if other <= one {
        return true;
    }
    if !level.options.boxes {
        return true;
    }
    if !is_child(level.scene.doc, level.node, one) {
        return true;
    }
    if !is_child(level.scene.doc, level.node, other) {
        return true;
    }
    boxes_apart(level, one, other)
}

// The first box of greater number that is too near to a box.
fn first_box(level: &Level<'_>, one: u32) -> Option<u32>
    requires one_in { one < length (doc_of level.now).nodes }
    requires level { IsReadLevel level.now }
    ensures { IsFirst (BoxesHold (doc_of level.now) level.now.scene.now.placed.now level.now.node level.now.options.now one) result }
{
    if !is_child(level.scene.doc, level.node, one) {
        return None;
    }
    for other in 0..level.scene.doc.nodes().len() {
        if !boxes_hold(level, one, other as u32) {
            return Some(other as u32);
        }
    }
    None
}

// The first two boxes that are too near.
pub(crate) fn box_fault(level: &Level<'_>) -> Option<Fault>
    requires level { IsReadLevel level.now }
    ensures { MatchOption result
        ((a b : ℕ) → BoxesHold (doc_of level.now) level.now.scene.now.placed.now level.now.node level.now.options.now a b)
        (FirstPair (BoxesHold (doc_of level.now) level.now.scene.now.placed.now level.now.node level.now.options.now)) }
{
    if !level.options.boxes {
        return None;
    }
    for one in 0..level.scene.doc.nodes().len() {
        if let Some(other) = first_box(level, one as u32) {
            return Some(Fault {
                first: Place::Node(one as u32),
                second: Place::Node(other),
            });
        }
    }
    None
}
