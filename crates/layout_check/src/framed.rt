//! Children in the order of their parts, their layers and their upper borders: a quick test of all pairs at once.
ghost use Rattle.std.specs.Prelude.{◌≡◌, ◌<◌, ◌^◌, ◌+ℤ◌, ◌≤ℤ◌, ℕ, Contains, IfOk, IfSome, IsTrue, if◌then◌else◌, length, neg_ℤ, pos};
ghost use Rattle.elk_doc.specs.Level.{IsChild};
ghost use Rattle.drawing_types.specs.Ranges.{IsWithin};
ghost use Rattle.layout_check.specs.FirstApart.{LayersHold};
ghost use Rattle.layout_check.specs.Levels.{IsReadLevel, at_level, doc_of};
ghost use Rattle.layout_check.specs.Framed.{Advances, ArePairsApart, framed_child, part_of};

use crate::beyond::part_at;
use crate::distances::{bottom, left, right, top};
use crate::level::Level;
use crate::scene::outline_at;
use elk_doc::form::is_child;
use std::alloc::{AllocError, Global};

// A child in the frame of its level's direction, with the asked room right of it and below.
#[derive(Clone, Copy)]
pub(crate) struct FramedChild {
    pub node: u32,
    pub part: u32,
    pub layer: u32,
    pub left: i128,
    pub right: i128,
    pub top: i128,
    pub bottom: i128,
}

// How far the children reach that were looked at: the greatest part and its greatest layer so far, and of that part's
// children the borders of those of lower layers, of all of them, and of those of the layer.
#[derive(Clone, Copy)]
pub(crate) struct Front {
    pub part: u32,
    pub layer: u32,
    pub behind: i128,
    pub right: i128,
    pub bottom: i128,
}

// The part in which a child lies, and 0 where the level is not split.
fn part_of(level: &Level<'_>, child: u32) -> u32
    requires child_in { child < length (doc_of level.now).nodes }
    requires level { IsReadLevel level.now }
    ensures { result ≡ part_of (doc_of level.now) level.now.node level.now.options.now level.now.certificate.now child }
{
    if level.options.split {
        part_at(level, child)
    } else {
        0
    }
}

// A border and the room that is asked there.
fn with_room(border: i128, room: i64) -> i128
    requires { IsWithin (neg_ℤ (pos (2 ^ 65))) (pos (2 ^ 65)) border }
    ensures { result ≡ border +ℤ room }
{
    border + i128::from(room)
}

// A child in the frame of its level's direction.
fn framed_child(level: &Level<'_>, child: u32) -> FramedChild
    requires child_in { child < length (doc_of level.now).nodes }
    requires level { IsReadLevel level.now }
    ensures { result ≡ framed_child (doc_of level.now) level.now.scene.now.placed.now level.now.node level.now.options.now level.now.certificate.now child }
{
    let outline = outline_at(level.scene, child);
    let way = level.options.direction;
    FramedChild {
        node: child,
        part: part_of(level, child),
        layer: level.layers[child as usize],
        left: left(way, outline),
        right: with_room(right(way, outline), level.options.spacing.node_layers),
        top: i128::from(top(way, outline)),
        bottom: with_room(bottom(way, outline), level.options.spacing.node_node),
    }
}

// All children of a level.
fn framed_children(alloc: Global, level: &Level<'_>) -> Result<Vec<FramedChild>, AllocError>
    requires level { IsReadLevel level.now }
    ensures { IfOk result (λ children.
        (a : ℕ) → IsChild (doc_of level.now) level.now.node a → Contains children.items (framed_child (doc_of level.now) level.now.scene.now.placed.now level.now.node level.now.options.now level.now.certificate.now a)) }
{
    let mut children = Vec::new(alloc);
    for child in 0..level.scene.doc.nodes().len() {
        if is_child(level.scene.doc, level.node, child as u32) {
            children.push(framed_child(level, child as u32))?;
        }
    }
    Ok(children)
}

// The greater of two borders.
fn further(one: i128, other: i128) -> i128
    ensures one { one ≤ℤ result }
    ensures other { other ≤ℤ result }
{
    if one < other { other } else { one }
}

// The front, moved on by the first child of a greater part.
fn in_new_part(_front: Front, child: FramedChild) -> Front
    requires { _front.part < child.part }
    ensures { Advances _front child result }
{
    Front {
        part: child.part,
        layer: child.layer,
        behind: i128::MIN,
        right: child.right,
        bottom: child.bottom,
    }
}

// The front, moved on by the first child of a greater layer, unless that stands too near to a lower one.
fn in_new_layer(front: Front, child: FramedChild) -> Option<Front>
    requires part { front.part ≡ child.part }
    requires layer { front.layer < child.layer }
    ensures { IfSome result (Advances front child) }
{
    if child.left < front.right {
        return None;
    }
    Some(Front {
        part: child.part,
        layer: child.layer,
        behind: front.right,
        right: further(front.right, child.right),
        bottom: child.bottom,
    })
}

// The front, moved on by a child of its layer, unless that stands too near to a lower layer or above another.
fn in_layer(front: Front, child: FramedChild) -> Option<Front>
    requires part { front.part ≡ child.part }
    requires layer { front.layer ≡ child.layer }
    ensures { IfSome result (Advances front child) }
{
    if child.left < front.behind {
        return None;
    }
    if child.top < front.bottom {
        return None;
    }
    Some(Front {
        part: child.part,
        layer: child.layer,
        behind: front.behind,
        right: further(front.right, child.right),
        bottom: further(front.bottom, child.bottom),
    })
}

// The front, moved on by a child, unless that is of a lower part or layer, or stands too near.
fn advance(front: Front, child: FramedChild) -> Option<Front>
    ensures { IfSome result (Advances front child) }
{
    if front.part < child.part {
        return Some(in_new_part(front, child));
    }
    if child.part < front.part {
        return None;
    }
    if front.layer < child.layer {
        return in_new_layer(front, child);
    }
    if child.layer < front.layer {
        return None;
    }
    in_layer(front, child)
}

// Whether all pairs keep their distances, as far as a look at one child after the other tells.
fn are_pairs_apart(children: &[FramedChild]) -> bool
    ensures { IsTrue result → ArePairsApart children.now }
{
    let mut front = Front {
        part: 0,
        layer: 0,
        behind: i128::MIN,
        right: i128::MIN,
        bottom: i128::MIN,
    };
    for i in 0..children.len() {
        match advance(front, children[i]) {
            Some(next) => front = next,
            None => return false,
        }
    }
    true
}

// Whether any two children of one part keep their distances, by one look at each in their order. Where that doesn't tell,
// they may yet.
pub(crate) fn quickly_spaced(alloc: Global, level: &Level<'_>) -> Result<bool, AllocError>
    requires level { IsReadLevel level.now }
    ensures { IfOk result (λ spaced. IsTrue spaced → (a b : ℕ) → at_level LayersHold level.now a b) }
{
    if level.options.boxes {
        return Ok(true);
    }
    let mut children = framed_children(alloc, level)?;
    children.sort_by_key(|child| (child.part, child.layer, child.top))?;
    Ok(are_pairs_apart(children.as_slice()))
}
