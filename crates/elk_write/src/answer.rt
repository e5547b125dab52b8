// A value with the written members.
ghost use Rattle.std.specs.Prelude.{◌≡◌, ◌<◌, ◌≤◌, ◌^◌, false, None, All, IfOk, option_map, option_and_then, slice_get};
ghost use Rattle.serde_json.specs.Data.{no_members, depth};
ghost use Rattle.serde_json.specs.Read.{max_depth};
ghost use Rattle.serde_json.specs.View.{view, members_view, items_view};
ghost use Rattle.elk_json.specs.Members.{has_children as children_test};
ghost use Rattle.serde_json.specs.Written.{has_float};
ghost use Rattle.elk_doc.specs.Drawn.{Drawn};
ghost use Rattle.elk_doc.specs.Fits.{Fits};
ghost use Rattle.elk_json.specs.Document.{IsDocument};
ghost use Rattle.elk_json.specs.Keyed.{IsKeyed};
ghost use Rattle.elk_json.specs.Rules.{refused};
ghost use Rattle.elk_write.specs.Keys.{is_node_key as node_key_test};
ghost use Rattle.elk_write.specs.Numbers.{past_node, past_members, past_member, past_children};
ghost use Rattle.elk_write.specs.Written.{is_split, IsPlacedBy};
ghost use Rattle.elk_write.specs.ReadBack.{SaysBack, IsReadBack, IsHeld, IsHeldLevel};
ghost use Rattle.elk_write.specs.Answered.{with_place, with_size, with_layering, with_node, answer_node as node_answer, answer_into, answer_member as member_answer, answer_children as children_answer, parts_answer};

use crate::marks::{layering_value, with_member};
use crate::numbers::{Numbers, item_count, past_own};
use crate::parts::{edge_values, is_key, is_place_key, port_values};
use drawing_types::shape::Rect;
use elk_doc::document::Doc;
use elk_doc::drawing::{Certificate, Placed};
use serde_json::Value;
use serde_json::value::Map;
use std::alloc::{AllocError, Global};

/// The value with the written members of the drawing: each node's and port's place, each compound node's size and layering,
/// each edge's section. All else stays as it is. The answer says the same drawing, and the same document but for the places
/// of ports; a rule may refuse it, as where a port stands further out than a given one may. Where the drawing obeys its
/// document, no rule does: `placed_of` reads the answer, and the drawing obeys the document that it reads.
///
/// Proved:
/// - For any document and any drawing that fits it, what is written is the input value except for the written members.
/// - These members have the values of the drawing.
/// - What was written describes the same drawing, and the same document except for the places of ports.
/// - If the drawing obeys its document, no rule refuses what was written.
/// - Then the drawing also obeys the document that is read from it, with no more room and no greater spans than it needs.
pub fn answer_value(
    alloc: Global,
    value: &Value,
    doc: &Doc,
    placed: &Placed,
) -> Result<Value, AllocError>
    requires keyed { IsKeyed (view value.now) }
    requires accepted { refused (view value.now) ≡ None }
    requires document { IsDocument doc.now (view value.now) }
    requires fits { Fits doc.now placed.now }
    ensures placed { IfOk result (λ w. IsPlacedBy (view value.now) doc.now placed.now (view w)) }
    ensures keyed { IfOk result (λ w. IsKeyed (view w)) }
    ensures whole { IfOk result (λ w. has_float (view w) ≡ false) }
    ensures nests { IfOk result (λ w. depth (view value.now) ≤ max_depth → depth (view w) ≤ max_depth) }
    ensures read_back { IfOk result (λ w. SaysBack doc.now placed.now (view w)) }
    ensures drawn { IfOk result (λ w. Drawn doc.now placed.now → IsReadBack doc.now placed.now (view w)) }
{
    levels_are_held(placed.levels.as_slice());
    let mut at = Numbers {
        node: 0,
        port: 0,
        edge: 0,
    };
    answer_node(alloc, value, doc, placed, true, &mut at)
}

// What the types of a certificate's numbers say of it.
fn small_numbers_are_held(numbers: &[u32])
    ensures { All (λ n. n < 2 ^ 32) numbers.now }
{}

fn large_numbers_are_held(numbers: &[u64])
    ensures { All (λ n. n < 2 ^ 64) numbers.now }
{}

fn number_is_held(number: u64)
    ensures { number < 2 ^ 64 }
{}

fn certificate_is_held(certificate: &Certificate)
    ensures { IsHeld certificate.now }
{
    small_numbers_are_held(certificate.layers.as_slice());
    small_numbers_are_held(certificate.parts.as_slice());
    large_numbers_are_held(certificate.flow.as_slice());
    number_is_held(certificate.span);
}

fn level_is_held(level: &Option<Certificate>)
    ensures { IsHeldLevel level.now }
{
    if let Some(certificate) = level {
        certificate_is_held(certificate);
    }
}

pub(crate) fn levels_are_held(levels: &[Option<Certificate>])
    ensures { All IsHeldLevel levels.now }
{
    for level in levels {
        level_is_held(level);
    }
}

pub(crate) fn has_children(value: &Value) -> bool
    ensures { result ≡ children_test (view value.now) }
{
    match value.get("children").and_then(Value::as_array) {
        None => false,
        Some(children) => item_count(children) > 0,
    }
}

// Whether a member of a node is written.
pub(crate) fn is_node_key(key: &str, compound: bool) -> bool
    ensures { result ≡ node_key_test compound key.now }
{
    is_place_key(key)
        || (compound && (is_key(key, "width") || is_key(key, "height") || is_key(key, "layering")))
}

// Whether the level of a node is split.
pub(crate) fn is_split_level(doc: &Doc, node: usize) -> bool
    ensures { result ≡ is_split doc.now node }
{
    match doc.nodes().get(node) {
        None => false,
        Some(node) => match node.level {
            None => false,
            Some(level) => level.split,
        },
    }
}

// A node with the numbers `at`, which then are those that follow it and all that stands in it.
#[cycle(answer)]
fn answer_node(
    alloc: Global,
    value: &Value,
    doc: &Doc,
    placed: &Placed,
    root: bool,
    at: &mut Numbers,
) -> Result<Value, AllocError>
    ensures written { IfOk result (λ w. view w ≡ node_answer doc.now placed.now at.old root (view value.now)) }
    ensures numbers { IfOk result (λ _. at.new ≡ past_node at.old (view value.now)) }
{
    let first = *at;
    *at = past_own(first, value)?;
    match value {
        Value::Object(members) => {
            let compound = root || has_children(value);
            let copies = answer_members(alloc, members, doc, placed, first, compound, at)?;
            Ok(Value::Object(node_members(alloc, copies, doc, placed, first.node, compound)?))
        }
        _ => value.clone(),
    }
}

// The other members of a node, with its children, ports and edges written.
#[cycle(answer)]
fn answer_members(
    alloc: Global,
    members: &Map<String, Value>,
    doc: &Doc,
    placed: &Placed,
    first: Numbers,
    compound: bool,
    below: &mut Numbers,
) -> Result<Map<String, Value>, AllocError>
    ensures written { IfOk result (λ m. members_view m.entries
        ≡ answer_into doc.now placed.now first compound below.old no_members (members_view members.now.entries)) }
    ensures numbers { IfOk result (λ _. below.new ≡ past_members below.old (members_view members.now.entries)) }
{
    let mut copies = Map::new(alloc);
    for (key, member) in members.iter() {
        if !is_node_key(key.as_str(), compound) {
            let copy = answer_member(alloc, member, key.as_str(), doc, placed, first, below)?;
            copies = with_member(alloc, copies, key.as_str(), copy)?;
        }
    }
    Ok(copies)
}

#[cycle(answer)]
fn answer_member(
    alloc: Global,
    member: &Value,
    key: &str,
    doc: &Doc,
    placed: &Placed,
    first: Numbers,
    below: &mut Numbers,
) -> Result<Value, AllocError>
    ensures written { IfOk result (λ w. view w ≡ member_answer doc.now placed.now first below.old key.now (view member.now)) }
    ensures numbers { IfOk result (λ _. below.new ≡ past_member key.now below.old (view member.now)) }
{
    match member {
        Value::Array(items) => {
            if is_key(key, "children") {
                Ok(Value::Array(answer_children(alloc, items, doc, placed, below)?))
            } else {
                answer_parts(alloc, items, key, doc, placed, first)
            }
        }
        _ => member.clone(),
    }
}

#[cycle(answer)]
fn answer_children(
    alloc: Global,
    items: &Vec<Value>,
    doc: &Doc,
    placed: &Placed,
    at: &mut Numbers,
) -> Result<Vec<Value>, AllocError>
    ensures written { IfOk result (λ v. items_view v.items ≡ children_answer doc.now placed.now at.old (items_view items.now.items)) }
    ensures numbers { IfOk result (λ _. at.new ≡ past_children at.old (items_view items.now.items)) }
{
    let mut copies = Vec::with_capacity(alloc, items.len())?;
    for item in items {
        copies.push(answer_node(alloc, item, doc, placed, false, at)?)?;
    }
    Ok(copies)
}

// A node's array of ports, of edges, or any other but that of its children.
fn answer_parts(
    alloc: Global,
    items: &Vec<Value>,
    key: &str,
    doc: &Doc,
    placed: &Placed,
    first: Numbers,
) -> Result<Value, AllocError>
    ensures { IfOk result (λ w. view w ≡ parts_answer doc.now placed.now first key.now (items_view items.now.items)) }
{
    if is_key(key, "ports") {
        Ok(Value::Array(port_values(alloc, items, placed, first.port)?))
    } else if is_key(key, "edges") {
        Ok(Value::Array(edge_values(alloc, items, doc, placed, first.edge)?))
    } else {
        Ok(Value::Array(copies(alloc, items)?))
    }
}

fn copies(alloc: Global, items: &Vec<Value>) -> Result<Vec<Value>, AllocError>
    ensures { IfOk result (λ v. items_view v.items ≡ items_view items.now.items) }
{
    let mut copies = Vec::with_capacity(alloc, items.len())?;
    for item in items {
        copies.push(item.clone()?)?;
    }
    Ok(copies)
}

// A node's own written members.
fn node_members(
    alloc: Global,
    members: Map<String, Value>,
    doc: &Doc,
    placed: &Placed,
    node: usize,
    compound: bool,
) -> Result<Map<String, Value>, AllocError>
    ensures { IfOk result (λ m. members_view m.entries ≡ with_node compound doc.now placed.now node (members_view members.entries)) }
{
    let members = place_members(alloc, members, placed.boxes.as_slice().get(node))?;
    if !compound {
        return Ok(members);
    }
    let members = size_members(alloc, members, placed.boxes.as_slice().get(node))?;
    layering_member(alloc, members, doc, placed, node)
}

fn place_members(
    alloc: Global,
    members: Map<String, Value>,
    area: Option<&Rect>,
) -> Result<Map<String, Value>, AllocError>
    ensures { IfOk result (λ m. members_view m.entries ≡ with_place (option_map (λ r. r.now) area.entry) (members_view members.entries)) }
{
    match area {
        None => Ok(members),
        Some(area) => {
            let members = with_member(alloc, members, "x", Value::from(area.x))?;
            with_member(alloc, members, "y", Value::from(area.y))
        }
    }
}

fn size_members(
    alloc: Global,
    members: Map<String, Value>,
    area: Option<&Rect>,
) -> Result<Map<String, Value>, AllocError>
    ensures { IfOk result (λ m. members_view m.entries ≡ with_size (option_map (λ r. r.now) area.entry) (members_view members.entries)) }
{
    match area {
        None => Ok(members),
        Some(area) => {
            let members = with_member(alloc, members, "width", Value::from(area.width))?;
            with_member(alloc, members, "height", Value::from(area.height))
        }
    }
}

fn layering_member(
    alloc: Global,
    members: Map<String, Value>,
    doc: &Doc,
    placed: &Placed,
    node: usize,
) -> Result<Map<String, Value>, AllocError>
    ensures { IfOk result (λ m. members_view m.entries
        ≡ with_layering doc.now (is_split doc.now node) (option_and_then (λ c. c) (slice_get placed.now.levels node)) (members_view members.entries)) }
{
    match placed.levels.as_slice().get(node) {
        Some(Some(certificate)) => {
            let layering = layering_value(alloc, doc, is_split_level(doc, node), certificate)?;
            with_member(alloc, members, "layering", layering)
        }
        _ => Ok(members),
    }
}
