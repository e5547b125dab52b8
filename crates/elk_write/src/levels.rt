// Certificates of levels as they stand in a placed value.
ghost use Rattle.std.specs.Prelude.{◌≡◌, ◌<◌, IfOk, option_map, option_and_then};
ghost use Rattle.serde_json.specs.Find.{get};
ghost use Rattle.serde_json.specs.View.{view, items_view};
ghost use Rattle.elk_json.specs.Ends.{is_same_id as same_id_test};
ghost use Rattle.elk_json.specs.Keys.{key_id};
ghost use Rattle.elk_write.specs.Reading.{all_in, are_listable as listable_test, certificate_in as certificate_spec, certificate_with as certificate_spec_of, counted, edge_named as edge_named_spec, first_number, flow_in as flow_spec, is_ascending as ascending_test, is_listable as one_listable_test, large_in as large_spec, layers_in as layers_spec, list_in, parts_in as parts_spec, reversed_in as reversed_spec, small_in as small_spec};

use crate::reading::{large_in, read_each, small_in};
use drawing_types::list::Items;
use elk_doc::document::{Doc, Id};
use elk_doc::drawing::Certificate;
use elk_doc::form::{child_count, edge_count};
use elk_doc::level::{is_loop, level_of};
use elk_json::key::Key;
use serde_json::Value;
use std::alloc::{AllocError, Global};

fn small_numbers(alloc: Global, items: &Vec<Value>) -> Result<Option<Vec<u32>>, AllocError>
    ensures { IfOk result (λ o. option_map (λ v. v.items) o ≡ all_in small_spec (items_view items.now.items)) }
{
    read_each(alloc, items, small_in)
}

fn large_numbers(alloc: Global, items: &Vec<Value>) -> Result<Option<Vec<u64>>, AllocError>
    ensures { IfOk result (λ o. option_map (λ v. v.items) o ≡ all_in large_spec (items_view items.now.items)) }
{
    read_each(alloc, items, large_in)
}

// So many numbers of a member, each of 32 bits.
fn small_list(
    alloc: Global,
    value: &Value,
    key: &str,
    count: usize,
) -> Result<Option<Vec<u32>>, AllocError>
    ensures { IfOk result
        (λ o. option_map (λ v. v.items) o
        ≡ option_and_then (counted count) (option_and_then (list_in small_spec) (get key.now (view value.now)))) }
{
    match value.get(key).and_then(Value::as_array) {
        None => Ok(None),
        Some(items) => match small_numbers(alloc, items)? {
            Some(numbers) if numbers.len() == count => Ok(Some(numbers)),
            _ => Ok(None),
        },
    }
}

fn layers_in(
    alloc: Global,
    doc: &Doc,
    node: u32,
    value: &Value,
) -> Result<Option<Vec<u32>>, AllocError>
    ensures { IfOk result (λ o. option_map (λ v. v.items) o ≡ layers_spec doc.now node (view value.now)) }
{
    small_list(alloc, value, "layers", child_count(doc, node))
}

fn parts_in(
    alloc: Global,
    doc: &Doc,
    node: u32,
    split: bool,
    value: &Value,
) -> Result<Option<Vec<u32>>, AllocError>
    ensures { IfOk result (λ o. option_map (λ v. v.items) o ≡ parts_spec doc.now node split (view value.now)) }
{
    if split {
        small_list(alloc, value, "parts", child_count(doc, node))
    } else {
        Ok(Some(Vec::new(alloc)))
    }
}

fn flow_in(
    alloc: Global,
    doc: &Doc,
    node: u32,
    value: &Value,
) -> Result<Option<Vec<u64>>, AllocError>
    ensures { IfOk result (λ o. option_map (λ v. v.items) o ≡ flow_spec doc.now node (view value.now)) }
{
    match value.get("flow").and_then(Value::as_array) {
        None => Ok(None),
        Some(items) => match large_numbers(alloc, items)? {
            Some(numbers) if numbers.len() == edge_count(doc, node) => Ok(Some(numbers)),
            _ => Ok(None),
        },
    }
}

fn is_id(key: &Key<'_>, id: &Id) -> bool
    ensures { result ≡ same_id_test (key_id key.now) id.now }
{
    match key {
        Key::Text(text) => match id {
            Id::Text(name) => *text == name.as_str(),
            Id::Whole(_) => false,
        },
        Key::Whole(whole) => match id {
            Id::Text(_) => false,
            Id::Whole(number) => *whole == *number,
        },
    }
}

// The number of the edge with this id.
fn edge_with(doc: &Doc, key: &Key<'_>) -> Option<u32>
    ensures { result ≡ first_number (λ e. same_id_test (key_id key.now) e.id) 0 doc.now.edges }
{
    for (number, edge) in doc.edges().iter().enumerate() {
        if is_id(key, &edge.id) {
            return Some(number as u32);
        }
    }
    None
}

// The number of the edge that an id names.
fn edge_named(doc: &Doc, value: &Value) -> Option<u32>
    ensures { result ≡ edge_named_spec doc.now (view value.now) }
{
    match value {
        Value::String(text) => edge_with(doc, &Key::Text(text.as_str())),
        Value::Number(number) => match number.as_i128() {
            None => None,
            Some(whole) => edge_with(doc, &Key::Whole(whole)),
        },
        _ => None,
    }
}

fn edges_named(alloc: Global, doc: &Doc, items: &Vec<Value>) -> Result<Option<Vec<u32>>, AllocError>
    ensures { IfOk result (λ o. option_map (λ v. v.items) o ≡ all_in (edge_named_spec doc.now) (items_view items.now.items)) }
{
    read_each(alloc, items, |item| edge_named(doc, item))
}

fn is_ascending(numbers: &[u32]) -> bool
    ensures { result ≡ ascending_test numbers.now }
{
    let mut low = 0;
    for number in numbers {
        let number = *number as u64;
        if low > number {
            return false;
        }
        low = number + 1;
    }
    true
}

fn is_listable(doc: &Doc, node: u32, edge: u32) -> bool
    ensures { result ≡ one_listable_test doc.now node edge }
{
    if edge as usize >= doc.edges().len() {
        return false;
    }
    if level_of(doc, edge) != node {
        return false;
    }
    !is_loop(doc, edge)
}

// Whether the level of a node may list these edges as reversed.
fn are_listable(doc: &Doc, node: u32, edges: &[u32]) -> bool
    ensures { result ≡ listable_test doc.now node edges.now }
{
    if !is_ascending(edges) {
        return false;
    }
    for edge in edges {
        if !is_listable(doc, node, *edge) {
            return false;
        }
    }
    true
}

fn reversed_in(
    alloc: Global,
    doc: &Doc,
    node: u32,
    value: &Value,
) -> Result<Option<Vec<u32>>, AllocError>
    ensures { IfOk result (λ o. option_map (λ v. v.items) o ≡ reversed_spec doc.now node (view value.now)) }
{
    match value.get("reversed").and_then(Value::as_array) {
        None => Ok(None),
        Some(items) => match edges_named(alloc, doc, items)? {
            Some(edges) if are_listable(doc, node, edges.as_slice()) => Ok(Some(edges)),
            _ => Ok(None),
        },
    }
}

fn certificate_from(
    flow: Option<Vec<u64>>,
    layers: Option<Vec<u32>>,
    parts: Option<Vec<u32>>,
    reversed: Option<Vec<u32>>,
    span: Option<u64>,
) -> Option<Certificate>
    ensures { result
        ≡ certificate_spec_of (option_map (λ v. v.items) flow) (option_map (λ v. v.items) layers)
        (option_map (λ v. v.items) parts) (option_map (λ v. v.items) reversed) span }
{
    let flow = flow?;
    let layers = layers?;
    let parts = parts?;
    let reversed = reversed?;
    let span = span?;
    Some(Certificate {
        layers: Items::from_vec(layers),
        reversed: Items::from_vec(reversed),
        flow: Items::from_vec(flow),
        span,
        parts: Items::from_vec(parts),
    })
}

// The certificate of a node's level.
pub(crate) fn certificate_in(
    alloc: Global,
    doc: &Doc,
    node: u32,
    split: bool,
    value: &Value,
) -> Result<Option<Certificate>, AllocError>
    ensures { IfOk result (λ o. o ≡ certificate_spec doc.now node split (view value.now)) }
{
    let flow = flow_in(alloc, doc, node, value)?;
    let layers = layers_in(alloc, doc, node, value)?;
    let parts = parts_in(alloc, doc, node, split, value)?;
    let reversed = reversed_in(alloc, doc, node, value)?;
    let span = value.get("span").and_then(large_in);
    Ok(certificate_from(flow, layers, parts, reversed, span))
}
