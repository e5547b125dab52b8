// Ports and edges with their written members.
ghost use Rattle.std.specs.Prelude.{◌≡◌, true, false, IfOk, option_map, bytes_eq};
ghost use Rattle.serde_json.specs.Data.{no_members};
ghost use Rattle.serde_json.specs.View.{view, members_view, items_view};
ghost use Rattle.elk_write.specs.Keys.{is_flat_key as flat_key_test};
ghost use Rattle.elk_write.specs.Answered.{kept_into, with_point, with_sections, port_answer, edge_answer, port_answers, edge_answers};

use crate::marks::{sections_value, with_member};
use crate::numbers::advanced;
use drawing_types::section::Section;
use drawing_types::shape::Point;
use elk_doc::document::{Doc, Edge};
use elk_doc::drawing::Placed;
use serde_json::Value;
use serde_json::value::Map;
use std::alloc::{AllocError, Global};

pub(crate) fn is_key(key: &str, name: &str) -> bool
    ensures { result ≡ bytes_eq key.now name.now }
{
    key == name
}

// Whether a member is written, or removed: at an edge, or at a port.
pub(crate) fn is_flat_key(key: &str, edge: bool) -> bool
    ensures { result ≡ flat_key_test edge key.now }
{
    if edge {
        is_route_key(key)
    } else {
        is_place_key(key)
    }
}

pub(crate) fn is_place_key(key: &str) -> bool
    ensures { result ≡ flat_key_test false key.now }
{
    is_key(key, "x") || is_key(key, "y")
}

fn is_route_key(key: &str) -> bool
    ensures { result ≡ flat_key_test true key.now }
{
    is_key(key, "sections")
        || is_key(key, "bendPoints")
        || is_key(key, "junctionPoints")
        || is_key(key, "sourcePoint")
        || is_key(key, "targetPoint")
}

// The other members of a port or an edge.
fn kept(
    alloc: Global,
    members: &Map<String, Value>,
    edge: bool,
) -> Result<Map<String, Value>, AllocError>
    ensures { IfOk result (λ m. members_view m.entries ≡ kept_into edge no_members (members_view members.now.entries)) }
{
    let mut copies = Map::new(alloc);
    for (key, member) in members.iter() {
        if !is_flat_key(key.as_str(), edge) {
            let copy = member.clone()?;
            copies = with_member(alloc, copies, key.as_str(), copy)?;
        }
    }
    Ok(copies)
}

pub(crate) fn place_members(
    alloc: Global,
    members: Map<String, Value>,
    place: Option<&Point>,
) -> Result<Map<String, Value>, AllocError>
    ensures { IfOk result (λ m. members_view m.entries ≡ with_point (option_map (λ p. p.now) place.entry) (members_view members.entries)) }
{
    match place {
        None => Ok(members),
        Some(place) => {
            let members = with_member(alloc, members, "x", Value::from(place.x))?;
            with_member(alloc, members, "y", Value::from(place.y))
        }
    }
}

fn port_value(alloc: Global, port: &Value, place: Option<&Point>) -> Result<Value, AllocError>
    ensures { IfOk result (λ v. view v ≡ port_answer (option_map (λ p. p.now) place.entry) (view port.now)) }
{
    match port {
        Value::Object(members) => {
            let copies = kept(alloc, members, false)?;
            Ok(Value::Object(place_members(alloc, copies, place)?))
        }
        _ => port.clone(),
    }
}

// The ports of a node, of which the first has the number `first`.
pub(crate) fn port_values(
    alloc: Global,
    ports: &Vec<Value>,
    placed: &Placed,
    first: usize,
) -> Result<Vec<Value>, AllocError>
    ensures { IfOk result (λ v. items_view v.items ≡ port_answers placed.now first (items_view ports.now.items)) }
{
    let places = placed.ports.as_slice();
    let mut copies = Vec::with_capacity(alloc, ports.len())?;
    let mut number = first;
    for port in ports {
        let place = places.get(number);
        copies.push(port_value(alloc, port, place)?)?;
        number = advanced(number, 1)?;
    }
    Ok(copies)
}

fn section_member(
    alloc: Global,
    members: Map<String, Value>,
    edge: Option<&Edge>,
    section: Option<&Section>,
) -> Result<Map<String, Value>, AllocError>
    ensures { IfOk result (λ m. members_view m.entries
        ≡ with_sections (option_map (λ e. e.now) edge.entry) (option_map (λ s. s.now) section.entry) (members_view members.entries)) }
{
    match edge {
        None => Ok(members),
        Some(edge) => match section {
            None => Ok(members),
            Some(section) => {
                let sections = sections_value(alloc, &edge.id, section)?;
                with_member(alloc, members, "sections", sections)
            }
        },
    }
}

fn edge_value(
    alloc: Global,
    value: &Value,
    edge: Option<&Edge>,
    section: Option<&Section>,
) -> Result<Value, AllocError>
    ensures { IfOk result (λ v. view v
        ≡ edge_answer (option_map (λ e. e.now) edge.entry) (option_map (λ s. s.now) section.entry) (view value.now)) }
{
    match value {
        Value::Object(members) => {
            let copies = kept(alloc, members, true)?;
            Ok(Value::Object(section_member(alloc, copies, edge, section)?))
        }
        _ => value.clone(),
    }
}

// The edges that a node declares, of which the first has the number `first`.
pub(crate) fn edge_values(
    alloc: Global,
    edges: &Vec<Value>,
    doc: &Doc,
    placed: &Placed,
    first: usize,
) -> Result<Vec<Value>, AllocError>
    ensures { IfOk result (λ v. items_view v.items ≡ edge_answers doc.now placed.now first (items_view edges.now.items)) }
{
    let known = doc.edges();
    let sections = placed.sections.as_slice();
    let mut copies = Vec::with_capacity(alloc, edges.len())?;
    let mut number = first;
    for edge in edges {
        let named = known.get(number);
        let section = sections.get(number);
        copies.push(edge_value(alloc, edge, named, section)?)?;
        number = advanced(number, 1)?;
    }
    Ok(copies)
}
