// A drawing's parts as JSON.
ghost use Rattle.std.specs.Prelude.{◌≡◌, ◌++◌, IfOk, map, option_map};
ghost use Rattle.serde_json.specs.Data.{put, array};
ghost use Rattle.serde_json.specs.View.{view, members_view, items_of};
ghost use Rattle.elk_write.specs.Values.{wholes, point_data, end_members, with_bends, sections_data, edge_id, edge_ids, number_members as number_members_of, layering_data};

use crate::ids::{id_value, section_name};
use drawing_types::section::Section;
use drawing_types::shape::Point;
use elk_doc::document::{Doc, Edge, Id};
use elk_doc::drawing::Certificate;
use serde_json::Value;
use serde_json::value::Map;
use std::alloc::{AllocError, Global};

// The members with one more, or with another value of it.
#[tactic(auto, using(crate::proofs::Lists::view_insert))]
pub(crate) fn with_member(
    alloc: Global,
    members: Map<String, Value>,
    key: &str,
    value: Value,
) -> Result<Map<String, Value>, AllocError>
    ensures { IfOk result (λ m. members_view m.entries ≡ put key.now (view value) (members_view members.entries)) }
{
    let mut members = members;
    let name = String::from_str(alloc, key)?;
    drop(members.insert(name, value)?);
    Ok(members)
}

pub(crate) fn point_value(alloc: Global, point: Point) -> Result<Value, AllocError>
    ensures { IfOk result (λ v. view v ≡ point_data point) }
{
    let members = with_member(alloc, Map::new(alloc), "x", Value::from(point.x))?;
    let members = with_member(alloc, members, "y", Value::from(point.y))?;
    Ok(Value::Object(members))
}

fn point_values(alloc: Global, points: &[Point]) -> Result<Value, AllocError>
    ensures { IfOk result (λ v. view v ≡ array (items_of (map point_data points.now))) }
{
    let mut values = Vec::with_capacity(alloc, points.len())?;
    for point in points {
        values.push(point_value(alloc, *point)?)?;
    }
    Ok(Value::Array(values))
}

fn end_values(alloc: Global, id: &Id, section: &Section) -> Result<Map<String, Value>, AllocError>
    ensures { IfOk result (λ m. members_view m.entries ≡ end_members id.now section.now) }
{
    let name = section_name(alloc, id)?;
    let members = with_member(alloc, Map::new(alloc), "id", Value::String(name))?;
    let start = point_value(alloc, section.start)?;
    let members = with_member(alloc, members, "startPoint", start)?;
    let end = point_value(alloc, section.end)?;
    with_member(alloc, members, "endPoint", end)
}

fn section_members(
    alloc: Global,
    id: &Id,
    section: &Section,
) -> Result<Map<String, Value>, AllocError>
    ensures { IfOk result (λ m. members_view m.entries ≡ with_bends section.now.bends (end_members id.now section.now)) }
{
    let members = end_values(alloc, id, section)?;
    let points = section.bends.as_slice();
    if points.is_empty() {
        return Ok(members);
    }
    let bends = point_values(alloc, points)?;
    with_member(alloc, members, "bendPoints", bends)
}

// The array of an edge's one section.
pub(crate) fn sections_value(alloc: Global, id: &Id, section: &Section) -> Result<Value, AllocError>
    ensures { IfOk result (λ v. view v ≡ sections_data id.now section.now) }
{
    let mut sections = Vec::with_capacity(alloc, 1)?;
    let members = section_members(alloc, id, section)?;
    sections.push(Value::Object(members))?;
    Ok(Value::Array(sections))
}

fn small_values(alloc: Global, numbers: &[u32]) -> Result<Value, AllocError>
    ensures { IfOk result (λ v. view v ≡ wholes numbers.now) }
{
    let mut values = Vec::with_capacity(alloc, numbers.len())?;
    for number in numbers {
        values.push(Value::from(*number))?;
    }
    Ok(Value::Array(values))
}

fn large_values(alloc: Global, numbers: &[u64]) -> Result<Value, AllocError>
    ensures { IfOk result (λ v. view v ≡ wholes numbers.now) }
{
    let mut values = Vec::with_capacity(alloc, numbers.len())?;
    for number in numbers {
        values.push(Value::from(*number))?;
    }
    Ok(Value::Array(values))
}

fn id_values(alloc: Global, doc: &Doc, edges: &[u32]) -> Result<Value, AllocError>
    ensures { IfOk result (λ v. view v ≡ array (items_of (edge_ids doc.now edges.now))) }
{
    let mut values = Vec::with_capacity(alloc, edges.len())?;
    for edge in edges {
        values = with_id(alloc, values, doc.edges().get(*edge as usize))?;
    }
    Ok(Value::Array(values))
}

fn with_id(alloc: Global, values: Vec<Value>, edge: Option<&Edge>) -> Result<Vec<Value>, AllocError>
    ensures { IfOk result (λ v. map view v.items ≡ map view values.items ++ edge_id (option_map (λ e. e.now) edge.entry)) }
{
    let mut values = values;
    if let Some(edge) = edge {
        values.push(id_value(alloc, &edge.id)?)?;
    }
    Ok(values)
}

// The members of a certificate that speak of nodes, or of edges by their numbers.
fn number_members(
    alloc: Global,
    certificate: &Certificate,
) -> Result<Map<String, Value>, AllocError>
    ensures { IfOk result (λ m. members_view m.entries ≡ number_members_of certificate.now) }
{
    let flow = large_values(alloc, certificate.flow.as_slice())?;
    let members = with_member(alloc, Map::new(alloc), "flow", flow)?;
    let layers = small_values(alloc, certificate.layers.as_slice())?;
    let members = with_member(alloc, members, "layers", layers)?;
    with_member(alloc, members, "span", Value::from(certificate.span))
}

// The certificate of a level.
pub(crate) fn layering_value(
    alloc: Global,
    doc: &Doc,
    split: bool,
    certificate: &Certificate,
) -> Result<Value, AllocError>
    ensures { IfOk result (λ v. view v ≡ layering_data doc.now split certificate.now) }
{
    let members = number_members(alloc, certificate)?;
    let reversed = id_values(alloc, doc, certificate.reversed.as_slice())?;
    let members = with_member(alloc, members, "reversed", reversed)?;
    if !split {
        return Ok(Value::Object(members));
    }
    let parts = small_values(alloc, certificate.parts.as_slice())?;
    Ok(Value::Object(with_member(alloc, members, "parts", parts)?))
}
