// The parts of a drawing, and values as they were read, as tokens of JSON.
ghost use Rattle.std.specs.Prelude.{[], ◌∷◌, OnOk, codes, map, option_map};
ghost use Rattle.json.specs.Token.{key as key_token, string as string_token};
ghost use Rattle.serde_json.specs.Data.{number as number_data, array, object};
ghost use Rattle.serde_json.specs.View.{view, number_view, items_view, members_view, items_of};
ghost use Rattle.elk_write.specs.Tokens.{tokens_of, tokens_of_members, bend_tokens, id_tokens, part_tokens, layer_tokens, reversed_members, Adds};
ghost use Rattle.elk_write.specs.Values.{whole, wholes, point_data, section_id, id_data, end_members, sections_data, edge_ids, layering_data};

use crate::ids::section_name;
use drawing_types::section::Section;
use drawing_types::shape::Point;
use elk_doc::document::{Doc, Edge, Id};
use elk_doc::drawing::Certificate;
use json::Writer;
use serde_json::value::Map;
use serde_json::{Number, Value};
use std::alloc::{AllocError, Global};

// ---- values

// A number. A float is none of an accepted document.
fn put_number(out: &mut Writer, number: &Number) -> Result<(), AllocError>
    ensures { OnOk result (Adds out.old out.new (tokens_of (number_data (number_view number.now)))) }
{
    match number.as_u64() {
        Some(n) => out.u64(n),
        None => match number.as_i64() {
            Some(n) => out.i64(n),
            None => Err(AllocError),
        },
    }
}

#[cycle(put_value)]
pub(crate) fn put_value(out: &mut Writer, value: &Value) -> Result<(), AllocError>
    ensures { OnOk result (Adds out.old out.new (tokens_of (view value.now))) }
{
    match value {
        Value::Null => out.null(),
        Value::Bool(b) => out.boolean(*b),
        Value::Number(number) => put_number(out, number),
        Value::String(text) => out.string(text.as_str()),
        Value::Array(items) => put_array(out, items),
        Value::Object(members) => put_object(out, members),
    }
}

#[cycle(put_value)]
pub(crate) fn put_array(out: &mut Writer, items: &Vec<Value>) -> Result<(), AllocError>
    ensures { OnOk result (Adds out.old out.new (tokens_of (array (items_view items.now.items)))) }
{
    out.begin_array()?;
    for item in items {
        put_value(out, item)?;
    }
    out.end_array()
}

#[cycle(put_value)]
fn put_object(out: &mut Writer, members: &Map<String, Value>) -> Result<(), AllocError>
    ensures { OnOk result (Adds out.old out.new (tokens_of (object (members_view members.now.entries)))) }
{
    out.begin_object()?;
    for (key, member) in members.iter() {
        out.key(key.as_str())?;
        put_value(out, member)?;
    }
    out.end_object()
}

// ---- numbers, points and sections

pub(crate) fn put_whole(out: &mut Writer, number: i64) -> Result<(), AllocError>
    ensures { OnOk result (Adds out.old out.new (tokens_of (whole number))) }
{
    out.i64(number)
}

fn put_coordinate(out: &mut Writer, key: &str, number: i64) -> Result<(), AllocError>
    ensures { OnOk result (Adds out.old out.new (key_token key.now ∷ tokens_of (whole number))) }
{
    out.key(key)?;
    put_whole(out, number)
}

fn put_point(out: &mut Writer, point: Point) -> Result<(), AllocError>
    ensures { OnOk result (Adds out.old out.new (tokens_of (point_data point))) }
{
    out.begin_object()?;
    put_coordinate(out, "x", point.x)?;
    put_coordinate(out, "y", point.y)?;
    out.end_object()
}

fn put_points(out: &mut Writer, points: &[Point]) -> Result<(), AllocError>
    ensures { OnOk result (Adds out.old out.new (tokens_of (array (items_of (map point_data points.now))))) }
{
    out.begin_array()?;
    for point in points {
        put_point(out, *point)?;
    }
    out.end_array()
}

fn put_bend_points(out: &mut Writer, bends: &[Point]) -> Result<(), AllocError>
    ensures { OnOk result (Adds out.old out.new (key_token (codes "bendPoints") ∷ tokens_of (array (items_of (map point_data bends.now))))) }
{
    out.key("bendPoints")?;
    put_points(out, bends)
}

// The bends of a section, a member where there are any.
fn put_bends(out: &mut Writer, bends: &[Point]) -> Result<(), AllocError>
    ensures { OnOk result (Adds out.old out.new (bend_tokens bends.now)) }
{
    if bends.is_empty() {
        Ok(())
    } else {
        put_bend_points(out, bends)
    }
}

fn put_named(out: &mut Writer, key: &str, point: Point) -> Result<(), AllocError>
    ensures { OnOk result (Adds out.old out.new (key_token key.now ∷ tokens_of (point_data point))) }
{
    out.key(key)?;
    put_point(out, point)
}

// The id of an edge's section.
fn put_name(alloc: Global, out: &mut Writer, id: &Id) -> Result<(), AllocError>
    ensures { OnOk result (Adds out.old out.new (key_token (codes "id") ∷ string_token (section_id id.now) ∷ [])) }
{
    let name = section_name(alloc, id)?;
    out.key("id")?;
    out.string(name.as_str())
}

// The ends of a section and its id, and the end of the section.
fn put_ends(alloc: Global, out: &mut Writer, id: &Id, section: &Section) -> Result<(), AllocError>
    ensures { OnOk result (Adds out.old out.new (tokens_of_members (end_members id.now section.now))) }
{
    put_named(out, "endPoint", section.end)?;
    put_name(alloc, out, id)?;
    put_named(out, "startPoint", section.start)?;
    out.end_object()
}

// The array of an edge's one section.
pub(crate) fn put_sections(
    alloc: Global,
    out: &mut Writer,
    id: &Id,
    section: &Section,
) -> Result<(), AllocError>
    ensures { OnOk result (Adds out.old out.new (tokens_of (sections_data id.now section.now))) }
{
    out.begin_array()?;
    out.begin_object()?;
    put_bends(out, section.bends.as_slice())?;
    put_ends(alloc, out, id, section)?;
    out.end_array()
}

// ---- certificates

fn put_small(out: &mut Writer, key: &str, numbers: &[u32]) -> Result<(), AllocError>
    ensures { OnOk result (Adds out.old out.new (key_token key.now ∷ tokens_of (wholes numbers.now))) }
{
    out.key(key)?;
    out.begin_array()?;
    for number in numbers {
        out.u64(*number as u64)?;
    }
    out.end_array()
}

fn put_large(out: &mut Writer, key: &str, numbers: &[u64]) -> Result<(), AllocError>
    ensures { OnOk result (Adds out.old out.new (key_token key.now ∷ tokens_of (wholes numbers.now))) }
{
    out.key(key)?;
    out.begin_array()?;
    for number in numbers {
        out.u64(*number)?;
    }
    out.end_array()
}

// An id. A number past 64 bits stands in no value.
fn put_id(out: &mut Writer, id: &Id) -> Result<(), AllocError>
    ensures { OnOk result (Adds out.old out.new (tokens_of (id_data id.now))) }
{
    match id {
        Id::Text(name) => out.string(name.as_str()),
        Id::Whole(number) => match Number::from_i128(*number) {
            Some(number) => put_number(out, &number),
            None => Err(AllocError),
        },
    }
}

fn put_edge_id(out: &mut Writer, edge: Option<&Edge>) -> Result<(), AllocError>
    ensures { OnOk result (Adds out.old out.new (id_tokens (option_map (λ e. e.now) edge.entry))) }
{
    match edge {
        None => Ok(()),
        Some(edge) => put_id(out, &edge.id),
    }
}

fn put_ids(out: &mut Writer, doc: &Doc, edges: &[u32]) -> Result<(), AllocError>
    ensures { OnOk result (Adds out.old out.new (tokens_of (array (items_of (edge_ids doc.now edges.now))))) }
{
    let known = doc.edges();
    out.begin_array()?;
    for edge in edges {
        put_edge_id(out, known.get(*edge as usize))?;
    }
    out.end_array()
}

// The parts of a certificate, a member where the level is split.
fn put_parts(out: &mut Writer, split: bool, certificate: &Certificate) -> Result<(), AllocError>
    ensures { OnOk result (Adds out.old out.new (part_tokens split certificate.now)) }
{
    if !split {
        return Ok(());
    }
    put_small(out, "parts", certificate.parts.as_slice())
}

// What a certificate says of nodes, and of edges by their numbers.
fn put_layers(out: &mut Writer, split: bool, certificate: &Certificate) -> Result<(), AllocError>
    ensures { OnOk result (Adds out.old out.new (layer_tokens split certificate.now)) }
{
    put_large(out, "flow", certificate.flow.as_slice())?;
    put_small(out, "layers", certificate.layers.as_slice())?;
    put_parts(out, split, certificate)
}

// The edges that a certificate turns, its span, and its end.
fn put_reversed(out: &mut Writer, doc: &Doc, certificate: &Certificate) -> Result<(), AllocError>
    ensures { OnOk result (Adds out.old out.new (tokens_of_members (reversed_members doc.now certificate.now))) }
{
    out.key("reversed")?;
    put_ids(out, doc, certificate.reversed.as_slice())?;
    out.key("span")?;
    out.u64(certificate.span)?;
    out.end_object()
}

// The certificate of a level.
pub(crate) fn put_layering(
    out: &mut Writer,
    doc: &Doc,
    split: bool,
    certificate: &Certificate,
) -> Result<(), AllocError>
    ensures { OnOk result (Adds out.old out.new (tokens_of (layering_data doc.now split certificate.now))) }
{
    out.begin_object()?;
    put_layers(out, split, certificate)?;
    put_reversed(out, doc, certificate)
}
