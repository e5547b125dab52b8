// The drawing of a placed value.
ghost use Rattle.std.specs.Prelude.{◌≡◌, ◌++◌, None, Some, length, option_map, option_and_then, IfOk, MatchResult};
ghost use Rattle.serde_json.specs.View.{view};
ghost use Rattle.elk_doc.specs.Fits.{Fits};
ghost use Rattle.elk_json.specs.declared.elements.Kind.TheVariants.{Node as NodeKind, Edge as EdgeKind};
ghost use Rattle.elk_json.specs.declared.fault.Rule.TheVariants.{NotPlaced};
ghost use Rattle.elk_json.specs.Document.{IsDocument};
ghost use Rattle.elk_json.specs.Keys.{key_id};
ghost use Rattle.elk_json.specs.Refused.{MatchFault};
ghost use Rattle.elk_json.specs.Rules.{at, refused};
ghost use Rattle.elk_json.specs.Seen.{seen, seen_list};
ghost use Rattle.elk_write.specs.Reading.{point_in as point_spec};
ghost use Rattle.elk_write.specs.Placing.{box_in as box_spec, first_unplaced, given_part, is_origin as origin_test, IsDrawing, IsGiven, level_in as level_spec, node_size_in, of_kind, part_boxes, part_levels, part_places, part_sections, refused_placed, rooted};

use crate::levels::certificate_in;
use crate::reading::{point_in, sections_in, size_in};
use drawing_types::list::Items;
use drawing_types::section::Section;
use drawing_types::shape::{Point, Rect, Size};
use elk_doc::document::{Doc, Id, LevelOptions, Name, Node};
use elk_doc::drawing::{Certificate, Placed};
use elk_json::elements::{Element, Kind, elements_of};
use elk_json::key::Key;
use elk_json::{DocFault, Refusal, Rule, read_doc};
use serde_json::Value;
use std::alloc::{AllocError, Global};

// What the elements up to one have given.
#[derive(Drop)]
struct Drawing {
    boxes: Vec<Rect>,
    levels: Vec<Option<Certificate>>,
    ports: Vec<Point>,
    sections: Vec<Section>,
}

// What one element gives.
#[derive(Drop)]
enum Part {
    Node(Rect, Option<Certificate>),
    Port(Point),
    Edge(Section),
}

// The number that the next element of a kind has.
fn next_number(drawing: &Drawing, kind: Kind) -> usize
    ensures { result ≡ (of_kind kind (length drawing.now.boxes.items) (length drawing.now.ports.items) (length drawing.now.sections.items)) }
{
    match kind {
        Kind::Node => drawing.boxes.len(),
        Kind::Port => drawing.ports.len(),
        Kind::Edge => drawing.sections.len(),
    }
}

fn is_origin(point: Point) -> bool
    ensures { result ≡ origin_test point }
{
    point.x == 0 && point.y == 0
}

// The place of a node: the root, which has the number 0, stands at the origin.
fn node_place(number: usize, value: &Value) -> Option<Point>
    ensures { result ≡ option_and_then (rooted number) (point_spec (view value.now)) }
{
    let place = point_in(value)?;
    if number == 0 && !is_origin(place) {
        return None;
    }
    Some(place)
}

fn node_size(node: &Node, value: &Value) -> Option<Size>
    ensures { result ≡ node_size_in node.now.level node.now.size (view value.now) }
{
    match node.level {
        None => Some(node.size),
        Some(_) => size_in(value),
    }
}

fn box_in(number: usize, node: &Node, value: &Value) -> Option<Rect>
    ensures { result ≡ box_spec number node.now (view value.now) }
{
    let place = node_place(number, value)?;
    let size = node_size(node, value)?;
    Some(Rect {
        x: place.x,
        y: place.y,
        width: size.width,
        height: size.height,
    })
}

// The certificate of a level; a leaf has none.
fn level_in(
    alloc: Global,
    doc: &Doc,
    number: u32,
    level: &Option<LevelOptions>,
    value: &Value,
) -> Result<Option<Option<Certificate>>, AllocError>
    ensures { IfOk result (λ o. o ≡ level_spec doc.now number level.now (view value.now)) }
{
    match level {
        None => Ok(Some(None)),
        Some(options) => match value.get("layering") {
            None => Ok(None),
            Some(layering) => {
                let certificate = certificate_in(alloc, doc, number, options.split, layering)?;
                Ok(certificate.map(Some))
            }
        },
    }
}

fn node_part(
    alloc: Global,
    doc: &Doc,
    number: usize,
    element: &Element<'_>,
) -> Result<Option<Part>, AllocError>
    ensures { IfOk result (λ o. o ≡ given_part doc.now NodeKind number (seen element.now)) }
{
    let Some(node) = doc.nodes().get(number) else {
        return Ok(None);
    };
    let Some(area) = box_in(number, node, element.value) else {
        return Ok(None);
    };
    let level = level_in(alloc, doc, number as u32, &node.level, element.value)?;
    match level {
        None => Ok(None),
        Some(level) => Ok(Some(Part::Node(area, level))),
    }
}

fn edge_part(
    alloc: Global,
    doc: &Doc,
    number: usize,
    element: &Element<'_>,
) -> Result<Option<Part>, AllocError>
    ensures { IfOk result (λ o. o ≡ given_part doc.now EdgeKind number (seen element.now)) }
{
    let Some(edge) = doc.edges().get(number) else {
        return Ok(None);
    };
    let section = sections_in(alloc, &edge.id, element.value)?;
    Ok(section.map(Part::Edge))
}

// What an element with this number gives, or none where it lacks a written member.
fn part_of(
    alloc: Global,
    doc: &Doc,
    number: usize,
    element: &Element<'_>,
) -> Result<Option<Part>, AllocError>
    ensures { IfOk result (λ o. o ≡ given_part doc.now element.now.kind number (seen element.now)) }
{
    match element.kind {
        Kind::Node => node_part(alloc, doc, number, element),
        Kind::Port => Ok(point_in(element.value).map(Part::Port)),
        Kind::Edge => edge_part(alloc, doc, number, element),
    }
}

fn with_part(drawing: Drawing, part: Part) -> Result<Drawing, AllocError>
    ensures boxes { IfOk result (λ d. d.boxes.items ≡ drawing.boxes.items ++ part_boxes part) }
    ensures levels { IfOk result (λ d. d.levels.items ≡ drawing.levels.items ++ part_levels part) }
    ensures ports { IfOk result (λ d. d.ports.items ≡ drawing.ports.items ++ part_places part) }
    ensures sections { IfOk result (λ d. d.sections.items ≡ drawing.sections.items ++ part_sections part) }
{
    let mut drawing = drawing;
    match part {
        Part::Node(area, level) => {
            drawing.boxes.push(area)?;
            drawing.levels.push(level)?;
        }
        Part::Port(place) => drawing.ports.push(place)?,
        Part::Edge(section) => drawing.sections.push(section)?,
    }
    Ok(drawing)
}

// The refusal of a value at an element that lacks a written member.
fn not_placed(alloc: Global, element: &Element<'_>) -> DocFault
    ensures { MatchFault result (λ r. at NotPlaced (Some (seen element.now)) ≡ Some r) }
{
    match id_of(alloc, element.key) {
        Ok(place) => DocFault::Refused(Refusal {
            rule: Rule::NotPlaced,
            place,
        }),
        Err(_) => DocFault::Memory,
    }
}

fn id_of(alloc: Global, key: Option<Key<'_>>) -> Result<Option<Id>, AllocError>
    ensures { IfOk result (λ id. id ≡ option_map key_id key.entry) }
{
    match key {
        None => Ok(None),
        Some(Key::Text(text)) => {
            let name = String::from_str(alloc, text)?;
            Ok(Some(Id::Text(Name::from_string(name))))
        }
        Some(Key::Whole(whole)) => Ok(Some(Id::Whole(whole))),
    }
}

// The drawing that the elements of a document give.
fn drawing_of(alloc: Global, doc: &Doc, elements: &[Element<'_>]) -> Result<Placed, DocFault>
    ensures { MatchResult result
        (λ p. (first_unplaced doc.now (seen_list elements.now) ≡ None) × IsGiven doc.now (seen_list elements.now) p)
        (λ fault. MatchFault fault (λ r. at NotPlaced (first_unplaced doc.now (seen_list elements.now)) ≡ Some r)) }
{
    let mut drawing = Drawing {
        boxes: Vec::with_capacity(alloc, doc.nodes().len())?,
        levels: Vec::with_capacity(alloc, doc.nodes().len())?,
        ports: Vec::with_capacity(alloc, doc.ports().len())?,
        sections: Vec::with_capacity(alloc, doc.edges().len())?,
    };
    for element in elements {
        let number = next_number(&drawing, element.kind);
        let Some(part) = part_of(alloc, doc, number, element)? else {
            return Err(not_placed(alloc, element));
        };
        drawing = with_part(drawing, part)?;
    }
    Ok(Placed {
        boxes: Items::from_vec(drawing.boxes),
        ports: Items::from_vec(drawing.ports),
        sections: Items::from_vec(drawing.sections),
        levels: Items::from_vec(drawing.levels),
    })
}

/// The document of a placed value, and the drawing that its written members say: the place of each node and port, the size
/// and layering of each compound node, the section of each edge. A value that a rule refuses is answered as by `read_doc`;
/// any other is refused as not placed exactly where a written member is missing or is not of its form, at the first element
/// in document order that lacks one.
///
/// Proved:
/// - A placed value is refused exactly if a rule refuses it, or a written member is missing or not of its form.
/// - It is refused at the first element with such a fault.
/// - Otherwise the drawing that the placed value describes is read.
pub fn placed_of(alloc: Global, value: &Value) -> Result<(Doc, Placed), DocFault>
    ensures exact { MatchResult result
        (λ pair. refused_placed (view value.now) ≡ None)
        (λ fault. MatchFault fault (λ refusal. refused_placed (view value.now) ≡ Some refusal)) }
    ensures accepted { IfOk result (λ pair. refused (view value.now) ≡ None) }
    ensures document { IfOk result (λ pair. IsDocument pair.0 (view value.now)) }
    ensures drawing { IfOk result (λ pair. IsDrawing pair.0 pair.1 (view value.now)) }
    ensures fits { IfOk result (λ pair. Fits pair.0 pair.1) }
{
    let doc = read_doc(alloc, value)?;
    let elements = elements_of(alloc, value)?;
    let placed = drawing_of(alloc, &doc, elements.as_slice())?;
    Ok((doc, placed))
}
