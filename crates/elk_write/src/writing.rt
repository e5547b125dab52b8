// The text of an answer, written straight from the value and the drawing.
ghost use Rattle.std.specs.Prelude.{◌≡◌, OnOk, IfOk, None, option_map};
ghost use Rattle.serde_json.specs.Data.{array, object};
ghost use Rattle.serde_json.specs.View.{view, items_view, members_view};
ghost use Rattle.elk_doc.specs.Fits.{Fits};
ghost use Rattle.elk_json.specs.Document.{IsDocument};
ghost use Rattle.elk_json.specs.Keyed.{IsKeyed};
ghost use Rattle.elk_json.specs.Rules.{refused};
ghost use Rattle.elk_write.specs.Keys.{is_flat_key as flat_key_test, is_node_key as node_key_test};
ghost use Rattle.elk_write.specs.Strip.{members_but};
ghost use Rattle.elk_write.specs.Numbers.{past_node, past_members, past_member, past_children};
ghost use Rattle.elk_write.specs.Answered.{port_answer, edge_answer, port_answers, edge_answers, parts_answer, answer_node as node_answer, answer_member as member_answer, answer_children as children_answer};
ghost use Rattle.elk_write.specs.Merged.{own_members, puts, answered, IsSorted, AreGone};
ghost use Rattle.elk_write.specs.Tokens.{tokens_of, Adds};
ghost use Rattle.elk_write.specs.AnswerText.{IsAnswerText};

use crate::answer::{has_children, is_node_key, levels_are_held};
use crate::numbers::{Numbers, advanced, past_own};
use crate::own::{Own, edge_own, node_own, port_own, put_before, put_rest};
use crate::parts::{is_flat_key, is_key};
use crate::tokens::{put_array, put_value};
use drawing_types::section::Section;
use drawing_types::shape::Point;
use elk_doc::document::{Doc, Edge};
use elk_doc::drawing::Placed;
use json::Writer;
use serde_json::Value;
use serde_json::value::Map;
use std::alloc::{AllocError, Global};

// A document and a drawing of it.
#[derive(Clone, Copy, Drop)]
struct Scene<'a> {
    doc: &'a Doc,
    placed: &'a Placed,
}

// The numbers of a node and of its first port and edge, and what is written of it.
#[derive(Drop)]
struct Head<'a> {
    first: Numbers,
    compound: bool,
    own: Vec<Own<'a>>,
}

// ---- ports and edges

// The object of a port or an edge: the members that it keeps, and those that are written.
fn put_flat(
    alloc: Global,
    out: &mut Writer,
    members: &Map<String, Value>,
    edge: bool,
    own: &[Own<'_>],
) -> Result<(), AllocError>
    requires sorted { IsSorted (own_members own.now) }
    requires gone { AreGone (flat_key_test edge) (own_members own.now) }
    ensures { OnOk result (IsSorted (members_view members.now.entries)
        × Adds out.old out.new (tokens_of (object (puts (own_members own.now) (members_but (flat_key_test edge) (members_view members.now.entries)))))) }
{
    out.begin_object()?;
    let mut next = 0;
    for (key, member) in members.iter() {
        let name = key.as_str();
        if !is_flat_key(name, edge) {
            next = put_before(alloc, out, own, next, name)?;
            out.key(name)?;
            put_value(out, member)?;
        }
    }
    put_rest(alloc, out, own, next)
}

fn put_port(
    alloc: Global,
    out: &mut Writer,
    port: &Value,
    place: Option<&Point>,
) -> Result<(), AllocError>
    ensures { OnOk result (Adds out.old out.new (tokens_of (port_answer (option_map (λ p. p.now) place.entry) (view port.now)))) }
{
    match port {
        Value::Object(members) => {
            let own = port_own(alloc, place)?;
            put_flat(alloc, out, members, false, own.as_slice())
        }
        _ => put_value(out, port),
    }
}

fn put_edge(
    alloc: Global,
    out: &mut Writer,
    value: &Value,
    edge: Option<&Edge>,
    section: Option<&Section>,
) -> Result<(), AllocError>
    ensures { OnOk result (Adds out.old out.new
        (tokens_of (edge_answer (option_map (λ e. e.now) edge.entry) (option_map (λ s. s.now) section.entry) (view value.now)))) }
{
    match value {
        Value::Object(members) => {
            let own = edge_own(alloc, edge, section)?;
            put_flat(alloc, out, members, true, own.as_slice())
        }
        _ => put_value(out, value),
    }
}

// The ports of a node, of which the first has the number `first`.
fn put_ports(
    alloc: Global,
    out: &mut Writer,
    ports: &Vec<Value>,
    placed: &Placed,
    first: usize,
) -> Result<(), AllocError>
    ensures { OnOk result (Adds out.old out.new (tokens_of (array (port_answers placed.now first (items_view ports.now.items))))) }
{
    let places = placed.ports.as_slice();
    let mut number = first;
    out.begin_array()?;
    for port in ports {
        put_port(alloc, out, port, places.get(number))?;
        number = advanced(number, 1)?;
    }
    out.end_array()
}

// The edges that a node declares, of which the first has the number `first`.
fn put_edges(
    alloc: Global,
    out: &mut Writer,
    edges: &Vec<Value>,
    doc: &Doc,
    placed: &Placed,
    first: usize,
) -> Result<(), AllocError>
    ensures { OnOk result (Adds out.old out.new (tokens_of (array (edge_answers doc.now placed.now first (items_view edges.now.items))))) }
{
    let known = doc.edges();
    let sections = placed.sections.as_slice();
    let mut number = first;
    out.begin_array()?;
    for edge in edges {
        let named = known.get(number);
        let section = sections.get(number);
        put_edge(alloc, out, edge, named, section)?;
        number = advanced(number, 1)?;
    }
    out.end_array()
}

// ---- nodes

// A node's array of ports, of edges, or any other but that of its children.
fn put_parts(
    alloc: Global,
    out: &mut Writer,
    items: &Vec<Value>,
    key: &str,
    scene: Scene<'_>,
    first: Numbers,
) -> Result<(), AllocError>
    ensures { OnOk result (Adds out.old out.new
        (tokens_of (parts_answer scene.entry.doc.now scene.entry.placed.now first key.now (items_view items.now.items)))) }
{
    if is_key(key, "ports") {
        put_ports(alloc, out, items, scene.placed, first.port)
    } else if is_key(key, "edges") {
        put_edges(alloc, out, items, scene.doc, scene.placed, first.edge)
    } else {
        put_array(out, items)
    }
}

// A node with the numbers `at`, which then are those that follow it and all that stands in it.
#[cycle(put_node)]
fn put_node(
    alloc: Global,
    out: &mut Writer,
    value: &Value,
    scene: Scene<'_>,
    root: bool,
    at: &mut Numbers,
) -> Result<(), AllocError>
    ensures written { OnOk result (Adds out.old out.new
        (tokens_of (node_answer scene.entry.doc.now scene.entry.placed.now at.old root (view value.now)))) }
    ensures numbers { OnOk result (at.new ≡ past_node at.old (view value.now)) }
{
    let first = *at;
    *at = past_own(first, value)?;
    match value {
        Value::Object(members) => {
            let compound = root || has_children(value);
            let own = node_own(alloc, scene.doc, scene.placed, first.node, compound)?;
            let head = Head {
                first,
                compound,
                own,
            };
            put_members(alloc, out, members, scene, &head, at)
        }
        _ => put_value(out, value),
    }
}

// The object of a node: the members that it keeps, with what stands in it, and those that are written.
#[cycle(put_node)]
fn put_members(
    alloc: Global,
    out: &mut Writer,
    members: &Map<String, Value>,
    scene: Scene<'_>,
    head: &Head<'_>,
    below: &mut Numbers,
) -> Result<(), AllocError>
    requires sorted { IsSorted (own_members head.now.own.items) }
    requires gone { AreGone (node_key_test head.now.compound) (own_members head.now.own.items) }
    ensures written { OnOk result (IsSorted (members_view members.now.entries)
        × Adds out.old out.new (tokens_of (object (puts (own_members head.now.own.items)
        (answered scene.entry.doc.now scene.entry.placed.now head.now.first head.now.compound below.old (members_view members.now.entries)))))) }
    ensures numbers { OnOk result (below.new ≡ past_members below.old (members_view members.now.entries)) }
{
    let own = head.own.as_slice();
    out.begin_object()?;
    let mut next = 0;
    for (key, member) in members.iter() {
        let name = key.as_str();
        if !is_node_key(name, head.compound) {
            next = put_before(alloc, out, own, next, name)?;
            out.key(name)?;
            put_member(alloc, out, member, name, scene, head.first, below)?;
        }
    }
    put_rest(alloc, out, own, next)
}

#[cycle(put_node)]
fn put_member(
    alloc: Global,
    out: &mut Writer,
    member: &Value,
    key: &str,
    scene: Scene<'_>,
    first: Numbers,
    below: &mut Numbers,
) -> Result<(), AllocError>
    ensures written { OnOk result (Adds out.old out.new
        (tokens_of (member_answer scene.entry.doc.now scene.entry.placed.now first below.old key.now (view member.now)))) }
    ensures numbers { OnOk result (below.new ≡ past_member key.now below.old (view member.now)) }
{
    match member {
        Value::Array(items) => {
            if is_key(key, "children") {
                put_children(alloc, out, items, scene, below)
            } else {
                put_parts(alloc, out, items, key, scene, first)
            }
        }
        _ => put_value(out, member),
    }
}

#[cycle(put_node)]
fn put_children(
    alloc: Global,
    out: &mut Writer,
    items: &Vec<Value>,
    scene: Scene<'_>,
    at: &mut Numbers,
) -> Result<(), AllocError>
    ensures written { OnOk result (Adds out.old out.new
        (tokens_of (array (children_answer scene.entry.doc.now scene.entry.placed.now at.old (items_view items.now.items))))) }
    ensures numbers { OnOk result (at.new ≡ past_children at.old (items_view items.now.items)) }
{
    out.begin_array()?;
    for item in items {
        put_node(alloc, out, item, scene, false, at)?;
    }
    out.end_array()
}

// ---- the whole

/// The text of the answer: the value with the written members of the drawing, as `answer_value` gives it and `text_of` writes
/// it, without a value between.
///
/// Proved:
/// - The text of an answer, which is written without building a value, is the text of such a value.
/// - It is read as that value if the document was read from a text, whole ids fit into 64 bits and coordinates are small. This holds
///   for every answer of the program.
pub fn answer_text(
    alloc: Global,
    value: &Value,
    doc: &Doc,
    placed: &Placed,
) -> Result<Vec<u8>, AllocError>
    requires keyed { IsKeyed (view value.now) }
    requires accepted { refused (view value.now) ≡ None }
    requires document { IsDocument doc.now (view value.now) }
    requires fits { Fits doc.now placed.now }
    ensures { IfOk result (λ b. IsAnswerText (view value.now) doc.now placed.now b.items) }
{
    levels_are_held(placed.levels.as_slice());
    let mut out = Writer::new(Vec::with_capacity(alloc, 1024)?);
    let mut at = Numbers {
        node: 0,
        port: 0,
        edge: 0,
    };
    put_node(alloc, &mut out, value, Scene { doc, placed }, true, &mut at)?;
    let mut bytes = out.into_inner();
    bytes.push(b'\n')?;
    Ok(bytes)
}
