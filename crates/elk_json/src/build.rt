//! The parts of a document, each from its element.
ghost use Rattle.std.specs.Prelude.{◌≡◌, ◌≤◌, length, codes, true, false, IfOk, All};
ghost use Rattle.serde_json.specs.View.{view};
ghost use Rattle.elk_json.specs.Document.{IsReady, edge_of as edge_spec, edges_of as edges_spec, end_at as end_spec, node_of as node_spec, node_size as node_size_spec, nodes_of as nodes_spec, owner_number as owner_number_spec, place_of as place_spec, port_of as port_spec, ports_of as ports_spec, size_of as size_spec, sure_id as sure_id_spec};
ghost use Rattle.elk_json.specs.Members.{has_bad_option, is_node, is_port, options_at, whole_at as whole_test};
ghost use Rattle.elk_json.specs.Ranges.{is_far as far_test, is_out_of_range};
ghost use Rattle.elk_json.specs.Seen.{seen, seen_list};
ghost use Rattle.elk_json.specs.Words.{IsWord, IsWordIfAny};

use crate::elements::{Element, Kind};
use crate::ends::{is_node_there, source_of, target_of};
use crate::ids::id_of;
use crate::listed::{Listed, node_number, port_number};
use crate::members::{is_compound, whole_at};
use drawing_types::shape::{Point, Size};
use elk_doc::document::{Edge, End, Id, Node, Port};
use elk_options::Options;
use serde_json::Value;
use std::alloc::{AllocError, Global};

// A number in range, as documents hold it.
#[tactic(auto, unfolding(crate::specs::Ranges::is_far))]
fn narrow(n: i128) -> i64
    requires { far_test n ≡ true }
    ensures { result ≡ n }
{
    n as i64
}

// A size in range.
fn size_of(value: &Value) -> Size
    requires width { far_test (whole_test (codes "width") (view value.now)) ≡ true }
    requires height { far_test (whole_test (codes "height") (view value.now)) ≡ true }
    ensures { result ≡ size_spec (view value.now) }
{
    let width = narrow(whole_at(value, "width"));
    let height = narrow(whole_at(value, "height"));
    Size { width, height }
}

// A place in range.
fn place_of(value: &Value) -> Point
    requires x { far_test (whole_test (codes "x") (view value.now)) ≡ true }
    requires y { far_test (whole_test (codes "y") (view value.now)) ≡ true }
    ensures { result ≡ place_spec (view value.now) }
{
    let x = narrow(whole_at(value, "x"));
    let y = narrow(whole_at(value, "y"));
    Point { x, y }
}

// The options of an element that has no bad one.
fn options_of(element: &Element<'_>) -> Options
    requires { has_bad_option (seen element.now) ≡ false }
    ensures { result ≡ options_at (seen element.now) }
{
    element.options.unwrap()
}

// The number of an element's owner.
fn owner_number(list: &Listed<'_, '_>, element: &Element<'_>) -> Option<u32>
    requires { length (seen_list list.now.elements.now) ≤ 8192 }
    ensures { result ≡ owner_number_spec (seen_list list.now.elements.now) (seen element.now) }
{
    match element.owner {
        None => None,
        Some(place) => Some(node_number(list, place)),
    }
}

// The size of a node: a compound node has none of its own.
fn node_size(element: &Element<'_>) -> Size
    requires node { is_node (seen element.now) ≡ true }
    requires in_range { is_out_of_range (seen element.now) ≡ false }
    ensures { result ≡ node_size_spec (seen element.now) }
{
    if is_compound(element) {
        Size {
            width: 0,
            height: 0,
        }
    } else {
        size_of(element.value)
    }
}

// An id that is there by the rule on shapes.
fn sure_id(alloc: Global, value: &Value) -> Result<Id, AllocError>
    ensures value { IfOk result (λ id. id ≡ sure_id_spec (view value.now)) }
    ensures word { IfOk result IsWord }
{
    match id_of(alloc, value)? {
        Some(id) => Ok(id),
        None => Ok(Id::Whole(0)),
    }
}

fn node_of(alloc: Global, list: &Listed<'_, '_>, element: &Element<'_>) -> Result<Node, AllocError>
    requires few { length (seen_list list.now.elements.now) ≤ 8192 }
    requires node { is_node (seen element.now) ≡ true }
    requires in_range { is_out_of_range (seen element.now) ≡ false }
    requires good { has_bad_option (seen element.now) ≡ false }
    ensures value { IfOk result (λ n. n ≡ node_spec (seen_list list.now.elements.now) (seen element.now)) }
    ensures word { IfOk result (λ n. IsWordIfAny n.id) }
{
    let id = id_of(alloc, element.value)?;
    let options = options_of(element);
    Ok(Node {
        id,
        parent: owner_number(list, element),
        size: node_size(element),
        rule: options.rule,
        position: options.position,
        level: options.level,
    })
}

fn port_of(alloc: Global, list: &Listed<'_, '_>, element: &Element<'_>) -> Result<Port, AllocError>
    requires few { length (seen_list list.now.elements.now) ≤ 8192 }
    requires port { is_port (seen element.now) ≡ true }
    requires in_range { is_out_of_range (seen element.now) ≡ false }
    requires good { has_bad_option (seen element.now) ≡ false }
    ensures value { IfOk result (λ p. p ≡ port_spec (seen_list list.now.elements.now) (seen element.now)) }
    ensures word { IfOk result (λ p. IsWord p.id) }
{
    let id = sure_id(alloc, element.value)?;
    let options = options_of(element);
    Ok(Port {
        id,
        node: owner_number(list, element).unwrap_or(0),
        size: size_of(element.value),
        place: place_of(element.value),
        side: options.side,
        index: options.index,
    })
}

// The node or port at a place, as the end of an edge.
fn end_at(list: &Listed<'_, '_>, place: Option<usize>) -> End
    requires { length (seen_list list.now.elements.now) ≤ 8192 }
    ensures { result ≡ end_spec (seen_list list.now.elements.now) place }
{
    let place = place.unwrap_or(0);
    if is_node_there(list, place) {
        End::Node(node_number(list, place))
    } else {
        End::Port(port_number(list, place))
    }
}

fn edge_of(alloc: Global, list: &Listed<'_, '_>, element: &Element<'_>) -> Result<Edge, AllocError>
    requires few { length (seen_list list.now.elements.now) ≤ 8192 }
    requires good { has_bad_option (seen element.now) ≡ false }
    ensures value { IfOk result (λ e. e ≡ edge_spec (seen_list list.now.elements.now) (seen element.now)) }
    ensures word { IfOk result (λ e. IsWord e.id) }
{
    let id = sure_id(alloc, element.value)?;
    let source = end_at(list, source_of(list, element.value));
    let target = end_at(list, target_of(list, element.value));
    Ok(Edge {
        id,
        source,
        target,
        weight: options_of(element).weight,
    })
}

// The nodes of a document, in document order.
pub(crate) fn nodes_of(alloc: Global, list: &Listed<'_, '_>) -> Result<Vec<Node>, AllocError>
    requires { IsReady (seen_list list.now.elements.now) }
    ensures value { IfOk result (λ ns. ns.items ≡ nodes_spec (seen_list list.now.elements.now)) }
    ensures words { IfOk result (λ ns. All (λ n. IsWordIfAny n.id) ns.items) }
{
    let mut nodes = Vec::new(alloc);
    for element in list.elements {
        if element.kind == Kind::Node {
            nodes.push(node_of(alloc, list, element)?)?;
        }
    }
    Ok(nodes)
}

// The ports of a document, in document order.
pub(crate) fn ports_of(alloc: Global, list: &Listed<'_, '_>) -> Result<Vec<Port>, AllocError>
    requires { IsReady (seen_list list.now.elements.now) }
    ensures value { IfOk result (λ ps. ps.items ≡ ports_spec (seen_list list.now.elements.now)) }
    ensures words { IfOk result (λ ps. All (λ p. IsWord p.id) ps.items) }
{
    let mut ports = Vec::new(alloc);
    for element in list.elements {
        if element.kind == Kind::Port {
            ports.push(port_of(alloc, list, element)?)?;
        }
    }
    Ok(ports)
}

// The edges of a document, in document order.
pub(crate) fn edges_of(alloc: Global, list: &Listed<'_, '_>) -> Result<Vec<Edge>, AllocError>
    requires { IsReady (seen_list list.now.elements.now) }
    ensures value { IfOk result (λ es. es.items ≡ edges_spec (seen_list list.now.elements.now)) }
    ensures words { IfOk result (λ es. All (λ e. IsWord e.id) es.items) }
{
    let mut edges = Vec::new(alloc);
    for element in list.elements {
        if element.kind == Kind::Edge {
            edges.push(edge_of(alloc, list, element)?)?;
        }
    }
    Ok(edges)
}
