//! The ends of edges.
ghost use Rattle.std.specs.Prelude.{◌≡◌, ◌==◌, length, Some, false, option_map, option_and_then, is_some, find, not, ◌&&◌, nat_eq};
ghost use Rattle.std.specs.Option.{option_map_or, option_eq};
ghost use Rattle.std.specs.List.{list_all};
ghost use Rattle.serde_json.specs.View.{view, items_view};
ghost use Rattle.elk_json.specs.Elements.{listed, items_list};
ghost use Rattle.elk_json.specs.Members.{is_node, is_port, is_edge};
ghost use Rattle.elk_json.specs.Ends.{named as named_place, element_at as element_test, node_at as node_place, port_at_node, primitive_end as primitive_place, extended_end as extended_place, source_of as source_place, target_of as target_place, has_known_ends as known_test, is_hyperedge as hyper_test, source_node as source_node_place, target_node as target_node_place, parent_of as parent_place, is_cross_level as cross_test, level_of_edge as level_place};
ghost use Rattle.elk_json.specs.Seen.{seen, seen_list};

use crate::elements::{Element, Kind};
use crate::key::key_from;
use crate::listed::{Listed, first_of};
use crate::members::is_of;
use crate::shape::is_extended;
use serde_json::Value;

// The place of the node or port that the reference names.
fn named(list: &Listed<'_, '_>, id: &Value) -> Option<usize>
    ensures { result ≡ named_place (seen_list list.now.elements.now) (view id.now) }
{
    match key_from(id) {
        None => None,
        Some(key) => first_of(list, false, key),
    }
}

fn element_at<'e, 'a>(list: &Listed<'e, 'a>, place: usize) -> Option<&'e Element<'a>>
    ensures { option_map (λ e. seen e.now) result ≡ element_test (seen_list list.now.elements.now) place }
{
    list.elements.get(place)
}

// The node at the place, or the node that the port there stands at.
#[tactic(auto, unfolding(crate::specs::Ends::node_at))]
fn node_at(list: &Listed<'_, '_>, place: usize) -> Option<usize>
    ensures { result ≡ node_place (seen_list list.now.elements.now) place }
{
    match element_at(list, place) {
        None => None,
        Some(element) => {
            if is_of(element, Kind::Node) {
                Some(place)
            } else {
                element.owner
            }
        }
    }
}

pub(crate) fn is_node_there(list: &Listed<'_, '_>, place: usize) -> bool
    ensures { result ≡ option_map_or is_node (element_test (seen_list list.now.elements.now) place) false }
{
    match element_at(list, place) {
        None => false,
        Some(element) => is_of(element, Kind::Node),
    }
}

fn is_port_there(list: &Listed<'_, '_>, node: usize, place: usize) -> bool
    ensures { result ≡ option_map_or (λ e. is_port e && option_eq nat_eq e.owner (Some node))
        (element_test (seen_list list.now.elements.now) place) false }
{
    match element_at(list, place) {
        None => false,
        Some(element) => is_of(element, Kind::Port) && element.owner == Some(node),
    }
}

// The port, if it is one that stands at the node.
#[tactic(auto, unfolding(crate::specs::Ends::port_at_node))]
fn port_of(list: &Listed<'_, '_>, node: Option<usize>, port: Option<usize>) -> Option<usize>
    ensures { result ≡ port_at_node (seen_list list.now.elements.now) node port }
{
    let node = node?;
    let port = port?;
    if is_node_there(list, node) && is_port_there(list, node, port) {
        Some(port)
    } else {
        None
    }
}

fn named_if(list: &Listed<'_, '_>, id: Option<&Value>) -> Option<usize>
    ensures { result ≡ option_and_then (named_place (seen_list list.now.elements.now)) (option_map (λ v. view v.now) id.entry) }
{
    match id {
        None => None,
        Some(id) => named(list, id),
    }
}

#[tactic(auto, unfolding(crate::specs::Ends::primitive_end))]
fn primitive_end(list: &Listed<'_, '_>, node: Option<&Value>, port: Option<&Value>) -> Option<usize>
    ensures { result ≡ primitive_place (seen_list list.now.elements.now) (option_map (λ v. view v.now) node.entry) (option_map (λ v. view v.now) port.entry) }
{
    match port {
        None => named_if(list, node),
        Some(port) => port_of(list, named_if(list, node), named(list, port)),
    }
}

fn first_named(list: &Listed<'_, '_>, ids: &[Value]) -> Option<usize>
    ensures { result ≡ extended_place (seen_list list.now.elements.now) (items_list (items_view ids.now)) }
{
    match ids {
        [] => None,
        [first, ..] => named(list, first),
    }
}

fn extended_end(list: &Listed<'_, '_>, value: &Value, key: &str) -> Option<usize>
    ensures { result ≡ extended_place (seen_list list.now.elements.now) (listed key.now (view value.now)) }
{
    match value.get(key).and_then(Value::as_array) {
        None => None,
        Some(ids) => first_named(list, ids),
    }
}

#[tactic(auto, unfolding(crate::specs::Ends::source_of))]
pub(crate) fn source_of(list: &Listed<'_, '_>, value: &Value) -> Option<usize>
    ensures { result ≡ source_place (seen_list list.now.elements.now) (view value.now) }
{
    if is_extended(value) {
        extended_end(list, value, "sources")
    } else {
        primitive_end(list, value.get("source"), value.get("sourcePort"))
    }
}

#[tactic(auto, unfolding(crate::specs::Ends::target_of))]
pub(crate) fn target_of(list: &Listed<'_, '_>, value: &Value) -> Option<usize>
    ensures { result ≡ target_place (seen_list list.now.elements.now) (view value.now) }
{
    if is_extended(value) {
        extended_end(list, value, "targets")
    } else {
        primitive_end(list, value.get("target"), value.get("targetPort"))
    }
}

fn are_named(list: &Listed<'_, '_>, ids: &Vec<Value>) -> bool
    ensures { result ≡ list_all (λ r. is_some (named_place (seen_list list.now.elements.now) r)) (items_list (items_view ids.now.items)) }
{
    for id in ids {
        if named(list, id).is_none() {
            return false;
        }
    }
    true
}

fn are_all_named(list: &Listed<'_, '_>, value: &Value, key: &str) -> bool
    ensures { result ≡ list_all (λ r. is_some (named_place (seen_list list.now.elements.now) r)) (listed key.now (view value.now)) }
{
    match value.get(key).and_then(Value::as_array) {
        None => true,
        Some(ids) => are_named(list, ids),
    }
}

#[tactic(auto, unfolding(crate::specs::Ends::has_known_ends))]
fn has_known_ends(list: &Listed<'_, '_>, value: &Value) -> bool
    ensures { result ≡ known_test (seen_list list.now.elements.now) (view value.now) }
{
    if is_extended(value) {
        are_all_named(list, value, "sources") && are_all_named(list, value, "targets")
    } else {
        source_of(list, value).is_some() && target_of(list, value).is_some()
    }
}

fn is_one(value: &Value, key: &str) -> bool
    ensures { result ≡ (length (listed key.now (view value.now)) == 1) }
{
    match value.get(key).and_then(Value::as_array) {
        None => false,
        Some(ids) => is_one_item(ids),
    }
}

#[tactic(auto, using(crate::proofs::Collected::length_items))]
fn is_one_item(ids: &Vec<Value>) -> bool
    ensures { result ≡ (length (items_list (items_view ids.now.items)) == 1) }
{
    ids.len() == 1
}

#[tactic(auto, unfolding(crate::specs::Ends::is_hyperedge))]
fn is_hyperedge(value: &Value) -> bool
    ensures { result ≡ hyper_test (view value.now) }
{
    is_extended(value) && !(is_one(value, "sources") && is_one(value, "targets"))
}

fn node_of(list: &Listed<'_, '_>, place: Option<usize>) -> Option<usize>
    ensures { result ≡ option_and_then (node_place (seen_list list.now.elements.now)) place }
{
    match place {
        None => None,
        Some(place) => node_at(list, place),
    }
}

#[tactic(auto, unfolding(crate::specs::Ends::source_node))]
fn source_node(list: &Listed<'_, '_>, value: &Value) -> Option<usize>
    ensures { result ≡ source_node_place (seen_list list.now.elements.now) (view value.now) }
{
    node_of(list, source_of(list, value))
}

#[tactic(auto, unfolding(crate::specs::Ends::target_node))]
fn target_node(list: &Listed<'_, '_>, value: &Value) -> Option<usize>
    ensures { result ≡ target_node_place (seen_list list.now.elements.now) (view value.now) }
{
    node_of(list, target_of(list, value))
}

#[tactic(auto, unfolding(crate::specs::Ends::parent_of))]
fn parent_of(list: &Listed<'_, '_>, node: Option<usize>) -> Option<usize>
    ensures { result ≡ parent_place (seen_list list.now.elements.now) node }
{
    match node {
        None => None,
        Some(place) => match element_at(list, place) {
            None => None,
            Some(element) => element.owner,
        },
    }
}

#[tactic(auto, unfolding(crate::specs::Ends::is_cross_level))]
fn is_cross_level(list: &Listed<'_, '_>, value: &Value) -> bool
    ensures { result ≡ cross_test (seen_list list.now.elements.now) (view value.now) }
{
    let source = source_node(list, value);
    let target = target_node(list, value);
    let differ = source != target;
    let apart = parent_of(list, source) != parent_of(list, target);
    (differ && apart) || source == Some(0) || target == Some(0)
}

#[tactic(auto, unfolding(crate::specs::Ends::level_of_edge))]
pub(crate) fn level_of_edge(list: &Listed<'_, '_>, value: &Value) -> Option<usize>
    ensures { result ≡ level_place (seen_list list.now.elements.now) (view value.now) }
{
    parent_of(list, source_node(list, value))
}

// The first edge with an unknown end.
pub(crate) fn first_unknown<'e, 'a>(list: &Listed<'e, 'a>) -> Option<&'e Element<'a>>
    ensures { option_map (λ e. seen e.now) result
        ≡ find (λ e. is_edge e && not (known_test (seen_list list.now.elements.now) e.value)) (seen_list list.now.elements.now) }
{
    for element in list.elements {
        if element.kind == Kind::Edge && !has_known_ends(list, element.value) {
            return Some(element);
        }
    }
    None
}

pub(crate) fn first_hyperedge<'e, 'a>(list: &Listed<'e, 'a>) -> Option<&'e Element<'a>>
    ensures { option_map (λ e. seen e.now) result ≡ find (λ e. is_edge e && hyper_test e.value) (seen_list list.now.elements.now) }
{
    for element in list.elements {
        if element.kind == Kind::Edge && is_hyperedge(element.value) {
            return Some(element);
        }
    }
    None
}

pub(crate) fn first_cross_level<'e, 'a>(list: &Listed<'e, 'a>) -> Option<&'e Element<'a>>
    ensures { option_map (λ e. seen e.now) result
        ≡ find (λ e. is_edge e && cross_test (seen_list list.now.elements.now) e.value) (seen_list list.now.elements.now) }
{
    for element in list.elements {
        if element.kind == Kind::Edge && is_cross_level(list, element.value) {
            return Some(element);
        }
    }
    None
}
