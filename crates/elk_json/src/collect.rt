//! Going through a value.
ghost use Rattle.std.specs.Prelude.{◌≡◌, ◌++◌, ◌<◌, ◌==◌, not, is_some, map, length, bytes_eq, string_bytes, IfOk};
ghost use Rattle.serde_json.specs.Data.{Data};
ghost use Rattle.serde_json.specs.View.{view, items_view, members_view};
ghost use Rattle.elk_json.specs.Elements.{elements, elements_at, elements_below, elements_within, elements_among, own_elements, part, listed, items_list};
ghost use Rattle.elk_json.specs.Members.{node_rule};
ghost use Rattle.elk_json.specs.Seen.{seen_list};

use crate::elements::{Element, Kind};
use crate::reading::element_of;
use elk_doc::document::PortRule;
use serde_json::Value;
use serde_json::value::Map;
use std::alloc::{AllocError, Global};

/// The nodes, ports and edges of a whole value, in document order: a node, then its ports, then its edges, then its
/// children, each with all of its own.
pub fn elements_of(alloc: Global, value: &Value) -> Result<Vec<Element<'_>>, AllocError>
    ensures { IfOk result (λ es. seen_list es.items ≡ elements (view value.now)) }
{
    let mut found = Vec::new(alloc);
    collect_node(value, None, value, &mut found)?;
    Ok(found)
}

#[cycle(collect)]
fn collect_node<'a>(
    value: &'a Value,
    owner: Option<usize>,
    holder: &'a Value,
    found: &mut Vec<Element<'a>>,
) -> Result<(), AllocError>
    requires { not (is_some owner) ≡ (length found.old.items == 0) }
    ensures { IfOk result (λ _. seen_list found.new.items ≡ seen_list found.old.items
        ++ elements_at (length found.old.items) owner (view holder.now) (view value.now)) }
{
    let place = found.len();
    collect_own(owner, holder, value, found)?;
    match value {
        Value::Object(members) => collect_below(members, place, value, found),
        _ => Ok(()),
    }
}

#[cycle(collect)]
fn collect_below<'a>(
    members: &'a Map<String, Value>,
    place: usize,
    holder: &'a Value,
    found: &mut Vec<Element<'a>>,
) -> Result<(), AllocError>
    requires { 0 < length found.old.items }
    ensures { IfOk result (λ _. seen_list found.new.items ≡ seen_list found.old.items
        ++ elements_below (length found.old.items) place (view holder.now) (members_view members.now.entries)) }
{
    for (key, member) in members.iter() {
        if is_key(key, "children") {
            return collect_member(member, place, holder, found);
        }
    }
    Ok(())
}

#[cycle(collect)]
fn collect_member<'a>(
    member: &'a Value,
    place: usize,
    holder: &'a Value,
    found: &mut Vec<Element<'a>>,
) -> Result<(), AllocError>
    requires { 0 < length found.old.items }
    ensures { IfOk result (λ _. seen_list found.new.items ≡ seen_list found.old.items
        ++ elements_within (length found.old.items) place (view holder.now) (view member.now)) }
{
    match member {
        Value::Array(items) => collect_children(items, place, holder, found),
        _ => Ok(()),
    }
}

pub(crate) fn is_key(key: &String, name: &str) -> bool
    ensures { result ≡ bytes_eq (string_bytes key.now) name.now }
{
    key.as_str() == name
}

#[cycle(collect)]
fn collect_children<'a>(
    items: &'a Vec<Value>,
    place: usize,
    holder: &'a Value,
    found: &mut Vec<Element<'a>>,
) -> Result<(), AllocError>
    requires { 0 < length found.old.items }
    ensures { IfOk result (λ _. seen_list found.new.items ≡ seen_list found.old.items
        ++ elements_among (length found.old.items) place (view holder.now) (items_view items.now.items)) }
{
    for item in items {
        collect_node(item, Some(place), holder, found)?;
    }
    Ok(())
}

// The node at the end of the list, its ports and its edges. The root alone has no owner and stands first, so that ports have
// the rule of the role in which their node was read.
fn collect_own<'a>(
    owner: Option<usize>,
    holder: &'a Value,
    value: &'a Value,
    found: &mut Vec<Element<'a>>,
) -> Result<(), AllocError>
    requires { not (is_some owner) ≡ (length found.old.items == 0) }
    ensures { IfOk result (λ _. seen_list found.new.items ≡ seen_list found.old.items
        ++ own_elements (length found.old.items) owner (view holder.now) (view value.now)) }
{
    let place = found.len();
    let node = element_of(Kind::Node, owner, holder, value, None);
    found.push(node)?;
    let rule = node.options.map(|options| options.rule);
    collect_parts(Kind::Port, place, value, "ports", rule, found)?;
    collect_parts(Kind::Edge, place, value, "edges", None, found)
}

// The items of one member of a node.
fn collect_parts<'a>(
    kind: Kind,
    place: usize,
    holder: &'a Value,
    key: &str,
    rule: Option<PortRule>,
    found: &mut Vec<Element<'a>>,
) -> Result<(), AllocError>
    requires { (d : Data) → rule ≡ node_rule (part kind place (view holder.now) d) }
    ensures { IfOk result (λ _. seen_list found.new.items ≡ seen_list found.old.items
        ++ map (part kind place (view holder.now)) (listed key.now (view holder.now))) }
{
    if let Some(items) = holder.get(key).and_then(Value::as_array) {
        collect_items(kind, place, holder, items, rule, found)
    } else {
        Ok(())
    }
}

fn collect_items<'a>(
    kind: Kind,
    place: usize,
    holder: &'a Value,
    items: &'a Vec<Value>,
    rule: Option<PortRule>,
    found: &mut Vec<Element<'a>>,
) -> Result<(), AllocError>
    requires { (d : Data) → rule ≡ node_rule (part kind place (view holder.now) d) }
    ensures { IfOk result (λ _. seen_list found.new.items ≡ seen_list found.old.items
        ++ map (part kind place (view holder.now)) (items_list (items_view items.now.items))) }
{
    for value in items {
        found.push(element_of(kind, Some(place), holder, value, rule))?;
    }
    Ok(())
}
