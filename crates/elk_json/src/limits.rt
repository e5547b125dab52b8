//! How many elements there are, and how deep levels nest.
ghost use Rattle.std.specs.Prelude.{◌≡◌, ◌+◌, ◌≤◌, min, length, filter};
ghost use Rattle.serde_json.specs.View.{view, items_view, members_view};
ghost use Rattle.elk_json.specs.Counts.{of_kind};
ghost use Rattle.elk_json.specs.Ranges.{are_too_many as many_test, levels, levels_below, levels_within, levels_among, is_too_deep as deep_test};
ghost use Rattle.elk_json.specs.Seen.{seen_list};

use crate::collect::is_key;
use crate::elements::{Element, Kind};
use crate::members::is_of;
use serde_json::Value;
use serde_json::value::Map;

// How many elements are of the kind.
fn count_of(kind: Kind, elements: &[Element<'_>]) -> usize
    ensures { result ≡ length (filter (of_kind kind) (seen_list elements.now)) }
{
    let mut count = 0;
    for element in elements {
        if is_of(element, kind) {
            count += 1;
        }
    }
    count
}

pub(crate) fn are_too_many(elements: &[Element<'_>]) -> bool
    ensures { result ≡ many_test (seen_list elements.now) }
{
    count_of(Kind::Node, elements) > 2048
        || count_of(Kind::Port, elements) > 4096
        || count_of(Kind::Edge, elements) > 2048
}

// The levels below, counted up to 51.
#[cycle(levels)]
fn levels_of(value: &Value) -> u32
    ensures { result ≡ min 51 (levels (view value.now)) }
{
    match value {
        Value::Object(members) => levels_in_members(members),
        _ => 0,
    }
}

#[cycle(levels)]
fn levels_in_members(members: &Map<String, Value>) -> u32
    ensures { result ≡ min 51 (levels_below (members_view members.now.entries)) }
{
    for (key, member) in members.iter() {
        if is_key(key, "children") {
            return levels_in_member(member);
        }
    }
    0
}

#[cycle(levels)]
fn levels_in_member(member: &Value) -> u32
    ensures { result ≡ min 51 (levels_within (view member.now)) }
{
    match member {
        Value::Array(items) => levels_in_items(items),
        _ => 0,
    }
}

#[cycle(levels)]
fn levels_in_items(items: &Vec<Value>) -> u32
    ensures { result ≡ min 51 (levels_among (items_view items.now.items)) }
{
    let mut deepest = 0;
    for item in items {
        deepest = one_more(levels_of(item)).max(deepest);
    }
    deepest
}

fn one_more(n: u32) -> u32
    requires { n ≤ 51 }
    ensures { result ≡ min 51 (n + 1) }
{
    (n + 1).min(51)
}

pub(crate) fn is_too_deep(value: &Value) -> bool
    ensures { result ≡ deep_test (view value.now) }
{
    levels_of(value).max(1) > 50
}
