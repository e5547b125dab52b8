//! The elements of a value, with their numbers and the places of their ids, made once.
ghost use Rattle.std.specs.Prelude.{◌≡◌, ◌<◌, ◌≤◌, ◌-◌, length, min, slice_index, IfOk, true, false};
ghost use Rattle.elk_json.specs.declared.elements.Kind.TheVariants.{Node, Port};
ghost use Rattle.elk_json.specs.Counts.{counts, of_kind};
ghost use Rattle.elk_json.specs.Ends.{first_place};
ghost use Rattle.elk_json.specs.Keys.{key_id};
ghost use Rattle.elk_json.specs.Tables.{IsTable, has_id};
ghost use Rattle.elk_json.specs.Document.{number_at};
ghost use Rattle.elk_json.specs.Members.{is_node, is_port};
ghost use Rattle.elk_json.specs.Seen.{seen_list};

use crate::elements::{Element, Kind};
use crate::key::Key;
use crate::members::is_of;
use crate::table::{place_of, places_of};
use indexmap::IndexMap;
use std::alloc::{AllocError, Global};

// The elements; by place how many nodes and how many ports stand before it; and where each id stands first, among nodes
// and ports, and among edges.
#[derive(Drop)]
pub(crate) struct Listed<'e, 'a> {
    pub elements: &'e [Element<'a>],
    pub nodes: Vec<usize>,
    pub ports: Vec<usize>,
    pub ends: IndexMap<Key<'a>, usize>,
    pub edges: IndexMap<Key<'a>, usize>,
    pub ghost nodes_counted: { nodes.items ≡ counts (of_kind Node) (seen_list elements.now) },
    pub ghost ports_counted: { ports.items ≡ counts (of_kind Port) (seen_list elements.now) },
    pub ghost ends_placed: { IsTable false ends (seen_list elements.now) },
    pub ghost edges_placed: { IsTable true edges (seen_list elements.now) },
}

// How many elements of the kind stand before each place, and before the end.
fn counts_of(alloc: Global, kind: Kind, elements: &[Element<'_>]) -> Result<Vec<usize>, AllocError>
    ensures { IfOk result (λ counted. counted.items ≡ counts (of_kind kind) (seen_list elements.now)) }
{
    let mut counted = Vec::new(alloc);
    let mut count = 0;
    for element in elements {
        counted.push(count)?;
        if is_of(element, kind) {
            count += 1;
        }
    }
    counted.push(count)?;
    Ok(counted)
}

// The elements with their numbers and places.
pub(crate) fn list_elements<'e, 'a>(
    alloc: Global,
    elements: &'e [Element<'a>],
) -> Result<Listed<'e, 'a>, AllocError>
    ensures { IfOk result (λ list. list.elements.now ≡ elements.now) }
{
    let nodes = counts_of(alloc, Kind::Node, elements)?;
    let ports = counts_of(alloc, Kind::Port, elements)?;
    let ends = places_of(alloc, false, elements)?;
    let edges = places_of(alloc, true, elements)?;
    Ok(Listed {
        elements,
        nodes,
        ports,
        ends,
        edges,
    })
}

// The count at the place, or at the end.
fn count_at(counted: &[usize], place: usize) -> usize
    requires { 0 < length counted.now }
    ensures { result ≡ slice_index counted.now (min place (length counted.now - 1)) }
{
    counted[place.min(counted.len() - 1)]
}

// Where the id stands first, among edges or among nodes and ports.
pub(crate) fn first_of<'a>(list: &Listed<'_, 'a>, edges: bool, key: Key<'a>) -> Option<usize>
    ensures { result ≡ first_place (has_id edges (key_id key.entry)) 0 (seen_list list.now.elements.now) }
{
    if edges {
        place_of(&list.edges, key)
    } else {
        place_of(&list.ends, key)
    }
}

// The number of a node by its place.
pub(crate) fn node_number(list: &Listed<'_, '_>, place: usize) -> u32
    requires { length (seen_list list.now.elements.now) ≤ 8192 }
    ensures { result ≡ number_at is_node (seen_list list.now.elements.now) place }
{
    count_at(list.nodes.as_slice(), place) as u32
}

// The number of a port by its place.
pub(crate) fn port_number(list: &Listed<'_, '_>, place: usize) -> u32
    requires { length (seen_list list.now.elements.now) ≤ 8192 }
    ensures { result ≡ number_at is_port (seen_list list.now.elements.now) place }
{
    count_at(list.ports.as_slice(), place) as u32
}
