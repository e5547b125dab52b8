//! Where ids stand first.
ghost use Rattle.std.specs.Prelude.{◌≡◌, OnOk, IfOk, Some, None, not, if◌then◌else◌};
ghost use Rattle.std.specs.Option.{option_or};
ghost use Rattle.indexmap.specs.IndexMap.{get};
ghost use Rattle.elk_json.specs.declared.key.Key.{Key};
ghost use Rattle.elk_json.specs.Keys.{is_key, is_same_key};
ghost use Rattle.elk_json.specs.Members.{is_edge};
ghost use Rattle.elk_json.specs.Seen.{seen, seen_list};
ghost use Rattle.elk_json.specs.Tables.{IsTable};

use crate::elements::{Element, Kind};
use crate::key::Key;
use indexmap::IndexMap;
use std::alloc::{AllocError, Global};

// The place that a table has for a key.
pub(crate) fn place_of<'a>(table: &IndexMap<Key<'a>, usize>, key: Key<'a>) -> Option<usize>
    ensures { result ≡ get is_same_key table.now key.entry }
{
    table.get(&key).copied()
}

fn put<'a>(
    table: &mut IndexMap<Key<'a>, usize>,
    key: Key<'a>,
    place: usize,
) -> Result<(), AllocError>
    ensures { OnOk result ((k : Key) → get is_same_key table.new k
        ≡ (if is_same_key key.entry k then Some place else get is_same_key table.old k)) }
{
    table.insert(key, place)?;
    Ok(())
}

// Notes a place for a key that has none.
fn note<'a>(
    table: &mut IndexMap<Key<'a>, usize>,
    key: Key<'a>,
    place: usize,
) -> Result<(), AllocError>
    ensures { OnOk result ((k : Key) → get is_same_key table.new k
        ≡ option_or (get is_same_key table.old k) (if is_same_key k key.entry then Some place else None)) }
{
    if place_of(table, key).is_none() {
        put(table, key, place)?;
    }
    Ok(())
}

// The same of an id, if there is one.
fn note_if<'a>(
    table: &mut IndexMap<Key<'a>, usize>,
    key: Option<Key<'a>>,
    place: usize,
) -> Result<(), AllocError>
    ensures { OnOk result ((k : Key) → get is_same_key table.new k
        ≡ option_or (get is_same_key table.old k) (if is_key k key.entry then Some place else None)) }
{
    match key {
        None => Ok(()),
        Some(key) => note(table, key, place),
    }
}

fn is_among(element: &Element<'_>, edges: bool) -> bool
    ensures { result ≡ (if edges then is_edge (seen element.now) else not (is_edge (seen element.now))) }
{
    if edges {
        element.kind == Kind::Edge
    } else {
        element.kind != Kind::Edge
    }
}

// The places of the ids of edges, or of those of nodes and ports.
pub(crate) fn places_of<'a>(
    alloc: Global,
    edges: bool,
    elements: &[Element<'a>],
) -> Result<IndexMap<Key<'a>, usize>, AllocError>
    ensures { IfOk result (λ table. IsTable edges table (seen_list elements.now)) }
{
    let mut table = IndexMap::new(alloc);
    for (i, element) in elements.iter().enumerate() {
        if is_among(element, edges) {
            note_if(&mut table, element.key, i)?;
        }
    }
    Ok(table)
}
