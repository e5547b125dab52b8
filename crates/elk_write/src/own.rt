// The members that are written of a drawing, and where they stand among those that an object keeps.
ghost use Rattle.std.specs.Prelude.{◌≡◌, ◌∷◌, OnOk, IfOk, option_map, option_and_then, slice_get, drop};
ghost use Rattle.json.specs.Token.{key as key_token};
ghost use Rattle.serde_json.specs.Data.{no_members, member};
ghost use Rattle.elk_write.specs.Values.{whole};
ghost use Rattle.elk_write.specs.Tokens.{tokens_of, tokens_of_members, Adds};
ghost use Rattle.elk_write.specs.Merged.{told_data, own_members, append, corner, point_members, edge_members, height_members, width_members, layering_members, level_members, node_members, is_before as before_test, IsPutBefore};

use crate::answer::is_split_level;
use crate::tokens::{put_layering, put_sections, put_whole};
use drawing_types::section::Section;
use drawing_types::shape::{Point, Rect};
use elk_doc::document::{Doc, Edge, Id};
use elk_doc::drawing::{Certificate, Placed};
use json::Writer;
use std::alloc::{AllocError, Global};

// What is written at a key.
#[derive(Clone, Copy, Drop)]
pub(crate) enum Told<'a> {
    Whole(i64),
    Sections(&'a Id, &'a Section),
    Layering(&'a Doc, bool, &'a Certificate),
}

// A written member.
#[derive(Clone, Copy, Drop)]
pub(crate) struct Own<'a> {
    key: &'static str,
    told: Told<'a>,
}

// ---- what is written, in the order of its keys

#[tactic(auto, using(crate::proofs::Merging::own_push))]
fn with_whole<'a>(
    own: Vec<Own<'a>>,
    key: &'static str,
    number: i64,
) -> Result<Vec<Own<'a>>, AllocError>
    ensures { IfOk result (λ v. own_members v.items ≡ append (own_members own.entry.items) (member key.now (whole number) no_members)) }
{
    let mut own = own;
    own.push(Own {
        key,
        told: Told::Whole(number),
    })?;
    Ok(own)
}

// The place of a port or a node.
#[tactic(auto, using(crate::proofs::Puts::append_none, crate::proofs::Merging::place_added))]
fn with_place<'a>(own: Vec<Own<'a>>, place: Option<Point>) -> Result<Vec<Own<'a>>, AllocError>
    ensures { IfOk result (λ v. own_members v.items ≡ append (own_members own.entry.items) (point_members place)) }
{
    match place {
        None => Ok(own),
        Some(place) => {
            let own = with_whole(own, "x", place.x)?;
            Ok(with_whole(own, "y", place.y)?)
        }
    }
}

#[tactic(auto, using(crate::proofs::Puts::append_none))]
fn with_height<'a>(own: Vec<Own<'a>>, area: Option<&Rect>) -> Result<Vec<Own<'a>>, AllocError>
    ensures { IfOk result (λ v. own_members v.items ≡ append (own_members own.entry.items) (height_members (option_map (λ r. r.now) area.entry))) }
{
    match area {
        None => Ok(own),
        Some(area) => with_whole(own, "height", area.height),
    }
}

#[tactic(auto, using(crate::proofs::Puts::append_none))]
fn with_width<'a>(own: Vec<Own<'a>>, area: Option<&Rect>) -> Result<Vec<Own<'a>>, AllocError>
    ensures { IfOk result (λ v. own_members v.items ≡ append (own_members own.entry.items) (width_members (option_map (λ r. r.now) area.entry))) }
{
    match area {
        None => Ok(own),
        Some(area) => with_whole(own, "width", area.width),
    }
}

#[tactic(auto, using(crate::proofs::Puts::append_none, crate::proofs::Merging::own_push))]
fn with_layering<'a>(
    own: Vec<Own<'a>>,
    doc: &'a Doc,
    split: bool,
    certificate: Option<&'a Certificate>,
) -> Result<Vec<Own<'a>>, AllocError>
    ensures { IfOk result (λ v. own_members v.items
        ≡ append (own_members own.entry.items) (layering_members doc.now split (option_map (λ c. c.now) certificate.entry))) }
{
    match certificate {
        None => Ok(own),
        Some(certificate) => {
            let mut own = own;
            own.push(Own {
                key: "layering",
                told: Told::Layering(doc, split, certificate),
            })?;
            Ok(own)
        }
    }
}

pub(crate) fn port_own<'a>(alloc: Global, place: Option<&Point>) -> Result<Vec<Own<'a>>, AllocError>
    ensures { IfOk result (λ v. own_members v.items ≡ point_members (option_map (λ p. p.now) place.entry)) }
{
    with_place(Vec::new(alloc), place.copied())
}

pub(crate) fn edge_own<'a>(
    alloc: Global,
    edge: Option<&'a Edge>,
    section: Option<&'a Section>,
) -> Result<Vec<Own<'a>>, AllocError>
    ensures { IfOk result (λ v. own_members v.items
        ≡ edge_members (option_map (λ e. e.now) edge.entry) (option_map (λ s. s.now) section.entry)) }
{
    let mut own = Vec::new(alloc);
    match edge {
        None => Ok(own),
        Some(edge) => match section {
            None => Ok(own),
            Some(section) => {
                own.push(Own {
                    key: "sections",
                    told: Told::Sections(&edge.id, section),
                })?;
                Ok(own)
            }
        },
    }
}

// The corner of a box at which it stands.
fn corner_of(area: Option<&Rect>) -> Option<Point>
    ensures { result ≡ option_map corner (option_map (λ r. r.now) area.entry) }
{
    match area {
        None => None,
        Some(area) => Some(Point {
            x: area.x,
            y: area.y,
        }),
    }
}

// The certificate of a node's level.
fn certificate_at(placed: &Placed, node: usize) -> Option<&Certificate>
    ensures { option_map (λ c. c.now) result ≡ option_and_then (λ c. c) (slice_get placed.now.levels node) }
{
    match placed.levels.as_slice().get(node) {
        Some(Some(certificate)) => Some(certificate),
        _ => None,
    }
}

fn level_own<'a>(
    alloc: Global,
    doc: &'a Doc,
    placed: &'a Placed,
    node: usize,
) -> Result<Vec<Own<'a>>, AllocError>
    ensures { IfOk result (λ v. own_members v.items ≡ level_members doc.now placed.now node) }
{
    let area = placed.boxes.as_slice().get(node);
    let own = with_height(Vec::new(alloc), area)?;
    let own = with_layering(
        own,
        doc,
        is_split_level(doc, node),
        certificate_at(placed, node),
    )?;
    with_width(own, area)
}

pub(crate) fn node_own<'a>(
    alloc: Global,
    doc: &'a Doc,
    placed: &'a Placed,
    node: usize,
    compound: bool,
) -> Result<Vec<Own<'a>>, AllocError>
    ensures { IfOk result (λ v. own_members v.items ≡ node_members compound doc.now placed.now node) }
{
    let own = if compound {
        level_own(alloc, doc, placed, node)?
    } else {
        Vec::new(alloc)
    };
    with_place(own, corner_of(placed.boxes.as_slice().get(node)))
}

// ---- how it is written

fn put_told(alloc: Global, out: &mut Writer, told: &Told<'_>) -> Result<(), AllocError>
    ensures { OnOk result (Adds out.old out.new (tokens_of (told_data told.now))) }
{
    match told {
        Told::Whole(number) => put_whole(out, *number),
        Told::Sections(id, section) => put_sections(alloc, out, id, section),
        Told::Layering(doc, split, certificate) => put_layering(out, doc, *split, certificate),
    }
}

fn put_own(alloc: Global, out: &mut Writer, own: &Own<'_>) -> Result<(), AllocError>
    ensures { OnOk result (Adds out.old out.new (key_token own.now.key.now ∷ tokens_of (told_data own.now.told))) }
{
    out.key(own.key)?;
    put_told(alloc, out, &own.told)
}

fn is_before(one: &str, other: &str) -> bool
    ensures { result ≡ before_test one.now other.now }
{
    one < other
}

// Writes the members from the number `next` on that stand before a key, and returns the number of the first that doesn't.
pub(crate) fn put_before(
    alloc: Global,
    out: &mut Writer,
    own: &[Own<'_>],
    next: usize,
    key: &str,
) -> Result<usize, AllocError>
    ensures { IfOk result (λ after. IsPutBefore own.now next key.now out.old out.new after) }
{
    for number in next..own.len() {
        let first = &own[number];
        if !is_before(first.key, key) {
            return Ok(number);
        }
        put_own(alloc, out, first)?;
    }
    Ok(own.len())
}

// Writes the members from the number `next` on, and the end of their object.
pub(crate) fn put_rest(
    alloc: Global,
    out: &mut Writer,
    own: &[Own<'_>],
    next: usize,
) -> Result<(), AllocError>
    ensures { OnOk result (Adds out.old out.new (tokens_of_members (own_members (drop next own.now)))) }
{
    for number in next..own.len() {
        put_own(alloc, out, &own[number])?;
    }
    out.end_object()
}
