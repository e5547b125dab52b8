// What `check` answers.
ghost use Rattle.std.specs.Prelude.{◌≡◌, ℕ, List, IfOk, OnOk, IfErr, option_map};
ghost use Rattle.elk_engine.specs.declared.words.Command.TheVariants.{Check};
ghost use Rattle.elk_engine.specs.Command.{Answers, Refuses};
ghost use Rattle.elk_engine.specs.Check.{id_at, verdict_line, verdict_status};
ghost use Rattle.elk_engine.specs.Reply.{IsCause};

use crate::notes::place_text;
use crate::reply::{Reply, Stop, stopped};
use elk_doc::document::{Doc, Id};
use elk_json::parse;
use elk_write::placed_of;
use layout_check::{Place, Verdict, check};
use std::alloc::{AllocError, Global};

// The id of an element that a verdict names.
fn id_of(doc: &Doc, place: Place) -> Option<&Id>
    ensures { option_map (λ id. id.now) result ≡ id_at doc.now place }
{
    match place {
        Place::Absent => None,
        Place::Node(node) => match doc.nodes().get(node as usize) {
            Some(node) => node.id.as_ref(),
            None => None,
        },
        Place::Port(port) => match doc.ports().get(port as usize) {
            Some(port) => Some(&port.id),
            None => None,
        },
        Place::Edge(edge) => match doc.edges().get(edge as usize) {
            Some(edge) => Some(&edge.id),
            None => None,
        },
    }
}

// The line of a verdict.
fn line_of(alloc: Global, doc: &Doc, verdict: Verdict) -> Result<Vec<u8>, AllocError>
    ensures { IfOk result (λ line. line.items ≡ verdict_line doc.now verdict) }
{
    match verdict {
        Verdict::Yes => b"yes\n".to_vec(alloc),
        Verdict::No {
            definition,
            first,
            second,
        } => {
            let first = place_text(alloc, id_of(doc, first))?;
            let second = place_text(alloc, id_of(doc, second))?;
            let mut line = format!(in alloc; "no {definition} ")?.into_bytes();
            line.extend_from_slice(&first)?;
            line.push(b' ')?;
            line.extend_from_slice(&second)?;
            line.push(b'\n')?;
            Ok(line)
        }
    }
}

// The status of a verdict.
fn status_of(verdict: Verdict) -> u8
    ensures { result ≡ verdict_status verdict }
{
    match verdict {
        Verdict::Yes => 0,
        Verdict::No { .. } => 1,
    }
}

/// The verdict on the placed document that the bytes are.
pub(crate) fn verdict_on(alloc: Global, bytes: &[u8]) -> Result<Reply, Stop>
    ensures answered { IfOk result (λ reply. Answers Check bytes.now reply.status reply.text.items) }
    ensures accepted { OnOk result ((note : List ℕ) → Refuses Check bytes.now note → ⊥) }
    ensures refused { IfErr result (IsCause Check bytes.now) }
{
    let value = match parse(alloc, bytes) {
        Ok(value) => value,
        Err(fault) => return Err(stopped(alloc, &fault)),
    };
    let (doc, placed) = match placed_of(alloc, &value) {
        Ok(pair) => pair,
        Err(fault) => return Err(stopped(alloc, &fault)),
    };
    let Ok(verdict) = check(alloc, &doc, &placed) else {
        return Err(Stop::Memory);
    };
    let Ok(text) = line_of(alloc, &doc, verdict) else {
        return Err(Stop::Memory);
    };
    Ok(Reply {
        status: status_of(verdict),
        text,
    })
}
