//! What is made of a graph: the engine's answer, its drawing, its picture.
ghost use Rattle.std.specs.Prelude.{IfOk, IfErr};
ghost use Rattle.elk_json.specs.Refused.{MatchFault};
ghost use Rattle.elk_answer.specs.Answer.{IsAnswer, Refuses};

use crate::dot::graph_in;
use crate::failure::Failure;
use crate::faults::{faults_of_graph, faults_of_text, has_edge_across, plain_values};
use crate::settings::Settings;
use crate::words::Look;
use border_layout::draw_across;
use elk_answer::answer;
use elk_json::{DocFault, Refusal, parse};
use elk_picture::picture;
use graph_draft::{Draft, read};
use graph_layout::{Laid, laid_out_as_it_is, placed_draft, told, with_plain_numbers};
use serde_json::Value;
use std::alloc::{AllocError, Global};

const FEED: u8 = 10;

/// The engine's answer to a document's bytes: what `elk layout` writes.
///
/// Proved:
/// - The answer that it writes is the engine's, and a graph is only refused if the engine refuses it.
pub fn answer_of(alloc: Global, bytes: &[u8]) -> Result<Vec<u8>, DocFault>
    ensures answered { IfOk result (λ text. IsAnswer bytes.now text.items) }
    ensures refused { IfErr result (λ fault. MatchFault fault (Refuses bytes.now)) }
{
    answer(alloc, bytes)
}

fn line_of(alloc: Global, value: &Value) -> Result<Vec<u8>, AllocError> {
    let mut line = value.to_vec(alloc)?;
    line.push(FEED)?;
    Ok(line)
}

/// The value of a text in JSON.
pub(crate) fn parsed(alloc: Global, bytes: &[u8]) -> Result<Value, Failure> {
    match parse(alloc, bytes) {
        Ok(value) => Ok(value),
        Err(DocFault::Memory) => Err(Failure::Memory),
        Err(DocFault::Refused(refusal)) => {
            Err(Failure::Refused(faults_of_text(alloc, bytes, &refusal)?))
        }
    }
}

// The graph of a text, in the language of the settings.
fn graph_of(alloc: Global, bytes: &[u8], settings: &Settings) -> Result<Value, Failure> {
    if settings.is_dot {
        Ok(graph_in(alloc, bytes)?.graph)
    } else {
        Ok(with_plain_numbers(alloc, parsed(alloc, bytes)?)?)
    }
}

// Why a graph isn't laid out: all of its faults, the one that the engine names first.
fn failure_for(
    alloc: Global,
    graph: &Value,
    settings: &Settings,
    fault: DocFault,
) -> Result<Failure, AllocError> {
    match fault {
        DocFault::Memory => Ok(Failure::Memory),
        DocFault::Refused(refusal) => {
            let faults = faults_of_graph(alloc, graph, settings, &refusal)?;
            Ok(Failure::Refused(faults))
        }
    }
}

// A graph that lacks the form that stages rely on.
fn laid_as_it_is(alloc: Global, graph: &Value, settings: &Settings) -> Result<Laid, Failure> {
    match laid_out_as_it_is(alloc, graph, &settings.how) {
        Ok(laid) => Ok(laid),
        Err(fault) => Err(failure_for(alloc, graph, settings, fault)?),
    }
}

// A graph laid out at once.
fn laid_at_once(
    alloc: Global,
    graph: Value,
    draft: Option<Draft>,
    settings: &Settings,
) -> Result<Laid, Failure> {
    let Some(draft) = draft else {
        return laid_as_it_is(alloc, &graph, settings);
    };
    let drawn = placed_draft(alloc, &graph, draft, &settings.how);
    match drawn {
        Ok((draft, document)) => Ok(told(alloc, graph, draft, document)?),
        Err(fault) => Err(failure_for(alloc, &graph, settings, fault)?),
    }
}

// A fault of a level by its rule alone. The engine tells it by an id that the graph may not have.
fn nowhere(fault: DocFault) -> DocFault {
    match fault {
        DocFault::Refused(Refusal { rule, .. }) => DocFault::Refused(Refusal { rule, place: None }),
        fault => fault,
    }
}

// A graph with edges that cross borders, laid out level by level. The levels have other ids, so faults are looked for before. If another
// edge that crosses borders isn't drawn, the engine refuses it.
fn laid_across(
    alloc: Global,
    graph: Value,
    draft: Option<Draft>,
    settings: &Settings,
) -> Result<Laid, Failure> {
    let faults = plain_values(alloc, &graph, settings)?;
    if !faults.is_empty() {
        return Err(Failure::Refused(faults));
    }
    let drawn = draw_across(alloc, &graph, &settings.how);
    match drawn {
        Ok(Some(drawn)) => Ok(told(alloc, graph, drawn, Value::Null)?),
        Ok(None) => laid_at_once(alloc, graph, draft, settings),
        Err(fault) => Err(failure_for(alloc, &graph, settings, nowhere(fault))?),
    }
}

/// A graph laid out, or all of its faults.
pub(crate) fn laid(alloc: Global, graph: Value, settings: &Settings) -> Result<Laid, Failure> {
    let draft = read(alloc, &graph, &settings.how)?;
    if has_edge_across(alloc, draft.as_ref())? {
        laid_across(alloc, graph, draft, settings)
    } else {
        laid_at_once(alloc, graph, draft, settings)
    }
}

/// A graph with its places, as a line of JSON.
pub fn placed_of(alloc: Global, bytes: &[u8], settings: &Settings) -> Result<Vec<u8>, Failure> {
    let graph = graph_of(alloc, bytes, settings)?;
    let laid = laid(alloc, graph, settings)?;
    let line = line_of(alloc, &laid.placed)?;
    Ok(line)
}

/// The picture of a graph that is laid out.
pub fn drawing_of(
    alloc: Global,
    bytes: &[u8],
    settings: &Settings,
    look: Look,
) -> Result<Vec<u8>, Failure> {
    let graph = graph_of(alloc, bytes, settings)?;
    let laid = laid(alloc, graph, settings)?;
    let svg = picture(alloc, &laid.placed, look.theme, look.arrows)?;
    Ok(svg.into_bytes())
}

/// The picture of a graph that has places.
pub fn picture_of(alloc: Global, bytes: &[u8], look: Look) -> Result<Vec<u8>, Failure> {
    let placed = parsed(alloc, bytes)?;
    let svg = picture(alloc, &placed, look.theme, look.arrows)?;
    Ok(svg.into_bytes())
}
