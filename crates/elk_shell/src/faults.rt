//! What is wrong with a graph, as replies tell it.

use crate::settings::Settings;
use border_levels::{Reach, reaches_of};
use elk_doc::document::Id;
use elk_json::{Refusal, Rule, rule_name, rule_number};
use graph_draft::{Draft, read};
use graph_faults::{Fault, fault_value, faults_of_call, nested_fault, text_fault};
use graph_layout::{Sent, bare_document, lowered_document};
use json_places::{Lines, Spot, Unread, letters_of, read_places};
use serde_json::value::Map;
use serde_json::{Number, Value, put};
use std::alloc::{AllocError, Global};

// The most characters of an id that a sentence has.
const MOST_CHARACTERS: usize = 60;

// An id as it stands in a graph.
fn id_value(alloc: Global, place: Option<&Id>) -> Result<Value, AllocError> {
    match place {
        Some(Id::Text(name)) => Ok(Value::String(String::from_str(alloc, name.as_str())?)),
        Some(Id::Whole(number)) => match Number::from_i128(*number) {
            Some(number) => Ok(Value::Number(number)),
            None => Ok(Value::Null),
        },
        None => Ok(Value::Null),
    }
}

// The first characters of a text, and three points where there are more.
fn shortened(alloc: Global, text: &str) -> Result<String, AllocError> {
    let mut out = String::new(alloc);
    let mut count: usize = 0;
    for letter in text.chars() {
        if count == MOST_CHARACTERS {
            out.push('…')?;
            return Ok(out);
        }
        out.push(letter)?;
        count = count.saturating_add(1);
    }
    Ok(out)
}

// An id as it stands in a sentence.
fn told_id(alloc: Global, id: &Value) -> Result<String, AllocError> {
    match id {
        Value::Null => String::from_str(alloc, "an element without an id"),
        _ => {
            let text = id.to_string(alloc)?;
            shortened(alloc, text.as_str())
        }
    }
}

// What is wrong where a rule is broken at the element `it`.
fn words_of(alloc: Global, rule: Rule, it: &str) -> Result<String, AllocError> {
    match rule {
        Rule::NotJson => String::from_str(
            alloc,
            "the document is not valid JSON, or is nested more than 127 deep",
        ),
        Rule::NotWhole => String::from_str(alloc, "a number is not whole"),
        Rule::BadShape => String::from_str(
            alloc,
            "a member has the wrong kind of value, or an id or an end is missing",
        ),
        Rule::OutOfRange => {
            format!(in alloc;
                "a size of {it} is not from 0 to 2^20, or its given place is out of range"
            )
        }
        Rule::TooMany => String::from_str(
            alloc,
            "there are more than 2,048 nodes, 4,096 ports or 2,048 edges",
        ),
        Rule::TooDeep => String::from_str(alloc, "nodes are nested more than 50 levels deep"),
        _ => words_at(alloc, rule, it),
    }
}

// The same for the rules on ids, ends and what stands at one element.
fn words_at(alloc: Global, rule: Rule, it: &str) -> Result<String, AllocError> {
    match rule {
        Rule::DoubleId => format!(in alloc; "the id {it} is used twice"),
        Rule::UnknownEnd => {
            format!(in alloc; "the edge {it} has an end that is not a node or port of the document")
        }
        Rule::Hyperedge => {
            format!(in alloc; "the edge {it} does not have exactly one source and one target")
        }
        Rule::CrossLevel => format!(in alloc; "the edge {it} joins nodes of two levels"),
        Rule::OptionValue => {
            format!(in alloc;
                "an option of {it} has an invalid value, or {it} is a level of boxes with an edge"
            )
        }
        Rule::PortInside => {
            format!(in alloc; "the port {it} lies inside its node, or touches no side of it")
        }
        _ => {
            format!(in alloc;
                "{it} lacks a member that placed documents have, or has it in another form"
            )
        }
    }
}

fn text(alloc: Global, text: &str) -> Result<Value, AllocError> {
    Ok(Value::String(String::from_str(alloc, text)?))
}

/// A fault as replies have it.
pub(crate) fn value_of(
    alloc: Global,
    rule: Value,
    name: &str,
    id: Value,
    message: String,
) -> Result<Value, AllocError> {
    let mut told = Map::new(alloc);
    put(&mut told, alloc, "rule", rule)?;
    put(&mut told, alloc, "name", text(alloc, name)?)?;
    put(&mut told, alloc, "id", id)?;
    put(&mut told, alloc, "message", Value::String(message))?;
    Ok(Value::Object(told))
}

fn rule_value(number: u32) -> Value {
    match Number::from_i128(number as i128) {
        Some(number) => Value::Number(number),
        None => Value::Null,
    }
}

// What is known of an element at which a rule is broken.
fn fault_at(alloc: Global, rule: Rule, id: Value) -> Result<Value, AllocError> {
    let number = rule_number(rule);
    let name = rule_name(rule);
    let it = told_id(alloc, &id)?;
    let words = words_of(alloc, rule, it.as_str())?;
    let message = format!(in alloc; "{words} (rule {number}, {name})")?;
    value_of(alloc, rule_value(number), name, id, message)
}

/// The fault that the engine tells by a rule and a place.
pub(crate) fn bare_fault(alloc: Global, refusal: &Refusal) -> Result<Value, AllocError> {
    let id = id_value(alloc, refusal.place.as_ref())?;
    fault_at(alloc, refusal.rule, id)
}

/// The fault of an input that is longer than it may be.
pub(crate) fn length_fault(alloc: Global, what: &str, limit: &str) -> Result<Value, AllocError> {
    let message = format!(in alloc; "{what} is longer than {limit} bytes (rule 0, TooLong)")?;
    value_of(alloc, rule_value(0), "TooLong", Value::Null, message)
}

/// The fault of a line that is no request.
pub(crate) fn request_fault(alloc: Global, message: &str) -> Result<Value, AllocError> {
    let message = String::from_str(alloc, message)?;
    value_of(alloc, Value::Null, "BadRequest", Value::Null, message)
}

// Whether a fault is the one that the engine tells.
fn is_told(fault: &Fault, rule: Rule, id: &Value) -> bool {
    fault.rule == rule_number(rule)
        && match fault.id.as_ref() {
            Some(own) => own == id,
            None => id.is_null(),
        }
}

// The faults as values, that which the engine tells first.
fn ordered(
    alloc: Global,
    faults: &[Fault],
    rule: Rule,
    id: Value,
) -> Result<Vec<Value>, AllocError> {
    let number = rule_number(rule);
    let first = match faults.iter().position(|fault| is_told(fault, rule, &id)) {
        Some(at) => Some(at),
        None => faults.iter().position(|fault| fault.rule == number),
    };
    let mut all = Vec::new(alloc);
    all.push(match first {
        Some(at) => match faults.get(at) {
            Some(fault) => fault_value(alloc, fault)?,
            None => Value::Null,
        },
        None => fault_at(alloc, rule, id)?,
    })?;
    for (at, fault) in faults.iter().enumerate() {
        if Some(at) != first {
            all.push(fault_value(alloc, fault)?)?;
        }
    }
    Ok(all)
}

// The faults of a graph in a document of it.
fn faults_in(
    alloc: Global,
    sent: &Sent,
    graph: &Value,
    settings: &Settings,
) -> Result<Vec<Fault>, AllocError> {
    faults_of_call(
        alloc,
        &settings.how.table,
        &sent.document,
        graph,
        &sent.owners,
        &settings.general,
    )
}

// The id of the graph's element at which the engine found something.
fn given_id(alloc: Global, refusal: &Refusal, sent: &Sent) -> Result<Value, AllocError> {
    let id = id_value(alloc, refusal.place.as_ref())?;
    let owner = match &id {
        Value::String(text) => sent.owners.get(text.as_str()),
        _ => None,
    };
    match owner {
        Some(owner) => owner.clone(),
        None => Ok(id),
    }
}

/// All faults of a graph that the engine refuses, the one that it tells first. What only stages bring about, as too many nodes with those
/// for labels, is looked for if nothing else breaks the rule.
pub(crate) fn faults_of_graph(
    alloc: Global,
    graph: &Value,
    settings: &Settings,
    refusal: &Refusal,
) -> Result<Vec<Value>, AllocError> {
    let sent = lowered_document(alloc, graph, &settings.how)?;
    let number = rule_number(refusal.rule);
    let mut faults = plain_faults(alloc, graph, settings)?;
    if !faults.iter().any(|fault| fault.rule == number) {
        faults = faults_in(alloc, &sent, graph, settings)?;
    }
    let id = given_id(alloc, refusal, &sent)?;
    ordered(alloc, faults.as_slice(), refusal.rule, id)
}

/// The faults of a graph before stages rewrite it.
pub(crate) fn plain_faults(
    alloc: Global,
    graph: &Value,
    settings: &Settings,
) -> Result<Vec<Fault>, AllocError> {
    let sent = bare_document(alloc, graph, &settings.how)?;
    faults_in(alloc, &sent, graph, settings)
}

const CROSS_LEVEL: u32 = 10;

/// All faults of a graph that can be found without a layout. If edges cross borders, each level is sent by itself, so what stages make of
/// the whole tells no more than which other edges can't be drawn.
pub(crate) fn known_faults(
    alloc: Global,
    graph: &Value,
    settings: &Settings,
) -> Result<Vec<Fault>, AllocError> {
    let faults = plain_faults(alloc, graph, settings)?;
    if !faults.is_empty() {
        return Ok(faults);
    }
    let sent = lowered_document(alloc, graph, &settings.how)?;
    let mut faults = faults_in(alloc, &sent, graph, settings)?;
    let draft = read(alloc, graph, &settings.how)?;
    if has_edge_across(alloc, draft.as_ref())? {
        faults.retain(|fault| fault.rule == CROSS_LEVEL);
    }
    Ok(faults)
}

/// Whether an edge of a draft crosses borders of levels and may be drawn.
pub(crate) fn has_edge_across(alloc: Global, draft: Option<&Draft>) -> Result<bool, AllocError> {
    match draft {
        Some(draft) => {
            let reaches = reaches_of(alloc, draft)?;
            Ok(reaches.iter().any(|reach| matches!(reach, Reach::Across)))
        }
        None => Ok(false),
    }
}

/// The faults of a graph before stages rewrite it, as replies have them.
pub(crate) fn plain_values(
    alloc: Global,
    graph: &Value,
    settings: &Settings,
) -> Result<Vec<Value>, AllocError> {
    let mut values = Vec::new(alloc);
    for fault in plain_faults(alloc, graph, settings)?.iter() {
        values.push(fault_value(alloc, fault)?)?;
    }
    Ok(values)
}

/// The fault of bytes that are no JSON, with its place in them.
pub(crate) fn faults_of_text(
    alloc: Global,
    bytes: &[u8],
    refusal: &Refusal,
) -> Result<Vec<Value>, AllocError> {
    let fault = match text_of(bytes) {
        Some(text) => misread_value(alloc, text, refusal)?,
        None => bare_fault(alloc, refusal)?,
    };
    Ok(vec![in alloc; fault]?)
}

/// Bytes as a text; nothing where they aren't UTF-8.
pub(crate) fn text_of(bytes: &[u8]) -> Option<&str> {
    std::str::from_utf8(bytes).ok()
}

fn misread_value(alloc: Global, text: &str, refusal: &Refusal) -> Result<Value, AllocError> {
    let found = misread_in(alloc, text)?;
    match found.as_ref() {
        Some(found) => fault_value(alloc, &found.0),
        None => bare_fault(alloc, refusal),
    }
}

/// What is wrong with a text that is no JSON, and where.
pub(crate) fn misread_in(alloc: Global, text: &str) -> Result<Option<(Fault, Spot)>, AllocError> {
    let letters = letters_of(alloc, text)?;
    let lines = Lines::of(alloc, letters.as_slice())?;
    match read_places(alloc, letters.as_slice()) {
        Ok(_) => Ok(None),
        Err(Unread::Memory(error)) => Err(error),
        Err(Unread::Misread(misread)) => match nested_fault(alloc, &misread)? {
            Some((fault, at)) => Ok(Some((fault, lines.spot(alloc, at)?))),
            None => {
                let spot = lines.spot(alloc, misread.at)?;
                Ok(Some((text_fault(alloc, &misread, &spot)?, spot)))
            }
        },
    }
}
