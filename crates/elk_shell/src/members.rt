//! The members of a reply: what is wanted of a graph, or why nothing is made of it.

use crate::dot::{graph_in, told_warnings};
use crate::failure::{Failure, refused};
use crate::faults::request_fault;
use crate::findings::{Finding, findings_in_graph, told_findings};
use crate::located::{findings_in_dot, findings_in_json};
use crate::making::{laid, parsed};
use crate::requests::{Misfit, Wanted};
use crate::settings::Settings;
use crate::subject::Subject;
use dot_graph::Translation;
use elk_picture::picture;
use graph_layout::{Laid, with_plain_numbers};
use graph_warnings::{warning_value, warnings_of};
use serde_json::value::Map;
use serde_json::{Value, put};
use std::alloc::{AllocError, Global};

pub(crate) type Members = Map<String, Value>;

// What is wanted of a graph that is laid out, as members of a reply.
fn put_laid(
    members: &mut Members,
    alloc: Global,
    laid: Laid,
    wanted: Wanted,
) -> Result<(), AllocError> {
    let Laid { placed, document } = laid;
    if wanted.svg {
        let svg = picture(alloc, &placed, wanted.look.theme, wanted.look.arrows)?;
        put(members, alloc, "svg", Value::String(svg))?;
    }
    if wanted.document {
        put(members, alloc, "document", document)?;
    }
    if wanted.placed {
        put(members, alloc, "placed", placed)?;
    }
    Ok(())
}

// What is wanted of a graph, as the members of a reply.
fn members_of(
    alloc: Global,
    graph: Value,
    settings: &Settings,
    wanted: Wanted,
) -> Result<Members, Failure> {
    let mut members = Map::new(alloc);
    if wanted.graph {
        put(&mut members, alloc, "graph", graph.clone()?)?;
    }
    if wanted.needs_layout() {
        let laid = laid(alloc, graph, settings)?;
        put_laid(&mut members, alloc, laid, wanted)?;
    }
    Ok(members)
}

// What has no effect in a graph, if it is wanted.
fn wanted_warnings(
    alloc: Global,
    graph: &Value,
    settings: &Settings,
    wanted: Wanted,
) -> Result<Option<Value>, AllocError> {
    if !wanted.warnings {
        return Ok(None);
    }
    let mut values = Vec::new(alloc);
    for warning in warnings_of(alloc, &settings.how.table, graph, &settings.general)?.iter() {
        values.push(warning_value(alloc, warning)?)?;
    }
    Ok(Some(Value::Array(values)))
}

/// What a request that can't be read is told.
pub(crate) fn misfit(alloc: Global, misfit: Misfit) -> Result<Failure, AllocError> {
    let message = format!(in alloc; "{misfit}")?;
    Ok(refused(alloc, request_fault(alloc, message.as_str())?))
}

/// What tells faults: the first of them, and in it all.
pub(crate) fn fault_members(alloc: Global, faults: Vec<Value>) -> Result<Members, AllocError> {
    let mut first = match faults.first() {
        Some(Value::Object(members)) => members.clone()?,
        _ => Map::new(alloc),
    };
    if faults.len() > 1 {
        put(&mut first, alloc, "faults", Value::Array(faults))?;
    }
    let mut members = Map::new(alloc);
    put(&mut members, alloc, "fault", Value::Object(first))?;
    Ok(members)
}

// What is made of a graph of which more is told. If it is refused, that stands beside the fault.
fn made_or_fault(alloc: Global, made: Result<Members, Failure>) -> Result<Members, Failure> {
    match made {
        Ok(members) => Ok(members),
        Err(Failure::Refused(faults)) => Ok(fault_members(alloc, faults)?),
        Err(Failure::Memory) => Err(Failure::Memory),
    }
}

fn made_of_graph(
    alloc: Global,
    graph: Value,
    settings: &Settings,
    wanted: Wanted,
) -> Result<Members, Failure> {
    let warnings = wanted_warnings(alloc, &graph, settings, wanted)?;
    let mut members = made_or_fault(alloc, members_of(alloc, graph, settings, wanted))?;
    if let Some(warnings) = warnings {
        put(&mut members, alloc, "warnings", warnings)?;
    }
    Ok(members)
}

fn made_of_text(
    alloc: Global,
    text: &str,
    settings: &Settings,
    wanted: Wanted,
) -> Result<Members, Failure> {
    let graph = with_plain_numbers(alloc, parsed(alloc, text.as_bytes())?)?;
    made_of_graph(alloc, graph, settings, wanted)
}

fn made_of_dot(
    alloc: Global,
    text: &str,
    settings: &Settings,
    wanted: Wanted,
) -> Result<Members, Failure> {
    let Translation { graph, warnings } = graph_in(alloc, text.as_bytes())?;
    let mut members = made_or_fault(alloc, members_of(alloc, graph, settings, wanted))?;
    if wanted.warnings {
        let warnings = told_warnings(alloc, warnings.as_slice())?;
        put(&mut members, alloc, "warnings", Value::Array(warnings))?;
    }
    Ok(members)
}

fn made_of_placed(alloc: Global, placed: &Value, wanted: Wanted) -> Result<Members, Failure> {
    let svg = picture(alloc, placed, wanted.look.theme, wanted.look.arrows)?;
    let mut members = Map::new(alloc);
    put(&mut members, alloc, "svg", Value::String(svg))?;
    Ok(members)
}

/// What is wanted of the graph of a request, which is given as the request has it.
pub(crate) fn made(
    alloc: Global,
    subject: Subject,
    given: Option<Value>,
    settings: &Settings,
    wanted: Wanted,
) -> Result<Members, Failure> {
    match (subject, given) {
        (Subject::Graph, Some(graph)) => made_of_graph(alloc, graph, settings, wanted),
        (Subject::Placed, Some(placed)) => made_of_placed(alloc, &placed, wanted),
        (Subject::Text, Some(Value::String(text))) => {
            made_of_text(alloc, text.as_str(), settings, wanted)
        }
        (Subject::Dot, Some(Value::String(text))) => {
            made_of_dot(alloc, text.as_str(), settings, wanted)
        }
        _ => Err(misfit(alloc, Misfit::NoGraph)?),
    }
}

// All that can be said of the graph of a request without a layout.
fn findings_of(
    alloc: Global,
    subject: Subject,
    given: Option<&Value>,
    settings: &Settings,
) -> Result<Vec<Finding>, Failure> {
    match (subject, given) {
        (Subject::Graph, Some(graph)) => Ok(findings_in_graph(alloc, graph, settings)?),
        (Subject::Text, Some(Value::String(text))) => {
            Ok(findings_in_json(alloc, text.as_str().as_bytes(), settings)?)
        }
        (Subject::Dot, Some(Value::String(text))) => {
            Ok(findings_in_dot(alloc, text.as_str().as_bytes(), settings)?)
        }
        _ => Err(misfit(alloc, Misfit::NoGraph)?),
    }
}

/// What is wanted of the graph of a request, and all that can be said of the graph without a layout.
pub(crate) fn judged(
    alloc: Global,
    subject: Subject,
    given: Option<Value>,
    settings: &Settings,
    wanted: Wanted,
) -> Result<Members, Failure> {
    let findings = findings_of(alloc, subject, given.as_ref(), settings)?;
    let mut members = if wanted.is_lint_alone() {
        Map::new(alloc)
    } else {
        made_or_fault(alloc, made(alloc, subject, given, settings, wanted))?
    };
    put(&mut members, alloc, "lint", told_findings(alloc, findings)?)?;
    Ok(members)
}
