//! What can be said of a text before its graph is laid out, each finding with its line and column.

use crate::dot::{dot_fault, dot_warning, letters_in, starts_in};
use crate::faults::{bare_fault, misread_in, text_of};
use crate::findings::{Finding, append, faults_in, warnings_in};
use crate::settings::Settings;
use dot_graph::{Translation, translate};
use dot_syntax::{DotFault, Misread, Place, read_dot};
use elk_json::{Refusal, Rule};
use graph_layout::with_plain_numbers;
use graph_warnings::double_member;
use json_places::{Lines, Places, Spot, letters_of, read_places};
use serde_json::Value;
use std::alloc::{AllocError, Global};

// Gives findings their places in a text: a fault stands at a value, and a warning at a name.
fn locate(
    alloc: Global,
    findings: &mut Vec<Finding>,
    lines: &Lines<'_>,
    places: &Places,
) -> Result<(), AllocError> {
    for finding in findings.iter_mut() {
        let at = if finding.is_fault {
            places.value_at(finding.steps.as_slice())
        } else {
            places.name_at(finding.steps.as_slice())
        };
        finding.spot = Some(lines.spot(alloc, at)?);
    }
    Ok(())
}

// Members that stand twice in an object, of which a graph has but the last.
fn doubles_in(
    alloc: Global,
    lines: &Lines<'_>,
    places: &Places,
) -> Result<Vec<Finding>, AllocError> {
    let mut findings = Vec::new(alloc);
    for double in places.doubles.iter() {
        let warning = double_member(alloc, double.steps.as_slice())?;
        let mut finding = Finding::of_warning(alloc, &warning)?;
        finding.spot = Some(lines.spot(alloc, double.at)?);
        findings.push(finding)?;
    }
    Ok(findings)
}

// What is said of the graph of a text.
fn findings_with_places(
    alloc: Global,
    graph: &Value,
    settings: &Settings,
    lines: &Lines<'_>,
    places: &Places,
) -> Result<Vec<Finding>, AllocError> {
    let mut findings = faults_in(alloc, graph, settings)?;
    locate(alloc, &mut findings, lines, places)?;
    append(&mut findings, doubles_in(alloc, lines, places)?)?;
    let mut warnings = warnings_in(alloc, graph, settings)?;
    locate(alloc, &mut warnings, lines, places)?;
    append(&mut findings, warnings)?;
    Ok(findings)
}

const NO_JSON: Refusal = Refusal {
    rule: Rule::NotJson,
    place: None,
};

fn message_in(fault: &Value) -> &str {
    match fault.get("message") {
        Some(Value::String(message)) => message.as_str(),
        _ => "",
    }
}

// The one fault of a text that is no JSON.
fn misread_finding(alloc: Global, text: &str) -> Result<Finding, AllocError> {
    match misread_in(alloc, text)? {
        Some((fault, spot)) => {
            let mut finding = Finding::of_fault(alloc, &fault)?;
            finding.spot = Some(spot);
            Ok(finding)
        }
        None => {
            let fault = bare_fault(alloc, &NO_JSON)?;
            let sentence = String::from_str(alloc, message_in(&fault))?;
            Finding::of_text(alloc, true, sentence.as_str(), None, fault)
        }
    }
}

fn alone(alloc: Global, finding: Finding) -> Result<Vec<Finding>, AllocError> {
    let mut findings = Vec::new(alloc);
    findings.push(finding)?;
    Ok(findings)
}

/// What is said of a text in JSON.
pub(crate) fn findings_in_json(
    alloc: Global,
    bytes: &[u8],
    settings: &Settings,
) -> Result<Vec<Finding>, AllocError> {
    let Some(text) = text_of(bytes) else {
        return alone(alloc, misread_finding(alloc, "")?);
    };
    let letters = letters_of(alloc, text)?;
    let lines = Lines::of(alloc, letters.as_slice())?;
    match (
        read_places(alloc, letters.as_slice()),
        Value::from_str(alloc, text),
    ) {
        (Ok(places), Ok(graph)) => {
            let graph = with_plain_numbers(alloc, graph)?;
            findings_with_places(alloc, &graph, settings, &lines, &places)
        }
        _ => alone(alloc, misread_finding(alloc, text)?),
    }
}

// Where a place of a text in DOT is.
fn spot_of(
    alloc: Global,
    lines: &Lines<'_>,
    starts: &[usize],
    place: Place,
) -> Result<Spot, AllocError> {
    let start = match starts.get(place.line.saturating_sub(1)) {
        Some(start) => *start,
        None => 0,
    };
    lines.spot(alloc, start.saturating_add(place.column.saturating_sub(1)))
}

// What is said of a graph in DOT: what the engine would refuse of it, which has no place in the text, and what has no effect.
fn findings_with_attributes(
    alloc: Global,
    translation: &Translation,
    settings: &Settings,
    lines: &Lines<'_>,
    starts: &[usize],
) -> Result<Vec<Finding>, AllocError> {
    let mut findings = faults_in(alloc, &translation.graph, settings)?;
    for warning in translation.warnings.iter() {
        let spot = spot_of(alloc, lines, starts, warning.place)?;
        let value = dot_warning(alloc, warning)?;
        let message = warning.message.as_str();
        findings.push(Finding::of_text(alloc, false, message, Some(spot), value)?)?;
    }
    Ok(findings)
}

// The one fault of a text that is no DOT.
fn misread_dot(
    alloc: Global,
    misread: &Misread,
    lines: &Lines<'_>,
    starts: &[usize],
) -> Result<Finding, AllocError> {
    let spot = spot_of(alloc, lines, starts, misread.place)?;
    let value = dot_fault(alloc, misread)?;
    Finding::of_text(alloc, true, misread.message.as_str(), Some(spot), value)
}

/// What is said of a text in DOT.
pub(crate) fn findings_in_dot(
    alloc: Global,
    bytes: &[u8],
    settings: &Settings,
) -> Result<Vec<Finding>, AllocError> {
    let letters = letters_in(alloc, bytes)?;
    let starts = starts_in(alloc, letters.as_slice())?;
    let lines = Lines::of(alloc, letters.as_slice())?;
    match read_dot(alloc, bytes) {
        Ok(graph) => {
            let translation = translate(alloc, &graph)?;
            findings_with_attributes(alloc, &translation, settings, &lines, starts.as_slice())
        }
        Err(DotFault::Syntax(misread)) => {
            let finding = misread_dot(alloc, &misread, &lines, starts.as_slice())?;
            alone(alloc, finding)
        }
        Err(DotFault::Memory(error)) => Err(error),
    }
}
