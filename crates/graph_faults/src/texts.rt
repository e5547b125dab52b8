//! Numbers, ids and faults of texts as they stand in sentences.

use crate::fault::Fault;
use crate::rules::{rule_name, rule_words};
use graph_rules::MOST_LEVELS;
use json_places::{Misread, Spot, Step, copied, path_text, told_path, value_text};
use option_names::plain_number;
use serde_json::{Number, Value};
use std::alloc::{AllocError, Global};
use std::num::saturating_f64_to_i64;

// Whole numbers below this have exactly one float.
const MOST_WHOLE: f64 = 9007199254740992.0;

pub(crate) fn number_value(number: f64) -> Value {
    let number = if number == number.floor() && number.abs() < MOST_WHOLE {
        Number::from_i128(i128::from(saturating_f64_to_i64(number)))
    } else {
        Number::from_f64(number)
    };
    match number {
        Some(number) => Value::Number(number),
        None => Value::Null,
    }
}

pub(crate) fn number_text(alloc: Global, number: f64) -> Result<String, AllocError> {
    match number_value(number) {
        Value::Number(number) => plain_number(alloc, &number),
        _ => String::from_str(alloc, "null"),
    }
}

pub(crate) fn count_value(count: usize) -> Value {
    match Number::from_u128(count as u128) {
        Some(count) => Value::Number(count),
        None => Value::Null,
    }
}

// A whole number in groups of three digits.
pub(crate) fn grouped(alloc: Global, number: usize) -> Result<String, AllocError> {
    let digits = format!(in alloc; "{number}")?;
    let mut out = String::new(alloc);
    for (at, digit) in digits.as_str().chars().enumerate() {
        let left = digits.len().saturating_sub(at);
        if at > 0 && left % 3 == 0 {
            out.push(',')?;
        }
        out.push(digit)?;
    }
    Ok(out)
}

pub(crate) fn id_text(alloc: Global, id: Option<&Value>) -> Result<String, AllocError> {
    match id {
        Some(id) => value_text(alloc, id),
        None => String::from_str(alloc, "an element without an id"),
    }
}

// What is wrong with what is known of it, and the rule.
pub(crate) fn sentence(
    alloc: Global,
    rule: u32,
    words: &str,
    detail: &str,
) -> Result<String, AllocError> {
    let name = rule_name(rule);
    format!(in alloc; "{words}: {detail} (rule {rule}, {name})")
}

// The fault of a text that names no element.
pub(crate) fn bare_fault(
    alloc: Global,
    rule: u32,
    words: &str,
    detail: String,
    steps: Vec<Step>,
) -> Result<Fault, AllocError> {
    let message = sentence(alloc, rule, words, detail.as_str())?;
    let path = path_text(alloc, steps.as_slice())?;
    Ok(Fault {
        rule,
        name: rule_name(rule),
        id: None,
        steps,
        path,
        found: None,
        allowed: None,
        near: None,
        end: None,
        option: None,
        values: &[],
        detail,
        message,
    })
}

/// The fault of a text that is no JSON, by the place at which its reading ended.
pub fn text_fault(alloc: Global, misread: &Misread, spot: &Spot) -> Result<Fault, AllocError> {
    let (line, column, reason) = (spot.line, spot.column, misread.reason.as_str());
    let detail = format!(in alloc; "line {line}, column {column}: {reason}")?;
    let words = if misread.deep.is_some() {
        rule_words(1)
    } else {
        "the document is not JSON"
    };
    bare_fault(alloc, 1, words, detail, Vec::new(alloc))
}

// Whether steps lead from a node to a child, and so on.
fn are_nodes(steps: &[Step]) -> bool {
    for (at, step) in steps.iter().enumerate() {
        let is_child = match step {
            Step::At(_) => at % 2 == 1,
            Step::Name(name) => at % 2 == 0 && name.as_str() == "children",
        };
        if !is_child {
            return false;
        }
    }
    true
}

/// The fault of a text that is nested deeper than it may be where it is nodes that stand so deep, and where the first node begins that
/// stands too deep, as the number of a letter; nothing where other things are nested.
pub fn nested_fault(
    alloc: Global,
    misread: &Misread,
) -> Result<Option<(Fault, usize)>, AllocError> {
    let Some((steps, starts)) = misread.deep.as_ref() else {
        return Ok(None);
    };
    let depth = MOST_LEVELS + 1;
    let (first, start) = match (steps.get(0..2 * depth), starts.get(2 * depth)) {
        (Some(first), Some(start)) if are_nodes(first) => (first, *start),
        _ => return Ok(None),
    };
    let path = path_text(alloc, first)?;
    let told = told_path(alloc, path.as_str())?;
    let detail = format!(in alloc; "{told} is inside {depth} nodes")?;
    let steps = copied(alloc, first)?;
    let mut fault = bare_fault(alloc, 6, rule_words(6), detail, steps)?;
    fault.found = Some(count_value(depth));
    fault.allowed = Some(grouped(alloc, MOST_LEVELS)?);
    Ok(Some((fault, start)))
}
