//! Paths to values within a JSON value.

use crate::texts::write_quoted;
use serde_json::{Number, Value};
use std::alloc::{AllocError, Global};

// So much of either end of a long path is told in a sentence.
const MOST_OF_PATH: usize = 60;

/// A step on the way to a value.
#[derive(Debug, Drop, PartialEq, Eq)]
pub enum Step {
    /// To an item of an array, counted from 0.
    At(usize),
    /// To a member of an object.
    Name(String),
}

impl Step {
    /// The step to a member.
    pub fn named(alloc: Global, name: &str) -> Result<Step, AllocError> {
        Ok(Step::Name(String::from_str(alloc, name)?))
    }

    /// Its own copy of the step.
    pub fn copy(&self, alloc: Global) -> Result<Step, AllocError> {
        match self {
            Step::At(at) => Ok(Step::At(*at)),
            Step::Name(name) => Step::named(alloc, name.as_str()),
        }
    }
}

/// A copy of some steps.
pub fn copied(alloc: Global, steps: &[Step]) -> Result<Vec<Step>, AllocError> {
    let mut copy = Vec::new(alloc);
    for step in steps {
        copy.push(step.copy(alloc)?)?;
    }
    Ok(copy)
}

fn is_letter(letter: char) -> bool {
    letter.is_ascii_alphabetic() || letter == '_' || letter == '$'
}

// Whether a script may write a name behind a point.
fn is_plain(name: &str) -> bool {
    match name.chars().next() {
        Some(first) if is_letter(first) => name
            .chars()
            .all(|letter| is_letter(letter) || letter.is_ascii_digit()),
        _ => false,
    }
}

fn write_name(out: &mut String, name: &str) -> Result<(), AllocError> {
    if !is_plain(name) {
        out.push('[')?;
        write_quoted(out, name)?;
        return out.push(']');
    }
    if !out.is_empty() {
        out.push('.')?;
    }
    out.push_str(name)
}

/// Steps as a script would write them: `children[0].ports[1].id`. No steps lead to the document.
pub fn path_text(alloc: Global, steps: &[Step]) -> Result<String, AllocError> {
    let mut out = String::new(alloc);
    for step in steps {
        match step {
            Step::At(at) => out.push_str(format!(in alloc; "[{at}]")?.as_str())?,
            Step::Name(name) => write_name(&mut out, name.as_str())?,
        }
    }
    if out.is_empty() {
        out.push_str("the document")?;
    }
    Ok(out)
}

/// A path as it stands in a sentence: the middle of a long one is left out.
pub fn told_path(alloc: Global, path: &str) -> Result<String, AllocError> {
    let mut out = String::new(alloc);
    let length = path.chars().count();
    let is_long = length > 3 * MOST_OF_PATH;
    let (first, last) = if is_long {
        (MOST_OF_PATH, length.saturating_sub(MOST_OF_PATH))
    } else {
        (length, length)
    };
    for (at, letter) in path.chars().enumerate() {
        if at < first || at >= last {
            out.push(letter)?;
        } else if at == first {
            out.push('…')?;
        }
    }
    Ok(out)
}

fn step_value(alloc: Global, step: &Step) -> Result<Value, AllocError> {
    match step {
        Step::At(at) => Ok(match Number::from_u128(*at as u128) {
            Some(at) => Value::Number(at),
            None => Value::Null,
        }),
        Step::Name(name) => Ok(Value::String(String::from_str(alloc, name.as_str())?)),
    }
}

/// Steps as an array of numbers and names.
pub fn steps_value(alloc: Global, steps: &[Step]) -> Result<Value, AllocError> {
    let mut values = Vec::new(alloc);
    for step in steps {
        values.push(step_value(alloc, step)?)?;
    }
    Ok(Value::Array(values))
}
