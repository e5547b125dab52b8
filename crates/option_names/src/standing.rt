//! Options of the engine that stand for options of ELK, and what is asked for where a level says nothing.

use crate::given::PLACED_UP_TO;
use crate::plain::{number_in, plain_text};
use serde_json::{Number, Value};
use std::alloc::{AllocError, Global};

const THOROUGHNESS: &str = "layered.thoroughness";

const EFFORT: &str = "layered.effort";

const MOST_EFFORT: i128 = 1000;

const ORDER: &str = "layered.order";

const STRATEGY: &str = "layered.nodePlacement.strategy";

const ALIGNMENT: &str = "layered.nodePlacement.bk.fixedAlignment";

const STRAIGHTNESS: &str = "layered.straightness";

const SLOTS: &str = "layered.slots";

const PARTS: &str = "separateConnectedComponents";

// Options of ELK on the order of a level's nodes: for a value that one takes, in capitals, the engine's. The last counts: the
// order of the document, rather than that of an earlier drawing.
const ORDERS: [(&str, &str, &str); 6] = [
    ("interactive", "TRUE", "KEPT"),
    ("interactiveLayout", "TRUE", "KEPT"),
    (
        "layered.crossingMinimization.semiInteractive",
        "TRUE",
        "KEPT",
    ),
    (
        "layered.crossingMinimization.strategy",
        "INTERACTIVE",
        "KEPT",
    ),
    ("layered.crossingMinimization.strategy", "NONE", "DOCUMENT"),
    (
        "layered.crossingMinimization.forceNodeModelOrder",
        "TRUE",
        "DOCUMENT",
    ),
];

// What is asked for by an option, where several ask the first.
fn asked_for<'a>(asked: &[(&str, &'a Value)], name: &str) -> Option<&'a Value> {
    for (it, value) in asked {
        if *it == name {
            return Some(*value);
        }
    }
    None
}

fn is_asked(asked: &[(&str, &Value)], name: &str) -> bool {
    asked_for(asked, name).is_some()
}

// Whether an option is asked for with a value, in small letters or capitals.
fn asks(
    alloc: Global,
    asked: &[(&str, &Value)],
    name: &str,
    word: &str,
) -> Result<bool, AllocError> {
    match asked_for(asked, name) {
        Some(value) => {
            let text = plain_text(alloc, value)?;
            Ok(text.as_str().to_uppercase(alloc)?.as_str() == word)
        }
        None => Ok(false),
    }
}

fn text_value(alloc: Global, text: &str) -> Result<Value, AllocError> {
    Ok(Value::String(String::from_str(alloc, text)?))
}

fn whole_value(number: i128) -> Value {
    match Number::from_i128(number) {
        Some(number) => Value::Number(number),
        None => Value::Null,
    }
}

fn effort_of(value: &Value) -> Result<Value, AllocError> {
    match number_in(value) {
        Some(number) if number > 1000.0 => Ok(whole_value(MOST_EFFORT)),
        _ => value.clone(),
    }
}

fn order_of(alloc: Global, asked: &[(&str, &Value)]) -> Result<Option<&'static str>, AllocError> {
    let mut order = None;
    for (name, word, value) in ORDERS.iter() {
        if asks(alloc, asked, *name, *word)? {
            order = Some(*value);
        }
    }
    Ok(order)
}

// Whether a level that says nothing of its placement, or asks for a balanced one, is placed by network simplex.
fn is_placed_anew(asked: &[(&str, &Value)], children: usize, is_balanced: bool) -> bool {
    let is_placed = is_asked(asked, STRATEGY) || is_asked(asked, ALIGNMENT);
    let is_small = children <= PLACED_UP_TO || is_asked(asked, STRAIGHTNESS);
    is_balanced || (!is_placed && is_small)
}

// Adds an option that the level doesn't ask for itself.
fn add(
    found: &mut Vec<(&'static str, Value)>,
    asked: &[(&str, &Value)],
    name: &'static str,
    value: Value,
) -> Result<(), AllocError> {
    if !is_asked(asked, name) {
        found.push((name, value))?;
    }
    Ok(())
}

/// The options that a level is sent with besides those that it asks for itself, or in place of these: each with its name,
/// without a prefix. `asked` is what the level and the call ask for, by names without a prefix and the level's own first.
pub fn stand_ins(
    alloc: Global,
    asked: &[(&str, &Value)],
    children: usize,
) -> Result<Vec<(&'static str, Value)>, AllocError> {
    let mut found: Vec<(&'static str, Value)> = Vec::new(alloc);
    add(&mut found, asked, SLOTS, text_value(alloc, "UNCROSSED")?)?;
    add(&mut found, asked, PARTS, Value::Bool(true))?;
    // The engine has no alignment that is balanced between all four.
    let is_balanced = asks(alloc, asked, ALIGNMENT, "BALANCED")?;
    if is_balanced {
        found.push((STRATEGY, text_value(alloc, "NETWORK_SIMPLEX")?))?;
        found.push((ALIGNMENT, text_value(alloc, "NONE")?))?;
    } else if is_placed_anew(asked, children, is_balanced) {
        add(
            &mut found,
            asked,
            STRATEGY,
            text_value(alloc, "NETWORK_SIMPLEX")?,
        )?;
    }
    if is_placed_anew(asked, children, is_balanced) {
        add(&mut found, asked, STRAIGHTNESS, whole_value(4))?;
    }
    if let Some(value) = asked_for(asked, THOROUGHNESS) {
        add(&mut found, asked, EFFORT, effort_of(value)?)?;
    }
    if let Some(order) = order_of(alloc, asked)? {
        add(&mut found, asked, ORDER, text_value(alloc, order)?)?;
    }
    Ok(found)
}
