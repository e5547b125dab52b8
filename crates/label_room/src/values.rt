//! What the values of options say: names, numbers, and lengths at the four sides.

use graph_draft::{Draft, Element, Size, rounded_up};
use serde_json::Value;
use std::alloc::{AllocError, Global};

fn is_letter_of_name(letter: char) -> bool {
    letter.is_ascii_alphanumeric() || letter == '_'
}

fn is_in_text(text: &str, name: &str) -> bool {
    text.split(|letter: char| !is_letter_of_name(letter))
        .any(|word| word.eq_ignore_ascii_case(name))
}

fn is_item(item: &Value, name: &str) -> bool {
    match item {
        Value::String(text) => text.as_str().eq_ignore_ascii_case(name),
        _ => false,
    }
}

/// Whether a name is among those in the value of an option, such as those of `[H_CENTER, V_TOP]`.
pub fn has_name(value: Option<&Value>, name: &str) -> bool {
    match value {
        Some(Value::String(text)) => is_in_text(text.as_str(), name),
        Some(Value::Array(items)) => items.iter().any(|item| is_item(item, name)),
        _ => false,
    }
}

/// Whether the labels of a node's ports stand inside the node. Nothing if they aren't placed.
pub fn inside_asked(draft: &Draft, node: usize) -> Option<bool> {
    match draft.option(Element::Node(node), "portLabels.placement") {
        None | Some(Value::Null) => Some(false),
        asked if has_name(asked, "INSIDE") => Some(true),
        asked if has_name(asked, "OUTSIDE") => Some(false),
        _ => None,
    }
}

/// Whether there is any name in the value of an option.
pub fn has_names(value: Option<&Value>) -> bool {
    match value {
        None | Some(Value::Null) => false,
        Some(Value::String(text)) => text.as_str().chars().any(is_letter_of_name),
        Some(Value::Array(items)) => !items.is_empty(),
        Some(_) => true,
    }
}

fn is_letter_of_number(letter: char) -> bool {
    letter.is_ascii_digit() || letter == '.'
}

// The number of digits and points; none if it is no number.
fn number_of(digits: &str) -> f64 {
    match digits.parse::<f64>() {
        Ok(number) => number,
        Err(_) => f64::NAN,
    }
}

fn add_numbers(numbers: &mut Vec<f64>, text: &str) -> Result<(), AllocError> {
    for digits in text.split(|letter: char| !is_letter_of_number(letter)) {
        if !digits.is_empty() {
            numbers.push(number_of(digits))?;
        }
    }
    Ok(())
}

fn number_at(value: &Value, key: &str, other: &str) -> f64 {
    let number = match value.get(key) {
        None | Some(Value::Null) => value.get(other),
        number => number,
    };
    number.and_then(Value::as_f64).unwrap_or(0.0)
}

fn whole_length(numbers: &[f64], at: usize) -> f64 {
    match numbers.get(at) {
        Some(number) if number.is_finite() => rounded_up(*number),
        _ => 0.0,
    }
}

/// The two numbers of a value such as `(60, 40)`, rounded up.
pub fn size_in(alloc: Global, value: Option<&Value>) -> Result<Size, AllocError> {
    let mut numbers = Vec::new(alloc);
    match value {
        Some(Value::String(text)) => add_numbers(&mut numbers, text.as_str())?,
        Some(Value::Number(number)) => numbers.push(number.as_f64().unwrap_or(0.0).abs())?,
        Some(Value::Array(items)) => {
            for item in items {
                match item {
                    Value::String(text) => add_numbers(&mut numbers, text.as_str())?,
                    item => numbers.push(item.as_f64().unwrap_or(0.0).abs())?,
                }
            }
        }
        Some(value) if value.is_object() => {
            numbers.push(number_at(value, "width", "x"))?;
            numbers.push(number_at(value, "height", "y"))?;
        }
        _ => {}
    }
    Ok(Size {
        width: whole_length(numbers.as_slice(), 0),
        height: whole_length(numbers.as_slice(), 1),
    })
}

/// Lengths at the four sides of a box.
#[derive(Clone, Copy, Drop)]
pub struct Padding {
    pub top: f64,
    pub left: f64,
    pub bottom: f64,
    pub right: f64,
}

impl Padding {
    fn even(length: f64) -> Padding {
        Padding {
            top: length,
            left: length,
            bottom: length,
            right: length,
        }
    }
}

// The number with which a text begins; none if it begins with no digit and no point.
fn number_before(text: &str) -> Option<f64> {
    let digits = text
        .trim_start()
        .split(|letter: char| !is_letter_of_number(letter))
        .next()?;
    if digits.is_empty() {
        None
    } else {
        Some(rounded_up(number_of(digits)))
    }
}

// Writes a length to the side whose name stands at the end of a text. It answers whether one does.
fn put_side(sides: &mut Padding, named: &str, length: f64) -> bool {
    let named = named.trim_end();
    if named.ends_with("top") {
        sides.top = length;
    } else if named.ends_with("left") {
        sides.left = length;
    } else if named.ends_with("bottom") {
        sides.bottom = length;
    } else if named.ends_with("right") {
        sides.right = length;
    } else {
        return false;
    }
    true
}

// Writes the lengths that a text gives. It answers whether it gives any.
fn put_sides(sides: &mut Padding, text: &str) -> bool {
    let mut is_given = false;
    let mut before = None;
    for part in text.split("=") {
        if let (Some(named), Some(length)) = (before, number_before(part)) {
            is_given = put_side(sides, named, length) || is_given;
        }
        before = Some(part);
    }
    is_given
}

fn padding_in_text(text: &str) -> Option<Padding> {
    let mut sides = Padding::even(0.0);
    if put_sides(&mut sides, text) {
        Some(sides)
    } else {
        None
    }
}

fn padding_in_items(items: &[Value]) -> Option<Padding> {
    let mut sides = Padding::even(0.0);
    let mut is_given = false;
    for item in items {
        if let Value::String(text) = item {
            is_given = put_sides(&mut sides, text.as_str()) || is_given;
        }
    }
    if is_given { Some(sides) } else { None }
}

fn padding_in_object(value: &Value) -> Padding {
    let length = |side: &str| value.get(side).and_then(Value::as_f64).unwrap_or(0.0);
    Padding {
        top: length("top"),
        left: length("left"),
        bottom: length("bottom"),
        right: length("right"),
    }
}

/// The four lengths of a value such as `[top=5,left=5,bottom=5,right=5]`, rounded up. Those that it leaves out are 0; if it has none,
/// all are as given here.
pub fn padding_in(value: Option<&Value>, by_default: f64) -> Padding {
    let padding = match value {
        Some(Value::String(text)) => padding_in_text(text.as_str()),
        Some(Value::Array(items)) => padding_in_items(items.as_slice()),
        Some(Value::Object(members)) if !members.is_empty() => value.map(padding_in_object),
        _ => None,
    };
    padding.unwrap_or(Padding::even(by_default))
}
