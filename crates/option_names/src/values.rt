//! Which values an option takes, and what was meant by one that it does not take.

use crate::described::{Description, Kind};
use crate::given::FOUND_PREFIXES;
use crate::near::nearest;
use crate::table::OptionTable;
use serde_json::{Number, Value};
use std::alloc::{AllocError, Global};

const SIDES: [&str; 4] = ["top", "left", "bottom", "right"];

fn is_among(values: &[&str], text: &str) -> bool {
    values.iter().any(|it| text.eq_ignore_ascii_case(it))
}

// The digits of a whole number, as a number.
fn whole_of(digits: &str) -> Option<i64> {
    let mut sum: i64 = 0;
    for digit in digits.bytes() {
        if !digit.is_ascii_digit() {
            return None;
        }
        sum = sum
            .saturating_mul(10)
            .saturating_add(i64::from(digit - b'0'));
    }
    if digits.is_empty() { None } else { Some(sum) }
}

fn are_zeros(digits: &str) -> bool {
    !digits.is_empty() && digits.bytes().all(|digit| digit == b'0')
}

// The number in a text of digits, behind which a point and zeros may stand.
fn unsigned_in(text: &str) -> Option<i64> {
    match text.split_once(".") {
        Some((digits, rest)) if are_zeros(rest) => whole_of(digits),
        Some(_) => None,
        None => whole_of(text),
    }
}

fn signed_in(text: &str) -> Option<i64> {
    match text.strip_prefix("-") {
        Some(digits) => unsigned_in(digits).map(|number| 0i64.saturating_sub(number)),
        None => unsigned_in(text),
    }
}

fn is_within(option: &Description, number: i64) -> bool {
    option.low <= number && number <= option.high
}

fn is_number_in(option: &Description, number: &Number) -> bool {
    if let Some(whole) = number.as_i128() {
        return option.low as i128 <= whole && whole <= option.high as i128;
    }
    match number.as_f64() {
        Some(float) if float.floor() == float => {
            number_of(option.low) <= float && float <= number_of(option.high)
        }
        _ => false,
    }
}

fn number_of(bound: i64) -> f64 {
    std::num::nearest_i64_to_f64(bound)
}

fn is_whole_in(option: &Description, value: &Value) -> bool {
    match value {
        Value::Number(number) => is_number_in(option, number),
        Value::String(text) => match signed_in(text.as_str()) {
            Some(number) => is_within(option, number),
            None => false,
        },
        _ => false,
    }
}

fn bare(text: &str) -> &str {
    text.trim_matches(' ')
}

// The place of the side that a part of a padding names, if its length is one.
fn side_in(option: &Description, part: &str) -> Option<usize> {
    let (side, length) = part.split_once("=")?;
    if !is_within(option, unsigned_in(bare(length))?) {
        return None;
    }
    SIDES.iter().position(|it| *it == bare(side))
}

fn is_padding(option: &Description, text: &str) -> bool {
    let inside = match bare(text).strip_prefix("[") {
        Some(rest) => rest.strip_suffix("]"),
        None => None,
    };
    match inside {
        Some(inside) => bare(inside).is_empty() || are_sides(option, inside),
        None => false,
    }
}

fn are_sides(option: &Description, inside: &str) -> bool {
    let mut given = [false; 4];
    for part in inside.split(",") {
        let side = match side_in(option, part) {
            Some(side) => side,
            None => return false,
        };
        match given.get_mut(side) {
            Some(is_given) if !*is_given => *is_given = true,
            _ => return false,
        }
    }
    true
}

impl OptionTable {
    /// The algorithm that a text names, with a prefix or without.
    pub fn algorithm_named(&self, text: &str) -> Option<&'static str> {
        let option = self.described.first()?;
        option
            .values
            .iter()
            .find(|name| {
                FOUND_PREFIXES
                    .iter()
                    .any(|prefix| text.strip_prefix(*prefix) == Some(**name))
            })
            .copied()
    }

    fn is_text_taken(&self, option: &Description, text: &str) -> bool {
        match option.kind {
            Kind::Algorithm => self.algorithm_named(text).is_some(),
            Kind::Word | Kind::Flag => is_among(option.values, text),
            Kind::Padding => is_padding(option, text),
            _ => false,
        }
    }

    /// Whether an option of the engine takes a value.
    pub fn is_taken(&self, option: &Description, value: &Value) -> bool {
        match value {
            Value::Bool(_) => option.kind == Kind::Flag,
            Value::Number(_) => option.kind == Kind::Whole && is_whole_in(option, value),
            Value::String(text) => {
                if option.kind == Kind::Whole {
                    is_whole_in(option, value)
                } else {
                    self.is_text_taken(option, text.as_str())
                }
            }
            _ => false,
        }
    }
}

// The text without the prefix of an algorithm, and that prefix.
fn algorithm_prefix(text: &str) -> &'static str {
    for prefix in FOUND_PREFIXES.iter() {
        if text.starts_with(*prefix) {
            return *prefix;
        }
    }
    ""
}

fn near_word(
    alloc: Global,
    option: &Description,
    text: &str,
) -> Result<Option<String>, AllocError> {
    let prefix = match option.kind {
        Kind::Algorithm => algorithm_prefix(text),
        _ => "",
    };
    let rest = text.strip_prefix(prefix).unwrap_or(text);
    Ok(match nearest(alloc, rest, option.values)? {
        Some(near) => Some(format!(in alloc; "{prefix}{near}")?),
        None => None,
    })
}

fn near_whole(
    alloc: Global,
    option: &Description,
    text: &str,
) -> Result<Option<String>, AllocError> {
    match signed_in(text) {
        Some(number) if is_within(option, number) => Ok(Some(String::from_str(alloc, text)?)),
        _ => Ok(None),
    }
}

// The digits of one number for all sides, as style sheets have it.
fn one_length(text: &str) -> &str {
    let inside = text.strip_prefix("[").unwrap_or(text);
    let inside = inside.strip_suffix("]").unwrap_or(inside).trim();
    inside.strip_suffix("px").unwrap_or(inside)
}

fn near_padding(
    alloc: Global,
    option: &Description,
    text: &str,
) -> Result<Option<String>, AllocError> {
    let length = one_length(text);
    match whole_of(length) {
        Some(number) if is_within(option, number) => Ok(Some(format!(in alloc;
            "[top={length},left={length},bottom={length},right={length}]"
        )?)),
        _ => Ok(None),
    }
}

/// The value that somebody meant who wrote another, as it is to be written; none if none is near.
pub fn near_value(
    alloc: Global,
    option: &Description,
    value: &Value,
) -> Result<Option<String>, AllocError> {
    let text = match value {
        Value::String(text) => text.as_str().trim(),
        _ => return Ok(None),
    };
    if !option.values.is_empty() {
        return near_word(alloc, option, text);
    }
    match option.kind {
        Kind::Whole => near_whole(alloc, option, text),
        Kind::Padding => near_padding(alloc, option, text),
        _ => Ok(None),
    }
}
