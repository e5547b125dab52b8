//! Numbers and words of JSON.

use std::alloc::{AllocError, Global};

// The most letters of a wrong number that are told.
const MOST_TOLD: usize = 20;

/// Whether a letter goes on with a word.
pub(crate) fn is_of_word(letter: char) -> bool {
    letter.is_ascii_alphanumeric() || matches!(letter, '_' | '$' | '.' | '+' | '-')
}

fn are_digits(text: &str) -> bool {
    !text.is_empty() && text.bytes().all(|byte| byte.is_ascii_digit())
}

fn is_whole(text: &str) -> bool {
    are_digits(text) && (text == "0" || !text.starts_with("0"))
}

fn is_decimal(text: &str) -> bool {
    match text.split_once(".") {
        Some((whole, fraction)) => is_whole(whole) && are_digits(fraction),
        None => is_whole(text),
    }
}

fn is_exponent(text: &str) -> bool {
    match text.strip_prefix("+") {
        Some(digits) => are_digits(digits),
        None => are_digits(text.strip_prefix("-").unwrap_or(text)),
    }
}

/// Whether a word is a number as JSON writes it.
pub(crate) fn is_number(word: &str) -> bool {
    let size = word.strip_prefix("-").unwrap_or(word);
    let parts = match size.split_once("e") {
        Some(parts) => Some(parts),
        None => size.split_once("E"),
    };
    match parts {
        Some((decimal, exponent)) => is_decimal(decimal) && is_exponent(exponent),
        None => is_decimal(size),
    }
}

/// Whether a number is larger than numbers may be.
pub(crate) fn is_large(number: &str) -> bool {
    match number.parse::<f64>() {
        Ok(number) => !number.is_finite(),
        Err(_) => true,
    }
}

/// The first letters of a word.
pub(crate) fn beginning(alloc: Global, word: &str) -> Result<String, AllocError> {
    let mut out = String::new(alloc);
    for letter in word.chars().take(MOST_TOLD) {
        out.push(letter)?;
    }
    Ok(out)
}
