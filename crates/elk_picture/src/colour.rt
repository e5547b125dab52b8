//! Colours that a document may ask for.

use std::alloc::{AllocError, Global};

fn is_code(digits: &str) -> bool {
    matches!(digits.len(), 3 | 4 | 6 | 8) && digits.bytes().all(|byte| byte.is_ascii_hexdigit())
}

fn is_name(text: &str) -> bool {
    3 <= text.len() && text.len() <= 24 && text.bytes().all(|byte| byte.is_ascii_alphabetic())
}

fn is_function_name(text: &str) -> bool {
    ["rgb", "rgba", "hsl", "hsla"]
        .iter()
        .any(|name| text.eq_ignore_ascii_case(*name))
}

fn is_argument(byte: u8) -> bool {
    byte.is_ascii_digit() || matches!(byte, b'.' | b',' | b'%' | b'/' | b' ' | b'-')
}

fn are_arguments(text: &str) -> bool {
    1 <= text.len() && text.len() <= 48 && text.bytes().all(is_argument)
}

fn is_function(text: &str) -> bool {
    match text.split_once("(") {
        Some((name, rest)) => match rest.strip_suffix(")") {
            Some(arguments) => is_function_name(name) && are_arguments(arguments),
            None => false,
        },
        None => false,
    }
}

// Such a text holds no markup and names nothing outside the picture.
fn is_colour(text: &str) -> bool {
    match text.strip_prefix("#") {
        Some(digits) => is_code(digits),
        None => is_name(text) || is_function(text),
    }
}

// The style of a theme replaces colours by their spelling. A document's colours are in capitals, so that it leaves them alone.
fn kept(alloc: Global, colour: &str) -> Result<String, AllocError> {
    let mut text = String::from_str(alloc, colour)?;
    if colour.starts_with("#") {
        text.make_ascii_uppercase();
    }
    Ok(text)
}

// The colour in a text of a document, if it is one.
pub(crate) fn colour_in(alloc: Global, text: &str) -> Result<Option<String>, AllocError> {
    if is_colour(text) {
        Ok(Some(kept(alloc, text)?))
    } else {
        Ok(None)
    }
}
