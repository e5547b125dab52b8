//! What the value of an attribute says of a colour.

use crate::channels::of_hue;
use crate::names::named;
use std::alloc::{AllocError, Global};

/// What `colour_of` gives for no colour at all.
pub const TRANSPARENT: &str = "none";

// Of several colours the first counts. A share of the line may follow it.
fn first_of(text: &str) -> &str {
    let text = match text.split_once(":") {
        Some((first, _)) => first,
        None => text,
    };
    match text.split_once(";") {
        Some((first, _)) => first.trim(),
        None => text.trim(),
    }
}

fn code(alloc: Global, text: &str, digits: &str) -> Result<Option<String>, AllocError> {
    let is_code = matches!(digits.len(), 3 | 4 | 6 | 8)
        && digits.bytes().all(|byte| byte.is_ascii_hexdigit());
    if !is_code {
        return Ok(None);
    }
    let mut code = String::from_str(alloc, text)?;
    code.make_ascii_uppercase();
    Ok(Some(code))
}

fn written(alloc: Global, colour: Option<u32>) -> Result<Option<String>, AllocError> {
    match colour {
        Some(colour) => Ok(Some(format!(in alloc; "#{colour:06X}")?)),
        None => Ok(None),
    }
}

// A scheme and a name, as in `/svg/green`. A name may also stand behind one or two strokes alone.
fn parted<'a>(text: &'a str, scheme: &'a str) -> (&'a str, &'a str) {
    match text.strip_prefix("/") {
        Some(rest) => match rest.split_once("/") {
            Some((scheme, name)) => (scheme, name),
            None => ("", rest),
        },
        None => (scheme, text),
    }
}

fn by_name(alloc: Global, text: &str, scheme: &str) -> Result<Option<String>, AllocError> {
    let (scheme, name) = parted(text, scheme);
    let is_svg = scheme.eq_ignore_ascii_case("svg");
    if !is_svg && !scheme.is_empty() && !scheme.eq_ignore_ascii_case("x11") {
        return Ok(None);
    }
    let name = name.to_ascii_lowercase(alloc)?;
    if name.as_str() == "transparent" {
        return Ok(Some(String::from_str(alloc, TRANSPARENT)?));
    }
    written(alloc, named(name.as_str(), is_svg))
}

/// The colour of a text as a code such as `#FF8000`, or `none` for a transparent one. `scheme` is the value of the attribute
/// `colorscheme`: `svg`, `x11` or an empty text. There is no colour if the text, or its scheme, is not known.
pub fn colour_of(alloc: Global, text: &str, scheme: &str) -> Result<Option<String>, AllocError> {
    let text = first_of(text);
    if let Some(digits) = text.strip_prefix("#") {
        return code(alloc, text, digits);
    }
    match text.bytes().next() {
        Some(first) if first.is_ascii_digit() || first == b'.' => {
            let colour = of_hue(alloc, text)?;
            written(alloc, colour)
        }
        Some(_) => by_name(alloc, text, scheme),
        None => Ok(None),
    }
}
