//! Links of elements, and their titles, which browsers show where the pointer rests.

use crate::words::Escaped;
use serde_json::Value;
use std::alloc::AllocError;

// The schemes that links may have. Others could run a script.
const SCHEMES: [&str; 3] = ["http", "https", "mailto"];

// What stands before the first colon, unless a path, a query or a fragment begins before it.
fn scheme_of(address: &str) -> Option<&str> {
    let (scheme, _) = address.split_once(":")?;
    let is_relative = scheme
        .bytes()
        .any(|byte| matches!(byte, b'/' | b'?' | b'#'));
    if is_relative { None } else { Some(scheme) }
}

// Browsers leave out tabs and ends of lines within an address, so that these could hide its scheme.
fn has_control(address: &str) -> bool {
    address.bytes().any(|byte| byte.is_ascii_control())
}

fn is_safe(address: &str) -> bool {
    if address.is_empty() || has_control(address) {
        return false;
    }
    match scheme_of(address) {
        Some(scheme) => SCHEMES
            .iter()
            .any(|name| scheme.eq_ignore_ascii_case(*name)),
        None => true,
    }
}

// The address to which an element leads, if a picture may have it.
pub(crate) fn link_of(element: &Value) -> Option<&str> {
    let address = element.get("link").and_then(Value::as_str)?;
    let address = address.trim();
    if is_safe(address) {
        Some(address)
    } else {
        None
    }
}

pub(crate) fn open_link(out: &mut String, link: Option<&str>) -> Result<(), AllocError> {
    match link {
        Some(address) => {
            let address = Escaped(address);
            write!(out, "<a href=\"{address}\" rel=\"noopener\">")
        }
        None => Ok(()),
    }
}

pub(crate) fn close_link(out: &mut String, link: Option<&str>) -> Result<(), AllocError> {
    match link {
        Some(_) => out.push_str("</a>"),
        None => Ok(()),
    }
}

// The title that a document gives an element.
pub(crate) fn title_of(element: &Value) -> Option<&str> {
    match element.get("title").and_then(Value::as_str) {
        Some(title) if !title.is_empty() => Some(title),
        _ => None,
    }
}
