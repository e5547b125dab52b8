//! What keeps an option from its effect.

use crate::warning::Said;
use json_places::quoted;
use option_names::{Description, Kind, OptionTable, Role, nearest, plain_text, prefix_in};
use serde_json::Value;
use std::alloc::{AllocError, Global};

// So many names of an unclear key are told.
const MOST_NAMES: usize = 4;

/// At what an option stands.
#[derive(Clone, Copy, Debug, Drop, PartialEq, Eq)]
pub(crate) enum Place {
    Node,
    Port,
    Edge,
    Label,
    // In the options of a call, which hold for every kind of element.
    Call,
}

impl Place {
    fn words(self) -> &'static str {
        match self {
            Place::Node | Place::Call => "a node",
            Place::Port => "a port",
            Place::Edge => "an edge",
            Place::Label => "a label",
        }
    }

    // Whether elements of a role stand there.
    fn has(self, role: Role) -> bool {
        match self {
            Place::Call => true,
            Place::Node => role == Role::Level || role == Role::Node,
            Place::Port => role == Role::Port,
            Place::Edge => role == Role::Edge,
            Place::Label => role == Role::Label,
        }
    }
}

fn readers(role: Role) -> &'static str {
    match role {
        Role::Level => "nodes with children",
        Role::Node => "nodes",
        Role::Port => "ports",
        Role::Edge => "edges",
        Role::Label => "labels",
    }
}

fn unclear(alloc: Global, names: &[&str]) -> Result<Said, AllocError> {
    let mut told = String::from_str(alloc, "may be ")?;
    for (at, name) in names.iter().take(MOST_NAMES).enumerate() {
        if at > 0 {
            told.push_str(", ")?;
        }
        told.push_str("elk.")?;
        told.push_str(*name)?;
    }
    if names.len() > MOST_NAMES {
        told.push_str(", others")?;
    }
    told.push_str("; write one of them")?;
    Ok(Said {
        kind: "unclearOption",
        words: told,
        near: None,
        option: None,
    })
}

// A key that means no one option.
fn unknown(
    alloc: Global,
    table: &OptionTable,
    key: &str,
    names: &[&str],
) -> Result<Said, AllocError> {
    if names.len() > 1 {
        return unclear(alloc, names);
    }
    let bare = key.strip_prefix(prefix_in(key)).unwrap_or(key);
    let several = table.meanings(bare);
    if several.len() > 1 {
        return unclear(alloc, several);
    }
    Ok(Said {
        kind: "unknownOption",
        words: String::from_str(alloc, "is not an option of ELK")?,
        near: table.nearest_key(alloc, key)?,
        option: None,
    })
}

fn foreign(alloc: Global, table: &OptionTable, name: &'static str) -> Result<Said, AllocError> {
    let mut words = String::from_str(
        alloc,
        "has no effect, since this engine does not have this option of ELK",
    )?;
    if let Some(instead) = table.instead_of(name) {
        words.push_str(": ")?;
        words.push_str(instead)?;
    }
    Ok(Said {
        kind: "foreignOption",
        words,
        near: None,
        option: Some(name),
    })
}

fn misplaced(alloc: Global, option: &Description, place: Place) -> Result<Said, AllocError> {
    let mut words = String::from_str(alloc, "has no effect, since it is an option of ")?;
    for (at, role) in option.readers.iter().enumerate() {
        if at > 0 {
            words.push_str(" and ")?;
        }
        words.push_str(readers(*role))?;
    }
    words.push_str(" and is at ")?;
    words.push_str(place.words())?;
    Ok(Said {
        kind: "misplacedOption",
        words,
        near: None,
        option: Some(option.name),
    })
}

fn are_digits(text: &str) -> bool {
    !text.is_empty() && text.bytes().all(|byte| byte.is_ascii_digit())
}

fn is_decimal(text: &str) -> bool {
    let text = text.trim();
    let size = text.strip_prefix("-").unwrap_or(text);
    match size.split_once(".") {
        Some((whole, fraction)) => are_digits(whole) && are_digits(fraction),
        None => are_digits(size),
    }
}

fn is_known(option: &Description, word: &str) -> bool {
    option.values.is_empty() || option.values.iter().any(|it| it.eq_ignore_ascii_case(word))
}

// The first of the words in a text that an option doesn't know.
fn unknown_in(
    alloc: Global,
    option: &Description,
    text: &str,
) -> Result<Option<String>, AllocError> {
    for part in text.split(|letter: char| !letter.is_ascii_alphanumeric() && letter != '_') {
        if !part.is_empty() && !is_known(option, part) {
            return Ok(Some(String::from_str(alloc, part)?));
        }
    }
    Ok(None)
}

// The word of a value that an option doesn't know.
fn unknown_word(
    alloc: Global,
    option: &Description,
    value: &Value,
) -> Result<Option<String>, AllocError> {
    let text = plain_text(alloc, value)?;
    let is_right = match option.kind {
        Kind::Words => return unknown_in(alloc, option, text.as_str()),
        Kind::Decimal => value.is_number() || is_decimal(text.as_str()),
        _ => is_known(option, text.as_str()),
    };
    Ok(if is_right { None } else { Some(text) })
}

// What keeps a value from its effect. Wrong values of the engine's own options are refused.
fn wrong_value(
    alloc: Global,
    option: &'static Description,
    value: &Value,
) -> Result<Option<Said>, AllocError> {
    let word = match unknown_word(alloc, option, value)? {
        Some(word) => word,
        None => return Ok(None),
    };
    let found = json_places::value_text(alloc, &Value::String(word.clone()?))?;
    let allowed = option.words;
    let near = match nearest(alloc, word.as_str(), option.values)? {
        Some(near) => Some(String::from_str(alloc, near)?),
        None => None,
    };
    Ok(Some(Said {
        kind: "unknownValue",
        words: format!(in alloc; "has no effect: it may be {allowed}, and not {found}")?,
        near,
        option: Some(option.name),
    }))
}

/// What keeps an option from its effect; nothing where it has one.
pub(crate) fn option_said(
    alloc: Global,
    table: &OptionTable,
    key: &str,
    value: &Value,
    place: Place,
) -> Result<Option<Said>, AllocError> {
    let names = table.meanings(key);
    let name = match names {
        [name] => *name,
        _ => return Ok(Some(unknown(alloc, table, key, names)?)),
    };
    let option = match table.described_as(name) {
        Some(option) => option,
        None => return Ok(Some(foreign(alloc, table, name)?)),
    };
    if !option.readers.iter().any(|role| place.has(*role)) {
        return Ok(Some(misplaced(alloc, option, place)?));
    }
    if table.is_read(name) {
        return Ok(None);
    }
    wrong_value(alloc, option, value)
}
