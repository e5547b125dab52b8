//! At which ends edges have heads.

use crate::known::tell_value;
use dot_looks::{Given, Notes};
use std::alloc::{AllocError, Global};

/// Which ends of an edge have heads.
#[derive(Clone, Copy, Debug, Drop, PartialEq, Eq)]
pub(crate) struct Heads {
    pub(crate) at_tail: bool,
    pub(crate) at_head: bool,
}

fn heads_at(at_tail: bool, at_head: bool) -> Option<Heads> {
    Some(Heads { at_tail, at_head })
}

fn heads_named(name: &str) -> Option<Heads> {
    match name {
        "forward" => heads_at(false, true),
        "back" => heads_at(true, false),
        "both" => heads_at(true, true),
        "none" => heads_at(false, false),
        _ => None,
    }
}

// What `dir` asks for; in a directed graph heads are at heads.
fn by_direction(
    alloc: Global,
    given: Given<'_>,
    is_directed: bool,
    notes: &mut Notes,
) -> Result<Heads, AllocError> {
    let by_default = Heads {
        at_tail: false,
        at_head: is_directed,
    };
    let (Some(written), Some(name)) = (given.written("dir"), given.text("dir")) else {
        return Ok(by_default);
    };
    match heads_named(name) {
        Some(heads) => Ok(heads),
        None => {
            tell_value(alloc, written, "dir", "forward, back, both or none", notes)?;
            Ok(by_default)
        }
    }
}

// Whether a head is none, which may be written several times.
fn is_none(form: &str) -> bool {
    !form.is_empty() && form.split("none").all(|rest| rest.is_empty())
}

// Whether an end has the form of a head, if it is to have one.
fn has_form(
    alloc: Global,
    given: Given<'_>,
    name: &str,
    is_asked: bool,
    notes: &mut Notes,
) -> Result<bool, AllocError> {
    let (Some(written), Some(form)) = (given.written(name), given.text(name)) else {
        return Ok(true);
    };
    if is_asked && !is_none(form) && form != "normal" {
        let message = format!(in alloc; "the head \"{form}\" is drawn as a normal one")?;
        notes.add(written.place, message.as_str())?;
    }
    Ok(!is_none(form))
}

/// Which ends of an edge have heads.
pub(crate) fn heads_of(
    alloc: Global,
    given: Given<'_>,
    is_directed: bool,
    notes: &mut Notes,
) -> Result<Heads, AllocError> {
    let asked = by_direction(alloc, given, is_directed, notes)?;
    let has_tail = has_form(alloc, given, "arrowtail", asked.at_tail, notes)?;
    let has_head = has_form(alloc, given, "arrowhead", asked.at_head, notes)?;
    Ok(Heads {
        at_tail: asked.at_tail && has_tail,
        at_head: asked.at_head && has_head,
    })
}
