//! Ids that somebody meant who wrote another.

use graph_rules::Context;
use json_places::Kind;
use option_names::{nearest, plain_text};
use serde_json::Value;
use std::alloc::{AllocError, Global};

// Looking through all ids for the nearest one takes time, and whoever reads so many faults has found the reason.
const MOST_NEAR: usize = 20;

// The ids that are looked for in a document.
#[derive(Drop)]
pub(crate) struct Near {
    // How many more are looked for.
    left: usize,
}

// The ids of the nodes and ports of a document, or of the ports of one node.
fn ids_in<'a>(
    alloc: Global,
    context: &Context<'a>,
    node: Option<usize>,
) -> Result<Vec<&'a Value>, AllocError> {
    let mut ids = Vec::new(alloc);
    for number in context.named.iter() {
        if let Some(element) = context.element(*number) {
            let is_meant = node.is_none() || element.kind == Kind::Port && element.holder == node;
            if let (true, Some(id)) = (is_meant, element.value.get("id")) {
                ids.push(id)?;
            }
        }
    }
    Ok(ids)
}

// A number and a text of the same digits are two ids, and easily confused.
fn twin_of<'a>(
    alloc: Global,
    id: &Value,
    ids: &[&'a Value],
) -> Result<Option<&'a Value>, AllocError> {
    let written = plain_text(alloc, id)?;
    for other in ids {
        if other.is_string() != id.is_string() {
            let text = plain_text(alloc, *other)?;
            if text.as_str() == written.as_str() {
                return Ok(Some(*other));
            }
        }
    }
    Ok(None)
}

fn nearest_id(alloc: Global, id: &Value, ids: &[&Value]) -> Result<Option<Value>, AllocError> {
    if let Some(twin) = twin_of(alloc, id, ids)? {
        return Ok(Some(twin.clone()?));
    }
    let Some(written) = id.as_str() else {
        return Ok(None);
    };
    let mut texts = Vec::new(alloc);
    for other in ids {
        if let Some(text) = other.as_str() {
            texts.push(text)?;
        }
    }
    Ok(match nearest(alloc, written, texts.as_slice())? {
        Some(text) => Some(Value::String(String::from_str(alloc, text)?)),
        None => None,
    })
}

impl Near {
    pub(crate) fn new() -> Near {
        Near { left: MOST_NEAR }
    }

    // The id of a node or port, or of one of a node's ports, that was meant by another.
    pub(crate) fn id(
        &mut self,
        alloc: Global,
        context: &Context,
        id: &Value,
        node: Option<usize>,
    ) -> Result<Option<Value>, AllocError> {
        if self.left == 0 {
            return Ok(None);
        }
        self.left = self.left.saturating_sub(1);
        let ids = ids_in(alloc, context, node)?;
        nearest_id(alloc, id, ids.as_slice())
    }
}
