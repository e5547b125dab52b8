//! From a graph to a placed draft.

use crate::lengths::{ask_for_whole, read_whole};
use crate::placing::place_document;
use crate::stages::{Deeds, lower, raise};
use elk_answer::answer;
use elk_json::{DocFault, parse};
use graph_draft::{Draft, How, Size, document_of};
use layer_stages::Border;
use node_labels::{Lacks, lacks_of};
use part_packing::pack_parts;
use serde_json::Value;
use std::alloc::Global;
use std::collections::{BTreeMap, BTreeSet};

/// What is known of a graph that is one level of a larger one.
#[derive(Drop)]
pub struct OneLevel {
    /// The edges whose labels stay in their layers, by their places in the list of the level.
    pub still: BTreeSet<usize>,
    /// The leaves that stand for the border of the level, by their places among the children.
    pub ends: BTreeMap<usize, Border>,
}

impl OneLevel {
    /// A graph of which nothing is known.
    pub fn none(alloc: Global) -> OneLevel {
        OneLevel {
            still: BTreeSet::new(alloc),
            ends: BTreeMap::new(alloc),
        }
    }
}

// A draft that the engine has placed, with what stages did before.
#[derive(Drop)]
pub(crate) struct Placed {
    pub(crate) draft: Draft,
    deeds: Deeds,
    document: Value,
}

impl Placed {
    // The least sizes that levels ask for, by their nodes' numbers.
    pub(crate) fn leasts(&self) -> &BTreeMap<usize, Size> {
        &self.deeds.leasts
    }

    // The least size that a level asks for, which isn't looked for any more.
    pub(crate) fn take_least(&mut self, level: usize) -> Size {
        self.deeds.leasts.remove(&level).unwrap_or(Size::NONE)
    }

    // The draft put right, and the document that the engine was sent.
    pub(crate) fn raised(self, alloc: Global) -> Result<(Draft, Value), DocFault> {
        let Placed {
            mut draft,
            deeds,
            document,
        } = self;
        raise(alloc, &mut draft, deeds)?;
        Ok((draft, document))
    }
}

/// The engine's answer to a document, read again.
pub(crate) fn answer_to(alloc: Global, document: &Value) -> Result<Value, DocFault> {
    let sent = document.to_vec(alloc)?;
    let answered = answer(alloc, sent.as_slice())?;
    drop(sent);
    parse(alloc, answered.as_slice())
}

// Rewrites a draft, and has the engine place it. `lacks` tells what nodes lacked when they were laid out before.
pub(crate) fn place_by_engine(
    alloc: Global,
    mut draft: Draft,
    lacks: &Lacks,
    one: &OneLevel,
) -> Result<Placed, DocFault> {
    let mut deeds = lower(alloc, &mut draft, lacks, one)?;
    let sought = deeds.sought(alloc, &draft)?;
    if !sought.is_empty() {
        let answered = answer_to(alloc, &sought.document(alloc)?)?;
        deeds.bind(alloc, &mut draft, &sought, &answered)?;
    }
    let document = document_of(alloc, &draft)?;
    place_document(alloc, &mut draft, &document)?;
    pack_parts(alloc, &mut draft)?;
    Ok(Placed {
        draft,
        deeds,
        document,
    })
}

/// The draft of a graph laid out, and the document that the engine was sent last. `draft` is what was read of the graph. Levels that turn
/// out too small for their labels are laid out once more, with the room that they lack. A graph that can't be drawn is refused by the
/// rule that the engine names.
pub fn placed_draft(
    alloc: Global,
    graph: &Value,
    draft: Draft,
    how: &How,
) -> Result<(Draft, Value), DocFault> {
    let draft = ask_for_whole(alloc, draft, how)?;
    let one = OneLevel::none(alloc);
    let first = place_by_engine(alloc, draft, &BTreeMap::new(alloc), &one)?;
    let lacks = lacks_of(alloc, &first.draft, first.leasts())?;
    if lacks.is_empty() {
        return first.raised(alloc);
    }
    match read_whole(alloc, graph, how)? {
        Some(draft) => {
            drop(first);
            let last = place_by_engine(alloc, draft, &lacks, &one)?;
            last.raised(alloc)
        }
        None => first.raised(alloc),
    }
}
