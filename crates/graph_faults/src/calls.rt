//! All faults of a graph for which a document is sent.

use crate::across::levels_of;
use crate::details::Teller;
use crate::fault::Fault;
use crate::origin::Origin;
use crate::rules::rule_words;
use crate::texts::{bare_fault, count_value, grouped};
use graph_rules::{Case, Context, Find, context_of, finds_in};
use json_places::{Kind, elements_of};
use option_names::OptionTable;
use serde_json::Value;
use std::alloc::{AllocError, Global};
use std::collections::{BTreeMap, BTreeSet};

const MOST_BYTES: usize = 16777216;

// No more faults are told. Nobody reads so many.
const MOST_FAULTS: usize = 10000;

fn kind_of(context: &Context, element: Option<usize>) -> Kind {
    let element = match element {
        Some(number) => context.element(number),
        None => None,
    };
    match element {
        Some(element) => element.kind,
        None => Kind::Node,
    }
}

// The fault of a document that is longer than it may be.
fn length_fault(alloc: Global, document: &Value) -> Result<Option<Fault>, AllocError> {
    let length = document.to_string(alloc)?.len();
    if length <= MOST_BYTES {
        return Ok(None);
    }
    let found = grouped(alloc, length)?;
    let most = grouped(alloc, MOST_BYTES)?;
    let detail = format!(in alloc; "it has {found} bytes, and may have {most}")?;
    let mut fault = bare_fault(alloc, 0, rule_words(0), detail, Vec::new(alloc))?;
    fault.found = Some(count_value(length));
    fault.allowed = Some(most);
    Ok(Some(fault))
}

fn is_crossing(find: &Find) -> bool {
    matches!(find.case, Case::Cross(..) | Case::Whole(_))
}

// Whether elements are sent that the graph doesn't have.
fn has_made(
    alloc: Global,
    context: &Context,
    graph: &Value,
    owners: &BTreeMap<String, Value>,
) -> Result<bool, AllocError> {
    if owners.is_empty() {
        return Ok(false);
    }
    Ok(elements_of(alloc, graph)?.len() < context.elements.len())
}

// The faults that are told. Each is told once: an edge that is sent in pieces has those of its options at all of them.
#[derive(Drop)]
struct Told {
    faults: Vec<Fault>,
    seen: BTreeSet<String>,
    has_made: bool,
}

impl Told {
    fn is_new(&mut self, alloc: Global, fault: &Fault) -> Result<bool, AllocError> {
        if !self.has_made {
            return Ok(true);
        }
        let (path, message) = (fault.path.as_str(), fault.message.as_str());
        Ok(self.seen.insert(format!(in alloc; "{path} {message}")?)?)
    }

    fn tell(&mut self, alloc: Global, fault: Fault) -> Result<(), AllocError> {
        if self.is_new(alloc, &fault)? {
            self.faults.push(fault)?;
        }
        Ok(())
    }
}

fn alone(alloc: Global, fault: Fault) -> Result<Vec<Fault>, AllocError> {
    let mut faults = Vec::new(alloc);
    faults.push(fault)?;
    Ok(faults)
}

/// All faults of a graph, found in the document that is sent for it and told of the graph: options have any clear name, an edge may have
/// several ends at one side, and it may cross borders. For each id that stands in the document alone, `owners` has that of the graph's
/// element: of the same element if it is sent under another id, or else of that for which it is made, null where that has none. What is
/// made stands behind what is given. `general` are the options of the call. Of very many faults it gives the first 10,000.
pub fn faults_of_call<'a>(
    alloc: Global,
    table: &'a OptionTable,
    document: &'a Value,
    graph: &'a Value,
    owners: &'a BTreeMap<String, Value>,
    general: &'a Value,
) -> Result<Vec<Fault>, AllocError> {
    if let Some(fault) = length_fault(alloc, document)? {
        return alone(alloc, fault);
    }
    let context = context_of(alloc, table, document)?;
    let finds = finds_in(alloc, &context, document)?;
    let mut told = Told {
        faults: Vec::new(alloc),
        seen: BTreeSet::new(alloc),
        has_made: has_made(alloc, &context, graph, owners)?,
    };
    let mut teller = Teller::new(alloc, &context, owners, told.has_made);
    let mut origin = Origin::of(alloc, table, graph, owners, general);
    if finds.iter().any(is_crossing) {
        origin.levels = Some(levels_of(alloc, table, graph, general)?);
    }
    for find in finds {
        if told.faults.len() == MOST_FAULTS {
            break;
        }
        let kind = kind_of(&context, find.element);
        if let Some(turned) = origin.turned(alloc, &context, find)? {
            told.tell(alloc, teller.fault(turned, kind)?)?;
        }
    }
    Ok(told.faults)
}
