//! The document of a value.
ghost use Rattle.std.specs.Prelude.{◌≡◌, None, Some, MatchResult};
ghost use Rattle.serde_json.specs.View.{view};
ghost use Rattle.elk_json.specs.Document.{IsDocument};
ghost use Rattle.elk_json.specs.Elements.{elements as elements_spec};
ghost use Rattle.elk_json.specs.Refused.{MatchFault};
ghost use Rattle.elk_json.specs.Rules.{refused, value_refusal as value_refusal_of};
ghost use Rattle.elk_json.specs.Seen.{seen_list};
ghost use Rattle.elk_json.specs.Words.{HasWords};

use crate::build::{edges_of, nodes_of, ports_of};
use crate::elements::elements_of;
use crate::fault::DocFault;
use crate::listed::{Listed, list_elements};
use crate::rules::{later_refusal, value_refusal};
use elk_doc::document::Doc;
use serde_json::Value;
use std::alloc::Global;

// The document of a value that no rule refuses, from its elements.
fn document_of(alloc: Global, value: &Value, list: &Listed<'_, '_>) -> Result<Doc, DocFault>
    requires accepted { refused (view value.now) ≡ None }
    requires all { seen_list list.now.elements.now ≡ elements_spec (view value.now) }
    ensures { MatchResult result
        (λ doc. IsDocument doc (view value.now) × HasWords doc)
        (λ fault. MatchFault fault (λ refusal. refused (view value.now) ≡ Some refusal)) }
{
    let nodes = nodes_of(alloc, list)?;
    let ports = ports_of(alloc, list)?;
    let edges = edges_of(alloc, list)?;
    Ok(Doc::new(nodes, ports, edges))
}

// The document of a value that no rule on the whole value refuses, or the refusal by a later rule.
#[tactic(auto, unfolding(crate::specs::Rules::refused))]
fn read_listed(alloc: Global, value: &Value, list: &Listed<'_, '_>) -> Result<Doc, DocFault>
    requires accepted { value_refusal_of (view value.now) ≡ None }
    requires all { seen_list list.now.elements.now ≡ elements_spec (view value.now) }
    ensures { MatchResult result
        (λ doc. (refused (view value.now) ≡ None) × IsDocument doc (view value.now) × HasWords doc)
        (λ fault. MatchFault fault (λ refusal. refused (view value.now) ≡ Some refusal)) }
{
    match later_refusal(alloc, list)? {
        Some(refusal) => Err(DocFault::Refused(refusal)),
        None => document_of(alloc, value, list),
    }
}

/// The document of a value: its nodes, ports and edges in document order, with the options that hold for them. A value
/// that a rule refuses is answered by the lowest-numbered rule that holds, at the first element at which it does.
/// Whole ids are numbers of 64 bits, with a sign or without.
///
/// Proved:
/// - The document of a value is its nodes, ports and edges in document order with their effective options.
/// - Each rule is a condition on the whole value.
/// - Whole ids of a document that is read fit into 64 bits.
#[tactic(auto, unfolding(crate::specs::Rules::refused))]
pub fn read_doc(alloc: Global, value: &Value) -> Result<Doc, DocFault>
    ensures { MatchResult result
        (λ doc. (refused (view value.now) ≡ None) × IsDocument doc (view value.now) × HasWords doc)
        (λ fault. MatchFault fault (λ refusal. refused (view value.now) ≡ Some refusal)) }
{
    let elements = elements_of(alloc, value)?;
    match value_refusal(alloc, value, elements.as_slice())? {
        Some(refusal) => Err(DocFault::Refused(refusal)),
        None => {
            let list = list_elements(alloc, elements.as_slice())?;
            read_listed(alloc, value, &list)
        }
    }
}
