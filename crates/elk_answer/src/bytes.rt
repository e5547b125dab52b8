//! The answer to a document's bytes.
ghost use Rattle.std.specs.Prelude.{IfErr, IfOk, OnOk};
ghost use Rattle.elk_json.specs.Refused.{MatchFault};
ghost use Rattle.elk_answer.specs.Answer.{IsAccepted, IsAnswer, Refuses};

use compound::lay_out;
use elk_json::{DocFault, parse, read_doc};
use elk_write::answer_text;
use std::alloc::Global;

/// The text of the drawing of the document in these bytes, or the rule that refuses it and where.
///
/// The text is the same document placed, as compact JSON with ascending keys and a line feed.
///
/// Proved:
/// - The answer is the text of the input value with the members of a drawing put in, with ascending keys.
/// - The drawing obeys every definition of a good drawing and takes no more room than it needs.
/// - No layering has a smaller span at any level.
/// - No coordinate reaches 2^53 in size.
/// - The drawing comes level by level from layouts.
/// - The text is read as what was written, and no rule refuses it.
/// - The drawing that is read from the text is the same. It is of the same document except for the places of ports, and obeys that
///   document too.
/// - The refusal is that of the lowest rule that applies, at its first place.
pub fn answer(alloc: Global, bytes: &[u8]) -> Result<Vec<u8>, DocFault>
    ensures answered { IfOk result (λ text. IsAnswer bytes.now text.items) }
    ensures accepted { OnOk result (IsAccepted bytes.now) }
    ensures refused { IfErr result (λ fault. MatchFault fault (Refuses bytes.now)) }
{
    let value = parse(alloc, bytes)?;
    let doc = read_doc(alloc, &value)?;
    let placed = lay_out(alloc, &doc)?;
    let text = answer_text(alloc, &value, &doc, &placed)?;
    Ok(text)
}
