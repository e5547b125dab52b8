// The text of a value.
ghost use Rattle.std.specs.Prelude.{◌≡◌, ◌≤◌, false, Some, IfOk};
ghost use Rattle.serde_json.specs.Data.{depth};
ghost use Rattle.serde_json.specs.Read.{max_depth};
ghost use Rattle.serde_json.specs.View.{view};
ghost use Rattle.serde_json.specs.Written.{has_float};
ghost use Rattle.elk_json.specs.Bytes.{reading};
ghost use Rattle.elk_json.specs.Keyed.{IsKeyed};
ghost use Rattle.elk_write.specs.Text.{text, IsOneLine, HasAscendingKeys};

use serde_json::Value;
use std::alloc::{AllocError, Global};

/// The compact text of a value whose numbers are all whole, and a line feed, which is the only one. The members of each
/// object stand in the order in which the value has them, so that their keys ascend where they do in the value. It is read
/// as the same value, unless that nests deeper than a text may.
///
/// Proved:
/// - The compact text is one line.
/// - Its keys ascend if those of the value do.
/// - It is read as the same value, unless the value nests deeper than a text may. No answer does.
pub fn text_of(alloc: Global, value: &Value) -> Result<Vec<u8>, AllocError>
    requires { has_float (view value.now) ≡ false }
    ensures written { IfOk result (λ b. b.items ≡ text (view value.now)) }
    ensures read { IfOk result (λ b. depth (view value.now) ≤ max_depth
        → reading b.items ≡ Some (view value.now)) }
    ensures one_line { IfOk result (λ b. IsOneLine b.items) }
    ensures ascending { IfOk result (λ b. IsKeyed (view value.now) → HasAscendingKeys b.items) }
{
    let mut bytes = value.to_vec(alloc)?;
    bytes.push(b'\n')?;
    Ok(bytes)
}
