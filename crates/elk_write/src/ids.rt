// Ids as JSON.
ghost use Rattle.std.specs.Prelude.{◌≡◌, IfOk, string_bytes};
ghost use Rattle.serde_json.specs.View.{view};
ghost use Rattle.elk_write.specs.Values.{id_data, section_id};
ghost use Rattle.json.specs.Print.{quoted as json_quoted};
ghost use Rattle.elk_write.specs.Text.{id_spelling};

use elk_doc::document::Id;
use serde_json::{Number, Value};
use std::alloc::{AllocError, Global};

/// The id as JSON text: a text id in quotes, a number in decimal.
///
/// Proved:
/// - Ids are written as JSON text.
pub fn id_text(alloc: Global, id: &Id) -> Result<Vec<u8>, AllocError>
    ensures { IfOk result (λ b. b.items ≡ id_spelling id.now) }
{
    match id {
        Id::Text(name) => quoted(alloc, name.as_str()),
        Id::Whole(number) => Ok(format!(in alloc; "{number}")?.into_bytes()),
    }
}

fn quoted(alloc: Global, text: &str) -> Result<Vec<u8>, AllocError>
    ensures { IfOk result (λ b. b.items ≡ json_quoted text.now) }
{
    Value::String(String::from_str(alloc, text)?).to_vec(alloc)
}

// The id as it stands in a value. A number past 64 bits stands in none.
pub(crate) fn id_value(alloc: Global, id: &Id) -> Result<Value, AllocError>
    ensures { IfOk result (λ v. view v ≡ id_data id.now) }
{
    match id {
        Id::Text(name) => Ok(Value::String(String::from_str(alloc, name.as_str())?)),
        Id::Whole(number) => match Number::from_i128(*number) {
            Some(number) => Ok(Value::Number(number)),
            None => Err(AllocError),
        },
    }
}

// The id of an edge's section.
pub(crate) fn section_name(alloc: Global, id: &Id) -> Result<String, AllocError>
    ensures { IfOk result (λ s. string_bytes s ≡ section_id id.now) }
{
    match id {
        Id::Text(name) => {
            let mut text = String::from_str(alloc, name.as_str())?;
            text.push_str("_s0")?;
            Ok(text)
        }
        Id::Whole(number) => {
            let mut text = format!(in alloc; "{number}")?;
            text.push_str("_s0")?;
            Ok(text)
        }
    }
}
