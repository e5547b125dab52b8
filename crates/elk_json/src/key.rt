//! Ids as they stand in a value.
ghost use Rattle.std.specs.Prelude.{◌≡◌, option_map};
ghost use Rattle.serde_json.specs.View.{view};
ghost use Rattle.elk_doc.specs.declared.document.Id.TheVariants.{Whole};
ghost use Rattle.elk_json.specs.Keys.{key_id};
ghost use Rattle.elk_json.specs.Members.{id_of, to_id};

use serde_json::Value;

/// An id, as it stands in the value: a text or a whole number.
#[derive(Clone, Copy, PartialEq, Eq, Hash, Drop)]
pub enum Key<'a> {
    Text(&'a str),
    Whole(i128),
}

// The id that a value is.
pub(crate) fn key_from(value: &Value) -> Option<Key<'_>>
    ensures { option_map key_id result ≡ to_id (view value.now) }
{
    match value {
        Value::String(text) => Some(Key::Text(text.as_str())),
        Value::Number(number) => whole_key(number.as_i128()),
        _ => None,
    }
}

fn whole_key<'a>(whole: Option<i128>) -> Option<Key<'a>>
    ensures { option_map key_id result ≡ option_map Whole whole }
{
    match whole {
        None => None,
        Some(whole) => Some(Key::Whole(whole)),
    }
}

// The id of an element's value.
pub(crate) fn key_of(value: &Value) -> Option<Key<'_>>
    ensures { option_map key_id result ≡ id_of (view value.now) }
{
    match value.get("id") {
        None => None,
        Some(id) => key_from(id),
    }
}
