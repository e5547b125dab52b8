//! Ids.
ghost use Rattle.std.specs.Prelude.{◌≡◌, [], Some, IfOk, option_map, nat_lt, take, false};
ghost use Rattle.std.specs.Option.{option_map_or};
ghost use Rattle.std.specs.List.{list_any};
ghost use Rattle.serde_json.specs.View.{view, number_view};
ghost use Rattle.serde_json.specs.Find.{as_integer};
ghost use Rattle.elk_doc.specs.declared.document.Id.TheVariants.{Text, Whole};
ghost use Rattle.elk_json.specs.Members.{to_id, id_of as id_value};
ghost use Rattle.elk_json.specs.Ends.{is_double as double_test, first_double as first_double_of};
ghost use Rattle.elk_json.specs.Seen.{seen, seen_list};
ghost use Rattle.elk_json.specs.Words.{IsWordIfAny};

use crate::elements::{Element, Kind};
use crate::listed::{Listed, first_of};
use crate::members::{integer_of, is_of};
use elk_doc::document::{Id, Name};
use serde_json::{Number, Value};
use std::alloc::{AllocError, Global};

// A place that is there comes before another.
fn is_before(first: Option<usize>, place: usize) -> bool
    ensures { result ≡ option_map_or (λ i. nat_lt i place) first false }
{
    match first {
        None => false,
        Some(first) => first < place,
    }
}

// Whether the element's id stood before the place.
fn stood_before<'a>(list: &Listed<'_, 'a>, element: &Element<'a>, place: usize) -> bool
    ensures { result ≡ list_any (double_test (seen element.now)) (seen_list (take place list.now.elements.now)) }
{
    match element.key {
        None => false,
        Some(key) => is_before(first_of(list, is_of(element, Kind::Edge), key), place),
    }
}

// The first element whose id stood earlier.
pub(crate) fn first_double<'e, 'a>(list: &Listed<'e, 'a>) -> Option<&'e Element<'a>>
    ensures { option_map (λ e. seen e.now) result ≡ first_double_of [] (seen_list list.now.elements.now) }
{
    for (i, element) in list.elements.iter().enumerate() {
        if stood_before(list, element, i) {
            return Some(element);
        }
    }
    None
}

// The element's id. A whole one has 64 bits.
pub(crate) fn id_of(alloc: Global, value: &Value) -> Result<Option<Id>, AllocError>
    ensures value { IfOk result (λ id. id ≡ id_value (view value.now)) }
    ensures word { IfOk result IsWordIfAny }
{
    match value.get("id") {
        None => Ok(None),
        Some(id) => id_from(alloc, id),
    }
}

fn id_from(alloc: Global, value: &Value) -> Result<Option<Id>, AllocError>
    ensures value { IfOk result (λ id. id ≡ to_id (view value.now)) }
    ensures word { IfOk result IsWordIfAny }
{
    match value {
        Value::String(text) => {
            let name = String::from_str(alloc, text.as_str())?;
            Ok(Some(Id::Text(Name::from_string(name))))
        }
        Value::Number(number) => Ok(whole_id(number)),
        _ => Ok(None),
    }
}

fn whole_id(number: &Number) -> Option<Id>
    ensures value { result ≡ option_map Whole (as_integer (number_view number.now)) }
    ensures word { IsWordIfAny result }
{
    match integer_of(number) {
        None => None,
        Some(whole) => Some(Id::Whole(whole)),
    }
}
