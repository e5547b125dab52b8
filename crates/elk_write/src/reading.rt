// Numbers, points and sections as they stand in a placed value.
ghost use Rattle.std.specs.Prelude.{◌≡◌, ◌^◌, pos, neg_ℤ, IfOk, Option, option_map, option_and_then};
ghost use Rattle.std.specs.Fn.{FnReturnsAt};
ghost use Rattle.serde_json.specs.Data.{Data};
ghost use Rattle.serde_json.specs.declared.value.Value.{Value};
ghost use Rattle.serde_json.specs.Find.{get};
ghost use Rattle.serde_json.specs.View.{view, items_view};
ghost use Rattle.elk_options.specs.Values.{if_within};
ghost use Rattle.elk_write.specs.Reading.{all_in, bends_in as bends_spec, coordinate_in as coordinate_spec, integer_in as integer_spec, is_sole as sole_test, is_text as text_test, large_in as large_spec, length_in as length_spec, point_in as point_spec, route_in as route_spec, section_in as section_spec, sections_in as sections_spec, size_in as size_spec, small_in as small_spec, sole_section_in as sole_spec};

use crate::ids::section_name;
use crate::numbers::item_count;
use drawing_types::list::Items;
use drawing_types::section::Section;
use drawing_types::shape::{Point, Size};
use elk_doc::document::Id;
use serde_json::{Number, Value};
use std::alloc::{AllocError, Global};

const FAR: i128 = 1 << 53;

fn integer_in(value: &Value) -> Option<i128>
    ensures { result ≡ integer_spec (view value.now) }
{
    value.as_number().and_then(Number::as_i128)
}

fn coordinate(n: i128) -> Option<i64>
    ensures { result ≡ if_within (neg_ℤ (pos (2 ^ 53))) (pos (2 ^ 53)) n }
{
    if -FAR <= n && n <= FAR {
        Some(n as i64)
    } else {
        None
    }
}

fn coordinate_in(value: &Value) -> Option<i64>
    ensures { result ≡ coordinate_spec (view value.now) }
{
    integer_in(value).and_then(coordinate)
}

fn side_length(n: i128) -> Option<i64>
    ensures { result ≡ if_within (pos 0) (pos (2 ^ 53)) n }
{
    if 0 <= n && n <= FAR {
        Some(n as i64)
    } else {
        None
    }
}

fn length_in(value: &Value) -> Option<i64>
    ensures { result ≡ length_spec (view value.now) }
{
    integer_in(value).and_then(side_length)
}

pub(crate) fn large_in(value: &Value) -> Option<u64>
    ensures { result ≡ large_spec (view value.now) }
{
    value.as_u64()
}

pub(crate) fn small_in(value: &Value) -> Option<u32>
    ensures { result ≡ small_spec (view value.now) }
{
    match value.as_u64() {
        Some(n) if n <= u32::MAX as u64 => Some(n as u32),
        _ => None,
    }
}

pub(crate) fn point_in(value: &Value) -> Option<Point>
    ensures { result ≡ point_spec (view value.now) }
{
    let x = value.get("x").and_then(coordinate_in)?;
    let y = value.get("y").and_then(coordinate_in)?;
    Some(Point { x, y })
}

pub(crate) fn size_in(value: &Value) -> Option<Size>
    ensures { result ≡ size_spec (view value.now) }
{
    let width = value.get("width").and_then(length_in)?;
    let height = value.get("height").and_then(length_in)?;
    Some(Size { width, height })
}

// The items of an array, each read by `read`: none where one of them can't be.
pub(crate) fn read_each<T: Drop, F: Fn(&Value) -> Option<T>>(
    alloc: Global,
    items: &Vec<Value>,
    read: F,
) -> Result<Option<Vec<T>>, AllocError>
    requires { F.IsAlwaysCallable read }
    ensures { (spec : Data → Option T) → ((v : Value) (r : Option T) → FnReturnsAt F.Fn read v r → r ≡ spec (view v))
        → IfOk result (λ o. option_map (λ v. v.items) o ≡ all_in spec (items_view items.now.items)) }
{
    let mut parts = Vec::with_capacity(alloc, items.len())?;
    for item in items {
        match read(item) {
            None => return Ok(None),
            Some(part) => parts.push(part)?,
        }
    }
    Ok(Some(parts))
}

fn points_in(alloc: Global, items: &Vec<Value>) -> Result<Option<Vec<Point>>, AllocError>
    ensures { IfOk result (λ o. option_map (λ v. v.items) o ≡ all_in point_spec (items_view items.now.items)) }
{
    read_each(alloc, items, point_in)
}

// The bends of a section: none where the member is absent.
fn bends_in(alloc: Global, bends: Option<&Value>) -> Result<Option<Vec<Point>>, AllocError>
    ensures { IfOk result (λ o. option_map (λ v. v.items) o ≡ bends_spec (option_map (λ v. view v.now) bends.entry)) }
{
    match bends {
        None => Ok(Some(Vec::new(alloc))),
        Some(bends) => match bends.as_array() {
            None => Ok(None),
            Some(items) => points_in(alloc, items),
        },
    }
}

fn point_at(value: &Value, key: &str) -> Option<Point>
    ensures { result ≡ option_and_then point_spec (get key.now (view value.now)) }
{
    value.get(key).and_then(point_in)
}

fn route_in(alloc: Global, value: &Value) -> Result<Option<Section>, AllocError>
    ensures { IfOk result (λ o. o ≡ route_spec (view value.now)) }
{
    let Some(start) = point_at(value, "startPoint") else {
        return Ok(None);
    };
    let Some(bends) = bends_in(alloc, value.get("bendPoints"))? else {
        return Ok(None);
    };
    let Some(end) = point_at(value, "endPoint") else {
        return Ok(None);
    };
    Ok(Some(Section {
        start,
        bends: Items::from_vec(bends),
        end,
    }))
}

fn is_text(value: &Value, text: &str) -> bool
    ensures { result ≡ text_test text.now (view value.now) }
{
    match value.as_str() {
        None => false,
        Some(found) => text == found,
    }
}

fn section_in(alloc: Global, id: &Id, value: &Value) -> Result<Option<Section>, AllocError>
    ensures { IfOk result (λ o. o ≡ section_spec id.now (view value.now)) }
{
    let name = section_name(alloc, id)?;
    let named = match value.get("id") {
        None => false,
        Some(found) => is_text(found, name.as_str()),
    };
    if named {
        route_in(alloc, value)
    } else {
        Ok(None)
    }
}

fn is_sole(value: &Value) -> bool
    ensures { result ≡ sole_test (view value.now) }
{
    match value.as_array() {
        None => false,
        Some(items) => item_count(items) == 1,
    }
}

// The section that an array has alone.
fn sole_section_in(alloc: Global, id: &Id, value: &Value) -> Result<Option<Section>, AllocError>
    ensures { IfOk result (λ o. o ≡ sole_spec id.now (view value.now)) }
{
    if !is_sole(value) {
        return Ok(None);
    }
    match value.get(0) {
        None => Ok(None),
        Some(section) => section_in(alloc, id, section),
    }
}

// The section of the edge with this id.
pub(crate) fn sections_in(
    alloc: Global,
    id: &Id,
    value: &Value,
) -> Result<Option<Section>, AllocError>
    ensures { IfOk result (λ o. o ≡ sections_spec id.now (view value.now)) }
{
    match value.get("sections") {
        None => Ok(None),
        Some(sections) => sole_section_in(alloc, id, sections),
    }
}
