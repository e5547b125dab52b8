//! Nodes that are records.

use crate::nodes::blank_label;
use crate::planned::{FieldArea, Planned};
use crate::spots::Area;
use dot_looks::{
    Form, Given, Members, Shape, font_size, least_extent, put_letters, put_number, put_text,
};
use dot_records::{Cell, Extent, Field, Names, cells_of, extent_of, label_text, record_of};
use serde_json::Value;
use serde_json::value::Map;
use std::alloc::{AllocError, Global};

// The space between a text and the lines of its field. A label of a field never stands at the corner of its node, since pictures
// take such a label for one that has no place.
const INSET: f64 = 2.0;

fn label_of_field(
    alloc: Global,
    given: Given<'_>,
    text: &str,
    area: Area,
) -> Result<Value, AllocError> {
    let mut label: Members = Map::new(alloc);
    put_text(&mut label, alloc, "text", text)?;
    put_number(&mut label, alloc, "x", area.x + INSET)?;
    put_number(&mut label, alloc, "y", area.y + INSET)?;
    let (width, height) = (area.width - 2.0 * INSET, area.height - 2.0 * INSET);
    put_number(&mut label, alloc, "width", width.max(1.0))?;
    put_number(&mut label, alloc, "height", height.max(1.0))?;
    put_letters(&mut label, alloc, given)?;
    Ok(Value::Object(label))
}

// The texts of fields, with names put in.
fn texts_of(alloc: Global, fields: &[Field], names: &Names<'_>) -> Result<Vec<String>, AllocError> {
    let mut texts = Vec::new(alloc);
    for field in fields {
        texts.push(label_text(alloc, field.text.as_str(), names)?)?;
    }
    Ok(texts)
}

// A field without a text has room for a blank.
fn extents_of(
    alloc: Global,
    fields: &[Field],
    texts: &[String],
    size: f64,
) -> Result<Vec<Extent>, AllocError> {
    let mut extents = Vec::new(alloc);
    for (field, text) in fields.iter().zip(texts.iter()) {
        let is_blank = field.count == 0 && text.is_empty();
        let text = if is_blank { " " } else { text.as_str() };
        extents.push(extent_of(text, size))?;
    }
    Ok(extents)
}

fn labels_of(
    alloc: Global,
    given: Given<'_>,
    fields: &[Field],
    texts: &[String],
    cells: &[Cell],
) -> Result<Vec<Value>, AllocError> {
    let mut labels = Vec::new(alloc);
    for ((field, text), cell) in fields.iter().zip(texts.iter()).zip(cells.iter()) {
        if field.count == 0 && !text.is_empty() {
            let area = Area::of_cell(*cell);
            labels.push(label_of_field(alloc, given, text.as_str(), area)?)?;
        }
    }
    if labels.is_empty() {
        labels.push(blank_label(alloc)?)?;
    }
    Ok(labels)
}

fn areas_of(
    alloc: Global,
    fields: Vec<Field>,
    cells: &[Cell],
) -> Result<Vec<FieldArea>, AllocError> {
    let mut areas = Vec::new(alloc);
    for (field, cell) in fields.into_iter().zip(cells.iter()) {
        let Field { port, count, .. } = field;
        areas.push(FieldArea {
            port,
            area: Area::of_cell(*cell),
            is_leaf: count == 0,
        })?;
    }
    Ok(areas)
}

/// The plan of a record whose label is a text. `is_row` says whether its outermost fields stand side by side. There is nothing if the
/// text is no record.
pub(crate) fn plan_record(
    alloc: Global,
    given: Given<'_>,
    shape: Shape,
    text: &str,
    names: &Names<'_>,
    is_row: bool,
) -> Result<Option<Planned>, AllocError> {
    let Some(fields) = record_of(alloc, text, is_row)? else {
        return Ok(None);
    };
    let texts = texts_of(alloc, fields.as_slice(), names)?;
    let extents = extents_of(alloc, fields.as_slice(), texts.as_slice(), font_size(given))?;
    let least = least_extent(given, shape);
    let least = Extent {
        width: least.width.ceil(),
        height: least.height.ceil(),
    };
    let is_fixed = given.is_true("fixedsize");
    let cells = cells_of(
        alloc,
        fields.as_slice(),
        extents.as_slice(),
        least,
        is_fixed,
    )?;
    let whole = match cells.first() {
        Some(cell) => Extent {
            width: cell.width,
            height: cell.height,
        },
        None => least,
    };
    let labels = labels_of(
        alloc,
        given,
        fields.as_slice(),
        texts.as_slice(),
        cells.as_slice(),
    )?;
    let areas = areas_of(alloc, fields, cells.as_slice())?;
    Ok(Some(Planned::new(alloc, Form::Record, whole, labels, areas)))
}
