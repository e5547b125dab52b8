//! Where the fields of a record stand.

use crate::records::Field;
use crate::sizes::Extent;
use std::alloc::{AllocError, Global};
use std::num::nearest_usize_to_f64;

// The space around the text of a field, both sides together.
const SIDES: f64 = 16.0;

const ENDS: f64 = 8.0;

// The largest size of a record.
const LARGEST: f64 = 1048576.0;

/// The rectangle of a field within its record.
#[derive(Clone, Copy, Debug, Drop, PartialEq)]
pub struct Cell {
    pub x: f64,
    pub y: f64,
    pub width: f64,
    pub height: f64,
    // How far its own fields have been placed.
    filled: f64,
    // How much more than its least size it has, for each of its own fields.
    spare: f64,
}

fn least_cell(text: Extent) -> Cell {
    let has_text = text.height > 0.0;
    Cell {
        x: 0.0,
        y: 0.0,
        width: if has_text { text.width + SIDES } else { 0.0 },
        height: if has_text { text.height + ENDS } else { 0.0 },
        filled: 0.0,
        spare: 0.0,
    }
}

// Makes a cell large enough for another one in it.
fn grow(holder: &mut Cell, inner: Cell, is_row: bool) {
    if is_row {
        holder.width += inner.width;
        holder.height = holder.height.max(inner.height);
    } else {
        holder.width = holder.width.max(inner.width);
        holder.height += inner.height;
    }
}

// The least sizes of all cells, those of inner ones first.
fn least_cells(alloc: Global, fields: &[Field], texts: &[Extent]) -> Result<Vec<Cell>, AllocError> {
    let mut cells = Vec::new(alloc);
    for text in texts {
        cells.push(least_cell(*text))?;
    }
    for (at, field) in fields.iter().enumerate().rev() {
        let (Some(parent), Some(inner)) = (field.parent, cells.get(at).copied()) else {
            continue;
        };
        let is_row = is_row(fields, parent);
        if let Some(holder) = cells.get_mut(parent) {
            grow(holder, inner, is_row);
        }
    }
    Ok(cells)
}

fn is_row(fields: &[Field], at: usize) -> bool {
    match fields.get(at) {
        Some(field) => field.is_row,
        None => false,
    }
}

// Gives a cell a size of its own, which is shared among its fields.
fn resize(cell: &mut Cell, width: f64, height: f64, field: &Field) {
    let more = if field.is_row {
        width - cell.width
    } else {
        height - cell.height
    };
    cell.spare = if field.count > 0 {
        more / nearest_usize_to_f64(field.count)
    } else {
        0.0
    };
    cell.width = width;
    cell.height = height;
}

// Puts a cell into the one that holds it, behind those that stand there already.
fn placed(holder: &mut Cell, mut cell: Cell, is_row: bool, field: &Field) -> Cell {
    cell.x = holder.x;
    cell.y = holder.y;
    if is_row {
        cell.x += holder.filled;
        let width = cell.width + holder.spare;
        resize(&mut cell, width, holder.height, field);
        holder.filled += width;
    } else {
        cell.y += holder.filled;
        let height = cell.height + holder.spare;
        resize(&mut cell, holder.width, height, field);
        holder.filled += height;
    }
    cell
}

/// The cells of a record's fields, whose texts have the sizes of `texts`. The record is as large as its texts need, and at least as large
/// as `least`. If `is_fixed`, it has just that size.
pub fn cells_of(
    alloc: Global,
    fields: &[Field],
    texts: &[Extent],
    least: Extent,
    is_fixed: bool,
) -> Result<Vec<Cell>, AllocError> {
    let mut cells = least_cells(alloc, fields, texts)?;
    if let (Some(field), Some(whole)) = (fields.first(), cells.first_mut()) {
        let (width, height) = if is_fixed {
            (least.width, least.height)
        } else {
            (
                whole.width.max(least.width).min(LARGEST).ceil(),
                whole.height.max(least.height).min(LARGEST).ceil(),
            )
        };
        resize(whole, width, height, field);
    }
    for (at, field) in fields.iter().enumerate() {
        let (Some(parent), Some(cell)) = (field.parent, cells.get(at).copied()) else {
            continue;
        };
        let is_row = is_row(fields, parent);
        let cell = match cells.get_mut(parent) {
            Some(holder) => placed(holder, cell, is_row, field),
            None => cell,
        };
        if let Some(kept) = cells.get_mut(at) {
            *kept = cell;
        }
    }
    Ok(cells)
}
