//! The lines between the fields of a node.

use crate::decimal::Decimal;
use crate::element::{box_at, elements_of};
use crate::geometry::Rect;
use crate::levels::Node;
use crate::lines::write_line;
use std::alloc::{AllocError, Global};

// The left and the top side of a field, unless they are the node's own.
fn add_sides(steps: &mut String, field: Rect, node: Rect) -> Result<(), AllocError> {
    let (left, top) = (Decimal(field.left), Decimal(field.top));
    if node.left < field.left && field.left < node.right() && field.height > 0.0 {
        let bottom = Decimal(field.bottom());
        write!(steps, "M{left} {top}V{bottom}")?;
    }
    if node.top < field.top && field.top < node.bottom() && field.width > 0.0 {
        let right = Decimal(field.right());
        write!(steps, "M{left} {top}H{right}")?;
    }
    Ok(())
}

fn steps_of(alloc: Global, node: &Node<'_>) -> Result<String, AllocError> {
    let mut steps = String::new(alloc);
    if let Some(style) = node.value.get("style") {
        let at = node.at;
        for field in elements_of(alloc, style, "fields")? {
            add_sides(&mut steps, box_at(field, node.origin).within(at), at)?;
        }
    }
    Ok(steps)
}

// The lines have the looks of the node's outline.
pub(crate) fn write_fields(
    alloc: Global,
    out: &mut String,
    node: &Node<'_>,
    stroke: &str,
    width: f64,
) -> Result<(), AllocError> {
    let steps = steps_of(alloc, node)?;
    if steps.is_empty() {
        return Ok(());
    }
    let steps = steps.as_str();
    write!(
        out,
        "<path class=\"fields\" d=\"{steps}\" fill=\"none\" stroke=\"{stroke}\""
    )?;
    write_line(out, node.style.line, width)?;
    out.push_str(" pointer-events=\"none\"/>")
}
