//! Nodes, without their texts.

use crate::element::id_of;
use crate::fields::write_fields;
use crate::levels::Node;
use crate::lines::write_line;
use crate::links::{close_link, link_of, open_link, title_of};
use crate::look::{CORNER, Paints, ROUND, TINTS};
use crate::shapes::write_shape;
use crate::style::Shape;
use crate::words::Escaped;
use std::alloc::{AllocError, Global};

// The width of outlines, as SVG has it.
const OUTLINE: f64 = 1.0;

// The distance of an outline from the next one within.
const OUTLINE_GAP: f64 = 4.0;

pub(crate) fn is_root(node: &Node<'_>) -> bool {
    node.parent.is_none()
}

fn is_level(node: &Node<'_>) -> bool {
    is_root(node) || node.compound
}

// Writes the fill of a node. `is_filled` says whether the document asks for a fill around it.
fn write_fill(
    out: &mut String,
    node: &Node<'_>,
    is_filled: bool,
    paints: &Paints,
) -> Result<(), AllocError> {
    let (tint, opacity) = (paints.tint, paints.tint_opacity);
    match node.style.fill() {
        Some(fill) => write!(out, " fill=\"{fill}\""),
        // Each level is a shade darker than the one around it, since its tint lies above those of all levels around. The innermost
        // levels have no tint of their own, so that texts on them can be read. Nor have levels on a fill of the document, for which
        // the ink of the texts is chosen.
        None if is_level(node) && node.depth < TINTS && !is_filled => {
            write!(out, " fill=\"{tint}\" fill-opacity=\"{opacity}\"")
        }
        None if is_level(node) => out.push_str(" fill=\"none\" pointer-events=\"all\""),
        None => {
            let paper = paints.paper;
            write!(out, " fill=\"{paper}\"")
        }
    }
}

fn stroke_of<'a>(node: &'a Node<'_>, paints: &Paints) -> &'a str {
    match node.style.stroke() {
        Some(stroke) => stroke,
        None if is_root(node) => "none",
        None if is_level(node) => paints.pale_ink,
        None => paints.ink,
    }
}

fn shape_of(node: &Node<'_>) -> Shape {
    if is_level(node) {
        Shape::Box
    } else {
        node.style.shape
    }
}

fn corner_of(node: &Node<'_>) -> f64 {
    if is_level(node) && node.style.shape == Shape::Round {
        ROUND
    } else {
        CORNER
    }
}

// Writes the outlines within the outermost one.
fn write_outlines(
    out: &mut String,
    node: &Node<'_>,
    shape: Shape,
    stroke: &str,
) -> Result<(), AllocError> {
    let mut at = node.at;
    let mut radius = corner_of(node);
    for _ in 0..node.style.inner_outlines {
        let Some(inner) = at.shrunk(OUTLINE_GAP) else {
            return Ok(());
        };
        at = inner;
        radius = (radius - OUTLINE_GAP).max(0.0);
        write_shape(out, shape, at, radius)?;
        write!(out, " fill=\"none\" stroke=\"{stroke}\"")?;
        write_line(out, node.style.line, OUTLINE)?;
        out.push_str(" pointer-events=\"none\"/>")?;
    }
    Ok(())
}

// Writes a node. `is_filled` says whether the document asks for a fill around it.
pub(crate) fn write_node(
    alloc: Global,
    out: &mut String,
    node: &Node<'_>,
    is_filled: bool,
    paints: &Paints,
) -> Result<(), AllocError> {
    let id = id_of(alloc, node.value)?;
    let title = Escaped(title_of(node.value).unwrap_or(id.as_str()));
    let id = Escaped(id.as_str());
    let classes = node.style.classes.as_str();
    let stroke = stroke_of(node, paints);
    let shape = shape_of(node);
    let link = link_of(node.value);
    open_link(out, link)?;
    let name = write_shape(out, shape, node.at, corner_of(node))?;
    write!(out, " class=\"node{classes}\" data-id=\"{id}\"")?;
    write_fill(out, node, is_filled, paints)?;
    write!(out, " stroke=\"{stroke}\"")?;
    write_line(out, node.style.line, OUTLINE)?;
    write!(out, "><title>{title}</title></{name}>")?;
    if !is_level(node) {
        write_outlines(out, node, shape, stroke)?;
    }
    if shape == Shape::Box && !is_level(node) {
        write_fields(alloc, out, node, stroke, OUTLINE)?;
    }
    close_link(out, link)
}
