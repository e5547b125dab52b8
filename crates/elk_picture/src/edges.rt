//! Edges, without their texts.

use crate::arrows::{Arrows, arrows_of};
use crate::element::{has_items, id_of};
use crate::geometry::Point;
use crate::heads::Stroke;
use crate::ids::{End, end_ids};
use crate::ink::ink_on;
use crate::levels::{Edge, Levels};
use crate::lines::write_line;
use crate::links::{close_link, link_of, open_link, title_of};
use crate::look::{LINE, Paints};
use crate::path::{PointKey, is_curve, write_curve, write_dot, write_route};
use crate::routes::Section;
use crate::shapes::outline_point;
use crate::style::Shape;
use crate::words::{Escaped, words_of};
use serde_json::Value;
use std::alloc::{AllocError, Global};
use std::collections::BTreeSet;

// How edges are drawn: with heads or without, and with sharp bends where they part.
#[derive(Clone, Copy, Drop)]
pub(crate) struct Pen<'a> {
    pub(crate) paints: &'a Paints,
    pub(crate) arrows: bool,
    pub(crate) sharp: &'a BTreeSet<PointKey>,
}

fn met(point: Point, from: Point, node: Option<usize>, levels: &Levels<'_>) -> Point {
    match node.and_then(|node| levels.nodes.get(node)) {
        Some(node) if !node.compound && node.style.shape != Shape::Box => {
            outline_point(point, from, node.style.shape, node.at)
        }
        _ => point,
    }
}

// The points of a section in the whole drawing. Its ends are moved on to the outlines of the nodes there.
fn route_of<'a>(
    alloc: Global,
    section: &Section<'a>,
    edge: &Edge<'a>,
    levels: &Levels<'a>,
    is_only: bool,
) -> Result<Vec<Point>, AllocError> {
    let origin = levels.origin_of(edge.home);
    let mut points = Vec::new(alloc);
    for point in section.points.iter() {
        points.push(point.moved(origin))?;
    }
    // If there are several sections, each one names its own ends.
    let (source, target) = if is_only {
        (edge.source, edge.target)
    } else {
        (
            levels.ids.node_of(section.value.get("incomingShape")),
            levels.ids.node_of(section.value.get("outgoingShape")),
        )
    };
    let last = points.len().saturating_sub(1);
    if last > 0 {
        let (start, second, before_last, end) = (
            points[0],
            points[1],
            points[last - 1],
            points[last],
        );
        points[0] = met(start, second, source, levels);
        points[last] = met(end, before_last, target, levels);
    }
    Ok(points)
}

fn is_curved(edge: &Value) -> bool {
    match edge.get("routing").and_then(Value::as_str) {
        Some(routing) => routing == "SPLINES",
        None => false,
    }
}

// How a section is drawn. It has no head where another section goes on.
fn stroke_of<'a>(section: &Value, arrows: Arrows, width: f64, ink: &'a str) -> Stroke<'a> {
    Stroke {
        ink,
        width,
        at_start: arrows.at_tail() && !has_items(section, "incomingSections"),
        at_end: arrows.at_head() && !has_items(section, "outgoingSections"),
    }
}

// The lines of an edge's sections.
fn write_lines<'a>(
    alloc: Global,
    out: &mut String,
    edge: &Edge<'a>,
    levels: &Levels<'a>,
    pen: Pen<'_>,
    ink: &str,
) -> Result<(), AllocError> {
    let arrows = if pen.arrows {
        arrows_of(edge.value)
    } else {
        Arrows::Neither
    };
    let width = edge.style.line.width_or(LINE);
    let sections = edge.sections.as_slice();
    for section in sections {
        let points = route_of(alloc, section, edge, levels, sections.len() == 1)?;
        let stroke = stroke_of(section.value, arrows, width, ink);
        if is_curved(edge.value) && is_curve(points.as_slice()) {
            write_curve(out, points.as_slice(), stroke)?;
        } else {
            write_route(out, points.as_slice(), pen.sharp, stroke)?;
        }
    }
    Ok(())
}

fn write_ids(alloc: Global, out: &mut String, edge: &Value, end: End) -> Result<(), AllocError> {
    let mut is_first = true;
    for id in end_ids(alloc, edge, end)? {
        let words = words_of(alloc, id)?;
        let words = Escaped(words.as_str());
        if !is_first {
            out.push_str(", ")?;
        }
        is_first = false;
        write!(out, "{words}")?;
    }
    Ok(())
}

fn write_title(
    alloc: Global,
    out: &mut String,
    edge: &Value,
    id: Escaped<'_>,
) -> Result<(), AllocError> {
    if let Some(title) = title_of(edge) {
        let title = Escaped(title);
        return write!(out, "<title>{title}</title>");
    }
    write!(out, "<title>{id}: ")?;
    write_ids(alloc, out, edge, End::Source)?;
    out.push_str(arrows_of(edge).sign())?;
    write_ids(alloc, out, edge, End::Target)?;
    out.push_str("</title>")
}

fn ink_of<'a>(edge: &'a Edge<'_>, background: Option<&'a str>, paints: &Paints) -> &'a str {
    match edge.style.stroke() {
        Some(stroke) => stroke,
        None => ink_on(background).unwrap_or(paints.ink),
    }
}

// Writes an edge on a line of its own. An edge without a route is left out.
pub(crate) fn write_edge<'a>(
    alloc: Global,
    out: &mut String,
    edge: &Edge<'a>,
    junctions: &[Point],
    levels: &Levels<'a>,
    pen: Pen<'_>,
) -> Result<(), AllocError> {
    let ink = ink_of(edge, levels.background_of(edge.home), pen.paints);
    // Most edges have no more text than that.
    let mut lines = String::with_capacity(alloc, 256)?;
    write_lines(alloc, &mut lines, edge, levels, pen, ink)?;
    if lines.is_empty() {
        return Ok(());
    }
    let id = id_of(alloc, edge.value)?;
    let id = Escaped(id.as_str());
    let classes = edge.style.classes.as_str();
    let link = link_of(edge.value);
    open_link(out, link)?;
    write!(out, "<g class=\"edge{classes}\" data-id=\"{id}\"")?;
    if ink != pen.paints.ink {
        write!(out, " stroke=\"{ink}\"")?;
    }
    write_line(out, edge.style.line, LINE)?;
    out.push('>')?;
    write_title(alloc, out, edge.value, id)?;
    out.push_str(lines.as_str())?;
    for junction in junctions {
        write_dot(out, *junction, edge.style.line.width_or(LINE), ink)?;
    }
    out.push_str("</g>")?;
    close_link(out, link)?;
    out.push('\n')
}
