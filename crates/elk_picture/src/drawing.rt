//! The whole picture.

use crate::decimal::Decimal;
use crate::edge_texts::write_edge_texts;
use crate::edges::{Pen, write_edge};
use crate::frame::page_of;
use crate::geometry::{Point, Rect, write_rectangle};
use crate::headroom::headrooms;
use crate::junctions::junctions_of;
use crate::levels::{Levels, levels_of};
use crate::look::{FONT, LINE, Paints};
use crate::node_texts::write_node_texts;
use crate::nodes::write_node;
use crate::path::{PointKey, point_key};
use crate::ports::{write_ports, write_texts_of_ports};
use crate::theme::{Theme, paints_of, write_style};
use serde_json::Value;
use std::alloc::{AllocError, Global};
use std::collections::BTreeSet;

fn write_head(out: &mut String, page: Rect) -> Result<(), AllocError> {
    let (left, top) = (Decimal(page.left), Decimal(page.top));
    let (width, height) = (Decimal(page.width), Decimal(page.height));
    out.push_str("<svg xmlns=\"http://www.w3.org/2000/svg\" class=\"elk-picture\"")?;
    write!(out, " width=\"{width}\" height=\"{height}\"")?;
    write!(
        out,
        " viewBox=\"{left} {top} {width} {height}\" font-family=\"{FONT}\">\n"
    )
}

fn write_paper(out: &mut String, page: Rect, paints: &Paints) -> Result<(), AllocError> {
    let paper = paints.paper;
    write_rectangle(out, page)?;
    write!(out, " fill=\"{paper}\"/>\n")
}

fn write_nodes(
    alloc: Global,
    out: &mut String,
    levels: &Levels<'_>,
    paints: &Paints,
) -> Result<(), AllocError> {
    out.push_str("<g class=\"nodes\">\n")?;
    for node in levels.nodes.iter() {
        write_node(alloc, out, node, levels.is_on_fill(node), paints)?;
        out.push('\n')?;
    }
    out.push_str("</g>\n")
}

fn write_edges(
    alloc: Global,
    out: &mut String,
    levels: &Levels<'_>,
    junctions: &[Vec<Point>],
    pen: Pen<'_>,
) -> Result<(), AllocError> {
    let (ink, width) = (pen.paints.ink, Decimal(LINE));
    write!(
        out,
        "<g class=\"edges\" fill=\"none\" stroke=\"{ink}\" stroke-width=\"{width}\" stroke-linejoin=\"round\">\n"
    )?;
    for (edge, points) in levels.edges.iter().zip(junctions) {
        write_edge(alloc, out, edge, points.as_slice(), levels, pen)?;
    }
    out.push_str("</g>\n")
}

fn write_all_ports(
    alloc: Global,
    out: &mut String,
    levels: &Levels<'_>,
    paints: &Paints,
) -> Result<(), AllocError> {
    out.push_str("<g class=\"ports\">\n")?;
    for node in levels.nodes.iter() {
        write_ports(alloc, out, node, paints)?;
    }
    out.push_str("</g>\n")
}

// The texts. The pointer passes through them to what they name.
fn write_texts(
    alloc: Global,
    out: &mut String,
    levels: &Levels<'_>,
    paints: &Paints,
) -> Result<(), AllocError> {
    let ink = paints.ink;
    let rooms = headrooms(alloc, levels)?;
    write!(
        out,
        "<g class=\"labels\" fill=\"{ink}\" text-anchor=\"middle\" pointer-events=\"none\">\n"
    )?;
    for (at, node) in levels.nodes.iter().enumerate() {
        let before = out.len();
        let room = rooms.get(at).copied().unwrap_or(f64::INFINITY);
        write_node_texts(alloc, out, node, levels.fill_within(at), paints, room)?;
        if out.len() > before {
            out.push('\n')?;
        }
    }
    for (at, node) in levels.nodes.iter().enumerate() {
        write_texts_of_ports(alloc, out, node, levels.fill_within(at), paints)?;
    }
    for edge in levels.edges.iter() {
        write_edge_texts(alloc, out, edge, levels, paints)?;
    }
    out.push_str("</g>\n")
}

fn sharp_of(alloc: Global, junctions: &[Vec<Point>]) -> Result<BTreeSet<PointKey>, AllocError> {
    let mut sharp = BTreeSet::new(alloc);
    for points in junctions {
        for point in points.iter() {
            sharp.insert(point_key(*point))?;
        }
    }
    Ok(sharp)
}

/// Draws a graph that has places. What the graph lacks is left out, so the picture of a value that is no graph is empty. The
/// only error is out of memory.
pub fn picture(
    alloc: Global,
    placed: &Value,
    theme: Theme,
    arrows: bool,
) -> Result<String, AllocError> {
    let paints = paints_of(theme);
    let levels = levels_of(alloc, placed)?;
    let junctions = junctions_of(alloc, &levels)?;
    let sharp = sharp_of(alloc, junctions.as_slice())?;
    let page = page_of(alloc, &levels)?;
    let mut out = String::new(alloc);
    write_head(&mut out, page)?;
    if theme == Theme::Auto {
        write_style(&mut out)?;
    }
    write_paper(&mut out, page, &paints)?;
    write_nodes(alloc, &mut out, &levels, &paints)?;
    let pen = Pen {
        paints: &paints,
        arrows,
        sharp: &sharp,
    };
    write_edges(alloc, &mut out, &levels, junctions.as_slice(), pen)?;
    write_all_ports(alloc, &mut out, &levels, &paints)?;
    write_texts(alloc, &mut out, &levels, &paints)?;
    out.push_str("</svg>\n")?;
    Ok(out)
}
