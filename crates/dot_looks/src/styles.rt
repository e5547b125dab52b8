//! The member `style`, and links and titles.

use crate::given::Given;
use crate::lines::Line;
use crate::members::{Members, put_number, put_text};
use crate::notes::Notes;
use crate::paints::{colour_at, first_colour};
use crate::shapes::{Form, outlines_of, picture_name};
use dot_records::{Names, plain_text};
use serde_json::value::Map;
use std::alloc::{AllocError, Global};

/// What is drawn.
#[derive(Clone, Copy, Debug, Drop, PartialEq, Eq)]
pub enum Kind {
    /// The whole graph.
    Graph,
    /// A cluster.
    Group,
    Node(Form),
    Edge,
}

const NOTHING: &str = "none";

// The fill of elements that are filled and name no colour.
const FILL: &str = "#D3D3D3";

// Points that name no colour can be seen on light and on dark paper.
const POINT_FILL: &str = "#7B8EA3";

fn fill_of(
    alloc: Global,
    kind: Kind,
    given: Given<'_>,
    line: Line,
    notes: &mut Notes,
) -> Result<Option<String>, AllocError> {
    let is_level = matches!(kind, Kind::Graph | Kind::Group);
    if kind == Kind::Edge {
        return Ok(None);
    }
    let (fill, other) = if kind == Kind::Node(Form::Point) {
        (
            first_colour(alloc, given, &["fillcolor", "color"], notes)?,
            POINT_FILL,
        )
    } else if line.is_filled && kind != Kind::Graph {
        (
            first_colour(alloc, given, &["fillcolor", "color", "bgcolor"], notes)?,
            FILL,
        )
    } else if is_level {
        return colour_at(alloc, given, "bgcolor", notes);
    } else if kind == Kind::Node(Form::Plain) {
        (None, NOTHING)
    } else {
        return Ok(None);
    };
    match fill {
        Some(fill) => Ok(Some(fill)),
        None => Ok(Some(String::from_str(alloc, other)?)),
    }
}

fn stroke_of(
    alloc: Global,
    kind: Kind,
    given: Given<'_>,
    notes: &mut Notes,
) -> Result<Option<String>, AllocError> {
    let is_bare = matches!(given.number("peripheries"), Some(number) if number < 1.0);
    match kind {
        Kind::Graph => Ok(None),
        Kind::Node(Form::Plain) => Ok(Some(String::from_str(alloc, NOTHING)?)),
        _ if is_bare && kind != Kind::Edge => Ok(Some(String::from_str(alloc, NOTHING)?)),
        Kind::Group => first_colour(alloc, given, &["pencolor", "color"], notes),
        Kind::Node(_) | Kind::Edge => colour_at(alloc, given, "color", notes),
    }
}

fn put_colour(
    style: &mut Members,
    alloc: Global,
    key: &str,
    colour: Option<String>,
) -> Result<(), AllocError> {
    match colour {
        Some(colour) => put_text(style, alloc, key, colour.as_str()),
        None => Ok(()),
    }
}

fn put_line(style: &mut Members, alloc: Global, line: Line) -> Result<(), AllocError> {
    if let Some(dash) = line.dash {
        put_text(style, alloc, "dash", dash)?;
    }
    if let Some(width) = line.width {
        put_number(style, alloc, "width", width)?;
    }
    Ok(())
}

// What can't be seen has neither fill nor lines nor texts.
fn invisible(alloc: Global, kind: Kind) -> Result<Members, AllocError> {
    let mut style: Members = Map::new(alloc);
    if kind != Kind::Edge {
        put_text(&mut style, alloc, "fill", NOTHING)?;
    }
    put_text(&mut style, alloc, "stroke", NOTHING)?;
    put_text(&mut style, alloc, "color", NOTHING)?;
    Ok(style)
}

/// The member `style` of an element.
pub fn style_of(
    alloc: Global,
    kind: Kind,
    given: Given<'_>,
    line: Line,
    notes: &mut Notes,
) -> Result<Members, AllocError> {
    if line.is_invisible && kind != Kind::Graph {
        return invisible(alloc, kind);
    }
    let mut style: Members = Map::new(alloc);
    let shape = match kind {
        Kind::Node(form) => picture_name(form, line),
        Kind::Group if line.is_rounded => Some("round"),
        _ => None,
    };
    if let Some(shape) = shape {
        put_text(&mut style, alloc, "shape", shape)?;
    }
    let fill = fill_of(alloc, kind, given, line, notes)?;
    put_colour(&mut style, alloc, "fill", fill)?;
    let stroke = stroke_of(alloc, kind, given, notes)?;
    put_colour(&mut style, alloc, "stroke", stroke)?;
    let ink = colour_at(alloc, given, "fontcolor", notes)?;
    put_colour(&mut style, alloc, "color", ink)?;
    if kind != Kind::Graph {
        put_line(&mut style, alloc, line)?;
    }
    if matches!(kind, Kind::Node(Form::Box | Form::Ellipse | Form::Diamond)) {
        let outlines = outlines_of(given);
        if outlines > 1.0 {
            put_number(&mut style, alloc, "outlines", outlines)?;
        }
    }
    if let Some(class) = given.text("class") {
        put_text(&mut style, alloc, "class", class)?;
    }
    Ok(style)
}

/// Puts the members `link` and `title` of an element.
pub fn links_into(
    element: &mut Members,
    alloc: Global,
    given: Given<'_>,
    names: &Names<'_>,
) -> Result<(), AllocError> {
    let link = match given.text("URL") {
        Some(link) => Some(link),
        None => given.text("href"),
    };
    if let Some(link) = link {
        let link = plain_text(alloc, link, names)?;
        put_text(element, alloc, "link", link.as_str())?;
    }
    if let Some(title) = given.text("tooltip") {
        let title = plain_text(alloc, title, names)?;
        put_text(element, alloc, "title", title.as_str())?;
    }
    Ok(())
}
