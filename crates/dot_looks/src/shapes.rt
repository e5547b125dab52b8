//! The shapes of nodes.

use crate::given::Given;
use crate::lines::Line;

/// The forms in which nodes are drawn.
#[derive(Clone, Copy, Debug, Drop, PartialEq, Eq)]
pub enum Form {
    Box,
    Ellipse,
    Diamond,
    /// A dot without a text.
    Point,
    /// A text without an outline.
    Plain,
    /// Fields in a box.
    Record,
}

/// The shape of a node.
#[derive(Clone, Copy, Debug, Drop, PartialEq, Eq)]
pub struct Shape {
    pub form: Form,
    /// Whether it is as wide as it is high.
    pub is_regular: bool,
    /// Whether it is drawn as the text asks.
    pub is_exact: bool,
}

fn shape_with(form: Form, is_regular: bool, is_exact: bool) -> Shape {
    Shape {
        form,
        is_regular,
        is_exact,
    }
}

fn named(name: &str) -> Shape {
    match name {
        "box" | "rect" | "rectangle" => shape_with(Form::Box, false, true),
        "square" => shape_with(Form::Box, true, true),
        "ellipse" | "oval" => shape_with(Form::Ellipse, false, true),
        "circle" => shape_with(Form::Ellipse, true, true),
        "egg" => shape_with(Form::Ellipse, false, false),
        "doublecircle" => shape_with(Form::Ellipse, true, true),
        "Mcircle" => shape_with(Form::Ellipse, true, false),
        "diamond" => shape_with(Form::Diamond, false, true),
        "Mdiamond" => shape_with(Form::Diamond, false, false),
        "point" => shape_with(Form::Point, true, true),
        "plaintext" | "none" | "plain" => shape_with(Form::Plain, false, true),
        "underline" => shape_with(Form::Plain, false, false),
        "record" | "Mrecord" => shape_with(Form::Record, false, true),
        "Msquare" => shape_with(Form::Box, true, false),
        _ => shape_with(Form::Box, false, false),
    }
}

/// The shape of a node. Those that pictures don't have are boxes.
pub fn shape_of(given: Given<'_>) -> Shape {
    let mut shape = match given.text("shape") {
        Some(name) => named(name),
        None => named("ellipse"),
    };
    if given.is_true("regular") {
        shape.is_regular = true;
    }
    shape
}

// More outlines are as many as these.
const MOST_OUTLINES: f64 = 4.0;

/// How many outlines a node has, one within the other.
pub(crate) fn outlines_of(given: Given<'_>) -> f64 {
    let default = match given.text("shape") {
        Some("doublecircle") => 2.0,
        _ => 1.0,
    };
    let asked = given.number("peripheries").unwrap_or(default);
    asked.max(0.0).min(MOST_OUTLINES).floor()
}

/// The name that a picture has for a form.
pub(crate) fn picture_name(form: Form, line: Line) -> Option<&'static str> {
    match form {
        Form::Ellipse | Form::Point => Some("ellipse"),
        Form::Diamond => Some("diamond"),
        Form::Box if line.is_rounded => Some("round"),
        // Round ends would cut the fields of a record.
        Form::Box | Form::Record | Form::Plain => None,
    }
}
