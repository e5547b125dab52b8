//! Attributes that mean something, and what is told of all others.

use dot_looks::{Form, Given, Notes, Shape, asked_font_size};
use dot_syntax::{Attributes, Graph, Written};
use std::alloc::{AllocError, Global};
use std::collections::BTreeSet;

/// What is told of a label in HTML.
pub(crate) const HTML_IS_PLAIN: &str = "a label in HTML is drawn as a plain text";

/// What has attributes.
#[derive(Clone, Copy, Debug, Drop, PartialEq, Eq)]
pub(crate) enum Owner {
    /// The graph or a subgraph.
    Graph,
    Node,
    Edge,
}

// What all elements have.
const SHARED: [&str; 12] = [
    "URL",
    "class",
    "color",
    "colorscheme",
    "comment",
    "fontcolor",
    "fontsize",
    "href",
    "label",
    "penwidth",
    "style",
    "tooltip",
];

// What a subgraph has.
const OF_SUBGRAPHS: [&str; 9] = [
    "bgcolor",
    "cluster",
    "fillcolor",
    "labeljust",
    "labelloc",
    "margin",
    "pencolor",
    "peripheries",
    "rank",
];

// What the whole graph alone has.
const OF_GRAPHS: [&str; 7] = [
    "charset",
    "clusterrank",
    "compound",
    "nodesep",
    "rankdir",
    "ranksep",
    "splines",
];

const OF_NODES: [&str; 9] = [
    "fillcolor",
    "fixedsize",
    "height",
    "margin",
    "peripheries",
    "regular",
    "shape",
    "width",
    "xlabel",
];

const OF_EDGES: [&str; 13] = [
    "arrowhead",
    "arrowtail",
    "constraint",
    "dir",
    "headlabel",
    "headport",
    "key",
    "lhead",
    "ltail",
    "taillabel",
    "tailport",
    "weight",
    "xlabel",
];

// The attributes whose values are numbers.
const NUMBERS: [&str; 8] = [
    "fontsize",
    "height",
    "nodesep",
    "penwidth",
    "peripheries",
    "ranksep",
    "weight",
    "width",
];

const STYLES: [&str; 11] = [
    "bold",
    "dashed",
    "dotted",
    "filled",
    "invis",
    "invisible",
    "radial",
    "rounded",
    "solid",
    "striped",
    "wedged",
];

fn is_in(list: &[&str], name: &str) -> bool {
    list.iter().any(|it| *it == name)
}

fn is_known(owner: Owner, name: &str) -> bool {
    if is_in(SHARED.as_slice(), name) {
        return true;
    }
    match owner {
        Owner::Graph => is_in(OF_SUBGRAPHS.as_slice(), name) || is_in(OF_GRAPHS.as_slice(), name),
        Owner::Node => is_in(OF_NODES.as_slice(), name),
        Owner::Edge => is_in(OF_EDGES.as_slice(), name),
    }
}

fn is_known_style(item: &str) -> bool {
    item.is_empty() || is_in(STYLES.as_slice(), item) || item.starts_with("setlinewidth")
}

fn tell_styles(alloc: Global, written: &Written, notes: &mut Notes) -> Result<(), AllocError> {
    for item in written.text.as_str().split(",") {
        let item = item.trim();
        if !is_known_style(item) {
            let message = format!(in alloc; "the style \"{item}\" has no effect")?;
            notes.add(written.place, message.as_str())?;
        }
    }
    Ok(())
}

fn tell_attribute(
    alloc: Global,
    owner: Owner,
    given: Given<'_>,
    name: &str,
    written: &Written,
    notes: &mut Notes,
) -> Result<(), AllocError> {
    if !is_known(owner, name) {
        let message = format!(in alloc; "the attribute {name} has no effect")?;
        return notes.add(written.place, message.as_str());
    }
    if name == "style" {
        return tell_styles(alloc, written, notes);
    }
    let is_number = is_in(NUMBERS.as_slice(), name);
    if is_number && given.text(name).is_some() && given.number(name).is_none() {
        let message = format!(in alloc; "the value of {name} is no number, and has no effect")?;
        return notes.add(written.place, message.as_str());
    }
    if name == "fontsize" && given.number(name).is_some() && asked_font_size(given).is_none() {
        return tell_value(alloc, written, name, "from 1 to 1000", notes);
    }
    Ok(())
}

/// The sets of attributes that have been looked through.
#[derive(Drop)]
pub(crate) struct Seen {
    sets: BTreeSet<usize>,
}

impl Seen {
    /// None.
    pub(crate) fn new(alloc: Global) -> Seen {
        Seen {
            sets: BTreeSet::new(alloc),
        }
    }

    /// Tells which attributes of a set have no effect at elements of a kind, unless the set has been looked through.
    pub(crate) fn tell(
        &mut self,
        alloc: Global,
        owner: Owner,
        attributes: &Attributes,
        set: usize,
        notes: &mut Notes,
    ) -> Result<(), AllocError> {
        if self.sets.contains(&set) {
            return Ok(());
        }
        self.sets.insert(set)?;
        let given = Given { attributes, set };
        for (name, written) in attributes.all(alloc, set)? {
            tell_attribute(alloc, owner, given, name, written, notes)?;
        }
        Ok(())
    }
}

/// The value that a subgraph gives an attribute itself, and doesn't have from what holds it.
pub(crate) fn own_value<'a>(graph: &'a Graph, number: usize, name: &str) -> Option<&'a Written> {
    let subgraph = graph.subgraphs.get(number)?;
    let written = graph.attributes.value(subgraph.set, name)?;
    let around = match subgraph.parent {
        Some(parent) => match graph.subgraphs.get(parent) {
            Some(parent) => graph.attributes.value(parent.set, name),
            None => None,
        },
        None => None,
    };
    match around {
        Some(outer) if outer.place == written.place => None,
        _ => Some(written),
    }
}

/// Tells of attributes of the whole graph that a subgraph has.
pub(crate) fn tell_misplaced(
    alloc: Global,
    graph: &Graph,
    number: usize,
    notes: &mut Notes,
) -> Result<(), AllocError> {
    for name in OF_GRAPHS {
        if let Some(written) = own_value(graph, number, name) {
            let message = format!(in alloc;
                "the attribute {name} has an effect at the whole graph only"
            )?;
            notes.add(written.place, message.as_str())?;
        }
    }
    Ok(())
}

fn drawn_as(form: Form) -> &'static str {
    match form {
        Form::Ellipse => "an ellipse",
        Form::Diamond => "a diamond",
        Form::Plain => "a text without an outline",
        Form::Box | Form::Point | Form::Record => "a box",
    }
}

/// Tells of a shape that pictures don't have.
pub(crate) fn tell_shape(
    alloc: Global,
    given: Given<'_>,
    shape: Shape,
    notes: &mut Notes,
) -> Result<(), AllocError> {
    if shape.is_exact {
        return Ok(());
    }
    let (Some(written), Some(name)) = (given.written("shape"), given.text("shape")) else {
        return Ok(());
    };
    let other = drawn_as(shape.form);
    let message = format!(in alloc; "the shape \"{name}\" is drawn as {other}")?;
    notes.add(written.place, message.as_str())
}

/// Tells of a value that an attribute doesn't take.
pub(crate) fn tell_value(
    alloc: Global,
    written: &Written,
    name: &str,
    values: &str,
    notes: &mut Notes,
) -> Result<(), AllocError> {
    let message = format!(in alloc; "{name} may be {values}; another value has no effect")?;
    notes.add(written.place, message.as_str())
}
