//! Requests.

use crate::settings::Settings;
use crate::words::Look;
use elk_picture::Theme;
use serde_json::Value;
use serde_json::value::Map;
use std::alloc::{AllocError, Global};
use thiserror::Error;

/// What a request wants of its graph.
#[derive(Clone, Copy, Drop)]
pub(crate) struct Wanted {
    /// The graph with its places.
    pub(crate) placed: bool,
    /// The picture.
    pub(crate) svg: bool,
    /// The document that the engine was sent last.
    pub(crate) document: bool,
    /// What has no effect in the graph.
    pub(crate) warnings: bool,
    /// The graph itself, as JSON.
    pub(crate) graph: bool,
    /// All that can be said of the graph without a layout.
    pub(crate) lint: bool,
    /// Whether numbers are made whole.
    pub(crate) whole: bool,
    pub(crate) look: Look,
}

impl Wanted {
    /// Whether the graph has to be laid out. The warnings of a graph that is refused are not told, unless it is given or judged.
    pub(crate) fn needs_layout(self) -> bool {
        self.is_drawn() || (self.warnings && !self.graph && !self.lint)
    }

    /// Whether the faults and the warnings alone are wanted, so that a text may be no graph.
    pub(crate) fn is_lint_alone(self) -> bool {
        self.lint && !self.is_drawn() && !self.warnings && !self.graph
    }

    /// Whether the picture alone is wanted, for which a graph that has places needs no layout.
    pub(crate) fn is_svg_alone(self) -> bool {
        self.svg && !self.placed && !self.document && !self.warnings && !self.graph && !self.lint
    }

    fn is_drawn(self) -> bool {
        self.placed || self.svg || self.document
    }
}

/// Why a line is no request.
#[derive(Clone, Copy, Debug, Drop, PartialEq, Eq, Error)]
pub(crate) enum Misfit {
    #[error("the line is not valid JSON, or is nested more than 127 deep")]
    NotJson,
    #[error("a request is an object")]
    NotObject,
    #[error("a request has a member \"graph\" or \"placed\", which is an object, or \"text\" or \"dot\", which is a text")]
    NoGraph,
    #[error("a request has one of \"graph\", \"text\", \"dot\" and \"placed\", and not several")]
    TwoGraphs,
    #[error("a graph in \"placed\" is drawn as it is, so \"give\" has \"svg\" alone")]
    Placed,
    #[error("\"give\" is an array of \"placed\", \"svg\", \"document\", \"graph\", \"warnings\" and \"lint\", and has at least one of them")]
    Give,
    #[error("\"options\" is an object of options")]
    Options,
    #[error("\"numbers\" is \"ceil\" or \"exact\"")]
    Numbers,
    #[error("\"theme\" is \"light\", \"dark\" or \"auto\"")]
    Theme,
    #[error("\"arrows\" is true or false")]
    Arrows,
    #[error("a request has no other members than \"graph\", \"text\", \"dot\", \"placed\", \"options\", \"numbers\", \"give\", \"theme\" and \"arrows\"")]
    Member,
}

// Adds what one item of `give` names.
fn with_item(wanted: Wanted, item: &Value) -> Result<Wanted, Misfit> {
    match item.as_str() {
        Some("placed") => Ok(Wanted {
            placed: true,
            ..wanted
        }),
        Some("svg") => Ok(Wanted {
            svg: true,
            ..wanted
        }),
        Some("document") => Ok(Wanted {
            document: true,
            ..wanted
        }),
        Some("graph") => Ok(Wanted {
            graph: true,
            ..wanted
        }),
        Some("warnings") => Ok(Wanted {
            warnings: true,
            ..wanted
        }),
        Some("lint") => Ok(Wanted {
            lint: true,
            ..wanted
        }),
        _ => Err(Misfit::Give),
    }
}

fn with_given(wanted: Wanted, items: &[Value]) -> Result<Wanted, Misfit> {
    if items.is_empty() {
        return Err(Misfit::Give);
    }
    let mut all = wanted;
    for item in items {
        all = with_item(all, item)?;
    }
    Ok(all)
}

// The picture alone, where the request doesn't say what it wants.
fn given(nothing: Wanted, give: Option<&Value>) -> Result<Wanted, Misfit> {
    match give {
        None => Ok(Wanted {
            svg: true,
            ..nothing
        }),
        Some(Value::Array(items)) => with_given(nothing, items.as_slice()),
        Some(_) => Err(Misfit::Give),
    }
}

fn theme_named(theme: Option<&Value>) -> Result<Theme, Misfit> {
    match theme {
        None => Ok(Theme::Auto),
        Some(value) => match value.as_str() {
            Some("auto") => Ok(Theme::Auto),
            Some("light") => Ok(Theme::Light),
            Some("dark") => Ok(Theme::Dark),
            _ => Err(Misfit::Theme),
        },
    }
}

fn arrows_asked(arrows: Option<&Value>) -> Result<bool, Misfit> {
    match arrows {
        None => Ok(true),
        Some(Value::Bool(yes)) => Ok(*yes),
        Some(_) => Err(Misfit::Arrows),
    }
}

// Whether numbers are made whole.
fn whole_asked(numbers: Option<&Value>) -> Result<bool, Misfit> {
    match numbers {
        None => Ok(true),
        Some(value) => match value.as_str() {
            Some("ceil") => Ok(true),
            Some("exact") => Ok(false),
            _ => Err(Misfit::Numbers),
        },
    }
}

fn refuse_options(options: Option<&Value>) -> Result<(), Misfit> {
    match options {
        None | Some(Value::Object(_)) => Ok(()),
        Some(_) => Err(Misfit::Options),
    }
}

fn is_known(key: &str) -> bool {
    matches!(
        key,
        "graph" | "text" | "dot" | "placed" | "options" | "numbers" | "give" | "theme" | "arrows"
    )
}

// A member that this program doesn't know may ask for what it doesn't do.
fn refuse_unknown(members: &Map<String, Value>) -> Result<(), Misfit> {
    for (key, _) in members.iter() {
        if !is_known(key.as_str()) {
            return Err(Misfit::Member);
        }
    }
    Ok(())
}

/// What a request wants. Its options are the member `options`.
pub(crate) fn wanted_by(request: &Value) -> Result<Wanted, Misfit> {
    match request {
        Value::Object(members) => {
            refuse_unknown(members)?;
            refuse_options(request.get("options"))?;
            let nothing = Wanted {
                placed: false,
                svg: false,
                document: false,
                warnings: false,
                graph: false,
                lint: false,
                whole: whole_asked(request.get("numbers"))?,
                look: Look {
                    theme: theme_named(request.get("theme"))?,
                    arrows: arrows_asked(request.get("arrows"))?,
                },
            };
            given(nothing, request.get("give"))
        }
        _ => Err(Misfit::NotObject),
    }
}

/// How the graph of a request is read.
pub(crate) fn settings_of(
    alloc: Global,
    request: &Value,
    wanted: Wanted,
) -> Result<Settings, AllocError> {
    let general = match request.get("options") {
        Some(options) => Some(options.clone()?),
        None => None,
    };
    Settings::of(alloc, general, wanted.whole)
}
