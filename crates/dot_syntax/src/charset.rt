//! The charset that a graph asks for.

use crate::attributes::Written;
use crate::graph::Graph;

/// The charsets that are told apart.
#[derive(Clone, Copy, Debug, Drop, PartialEq, Eq)]
pub(crate) enum Charset {
    /// UTF-8, or nothing is said.
    Usual,
    Latin1,
    Unknown,
}

// The names that Graphviz takes for Latin-1.
const LATIN_NAMES: [&str; 7] = [
    "latin-1",
    "latin1",
    "l1",
    "iso-8859-1",
    "iso_8859-1",
    "iso8859-1",
    "iso-ir-100",
];

/// What the graph says of its charset.
pub(crate) fn charset_in(graph: &Graph) -> Option<&Written> {
    let root = graph.subgraphs.first()?;
    graph.attributes.value(root.set, "charset")
}

/// The charset of a name.
pub(crate) fn charset_named(name: &str) -> Charset {
    if LATIN_NAMES.iter().any(|it| name.eq_ignore_ascii_case(*it)) {
        Charset::Latin1
    } else if name.is_empty()
        || name.eq_ignore_ascii_case("utf-8")
        || name.eq_ignore_ascii_case("utf8")
    {
        Charset::Usual
    } else {
        Charset::Unknown
    }
}
