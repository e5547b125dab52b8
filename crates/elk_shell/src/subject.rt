//! The graph of a request.

use crate::requests::{Misfit, Wanted};
use serde_json::Value;

/// How a request has its graph.
#[derive(Clone, Copy, Debug, Drop, PartialEq, Eq)]
pub(crate) enum Subject {
    /// As a value.
    Graph,
    /// As a text in JSON.
    Text,
    /// As a text in DOT.
    Dot,
    /// As a value that has places.
    Placed,
}

impl Subject {
    const ALL: [Subject; 4] = [Subject::Graph, Subject::Text, Subject::Dot, Subject::Placed];

    /// The member of a request.
    pub(crate) fn name(self) -> &'static str {
        match self {
            Subject::Graph => "graph",
            Subject::Text => "text",
            Subject::Dot => "dot",
            Subject::Placed => "placed",
        }
    }
}

/// How a request has its graph. One that has places is for a picture alone.
pub(crate) fn subject_of(request: &Value, wanted: Wanted) -> Result<Subject, Misfit> {
    let mut subject: Option<Subject> = None;
    for it in Subject::ALL {
        if request.get(it.name()).is_some() {
            if subject.is_some() {
                return Err(Misfit::TwoGraphs);
            }
            subject = Some(it);
        }
    }
    match subject {
        Some(Subject::Placed) if !wanted.is_svg_alone() => Err(Misfit::Placed),
        Some(subject) => Ok(subject),
        None => Err(Misfit::NoGraph),
    }
}
