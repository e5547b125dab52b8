//! The ends at which edges have heads.

use serde_json::Value;

#[derive(Clone, Copy, Drop)]
pub(crate) enum Arrows {
    Neither,
    Tail,
    Head,
    Both,
}

fn is_directed(edge: &Value) -> bool {
    !matches!(edge.get("directed"), Some(Value::Bool(false)))
}

fn asked(edge: &Value) -> Option<&str> {
    let style = edge.get("style")?;
    style.get("arrows").and_then(Value::as_str)
}

// Where an edge has heads: where the document asks for them, or else at its target, unless it has no direction.
pub(crate) fn arrows_of(edge: &Value) -> Arrows {
    match asked(edge) {
        Some("none") => Arrows::Neither,
        Some("tail") => Arrows::Tail,
        Some("head") => Arrows::Head,
        Some("both") => Arrows::Both,
        _ if is_directed(edge) => Arrows::Head,
        _ => Arrows::Neither,
    }
}

impl Arrows {
    pub(crate) fn at_tail(self) -> bool {
        matches!(self, Arrows::Tail | Arrows::Both)
    }

    pub(crate) fn at_head(self) -> bool {
        matches!(self, Arrows::Head | Arrows::Both)
    }

    // What stands between the ends in words.
    pub(crate) fn sign(self) -> &'static str {
        match self {
            Arrows::Neither => " — ",
            Arrows::Tail => " ← ",
            Arrows::Head => " → ",
            Arrows::Both => " ↔ ",
        }
    }
}
