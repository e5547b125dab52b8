//! Where labels stand along their edges.

use graph_draft::{Draft, Element, Kind};
use label_room::has_name;
use serde_json::Value;
use std::alloc::{AllocError, Global};

/// Where a label stands along its edge.
#[derive(Clone, Copy, Debug, Drop, PartialEq, Eq)]
pub enum Spot {
    Tail,
    Center,
    Head,
}

// The value of an option of a label, or else that of its edge.
pub(crate) fn asked<'a>(
    draft: &'a Draft,
    label: usize,
    edge: usize,
    name: &'static str,
) -> Option<&'a Value> {
    match draft.option(Element::Label(label), name) {
        None | Some(Value::Null) => draft.option(Element::Edge(edge), name),
        asked => asked,
    }
}

/// Where a label of an edge stands along it.
pub fn spot_of(draft: &Draft, label: usize, edge: usize) -> Spot {
    let asked = asked(draft, label, edge, "edgeLabels.placement");
    if has_name(asked, "HEAD") {
        Spot::Head
    } else if has_name(asked, "TAIL") {
        Spot::Tail
    } else {
        Spot::Center
    }
}

// The labels of an edge that stand at a spot.
pub(crate) fn labels_at(
    alloc: Global,
    draft: &Draft,
    edge: usize,
    labels: &[usize],
    spot: Spot,
) -> Result<Vec<usize>, AllocError> {
    let mut found = Vec::new(alloc);
    for label in labels {
        if spot_of(draft, *label, edge) == spot {
            found.push(*label)?;
        }
    }
    Ok(found)
}

// The spots of an edge from its source to its target, with the ends at which they lie. An edge that was turned round has them the
// other way.
pub(crate) fn spots_along(is_turned: bool) -> [(Spot, Option<Kind>); 3] {
    let (first, last) = if is_turned {
        (Spot::Head, Spot::Tail)
    } else {
        (Spot::Tail, Spot::Head)
    };
    [
        (first, Some(Kind::Source)),
        (Spot::Center, None),
        (last, Some(Kind::Target)),
    ]
}
