//! The texts of edges.

use crate::element::{box_at, labels_of};
use crate::geometry::Point;
use crate::ink::ink_on;
use crate::labels::write_placed;
use crate::levels::{Edge, Levels};
use crate::look::Paints;
use crate::path::passes;
use serde_json::Value;
use std::alloc::{AllocError, Global};

// The labels of an edge that have a place. A label has a halo if a line of its own edge passes through it.
pub(crate) fn write_edge_texts(
    alloc: Global,
    out: &mut String,
    edge: &Edge<'_>,
    levels: &Levels<'_>,
    paints: &Paints,
) -> Result<(), AllocError> {
    let origin = levels.origin_of(edge.home);
    let background = levels.background_of(edge.home);
    let halo = background.unwrap_or(paints.paper);
    let ink = match edge.style.colour() {
        Some(colour) => Some(colour),
        None => ink_on(background),
    };
    for label in labels_of(alloc, edge.value)? {
        if label.placed {
            let before = out.len();
            let is_crossed = is_crossed(edge, label.value);
            if is_crossed {
                write!(
                    out,
                    "<g stroke=\"{halo}\" stroke-width=\"5\" stroke-linejoin=\"round\" paint-order=\"stroke\">"
                )?;
            }
            write_placed(alloc, out, &label, origin, ink)?;
            out.push_str(if is_crossed { "</g>" } else { "" })?;
            if out.len() > before {
                out.push('\n')?;
            }
        }
    }
    Ok(())
}

fn is_crossed(edge: &Edge<'_>, label: &Value) -> bool {
    let at = box_at(label, Point { x: 0.0, y: 0.0 });
    for section in edge.sections.iter() {
        if passes(section.points.as_slice(), at) {
            return true;
        }
    }
    false
}
