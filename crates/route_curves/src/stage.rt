//! Levels with slanted or curved routes are laid out with orthogonal ones, which are then turned into these.

use crate::frame::{Frame, outline_of};
use crate::gaps::{Gaps, Layered, gaps_between};
use crate::lines::points_along;
use crate::stretches::{Placed, stretches_of};
use graph_draft::{
    Draft, Element, Joined, Mark, Routing, joined_edges, number_value, says, text_value,
};
use serde_json::Value;
use std::alloc::{AllocError, Global};
use std::collections::{BTreeMap, BTreeSet};

const ROUTING: &str = "edgeRouting";

const BETWEEN: &str = "layered.spacing.nodeNodeBetweenLayers";

// How far layers stand apart if a level doesn't say so: slanted lines need room not to be steep.
const BETWEEN_LAYERS: f64 = 50.0;

/// How the edges of a level are drawn if they aren't orthogonal.
pub fn routing_of(draft: &Draft, level: usize) -> Option<Routing> {
    let asked = draft.option(Element::Node(level), ROUTING);
    if says(asked, "POLYLINE") {
        Some(Routing::Polyline)
    } else if says(asked, "SPLINES") {
        Some(Routing::Splines)
    } else {
        None
    }
}

/// The options with which a level is laid out whose routes are drawn anew.
pub fn options_for(
    alloc: Global,
    draft: &Draft,
    level: usize,
) -> Result<[(&'static str, Value); 2], AllocError> {
    let between = match draft.option(Element::Node(level), BETWEEN) {
        None | Some(Value::Null) => number_value(BETWEEN_LAYERS),
        Some(value) => value.clone()?,
    };
    Ok([
        (ROUTING, text_value(alloc, "ORTHOGONAL")?),
        (BETWEEN, between),
    ])
}

// A level whose routes are drawn anew, with its frame and its gaps once these are measured.
#[derive(Drop)]
struct Curve {
    routing: Routing,
    frame: Frame,
    gaps: Gaps,
    // The parts of its children.
    parts: BTreeMap<usize, usize>,
    has_loops: bool,
}

/// The levels whose routes are slanted or curved.
#[derive(Drop)]
pub struct Curves {
    mark: Mark,
    levels: BTreeMap<usize, Curve>,
}

impl Curves {
    /// The levels whose routes are slanted or curved.
    pub fn levels(&self, alloc: Global) -> Result<BTreeSet<usize>, AllocError> {
        let mut levels = BTreeSet::new(alloc);
        for (level, _) in self.levels.iter() {
            levels.insert(*level)?;
        }
        Ok(levels)
    }
}

/// Asks for orthogonal routes in place of others, which are made of them last.
pub fn ask_for_curves(alloc: Global, draft: &mut Draft) -> Result<Curves, AllocError> {
    let mark = draft.mark();
    let mut levels = BTreeMap::new(alloc);
    for level in 0..draft.given_nodes {
        if let (true, Some(routing)) = (draft.is_level(level), routing_of(draft, level)) {
            let curve = Curve {
                routing,
                frame: Frame(draft.direction_of(level)),
                gaps: Gaps::none(alloc),
                parts: BTreeMap::new(alloc),
                has_loops: false,
            };
            levels.insert(level, curve)?;
            for (name, value) in options_for(alloc, draft, level)? {
                draft.ask(Element::Node(level), name, value)?;
            }
            draft.alter(level);
        }
    }
    Ok(Curves { mark, levels })
}

// A whole number in a list of a level's certificate.
fn number_at(layering: &Value, key: &str, at: usize) -> Option<usize> {
    match layering.get(key) {
        Some(Value::Array(items)) => match items.get(at)?.as_u64() {
            Some(number) => usize::try_from(number).ok(),
            None => None,
        },
        _ => None,
    }
}

// Measures the gaps between the layers of a placed level, and tells the parts of its children.
fn measure(
    alloc: Global,
    draft: &Draft,
    level: usize,
    curve: &mut Curve,
) -> Result<(), AllocError> {
    let layering = match draft.nodes.get(level) {
        Some(level) => level.layering.as_ref(),
        None => None,
    };
    let mut nodes = Vec::new(alloc);
    if let Some(layering) = layering {
        for (at, child) in draft.children_of(level).iter().enumerate() {
            if let Some(layer) = number_at(layering, "layers", at) {
                let (place, size) = outline_of(draft, *child);
                let part = number_at(layering, "parts", at).unwrap_or(0);
                let span = curve.frame.span_of(place, size);
                nodes.push(Layered { span, layer, part })?;
                curve.parts.insert(*child, part)?;
            }
        }
    }
    curve.gaps = gaps_between(alloc, nodes.as_slice())?;
    Ok(())
}

/// Measures the gaps of levels, as the first thing that is done after the answer.
pub fn measure_gaps(alloc: Global, draft: &Draft, curves: &mut Curves) -> Result<(), AllocError> {
    for (level, curve) in curves.levels.iter_mut() {
        curve.frame = Frame(draft.direction_of(*level));
        measure(alloc, draft, *level, curve)?;
    }
    Ok(())
}

// Draws the sections of an edge anew. Those of an edge of several ends keep their corners.
fn bend(
    alloc: Global,
    draft: &mut Draft,
    joined: &Joined,
    curve: &Curve,
) -> Result<(), AllocError> {
    let none = Gaps::none(alloc);
    if let Some(edge) = draft.edges.get_mut(joined.edge) {
        let is_one = edge.sections.len() == 1;
        let level = Placed {
            frame: curve.frame,
            gaps: if is_one { &curve.gaps } else { &none },
            part: curve.parts.get(&joined.source.node).copied(),
            has_stubs: curve.has_loops || curve.routing == Routing::Splines,
        };
        for section in edge.sections.iter_mut() {
            let stretches = stretches_of(alloc, section.points.as_slice(), &level)?;
            let points = points_along(alloc, stretches.as_slice(), curve.routing)?;
            if !points.is_empty() {
                section.points = points;
            }
        }
        edge.routing = Some(curve.routing);
    }
    Ok(())
}

/// Draws the routes of the levels anew.
pub fn draw_curves(alloc: Global, draft: &mut Draft, curves: Curves) -> Result<(), AllocError> {
    let Curves { mark, mut levels } = curves;
    draft.undo_to(mark)?;
    if levels.is_empty() {
        return Ok(());
    }
    let joined = joined_edges(alloc, draft)?;
    for edge in joined.iter() {
        if let Some(curve) = levels.get_mut(&edge.level) {
            curve.has_loops = curve.has_loops || edge.is_loop();
        }
    }
    for edge in joined.iter() {
        if edge.edge < draft.given_edges {
            if let Some(curve) = levels.get(&edge.level) {
                bend(alloc, draft, edge, curve)?;
            }
        }
    }
    Ok(())
}
