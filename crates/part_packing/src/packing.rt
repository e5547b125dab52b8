//! The parts of the outermost level of a placed draft, moved into rows of the shape that it asks for.

use crate::bounds::Bounds;
use crate::groups::{Group, Groups, groups_of, parts_of};
use crate::rows::rows_for;
use graph_draft::{Draft, Element, Point, Size, number_said};
use std::alloc::{AllocError, Global};

const ROOT: usize = 0;

const RATIO: f64 = 1.6;

// The ratio of width to height that a level asks for.
fn ratio_of(draft: &Draft, level: usize) -> f64 {
    match number_said(draft.option(Element::Node(level), "aspectRatio")) {
        Some(ratio) if ratio > 0.0 => ratio,
        _ => RATIO,
    }
}

// First the parts with edges, then the others, both in the order of the document.
fn in_order<'a>(alloc: Global, groups: &'a Groups) -> Result<Vec<&'a Group>, AllocError> {
    let mut ordered = Vec::new(alloc);
    for are_joined in [true, false] {
        for (_, group) in groups.iter() {
            if group.edges.is_empty() != are_joined {
                ordered.push(group)?;
            }
        }
    }
    Ok(ordered)
}

fn move_group(draft: &mut Draft, group: &Group, by: Point) {
    for child in group.children.iter() {
        let place = draft.place_of(Element::Node(*child)).moved(by);
        draft.put(Element::Node(*child), place);
    }
    for edge in group.edges.iter() {
        if let Some(edge) = draft.edges.get_mut(*edge) {
            for section in edge.sections.iter_mut() {
                for point in section.points.iter_mut() {
                    *point = point.moved(by);
                }
            }
        }
    }
}

fn pack(alloc: Global, draft: &mut Draft, groups: &[&Group]) -> Result<(), AllocError> {
    let mut all = Bounds::none();
    let mut boxes = Vec::new(alloc);
    for group in groups {
        all.add(group.bounds.low, group.bounds.size());
        boxes.push(group.bounds.size())?;
    }
    let root = Element::Node(ROOT);
    let gap = draft
        .number(root, "spacing.componentComponent", 20.0)
        .max(1.0);
    let rows = rows_for(alloc, boxes.as_slice(), gap, ratio_of(draft, ROOT))?;
    for (group, place) in groups.iter().zip(rows.places.iter()) {
        let from = group.bounds.low;
        let by = Point {
            x: all.low.x + place.x - from.x,
            y: all.low.y + place.y - from.y,
        };
        move_group(draft, group, by);
    }
    let size = draft.size_of(root);
    let grown = Size {
        width: size.width + (rows.size.width - all.size().width),
        height: size.height + (rows.size.height - all.size().height),
    };
    draft.resize(root, grown);
    Ok(())
}

/// Moves the parts of the outermost level of a placed draft into rows of the shape that it asks for, unless it has ports. How large
/// the levels within are has to be known before what stands around them is laid out, so these stay as they are.
pub fn pack_parts(alloc: Global, draft: &mut Draft) -> Result<(), AllocError> {
    let parts = parts_of(alloc, draft, ROOT)?;
    let is_one = match parts.first() {
        Some(first) => parts.iter().all(|part| part == first),
        None => true,
    };
    if is_one || !draft.ports_of(ROOT).is_empty() {
        return Ok(());
    }
    let groups = groups_of(alloc, draft, ROOT, parts.as_slice())?;
    let ordered = in_order(alloc, &groups)?;
    pack(alloc, draft, ordered.as_slice())
}
