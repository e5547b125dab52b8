//! The texts of nodes.

use crate::element::{Label, box_at, id_of, labels_of};
use crate::geometry::{Point, Rect};
use crate::ink::ink_on;
use crate::labels::write_placed;
use crate::levels::Node;
use crate::look::{Paints, ROUND, TITLE_LEAST, TITLE_LEFT, TITLE_TOP};
use crate::nodes::is_root;
use crate::shapes::{height_share, room_in};
use crate::style::Shape;
use crate::texts::{Anchor, Fit, fitted, height_of, heights_of, write_text};
use letter_widths::{TEXT_LARGEST, TEXT_LINE};
use std::alloc::{AllocError, Global};

// A text without a place, and the size of its letters if there is room for them.
#[derive(Clone, Copy, Drop)]
struct Text<'a> {
    words: &'a str,
    size: f64,
}

fn fits_of(
    alloc: Global,
    texts: &[Text<'_>],
    width: f64,
    height: f64,
    largest: f64,
) -> Result<Vec<Fit>, AllocError> {
    let mut fits = Vec::new(alloc);
    for text in texts {
        let size = text.size.min(largest);
        fits.push(fitted(alloc, text.words, width, height, size)?)?;
    }
    Ok(fits)
}

// The size of the largest letters in a leaf. They leave a shape that narrows upwards some width.
fn largest_in(shape: Shape, at: Rect, texts: &[Text<'_>]) -> f64 {
    let mut most = TEXT_LARGEST;
    for text in texts {
        most = text.size.max(most);
    }
    let room = at.height * height_share(shape) / (TEXT_LINE * count_of(texts));
    most.min(room.max(TEXT_LARGEST))
}

fn write_fits(
    out: &mut String,
    fits: &[Fit],
    top: Point,
    anchor: Anchor,
    ink: Option<&str>,
) -> Result<(), AllocError> {
    let mut y = top.y;
    for fit in fits {
        y += height_of(fit);
        let place = Point {
            x: top.x,
            y: y - height_of(fit) / 2.0,
        };
        write_text(out, fit, place, anchor, ink)?;
    }
    Ok(())
}

fn count_of(texts: &[Text<'_>]) -> f64 {
    std::num::nearest_usize_to_f64(texts.len())
}

// The labels of a leaf that have no place: in its middle.
fn write_leaf_texts(
    alloc: Global,
    out: &mut String,
    texts: &[Text<'_>],
    shape: Shape,
    at: Rect,
    ink: Option<&str>,
) -> Result<(), AllocError> {
    let count = count_of(texts);
    let height = (at.height - 4.0).max(1.0) / count;
    let largest = largest_in(shape, at, texts);
    let width = (room_in(shape, at, largest * TEXT_LINE * count) - 8.0).max(1.0);
    let fits = fits_of(alloc, texts, width, height, largest)?;
    let middle = at.middle();
    let top = Point {
        x: middle.x,
        y: middle.y - heights_of(fits.as_slice()) / 2.0,
    };
    write_fits(out, fits.as_slice(), top, Anchor::Middle, ink)
}

// The titles of a group, which have no place: along its top, in the room above its content.
fn write_group_texts(
    alloc: Global,
    out: &mut String,
    texts: &[Text<'_>],
    shape: Shape,
    at: Rect,
    room: f64,
    ink: &str,
) -> Result<(), AllocError> {
    let left = if shape == Shape::Round {
        ROUND
    } else {
        TITLE_LEFT
    };
    let height = (room - 2.0).max(0.0) / TEXT_LINE / count_of(texts);
    let width = (at.width - 2.0 * left).max(1.0);
    let fits = fits_of(alloc, texts, width, height, f64::INFINITY)?;
    let all = heights_of(fits.as_slice());
    let top = Point {
        x: at.left + left,
        y: at.top + ((room - all) / 2.0).min(TITLE_TOP).max(1.0),
    };
    write_fits(out, fits.as_slice(), top, Anchor::Start, Some(ink))
}

// The texts that have no place. If a node has no label, that is its id, if there is room for it.
fn free_texts<'a>(
    alloc: Global,
    node: &Node<'_>,
    labels: &'a [Label<'_>],
    id: &'a str,
    room: f64,
) -> Result<Vec<Text<'a>>, AllocError> {
    let mut texts = Vec::new(alloc);
    if labels.is_empty() && !id.is_empty() && !is_root(node) && room >= TITLE_LEAST {
        texts.push(Text {
            words: id,
            size: TEXT_LARGEST,
        })?;
    }
    for label in labels {
        if !label.placed {
            texts.push(Text {
                words: label.text.as_str(),
                size: label.size,
            })?;
        }
    }
    Ok(texts)
}

// The labels of a node, with the room above its content and the fill on which they stand.
pub(crate) fn write_node_texts(
    alloc: Global,
    out: &mut String,
    node: &Node<'_>,
    background: Option<&str>,
    paints: &Paints,
    room: f64,
) -> Result<(), AllocError> {
    let labels = labels_of(alloc, node.value)?;
    let id = id_of(alloc, node.value)?;
    let room = if node.compound { room } else { f64::INFINITY };
    let colour = node.style.colour();
    let ink = match colour {
        Some(colour) => Some(colour),
        None => ink_on(background),
    };
    let at = node.at;
    for label in labels.iter() {
        if label.placed {
            // A label beside its node stands on paper, whatever the node's fill is.
            let is_within = at.holds(box_at(label.value, node.origin).middle());
            write_placed(
                alloc,
                out,
                label,
                node.origin,
                if is_within { ink } else { colour },
            )?;
        }
    }
    let texts = free_texts(alloc, node, labels.as_slice(), id.as_str(), room)?;
    let shape = node.style.shape;
    if node.compound {
        write_group_texts(
            alloc,
            out,
            texts.as_slice(),
            shape,
            at,
            room,
            ink.unwrap_or(paints.title_ink),
        )
    } else {
        write_leaf_texts(alloc, out, texts.as_slice(), shape, at, ink)
    }
}
