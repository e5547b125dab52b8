//! Labels and their sizes.

use graph_draft::{Draft, Element, Point, Size, rounded_up};
use letter_widths::{TEXT_LINE, letter_size, width_of};
use std::alloc::{AllocError, Global};
use std::num::nearest_usize_to_f64;

fn has_size(size: Size) -> bool {
    size.width > 0.0 && size.height > 0.0
}

// The size of a text in letters of a size.
fn size_of_text(text: &str, letters: f64) -> Size {
    if text.is_empty() {
        return Size::NONE;
    }
    let mut width: f64 = 0.0;
    let mut lines: usize = 0;
    for line in text.split("\n") {
        width = width.max(width_of(line, letters));
        lines = lines.saturating_add(1);
    }
    Size {
        width: rounded_up(width),
        height: rounded_up(nearest_usize_to_f64(lines) * letters * TEXT_LINE),
    }
}

fn or_else(length: f64, other: f64) -> f64 {
    if length > 0.0 { length } else { other }
}

/// Gives a label the size of its text, as far as it has none. It answers whether the label has a size then; one that has none is
/// left as it is.
pub fn measure(draft: &mut Draft, label: usize) -> bool {
    let given = draft.size_of(Element::Label(label));
    if has_size(given) {
        return true;
    }
    let of_text = match draft.labels.get(label) {
        Some(label) => size_of_text(label.text.as_str(), letter_size(label.letters)),
        None => Size::NONE,
    };
    let size = Size {
        width: or_else(given.width, of_text.width),
        height: or_else(given.height, of_text.height),
    };
    if has_size(size) {
        draft.resize(Element::Label(label), size);
    }
    has_size(size)
}

/// The labels of an element that have a size, or a text whose size they get.
pub fn measured_labels(
    alloc: Global,
    draft: &mut Draft,
    element: Element,
) -> Result<Vec<usize>, AllocError> {
    let mut labels = Vec::new(alloc);
    for label in Vec::from_slice(alloc, draft.labels_of(element))? {
        if measure(draft, label) {
            labels.push(label)?;
        }
    }
    Ok(labels)
}

/// The room of labels that stand one below the other.
pub fn stack_of(draft: &Draft, labels: &[usize], gap: f64) -> Size {
    let mut room = Size::NONE;
    for label in labels {
        let size = draft.size_of(Element::Label(*label));
        room.width = room.width.max(size.width.ceil());
        room.height += size.height.ceil();
    }
    room.height += nearest_usize_to_f64(labels.len().saturating_sub(1)) * gap;
    room
}

/// Where labels of a stack stand within its width.
#[derive(Clone, Copy, Debug, Drop, PartialEq, Eq)]
pub enum Align {
    Left,
    Center,
    Right,
}

impl Align {
    // The part of the free room that lies to the left of a label.
    fn share(self) -> f64 {
        match self {
            Align::Left => 0.0,
            Align::Center => 0.5,
            Align::Right => 1.0,
        }
    }
}

/// Where labels stand one below the other.
#[derive(Clone, Copy, Drop)]
pub struct Stack {
    /// The upper left corner.
    pub place: Point,
    pub width: f64,
    pub gap: f64,
    pub align: Align,
}

/// Places labels one below the other.
pub fn place_stack(draft: &mut Draft, labels: &[usize], stack: Stack) {
    let mut top = stack.place.y;
    for label in labels {
        let size = draft.size_of(Element::Label(*label));
        let x = stack.place.x + (stack.width - size.width) * stack.align.share();
        draft.put(Element::Label(*label), Point { x, y: top });
        top += size.height.ceil() + stack.gap;
    }
}
