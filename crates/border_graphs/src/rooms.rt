//! The padding of a level, with room for the labels of its ports.

use border_levels::Model;
use label_room::Padding;
use node_labels::padding_of;
use std::alloc::{AllocError, Global};

// The room that such a level keeps to a side without padding, so that no line runs along its border.
const NO_PADDING: f64 = 5.0;

fn least(padding: f64) -> f64 {
    if padding == 0.0 { NO_PADDING } else { padding }
}

// A padding with more room at each side, as the option is written.
fn padding_with(alloc: Global, padding: Padding, rooms: Padding) -> Result<String, AllocError> {
    let top = padding.top + rooms.top;
    let left = padding.left + rooms.left;
    let bottom = padding.bottom + rooms.bottom;
    let right = padding.right + rooms.right;
    format!(in alloc; "[top={top},left={left},bottom={bottom},right={right}]")
}

// The padding of a level whose border nothing crosses, with room for the labels of its ports that stand inside; none if there are none.
pub(crate) fn padding_for_labels(
    alloc: Global,
    model: &Model,
    level: usize,
) -> Result<Option<String>, AllocError> {
    let rooms = model.label_rooms_of(level);
    if !(rooms.top > 0.0 || rooms.left > 0.0 || rooms.bottom > 0.0 || rooms.right > 0.0) {
        return Ok(None);
    }
    let text = padding_with(alloc, padding_of(&model.draft, level), rooms)?;
    Ok(Some(text))
}

// The padding of a level whose border edges cross, with room for the labels of its ports that stand inside.
pub(crate) fn padding_within(
    alloc: Global,
    model: &Model,
    level: usize,
) -> Result<String, AllocError> {
    let padding = padding_of(&model.draft, level);
    let padding = Padding {
        top: least(padding.top),
        left: least(padding.left),
        bottom: least(padding.bottom),
        right: least(padding.right),
    };
    padding_with(alloc, padding, model.label_rooms_of(level))
}
