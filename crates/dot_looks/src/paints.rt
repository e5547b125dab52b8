//! Colours of elements.

use crate::given::Given;
use crate::notes::Notes;
use dot_colours::colour_of;
use std::alloc::{AllocError, Global};

/// The colour that an attribute names. There is a warning if it isn't known.
pub(crate) fn colour_at(
    alloc: Global,
    given: Given<'_>,
    name: &str,
    notes: &mut Notes,
) -> Result<Option<String>, AllocError> {
    let (Some(written), Some(text)) = (given.written(name), given.text(name)) else {
        return Ok(None);
    };
    let scheme = given.text("colorscheme").unwrap_or("");
    let colour = colour_of(alloc, text, scheme)?;
    if colour.is_none() {
        notes.add(written.place, "the colour is not known")?;
    } else if text.split_once(":").is_some() {
        notes.add(written.place, "only the first colour of the list is drawn")?;
    }
    Ok(colour)
}

/// The first colour that there is among some attributes.
pub(crate) fn first_colour(
    alloc: Global,
    given: Given<'_>,
    names: &[&str],
    notes: &mut Notes,
) -> Result<Option<String>, AllocError> {
    for name in names {
        if let Some(colour) = colour_at(alloc, given, *name, notes)? {
            return Ok(Some(colour));
        }
    }
    Ok(None)
}
