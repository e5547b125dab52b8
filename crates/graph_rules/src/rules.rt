//! All rules, one after the other.

use crate::asked::bad_options;
use crate::context::Context;
use crate::ends::{cross_levels, double_ids, hyperedges, unknown_ends};
use crate::finds::Find;
use crate::limits::{out_of_range, too_deep, too_many};
use crate::ports::ports_inside;
use crate::shapes::{bad_shapes, not_whole};
use serde_json::Value;
use std::alloc::{AllocError, Global};

/// All that the rules find in a document, in the order of the rules, and for each in that of the document.
pub fn finds_in<'a>(
    alloc: Global,
    context: &Context<'a>,
    document: &'a Value,
) -> Result<Vec<Find<'a>>, AllocError> {
    let mut finds = not_whole(alloc, document)?;
    for find in bad_shapes(alloc, context, document)? {
        finds.push(find)?;
    }
    out_of_range(alloc, context, &mut finds)?;
    too_many(alloc, context, &mut finds)?;
    too_deep(alloc, context, &mut finds)?;
    double_ids(alloc, context, &mut finds)?;
    unknown_ends(alloc, context, &mut finds)?;
    hyperedges(alloc, context, &mut finds)?;
    cross_levels(alloc, context, &mut finds)?;
    bad_options(alloc, context, &mut finds)?;
    ports_inside(alloc, context, &mut finds)?;
    Ok(finds)
}
