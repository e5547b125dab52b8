//! Which levels have edges.
ghost use Rattle.std.specs.Prelude.{◌≡◌, ℕ, ◌<◌, ◌||◌, length, slice_index_or, false, nat_eq, Some, IfOk};
ghost use Rattle.std.specs.Option.{option_eq};
ghost use Rattle.elk_json.specs.Marks.{AreMarkedElements};
ghost use Rattle.elk_json.specs.Seen.{seen_list};

use crate::elements::Kind;
use crate::ends::level_of_edge;
use crate::listed::Listed;
use std::alloc::{AllocError, Global};

// A mark at a place, if there is one within the list.
fn mark(marks: &mut [bool], place: Option<usize>)
    ensures long { length marks.new ≡ length marks.old }
    ensures marked { (i : ℕ) → i < length marks.old
        → slice_index_or marks.new i false ≡ (slice_index_or marks.old i false || option_eq nat_eq place (Some i)) }
{
    if let Some(place) = place {
        if place < marks.len() {
            marks[place] = true;
        }
    }
}

// By place, whether the level of the node there has an edge.
pub(crate) fn levels_with_edges(
    alloc: Global,
    list: &Listed<'_, '_>,
) -> Result<Vec<bool>, AllocError>
    ensures long { IfOk result (λ marks. length marks.items ≡ length list.now.elements.now) }
    ensures marked { IfOk result (λ marks. AreMarkedElements (seen_list list.now.elements.now) marks.items) }
{
    let mut marks = vec![in alloc; false; list.elements.len()]?;
    for element in list.elements {
        if element.kind == Kind::Edge {
            mark(marks.as_mut_slice(), level_of_edge(list, element.value));
        }
    }
    Ok(marks)
}
