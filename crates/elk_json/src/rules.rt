//! Which rule refuses a value, and where.
ghost use Rattle.std.specs.Prelude.{◌≡◌, ◌+ℤ◌, int_lt, IfOk, Some, option_map, find, is_some, true, false, ◌&&◌, ◌||◌, ◌<◌, length};
ghost use Rattle.std.specs.Option.{option_or};
ghost use Rattle.serde_json.specs.View.{view};
ghost use Rattle.elk_json.specs.Members.{is_port, whole_at as whole_test, has_bad_option as bad_option_test};
ghost use Rattle.elk_json.specs.Marks.{AreMarkedElements};
ghost use Rattle.elk_json.specs.Rules.{first_at, has_boxes, is_badly_optioned as badly_test, has_face_inside as face_test, lies_inside as lies_test, is_port_inside as inside_test, is_placed_inside as placed_inside_test, is_side_inside as side_inside_test, if_so, at, option_refusal as option_refusal_of, edge_refusal as edge_refusal_of, value_refusal as value_refusal_of};
ghost use Rattle.elk_json.specs.Elements.{elements as elements_spec};
ghost use Rattle.elk_json.specs.Seen.{seen, seen_list};

use crate::elements::{Element, Kind};
use crate::ends::{first_cross_level, first_hyperedge, first_unknown};
use crate::fault::{Refusal, Rule};
use crate::ids::{first_double, id_of};
use crate::limits::{are_too_many, is_too_deep};
use crate::listed::Listed;
use crate::marks::levels_with_edges;
use crate::members::{is_at_compound, is_compound, whole_at};
use crate::ranges::{first_out_of_range, has_fixed_pos};
use crate::shape::has_bad_shape;
use crate::whole::is_whole;
use drawing_types::shape::Side;
use serde_json::Value;
use std::alloc::{AllocError, Global};

#[tactic(auto, unfolding(crate::specs::Rules::has_boxes_and_edges))]
fn is_badly_optioned(element: &Element<'_>, has_edge: bool) -> bool
    ensures { result ≡ (bad_option_test (seen element.now)
        || has_boxes (seen element.now) && has_edge) }
{
    match element.options {
        None => true,
        Some(options) => match options.level {
            None => false,
            Some(level) => is_compound(element) && level.boxes && has_edge,
        },
    }
}

// The same of the element at a place, by its mark.
fn is_badly_marked(
    elements: &[Element<'_>],
    marks: &[bool],
    place: usize,
    element: &Element<'_>,
) -> bool
    requires within { place < length elements.now }
    requires long { length marks.now ≡ length elements.now }
    requires marked { AreMarkedElements (seen_list elements.now) marks.now }
    ensures { result ≡ badly_test (seen_list elements.now) place (seen element.now) }
{
    is_badly_optioned(element, marks[place])
}

// The first element with a bad value of an option, by whether the level of each place has an edge.
fn first_badly_marked<'e, 'a>(
    elements: &'e [Element<'a>],
    marks: &[bool],
) -> Option<&'e Element<'a>>
    requires long { length marks.now ≡ length elements.now }
    requires marked { AreMarkedElements (seen_list elements.now) marks.now }
    ensures { option_map (λ e. seen e.now) result ≡ first_at (badly_test (seen_list elements.now)) 0 (seen_list elements.now) }
{
    for (i, element) in elements.iter().enumerate() {
        if is_badly_marked(elements, marks, i, element) {
            return Some(element);
        }
    }
    None
}

// The first element with a bad value of an option.
fn first_badly_optioned<'e, 'a>(
    alloc: Global,
    list: &Listed<'e, 'a>,
) -> Result<Option<&'e Element<'a>>, AllocError>
    ensures { IfOk result (λ found. option_map (λ e. seen e.now) found
        ≡ first_at (badly_test (seen_list list.now.elements.now)) 0 (seen_list list.now.elements.now)) }
{
    let marks = levels_with_edges(alloc, list)?;
    Ok(first_badly_marked(list.elements, marks.as_slice()))
}

// The sum of two of the port's numbers is below one of the node's.
fn reaches_less(port: &Value, at: &str, size: &str, node: &Value) -> bool
    ensures { result ≡ int_lt (whole_test at.now (view port.now) +ℤ whole_test size.now (view port.now)) (whole_test size.now (view node.now)) }
{
    let end = whole_at(port, at) + whole_at(port, size);
    end < whole_at(node, size)
}

// The outer face lies strictly inside.
#[tactic(auto, unfolding(crate::specs::Rules::has_face_inside))]
fn has_face_inside(side: Side, node: &Value, port: &Value) -> bool
    ensures { result ≡ face_test side (view node.now) (view port.now) }
{
    match side {
        Side::West => whole_at(port, "x") > 0,
        Side::East => reaches_less(port, "x", "width", node),
        Side::North => whole_at(port, "y") > 0,
        Side::South => reaches_less(port, "y", "height", node),
    }
}

#[tactic(auto, unfolding(crate::specs::Rules::lies_inside))]
fn lies_inside(node: &Value, port: &Value) -> bool
    ensures { result ≡ lies_test (view node.now) (view port.now) }
{
    has_face_inside(Side::West, node, port)
        && has_face_inside(Side::East, node, port)
        && has_face_inside(Side::North, node, port)
        && has_face_inside(Side::South, node, port)
}

#[tactic(auto, unfolding(crate::specs::Rules::is_port_inside))]
fn is_port_inside(element: &Element<'_>) -> bool
    ensures { result ≡ inside_test (seen element.now) }
{
    match element.kind {
        Kind::Port => !is_at_compound(element) && is_placed_inside(element),
        _ => false,
    }
}

// Where the options of the port or of its node have bad values, an earlier rule holds.
fn is_placed_inside(element: &Element<'_>) -> bool
    requires { is_port (seen element.now) ≡ true }
    ensures { result ≡ placed_inside_test (seen element.now) }
{
    match element.options {
        None => false,
        Some(own) => has_fixed_pos(element) && is_face_inside(own.side, element),
    }
}

fn is_face_inside(side: Option<Side>, element: &Element<'_>) -> bool
    ensures { result ≡ side_inside_test side (seen element.now) }
{
    match side {
        None => lies_inside(element.holder, element.value),
        Some(side) => has_face_inside(side, element.holder, element.value),
    }
}

// The first port that lies inside its node.
fn first_inside<'e, 'a>(elements: &'e [Element<'a>]) -> Option<&'e Element<'a>>
    ensures { option_map (λ e. seen e.now) result ≡ find inside_test (seen_list elements.now) }
{
    for element in elements {
        if is_port_inside(element) {
            return Some(element);
        }
    }
    None
}

// The rule, at the element if there is one.
fn refusal_at(
    alloc: Global,
    rule: Rule,
    element: Option<&Element<'_>>,
) -> Result<Option<Refusal>, AllocError>
    ensures { IfOk result (λ r. r ≡ at rule (option_map (λ e. seen e.now) element.entry)) }
{
    match element {
        None => Ok(None),
        Some(element) => {
            let place = id_of(alloc, element.value)?;
            Ok(Some(Refusal { rule, place }))
        }
    }
}

fn refusal_if(rule: Rule, holds: bool) -> Option<Refusal>
    ensures { result ≡ if_so rule holds }
{
    if holds {
        Some(Refusal { rule, place: None })
    } else {
        None
    }
}

#[tactic(auto, unfolding(crate::specs::Rules::option_refusal))]
fn option_refusal(alloc: Global, list: &Listed<'_, '_>) -> Result<Option<Refusal>, AllocError>
    ensures { IfOk result (λ r. r ≡ option_refusal_of (seen_list list.now.elements.now)) }
{
    let badly = first_badly_optioned(alloc, list)?;
    let optioned = refusal_at(alloc, Rule::OptionValue, badly)?;
    let inside = refusal_at(alloc, Rule::PortInside, first_inside(list.elements))?;
    Ok(optioned.or(inside))
}

#[tactic(auto, unfolding(crate::specs::Rules::edge_refusal))]
fn edge_refusal(alloc: Global, list: &Listed<'_, '_>) -> Result<Option<Refusal>, AllocError>
    ensures { IfOk result (λ r. r ≡ edge_refusal_of (seen_list list.now.elements.now)) }
{
    let cross = refusal_at(alloc, Rule::CrossLevel, first_cross_level(list))?;
    let hyperedge = refusal_at(alloc, Rule::Hyperedge, first_hyperedge(list))?;
    let form = hyperedge.or(cross);
    let unknown = refusal_at(alloc, Rule::UnknownEnd, first_unknown(list))?;
    let end = unknown.or(form);
    let double = refusal_at(alloc, Rule::DoubleId, first_double(list))?;
    Ok(double.or(end))
}

// The first rule on the whole value that refuses it, and its place, or none.
#[tactic(auto, unfolding(crate::specs::Rules::value_refusal))]
pub(crate) fn value_refusal(
    alloc: Global,
    value: &Value,
    elements: &[Element<'_>],
) -> Result<Option<Refusal>, AllocError>
    requires { seen_list elements.now ≡ elements_spec (view value.now) }
    ensures { IfOk result (λ r. r ≡ value_refusal_of (view value.now)) }
{
    let range = refusal_at(alloc, Rule::OutOfRange, first_out_of_range(elements))?;
    let broken = refusal_if(Rule::NotWhole, !is_whole(value));
    let shape = refusal_if(Rule::BadShape, has_bad_shape(elements));
    let many = refusal_if(Rule::TooMany, are_too_many(elements));
    let deep = refusal_if(Rule::TooDeep, is_too_deep(value));
    Ok(broken.or(shape.or(range.or(many.or(deep)))))
}

// The first rule on ids, edges, options and ports that refuses the elements, and its place, or none.
pub(crate) fn later_refusal(
    alloc: Global,
    list: &Listed<'_, '_>,
) -> Result<Option<Refusal>, AllocError>
    ensures { IfOk result (λ r. r ≡ option_or (edge_refusal_of (seen_list list.now.elements.now)) (option_refusal_of (seen_list list.now.elements.now))) }
{
    let edges = edge_refusal(alloc, list)?;
    if edges.is_some() {
        return Ok(edges);
    }
    option_refusal(alloc, list)
}
