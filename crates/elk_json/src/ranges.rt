//! Ranges of sizes and places.
ghost use Rattle.std.specs.Prelude.{◌≡◌, option_map, find, true, not, ◌&&◌};
ghost use Rattle.std.specs.Option.{option_map_or};
ghost use Rattle.serde_json.specs.View.{view};
ghost use Rattle.elk_json.specs.Members.{holder_has_bad_option, holder_options, is_port};
ghost use Rattle.elk_json.specs.Ranges.{is_size as size_test, is_near as near_test, is_far as far_test, has_good_size as good_size_test, is_fixed_pos as fixed_pos_test, along as along_test, has_good_pin as pin_test, has_good_place as place_test, is_out_of_range as out_test};
ghost use Rattle.elk_json.specs.Seen.{seen, seen_list};

use crate::elements::{Element, Kind};
use crate::members::{is_at_compound, is_between, is_compound, whole_at};
use drawing_types::shape::Side;
use elk_doc::document::PortRule;
use serde_json::Value;

#[tactic(auto, unfolding(crate::specs::Ranges::is_size))]
fn is_size(n: i128) -> bool
    ensures { result ≡ size_test n }
{
    is_between(0, 1048576, n)
}

#[tactic(auto, unfolding(crate::specs::Ranges::is_near))]
fn is_near(n: i128) -> bool
    ensures { result ≡ near_test n }
{
    is_between(-1048576, 1048576, n)
}

#[tactic(auto, unfolding(crate::specs::Ranges::is_far))]
fn is_far(n: i128) -> bool
    ensures { result ≡ far_test n }
{
    is_between(-9007199254740992, 9007199254740992, n)
}

#[tactic(auto, unfolding(crate::specs::Ranges::has_good_size))]
fn has_good_size(value: &Value) -> bool
    ensures { result ≡ good_size_test (view value.now) }
{
    is_size(whole_at(value, "width")) && is_size(whole_at(value, "height"))
}

fn is_fixed_pos(rule: PortRule) -> bool
    ensures { result ≡ fixed_pos_test rule }
{
    match rule {
        PortRule::FixedPos => true,
        _ => false,
    }
}

fn along(side: Side, value: &Value) -> i128
    ensures { result ≡ along_test side (view value.now) }
{
    match side {
        Side::North | Side::South => whole_at(value, "x"),
        Side::East | Side::West => whole_at(value, "y"),
    }
}

// The node of a port keeps its ports where they are.
pub(crate) fn has_fixed_pos(element: &Element<'_>) -> bool
    requires { is_port (seen element.now) ≡ true }
    ensures { result ≡ (not (holder_has_bad_option (seen element.now)) && fixed_pos_test (holder_options (seen element.now)).rule) }
{
    match element.rule {
        None => false,
        Some(rule) => is_fixed_pos(rule),
    }
}

// The place along the side of a port that is pinned.
#[tactic(auto, unfolding(crate::specs::Ranges::has_good_pin))]
fn has_good_pin(element: &Element<'_>) -> bool
    requires { is_port (seen element.now) ≡ true }
    ensures { result ≡ pin_test (seen element.now) }
{
    match element.options {
        None => true,
        Some(own) => !has_fixed_pos(element) || is_near_along(own.side, element.value),
    }
}

fn is_near_along(side: Option<Side>, value: &Value) -> bool
    ensures { result ≡ option_map_or (λ s. near_test (along_test s (view value.now))) side true }
{
    match side {
        None => true,
        Some(side) => is_near(along(side, value)),
    }
}

#[tactic(auto, unfolding(crate::specs::Ranges::has_good_place))]
fn has_good_place(element: &Element<'_>) -> bool
    requires { is_port (seen element.now) ≡ true }
    ensures { result ≡ place_test (seen element.now) }
{
    let x = whole_at(element.value, "x");
    let y = whole_at(element.value, "y");
    if is_at_compound(element) {
        is_far(x) && is_far(y) && has_good_pin(element)
    } else {
        is_near(x) && is_near(y)
    }
}

#[tactic(auto, unfolding(crate::specs::Ranges::is_out_of_range))]
fn is_out_of_range(element: &Element<'_>) -> bool
    ensures { result ≡ out_test (seen element.now) }
{
    match element.kind {
        Kind::Node => !is_compound(element) && !has_good_size(element.value),
        Kind::Port => !(has_good_size(element.value) && has_good_place(element)),
        Kind::Edge => false,
    }
}

// The first element out of range.
pub(crate) fn first_out_of_range<'e, 'a>(elements: &'e [Element<'a>]) -> Option<&'e Element<'a>>
    ensures { option_map (λ e. seen e.now) result ≡ find out_test (seen_list elements.now) }
{
    for element in elements {
        if is_out_of_range(element) {
            return Some(element);
        }
    }
    None
}
