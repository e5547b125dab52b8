//! One option each: its value or its default, or its name where the value is outside its table.
ghost use Rattle.std.specs.Prelude.{◌≡◌, ◌^◌, ◌<ℤ◌, neg_ℤ, pos, true, false, not, ◌&&◌, is_some, unwrap_or, None, option_map, option_and_then, MatchResult, IfOk, ◌≤ℤ◌, nat_abs};
ghost use Rattle.std.specs.Option.{option_map_or};
ghost use Rattle.std.specs.Int.{int_max};
ghost use Rattle.serde_json.specs.View.{view};
ghost use Rattle.elk_doc.specs.declared.document.Direction.TheVariants as direction;
ghost use Rattle.elk_doc.specs.declared.document.Placing.TheVariants as placing;
ghost use Rattle.elk_doc.specs.declared.document.Slotting.TheVariants as slotting;
ghost use Rattle.elk_options.specs.declared.names.OptionName.TheVariants as name;
ghost use Rattle.elk_options.specs.Table.{to_boxes, to_direction, to_side, to_index, to_routing, to_padding, to_distance, to_sweep, to_shortness, to_truth, to_placing, to_slots, to_position};
ghost use Rattle.elk_options.specs.Reading.{given, rule_of, value_or, distance_or, position_of, usual_padding, Reads};

use crate::names::{OptionName, asked_of};
use crate::options::BadValue;
use crate::padding::read_padding;
use crate::texts::{
    boxes_of, direction_of, placing_of, routing_of, rule_of, side_of, slots_of, sweep_of, truth_of,
};
use crate::values::whole_in;
use drawing_types::shape::Side;
use drawing_types::sweep::Sweep;
use elk_doc::document::{Direction, Padding, Placing, PortRule, Slotting};
use serde_json::Value;

// The value, or the default where the option is not there.
pub(crate) fn settled<T: Drop>(
    is_there: bool,
    value: Option<T>,
    default: T,
    option: OptionName,
) -> Result<T, BadValue>
    ensures { MatchResult result
        (λ v. ((is_there && not (is_some value)) ≡ false) × (v ≡ unwrap_or value default))
        (λ e. (e ≡ record { option = option }) × ((is_there && not (is_some value)) ≡ true)) }
{
    match value {
        Some(v) => Ok(v),
        None => {
            if is_there {
                Err(BadValue { option })
            } else {
                Ok(default)
            }
        }
    }
}

#[tactic(auto, unfolding(crate::specs::Reading::is_bad))]
pub(crate) fn boxes(options: Option<&Value>) -> Result<bool, BadValue>
    ensures { Reads name.Algorithm (given options.entry) (value_or to_boxes false name.Algorithm (given options.entry)) result }
{
    let asked = asked_of(options, OptionName::Algorithm);
    let value = asked.and_then(Value::as_str).and_then(boxes_of);
    settled(asked.is_some(), value, false, OptionName::Algorithm)
}

#[tactic(auto, unfolding(crate::specs::Reading::is_bad))]
pub(crate) fn direction(options: Option<&Value>) -> Result<Direction, BadValue>
    ensures { Reads name.Direction (given options.entry) (value_or to_direction direction.Right name.Direction (given options.entry)) result }
{
    let asked = asked_of(options, OptionName::Direction);
    let value = asked.and_then(Value::as_str).and_then(direction_of);
    settled(
        asked.is_some(),
        value,
        Direction::Right,
        OptionName::Direction,
    )
}

#[tactic(auto, unfolding(crate::specs::Reading::is_bad, crate::specs::Reading::rule_of))]
pub(crate) fn rule(options: Option<&Value>) -> Result<PortRule, BadValue>
    ensures { Reads name.PortConstraints (given options.entry) (rule_of (given options.entry)) result }
{
    let asked = asked_of(options, OptionName::PortConstraints);
    let value = asked.and_then(Value::as_str).and_then(rule_of);
    settled(
        asked.is_some(),
        value,
        PortRule::Free,
        OptionName::PortConstraints,
    )
}

#[tactic(auto, unfolding(crate::specs::Reading::is_bad))]
pub(crate) fn side(options: Option<&Value>) -> Result<Option<Side>, BadValue>
    ensures { Reads name.PortSide (given options.entry) (value_or to_side None name.PortSide (given options.entry)) result }
{
    let asked = asked_of(options, OptionName::PortSide);
    let value = asked.and_then(Value::as_str).and_then(side_of);
    settled(asked.is_some(), value, None, OptionName::PortSide)
}

#[tactic(auto, unfolding(crate::specs::Reading::is_bad))]
pub(crate) fn sweep(options: Option<&Value>) -> Result<Option<Sweep>, BadValue>
    ensures { Reads name.FixedAlignment (given options.entry) (value_or to_sweep None name.FixedAlignment (given options.entry)) result }
{
    let asked = asked_of(options, OptionName::FixedAlignment);
    let value = asked.and_then(Value::as_str).and_then(sweep_of);
    settled(asked.is_some(), value, None, OptionName::FixedAlignment)
}

#[tactic(auto, unfolding(crate::specs::Reading::is_bad))]
pub(crate) fn placing(options: Option<&Value>) -> Result<Placing, BadValue>
    ensures { Reads name.NodePlacement (given options.entry) (value_or to_placing placing.BrandesKoepf name.NodePlacement (given options.entry)) result }
{
    let asked = asked_of(options, OptionName::NodePlacement);
    let value = asked.and_then(Value::as_str).and_then(placing_of);
    settled(
        asked.is_some(),
        value,
        Placing::BrandesKoepf,
        OptionName::NodePlacement,
    )
}

#[tactic(auto, unfolding(crate::specs::Reading::is_bad))]
pub(crate) fn padding(options: Option<&Value>) -> Result<Padding, BadValue>
    ensures { Reads name.Padding (given options.entry) (value_or to_padding usual_padding name.Padding (given options.entry)) result }
{
    let asked = asked_of(options, OptionName::Padding);
    let value = asked.and_then(Value::as_str).and_then(read_padding);
    settled(
        asked.is_some(),
        value,
        Padding {
            top: 12,
            left: 12,
            bottom: 12,
            right: 12,
        },
        OptionName::Padding,
    )
}

#[tactic(auto, unfolding(crate::specs::Reading::is_bad))]
pub(crate) fn routing(options: Option<&Value>) -> Result<bool, BadValue>
    ensures { Reads name.EdgeRouting (given options.entry) (value_or to_routing true name.EdgeRouting (given options.entry)) result }
{
    let asked = asked_of(options, OptionName::EdgeRouting);
    let value = asked.and_then(Value::as_str).and_then(routing_of);
    settled(asked.is_some(), value, true, OptionName::EdgeRouting)
}

#[tactic(auto, unfolding(crate::specs::Reading::is_bad))]
pub(crate) fn index(options: Option<&Value>) -> Result<i64, BadValue>
    ensures { Reads name.PortIndex (given options.entry) (value_or to_index (pos 0) name.PortIndex (given options.entry)) result }
{
    let asked = asked_of(options, OptionName::PortIndex);
    let value = asked.and_then(index_of);
    settled(asked.is_some(), value, 0, OptionName::PortIndex)
}

fn index_of(value: &Value) -> Option<i64>
    ensures { result ≡ to_index (view value.now) }
{
    whole_in(value, -2147483648, 2147483647)
}

fn shortness_of(value: &Value) -> Option<i64>
    ensures { result ≡ to_shortness (view value.now) }
{
    whole_in(value, -2147483648, 1048576)
}

fn distance_of(value: &Value) -> Option<i64>
    ensures { result ≡ to_distance (view value.now) }
{
    whole_in(value, 0, 1048576)
}

// A truth value, or a text that writes one.
fn truth_in(value: &Value) -> Option<bool>
    ensures { result ≡ to_truth (view value.now) }
{
    value.as_bool().or(value.as_str().and_then(truth_of))
}

#[tactic(auto, unfolding(crate::specs::Reading::is_bad))]
pub(crate) fn split(options: Option<&Value>) -> Result<bool, BadValue>
    ensures { Reads name.SeparateParts (given options.entry) (value_or to_truth false name.SeparateParts (given options.entry)) result }
{
    let asked = asked_of(options, OptionName::SeparateParts);
    let value = asked.and_then(truth_in);
    settled(asked.is_some(), value, false, OptionName::SeparateParts)
}

// At least 1.
pub(crate) fn weight_from(shortness: i64) -> u32
    requires { shortness ≤ℤ pos (2 ^ 20) }
    ensures { result ≡ nat_abs (int_max shortness (pos 1)) }
{
    shortness.max(1) as u32
}

#[tactic(auto, unfolding(crate::specs::Reading::is_bad))]
pub(crate) fn shortness(options: Option<&Value>) -> Result<i64, BadValue>
    ensures reads { Reads name.Shortness (given options.entry) (value_or to_shortness (pos 0) name.Shortness (given options.entry)) result }
    ensures small { IfOk result (λ n. n ≤ℤ pos (2 ^ 20)) }
{
    let asked = asked_of(options, OptionName::Shortness);
    let value = asked.and_then(shortness_of);
    settled(asked.is_some(), value, 0, OptionName::Shortness)
}

// A distance that counts, at least 1.
fn distance_in(asked: Option<&Value>, default: i64, option: OptionName) -> Result<i64, BadValue>
    ensures { let d = option_map (λ v. view v.now) asked.entry in MatchResult result
        (λ v. (option_map_or (λ v. not (is_some (to_distance v))) d false ≡ false)
        × (v ≡ int_max (unwrap_or (option_and_then to_distance d) default) (pos 1)))
        (λ e. (e ≡ record { option = option }) × (option_map_or (λ v. not (is_some (to_distance v))) d false ≡ true)) }
{
    let value = asked.and_then(distance_of);
    let distance = settled(asked.is_some(), value, default, option)?;
    Ok(distance.max(1))
}

#[tactic(auto, unfolding(crate::specs::Reading::is_bad))]
pub(crate) fn node_node(options: Option<&Value>) -> Result<i64, BadValue>
    ensures { Reads name.NodeNode (given options.entry) (distance_or 20 name.NodeNode (given options.entry)) result }
{
    distance_in(
        asked_of(options, OptionName::NodeNode),
        20,
        OptionName::NodeNode,
    )
}

#[tactic(auto, unfolding(crate::specs::Reading::is_bad))]
pub(crate) fn edge_node(options: Option<&Value>) -> Result<i64, BadValue>
    ensures { Reads name.EdgeNode (given options.entry) (distance_or 10 name.EdgeNode (given options.entry)) result }
{
    distance_in(
        asked_of(options, OptionName::EdgeNode),
        10,
        OptionName::EdgeNode,
    )
}

#[tactic(auto, unfolding(crate::specs::Reading::is_bad))]
pub(crate) fn edge_edge(options: Option<&Value>) -> Result<i64, BadValue>
    ensures { Reads name.EdgeEdge (given options.entry) (distance_or 10 name.EdgeEdge (given options.entry)) result }
{
    distance_in(
        asked_of(options, OptionName::EdgeEdge),
        10,
        OptionName::EdgeEdge,
    )
}

#[tactic(auto, unfolding(crate::specs::Reading::is_bad))]
pub(crate) fn node_layers(options: Option<&Value>) -> Result<i64, BadValue>
    ensures { Reads name.NodeLayers (given options.entry) (distance_or 20 name.NodeLayers (given options.entry)) result }
{
    distance_in(
        asked_of(options, OptionName::NodeLayers),
        20,
        OptionName::NodeLayers,
    )
}

#[tactic(auto, unfolding(crate::specs::Reading::is_bad))]
pub(crate) fn edge_node_layers(options: Option<&Value>) -> Result<i64, BadValue>
    ensures { Reads name.EdgeNodeLayers (given options.entry) (distance_or 10 name.EdgeNodeLayers (given options.entry)) result }
{
    distance_in(
        asked_of(options, OptionName::EdgeNodeLayers),
        10,
        OptionName::EdgeNodeLayers,
    )
}

#[tactic(auto, unfolding(crate::specs::Reading::is_bad))]
pub(crate) fn edge_edge_layers(options: Option<&Value>) -> Result<i64, BadValue>
    ensures { Reads name.EdgeEdgeLayers (given options.entry) (distance_or 10 name.EdgeEdgeLayers (given options.entry)) result }
{
    distance_in(
        asked_of(options, OptionName::EdgeEdgeLayers),
        10,
        OptionName::EdgeEdgeLayers,
    )
}

#[tactic(auto, unfolding(crate::specs::Reading::is_bad))]
pub(crate) fn component(options: Option<&Value>) -> Result<i64, BadValue>
    ensures { Reads name.ComponentComponent (given options.entry) (distance_or 20 name.ComponentComponent (given options.entry)) result }
{
    distance_in(
        asked_of(options, OptionName::ComponentComponent),
        20,
        OptionName::ComponentComponent,
    )
}

#[tactic(auto, unfolding(crate::specs::Reading::is_bad))]
pub(crate) fn slots(options: Option<&Value>) -> Result<Slotting, BadValue>
    ensures { Reads name.Slots (given options.entry) (value_or to_slots slotting.Fewest name.Slots (given options.entry)) result }
{
    let asked = asked_of(options, OptionName::Slots);
    let value = asked.and_then(Value::as_str).and_then(slots_of);
    settled(asked.is_some(), value, Slotting::Fewest, OptionName::Slots)
}

fn position_from(value: &Value) -> Option<Option<i64>>
    ensures { result ≡ to_position (view value.now) }
{
    whole_in(value, -2147483648, 2147483647).map(Some)
}

#[tactic(auto, unfolding(crate::specs::Reading::is_bad, crate::specs::Reading::position_of))]
pub(crate) fn position(options: Option<&Value>) -> Result<Option<i64>, BadValue>
    ensures { Reads name.Position (given options.entry) (position_of (given options.entry)) result }
{
    let asked = asked_of(options, OptionName::Position);
    let value = asked.and_then(position_from);
    settled(asked.is_some(), value, None, OptionName::Position)
}
