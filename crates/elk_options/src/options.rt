//! The options of an element.
ghost use Rattle.std.specs.Prelude.{◌≡◌, Some, None, MatchResult};
ghost use Rattle.elk_options.specs.Reading.{given, front_names, front_of, spacing_names, spacing_of, back_names, back_of, choice_names, chosen_of, names_of, level_from, usual_options, first_bad, options_of, ReadsAll};

use crate::names::OptionName;
use crate::numbers::numbers;
use crate::readers;
use drawing_types::shape::Side;
use drawing_types::sweep::Sweep;
use elk_doc::document::{Choices, Direction, LevelOptions, Padding, Placing, PortRule, Spacing};
use serde_json::Value;

/// What an element is to its options: a compound node, a leaf, a port or an edge.
#[derive(Clone, Copy, Drop, PartialEq, Eq)]
pub enum Role {
    Level,
    Leaf,
    Port,
    Edge,
}

/// The options of an element: a level's at a compound node, the rule for ports and the position at a node, the asked side and
/// the index at a port, the weight at an edge, and the defaults elsewhere.
#[derive(Clone, Copy, Drop, PartialEq, Eq)]
pub struct Options {
    pub level: Option<LevelOptions>,
    pub rule: PortRule,
    pub position: Option<i64>,
    pub side: Option<Side>,
    pub index: i64,
    pub weight: u32,
}

/// An option whose value is outside its table.
#[derive(Clone, Copy, Drop, PartialEq, Eq)]
pub struct BadValue {
    pub option: OptionName,
}

#[tactic(auto, unfolding(crate::specs::Reading::spacing_names))]
fn spacing(options: Option<&Value>) -> Result<Spacing, BadValue>
    ensures { ReadsAll spacing_names (given options.entry) (spacing_of (given options.entry)) result }
{
    let node_node = readers::node_node(options)?;
    let edge_node = readers::edge_node(options)?;
    let edge_edge = readers::edge_edge(options)?;
    let node_layers = readers::node_layers(options)?;
    let edge_node_layers = readers::edge_node_layers(options)?;
    let edge_edge_layers = readers::edge_edge_layers(options)?;
    Ok(Spacing {
        node_node,
        edge_node,
        edge_edge,
        node_layers,
        edge_node_layers,
        edge_edge_layers,
    })
}

// What a node asks before the distances.
#[derive(Clone, Copy, Drop)]
struct FrontValues {
    boxes: bool,
    direction: Direction,
    rule: PortRule,
    padding: Padding,
}

#[tactic(auto, unfolding(crate::specs::Reading::front_names))]
fn front(options: Option<&Value>) -> Result<FrontValues, BadValue>
    ensures { ReadsAll front_names (given options.entry) (front_of (given options.entry)) result }
{
    let boxes = readers::boxes(options)?;
    let direction = readers::direction(options)?;
    let rule = readers::rule(options)?;
    let _routing = readers::routing(options)?;
    let padding = readers::padding(options)?;
    Ok(FrontValues {
        boxes,
        direction,
        rule,
        padding,
    })
}

// What a level asks between the distances and the choices.
#[derive(Clone, Copy, Drop)]
struct BackValues {
    sweep: Option<Sweep>,
    split: bool,
    component: i64,
    placing: Placing,
}

#[tactic(auto, unfolding(crate::specs::Reading::back_names))]
fn back(options: Option<&Value>) -> Result<BackValues, BadValue>
    ensures { ReadsAll back_names (given options.entry) (back_of (given options.entry)) result }
{
    let sweep = readers::sweep(options)?;
    let split = readers::split(options)?;
    let component = readers::component(options)?;
    let placing = readers::placing(options)?;
    Ok(BackValues {
        sweep,
        split,
        component,
        placing,
    })
}

// The choices of a level, and the position of its node.
#[derive(Clone, Copy, Drop)]
struct ChosenValues {
    choices: Choices,
    position: Option<i64>,
}

#[tactic(auto, unfolding(crate::specs::Reading::choice_names, crate::specs::Reading::choices_of))]
fn chosen(options: Option<&Value>) -> Result<ChosenValues, BadValue>
    ensures { ReadsAll choice_names (given options.entry) (chosen_of (given options.entry)) result }
{
    let slots = readers::slots(options)?;
    let numbers = numbers(options)?;
    let position = readers::position(options)?;
    Ok(ChosenValues {
        choices: Choices { slots, numbers },
        position,
    })
}

// A level of boxes is never split.
fn level_from(
    front: FrontValues,
    spacing: Spacing,
    back: BackValues,
    choices: Choices,
) -> LevelOptions
    ensures { result ≡ level_from front spacing back choices }
{
    LevelOptions {
        direction: front.direction,
        spacing,
        padding: front.padding,
        fixed: back.sweep,
        split: !front.boxes && back.split,
        component: back.component,
        placing: back.placing,
        boxes: front.boxes,
        choices,
    }
}

// What an element has where its role reads nothing.
fn usual_options() -> Options
    ensures { result ≡ usual_options }
{
    Options {
        level: None,
        rule: PortRule::Free,
        position: None,
        side: None,
        index: 0,
        weight: 1,
    }
}

fn level_options(options: Option<&Value>) -> Result<Options, BadValue>
    ensures { ReadsAll (names_of Role.Level) (given options.entry) (options_of Role.Level (given options.entry)) result }
{
    let front = front(options)?;
    let spacing = spacing(options)?;
    let back = back(options)?;
    let chosen = chosen(options)?;
    Ok(Options {
        level: Some(level_from(front, spacing, back, chosen.choices)),
        rule: front.rule,
        position: chosen.position,
        ..usual_options()
    })
}

#[tactic(auto, unfolding(crate::specs::Reading::options_of))]
fn leaf_options(options: Option<&Value>) -> Result<Options, BadValue>
    ensures { ReadsAll (names_of Role.Leaf) (given options.entry) (options_of Role.Leaf (given options.entry)) result }
{
    let rule = readers::rule(options)?;
    let position = readers::position(options)?;
    Ok(Options {
        rule,
        position,
        ..usual_options()
    })
}

#[tactic(auto, unfolding(crate::specs::Reading::options_of))]
fn port_options(options: Option<&Value>) -> Result<Options, BadValue>
    ensures { ReadsAll (names_of Role.Port) (given options.entry) (options_of Role.Port (given options.entry)) result }
{
    let side = readers::side(options)?;
    let index = readers::index(options)?;
    Ok(Options {
        side,
        index,
        ..usual_options()
    })
}

#[tactic(auto, unfolding(crate::specs::Reading::options_of, crate::specs::Reading::weight_of))]
fn edge_options(options: Option<&Value>) -> Result<Options, BadValue>
    ensures { ReadsAll (names_of Role.Edge) (given options.entry) (options_of Role.Edge (given options.entry)) result }
{
    let shortness = readers::shortness(options)?;
    Ok(Options {
        weight: readers::weight_from(shortness),
        ..usual_options()
    })
}

/// The options of an element in its role; no options are those of an empty object. Each option is looked up under its full
/// name, its name from `elk.` on and its short name, and the longest that is there counts. It fails where an option that is
/// read in the role has a value outside its table, and names the first in the order of `OptionName`. Distances are
/// effective, at least 1, in document units; a level of boxes is never split.
///
/// Proved:
/// - Options are read by their table; the longest spelling counts. The engine's own options are among them: slots, position and the choices in the table of level_choices.
/// - The first option whose value is not in the table is named.
#[tactic(auto, unfolding(crate::specs::Reading::first_bad))]
pub fn read_options(options: Option<&Value>, role: Role) -> Result<Options, BadValue>
    ensures { MatchResult result
        (λ o. (first_bad role (given options.entry) ≡ None) × (o ≡ options_of role (given options.entry)))
        (λ e. first_bad role (given options.entry) ≡ Some e.option) }
{
    match role {
        Role::Level => level_options(options),
        Role::Leaf => leaf_options(options),
        Role::Port => port_options(options),
        Role::Edge => edge_options(options),
    }
}
