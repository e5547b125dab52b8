//! The table of choices, and what the phases ask of it.
ghost use Rattle.std.specs.Prelude.{◌≡◌, ◌≤◌, length};
ghost use Rattle.level_choices.specs.Choices.{IsReadAsWritten, all_choices, effort_of, elk_name, form_of, full_name, number_of, order_from, order_of, short_name, shown, straightness_of, usual};

use elk_doc::document::Choices;

/// What a level chooses among good drawings, in the order in which a bad option is named.
#[derive(Clone, Copy, Debug, Drop, PartialEq, Eq)]
pub enum Choice {
    Effort,
    Order,
    Straightness,
}

/// The values of a choice: one of some words, in any case of ASCII letters, each with the number for which it stands, or a whole
/// number within bounds.
#[derive(Clone, Copy)]
pub enum Form {
    Words(&'static [(&'static str, u32)]),
    Whole { low: u32, high: u32 },
}

// A row of the table: the name of a choice after a prefix, and its values.
#[derive(Clone, Copy)]
struct Row {
    name: &'static str,
    form: Form,
}

// The table. It is a macro, so that each name is written once for all prefixes.
macro_rules! row_of {
    ($prefix:literal, $choice:ident) => {
        match $choice {
            Choice::Effort => Row {
                name: concat!($prefix, "layered.effort"),
                form: Form::Whole { low: 1, high: 1000 },
            },
            Choice::Order => Row {
                name: concat!($prefix, "layered.order"),
                form: Form::Words(&[("SWEPT", 0), ("DOCUMENT", 1), ("KEPT", 2)]),
            },
            Choice::Straightness => Row {
                name: concat!($prefix, "layered.straightness"),
                form: Form::Whole { low: 1, high: 64 },
            },
        }
    };
}

/// All choices, in the order of the table. The numbers of a level's choices stand in it too.
pub fn all_choices() -> &'static [Choice]
    ensures all { result.now ≡ all_choices }
    ensures few { length result.now ≤ 8 }
{
    &[Choice::Effort, Choice::Order, Choice::Straightness]
}

/// The longest name of a choice.
pub fn full_name(choice: Choice) -> &'static str
    ensures { result.now ≡ full_name choice }
{
    row_of!("org.eclipse.elk.", choice).name
}

/// The name of a choice from `elk.` on.
pub fn elk_name(choice: Choice) -> &'static str
    ensures { result.now ≡ elk_name choice }
{
    row_of!("elk.", choice).name
}

/// The shortest name of a choice.
pub fn short_name(choice: Choice) -> &'static str
    ensures { result.now ≡ short_name choice }
{
    row_of!("", choice).name
}

/// The values of a choice.
pub fn form_of(choice: Choice) -> Form
    ensures { shown result ≡ form_of choice }
{
    row_of!("", choice).form
}

/// The number of a choice at a level, where 0 stands for what is usual.
///
/// Proved:
/// - The number of each choice of a level is read as it was written.
pub fn number_of(choice: Choice, choices: &Choices) -> u32
    ensures is { result ≡ number_of choice choices.now }
    ensures written { IsReadAsWritten choice }
{
    choices.numbers[choice as usize]
}

// A number, or what is usual for 0.
fn usual(number: u32, otherwise: u32) -> u32
    ensures { result ≡ usual number otherwise }
{
    if number == 0 { otherwise } else { number }
}

/// The factor on the work of the search for orders, from 1 on.
pub fn effort_of(choices: &Choices) -> u32
    ensures { result ≡ effort_of choices.now }
{
    usual(number_of(Choice::Effort, choices), 7)
}

/// In which order the children of a layer stand: in one that a search for few crossings found, in that of the document, or those
/// that have a position in the order of their positions.
#[derive(Clone, Copy, PartialEq, Eq, Debug)]
pub enum RowOrder {
    Swept,
    Document,
    Kept,
}

fn order_from(number: u32) -> RowOrder
    ensures { result ≡ order_from number }
{
    match number {
        1 => RowOrder::Document,
        2 => RowOrder::Kept,
        _ => RowOrder::Swept,
    }
}

/// The order of the children of a layer.
pub fn order_of(choices: &Choices) -> RowOrder
    ensures { result ≡ order_of choices.now }
{
    order_from(number_of(Choice::Order, choices))
}

/// The weight of links that alignment keeps straight, where links are placed least high together, from 1 on.
pub fn straightness_of(choices: &Choices) -> u32
    ensures { result ≡ straightness_of choices.now }
{
    usual(number_of(Choice::Straightness, choices), 1)
}
