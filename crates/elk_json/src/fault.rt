//! Why a document was not read.
ghost use Rattle.std.specs.Prelude.{◌≡◌};
ghost use Rattle.elk_json.specs.Refused.{rule_name as name_spec, rule_number as number_spec};

use elk_doc::document::Id;
use std::alloc::AllocError;

/// The rules that refuse a document, in the order of their numbers.
#[derive(Clone, Copy, PartialEq, Eq, Debug)]
pub enum Rule {
    NotJson,
    NotWhole,
    BadShape,
    OutOfRange,
    TooMany,
    TooDeep,
    DoubleId,
    UnknownEnd,
    Hyperedge,
    CrossLevel,
    OptionValue,
    PortInside,
    NotPlaced,
}

/// The number of a rule, from 1.
///
/// Proved:
/// - Rules have the defined numbers and names. (`rule_name`)
pub fn rule_number(rule: Rule) -> u32
    ensures { result ≡ number_spec rule }
{
    match rule {
        Rule::NotJson => 1,
        Rule::NotWhole => 2,
        Rule::BadShape => 3,
        Rule::OutOfRange => 4,
        Rule::TooMany => 5,
        Rule::TooDeep => 6,
        Rule::DoubleId => 7,
        Rule::UnknownEnd => 8,
        Rule::Hyperedge => 9,
        Rule::CrossLevel => 10,
        Rule::OptionValue => 11,
        Rule::PortInside => 12,
        Rule::NotPlaced => 13,
    }
}

/// The name of a rule.
pub fn rule_name(rule: Rule) -> &'static str
    ensures { result.now ≡ name_spec rule }
{
    match rule {
        Rule::NotJson => "NotJson",
        Rule::NotWhole => "NotWhole",
        Rule::BadShape => "BadShape",
        Rule::OutOfRange => "OutOfRange",
        Rule::TooMany => "TooMany",
        Rule::TooDeep => "TooDeep",
        Rule::DoubleId => "DoubleId",
        Rule::UnknownEnd => "UnknownEnd",
        Rule::Hyperedge => "Hyperedge",
        Rule::CrossLevel => "CrossLevel",
        Rule::OptionValue => "OptionValue",
        Rule::PortInside => "PortInside",
        Rule::NotPlaced => "NotPlaced",
    }
}

/// A rule that refuses a document, and the id of the first element at which it holds, if that has one.
#[derive(Drop)]
pub struct Refusal {
    pub rule: Rule,
    pub place: Option<Id>,
}

/// A document is refused, or memory ran out.
#[derive(Drop)]
pub enum DocFault {
    Refused(Refusal),
    Memory,
}

impl From<AllocError> for DocFault {
    ghost use Rattle.std.specs.Prelude.{◌≡◌};
    ghost use Rattle.elk_json.specs.declared.fault.DocFault.TheVariants.{Memory};

    ghost from_gives = { λ _ e. e ≡ Memory };

    fn from(_refused: AllocError) -> DocFault {
        DocFault::Memory
    }
}
