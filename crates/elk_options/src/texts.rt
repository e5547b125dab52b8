//! Texts of options.
ghost use Rattle.std.specs.Prelude.{◌≡◌, bytes_eq};
ghost use Rattle.elk_options.specs.Table.{boxes_text, direction_text, rule_text, side_text, routing_text, sweep_text, truth_text, placing_text, slots_text};

use crate::values::is_word;
use drawing_types::shape::Side;
use drawing_types::sweep::Sweep;
use elk_doc::document::{Direction, Placing, PortRule, Slotting};

fn is_text(text: &str, word: &str) -> bool
    ensures { result ≡ bytes_eq text.now word.now }
{
    text == word
}

pub(crate) fn boxes_of(text: &str) -> Option<bool>
    ensures { result ≡ boxes_text text.now }
{
    if is_text(text, "layered")
        || is_text(text, "elk.layered")
        || is_text(text, "org.eclipse.elk.layered")
    {
        Some(false)
    } else if is_text(text, "box")
        || is_text(text, "elk.box")
        || is_text(text, "org.eclipse.elk.box")
    {
        Some(true)
    } else {
        None
    }
}

pub(crate) fn direction_of(text: &str) -> Option<Direction>
    ensures { result ≡ direction_text text.now }
{
    if is_word(text, "UNDEFINED") || is_word(text, "RIGHT") {
        Some(Direction::Right)
    } else if is_word(text, "LEFT") {
        Some(Direction::Left)
    } else if is_word(text, "DOWN") {
        Some(Direction::Down)
    } else if is_word(text, "UP") {
        Some(Direction::Up)
    } else {
        None
    }
}

pub(crate) fn rule_of(text: &str) -> Option<PortRule>
    ensures { result ≡ rule_text text.now }
{
    if is_word(text, "UNDEFINED") || is_word(text, "FREE") {
        Some(PortRule::Free)
    } else if is_word(text, "FIXED_SIDE") {
        Some(PortRule::FixedSide)
    } else if is_word(text, "FIXED_ORDER") {
        Some(PortRule::FixedOrder)
    } else if is_word(text, "FIXED_POS") {
        Some(PortRule::FixedPos)
    } else {
        None
    }
}

pub(crate) fn side_of(text: &str) -> Option<Option<Side>>
    ensures { result ≡ side_text text.now }
{
    if is_word(text, "UNDEFINED") {
        Some(None)
    } else if is_word(text, "NORTH") {
        Some(Some(Side::North))
    } else if is_word(text, "EAST") {
        Some(Some(Side::East))
    } else if is_word(text, "SOUTH") {
        Some(Some(Side::South))
    } else if is_word(text, "WEST") {
        Some(Some(Side::West))
    } else {
        None
    }
}

pub(crate) fn routing_of(text: &str) -> Option<bool>
    ensures { result ≡ routing_text text.now }
{
    if is_word(text, "UNDEFINED") || is_word(text, "ORTHOGONAL") {
        Some(true)
    } else {
        None
    }
}

pub(crate) fn sweep_of(text: &str) -> Option<Option<Sweep>>
    ensures { result ≡ sweep_text text.now }
{
    if is_word(text, "NONE") {
        Some(None)
    } else if is_word(text, "LEFTUP") {
        Some(Some(Sweep::LeftUp))
    } else if is_word(text, "LEFTDOWN") {
        Some(Some(Sweep::LeftDown))
    } else if is_word(text, "RIGHTUP") {
        Some(Some(Sweep::RightUp))
    } else if is_word(text, "RIGHTDOWN") {
        Some(Some(Sweep::RightDown))
    } else {
        None
    }
}

pub(crate) fn truth_of(text: &str) -> Option<bool>
    ensures { result ≡ truth_text text.now }
{
    if is_word(text, "true") {
        Some(true)
    } else if is_word(text, "false") {
        Some(false)
    } else {
        None
    }
}

pub(crate) fn placing_of(text: &str) -> Option<Placing>
    ensures { result ≡ placing_text text.now }
{
    if is_word(text, "NETWORK_SIMPLEX") {
        Some(Placing::NetworkSimplex)
    } else if is_word(text, "BRANDES_KOEPF")
        || is_word(text, "SIMPLE")
        || is_word(text, "LINEAR_SEGMENTS")
        || is_word(text, "INTERACTIVE")
    {
        Some(Placing::BrandesKoepf)
    } else {
        None
    }
}

pub(crate) fn slots_of(text: &str) -> Option<Slotting>
    ensures { result ≡ slots_text text.now }
{
    if is_word(text, "FEWEST") {
        Some(Slotting::Fewest)
    } else if is_word(text, "UNCROSSED") {
        Some(Slotting::Uncrossed)
    } else {
        None
    }
}
