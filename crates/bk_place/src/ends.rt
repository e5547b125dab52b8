//! The ends of links as a sweep sees them, and their keys.
ghost use Rattle.std.specs.Prelude.{◌≡◌, ◌<◌, ◌^◌, length};
ghost use Rattle.elk_layers.specs.Alignment as spec;
ghost use Rattle.bk_place.specs.Keys as key;

use drawing_types::sweep::Sweep;
use elk_layers::Link;

/// Whether the sweep looks at the links to the layer on the left.
pub(crate) fn goes_left(sweep: Sweep) -> bool
    ensures { result ≡ spec.goes_left sweep }
{
    match sweep {
        Sweep::LeftUp => true,
        Sweep::LeftDown => true,
        Sweep::RightUp => false,
        Sweep::RightDown => false,
    }
}

/// Whether the sweep visits a row from the top.
pub(crate) fn goes_up(sweep: Sweep) -> bool
    ensures { result ≡ spec.goes_up sweep }
{
    match sweep {
        Sweep::LeftUp => true,
        Sweep::LeftDown => false,
        Sweep::RightUp => true,
        Sweep::RightDown => false,
    }
}

/// The visited unit's end of a link.
pub(crate) fn near_end(sweep: Sweep, link: Link) -> u32
    ensures { result ≡ spec.near_end sweep link }
{
    if goes_left(sweep) {
        link.head
    } else {
        link.tail
    }
}

/// The other end.
pub(crate) fn far_end(sweep: Sweep, link: Link) -> u32
    ensures { result ≡ spec.far_end sweep link }
{
    if goes_left(sweep) {
        link.tail
    } else {
        link.head
    }
}

/// The key of a pin: its unit's place in the row, and then the pin's rank.
pub(crate) fn key_at(place: &[u32], unit: u32, rank: u32) -> u128
    requires { unit < length place.now }
    ensures key { result ≡ key.key_at place.now unit rank }
    ensures small { result < 2 ^ 49 }
{
    place[unit as usize] as u128 * 65536 + rank as u128
}

/// The key of a link's far end.
pub(crate) fn far_key(sweep: Sweep, place: &[u32], link: Link) -> u128
    requires tail { link.tail < length place.now }
    requires head { link.head < length place.now }
    ensures key { result ≡ key.far_key_at place.now sweep link }
    ensures small { result < 2 ^ 49 }
{
    if goes_left(sweep) {
        key_at(place, link.tail, link.tail_rank)
    } else {
        key_at(place, link.head, link.head_rank)
    }
}
