//! The links of each unit to one side.
ghost use Rattle.std.specs.Prelude.{◌≡◌, ℕ, ◌<◌, ◌++◌, ◌∷◌, [], length, slice_set, IfOk, OnOk};
ghost use Rattle.std.specs.List.{All};
ghost use Rattle.cross_reduce.specs.Fans as spec;
ghost use Rattle.cross_reduce.specs.Fans.{AreFans, fan_lists, fan_at};

use elk_layers::Link;
use smallvec::SmallVec;
use std::alloc::{AllocError, Global};

/// The side to which links are looked at.
#[derive(Clone, Copy)]
pub(crate) enum Towards {
    Left,
    Right,
}

/// The far end of a link: a unit, and the rank of the link's pin there.
#[derive(Clone, Copy, Default)]
pub(crate) struct Far {
    pub(crate) unit: u32,
    pub(crate) rank: u32,
}

/// For each unit the far ends of its links to a side.
///
/// Most units are lanes of long edges, which have one link to each side, so two far ends are kept in place.
#[derive(Drop)]
pub(crate) struct Fans {
    pub(crate) lists: Vec<SmallVec<Far, 2>>,
}

impl Fans {
    /// The far ends of a unit's links.
    pub(crate) fn at(&self, unit: u32) -> &[Far]
        requires { unit < length (fan_lists self.now) }
        ensures { result.now ≡ fan_at (fan_lists self.now) unit }
    {
        self.lists[unit as usize].as_slice()
    }
}

/// The end from which a link leads to this side.
fn near_unit(towards: Towards, link: Link) -> u32
    ensures { result ≡ spec.near_unit towards link }
{
    match towards {
        Towards::Left => link.head,
        Towards::Right => link.tail,
    }
}

/// The end to which a link leads on this side.
fn far_end(towards: Towards, link: Link) -> Far
    ensures { result ≡ spec.far_end towards link }
{
    match towards {
        Towards::Left => Far {
            unit: link.tail,
            rank: link.tail_rank,
        },
        Towards::Right => Far {
            unit: link.head,
            rank: link.head_rank,
        },
    }
}

/// For each unit no far ends yet.
fn empty_fans(alloc: Global, count: usize) -> Result<Fans, AllocError>
    ensures as_many { IfOk result (λ fans. length (fan_lists fans) ≡ count) }
    ensures empty { IfOk result (λ fans. (u : ℕ) → fan_at (fan_lists fans) u ≡ []) }
{
    let mut lists: Vec<SmallVec<Far, 2>> = Vec::with_capacity(alloc, count)?;
    for _ in 0..count {
        lists.push(SmallVec::new(alloc))?;
    }
    Ok(Fans { lists })
}

/// Adds a far end to those of a unit.
fn add_far(fans: &mut Fans, unit: u32, far: Far) -> Result<(), AllocError>
    requires { unit < length (fan_lists fans.old) }
    ensures { OnOk result (fan_lists fans.new ≡ slice_set (fan_lists fans.old) unit (fan_at (fan_lists fans.old) unit ++ far ∷ [])) }
{
    fans.lists[unit as usize].push(far)?;
    Ok(())
}

/// For each unit the far ends of its links to a side.
pub(crate) fn fans_towards(
    alloc: Global,
    towards: Towards,
    links: &[Link],
    count: usize,
) -> Result<Fans, AllocError>
    requires { All (λ l. spec.near_unit towards l < count) links.now }
    ensures { IfOk result (λ fans. AreFans towards links.now count (fan_lists fans)) }
{
    let mut fans = empty_fans(alloc, count)?;
    for link in links {
        add_far(
            &mut fans,
            near_unit(towards, *link),
            far_end(towards, *link),
        )?;
    }
    Ok(fans)
}
