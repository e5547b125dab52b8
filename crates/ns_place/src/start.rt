//! The layers from which the network is solved: the tops of an alignment, in which most links are horizontal.

ghost use Rattle.std.specs.Prelude.{◌≡◌, ℕ, ◌<◌, ◌≤◌, ◌^◌, ◌++◌, pos, ◌+ℤ◌, ◌-ℤ◌, ◌≤ℤ◌, map, length, IfOk};
ghost use Rattle.std.specs.Int.{int_min};
ghost use Rattle.std.specs.List.{All};
ghost use Rattle.elk_layers.specs.Layered.{plain, rows_of, IsSound, AreRows, IsFromZero};
ghost use Rattle.ns_place.specs.Heights.{IsNearLink};
ghost use Rattle.ns_place.specs.Start.{lowered, completed, AreStartTops, AreFirst};
ghost use Rattle.ns_place.specs.Start as start;

use bk_place::place;
use drawing_types::sweep::Sweep;
use elk_layers::{Layered, Link, Order};
use std::alloc::{AllocError, Global};

/// How far the tops are lowered, so that there is room above them for the links' own nodes.
const DEEP: i64 = 1 << 57;

fn lower(top: i64) -> i64
    requires low { pos 0 ≤ℤ top }
    requires high { top ≤ℤ pos (2 ^ 57) }
    ensures { result ≡ lowered top }
{
    top + DEEP
}

/// The tops, lowered.
fn lower_all(alloc: Global, top: &[i64]) -> Result<Vec<i64>, AllocError>
    requires { All (λ t. IsFromZero t (pos (2 ^ 57))) top.now }
    ensures { IfOk result (λ v. v.items ≡ map lowered top.now) }
{
    let mut low = Vec::with_capacity(alloc, top.len())?;
    for t in top {
        low.push(lower(*t))?;
    }
    Ok(low)
}

/// The lesser of two heights.
fn higher(a: i64, b: i64) -> i64
    ensures { result ≡ int_min a b }
{
    if a < b { a } else { b }
}

/// Where a link's own node may stand at most.
fn joint_layer(top: &[i64], link: Link) -> i64
    requires { IsNearLink top.now link }
    ensures { result ≡ start.joint_layer top.now link }
{
    higher(
        top[link.tail as usize] + link.tail_at,
        top[link.head as usize] + link.head_at,
    ) - (link.tail_at + link.head_at)
}

/// Adds the layers of the links' own nodes.
fn push_joint_layers(top: &[i64], links: &[Link], all: &mut Vec<i64>) -> Result<(), AllocError>
    requires near { All (IsNearLink top.now) links.now }
    ensures { IfOk result (λ _. all.new.items ≡ all.old.items ++ map (start.joint_layer top.now) links.now) }
{
    for link in links {
        all.push(joint_layer(top, *link))?;
    }
    Ok(())
}

/// The layers of the units at these tops, of the links' own nodes and of the node that nothing holds.
pub(crate) fn layers_at(
    alloc: Global,
    layered: &Layered,
    top: &[i64],
) -> Result<Vec<i64>, AllocError>
    requires sound { IsSound (plain layered.now) }
    requires tops { AreStartTops (plain layered.now) top.now }
    ensures { IfOk result (λ v. v.items ≡ completed (map lowered top.now) (plain layered.now).links) }
{
    let low = lower_all(alloc, top)?;
    let mut layers = Vec::from_slice(alloc, low.as_slice())?;
    push_joint_layers(low.as_slice(), layered.links.as_slice(), &mut layers)?;
    layers.push(0)?;
    Ok(layers)
}

/// The layers at the tops of the first sweep.
pub(crate) fn first_layers(
    alloc: Global,
    layered: &Layered,
    order: &Order,
) -> Result<Vec<i64>, AllocError>
    requires sound { IsSound (plain layered.now) }
    requires rows { AreRows (plain layered.now) (rows_of order.now) }
    ensures { IfOk result (λ v. AreFirst (plain layered.now) (rows_of order.now) v.items) }
{
    let lines = place(alloc, layered, order, Some(Sweep::LeftUp))?;
    layers_at(alloc, layered, lines.top.as_slice())
}
