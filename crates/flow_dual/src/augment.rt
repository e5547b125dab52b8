//! Augmentations: a search, the push along the way that it found, and the raise of what it reached, until no node has
//! a surplus.

ghost use Rattle.std.specs.Prelude.{◌≡◌, ◌≢◌, ◌+◌, ◌≤◌, ◌<◌, ◌^◌, ℕ, pos, ◌≤ℤ◌, ◌<ℤ◌, ◌+ℤ◌, length, OnOk, slice_index};
ghost use Rattle.network_laws.specs.Network.{EndsBelow};
ghost use Rattle.network_laws.specs.Layering.{layer_of};
ghost use Rattle.network_laws.specs.Links.{AreLinks};
ghost use Rattle.network_laws.specs.declared.links.End.TheVariants.{Tail, Head};
ghost use Rattle.flow_dual.specs.Rounds.{all_least};
ghost use Rattle.flow_dual.specs.Searching.{IsBetween};
ghost use Rattle.flow_dual.specs.Augmented.{MovesExcess, IsAugmented, IsDrained, IsDraining, AreDrained};

use crate::marks::{Linked, Marks};
use crate::push;
use crate::settle::settle;
use crate::sources::sources_of;
use crate::turns::search;
use std::alloc::{AllocError, Global};

/// What a node asks for more than it is given.
fn lack_of(excess: i64) -> u64
    requires lacks { excess <ℤ pos 0 }
    ensures value { pos result +ℤ excess ≡ pos 0 }
    ensures some { 0 < result }
{
    excess.unsigned_abs()
}

fn lessened(excess: i64, by: u64) -> i64
    requires { pos by ≤ℤ excess }
    ensures { result +ℤ pos by ≡ excess }
{
    excess - by as i64
}

fn increased(excess: i64, by: u64) -> i64
    requires small { by < 2 ^ 63 }
    requires fits { (excess +ℤ pos by) ≤ℤ pos 0 }
    ensures { result ≡ excess +ℤ pos by }
{
    excess + by as i64
}

/// Moves the amount from one node's excess to another's.
fn move_excess(excess: &mut [i64], source: u32, to: u32, amount: u64)
    requires source { source < length excess.old }
    requires to { to < length excess.old }
    requires other { source ≢ to }
    requires enough { pos amount ≤ℤ layer_of excess.old source }
    requires lacks { layer_of excess.old to <ℤ pos 0 }
    requires fits { (layer_of excess.old to +ℤ pos amount) ≤ℤ pos 0 }
    ensures { MovesExcess excess.old source to amount excess.new }
{
    excess[source as usize] = lessened(excess[source as usize], amount);
    excess[to as usize] = increased(excess[to as usize], amount);
}

/// Moves as much surplus as it can from the source over one way.
fn augment(
    alloc: Global,
    net: &Linked,
    source: u32,
    layer: &mut [i64],
    flow: &mut [u64],
    excess: &mut [i64],
    marks: &mut Marks,
) -> Result<(), AllocError>
    requires few { length layer.old ≤ 2 ^ 23 }
    requires few_edges { length net.now.edges.now ≤ 2 ^ 24 }
    requires least { all_least net.now.edges.now < 2 ^ 62 }
    requires ends { EndsBelow (length layer.old) net.now.edges.now }
    requires tails { AreLinks (length layer.old) net.now.edges.now Tail net.now.tails.now.first.items net.now.tails.now.next.items }
    requires heads { AreLinks (length layer.old) net.now.edges.now Head net.now.heads.now.first.items net.now.heads.now.next.items }
    requires between { IsBetween (length layer.old) net.now.edges.now layer.old flow.old excess.old marks.old.reached.items
        marks.old.labels.items marks.old.dist.items }
    requires source { source < length layer.old }
    requires more { pos 0 <ℤ layer_of excess.old source }
    ensures { OnOk result
        (IsAugmented (length layer.old) net.now.edges.now source excess.old layer.new flow.new excess.new
        marks.new.reached.items marks.new.labels.items marks.new.dist.items) }
{
    let room = excess[source as usize] as u64;
    let found = search(alloc, net, layer, flow, excess, source, marks)?;
    let lack = lack_of(excess[found.to as usize]);
    let amount = room.min(marks.room_at(found.to)).min(lack);
    push(net.edges, &marks.labels, flow, found.to, amount);
    move_excess(excess, source, found.to, amount);
    settle(
        &marks.order,
        found.now,
        &marks.dist,
        layer,
        &mut marks.reached,
        &mut marks.labels,
    );
    Ok(())
}

/// Augments until the node has no surplus.
fn drain(
    alloc: Global,
    net: &Linked,
    source: u32,
    layer: &mut [i64],
    flow: &mut [u64],
    excess: &mut [i64],
    marks: &mut Marks,
) -> Result<(), AllocError>
    requires few { length layer.old ≤ 2 ^ 23 }
    requires few_edges { length net.now.edges.now ≤ 2 ^ 24 }
    requires least { all_least net.now.edges.now < 2 ^ 62 }
    requires ends { EndsBelow (length layer.old) net.now.edges.now }
    requires tails { AreLinks (length layer.old) net.now.edges.now Tail net.now.tails.now.first.items net.now.tails.now.next.items }
    requires heads { AreLinks (length layer.old) net.now.edges.now Head net.now.heads.now.first.items net.now.heads.now.next.items }
    requires between { IsBetween (length layer.old) net.now.edges.now layer.old flow.old excess.old marks.old.reached.items
        marks.old.labels.items marks.old.dist.items }
    requires source { source < length layer.old }
    ensures { OnOk result
        (IsDrained (length layer.old) net.now.edges.now source excess.old layer.new flow.new excess.new
        marks.new.reached.items marks.new.labels.items marks.new.dist.items) }
{
    while excess[source as usize] > 0 {
        augment(alloc, net, source, layer, flow, excess, marks)?;
    }
    Ok(())
}

/// Drains one node after another, those in the greatest layers first: fewer nodes stand in the way of these, so that
/// searches end sooner. A surplus never comes back, so no node is looked at again.
pub fn drain_all(
    alloc: Global,
    net: &Linked,
    layer: &mut [i64],
    flow: &mut [u64],
    excess: &mut [i64],
    marks: &mut Marks,
) -> Result<(), AllocError>
    requires few { length layer.old ≤ 2 ^ 23 }
    requires few_edges { length net.now.edges.now ≤ 2 ^ 24 }
    requires least { all_least net.now.edges.now < 2 ^ 62 }
    requires ends { EndsBelow (length layer.old) net.now.edges.now }
    requires tails { AreLinks (length layer.old) net.now.edges.now Tail net.now.tails.now.first.items net.now.tails.now.next.items }
    requires heads { AreLinks (length layer.old) net.now.edges.now Head net.now.heads.now.first.items net.now.heads.now.next.items }
    requires between { IsBetween (length layer.old) net.now.edges.now layer.old flow.old excess.old marks.old.reached.items
        marks.old.labels.items marks.old.dist.items }
    ensures { OnOk result
        (AreDrained (length layer.old) net.now.edges.now layer.new flow.new excess.new marks.new.reached.items
        marks.new.labels.items marks.new.dist.items) }
{
    let mut sources = sources_of(alloc, layer, excess)?;
    'sources: while let Some(source) = sources.pop() {
        drain(alloc, net, source.node, layer, flow, excess, marks)?;
    }
    Ok(())
}
