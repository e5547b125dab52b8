//! The search from a node with a surplus to one that asks for more, nearest steps first.

ghost use Rattle.std.specs.Prelude.{◌≡◌, ◌+◌, ◌*◌, ◌≤◌, ◌<◌, ◌^◌, ℕ, pos, ◌≤ℤ◌, ◌<ℤ◌, ◌+ℤ◌, [], ◌∷◌, ◌++◌, length, slice_index, set, IfOk, OnOk};
ghost use Rattle.network_laws.specs.Network.{EndsBelow, edge_at};
ghost use Rattle.network_laws.specs.Layering.{IsLayering, layer_of};
ghost use Rattle.network_laws.specs.Links.{AreLinks};
ghost use Rattle.network_laws.specs.declared.links.End.TheVariants.{Tail, Head};
ghost use Rattle.network_laws.specs.Tight.{given};
ghost use Rattle.flow_dual.specs.State.{marked};
ghost use Rattle.flow_dual.specs.Queue.{waiting, AreInOrder, OffersBoth};
ghost use Rattle.flow_dual.specs.Rounds.{all_least, IsRound, unreached};
ghost use Rattle.flow_dual.specs.Search.{Reaches};
ghost use Rattle.flow_dual.specs.Searching.{IsSearching, IsSearched, TellsExcess, IsCleared, Begins};

use crate::Label;
use crate::marks::{Linked, Marks};
use crate::queue::{Step, Steps, no_steps};
use crate::steps::{next_step, offer};
use network_laws::{End, NetEdge};
use std::alloc::{AllocError, Global};

/// The node that asks for more, and how far the nodes reached first have to be raised for it.
#[derive(Clone, Copy)]
pub struct Found {
    pub to: u32,
    pub now: u64,
}

/// What a node is given more than it asks.
fn surplus_of(excess: i64) -> u64
    requires { pos 0 <ℤ excess }
    ensures value { pos result ≡ excess }
    ensures some { 0 < result }
{
    excess as u64
}

/// Reaches a node over an edge that leads on, and gives the node.
fn reach(e: NetEdge, k: u32, amount: u64, turn: u32, marks: &mut Marks) -> u32
    requires tail { e.tail < length marks.old.reached.items }
    requires head { e.head < length marks.old.reached.items }
    requires labels { length marks.old.labels.items ≡ length marks.old.reached.items }
    ensures reaches { Reaches marks.old.reached.items marks.old.labels.items e k amount turn marks.new.reached.items marks.new.labels.items result }
    ensures dist { marks.new.dist ≡ marks.old.dist }
    ensures order { marks.new.order ≡ marks.old.order }
{
    if marks.reached[e.tail as usize] {
        let room = marks.room_at(e.tail);
        marks.put(
            e.head,
            Label {
                parent: k,
                depth: turn,
                room,
            },
        );
        return e.head;
    }
    let room = marks.room_at(e.head).min(amount);
    marks.put(
        e.tail,
        Label {
            parent: k,
            depth: turn,
            room,
        },
    );
    e.tail
}

/// Reaches the source first.
fn begin(source: u32, room: u64, marks: &mut Marks) -> Result<(), AllocError>
    requires marks { source < length marks.old.reached.items }
    requires labels { source < length marks.old.labels.items }
    requires dist { source < length marks.old.dist.items }
    ensures begins { OnOk result
        (Begins marks.old.reached.items marks.old.labels.items marks.old.dist.items source room marks.new.reached.items
        marks.new.labels.items marks.new.dist.items) }
    ensures order { OnOk result (marks.new.order.items ≡ source ∷ []) }
{
    let label = Label {
        parent: 0,
        depth: 0,
        room,
    };
    marks.put(source, label);
    marks.dist[source as usize] = 0;
    marks.order.clear();
    marks.order.push(source)?;
    Ok(())
}

/// Adds the steps from v over its edges at both ends.
fn offer_both(
    net: &Linked,
    layer: &[i64],
    flow: &[u64],
    marks: &Marks,
    v: u32,
    steps: &mut Steps,
) -> Result<(), AllocError>
    requires few { length net.now.edges.now ≤ 2 ^ 24 }
    requires ends { EndsBelow (length layer.now) net.now.edges.now }
    requires tails { AreLinks (length layer.now) net.now.edges.now Tail net.now.tails.now.first.items net.now.tails.now.next.items }
    requires heads { AreLinks (length layer.now) net.now.edges.now Head net.now.heads.now.first.items net.now.heads.now.next.items }
    requires layering { IsLayering net.now.edges.now layer.now }
    requires from_zero { (v : ℕ) → v < length layer.now → pos 0 ≤ℤ layer_of layer.now v }
    requires flow { length flow.now ≡ length net.now.edges.now }
    requires marks { length marks.now.reached.items ≡ length layer.now }
    requires there { v < length layer.now }
    requires low { pos steps.old.now ≤ℤ (layer_of layer.now v +ℤ pos (2 ^ 62)) }
    requires order { AreInOrder steps.old }
    ensures order { OnOk result (AreInOrder steps.new) }
    ensures now { OnOk result (steps.new.now ≡ steps.old.now) }
    ensures offers { OnOk result
        (OffersBoth net.now.edges.now layer.now flow.now (marked marks.now.reached.items) v steps.old.now (waiting steps.old)
        (waiting steps.new)) }
{
    offer(net, End::Tail, layer, flow, marks, v, steps)?;
    offer(net, End::Head, layer, flow, marks, v, steps)
}

/// Reaches a node by a step, and notes how far off it is.
fn take_step(
    edges: &[NetEdge],
    flow: &[u64],
    step: Step,
    turn: u32,
    marks: &mut Marks,
) -> Result<u32, AllocError>
    requires there { step.edge < length edges.now }
    requires flow { length flow.now ≡ length edges.now }
    requires ends { EndsBelow (length marks.old.reached.items) edges.now }
    requires labels { length marks.old.labels.items ≡ length marks.old.reached.items }
    requires dist { length marks.old.dist.items ≡ length marks.old.reached.items }
    ensures reaches { IfOk result
        (λ v. Reaches marks.old.reached.items marks.old.labels.items (edge_at edges.now step.edge) step.edge
        (slice_index flow.now step.edge) turn marks.new.reached.items marks.new.labels.items v) }
    ensures dist { IfOk result (λ v. marks.new.dist.items ≡ set marks.old.dist.items v step.near.0) }
    ensures order { IfOk result (λ v. marks.new.order.items ≡ marks.old.order.items ++ v ∷ []) }
{
    let k = step.edge as usize;
    let v = reach(edges[k], step.edge, flow[k], turn, marks);
    marks.dist[v as usize] = step.near.0;
    marks.order.push(v)?;
    Ok(v)
}

/// Searches from the source until a node that asks for more is reached.
pub fn search(
    alloc: Global,
    net: &Linked,
    layer: &[i64],
    flow: &[u64],
    excess: &[i64],
    source: u32,
    marks: &mut Marks,
) -> Result<Found, AllocError>
    requires few { length layer.now ≤ 2 ^ 23 }
    requires few_edges { length net.now.edges.now ≤ 2 ^ 24 }
    requires least { all_least net.now.edges.now < 2 ^ 62 }
    requires ends { EndsBelow (length layer.now) net.now.edges.now }
    requires tails { AreLinks (length layer.now) net.now.edges.now Tail net.now.tails.now.first.items net.now.tails.now.next.items }
    requires heads { AreLinks (length layer.now) net.now.edges.now Head net.now.heads.now.first.items net.now.heads.now.next.items }
    requires round { IsRound (length layer.now) net.now.edges.now layer.now flow.now (2 ^ 62) }
    requires excess { length excess.now ≡ length layer.now }
    requires tells { TellsExcess (length layer.now) net.now.edges.now flow.now excess.now }
    requires source { source < length layer.now }
    requires more { pos 0 <ℤ layer_of excess.now source }
    requires cleared { IsCleared (length layer.now) marks.old.reached.items marks.old.labels.items }
    requires dist { length marks.old.dist.items ≡ length layer.now }
    ensures { IfOk result
        (λ f. IsSearched (length layer.now) net.now.edges.now layer.now flow.now source f.to f.now marks.new.reached.items
        marks.new.labels.items marks.new.dist.items marks.new.order.items) }
{
    begin(source, surplus_of(excess[source as usize]), marks)?;
    let mut steps = no_steps(alloc);
    offer_both(net, layer, flow, marks, source, &mut steps)?;
    let mut turn: u32 = 1;
    'turns: loop {
        if let Some(step) = next_step(net.edges, marks, &mut steps) {
            let v = take_step(net.edges, flow, step, turn, marks)?;
            if excess[v as usize] < 0 {
                return Ok(Found {
                    to: v,
                    now: step.near.0,
                });
            }
            offer_both(net, layer, flow, marks, v, &mut steps)?;
            turn += 1;
        } else {
            return Ok(Found {
                to: source,
                now: steps.now,
            });
        }
    }
}
