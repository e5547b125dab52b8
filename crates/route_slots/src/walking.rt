//! A search in depth through a graph, link by link.
ghost use Rattle.std.specs.Prelude.{◌≡◌, ◌<◌, ◌≤◌, ◌+◌, ◌^◌, [], length, OnOk};
ghost use Rattle.route_slots.specs.Links.{link_limit};
ghost use Rattle.route_slots.specs.Links.{EndsBelow, number_at};
ghost use Rattle.route_slots.specs.Chains.{AreNexts};
ghost use Rattle.route_slots.specs.Walks.{IsWalk, IsTop, Enters, Leaves, CutsLink, Sinks, KeepsDone, to_do, place_in};
ghost use Rattle.route_slots.specs.declared.walking.Place.TheVariants.{New, Open, Done};

use crate::Link;
use std::alloc::AllocError;

/// How far the search is with a node: not there yet, on the way by which it came, or done with it.
#[derive(Clone, Copy)]
pub enum Place {
    New,
    Open,
    Done,
}

/// The search: the next link of each node, the places and depths of nodes, which links are cut, and the nodes on the way.
#[derive(Drop)]
pub struct Walk {
    pub ahead: Vec<u32>,
    pub places: Vec<Place>,
    pub depths: Vec<u32>,
    pub cut: Vec<bool>,
    pub way: Vec<u32>,
}

// Goes on to a node.
fn enter(walk: &mut Walk, node: u32) -> Result<(), AllocError>
    requires { node < length walk.old.places.items }
    ensures { OnOk result (Enters walk.old walk.new node) }
{
    walk.way.push(node)?;
    walk.places[node as usize] = Place::Open;
    Ok(())
}

// Leaves the last node on the way.
fn leave(walk: &mut Walk, node: u32)
    requires { node < length walk.old.places.items }
    ensures { Leaves walk.old walk.new node }
{
    let _last = walk.way.pop();
    walk.places[node as usize] = Place::Done;
}

// Cuts a node's next link, and goes on to the one after.
fn cut_link(walk: &mut Walk, node: u32, number: u32, after: u32)
    requires node { node < length walk.old.ahead.items }
    requires number { number < length walk.old.cut.items }
    ensures { CutsLink walk.old walk.new node number after }
{
    walk.cut[number as usize] = true;
    walk.ahead[node as usize] = after;
}

// Keeps a node above another, and goes on to the link after.
fn sink(walk: &mut Walk, node: u32, head: u32, after: u32)
    requires at { node < length walk.old.ahead.items }
    requires depth { node < length walk.old.depths.items }
    requires head { head < length walk.old.depths.items }
    requires small { number_at walk.old.depths.items head + 1 < 2 ^ 32 }
    ensures { Sinks walk.old walk.new node head after }
{
    let depth = walk.depths[node as usize].max(walk.depths[head as usize] + 1);
    walk.depths[node as usize] = depth;
    walk.ahead[node as usize] = after;
}

// Looks at the next link of the last node on the way.
fn look(
    walk: &mut Walk,
    links: &[Link],
    next: &[u32],
    node: u32,
    number: u32,
) -> Result<(), AllocError>
    requires nodes { length walk.old.ahead.items < 2 ^ 32 }
    requires ends { EndsBelow (length walk.old.ahead.items) links.now }
    requires next { AreNexts links.now 0 next.now }
    requires walk { IsWalk links.now walk.old }
    requires top { IsTop walk.old.way.items node }
    requires at { number_at walk.old.ahead.items node ≡ number }
    requires number { number < length links.now }
    ensures walk { OnOk result (IsWalk links.now walk.new) }
    ensures done { OnOk result (KeepsDone walk.old walk.new) }
    ensures less { OnOk result (to_do links.now walk.new < to_do links.now walk.old) }
{
    let head = links[number as usize].head;
    let after = next[number as usize];
    match walk.places[head as usize] {
        Place::New => enter(walk, head)?,
        Place::Open => cut_link(walk, node, number, after),
        Place::Done => sink(walk, node, head, after),
    }
    Ok(())
}

// Looks at the next link of the last node on the way, or leaves it where there is none.
fn go_on(walk: &mut Walk, links: &[Link], next: &[u32]) -> Result<(), AllocError>
    requires nodes { length walk.old.ahead.items < 2 ^ 32 }
    requires few { length links.now ≤ link_limit }
    requires ends { EndsBelow (length walk.old.ahead.items) links.now }
    requires next { AreNexts links.now 0 next.now }
    requires walk { IsWalk links.now walk.old }
    requires some { 0 < length walk.old.way.items }
    ensures walk { OnOk result (IsWalk links.now walk.new) }
    ensures done { OnOk result (KeepsDone walk.old walk.new) }
    ensures less { OnOk result (to_do links.now walk.new < to_do links.now walk.old) }
{
    let node = walk.way[walk.way.len() - 1];
    let number = walk.ahead[node as usize];
    if number as usize >= links.len() {
        leave(walk, node);
        return Ok(());
    }
    look(walk, links, next, node, number)
}

/// Goes through all that is reached from a new node.
pub fn go_through(
    walk: &mut Walk,
    links: &[Link],
    next: &[u32],
    root: u32,
) -> Result<(), AllocError>
    requires nodes { length walk.old.ahead.items < 2 ^ 32 }
    requires few { length links.now ≤ link_limit }
    requires ends { EndsBelow (length walk.old.ahead.items) links.now }
    requires next { AreNexts links.now 0 next.now }
    requires walk { IsWalk links.now walk.old }
    requires none { walk.old.way.items ≡ [] }
    requires root { root < length walk.old.ahead.items }
    requires is_new { place_in walk.old.places.items root ≡ New }
    ensures walk { OnOk result (IsWalk links.now walk.new) }
    ensures none { OnOk result (walk.new.way.items ≡ []) }
    ensures done { OnOk result (KeepsDone walk.old walk.new) }
    ensures root { OnOk result (place_in walk.new.places.items root ≡ Done) }
{
    enter(walk, root)?;
    'walk: while !walk.way.is_empty() {
        go_on(walk, links, next)?;
    }
    Ok(())
}
