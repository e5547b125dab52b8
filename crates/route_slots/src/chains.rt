//! The links that leave each node, one after the other.
ghost use Rattle.std.specs.Prelude.{◌<◌, ◌≤◌, length, IfOk};
ghost use Rattle.route_slots.specs.Links.{link_limit};
ghost use Rattle.route_slots.specs.Links.{EndsBelow};
ghost use Rattle.route_slots.specs.Chains.{AreFirsts, AreNexts, Puts};

use crate::Link;
use std::alloc::{AllocError, Global};

/// The first link that leaves each node, and the next behind each link. The number of links stands for none.
#[derive(Drop)]
pub struct Chains {
    pub first: Vec<u32>,
    pub next: Vec<u32>,
}

// Puts a link before the others that leave its tail.
fn put_before(chains: &mut Chains, tail: u32, number: u32)
    requires tail { tail < length chains.old.first.items }
    requires number { number < length chains.old.next.items }
    ensures { Puts chains.old chains.new tail number }
{
    chains.next[number as usize] = chains.first[tail as usize];
    chains.first[tail as usize] = number;
}

/// The links that leave each node, by rising numbers.
pub fn chains_of(alloc: Global, nodes: u32, links: &[Link]) -> Result<Chains, AllocError>
    requires few { length links.now ≤ link_limit }
    requires ends { EndsBelow nodes links.now }
    ensures first { IfOk result (λ chains. AreFirsts nodes links.now 0 chains.first.items) }
    ensures next { IfOk result (λ chains. AreNexts links.now 0 chains.next.items) }
{
    let none = links.len() as u32;
    let mut chains = Chains {
        first: vec![in alloc; none; nodes as usize]?,
        next: vec![in alloc; none; links.len()]?,
    };
    let mut number = none;
    'links: while number > 0 {
        number -= 1;
        put_before(&mut chains, links[number as usize].tail, number);
    }
    Ok(chains)
}
