//! The links of an edge, one after the other.
ghost use Rattle.std.specs.Prelude.{◌≡◌, ◌<◌, cond, length, slice_set, IfOk};
ghost use Rattle.elk_layers.specs.Layered.{is_child, link_at, unit_at};
ghost use Rattle.level_nets.specs.Reach.{IsSheet, parts_in};
ghost use Rattle.level_draw.specs.Chains.{AreNext, AreSingle, HaveRoom, leaves_child};

use level_nets::sheet::{Sheet, link_at, unit_at};
use std::alloc::{AllocError, Global};

/// By edge, the link that leaves the child of its tail; by unit, the link that leaves a lane of a long edge.
#[derive(Drop)]
pub(crate) struct Next {
    pub(crate) firsts: Vec<u32>,
    pub(crate) outs: Vec<u32>,
}

// Whether a link leaves the unit of a child.
fn leaves(sheet: &Sheet<'_>, number: u32) -> bool
    requires sheet { IsSheet sheet.now }
    requires link { number < length sheet.now.layered.now.links.items }
    ensures { result ≡ leaves_child (parts_in sheet.now) number }
{
    unit_at(sheet, link_at(sheet, number).tail).child.is_some()
}

// Notes a link for its edge or for the lane that it leaves.
fn note_link(next: &mut Next, sheet: &Sheet<'_>, number: u32)
    requires sheet { IsSheet sheet.now }
    requires link { number < length sheet.now.layered.now.links.items }
    requires single { AreSingle (parts_in sheet.now) }
    requires room { HaveRoom (parts_in sheet.now) next.old.firsts.items next.old.outs.items }
    ensures firsts { next.new.firsts.items
        ≡ cond (leaves_child (parts_in sheet.now) number)
        (slice_set next.old.firsts.items (link_at (parts_in sheet.now).layered.links number).edge number)
        next.old.firsts.items }
    ensures outs { next.new.outs.items
        ≡ cond (leaves_child (parts_in sheet.now) number) next.old.outs.items
        (slice_set next.old.outs.items (link_at (parts_in sheet.now).layered.links number).tail number) }
{
    let link = link_at(sheet, number);
    if leaves(sheet, number) {
        next.firsts[link.edge as usize] = number;
    } else {
        next.outs[link.tail as usize] = number;
    }
}

/// The links by what they leave.
pub(crate) fn next_links(alloc: Global, sheet: &Sheet<'_>) -> Result<Next, AllocError>
    requires sheet { IsSheet sheet.now }
    requires single { AreSingle (parts_in sheet.now) }
    ensures { IfOk result (λ v. AreNext (parts_in sheet.now) (length sheet.now.layered.now.links.items) v.firsts.items v.outs.items) }
{
    let mut next = Next {
        firsts: vec![in alloc; 0; sheet.level.edges.len()]?,
        outs: vec![in alloc; 0; sheet.layered.units.len()]?,
    };
    for number in 0..sheet.layered.links.len() {
        note_link(&mut next, sheet, number as u32);
    }
    Ok(next)
}
