//! Children of a level that keep their distances.
ghost use Rattle.std.specs.Prelude.{◌<◌, ℕ, IfOk, IsTrue, MatchOption};
ghost use Rattle.elk_doc.specs.Apart.{Apart};
ghost use Rattle.elk_doc.specs.Sound.{IsSound};
ghost use Rattle.layout_check.specs.FirstApart.{FirstApart, FirstPair, LayersHold, PartsHold};
ghost use Rattle.layout_check.specs.Levels.{AreNumbered, IsReadLevel, at_level, doc_of};
ghost use Rattle.layout_check.specs.Names.{AreNames};

use crate::Place;
use crate::beyond::part_fault;
use crate::box_bounds::quickly_apart;
use crate::fault::Fault;
use crate::framed::quickly_spaced;
use crate::level::Level;
use crate::names::part_names;
use crate::pairs::{box_fault, near_fault};
use crate::parts::first_part;
use std::alloc::{AllocError, Global};

// The first two children of one part that are too near, if they are not known to keep their distances.
fn near_fault_unless(level: &Level<'_>, spaced: bool) -> Option<Fault>
    requires level { IsReadLevel level.now }
    requires spaced { IsTrue spaced → (a b : ℕ) → at_level LayersHold level.now a b }
    ensures { MatchOption result
        ((a b : ℕ) → at_level LayersHold level.now a b)
        (FirstPair (at_level LayersHold level.now)) }
{
    if spaced {
        return None;
    }
    near_fault(level)
}

// The least children of the first two parts that are too near, if the parts are not known to be apart.
fn part_fault_unless(level: &Level<'_>, names: &[u32], apart: bool) -> Option<Fault>
    requires level { IsReadLevel level.now }
    requires names { AreNames (doc_of level.now) level.now.node names.now }
    requires right { AreNumbered level.now }
    requires apart { IsTrue apart → (a b : ℕ) → at_level PartsHold level.now a b }
    ensures { MatchOption result
        ((a b : ℕ) → at_level PartsHold level.now a b)
        (FirstPair (at_level PartsHold level.now)) }
{
    if apart {
        return None;
    }
    part_fault(level, names)
}

// The first fault, by names of the parts.
fn fault_by_names(level: &Level<'_>, names: &[u32], spaced: bool, apart: bool) -> Option<Fault>
    requires sound { IsSound (doc_of level.now) }
    requires level { IsReadLevel level.now }
    requires names { AreNames (doc_of level.now) level.now.node names.now }
    requires spaced { IsTrue spaced → (a b : ℕ) → at_level LayersHold level.now a b }
    requires apart { IsTrue apart → (a b : ℕ) → at_level PartsHold level.now a b }
    ensures { MatchOption result
        (at_level Apart level.now)
        (at_level FirstApart level.now) }
{
    if let Some(child) = first_part(level, names) {
        return Some(Fault::lone(Place::Node(child)));
    }
    if let Some(fault) = near_fault_unless(level, spaced) {
        return Some(fault);
    }
    if let Some(fault) = part_fault_unless(level, names, apart) {
        return Some(fault);
    }
    box_fault(level)
}

/// The first child of a node whose written part is wrong, else the first two children of one part that are too near, else
/// the least children of the first two parts that are, else the first two children of a level of boxes that are.
pub fn apart_fault(alloc: Global, level: &Level<'_>) -> Result<Option<Fault>, AllocError>
    requires level { IsReadLevel level.now }
    ensures { IfOk result (λ fault.
        MatchOption fault
        (at_level Apart level.now)
        (at_level FirstApart level.now)) }
{
    let _node = level.scene.doc.node(level.node);
    let names = part_names(alloc, level.scene.doc, level.node)?;
    let spaced = quickly_spaced(alloc, level)?;
    let apart = quickly_apart(alloc, level)?;
    let fault = fault_by_names(level, names.as_slice(), spaced, apart);
    Ok(fault)
}
