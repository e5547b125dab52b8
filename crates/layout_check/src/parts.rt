//! Numbers of parts.
ghost use Rattle.std.specs.Prelude.{◌≡◌, ◌↔◌, ◌<◌, IsTrue, length};
ghost use Rattle.elk_doc.specs.Sound.{IsSound};
ghost use Rattle.layout_check.specs.Faults.{IsFirst};
ghost use Rattle.layout_check.specs.Names.{AreNames};
ghost use Rattle.layout_check.specs.FirstApart.{PartHolds, is_leader, number_by};
ghost use Rattle.layout_check.specs.Levels.{IsReadLevel, doc_of};

use crate::level::Level;
use elk_doc::document::Doc;
use elk_doc::form::is_child;

// Whether a node is a child that names its part.
pub(crate) fn is_leader(doc: &Doc, node: u32, names: &[u32], child: u32) -> bool
    requires child_in { child < length doc.now.nodes }
    requires names { AreNames doc.now node names.now }
    ensures { result ≡ is_leader doc.now node names.now child }
{
    is_child(doc, node, child) && names[child as usize] == child
}

// The number of the part in which a child lies: how many parts have a lower name.
fn number_of(doc: &Doc, node: u32, names: &[u32], child: u32) -> u32
    requires child_in { child < length doc.now.nodes }
    requires names { AreNames doc.now node names.now }
    ensures { result ≡ number_by doc.now node names.now child }
{
    let mut count = 0;
    for leader in 0..names[child as usize] {
        if is_leader(doc, node, names, leader) {
            count += 1;
        }
    }
    count
}

// Whether the written part of a node, if it is a child of a split level, is its part's number.
fn part_holds(level: &Level<'_>, names: &[u32], child: u32) -> bool
    requires sound { IsSound (doc_of level.now) }
    requires child_in { child < length (doc_of level.now).nodes }
    requires names { AreNames (doc_of level.now) level.now.node names.now }
    requires level { IsReadLevel level.now }
    ensures { IsTrue result ↔ PartHolds (doc_of level.now) level.now.node level.now.options.now level.now.certificate.now child }
{
    if !level.options.split {
        return true;
    }
    if !is_child(level.scene.doc, level.node, child) {
        return true;
    }
    level.parts[child as usize] == number_of(level.scene.doc, level.node, names, child)
}

// The first child whose part is wrong.
pub(crate) fn first_part(level: &Level<'_>, names: &[u32]) -> Option<u32>
    requires names { AreNames (doc_of level.now) level.now.node names.now }
    requires level { IsReadLevel level.now }
    ensures { IsFirst (PartHolds (doc_of level.now) level.now.node level.now.options.now level.now.certificate.now) result }
{
    for child in 0..level.scene.doc.nodes().len() {
        let holds = part_holds(level, names, child as u32);
        if !holds {
            return Some(child as u32);
        }
    }
    None
}
