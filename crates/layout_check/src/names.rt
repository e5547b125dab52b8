//! Names of the parts of a level.
ghost use Rattle.std.specs.Prelude.{◌+◌, IfOk};
ghost use Rattle.elk_doc.specs.Level.{IsEdge};
ghost use Rattle.elk_doc.specs.Sound.{IsSound};
ghost use Rattle.layout_check.specs.Names.{AreNames, AreNamesBelow, Renames};

use crate::read::is_edge_of;
use elk_doc::document::Doc;
use elk_doc::level::node_of;
use std::alloc::{AllocError, Global};

// Gives all nodes of one name another.
fn rename(names: &mut [u32], from: u32, to: u32)
    ensures { Renames names.old from to names.new }
{
    for name in names.iter_mut() {
        if *name == from {
            *name = to;
        }
    }
}

// Gives the ends of an edge one name, the lower of theirs.
fn join(doc: &Doc, _node: u32, names: &mut [u32], edge: u32)
    requires sound { IsSound doc.now }
    requires edge_of { IsEdge doc.now _node edge }
    requires names { AreNamesBelow doc.now _node edge names.old }
    ensures { AreNamesBelow doc.now _node (edge + 1) names.new }
{
    let one = names[node_of(doc, doc.edge(edge).source) as usize];
    let other = names[node_of(doc, doc.edge(edge).target) as usize];
    if one < other {
        rename(names, other, one);
    } else {
        rename(names, one, other);
    }
}

// The nodes, each its own name.
fn own_names(alloc: Global, doc: &Doc, _node: u32) -> Result<Vec<u32>, AllocError>
    ensures { IfOk result (λ names. AreNamesBelow doc.now _node 0 names.items) }
{
    let mut names = Vec::new(alloc);
    for node in 0..doc.nodes().len() {
        names.push(node as u32)?;
    }
    Ok(names)
}

// A name for each node, the same at two children of a node exactly where edges of its level lead from the one to the
// other, in whatever direction: the least of the part.
pub(crate) fn part_names(alloc: Global, doc: &Doc, node: u32) -> Result<Vec<u32>, AllocError>
    ensures { IfOk result (λ names. AreNames doc.now node names.items) }
{
    let mut names = own_names(alloc, doc, node)?;
    join_all(doc, node, names.as_mut_slice());
    Ok(names)
}

// Gives the ends of each edge of the level one name.
fn join_all(doc: &Doc, node: u32, names: &mut [u32])
    requires { AreNamesBelow doc.now node 0 names.old }
    ensures { AreNames doc.now node names.new }
{
    for edge in 0..doc.edges().len() {
        if is_edge_of(doc, node, edge as u32) {
            join(doc, node, names, edge as u32);
        }
    }
}
