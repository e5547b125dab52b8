//! A thousand random changes of a graph, against plain lists.
use crate::incidence::{
    add_node, connect, empty, enter, is_edge, is_node, leads_from, leads_to, leave, remove_edge,
    remove_node, reverse, split,
};
use graph_arena::{Arena, EdgeKey, NodeKey};
use std::alloc::{AllocError, Global};
use std::test::Fail;

/// One entry of a plain list: an edge at one of its ends.
#[derive(Clone, Copy)]
struct Entry {
    node: NodeKey,
    edge: EdgeKey,
}

/// The same graph as plain lists. A node's list is what one long list says of it, in order.
#[derive(Drop)]
struct Plain {
    nodes: Vec<NodeKey>,
    outs: Vec<Entry>,
    ins: Vec<Entry>,
}

fn end_of(list: &[Entry], edge: EdgeKey) -> Option<NodeKey> {
    for entry in list {
        if entry.edge.at == edge.at {
            return Some(entry.node);
        }
    }
    None
}

fn drop_edge(list: &mut Vec<Entry>, edge: EdgeKey) {
    list.retain(|entry| entry.edge.at != edge.at);
}

fn hand_over(list: &mut [Entry], edge: EdgeKey, by: EdgeKey) {
    for entry in list.iter_mut() {
        if entry.edge.at == edge.at {
            entry.edge = by;
        }
    }
}

fn edges_at(alloc: Global, list: &[Entry], node: NodeKey) -> Result<Vec<EdgeKey>, AllocError> {
    let mut edges = Vec::new(alloc);
    for entry in list {
        if entry.node.at == node.at {
            edges.push(entry.edge)?;
        }
    }
    Ok(edges)
}

impl Plain {
    fn add_edge(&mut self, edge: EdgeKey, tail: NodeKey, head: NodeKey) -> Result<(), AllocError> {
        self.outs.push(Entry { node: tail, edge })?;
        self.ins.push(Entry { node: head, edge })?;
        Ok(())
    }

    fn remove_edge(&mut self, edge: EdgeKey) {
        drop_edge(&mut self.outs, edge);
        drop_edge(&mut self.ins, edge);
    }

    fn remove_node(&mut self, alloc: Global, node: NodeKey) -> Result<(), AllocError> {
        let outs = edges_at(alloc, &self.outs, node)?;
        let ins = edges_at(alloc, &self.ins, node)?;
        for edge in &outs {
            self.remove_edge(*edge);
        }
        for edge in &ins {
            self.remove_edge(*edge);
        }
        self.nodes.retain(|other| other.at != node.at);
        Ok(())
    }

    fn reverse(&mut self, edge: EdgeKey) -> Result<(), AllocError> {
        if let Some(tail) = end_of(&self.outs, edge)
            && let Some(head) = end_of(&self.ins, edge)
        {
            self.remove_edge(edge);
            self.add_edge(edge, head, tail)?;
        }
        Ok(())
    }

    fn split(&mut self, edge: EdgeKey, node: NodeKey, far: EdgeKey) -> Result<(), AllocError> {
        self.nodes.push(node)?;
        self.outs.push(Entry { node, edge: far })?;
        hand_over(self.ins.as_mut_slice(), edge, far);
        self.ins.push(Entry { node, edge })?;
        Ok(())
    }
}

fn same_ends(arena: &Arena, plain: &Plain) -> bool {
    for entry in &plain.outs {
        if !leads_from(arena, entry.edge, entry.node) {
            return false;
        }
    }
    for entry in &plain.ins {
        if !leads_to(arena, entry.edge, entry.node) {
            return false;
        }
    }
    true
}

fn same(alloc: Global, arena: &Arena, plain: &Plain) -> Result<bool, AllocError> {
    for node in &plain.nodes {
        let outs = edges_at(alloc, &plain.outs, *node)?;
        let ins = edges_at(alloc, &plain.ins, *node)?;
        if !leave(arena, *node, outs.as_slice()) || !enter(arena, *node, ins.as_slice()) {
            return Ok(false);
        }
    }
    Ok(same_ends(arena, plain))
}

fn random(state: &mut u64) -> usize {
    *state = state
        .wrapping_mul(6364136223846793005)
        .wrapping_add(1442695040888963407);
    (*state >> 33) as usize
}

fn grow(arena: &mut Arena, plain: &mut Plain, state: &mut u64) -> Result<(), AllocError> {
    if plain.nodes.len() < 2 || random(state) % 4 == 0 {
        let node = add_node(arena)?;
        plain.nodes.push(node)?;
        return Ok(());
    }
    let nodes = plain.nodes.as_slice();
    if nodes.is_empty() {
        return Ok(());
    }
    let tail = nodes[random(state) % nodes.len()];
    let head = nodes[random(state) % nodes.len()];
    if let Some(edge) = connect(arena, tail, head)? {
        plain.add_edge(edge, tail, head)?;
    }
    Ok(())
}

fn change(arena: &mut Arena, plain: &mut Plain, state: &mut u64) -> Result<(), AllocError> {
    let outs = plain.outs.as_slice();
    if outs.is_empty() {
        return Ok(());
    }
    let edge = outs[random(state) % outs.len()].edge;
    if !is_edge(arena, edge) {
        return Ok(());
    }
    change_edge(arena, plain, edge, random(state) % 3)
}

fn change_edge(
    arena: &mut Arena,
    plain: &mut Plain,
    edge: EdgeKey,
    way: usize,
) -> Result<(), AllocError> {
    if way == 0 {
        reverse(arena, edge);
        return plain.reverse(edge);
    }
    if way == 1 {
        remove_edge(arena, edge);
        plain.remove_edge(edge);
        return Ok(());
    }
    match split(arena, edge)? {
        None => Ok(()),
        Some((node, far)) => plain.split(edge, node, far),
    }
}

fn shrink(
    alloc: Global,
    arena: &mut Arena,
    plain: &mut Plain,
    state: &mut u64,
) -> Result<(), AllocError> {
    let nodes = plain.nodes.as_slice();
    if nodes.is_empty() {
        return Ok(());
    }
    let node = nodes[random(state) % nodes.len()];
    if is_node(arena, node) {
        remove_node(arena, node);
        plain.remove_node(alloc, node)?;
    }
    Ok(())
}

// Changes both graphs in one way, and says whether they agree.
fn step(
    alloc: Global,
    arena: &mut Arena,
    plain: &mut Plain,
    state: &mut u64,
) -> Result<bool, AllocError> {
    match random(state) % 8 {
        0..4 => grow(arena, plain, state)?,
        4..7 => change(arena, plain, state)?,
        _ => shrink(alloc, arena, plain, state)?,
    }
    same(alloc, arena, plain)
}

#[test]
fn a_thousand_random_changes_agree_with_plain_lists(rt: HostRuntime) -> Result<(), Fail> {
    let mut arena = empty(rt.alloc());
    let mut plain = Plain {
        nodes: Vec::new(rt.alloc()),
        outs: Vec::new(rt.alloc()),
        ins: Vec::new(rt.alloc()),
    };
    let mut state = 20261127;
    for _ in 0..1000 {
        assert!(rt; step(rt.alloc(), &mut arena, &mut plain, &mut state)?);
    }
    assert!(rt; plain.nodes.len() >= 2);
    Ok(())
}
