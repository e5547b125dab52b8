//! Graphs that are built, changed and asked by the steps of a text, with `, ` between. A step is a word with numbers. Nodes and edges
//! are numbered from 0 in the order in which they come.
use crate::incidence::{
    add_node, connect, copied, empty, enter, has_degree, is_edge, is_node, joins, leave, reaches,
    remove_edge, remove_node, reserve, reverse, split,
};
use crate::networks::{number_or, numbers};
use crate::orienting::{is_way, reversed_count, sorted};
use graph_arena::{Arena, EdgeKey, NodeKey};
use std::alloc::{AllocError, Global};
use std::test::Fail;

fn node(numbers: &[u32], place: usize) -> NodeKey {
    NodeKey {
        at: number(numbers, place) as usize,
    }
}

fn edge(numbers: &[u32], place: usize) -> EdgeKey {
    EdgeKey {
        at: number(numbers, place) as usize,
    }
}

fn edges_from(alloc: Global, numbers: &[u32], first: usize) -> Result<Vec<EdgeKey>, AllocError> {
    let mut edges = Vec::new(alloc);
    for place in first..numbers.len() {
        edges.push(edge(numbers, place))?;
    }
    Ok(edges)
}

fn number(numbers: &[u32], place: usize) -> u32 {
    number_or(numbers, place, 0)
}

// Splits an edge of a graph whose copy stays as it is.
fn split_beside_copy(arena: &mut Arena, edge: EdgeKey) -> Result<bool, AllocError> {
    let copy = copied(arena)?;
    match split(arena, edge)? {
        None => Ok(false),
        Some((middle, _)) => Ok(is_node(arena, middle) && !is_node(&copy, middle)),
    }
}

// Makes a change, if the word names one.
fn change(arena: &mut Arena, word: &str, numbers: &[u32]) -> Result<bool, AllocError> {
    match word {
        "room" => reserve(
            arena,
            number(numbers, 0) as usize,
            number(numbers, 1) as usize,
        )?,
        "node" => {
            add_node(arena)?;
        }
        "edge" => {
            connect(arena, node(numbers, 0), node(numbers, 1))?;
        }
        "split" => return split_beside_copy(arena, edge(numbers, 0)),
        "turn" => reverse(arena, edge(numbers, 0)),
        "cut" => remove_edge(arena, edge(numbers, 0)),
        "drop" => remove_node(arena, node(numbers, 0)),
        _ => return Ok(false),
    }
    Ok(true)
}

// Whether the word names a fact about nodes and edges that holds.
fn is_so(arena: &Arena, word: &str, numbers: &[u32]) -> bool {
    match word {
        "joins" => joins(arena, edge(numbers, 0), node(numbers, 1), node(numbers, 2)),
        "degree" => has_degree(arena, node(numbers, 0), number(numbers, 1) as usize),
        "bounds" => reaches(
            arena,
            number(numbers, 0) as usize,
            number(numbers, 1) as usize,
        ),
        "has" => is_edge(arena, edge(numbers, 0)),
        "lost" => !is_edge(arena, edge(numbers, 0)),
        "gone" => !is_node(arena, node(numbers, 0)),
        _ => false,
    }
}

// Whether the word names a list of edges that begins or ends at a node, and the list is the one that follows.
fn lists(alloc: Global, arena: &Arena, word: &str, numbers: &[u32]) -> Result<bool, AllocError> {
    let edges = edges_from(alloc, numbers, 1)?;
    let node = node(numbers, 0);
    match word {
        "out" => Ok(leave(arena, node, edges.as_slice())),
        "in" => Ok(enter(arena, node, edges.as_slice())),
        _ => Ok(false),
    }
}

// Whether the word names an order of so many nodes, no order, a number of edges that are reversed so that there is one, or a way from
// a node to another by the edges that follow.
fn leads(
    alloc: Global,
    arena: &mut Arena,
    word: &str,
    numbers: &[u32],
) -> Result<bool, AllocError> {
    match word {
        "order" => Ok(sorted(alloc, arena)? == Some(number(numbers, 0) as usize)),
        "cyclic" => Ok(sorted(alloc, arena)?.is_none()),
        "reversed" => Ok(reversed_count(alloc, arena)? == number(numbers, 0) as usize),
        "way" => {
            let edges = edges_from(alloc, numbers, 2)?;
            is_way(
                alloc,
                arena,
                node(numbers, 0),
                node(numbers, 1),
                edges.as_slice(),
            )
        }
        _ => Ok(false),
    }
}

// Makes a change or tells whether a fact holds.
fn step(alloc: Global, arena: &mut Arena, text: &str) -> Result<bool, Fail> {
    let (word, rest) = match text.split_once(' ') {
        Some(parts) => parts,
        None => (text, ""),
    };
    let numbers = numbers(alloc, rest)?;
    if change(arena, word, numbers.as_slice())? || is_so(arena, word, numbers.as_slice()) {
        return Ok(true);
    }
    if lists(alloc, arena, word, numbers.as_slice())? {
        return Ok(true);
    }
    Ok(leads(alloc, arena, word, numbers.as_slice())?)
}

/// The graph after the steps, of which each has to make a change or to name a fact that holds.
pub fn after(alloc: Global, steps: &str) -> Result<Arena, Fail> {
    let mut arena = empty(alloc);
    for text in steps.split(", ") {
        if !step(alloc, &mut arena, text)? {
            return Err(Fail::new(format_args!("{text} fails in {steps}")));
        }
    }
    Ok(arena)
}
