//! Arcs that close cycles.

use std::alloc::{AllocError, Global};

/// A way from one node to another, by their numbers.
#[derive(Clone, Copy, Debug, Drop, PartialEq, Eq)]
pub struct Arc {
    pub tail: usize,
    pub head: usize,
}

// For each node the others to which arcs lead from it, or from which they come.
type Others = Vec<Vec<usize>>;

fn no_others(alloc: Global, count: usize) -> Result<Others, AllocError> {
    let mut others = Vec::new(alloc);
    for _ in 0..count {
        others.push(Vec::new(alloc))?;
    }
    Ok(others)
}

fn add(others: &mut [Vec<usize>], node: usize, other: usize) -> Result<(), AllocError> {
    match others.get_mut(node) {
        Some(list) => Ok(list.push(other)?),
        None => Ok(()),
    }
}

fn others_of(others: &[Vec<usize>], node: usize) -> &[usize] {
    match others.get(node) {
        Some(list) => list.as_slice(),
        None => &[],
    }
}

fn number_of(numbers: &[usize], node: usize) -> usize {
    numbers.get(node).copied().unwrap_or(0)
}

fn set(numbers: &mut [usize], node: usize, number: usize) {
    if let Some(place) = numbers.get_mut(node) {
        *place = number;
    }
}

// Nodes that are being put in a row (Eades, Lin, Smyth 1993): sources and sinks are taken out in turn.
#[derive(Drop)]
struct Row {
    heads: Others,
    tails: Others,
    // How many arcs enter and leave each node whose other ends have no place yet.
    entering: Vec<usize>,
    leaving: Vec<usize>,
    places: Vec<Option<usize>>,
    // The first and the end of the places that are free.
    low: usize,
    high: usize,
    // Nodes that may have become sources or sinks.
    ready: Vec<usize>,
}

// One arc less at each of some nodes. Those that have none left are ready.
fn take_arcs(
    nodes: &[usize],
    counts: &mut [usize],
    ready: &mut Vec<usize>,
) -> Result<(), AllocError> {
    for node in nodes {
        if let Some(count) = counts.get_mut(*node) {
            *count = count.saturating_sub(1);
            if *count == 0 {
                ready.push(*node)?;
            }
        }
    }
    Ok(())
}

impl Row {
    fn new(alloc: Global, count: usize, arcs: &[Arc]) -> Result<Row, AllocError> {
        let mut row = Row {
            heads: no_others(alloc, count)?,
            tails: no_others(alloc, count)?,
            entering: Vec::new(alloc),
            leaving: Vec::new(alloc),
            places: vec![in alloc; None; count]?,
            low: 0,
            high: count,
            ready: Vec::new(alloc),
        };
        for arc in arcs {
            add(row.heads.as_mut_slice(), arc.tail, arc.head)?;
            add(row.tails.as_mut_slice(), arc.head, arc.tail)?;
        }
        for (heads, tails) in row.heads.iter().zip(row.tails.iter()) {
            row.leaving.push(heads.len())?;
            row.entering.push(tails.len())?;
        }
        Ok(row)
    }

    fn place(&mut self, node: usize) -> Result<(), AllocError> {
        let is_left = number_of(self.leaving.as_slice(), node) > 0;
        let is_sink = !is_left && number_of(self.entering.as_slice(), node) > 0;
        if is_sink {
            self.high = self.high.saturating_sub(1);
        }
        let place = if is_sink { self.high } else { self.low };
        if !is_sink {
            self.low = self.low.saturating_add(1);
        }
        if let Some(slot) = self.places.get_mut(node) {
            *slot = Some(place);
        }
        let heads = others_of(self.heads.as_slice(), node);
        take_arcs(heads, self.entering.as_mut_slice(), &mut self.ready)?;
        let tails = others_of(self.tails.as_slice(), node);
        take_arcs(tails, self.leaving.as_mut_slice(), &mut self.ready)
    }

    fn is_placed(&self, node: usize) -> bool {
        matches!(self.places.get(node), Some(Some(_)))
    }

    fn place_ready(&mut self) -> Result<(), AllocError> {
        for _ in 0..usize::MAX {
            match self.ready.pop() {
                Some(node) if self.is_placed(node) => {}
                Some(node) => self.place(node)?,
                None => break,
            }
        }
        Ok(())
    }

    fn place_all(&mut self, count: usize) -> Result<(), AllocError> {
        for node in 0..count {
            let entering = number_of(self.entering.as_slice(), node);
            if entering == 0 || number_of(self.leaving.as_slice(), node) == 0 {
                self.ready.push(node)?;
            }
        }
        self.place_ready()?;
        for node in 0..count {
            self.ready.push(node)?;
            self.place_ready()?;
        }
        Ok(())
    }
}

// The places of nodes in a row, so that few arcs lead back.
fn places_of(alloc: Global, count: usize, arcs: &[Arc]) -> Result<Vec<usize>, AllocError> {
    let mut row = Row::new(alloc, count, arcs)?;
    row.place_all(count)?;
    let mut places = Vec::new(alloc);
    for place in row.places.iter() {
        places.push(place.unwrap_or(0))?;
    }
    Ok(places)
}

// Which way a search goes: along arcs, or against them.
#[derive(Clone, Copy, Debug, Drop, PartialEq, Eq)]
enum Way {
    On,
    Back,
}

// An order of nodes in which all arcs lead on, with the last search that came to each node.
#[derive(Drop)]
struct Order {
    places: Vec<usize>,
    searches: Vec<usize>,
    search: usize,
}

impl Order {
    fn place_of(&self, node: usize) -> usize {
        number_of(self.places.as_slice(), node)
    }

    // Whether a node lies before a place, or else behind it, and no search has come to it in this round.
    fn is_next(&self, node: usize, end: usize, way: Way) -> bool {
        let place = self.place_of(node);
        let is_within = match way {
            Way::On => place < end,
            Way::Back => place > end,
        };
        is_within && number_of(self.searches.as_slice(), node) != self.search
    }

    // The nodes to which a way leads from one node before it has passed the place of another one. That one node is the first of them.
    // Nothing if the other node is among them.
    fn reached(
        &mut self,
        alloc: Global,
        others: &[Vec<usize>],
        (from, to): (usize, usize),
        way: Way,
    ) -> Result<Option<Vec<usize>>, AllocError> {
        self.search = self.search.saturating_add(1);
        let end = self.place_of(to);
        let mut found = vec![in alloc; from]?;
        for at in 0..usize::MAX {
            let node = match found.get(at) {
                Some(node) => *node,
                None => break,
            };
            for other in others_of(others, node) {
                if *other == to {
                    return Ok(None);
                }
                if self.is_next(*other, end, way) {
                    set(self.searches.as_mut_slice(), *other, self.search);
                    found.push(*other)?;
                }
            }
        }
        Ok(Some(found))
    }

    // Puts some nodes before others, at the places that all of them have. Each of the lists keeps its order.
    fn put_first(
        &mut self,
        alloc: Global,
        mut first: Vec<usize>,
        mut then: Vec<usize>,
    ) -> Result<(), AllocError> {
        first.sort_by_key(|node| self.place_of(*node))?;
        then.sort_by_key(|node| self.place_of(*node))?;
        for node in then {
            first.push(node)?;
        }
        let mut free = Vec::new(alloc);
        for node in first.iter() {
            free.push(self.place_of(*node))?;
        }
        free.sort()?;
        for (node, place) in first.iter().zip(free.iter()) {
            set(self.places.as_mut_slice(), *node, *place);
        }
        Ok(())
    }
}

// Arcs without a cycle. An arc that leads back costs a search among the nodes between its ends in their order (Pearce and Kelly 2006).
#[derive(Drop)]
struct Acyclic {
    heads: Others,
    tails: Others,
    order: Order,
}

impl Acyclic {
    fn add(&mut self, arc: Arc) -> Result<(), AllocError> {
        add(self.heads.as_mut_slice(), arc.tail, arc.head)?;
        add(self.tails.as_mut_slice(), arc.head, arc.tail)
    }

    fn leads_on(&self, arc: Arc) -> bool {
        self.order.place_of(arc.tail) <= self.order.place_of(arc.head)
    }

    // Adds an arc unless it closes a cycle. It answers whether it does.
    fn closes(&mut self, alloc: Global, arc: Arc) -> Result<bool, AllocError> {
        if !self.leads_on(arc) {
            let heads = self.heads.as_slice();
            let ends = (arc.head, arc.tail);
            let after = match self.order.reached(alloc, heads, ends, Way::On)? {
                Some(after) => after,
                None => return Ok(true),
            };
            let tails = self.tails.as_slice();
            let ends = (arc.tail, arc.head);
            if let Some(before) = self.order.reached(alloc, tails, ends, Way::Back)? {
                self.order.put_first(alloc, before, after)?;
            }
        }
        self.add(arc)?;
        Ok(false)
    }
}

/// The arcs to turn round so that no cycle is left, by their numbers: each of them closes one with those that stay. Nodes are numbered
/// from 0 on, and no arc leads from a node to itself.
pub fn back_arcs(alloc: Global, count: usize, arcs: &[Arc]) -> Result<Vec<usize>, AllocError> {
    let mut acyclic = Acyclic {
        heads: no_others(alloc, count)?,
        tails: no_others(alloc, count)?,
        order: Order {
            places: places_of(alloc, count, arcs)?,
            searches: vec![in alloc; 0; count]?,
            search: 0,
        },
    };
    let mut back = Vec::new(alloc);
    for (at, arc) in arcs.iter().enumerate() {
        if acyclic.leads_on(*arc) {
            acyclic.add(*arc)?;
        } else {
            back.push(at)?;
        }
    }
    let mut closing = Vec::new(alloc);
    for at in back.iter() {
        if let Some(arc) = arcs.get(*at) {
            if acyclic.closes(alloc, *arc)? {
                closing.push(*at)?;
            }
        }
    }
    Ok(closing)
}
