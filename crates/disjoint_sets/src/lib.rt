//! Disjoint sets of numbers, which are joined one after the other (Galler and Fischer 1964), with paths halved as they are followed.
#![tactic(auto)]

use std::alloc::{AllocError, Global};

/// Disjoint sets of the numbers below a count.
#[derive(Drop)]
pub struct DisjointSets {
    parents: Vec<usize>,
}

impl DisjointSets {
    /// Sets of one number each.
    pub fn singletons(alloc: Global, count: usize) -> Result<DisjointSets, AllocError> {
        let mut parents = Vec::new(alloc);
        for number in 0..count {
            parents.push(number)?;
        }
        Ok(DisjointSets { parents })
    }

    fn parent_of(&self, number: usize) -> usize {
        self.parents.get(number).copied().unwrap_or(number)
    }

    fn set_parent(&mut self, number: usize, parent: usize) {
        if let Some(place) = self.parents.get_mut(number) {
            *place = parent;
        }
    }

    /// The number by which a set is known. A number that is in none is its own.
    pub fn find(&mut self, number: usize) -> usize {
        let mut at = number;
        for _ in 0..self.parents.len() {
            let parent = self.parent_of(at);
            if parent == at {
                break;
            }
            let above = self.parent_of(parent);
            self.set_parent(at, above);
            at = above;
        }
        at
    }

    /// Joins the sets of two numbers. It returns whether they were two.
    pub fn join(&mut self, one: usize, other: usize) -> bool {
        let (from, to) = (self.find(one), self.find(other));
        self.set_parent(from, to);
        from != to
    }
}
