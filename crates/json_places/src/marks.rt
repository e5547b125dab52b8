//! Where the values of a text stand.

use crate::steps::Step;
use std::alloc::{AllocError, Global};
use std::collections::BTreeMap;

/// A member that stands in an object for the second time: the steps to it, and where its name stands.
#[derive(Debug, Drop)]
pub struct Double {
    pub steps: Vec<Step>,
    pub at: usize,
}

// What a value holds, by the numbers of the marks.
#[derive(Drop)]
pub(crate) enum Inner {
    Plain,
    Items(Vec<usize>),
    Members(BTreeMap<String, usize>),
}

// Where a value stands, and where its name does if it is a member.
#[derive(Drop)]
pub(crate) struct Mark {
    pub(crate) name: Option<usize>,
    pub(crate) value: usize,
    pub(crate) inner: Inner,
}

/// Where the values of a text stand, and their names. Places are numbers of letters.
#[derive(Drop)]
pub struct Places {
    // The value of the whole text comes first, each other one behind that which holds it.
    pub(crate) marks: Vec<Mark>,
    /// The members that stand twice, of which the last counts.
    pub doubles: Vec<Double>,
}

impl Places {
    pub(crate) fn none(alloc: Global) -> Places {
        Places {
            marks: Vec::new(alloc),
            doubles: Vec::new(alloc),
        }
    }

    // Whether an object has a member of that name already.
    pub(crate) fn has(&self, object: usize, name: &String) -> bool {
        match self.marks.get(object) {
            Some(mark) => match &mark.inner {
                Inner::Members(members) => members.get(name).is_some(),
                _ => false,
            },
            None => false,
        }
    }

    // Adds a value to that which holds it, and answers its number.
    pub(crate) fn add(
        &mut self,
        holder: Option<usize>,
        name: Option<(String, usize)>,
        value: usize,
    ) -> Result<usize, AllocError> {
        let number = self.marks.len();
        let (name, at) = match name {
            Some((name, at)) => (Some(name), Some(at)),
            None => (None, None),
        };
        if let Some(holder) = holder {
            if let Some(holder) = self.marks.get_mut(holder) {
                match (&mut holder.inner, name) {
                    (Inner::Items(items), _) => items.push(number)?,
                    (Inner::Members(members), Some(name)) => {
                        members.insert(name, number)?;
                    }
                    _ => {}
                }
            }
        }
        self.marks.push(Mark {
            name: at,
            value,
            inner: Inner::Plain,
        })?;
        Ok(number)
    }

    // Says that a value is an array or an object.
    pub(crate) fn open(&mut self, number: usize, inner: Inner) {
        if let Some(mark) = self.marks.get_mut(number) {
            mark.inner = inner;
        }
    }

    fn inner_of(&self, mark: &Mark, step: &Step) -> Option<usize> {
        match (&mark.inner, step) {
            (Inner::Items(items), Step::At(at)) => items.get(*at).copied(),
            (Inner::Members(members), Step::Name(name)) => members.get(name).copied(),
            _ => None,
        }
    }

    // The mark of the value to which steps lead, or the last one on the way to it.
    fn mark_at(&self, steps: &[Step]) -> Option<&Mark> {
        let mut mark = self.marks.first()?;
        for step in steps {
            let next = match self.inner_of(mark, step) {
                Some(number) => self.marks.get(number),
                None => None,
            };
            match next {
                Some(next) => mark = next,
                None => break,
            }
        }
        Some(mark)
    }

    /// Where the value stands to which steps lead, or the last one on the way to it.
    pub fn value_at(&self, steps: &[Step]) -> usize {
        match self.mark_at(steps) {
            Some(mark) => mark.value,
            None => 0,
        }
    }

    /// The same for the name of the member that the value is; an item of an array has none.
    pub fn name_at(&self, steps: &[Step]) -> usize {
        match self.mark_at(steps) {
            Some(mark) => mark.name.unwrap_or(mark.value),
            None => 0,
        }
    }
}
