//! Names, values and sets of attributes. A set never changes, so that elements with the same attributes share one.

use crate::place::Place;
use std::alloc::{AllocError, Global};
use std::collections::BTreeMap;

// The most entries that all sets may be made from.
const MOST_ENTRIES: usize = 1 << 22;

/// The value of an attribute, and where its name stands.
#[derive(Debug, Drop)]
pub struct Written {
    pub text: String,
    pub is_html: bool,
    pub place: Place,
}

// A name and a value, by their numbers.
#[derive(Clone, Copy, Debug, Drop)]
pub(crate) struct Entry {
    pub(crate) name: usize,
    pub(crate) value: usize,
}

/// All attributes of a graph. An element knows the number of its set.
#[derive(Drop)]
pub struct Attributes {
    names: Vec<String>,
    numbers: BTreeMap<String, usize>,
    values: Vec<Written>,
    // Each ascends by the numbers of the names. The first is empty.
    sets: Vec<Vec<Entry>>,
    work: usize,
}

impl Attributes {
    pub(crate) fn new(alloc: Global) -> Result<Attributes, AllocError> {
        let mut sets = Vec::new(alloc);
        sets.push(Vec::new(alloc))?;
        Ok(Attributes {
            names: Vec::new(alloc),
            numbers: BTreeMap::new(alloc),
            values: Vec::new(alloc),
            sets,
            work: 0,
        })
    }

    /// The number of a name, which may be new.
    pub(crate) fn number_of(&mut self, alloc: Global, name: &str) -> Result<usize, AllocError> {
        if let Some(number) = self.numbers.get(name) {
            return Ok(*number);
        }
        let number = self.names.len();
        self.names.push(String::from_str(alloc, name)?)?;
        self.numbers.insert(String::from_str(alloc, name)?, number)?;
        Ok(number)
    }

    pub(crate) fn entry(
        &mut self,
        alloc: Global,
        name: &str,
        written: Written,
    ) -> Result<Entry, AllocError> {
        let name = self.number_of(alloc, name)?;
        let value = self.keep(written)?;
        Ok(Entry { name, value })
    }

    fn entries(&self, set: usize) -> &[Entry] {
        match self.sets.get(set) {
            Some(entries) => entries.as_slice(),
            None => &[],
        }
    }

    /// The set that has the attributes of another one, unless a list gives others, and those of the list. There is none if all sets
    /// together would be too large.
    pub(crate) fn merged(
        &mut self,
        alloc: Global,
        base: usize,
        list: &[Entry],
    ) -> Result<Option<usize>, AllocError> {
        if list.is_empty() {
            return Ok(Some(base));
        }
        let given = self.entries(base);
        let more = given.len().saturating_add(list.len());
        if self.work.saturating_add(more) > MOST_ENTRIES {
            return Ok(None);
        }
        let mut by_name = BTreeMap::new(alloc);
        for entry in given.iter().chain(list.iter()) {
            by_name.insert(entry.name, *entry)?;
        }
        let mut entries = Vec::new(alloc);
        for entry in by_name.values() {
            entries.push(*entry)?;
        }
        self.work = self.work.saturating_add(more);
        let number = self.sets.len();
        self.sets.push(entries)?;
        Ok(Some(number))
    }

    /// Keeps a text that isn't the value of an attribute, and answers its number.
    pub(crate) fn keep(&mut self, written: Written) -> Result<usize, AllocError> {
        let number = self.values.len();
        self.values.push(written)?;
        Ok(number)
    }

    /// A text by its number.
    pub fn written(&self, number: usize) -> Option<&Written> {
        self.values.get(number)
    }

    /// The value that an attribute has in a set.
    pub fn value(&self, set: usize, name: &str) -> Option<&Written> {
        let number = *self.numbers.get(name)?;
        let entries = self.entries(set);
        let at = entries.partition_point(|entry| entry.name < number);
        match entries.get(at) {
            Some(entry) if entry.name == number => self.values.get(entry.value),
            _ => None,
        }
    }

    /// All names and values of a set.
    pub fn all(&self, alloc: Global, set: usize) -> Result<Vec<(&str, &Written)>, AllocError> {
        let mut all = Vec::new(alloc);
        for entry in self.entries(set) {
            if let (Some(name), Some(value)) = (
                self.names.get(entry.name),
                self.values.get(entry.value),
            ) {
                all.push((name.as_str(), value))?;
            }
        }
        Ok(all)
    }
}
