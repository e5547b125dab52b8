//! Ids that no other element has.

use std::alloc::{AllocError, Global};
use std::collections::BTreeMap;

/// The ids that are taken, each with the number behind which the next one like it is looked for.
#[derive(Drop)]
pub(crate) struct Ids {
    alloc: Global,
    taken: BTreeMap<String, usize>,
}

impl Ids {
    /// No ids.
    pub(crate) fn new(alloc: Global) -> Ids {
        Ids {
            alloc,
            taken: BTreeMap::new(alloc),
        }
    }

    fn keep(&mut self, id: &str, number: usize) -> Result<String, AllocError> {
        self.taken
            .insert(String::from_str(self.alloc, id)?, number)?;
        String::from_str(self.alloc, id)
    }

    /// Takes a name as an id, with a number behind it if it is taken already.
    pub(crate) fn take(&mut self, name: &str) -> Result<String, AllocError> {
        let Some(before) = self.taken.get(name).copied() else {
            return self.keep(name, 1);
        };
        let mut number = before;
        for _ in 0..usize::MAX {
            number = number.saturating_add(1);
            let id = format!(in self.alloc; "{name} {number}")?;
            if !self.taken.contains_key(id.as_str()) {
                self.keep(name, number)?;
                return self.keep(id.as_str(), 1);
            }
        }
        String::from_str(self.alloc, name)
    }
}
