//! Subgraphs, and the defaults that hold in them.

use crate::attributes::Entry;
use crate::builder::{Builder, MOST_ELEMENTS};
use crate::defaults::{Defaults, Settings, Sort};
use crate::fault::DotFault;
use crate::graph::Subgraph;
use crate::place::Place;
use std::alloc::AllocError;

impl Builder {
    /// The subgraph of a name within another one, which is made if it is new, and the defaults in it.
    pub(crate) fn subgraph(
        &mut self,
        name: Option<String>,
        parent: Option<usize>,
        place: Place,
        defaults: Defaults,
    ) -> Result<(usize, Defaults), DotFault> {
        let key = match (parent, &name) {
            (Some(parent), Some(name)) => Some((parent, self.number_of(name.as_str())?)),
            _ => None,
        };
        let Some(key) = key else {
            return Ok((self.new_subgraph(name, parent, place, defaults)?, defaults));
        };
        let known = self.subgraphs.get(&key).copied();
        match known {
            Some(known) => Ok((known, self.defaults_in(known, defaults, place)?)),
            None => {
                let made = self.new_subgraph(name, parent, place, defaults)?;
                self.subgraphs.insert(key, made)?;
                Ok((made, defaults))
            }
        }
    }

    /// The number of a text among the names.
    pub(crate) fn number_of(&mut self, name: &str) -> Result<usize, AllocError> {
        self.graph.attributes.number_of(self.alloc, name)
    }

    fn new_subgraph(
        &mut self,
        name: Option<String>,
        parent: Option<usize>,
        place: Place,
        defaults: Defaults,
    ) -> Result<usize, DotFault> {
        let number = self.graph.subgraphs.len();
        if number > MOST_ELEMENTS {
            return Err(self.too_large(place, "more than 65,536 subgraphs"));
        }
        let made = Subgraph::new(self.alloc, name, parent, place, defaults.graph);
        self.graph.subgraphs.push(made)?;
        self.settings.push(Settings::new(self.alloc))?;
        Ok(number)
    }

    // The defaults of a subgraph that the text opens again: its own count more than those around it.
    fn defaults_in(
        &mut self,
        subgraph: usize,
        outer: Defaults,
        place: Place,
    ) -> Result<Defaults, DotFault> {
        let mut inner = outer;
        for sort in [Sort::Graph, Sort::Node, Sort::Edge] {
            let list = self.settings_of(subgraph, sort)?;
            let set = self.merged(outer.of(sort), list.as_slice(), place)?;
            inner = inner.with(sort, set);
        }
        Ok(inner)
    }

    fn settings_of(&self, subgraph: usize, sort: Sort) -> Result<Vec<Entry>, AllocError> {
        let mut list = Vec::new(self.alloc);
        if let Some(settings) = self.settings.get(subgraph) {
            for entry in settings.of(sort) {
                list.push(*entry)?;
            }
        }
        Ok(list)
    }

    /// The defaults in a subgraph after an attribute statement. Attributes of graphs are those of the subgraph too.
    pub(crate) fn set_defaults(
        &mut self,
        subgraph: usize,
        defaults: Defaults,
        sort: Sort,
        list: &[Entry],
        place: Place,
    ) -> Result<Defaults, DotFault> {
        if let Some(settings) = self.settings.get_mut(subgraph) {
            for entry in list {
                settings.of_mut(sort).push(*entry)?;
            }
        }
        if sort == Sort::Graph {
            self.change_subgraph(subgraph, list, place)?;
        }
        let set = self.merged(defaults.of(sort), list, place)?;
        Ok(defaults.with(sort, set))
    }

    fn change_subgraph(
        &mut self,
        subgraph: usize,
        list: &[Entry],
        place: Place,
    ) -> Result<(), DotFault> {
        let old = match self.graph.subgraphs.get(subgraph) {
            Some(subgraph) => subgraph.set,
            None => 0,
        };
        let new = self.merged(old, list, place)?;
        if let Some(subgraph) = self.graph.subgraphs.get_mut(subgraph) {
            subgraph.set = new;
        }
        Ok(())
    }
}
