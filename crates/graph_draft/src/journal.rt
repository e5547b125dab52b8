//! What stages change, so that it can be undone.

use crate::draft::Draft;
use crate::element::{Element, End};
use serde_json::Value;
use std::alloc::{AllocError, Global};

/// How far the journal had come at some time.
#[derive(Clone, Copy, Debug, Drop, PartialEq, Eq)]
pub struct Mark(pub(crate) usize);

// A change, with what stood there before.
#[derive(Drop)]
pub(crate) enum Change {
    Ends {
        edge: usize,
        sources: Vec<End>,
        targets: Vec<End>,
    },
    PortSize {
        port: usize,
        width: f64,
        height: f64,
    },
    Asked {
        element: Element,
        name: &'static str,
        before: Option<Value>,
    },
}

impl Draft {
    /// How far the journal has come.
    pub fn mark(&self) -> Mark {
        Mark(self.journal.len())
    }

    /// Undoes all changes since a mark, the last one first. Elements that were added stay.
    pub fn undo_to(&mut self, mark: Mark) -> Result<(), AllocError> {
        for _ in mark.0..self.journal.len() {
            if let Some(change) = self.journal.pop() {
                self.undo(change)?;
            }
        }
        Ok(())
    }

    fn undo(&mut self, change: Change) -> Result<(), AllocError> {
        match change {
            Change::Ends {
                edge,
                sources,
                targets,
            } => {
                if let Some(edge) = self.edges.get_mut(edge) {
                    edge.sources = sources;
                    edge.targets = targets;
                }
                Ok(())
            }
            Change::PortSize {
                port,
                width,
                height,
            } => {
                if let Some(port) = self.ports.get_mut(port) {
                    port.width = width;
                    port.height = height;
                }
                Ok(())
            }
            Change::Asked {
                element,
                name,
                before,
            } => self.put_asked(element, name, before),
        }
    }

    /// Gives an edge other ends until the answer is there: one source and one target.
    pub fn change_ends(
        &mut self,
        alloc: Global,
        edge: usize,
        source: End,
        target: End,
    ) -> Result<(), AllocError> {
        let sources = vec![in alloc; source]?;
        let targets = vec![in alloc; target]?;
        if let Some(changed) = self.edges.get_mut(edge) {
            let sources = std::mem::replace(&mut changed.sources, sources);
            let targets = std::mem::replace(&mut changed.targets, targets);
            self.journal.push(Change::Ends {
                edge,
                sources,
                targets,
            })?;
        }
        Ok(())
    }

    /// Gives a port another size until the answer is there.
    pub fn change_port_size(
        &mut self,
        port: usize,
        width: f64,
        height: f64,
    ) -> Result<(), AllocError> {
        if let Some(changed) = self.ports.get_mut(port) {
            self.journal.push(Change::PortSize {
                port,
                width: changed.width,
                height: changed.height,
            })?;
            changed.width = width;
            changed.height = height;
        }
        Ok(())
    }

    /// Asks the engine for something in an element's name until the answer is there.
    pub fn ask(
        &mut self,
        element: Element,
        name: &'static str,
        value: Value,
    ) -> Result<(), AllocError> {
        let before = match self.options_of(element) {
            Some(options) => match options.asked(name) {
                Some(value) => Some(value.clone()?),
                None => None,
            },
            None => return Ok(()),
        };
        self.journal.push(Change::Asked {
            element,
            name,
            before,
        })?;
        self.put_asked(element, name, Some(value))
    }

    fn put_asked(
        &mut self,
        element: Element,
        name: &'static str,
        value: Option<Value>,
    ) -> Result<(), AllocError> {
        match self.options_of_mut(element) {
            Some(options) => options.ask(name, value),
            None => Ok(()),
        }
    }
}
