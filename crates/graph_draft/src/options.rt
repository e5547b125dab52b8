//! The options that elements carry, and those that stages ask for in their names.

use option_names::{OptionTable, PREFIX, is_spelling, number_in, prefix_in, stand_ins};
use serde_json::Value;
use serde_json::value::Map;
use std::alloc::{AllocError, Global};
use std::collections::BTreeMap;

/// The options of an element, by their names without a prefix.
#[derive(Drop)]
pub struct Options {
    // What the element carries. Above it stands what a stage asks for.
    carried: BTreeMap<&'static str, Carried>,
    asked: BTreeMap<&'static str, Value>,
}

// A value, and what stands before the name of its option in its key, if the engine finds it by that key.
#[derive(Drop)]
struct Carried {
    prefix: &'static str,
    value: Value,
}

fn prefix_for(key: &str, name: &str) -> &'static str {
    if is_spelling(key, name) {
        prefix_in(key)
    } else {
        PREFIX
    }
}

impl Options {
    /// No options.
    pub fn none(alloc: Global) -> Options {
        Options {
            carried: BTreeMap::new(alloc),
            asked: BTreeMap::new(alloc),
        }
    }

    /// The options that an element carries: its `properties`, and above these its `layoutOptions`. Of several keys of one option
    /// the longest counts.
    pub fn carried_by(
        alloc: Global,
        table: &OptionTable,
        element: &Value,
    ) -> Result<Options, AllocError> {
        let mut options = Options::none(alloc);
        options.carry(alloc, table, element.get("properties"))?;
        options.carry(alloc, table, element.get("layoutOptions"))?;
        Ok(options)
    }

    fn carry(
        &mut self,
        alloc: Global,
        table: &OptionTable,
        given: Option<&Value>,
    ) -> Result<(), AllocError> {
        match given {
            Some(Value::Object(members)) => self.carry_members(alloc, table, members),
            _ => Ok(()),
        }
    }

    fn carry_members(
        &mut self,
        alloc: Global,
        table: &OptionTable,
        members: &Map<String, Value>,
    ) -> Result<(), AllocError> {
        let mut lengths: BTreeMap<&'static str, usize> = BTreeMap::new(alloc);
        for (key, value) in members.iter() {
            if let Some(name) = table.name_of(key.as_str()) {
                let before = lengths.get(name).copied().unwrap_or(0);
                if before <= key.len() {
                    lengths.insert(name, key.len())?;
                    let prefix = prefix_for(key.as_str(), name);
                    let value = value.clone()?;
                    self.carried.insert(name, Carried { prefix, value })?;
                }
            }
        }
        Ok(())
    }

    /// The value of an option; nothing where the element doesn't have it.
    pub fn get(&self, name: &'static str) -> Option<&Value> {
        match self.asked.get(name) {
            Some(value) => Some(value),
            None => match self.carried.get(name) {
                Some(carried) => Some(&carried.value),
                None => None,
            },
        }
    }

    /// What stands before the name of an option in the key by which it is sent.
    pub(crate) fn prefix_of(&self, name: &'static str) -> &'static str {
        match self.carried.get(name) {
            Some(carried) => carried.prefix,
            None => PREFIX,
        }
    }

    /// What a stage asks for; nothing where it asks for nothing.
    pub(crate) fn asked(&self, name: &'static str) -> Option<&Value> {
        self.asked.get(name)
    }

    /// Asks for a value, or for that of the element if there is none.
    pub(crate) fn ask(
        &mut self,
        name: &'static str,
        value: Option<Value>,
    ) -> Result<(), AllocError> {
        match value {
            Some(value) => {
                self.asked.insert(name, value)?;
            }
            None => {
                self.asked.remove(name);
            }
        }
        Ok(())
    }

    /// All names that it has, in their order.
    pub fn names(&self, alloc: Global) -> Result<Vec<&'static str>, AllocError> {
        let mut names = Vec::new(alloc);
        for (name, _) in self.carried.iter() {
            names.push(*name)?;
        }
        for (name, _) in self.asked.iter() {
            if self.carried.get(*name).is_none() {
                names.push(*name)?;
            }
        }
        Ok(names)
    }

    /// Whether it has none.
    pub fn is_empty(&self) -> bool {
        self.carried.is_empty() && self.asked.is_empty()
    }

    // These options, and those of others that these lack.
    fn merged(
        &self,
        alloc: Global,
        others: &Options,
    ) -> Result<BTreeMap<&'static str, Value>, AllocError> {
        let mut all = BTreeMap::new(alloc);
        others.copy_into(alloc, &mut all)?;
        self.copy_into(alloc, &mut all)?;
        Ok(all)
    }

    fn copy_into(
        &self,
        alloc: Global,
        all: &mut BTreeMap<&'static str, Value>,
    ) -> Result<(), AllocError> {
        for name in self.names(alloc)? {
            if let Some(value) = self.get(name) {
                all.insert(name, value.clone()?)?;
            }
        }
        Ok(())
    }

    /// Its own copy of the options.
    pub fn copy(&self, alloc: Global) -> Result<Options, AllocError> {
        let mut copy = Options::none(alloc);
        for (name, carried) in self.carried.iter() {
            let Carried { prefix, value } = carried;
            let (prefix, value) = (*prefix, value.clone()?);
            copy.carried.insert(*name, Carried { prefix, value })?;
        }
        for (name, value) in self.asked.iter() {
            copy.asked.insert(*name, value.clone()?)?;
        }
        Ok(copy)
    }
}

/// The options that a level is sent with besides its own, or in place of these.
pub(crate) fn standing(
    alloc: Global,
    own: &Options,
    general: &Options,
    children: usize,
) -> Result<Vec<(&'static str, Value)>, AllocError> {
    let merged = own.merged(alloc, general)?;
    let mut asked: Vec<(&str, &Value)> = Vec::new(alloc);
    for (name, value) in merged.iter() {
        asked.push((*name, value))?;
    }
    stand_ins(alloc, asked.as_slice(), children)
}

/// The number that a value says, as a number or as a text.
pub fn number_said(value: Option<&Value>) -> Option<f64> {
    let number = match value {
        Some(value) => number_in(value),
        None => None,
    };
    match number {
        Some(number) if number.is_finite() => Some(number),
        _ => None,
    }
}

/// Whether a value is a word, in small or capital letters, or the truth value that is called so.
pub fn says(value: Option<&Value>, word: &str) -> bool {
    match value {
        Some(Value::String(text)) => text.as_str().eq_ignore_ascii_case(word),
        Some(Value::Bool(true)) => word.eq_ignore_ascii_case("true"),
        Some(Value::Bool(false)) => word.eq_ignore_ascii_case("false"),
        _ => false,
    }
}
