//! Which option of ELK a key of options means: its name, with a prefix or without, or an ending that no other has.

use crate::given::{FOUND_PREFIXES, PREFIXES};
use crate::table::{Endings, OptionTable};

/// What stands before the names of all options of ELK.
pub const PREFIX: &str = crate::given::PREFIX;

/// What stands before the name in a key, which may be nothing.
pub fn prefix_in(key: &str) -> &'static str {
    for prefix in PREFIXES.iter() {
        if key.starts_with(*prefix) {
            return *prefix;
        }
    }
    ""
}

fn is_name(text: &str, names: &[&str]) -> bool {
    match names.first() {
        Some(name) => *name == text,
        None => false,
    }
}

impl OptionTable {
    // The part of the endings in which one would stand.
    fn endings_around(&self, ending: &str) -> Endings {
        let mut around = self.endings[0];
        for part in self.endings.iter() {
            match part.endings.first() {
                Some(first) if *first <= ending => around = *part,
                _ => {}
            }
        }
        around
    }

    // The names that an ending of a full name may mean.
    fn ending_named(&self, ending: &str) -> &'static [&'static str] {
        let Endings { endings, names } = self.endings_around(ending);
        let first = endings.partition_point(|it| *it < ending);
        let end = endings.partition_point(|it| *it <= ending);
        names.get(first..end).unwrap_or(&[])
    }

    /// The options that a key may mean, by their names without a prefix: one if the key is clear, several if it is an ending of
    /// them all, none if no option is called so.
    pub fn meanings(&self, key: &str) -> &'static [&'static str] {
        let prefix = prefix_in(key);
        if prefix.is_empty() {
            return self.ending_named(key);
        }
        let name = key.strip_prefix(prefix).unwrap_or(key);
        let names = self.ending_named(name);
        if is_name(name, names) { names } else { &[] }
    }

    /// The name, without a prefix, of the one option of ELK or of the engine that a key means.
    pub fn name_of(&self, key: &str) -> Option<&'static str> {
        match self.meanings(key) {
            [name] => Some(*name),
            _ => None,
        }
    }
}

/// Whether the engine finds an option under a key.
pub fn is_spelling(key: &str, name: &str) -> bool {
    FOUND_PREFIXES
        .iter()
        .any(|prefix| key.strip_prefix(*prefix) == Some(name))
}
