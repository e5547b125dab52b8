//! The table of all options, and what it tells of a name.

use crate::described::{Description, Role};

/// So many parts the long lists of a table have at most.
pub const MOST_PARTS: usize = 8;

/// A part of the endings of names.
#[derive(Clone, Copy, Drop)]
pub struct Endings {
    /// Endings in order. Those that several names have stand as often.
    pub endings: &'static [&'static str],
    /// The names that end so, each at the place of its ending.
    pub names: &'static [&'static str],
}

/// The table of all options. The crate option_table has it, and whoever looks into it is given it, so that a new option changes no
/// crate between.
#[derive(Clone, Copy, Drop)]
pub struct OptionTable {
    /// The options that are read, those of the engine first.
    pub described: &'static [Description],
    /// So many of them are those of the engine.
    pub own: usize,
    /// Their names in order, each with the number of its description.
    pub by_name: &'static [(&'static str, usize)],
    /// What is done in place of some options that nothing reads, by their names in order.
    pub instead: &'static [(&'static str, &'static str)],
    /// The endings of all names of options, in order. Parts that are not needed are empty and stand last.
    pub endings: [Endings; MOST_PARTS],
    /// What a key may be, to mean one option. The options that the engine reads come first.
    pub clear_keys: [&'static [&'static str]; MOST_PARTS],
}

impl OptionTable {
    fn place_of(&self, name: &str) -> Option<usize> {
        match self.by_name.binary_search_by(|(it, _)| (*it).cmp(&name)) {
            Ok(at) => self.by_name.get(at).map(|(_, place)| *place),
            Err(_) => None,
        }
    }

    /// The options that the engine reads, in the order of the format's table.
    pub fn options(&self) -> &'static [Description] {
        match self.described.split_at_checked(self.own) {
            Some((own, _)) => own,
            None => &[],
        }
    }

    /// What is known of an option that the engine or the shell reads, by its name.
    pub fn described_as(&self, name: &str) -> Option<&'static Description> {
        self.described.get(self.place_of(name)?)
    }

    /// Whether the engine reads an option.
    pub fn is_read(&self, name: &str) -> bool {
        match self.place_of(name) {
            Some(place) => place < self.own,
            None => false,
        }
    }

    /// Whether the engine reads an option at an element of a role. Levels are nodes too.
    pub fn is_read_by(&self, name: &str, role: Role) -> bool {
        if !self.is_read(name) {
            return false;
        }
        match self.described_as(name) {
            Some(option) => option.readers.iter().any(|it| *it == role
                || (role == Role::Level && *it == Role::Node)),
            None => false,
        }
    }

    /// What is done in place of an option of ELK that nothing reads, where that is known.
    pub fn instead_of(&self, name: &str) -> Option<&'static str> {
        match self.instead.binary_search_by(|(it, _)| (*it).cmp(&name)) {
            Ok(at) => self.instead.get(at).map(|(_, words)| *words),
            Err(_) => None,
        }
    }
}
