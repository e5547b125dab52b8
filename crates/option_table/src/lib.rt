//! The table of all options, made from the list of options that the package for JavaScript has too. Only the top of the shell uses this
//! crate and passes the table on, so that a new option changes few crates.
#![tactic(auto)]

mod clear_keys;
mod described;
mod endings;

use option_names::OptionTable;

/// The table of all options of ELK, of the engine and of the shell.
pub fn known_options() -> OptionTable {
    OptionTable {
        described: described::DESCRIBED.as_slice(),
        own: described::OWN,
        by_name: described::BY_NAME.as_slice(),
        instead: described::INSTEAD.as_slice(),
        endings: endings::endings(),
        clear_keys: clear_keys::clear_keys(),
    }
}
