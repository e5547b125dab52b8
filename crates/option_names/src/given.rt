//! What is before names of options, and a bound. `tools/tables` makes this file from data/options.json of the package for JavaScript.

// The prefix of all options of ELK.
pub(crate) const PREFIX: &str = "org.eclipse.elk.";

// What may stand before the name of an option, if anything does.
pub(crate) static PREFIXES: [&str; 4] = [
    "org.eclipse.elk.",
    "eclipse.elk.",
    "elk.",
    "de.cau.cs.kieler.",
];

// What stands before it where the engine finds it.
pub(crate) static FOUND_PREFIXES: [&str; 3] = ["org.eclipse.elk.", "elk.", ""];

// A level with more children isn't placed by network simplex unless it asks for that.
pub(crate) const PLACED_UP_TO: usize = 300;
