//! Bounds on the units and links of a level, as the contracts of functions that do nothing.
ghost use Rattle.level_layout.specs.Bounds.{LinksAreFew, PinsAreLow};

/// A level whose layers have the least span has at most 2^21 units and at most 2^21 links: each layer but the last is left by an
/// edge that ends in the next one, so not all edges are long.
///
/// Proved:
/// - A level whose layers have the minimal span has at most 2^21 units and 2^21 links.
pub fn links_are_few()
    ensures { LinksAreFew }
{}

/// The heights of all units and the pins of all links are together below 2^60: of the links of an edge only the first leaves a
/// child and only the last enters one.
///
/// Proved:
/// - The heights of its units and the pins of its links are together below 2^60 if the heights alone are at most 3*2^47.
pub fn pins_are_low()
    ensures { PinsAreLow }
{}
