//! What holds of every network: a function with a fact as its contract and no body.

ghost use Rattle.network_parts.specs.Solved.{OneNumbering};

/// The numbers of a network's parts are determined: so is what is said of each part by its number.
///
/// Proved:
/// - A network has only one numbering of its parts.
pub fn parts_have_one_numbering()
    ensures { OneNumbering }
{}
