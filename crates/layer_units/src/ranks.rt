//! What follows of ranks, each as the contract of a function that does nothing.
ghost use Rattle.layer_units.specs.Laws.{MakeUnits, NeedNoRows};

/// The ranks of links' ends do not depend on the order of the rows.
pub fn ranks_need_no_rows()
    ensures { NeedNoRows }
{}

/// Units and links with heights, pins and ranks are all that a drawing asks of them, and ranks that are found before heights
/// and pins are known hold after.
///
/// Proved:
/// - Ranks, heights and pins together are all that `draw` asks of units and links.
pub fn fitted_units_are_units()
    ensures { MakeUnits }
{}
