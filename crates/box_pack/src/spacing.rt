//! What holds of boxes in rows, as the contract of a function that does nothing.
ghost use Rattle.box_pack.specs.Spaced.{RowsAreSpaced};

/// Of two boxes in rows the earlier one stands left of the other or above it, with the gap between them. The first stands at the
/// origin, none before it, and the extent is no wider and no higher than all boxes together with one gap each.
///
/// Proved:
/// - Of two boxes in rows the earlier one stands left of the other or above it, with the gap between them.
/// - The first stands at the origin and none before it.
/// - The extent is no wider and no higher than all boxes together with one gap each.
pub fn rows_are_spaced()
    ensures { RowsAreSpaced }
{}
