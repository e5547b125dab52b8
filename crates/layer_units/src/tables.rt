//! What follows of tables, as the contract of a function that does nothing.
ghost use Rattle.layer_units.specs.Alike.{ReadNoHeights};

/// Orders of sides, tables, the ranks that pins are to have and the way in which units are linked do not depend on the heights,
/// pins and ranks of units and links, so those that are found before these are known hold after.
pub fn tables_read_no_heights()
    ensures { ReadNoHeights }
{}
