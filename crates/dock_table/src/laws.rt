//! What follows of tables, each as the contract of a function that does nothing.
ghost use Rattle.dock_table.specs.Agreeing.{NeedNoOrders};
ghost use Rattle.dock_table.specs.Tops.{ReadNoTops};

/// Orders of sides and tables do not depend on where units stand, so those that are made before places are known hold after.
pub fn tables_read_no_tops()
    ensures { ReadNoTops }
{}

/// The orders of a level's sides are determined, so a table that is made with some of them is one for any of them.
pub fn tables_need_no_orders()
    ensures { NeedNoOrders }
{}
