//! Units and links with heights and pins.
ghost use Rattle.std.specs.Prelude.{◌≡◌, ◌≤ℤ◌, ◌*◌, ◌^◌, ℕ, List, [], ℤ, pos, length, IfOk};
ghost use Rattle.elk_layers.specs.Layered.{plain, rows_of, total_height, IsSound, AreRows};
ghost use Rattle.level_model.specs.Conditions.{plain_level, plain_plan, IsLevel};
ghost use Rattle.level_model.specs.Level.{Orders};
ghost use Rattle.level_model.specs.Units.{AreLinked};
ghost use Rattle.layer_units.specs.Fitted.{AreFitted, AreKept};
ghost use Rattle.dock_table.specs.Courses.{ReversedAreMarked};
ghost use Rattle.layer_units.specs.Marks.{listed};
ghost use Rattle.layer_units.specs.Tabled.{IsTableOf};

use crate::heights::fit_units;
use crate::pins::{Fitting, fit_links};
use dock_table::table_of;
use elk_layers::{Layered, Order};
use level_model::{LevelIn, Table};
use std::alloc::{AllocError, Global};

/// Units and links with their heights and pins, and the table that these were read off.
#[derive(Drop)]
pub struct UnitsAndTable {
    pub layered: Layered,
    pub table: Table,
}

/// The units and links of a level with their heights and pins, in whole document units: each child's unit has the height of its
/// lanes and its outline, and each link leaves and enters its units at the heights of its edge's anchors or of their lanes.
/// These follow from the orders of the sides, which follow from the order of the rows, and from the edges that are reversed,
/// which `is_reversed` marks. The table that they are read off holds for whatever tops the units get.
///
/// Of the units and links that are given, heights and pins are not read, but for those of lanes, which are 0. The ranks of
/// pins stay as they are. The only error is out of memory; what was given is dropped then.
///
/// Proved:
/// - The heights and pins, by the order of the rows: each child's unit has room for its outline and its lanes.
/// - Each link leaves and enters its units at its edge's anchors or lanes, and units and links are sound again.
/// - With them units and links are all that a level asks for, apart from the ranks of pins. Ranks stay as given, and so do the units
///   of lanes.
/// - With them comes the table from which they were read, which holds for all tops. (`tables_read_no_heights`)
pub fn pinned(
    alloc: Global,
    level: &LevelIn,
    layered: Layered,
    order: &Order,
    is_reversed: &[bool],
) -> Result<UnitsAndTable, AllocError>
    requires level { IsLevel (plain_level level.now) }
    requires sound { IsSound (plain layered) }
    requires rows { AreRows (plain layered) (rows_of order.now) }
    requires node_node { layered.node_node ≡ level.now.spacing.node_node }
    requires edge_node { layered.edge_node ≡ level.now.spacing.edge_node }
    requires edge_edge { layered.edge_edge ≡ level.now.spacing.edge_edge }
    requires is_reversed { ReversedAreMarked (plain_level level.now) is_reversed.now (plain_plan layered order.now [] (listed is_reversed.now)) }
    ensures fitted { IfOk result
        (λ v. (o : Orders)
        × ((layers : List ℕ) (tops : List ℤ)
        → AreLinked (plain_level level.now) (plain_plan layered order.now [] (listed is_reversed.now)) layers
        → AreFitted (plain_level level.now) (plain_plan v.layered order.now tops (listed is_reversed.now)) o layers)) }
    ensures table { IfOk result (λ v. (tops : List ℤ)
        → IsTableOf (plain_level level.now) (plain_plan v.layered order.now tops (listed is_reversed.now)) v.table) }
    ensures sound { IfOk result (λ v. IsSound (plain v.layered)) }
    ensures low { IfOk result (λ v. total_height (plain v.layered).units ≤ℤ pos (3 * 2 ^ 47)) }
    ensures rows { IfOk result (λ v. AreRows (plain v.layered) (rows_of order.now)) }
    ensures kept { IfOk result (λ v. AreKept (plain layered) (plain v.layered)) }
{
    let table = table_of(alloc, level, &layered, order, is_reversed)?;
    let fitting = Fitting {
        level,
        table: &table,
        marks: is_reversed,
    };
    let mut fitted = layered;
    fit_units(&fitting, fitted.units.as_mut_slice());
    fit_links(
        &fitting,
        fitted.units.as_slice(),
        fitted.links.as_mut_slice(),
    );
    Ok(UnitsAndTable {
        layered: fitted,
        table,
    })
}
