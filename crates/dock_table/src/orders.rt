//! The orders of the sides of children.
ghost use Rattle.std.specs.Prelude.{◌≡◌, ℕ, ◌<◌, length, map, IfOk};
ghost use Rattle.port_order.specs.Conditions.{AreSpots, IsChild};
ghost use Rattle.level_model.specs.Conditions.{plain_level, IsLevel};
ghost use Rattle.level_model.specs.Level.{child_at};
ghost use Rattle.dock_table.specs.Rows.{row_at, row_lists};
ghost use Rattle.dock_table.specs.Sides.{AreFour, AreOrdersTo, four_of, order_on};

use crate::spots::Rows;
use drawing_types::shape::Side;
use level_model::LevelIn;
use port_order::{Child, Spot, order_side};
use std::alloc::{AllocError, Global};

/// The orders of a child's four sides: the numbers of their spread spots from the left or the top.
#[derive(Drop)]
pub(crate) struct SideOrders {
    north: Vec<u32>,
    east: Vec<u32>,
    south: Vec<u32>,
    west: Vec<u32>,
}

impl SideOrders {
    /// The order of a side.
    pub(crate) fn on(&self, side: Side) -> &[u32]
        ensures { result.now ≡ order_on (four_of self.now) side }
    {
        match side {
            Side::North => self.north.as_slice(),
            Side::East => self.east.as_slice(),
            Side::South => self.south.as_slice(),
            Side::West => self.west.as_slice(),
        }
    }
}

// The orders of a child's sides.
fn orders_of_child(alloc: Global, child: &Child, spots: &[Spot]) -> Result<SideOrders, AllocError>
    requires child { IsChild child.now }
    requires spots { AreSpots child.now spots.now }
    ensures { IfOk result (λ v. AreFour child.now spots.now (four_of v)) }
{
    let north = order_side(alloc, child, Side::North, spots)?;
    let east = order_side(alloc, child, Side::East, spots)?;
    let south = order_side(alloc, child, Side::South, spots)?;
    let west = order_side(alloc, child, Side::West, spots)?;
    Ok(SideOrders {
        north,
        east,
        south,
        west,
    })
}

/// By child, the orders of its sides.
pub(crate) fn orders_of(
    alloc: Global,
    level: &LevelIn,
    rows: &Rows,
) -> Result<Vec<SideOrders>, AllocError>
    requires level { IsLevel (plain_level level.now) }
    requires as_many { length (row_lists rows.now) ≡ length level.now.children }
    requires spots { (c : ℕ) → c < length level.now.children → AreSpots (child_at (plain_level level.now) c) (row_at (row_lists rows.now) c) }
    ensures { IfOk result (λ vs. AreOrdersTo (plain_level level.now) (row_lists rows.now) (length level.now.children) (map four_of vs.items)) }
{
    let mut all: Vec<SideOrders> = Vec::with_capacity(alloc, level.children.len())?;
    for (c, child) in level.children.as_slice().iter().enumerate() {
        let orders = orders_of_child(alloc, child, rows.at(c))?;
        all.push(orders)?;
    }
    Ok(all)
}
