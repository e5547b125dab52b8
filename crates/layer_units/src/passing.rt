//! Whether edges leave the ports of children and enter them.
ghost use Rattle.std.specs.Prelude.{◌≡◌, ◌+◌, ◌<◌, length, slice_set, IfOk, IfSome};
ghost use Rattle.dock_table.specs.Rows.{row_at};
ghost use Rattle.level_model.specs.Conditions.{plain_level, IsLevel};
ghost use Rattle.layer_units.specs.Passing.{ArePassed, row_with, spot_lists, with_flow};

use dock_table::port_rows;
use level_model::{EdgeEnd, LevelIn};
use port_order::Spot;
use std::alloc::{AllocError, Global};

/// By child, the spots of its ports, without means.
#[derive(Drop)]
pub(crate) struct PortSpots {
    lists: Vec<Vec<Spot>>,
}

impl PortSpots {
    /// The spots of a child's ports.
    pub(crate) fn at(&self, child: usize) -> &[Spot]
        requires { child < length (spot_lists self.now) }
        ensures { result.now ≡ row_at (spot_lists self.now) child }
    {
        self.lists[child].as_slice()
    }
}

// The spot of a port that one more edge enters, or leaves.
fn with_flow(enters: bool, spot: Spot) -> Spot
    ensures { result ≡ with_flow enters spot }
{
    Spot {
        port: spot.port,
        number: spot.number,
        leaves: spot.leaves || !enters,
        enters: spot.enters || enters,
        mean: spot.mean,
    }
}

// Notes for a child's port, if an end is at one, that an edge enters or leaves there.
fn note_port(row: &mut Vec<Spot>, port: Option<u32>, enters: bool)
    requires { IfSome port (λ k. k < length row.old.items) }
    ensures { row.new.items ≡ row_with port enters row.old.items }
{
    match port {
        None => {}
        Some(port) => {
            row[port as usize] = with_flow(enters, row[port as usize]);
        }
    }
}

// Notes that an edge enters or leaves at an end.
fn note_end(spots: &mut PortSpots, spoke: EdgeEnd, enters: bool)
    requires child { spoke.child < length (spot_lists spots.old) }
    requires port { IfSome spoke.port (λ k. k < length (row_at (spot_lists spots.old) spoke.child)) }
    ensures { spot_lists spots.new
        ≡ slice_set (spot_lists spots.old) spoke.child (row_with spoke.port enters (row_at (spot_lists spots.old) spoke.child)) }
{
    note_port(&mut spots.lists[spoke.child as usize], spoke.port, enters);
}

// Notes an edge at the ports that it leaves and enters. A self-loop does neither.
fn note_edge(spots: &mut PortSpots, level: &LevelIn, marks: &[bool], edge: usize)
    requires level { IsLevel (plain_level level.now) }
    requires marks { length marks.now ≡ length level.now.edges }
    requires edge { edge < length level.now.edges }
    requires so_far { ArePassed (plain_level level.now) marks.now edge (spot_lists spots.old) }
    ensures { ArePassed (plain_level level.now) marks.now (edge + 1) (spot_lists spots.new) }
{
    let found = *level.edges.at(edge);
    let looped = found.is_loop();
    if looped {
        return;
    }
    let is_reversed = marks[edge];
    note_end(spots, found.source, is_reversed);
    note_end(spots, found.target, !is_reversed);
}

/// The spots of the ports of a level's children, from the edges of the level and marks of those that are reversed.
pub(crate) fn port_spots(
    alloc: Global,
    level: &LevelIn,
    marks: &[bool],
) -> Result<PortSpots, AllocError>
    requires level { IsLevel (plain_level level.now) }
    requires marks { length marks.now ≡ length level.now.edges }
    ensures { IfOk result (λ spots. ArePassed (plain_level level.now) marks.now (length level.now.edges) (spot_lists spots)) }
{
    let mut spots = PortSpots {
        lists: port_rows(alloc, level)?,
    };
    for edge in 0..level.edges.len() {
        note_edge(&mut spots, level, marks, edge);
    }
    Ok(spots)
}
