//! How far below the top of each level its content begins.

use crate::element::{elements_of, number_at, placed_labels};
use crate::levels::Levels;
use std::alloc::{AllocError, Global};

fn narrow(rooms: &mut [f64], level: usize, top: f64) {
    if let Some(room) = rooms.get_mut(level) {
        *room = room.min(top);
    }
}

fn narrow_by_nodes(
    alloc: Global,
    levels: &Levels<'_>,
    rooms: &mut [f64],
) -> Result<(), AllocError> {
    for node in levels.nodes.iter() {
        if let Some(parent) = node.parent {
            let top = number_at(node.value, "y");
            narrow(rooms, parent, top);
            for label in placed_labels(alloc, node.value)? {
                narrow(rooms, parent, top + number_at(label, "y"));
            }
            for port in elements_of(alloc, node.value, "ports")? {
                narrow(rooms, parent, top + number_at(port, "y"));
            }
        }
    }
    Ok(())
}

fn narrow_by_edges(
    alloc: Global,
    levels: &Levels<'_>,
    rooms: &mut [f64],
) -> Result<(), AllocError> {
    for edge in levels.edges.iter() {
        for section in edge.sections.iter() {
            for point in section.points.iter() {
                narrow(rooms, edge.home, point.y);
            }
        }
        for label in placed_labels(alloc, edge.value)? {
            narrow(rooms, edge.home, number_at(label, "y"));
        }
    }
    Ok(())
}

pub(crate) fn headrooms(alloc: Global, levels: &Levels<'_>) -> Result<Vec<f64>, AllocError> {
    let mut rooms = vec![in alloc; f64::INFINITY; levels.nodes.len()]?;
    narrow_by_nodes(alloc, levels, rooms.as_mut_slice())?;
    narrow_by_edges(alloc, levels, rooms.as_mut_slice())?;
    Ok(rooms)
}
