//! The layout of a level of boxes.
ghost use Rattle.std.specs.Prelude.{◌≡◌, ◌≤◌, map, length, IfOk};
ghost use Rattle.elk_doc.specs.Sound.{IsDistance};
ghost use Rattle.level_model.specs.Conditions.{plain_level, IsLevel};
ghost use Rattle.box_pack.specs.Boxes.{AreSizes};
ghost use Rattle.box_pack.specs.Squareness.{IsSquarest};
ghost use Rattle.level_split.specs.Boxes.{HasRoom, IsBoxesLayout, alone};
ghost use Rattle.level_split.specs.Outlines.{outline_size};

use crate::outlines::outlines_of;
use crate::placing::{boxes_of, sizes_of};
use box_pack::{Squarest, best};
use drawing_types::list::Items;
use drawing_types::shape::{Point, Rect, Size};
use elk_doc::document::Direction;
use level_layout::layout_level;
use level_model::LevelIn;
use std::alloc::{AllocError, Global};
use working_frame::rotated_size;

/// A level of boxes as it is drawn: boxes and ports by child, ports as places in their child's box.
#[derive(Drop)]
pub struct BoxesOut {
    pub boxes: Items<Point>,
    pub ports: Items<Items<Point>>,
    pub extent: Size,
}

// The level without its edges.
fn alone(alloc: Global, level: LevelIn) -> LevelIn
    ensures { result ≡ alone level }
{
    LevelIn {
        children: level.children,
        edges: Items::from_vec(Vec::new(alloc)),
        spacing: level.spacing,
        fixed: level.fixed,
        placing: level.placing,
        choices: level.choices,
    }
}

// The squarest rows of these outlines.
fn rows_of(
    alloc: Global,
    way: Direction,
    outlines: &[Rect],
    gap: i64,
) -> Result<Squarest, AllocError>
    requires count { length outlines.now ≤ 2048 }
    requires sizes { AreSizes (map (outline_size way) outlines.now) }
    requires gap { IsDistance gap }
    ensures { IfOk result (IsSquarest (map (outline_size way) outlines.now) gap) }
{
    let sizes = sizes_of(alloc, way, outlines)?;
    best(alloc, sizes.as_slice(), gap)
}

/// The layout of a level as one of boxes, in whole document units and in the frame in which its direction runs to the right.
///
/// Ports are placed as in the layout of the level's children without its edges. In the document, where the level's direction is
/// the given one, the outlines of the children stand in the squarest rows, in document order. The only error is out of memory.
///
/// Proved:
/// - In the layout of a level of boxes, ports stand as in a layout of its children without edges.
/// - In the document the outlines of the children stand in the rows that come closest to a square, in document order, with the gap
///   between nodes.
/// - The extent is that of the rows.
pub fn layout_boxes(alloc: Global, level: LevelIn, way: Direction) -> Result<BoxesOut, AllocError>
    requires { IsLevel (plain_level level) }
    ensures boxes { IfOk result (IsBoxesLayout level way) }
    ensures room { IfOk result HasRoom }
{
    let level = alone(alloc, level);
    let out = layout_level(alloc, &level)?;
    let ports = out.ports;
    let outlines = outlines_of(alloc, level.children.as_slice(), ports.as_slice())?;
    let squarest = rows_of(alloc, way, outlines.as_slice(), level.spacing.node_node)?;
    let boxes = boxes_of(alloc, way, &squarest.rows, outlines.as_slice())?;
    Ok(BoxesOut {
        boxes: Items::from_vec(boxes),
        ports,
        extent: rotated_size(way, squarest.rows.extent),
    })
}
