//! Four boxes in three rows.
ghost use Rattle.std.specs.Prelude.{◌≡◌, IfOk};
ghost use Rattle.level_model.specs.Conditions.{plain_level};
ghost use Rattle.level_split.specs.Examples.{box_of, four_boxes};

use crate::fixtures::level_of;
use drawing_types::list::Items;
use drawing_types::shape::{Point, Size};
use elk_doc::document::{Direction, Placing, PortRule};
use level_model::LevelIn;
use level_split::{BoxesOut, layout_boxes};
use port_order::Child;
use std::alloc::{AllocError, Global};
use std::test::Fail;

fn a_box(alloc: Global, way: Direction, width: u8, height: u8) -> Child
    ensures { result ≡ box_of way width height }
{
    Child {
        size: Size {
            width: width as i64,
            height: height as i64,
        },
        compound: false,
        rule: PortRule::Free,
        direction: way,
        position: None,
        ports: Items::from_vec(Vec::new(alloc)),
    }
}

fn boxes_level(alloc: Global, way: Direction) -> Result<LevelIn, AllocError>
    ensures { IfOk result (λ l. plain_level l ≡ four_boxes way) }
{
    let children = vec![in alloc;
        a_box(alloc, way, 100, 20),
        a_box(alloc, way, 30, 30),
        a_box(alloc, way, 30, 30),
        a_box(alloc, way, 40, 10),
    ]?;
    Ok(level_of(children, Vec::new(alloc), Placing::BrandesKoepf))
}

fn boxes_drawn(alloc: Global, way: Direction) -> Result<BoxesOut, AllocError> {
    let level = boxes_level(alloc, way)?;
    layout_boxes(alloc, level, way)
}

// Rows at the limit 80: the wide box, the two squares side by side, and the flat one.
#[test]
fn four_boxes_stand_in_three_rows(rt: HostRuntime) -> Result<(), Fail> {
    let drawn = boxes_drawn(rt.alloc(), Direction::Right)?;
    let places = [
        Point { x: 0, y: 0 },
        Point { x: 0, y: 40 },
        Point { x: 50, y: 40 },
        Point { x: 0, y: 90 },
    ];
    assert_eq!(rt; drawn.boxes.as_slice(), places.as_slice());
    assert_eq!(rt; (drawn.extent.width, drawn.extent.height), (100, 100));
    Ok(())
}

// The same rows in a document whose level runs to the left: mirrored in the frame.
#[test]
fn rows_are_mirrored_under_left(rt: HostRuntime) -> Result<(), Fail> {
    let drawn = boxes_drawn(rt.alloc(), Direction::Left)?;
    let places = [
        Point { x: 0, y: 0 },
        Point { x: 70, y: 40 },
        Point { x: 20, y: 40 },
        Point { x: 60, y: 90 },
    ];
    assert_eq!(rt; drawn.boxes.as_slice(), places.as_slice());
    Ok(())
}
