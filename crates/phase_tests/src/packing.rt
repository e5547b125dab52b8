//! Rows of small boxes.
ghost use Rattle.std.specs.Prelude.{◌-◌, ◌^◌, ◌≤ℤ◌, pos};
ghost use Rattle.box_pack.specs.Boxes.{IsSize};

use box_pack::{best, pack};
use drawing_types::shape::{Point, Size};
use std::test::Fail;

fn size(width: i64, height: i64) -> Size
    requires width { (pos 0 ≤ℤ width) × (width ≤ℤ pos (2 ^ 48 - 2 ^ 20)) }
    requires height { (pos 0 ≤ℤ height) × (height ≤ℤ pos (2 ^ 48 - 2 ^ 20)) }
    ensures { IsSize result }
{
    Size { width, height }
}

fn point(x: i64, y: i64) -> Point {
    Point { x, y }
}

#[test]
fn three_small_boxes_take_two_rows(rt: HostRuntime) -> Result<(), Fail> {
    let sizes = [size(10, 10), size(10, 10), size(10, 10)];
    let rows = pack(rt.alloc(), &sizes, 20, 51)?;
    let places = [point(0, 0), point(30, 0), point(0, 30)];
    assert_eq!(rt; rows.at.as_slice(), places.as_slice());
    assert_eq!(rt; rows.extent, size(40, 40));
    Ok(())
}

#[test]
fn four_boxes_are_squarest_in_three_rows(rt: HostRuntime) -> Result<(), Fail> {
    let sizes = [size(100, 20), size(30, 30), size(30, 30), size(40, 10)];
    let squarest = best(rt.alloc(), &sizes, 20)?;
    assert_eq!(rt; squarest.limit, 80);
    assert_eq!(rt; squarest.rows.extent, size(100, 100));
    Ok(())
}

#[test]
fn no_boxes_have_no_extent(rt: HostRuntime) -> Result<(), Fail> {
    let squarest = best(rt.alloc(), &[], 20)?;
    assert_eq!(rt; squarest.limit, 0);
    assert_eq!(rt; squarest.rows.extent, size(0, 0));
    Ok(())
}
