//! Fifty long edges drawn by lot: the lanes of each stand at one height.
ghost use Rattle.elk_layers.specs.Layered.{plain, rows_of, IsSound, AreRows};

use crate::checks::{are_rows, is_sound};
use crate::fifty::fifty;
use bk_place::place;
use drawing_types::sweep::Sweep;
use elk_layers::{Layered, Lines, Order};
use std::alloc::{AllocError, Global};
use std::test::Fail;

fn is_lane(layered: &Layered, unit: u32) -> bool {
    match layered.units.get(unit as usize) {
        Some(unit) => unit.child.is_none(),
        None => false,
    }
}

// How many links between lanes there are, and how many of them are horizontal.
fn horizontal_lanes(layered: &Layered, lines: &Lines) -> (usize, usize) {
    let mut inner = 0usize;
    let mut level = 0usize;
    for link in layered.links.as_slice() {
        if is_lane(layered, link.tail) && is_lane(layered, link.head) {
            inner = inner.wrapping_add(1);
            if lines.top.get(link.tail as usize) == lines.top.get(link.head as usize) {
                level = level.wrapping_add(1);
            }
        }
    }
    (inner, level)
}

// The lines of a sweep, of which nothing more is known.
fn placed(
    alloc: Global,
    layered: &Layered,
    order: &Order,
    fixed: Option<Sweep>,
) -> Result<Lines, AllocError>
    requires sound { IsSound (plain layered.now) }
    requires rows { AreRows (plain layered.now) (rows_of order.now) }
{
    place(alloc, layered, order, fixed)
}

#[test]
fn long_edges_come_out_straight(rt: HostRuntime) -> Result<(), Fail> {
    let alloc = rt.alloc();
    let (layered, order) = fifty(alloc)?;
    if !is_sound(&layered) || !are_rows(&layered, &order) {
        return Err("the long edges are no sound level with rows".into());
    }
    for fixed in [
        None,
        Some(Sweep::LeftUp),
        Some(Sweep::LeftDown),
        Some(Sweep::RightUp),
        Some(Sweep::RightDown),
    ] {
        let lines = placed(alloc, &layered, &order, fixed)?;
        let (inner, level) = horizontal_lanes(&layered, &lines);
        assert!(rt; inner > 100);
        assert_eq!(rt; level, inner);
    }
    Ok(())
}
