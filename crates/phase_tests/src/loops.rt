//! The table of pairs of sides.
use drawing_types::shape::Side;
use self_loops::{LoopEnds, LoopLane, lanes_of_loops, loop_legs};
use std::test::Fail;

fn ends(edge: u32, source: Side, target: Side) -> LoopEnds {
    LoopEnds {
        edge,
        source,
        target,
        source_at: 1,
        target_at: 2,
    }
}

#[test]
fn lanes_stand_in_the_order_of_loops(rt: HostRuntime) -> Result<(), Fail> {
    let north = ends(3, Side::East, Side::West);
    let both = ends(5, Side::South, Side::North);
    let mut one_dock = ends(6, Side::North, Side::North);
    one_dock.target_at = 1;
    let south = ends(7, Side::West, Side::South);
    let loops = [north, both, one_dock, south];
    let lanes = lanes_of_loops(rt.alloc(), &loops)?;
    let wanted = [
        LoopLane {
            edge: 3,
            side: Side::North,
        },
        LoopLane {
            edge: 5,
            side: Side::North,
        },
        LoopLane {
            edge: 5,
            side: Side::South,
        },
        LoopLane {
            edge: 7,
            side: Side::South,
        },
    ];
    assert_eq!(rt; lanes.as_slice(), wanted.as_slice());
    Ok(())
}

#[test]
fn gaps_are_those_of_the_table(rt: HostRuntime) {
    assert_eq!(rt; loop_legs(&ends(0, Side::East, Side::West)), (true, true));
    assert_eq!(rt;
        loop_legs(&ends(0, Side::North, Side::South)),
        (false, true)
    );
    assert_eq!(rt; loop_legs(&ends(0, Side::South, Side::West)), (true, false));
    assert_eq!(rt;
        loop_legs(&ends(0, Side::South, Side::South)),
        (false, false)
    );
}
