//! Splits, turns and removals, cycles and orders, worked by hand.
use crate::steps::after;
use std::test::Fail;

// A split goes on in the same place, and a copy doesn't see it. A turn puts the edge last. A loop counts twice. A node goes with its
// edges. Of a cycle of three one edge is reversed, and a loop stays.
const WORKED: &str = "\
room 4 4, node, edge 0 0, split 0, joins 0 0 1, joins 1 1 0, in 0 1, bounds 2 2
node, node, edge 1 0, edge 0 1, turn 0, joins 0 0 1, out 0 1 0, in 1 1 0, has 0, cut 0, lost 0
node, edge 0 0, degree 0 2
node, node, node, edge 0 1, edge 1 2, edge 0 2, drop 1, gone 1, joins 2 0 2, out 0 2, in 2 2, degree 0 1, degree 2 1
room 4 4, node, node, node, edge 0 1, edge 1 2, edge 2 0, cyclic, way 1 0 1 2, reversed 1, order 3
node, edge 0 0, cyclic, way 0 0, reversed 0, has 0";

#[test]
fn worked_graphs(rt: HostRuntime) -> Result<(), Fail> {
    for steps in WORKED.lines() {
        after(rt.alloc(), steps)?;
    }
    Ok(())
}
