//! The gaps of two children that two parallel edges join.
use crate::fixtures::{parallel, parallel_layered, parallel_table};
use level_model::marks_of;
use level_nets::sheet::Sheet;
use level_nets::{Routing, gaps_of};
use std::alloc::{AllocError, Global};
use std::test::Fail;

fn routing(alloc: Global) -> Result<Routing, AllocError> {
    let level = parallel(alloc)?;
    let layered = parallel_layered(alloc)?;
    let table = parallel_table(alloc)?;
    let is_reversed = marks_of(alloc, &[], level.edges.len())?;
    let sheet = Sheet {
        level: &level,
        layered: &layered,
        tops: &[0, 0],
        reversed: &[],
        is_reversed: is_reversed.as_slice(),
        table: &table,
    };
    gaps_of(alloc, &sheet)
}

#[test]
fn parallel_edges_run_straight_through_one_gap(rt: HostRuntime) -> Result<(), Fail> {
    let routing = routing(rt.alloc())?;
    assert_eq!(rt; routing.gaps.len(), 3);
    let gap = routing.gaps.at(1);
    assert_eq!(rt; (gap.left, gap.right), (30, 50));
    assert_eq!(rt; (gap.nets.len(), gap.slots.count), (2, 0));
    assert_eq!(rt; gap.nets.as_slice()[1].a.height, 20);
    assert_eq!(rt; routing.gaps.at(2).left, 80);
    assert_eq!(rt; routing.links.as_slice(), [0, 1].as_slice());
    Ok(())
}
