//! The least heights of the fork, and of one whose lower prong is doubled, where links weigh what alignment says.
ghost use Rattle.std.specs.Prelude.{◌≤◌};
ghost use Rattle.ns_place.specs.Weighed.{greatest_weight};

use crate::forks::{doubled, forked, forked_rows};
use ns_place::{LeastPlacing, place_least, place_straight};
use std::alloc::{AllocError, Global};
use std::test::Fail;

fn placing(alloc: Global) -> Result<LeastPlacing, AllocError> {
    let layered = forked(alloc)?;
    let rows = forked_rows(alloc)?;
    place_least(alloc, &layered, &rows)
}

fn straightened(alloc: Global, straightness: u32) -> Result<LeastPlacing, AllocError>
    requires { straightness ≤ greatest_weight }
{
    let layered = doubled(alloc)?;
    let rows = forked_rows(alloc)?;
    place_straight(alloc, &layered, &rows, straightness)
}

#[test]
fn one_beside_two(rt: HostRuntime) -> Result<(), Fail> {
    let placing = placing(rt.alloc())?;
    assert_eq!(rt; placing.height, 40);
    assert_eq!(rt; placing.link_flow.as_slice(), [-1, 1].as_slice());
    let pairs = placing.pairs.as_slice();
    assert_eq!(rt; pairs.len(), 2);
    assert!(rt; !pairs[0].body);
    assert!(rt; pairs[1].body);
    assert_eq!(rt; pairs[0].flow.checked_add(pairs[1].flow), Some(1));
    Ok(())
}

// Two links pull the single unit down. The third, which alignment keeps horizontal, stays straight if bending it costs more
// than bending the two.
#[test]
fn weights_decide_which_links_bend(rt: HostRuntime) -> Result<(), Fail> {
    let alloc = rt.alloc();
    let bent = straightened(alloc, 1)?;
    assert_eq!(rt; bent.height, 40);
    assert_eq!(rt; bent.lines.top.as_slice(), [45, 0, 50].as_slice());
    let straight = straightened(alloc, 4)?;
    assert_eq!(rt; straight.height, 80);
    assert_eq!(rt; straight.lines.top.as_slice(), [5, 0, 50].as_slice());
    assert_eq!(rt; straight.link_flow.as_slice(), [-2, 1, 1].as_slice());
    let free = straightened(alloc, 0)?;
    assert_eq!(rt; free.height, 0);
    Ok(())
}
