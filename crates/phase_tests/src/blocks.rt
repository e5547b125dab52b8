//! The places of the fork with one link level.
use crate::forks::{forked, forked_rows};
use std::test::Fail;
use unit_blocks::place_links;

#[test]
fn one_beside_two(rt: HostRuntime) -> Result<(), Fail> {
    let alloc = rt.alloc();
    let layered = forked(alloc)?;
    let rows = forked_rows(alloc)?;
    let lines = place_links(alloc, &layered, &rows, [0].as_slice())?;
    assert_eq!(rt; lines.top.as_slice(), [5, 0, 50].as_slice());
    Ok(())
}
