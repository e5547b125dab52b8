//! The links of the fork that each sweep makes horizontal.
use crate::forks::{forked, forked_rows};
use bk_place::align;
use drawing_types::sweep::Sweep;
use std::alloc::{AllocError, Global};
use std::test::Fail;

fn horizontal_links(alloc: Global, sweep: Sweep) -> Result<Vec<u32>, AllocError> {
    let layered = forked(alloc)?;
    let rows = forked_rows(alloc)?;
    let chosen = align(alloc, &layered, &rows, sweep)?;
    Ok(chosen.links)
}

#[test]
fn one_beside_two(rt: HostRuntime) -> Result<(), Fail> {
    for (sweep, link) in [
        (Sweep::LeftUp, 0),
        (Sweep::LeftDown, 1),
        (Sweep::RightUp, 0),
        (Sweep::RightDown, 1),
    ] {
        let links = horizontal_links(rt.alloc(), sweep)?;
        assert_eq!(rt; links.as_slice(), [link].as_slice());
    }
    Ok(())
}
