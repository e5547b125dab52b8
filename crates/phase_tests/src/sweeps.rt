//! The places of the fork by sweeps.
use crate::forks::{forked, forked_rows};
use bk_place::place;
use drawing_types::sweep::Sweep;
use elk_layers::Lines;
use std::alloc::{AllocError, Global};
use std::test::Fail;

fn placed(alloc: Global, fixed: Option<Sweep>) -> Result<Lines, AllocError> {
    let layered = forked(alloc)?;
    let rows = forked_rows(alloc)?;
    place(alloc, &layered, &rows, fixed)
}

#[test]
fn one_beside_two(rt: HostRuntime) -> Result<(), Fail> {
    for fixed in [None, Some(Sweep::LeftUp)] {
        let lines = placed(rt.alloc(), fixed)?;
        assert_eq!(rt; lines.top.as_slice(), [5, 0, 50].as_slice());
    }
    Ok(())
}
