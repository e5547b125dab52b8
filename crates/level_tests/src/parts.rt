//! The parts of a level whose children and edges are mixed.
use crate::fixtures::mixed;
use level_parts::{PartLevels, split};
use std::alloc::{AllocError, Global};
use std::test::Fail;

fn parts_of_mixed(alloc: Global) -> Result<PartLevels, AllocError> {
    let level = mixed(alloc)?;
    split(alloc, &level)
}

#[test]
fn three_parts(rt: HostRuntime) -> Result<(), Fail> {
    let parts = parts_of_mixed(rt.alloc())?;
    assert_eq!(rt; parts.children.parts.as_slice(), [0, 1, 2, 1, 0].as_slice());
    assert_eq!(rt;
        parts.children.places.as_slice(),
        [0, 0, 0, 1, 1].as_slice()
    );
    assert_eq!(rt; parts.edges.parts.as_slice(), [1, 0, 2, 1].as_slice());
    assert_eq!(rt; parts.edges.places.as_slice(), [0, 0, 0, 1].as_slice());
    assert_eq!(rt; parts.parts.len(), 3);
    for (part, size) in parts.parts.as_slice().iter().zip([2, 2, 1].iter()) {
        assert_eq!(rt; part.children.len(), *size);
        assert_eq!(rt; part.level.children.len(), *size);
        for edge in part.level.edges.as_slice() {
            assert!(rt; edge.source.child < 2);
        }
    }
    Ok(())
}
