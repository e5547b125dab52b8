//! The parts of a level, laid out in rows.
use crate::fixtures::mixed;
use level_split::{PartsOut, layout_parts};
use std::alloc::{AllocError, Global};
use std::test::Fail;

fn parts_drawn(alloc: Global) -> Result<PartsOut, AllocError> {
    let level = mixed(alloc)?;
    layout_parts(alloc, &level, 20)
}

// One edge of the second part is reversed; its places are those in the level.
#[test]
fn parts_keep_their_edges(rt: HostRuntime) -> Result<(), Fail> {
    let drawn = parts_drawn(rt.alloc())?;
    assert_eq!(rt; drawn.parts.as_slice(), [0, 1, 2, 1, 0].as_slice());
    let certificate = &drawn.certificate;
    assert_eq!(rt; certificate.layers.as_slice(), [1, 0, 0, 1, 0].as_slice());
    assert_eq!(rt; certificate.reversed.as_slice(), [0].as_slice());
    assert_eq!(rt; certificate.flow.as_slice(), [4, 1, 0, 0].as_slice());
    assert_eq!(rt; certificate.span, 5);
    let places = [(0, 0), (0, 50), (0, 100)];
    assert_eq!(rt; drawn.at.len(), places.len());
    for (place, wanted) in drawn.at.as_slice().iter().zip(&places) {
        assert_eq!(rt; (place.x, place.y), *wanted);
    }
    assert_eq!(rt; drawn.sections.len(), 4);
    Ok(())
}
