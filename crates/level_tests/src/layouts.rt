//! The layout of two children that two parallel edges join.
use crate::fixtures::parallel;
use level_draw::LevelOut;
use level_layout::layout_level;
use std::alloc::{AllocError, Global};
use std::test::Fail;

fn parallel_drawn(alloc: Global) -> Result<LevelOut, AllocError> {
    let level = parallel(alloc)?;
    layout_level(alloc, &level)
}

// Both edges run straight, at a third and at two thirds of the children's height; the first is in the tree of pivots, so it
// has the flow of both.
#[test]
fn two_parallel_edges_are_laid_out(rt: HostRuntime) -> Result<(), Fail> {
    let drawn = parallel_drawn(rt.alloc())?;
    assert_eq!(rt; (drawn.extent.width, drawn.extent.height), (80, 30));
    assert_eq!(rt; drawn.boxes.len(), 2);
    for (place, x) in drawn.boxes.as_slice().iter().zip([0, 50].iter()) {
        assert_eq!(rt; (place.x, place.y), (*x, 0));
    }
    assert_eq!(rt; drawn.sections.len(), 2);
    for (section, y) in drawn.sections.as_slice().iter().zip([10, 20].iter()) {
        assert_eq!(rt; (section.start.x, section.start.y), (30, *y));
        assert_eq!(rt; (section.end.x, section.end.y), (50, *y));
        assert_eq!(rt; section.bends.len(), 0);
    }
    assert_eq!(rt; drawn.certificate.flow.as_slice(), [2, 0].as_slice());
    assert_eq!(rt; drawn.certificate.span, 2);
    Ok(())
}
