//! Small graphs.
use route_slots::{Link, cut_cycles};
use std::test::Fail;

#[test]
fn cycles_are_cut_and_chains_are_not(rt: HostRuntime) -> Result<(), Fail> {
    let links = [
        Link { tail: 0, head: 1 },
        Link { tail: 1, head: 2 },
        Link { tail: 2, head: 1 },
        Link { tail: 2, head: 3 },
        Link { tail: 3, head: 3 },
    ];
    let cuts = cut_cycles(rt.alloc(), 4, &links)?;
    assert_eq!(rt; cuts.cut.len(), 5);
    assert_eq!(rt; cuts.depths.len(), 4);
    assert!(rt; !cuts.cut[0] && !cuts.cut[3]);
    assert!(rt; cuts.cut[1] || cuts.cut[2]);
    assert!(rt; cuts.cut[4]);
    assert_eq!(rt; cuts.depths[3], 0);
    Ok(())
}
