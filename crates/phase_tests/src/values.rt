//! Three values under three bounds.
use separation::{Bound, Constraints, least_lines};
use std::test::Fail;

#[test]
fn three_values(rt: HostRuntime) -> Result<(), Fail> {
    let alloc = rt.alloc();
    let mut order: Vec<u32> = Vec::new(alloc);
    order.push(0)?;
    order.push(1)?;
    order.push(2)?;
    let mut floor: Vec<i64> = Vec::new(alloc);
    floor.push(0)?;
    floor.push(0)?;
    floor.push(0)?;
    let mut bounds: Vec<Bound> = Vec::new(alloc);
    bounds.push(Bound {
        before: 0,
        after: 1,
        gap: 5,
    })?;
    bounds.push(Bound {
        before: 0,
        after: 2,
        gap: 3,
    })?;
    bounds.push(Bound {
        before: 1,
        after: 2,
        gap: 4,
    })?;
    let constraints = Constraints {
        order,
        floor,
        bounds,
    };
    let least = least_lines(alloc, &constraints)?;
    assert_eq!(rt; least.value.as_slice(), [0, 5, 9].as_slice());
    assert_eq!(rt; least.tight.as_slice(), [None, Some(0), Some(2)].as_slice());
    Ok(())
}
