//! Worked rows, and every length up to 70 with the one matching element at each place.
use lane_count::{any_meets, count_above};
use std::test::Fail;

#[test]
fn worked_rows(rt: HostRuntime) {
    assert_eq!(rt; count_above(&[5, 1, 9, 5, 7], 5), 2);
    assert_eq!(rt; count_above(&[], 5), 0);
    let seventeen = [0, 0, 0, 0, 0, 0, 0, 0, 0, 0, 0, 0, 0, 0, 0, 0, 6];
    assert_eq!(rt; count_above(&seventeen, 5), 1);
    assert!(rt; !any_meets(&[0, 10], &[4, 14], 5, 9));
    assert!(rt; any_meets(&[0, 10], &[4, 14], 4, 9));
}

#[test]
fn one_at_each_place(rt: HostRuntime) -> Result<(), Fail> {
    for n in 0..71usize {
        for at in 0..n + 1 {
            let mut list: Vec<u32> = Vec::new(rt.alloc());
            let mut lo: Vec<i64> = Vec::new(rt.alloc());
            let mut hi: Vec<i64> = Vec::new(rt.alloc());
            for i in 0..n {
                list.push(if i == at { 9 } else { 4 })?;
                lo.push(if i == at { -3 } else { 20 })?;
                hi.push(if i == at { 2 } else { 30 })?;
            }
            let matching = at < n;
            assert_eq!(rt; count_above(list.as_slice(), 5), u64::from(matching));
            assert!(rt; lo.len() == hi.len());
            assert_eq!(rt; any_meets(lo.as_slice(), hi.as_slice(), 1, 7), matching);
            assert!(rt; !any_meets(lo.as_slice(), hi.as_slice(), 3, 7));
        }
    }
    Ok(())
}
