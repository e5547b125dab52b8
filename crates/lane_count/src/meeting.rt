//! Whether a stretch of numbers meets one of many.
ghost use Rattle.std.specs.Prelude.{◌≡◌, IsTrue, ◌↔◌, length};
ghost use Rattle.lane_count.specs.Meets.{Meets, AllFit};

use std::simd::prelude::*;

/// Whether one of the block's stretches meets the stretch from `a` to `b`.
fn meets_in(lo: [i64; 8], hi: [i64; 8], a: i64, b: i64) -> bool
    requires low_fits { AllFit lo }
    requires high_fits { AllFit hi }
    ensures { IsTrue result ↔ Meets lo hi a b }
{
    let low_enough = i64x8::from_array(lo).simd_le(i64x8::splat(b));
    let high_enough = i64x8::splat(a).simd_le(i64x8::from_array(hi));
    (low_enough & high_enough).to_bitmask() != 0
}

// Each element that is read is known to fit its type. The loop has no effect, so it is compiled to nothing.
fn see_that_all_fit(list: &[i64])
    ensures { AllFit list.now }
{
    for number in list {
        let _value = *number;
    }
}

/// The same test, one stretch at a time.
fn meets_one_by_one(lo: &[i64], hi: &[i64], a: i64, b: i64) -> bool
    requires { length lo.now ≡ length hi.now }
    ensures { IsTrue result ↔ Meets lo.now hi.now a b }
{
    for (i, low) in lo.iter().enumerate() {
        if *low <= b && a <= hi[i] {
            return true;
        }
    }
    false
}

/// Whether for some place `lo[i] <= b` and `hi[i] >= a`: whether one of the closed stretches from `lo[i]` to
/// `hi[i]` meets the one from `a` to `b`, where each of them runs upwards.
pub fn any_meets(lo: &[i64], hi: &[i64], a: i64, b: i64) -> bool
    requires { length lo.now ≡ length hi.now }
    ensures { IsTrue result ↔ Meets lo.now hi.now a b }
{
    see_that_all_fit(lo);
    see_that_all_fit(hi);
    let (lows, low_rest) = lo.as_chunks::<8>();
    let (highs, high_rest) = hi.as_chunks::<8>();
    for k in 0..lows.len() {
        if meets_in(lows[k], highs[k], a, b) {
            return true;
        }
    }
    meets_one_by_one(low_rest, high_rest, a, b)
}
