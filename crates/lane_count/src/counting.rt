//! How many elements of a list are above a bound.
ghost use Rattle.std.specs.Prelude.{◌≡◌, nat_lt, count_by};

use std::simd::prelude::*;

/// How many of the block's elements are greater than `bound`.
fn count_in(block: [u32; 16], bound: u32) -> u64
    ensures { result ≡ count_by (λ x. nat_lt bound x) block }
{
    let above = u32x16::from_array(block).simd_gt(u32x16::splat(bound));
    above.to_bitmask().count_ones() as u64
}

/// How many elements are greater than `bound`.
///
/// Proved:
/// - The vector kernels that cross_reduce and layout_check use equal the plain count and the plain test, for every length.
///   (`any_meets`)
pub fn count_above(list: &[u32], bound: u32) -> u64
    ensures { result ≡ count_by (λ x. nat_lt bound x) list.now }
{
    let (blocks, rest) = list.as_chunks::<16>();
    let mut total: u64 = 0;
    for block in blocks {
        total += count_in(*block, bound);
    }
    for number in rest {
        if *number > bound {
            total += 1;
        }
    }
    total
}
