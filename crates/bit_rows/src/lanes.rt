// Eight words at once.
ghost use Rattle.std.specs.Prelude.{◌≡◌, ℕ, ◌+◌, ◌<◌, ◌≤◌, length, slice_index, bit_and, bit_or, IsTrue};
ghost use Rattle.bit_rows.specs.Words.{IsWritten};

use std::simd::prelude::*;

/// ANDs the eight words from word `w` on with those of `other`.
#[inline(always)]
pub(crate) fn and_lanes(words: &mut [u64], other: &[u64], w: usize)
    requires here { w + 8 ≤ length words.old }
    requires there { w + 8 ≤ length other.now }
    ensures length { length words.new ≡ length words.old }
    ensures written { IsWritten (λ k. bit_and (slice_index words.old k) (slice_index other.now k))
        w (w + 8) words.old words.new }
{
    let lanes = u64x8::from_slice(&words[w..]) & u64x8::from_slice(&other[w..]);
    lanes.copy_to_slice(&mut words[w..]);
}

/// ORs the eight words from word `w` on with those of `other`.
#[inline(always)]
pub(crate) fn or_lanes(words: &mut [u64], other: &[u64], w: usize)
    requires here { w + 8 ≤ length words.old }
    requires there { w + 8 ≤ length other.now }
    ensures length { length words.new ≡ length words.old }
    ensures written { IsWritten (λ k. bit_or (slice_index words.old k) (slice_index other.now k))
        w (w + 8) words.old words.new }
{
    let lanes = u64x8::from_slice(&words[w..]) | u64x8::from_slice(&other[w..]);
    lanes.copy_to_slice(&mut words[w..]);
}

/// Makes the eight words from word `w` on all `value`.
#[inline(always)]
pub(crate) fn fill_lanes(words: &mut [u64], w: usize, value: u64)
    requires { w + 8 ≤ length words.old }
    ensures length { length words.new ≡ length words.old }
    ensures written { IsWritten (λ _. value) w (w + 8) words.old words.new }
{
    u64x8::splat(value).copy_to_slice(&mut words[w..]);
}

/// Whether the eight words from word `w` on are all 0.
#[inline(always)]
pub(crate) fn are_lanes_zero(words: &[u64], w: usize) -> bool
    requires { w + 8 ≤ length words.now }
    ensures { IsTrue result → (k : ℕ) → w ≤ k → k < w + 8 → slice_index words.now k ≡ 0 }
{
    u64x8::from_slice(&words[w..]).reduce_or() == 0
}
