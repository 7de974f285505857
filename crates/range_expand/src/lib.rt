//! Splits an interval of field values into blocks, which are aligned runs of a power of two.
//!
//! A lookup table has one rule for each block. The interval 192.168.1.0-192.168.2.1 has two:
//!
//! ```text
//! base 192.168.1.0   8 free bits   192.168.1.0/24   256 values
//! base 192.168.2.0   1 free bit    192.168.2.0/31   2 values
//! ```
//!
//! At each base the split takes the largest block that is aligned there and doesn't pass the
//! interval's end. Then it goes on after that block. The port 80 alone is one block, and the ports
//! 1024 to 65535 are six. An interval of a field of `b` bits has at most `2 * b` blocks.
//!
//! **Definitions:** `specs/Split.antt`, on the split itself in `set_model`, `specs/Blocks.antt`.
//! **Theory:** docs/architecture.md, "The classifier, by one example".
#![tactic(auto)]

ghost use Rattle.std.specs.Prelude.{◌≡◌, ℕ, ◌+◌, ◌*◌, ◌^◌, ◌<◌, ◌≤◌, List, length, All};
ghost use Rattle.std.specs.Iterator.{YieldsFirst, item_count};
ghost use Rattle.set_model.specs.Blocks.{blocks, free_bits, IsWithin};
ghost use Rattle.set_model.specs.declared.block.Block.{Block};
ghost use Rattle.range_expand.specs.Split.{IsFieldInterval, IsHeldOnce};

use set_model::Block;
use std::marker::Model;

/// The blocks of an interval that are still to come, the lowest first.
///
/// At each base the split takes the largest block that is aligned there and doesn't pass the
/// interval's end. A block's size is a power of two. Then the split goes on after that block.
#[derive(Drop)]
pub struct Blocks {
    low: u128,
    high: u128,
    bits: u32,
}

// If an interval's low end is above its high end, it has no block left. So the end needs no flag
// and no value above the greatest `u128`.
impl Model for Blocks {
    ghost Value = { List Block };

    ghost view = { λ left. blocks left.low left.high left.bits };

    ghost invariant = { λ left. (left.high < 2 ^ left.bits) × (1 ≤ left.bits) × (left.bits ≤ 128) };
}

impl Blocks {
    /// Splits the values from `low` to `high`, both included, of a field of `bits` bits.
    ///
    /// Exactly one of the blocks holds each of these values, and no block holds another value.
    pub fn new(low: u128, high: u128, bits: u32) -> Blocks
        requires { IsFieldInterval low high bits }
        ensures split { result ≡ blocks low high bits }
        ensures held { IsHeldOnce low high result }
        ensures within { All (IsWithin bits) result }

        ensures some { 1 ≤ length result }
        ensures few { length result ≤ 2 * bits }
        ensures whole { low ≡ 0 → high + 1 ≡ 2 ^ bits → length result ≡ 1 }
    {
        Blocks { low, high, bits }
    }
}

impl Iterator for Blocks {
    type Item = Block;

    ghost next_gives = { YieldsFirst (λ left. left) };

    ghost remaining = { item_count (λ left. left) };

    fn next(&mut self) -> Option<Block> {
        if self.low > self.high {
            return None;
        }
        let block = Block {
            base: self.low,
            free_bits: first_free_bits(self.low, self.high, self.bits),
        };
        let last = last_value(block.base, block.free_bits);
        if last < self.high {
            self.low = last + 1;
        } else {
            self.low = 1;
            self.high = 0;
        }
        Some(block)
    }
}

/// How many blocks the values from `low` to `high` of a field of `bits` bits have.
pub fn count(low: u128, high: u128, bits: u32) -> u32
    requires { IsFieldInterval low high bits }
    ensures count { result ≡ length (blocks low high bits) }

    ensures some { 1 ≤ result }
    ensures few { result ≤ 2 * bits }
    ensures whole { low ≡ 0 → high + 1 ≡ 2 ^ bits → result ≡ 1 }
{
    Blocks::new(low, high, bits).count() as u32
}

/// How many bits the first block of an interval leaves free.
#[tactic(auto, using(crate::proofs::FirstBlock::powers))]
fn first_free_bits(low: u128, high: u128, bits: u32) -> u32
    requires { IsFieldInterval low high bits }
    ensures greatest { result ≡ free_bits low high bits }
    ensures small { result ≤ 128 }
    ensures fits { low + 2 ^ result ≤ high + 1 }
{
    low.trailing_zeros().min(log2_of_size(high - low)).min(bits)
}

/// The exponent of the largest power of two that is at most `width + 1`, the number of values of
/// an interval whose ends are `width` apart.
#[inline(always)]
fn log2_of_size(width: u128) -> u32
    ensures most { result ≤ 128 }
    ensures below { 2 ^ result ≤ width + 1 }
    ensures above { width + 1 < 2 * 2 ^ result }
{
    if width == u128::MAX {
        128
    } else {
        (width + 1).ilog2()
    }
}

/// The last value of a block.
#[tactic(auto, using(crate::proofs::FirstBlock::powers))]
fn last_value(base: u128, free_bits: u32) -> u128
    requires bits { free_bits ≤ 128 }
    requires fits { base + 2 ^ free_bits ≤ 2 ^ 128 }
    ensures { result + 1 ≡ base + 2 ^ free_bits }
{
    if free_bits < 128 {
        base + ((1u128 << free_bits) - 1)
    } else {
        u128::MAX
    }
}
