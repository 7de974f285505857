//! The rules of one word that share a value with a block.
ghost use Rattle.std.specs.Prelude.{◌≡◌, ℕ, ◌+◌, ◌-◌, ◌*◌, ◌/◌, ◌<◌, ◌≤◌, false, List, length, slice_index};
ghost use Rattle.bit_rows.specs.Row.{bit};
ghost use Rattle.field_groups.specs.Groups.{meets, share_value, some_from};
ghost use Rattle.lookup_table.specs.Lines.{IsPage};
ghost use Rattle.lookup_table.specs.Rules.{KeepsBitsWhere, Stands};
ghost use Rattle.lookup_table.specs.Table.{block_at};
ghost use Rattle.set_model.specs.Blocks.{IsWithin};
ghost use Rattle.set_model.specs.declared.block.Block.{Block as OneBlock};

use crate::table::FieldTable;
use field_groups::group_mask;
use set_model::Block;

/// The OR of word `w` of the `n` lines from line `first` on.
fn joined(words: &[u64], first: usize, n: usize, w: usize) -> u64
    requires lines { (first + n) * 8 ≤ length words.now }
    requires word { w < 8 }
    ensures { (k : ℕ) → bit result k ≡ some_from (λ j. bit (slice_index words.now (j * 8 + w)) k) first n }
{
    let mut some = 0;
    'lines: for j in 0..n {
        some |= words[(first + j) * 8 + w];
    }
    some
}

impl FieldTable {
    /// Those bits of `word` whose rule's block shares a value with this block. Bit 0 is rule `64 *
    /// i`.
    pub fn share_word(&self, block: Block, i: u32, word: u64) -> u64
        requires rules { 64 * i < self.now.rules }
        requires within { IsWithin self.now.bits block }
        ensures shared { KeepsBitsWhere self.now (λ rule. share_value rule block) i word result }
        ensures fewer { (k : ℕ) → k < 64 → bit word k ≡ false → bit result k ≡ false }
    {
        let words = self.page(i);
        let mut left = word;
        'groups: for g in 0..self.groups() {
            if left == 0 {
                return 0;
            }
            left &= self.meeting_word(words, block, i, g);
        }
        left
    }

    /// The rules of word `i` that agree with some value of group `g` that this block agrees with.
    /// `words` is the page of these rules.
    fn meeting_word(&self, words: &[u64], block: Block, i: u32, g: u32) -> u64
        requires words { IsPage self.now.buckets.rows (i / 8) words.now }
        requires group { g < self.now.bits / self.now.width }
        requires within { IsWithin self.now.bits block }
        ensures { (blocks : List OneBlock) → Stands self.now blocks → (k : ℕ) → k < 64 → 64 * i + k < self.now.rules
            → bit result k ≡ meets self.now.width self.now.bits (block_at blocks (64 * i + k)) block g }
    {
        let (base, mask) = group_mask(block, self.width, self.bits, g);
        // Each rule agrees with some value of a group that the block leaves free.
        if mask == 0 {
            return u64::MAX;
        }
        let first = ((g as usize) << self.width) + (base & mask) as usize;
        let n = (1usize << self.width) - mask as usize;
        joined(words, first, n, i as usize % 8)
    }
}
