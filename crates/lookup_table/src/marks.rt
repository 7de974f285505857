ghost use Rattle.std.specs.Prelude.{◌≡◌, ℕ, ◌+◌, ◌*◌, ◌/◌, ◌^◌, ◌<◌, ◌≤◌, List, [], ◌∷◌, ◌++◌, length, All};
ghost use Rattle.set_model.specs.declared.block.Block.{Block};
ghost use Rattle.set_model.specs.Blocks.{IsWithin};
ghost use Rattle.field_groups.specs.Groups.{IsWidth};
ghost use Rattle.lookup_table.specs.Table.{IsShaped};
ghost use Rattle.lookup_table.specs.Lines.{OwnsPlaces};
ghost use Rattle.lookup_table.specs.Rows.{IsSameSize, KeepsCells, HasNoRulesFrom, HasOnly, IsBlockMarked, MarksRules};

use crate::lines::Lines;
use field_groups::group_mask;
use set_model::Block;

/// Sets the rules from `first` on, one per block, in each bucket whose value agrees with the block.
pub(crate) fn mark_blocks(buckets: &mut Lines, blocks: &[Block], width: u32, bits: u32, first: u32)
    requires count { first + length blocks.now < 2 ^ 32 }
    requires shape { IsShaped width bits (first + length blocks.now) buckets.old.rows }
    requires within { All (IsWithin bits) blocks.now }
    requires fresh { HasNoRulesFrom first buckets.old.rows }
    requires own { OwnsPlaces first (first + length blocks.now) buckets.old.own }
    ensures size { IsSameSize buckets.old.rows buckets.new.rows }
    ensures kept { KeepsCells first buckets.old.rows buckets.new.rows }
    ensures only { HasOnly width bits first (length blocks.now) blocks.now buckets.new.rows }
    ensures rules { MarksRules width bits first buckets.old.rows buckets.new.rows blocks.now }
    ensures own { buckets.new.own ≡ buckets.old.own }
{
    'rules: for (i, block) in blocks.iter().enumerate() {
        mark_block(buckets, *block, width, bits, first + i as u32);
    }
}

/// Sets rule `r` in each bucket whose value agrees with the block. In each group these buckets are
/// one run.
fn mark_block(buckets: &mut Lines, block: Block, width: u32, bits: u32, r: u32)
    requires groups { IsWidth width bits }
    requires count { length buckets.old.rows ≡ bits / width * 2 ^ width }
    requires place { All (λ row. r < length row.bits) buckets.old.rows }
    requires own { OwnsPlaces r (r + 1) buckets.old.own }
    requires block { IsWithin bits block }
    ensures size { IsSameSize buckets.old.rows buckets.new.rows }
    ensures kept { KeepsCells r buckets.old.rows buckets.new.rows }
    ensures marked { IsBlockMarked width bits (bits / width) block r buckets.old.rows buckets.new.rows }
    ensures rules { MarksRules width bits r buckets.old.rows buckets.new.rows (block ∷ []) }
    ensures own { buckets.new.own ≡ buckets.old.own }
{
    'groups: for g in 0..bits / width {
        let (base, mask) = group_mask(block, width, bits, g);
        let first = ((g as u64) << width) + (base & mask) as u64;
        let count = (1u64 << width) - mask as u64;
        buckets.mark(first, first + count, r);
    }
}
