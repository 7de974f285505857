ghost use Rattle.std.specs.Prelude.{◌≡◌, ℕ, ◌+◌, ◌-◌, ◌*◌, ◌/◌, ◌<◌, ◌≤◌, ◌^◌, false};
ghost use Rattle.bit_rows.specs.Row.{bit};
ghost use Rattle.set_model.specs.Blocks.{holds_value};
ghost use Rattle.lookup_table.specs.Lines.{IsPage};
ghost use Rattle.lookup_table.specs.Rules.{KeepsBitsWhere, IsSieved};

use crate::table::FieldTable;
use field_groups::group_count;

// Most of a lookup's instructions cut a value into groups. If the compiler knows the width and the
// bits, each cut is a shift by a constant, and 128 bits are two words. So there is a function for
// each size that a field has.

impl FieldTable {
    /// Those bits of `word` whose rule's block holds the value. Bit 0 is rule `64 * i`. Bits past
    /// the last rule are 0.
    pub fn match_word(&self, value: u128, i: u32, word: u64) -> u64
        requires { value < 2 ^ self.now.bits }
        ensures held { KeepsBitsWhere self.now (λ rule. holds_value rule value) i word result }
        ensures past { (k : ℕ) → k < 64 → self.now.rules ≤ 64 * i + k → bit result k ≡ false }
    {
        if i >= self.rules.div_ceil(64) {
            return 0;
        }
        self.match_before::<0>(self.page(i), value, i, word)
    }

    /// Those bits of `word` that all groups of the value but the `LAST` last ones leave. Bit 0 is
    /// rule `64 * i`, and `words` the page of that rule.
    #[inline(always)]
    pub fn match_before<const LAST: u32>(
        &self,
        words: &[u64],
        value: u128,
        i: u32,
        word: u64,
    ) -> u64
        requires value { value < 2 ^ self.now.bits }
        requires words { IsPage self.now.buckets.rows (i / 8) words.now }
        ensures { IsSieved self.now value (self.now.bits / self.now.width - LAST) i word result }
    {
        if self.width == 8 {
            match self.bits {
                8 => self.match_sized::<8, 8, LAST>(words, value, i, word),
                16 => self.match_sized::<8, 16, LAST>(words, value, i, word),
                32 => self.match_sized::<8, 32, LAST>(words, value, i, word),
                48 => self.match_sized::<8, 48, LAST>(words, value, i, word),
                128 => self.match_sized::<8, 128, LAST>(words, value, i, word),
                bits => self.match_in(words, 8, bits, LAST, value, i, word),
            }
        } else {
            match self.bits {
                8 => self.match_sized::<4, 8, LAST>(words, value, i, word),
                16 => self.match_sized::<4, 16, LAST>(words, value, i, word),
                32 => self.match_sized::<4, 32, LAST>(words, value, i, word),
                48 => self.match_sized::<4, 48, LAST>(words, value, i, word),
                128 => self.match_sized::<4, 128, LAST>(words, value, i, word),
                bits => self.match_in(words, 4, bits, LAST, value, i, word),
            }
        }
    }

    /// As `match_before`, for one width and one number of bits. It isn't inlined: else the compiler
    /// computes the groups of all sizes before it looks at the size.
    #[inline(never)]
    fn match_sized<const WIDTH: u32, const BITS: u32, const LAST: u32>(
        &self,
        words: &[u64],
        value: u128,
        i: u32,
        word: u64,
    ) -> u64
        requires width { WIDTH ≡ self.now.width }
        requires bits { BITS ≡ self.now.bits }
        requires value { value < 2 ^ self.now.bits }
        requires words { IsPage self.now.buckets.rows (i / 8) words.now }
        ensures { IsSieved self.now value (self.now.bits / self.now.width - LAST) i word result }
    {
        self.match_in(words, WIDTH, BITS, LAST, value, i, word)
    }

    /// As `match_before`, with the table's width and bits.
    #[inline(always)]
    fn match_in(
        &self,
        words: &[u64],
        width: u32,
        bits: u32,
        last: u32,
        value: u128,
        i: u32,
        word: u64,
    ) -> u64
        requires width { width ≡ self.now.width }
        requires bits { bits ≡ self.now.bits }
        requires value { value < 2 ^ self.now.bits }
        requires words { IsPage self.now.buckets.rows (i / 8) words.now }
        ensures { IsSieved self.now value (self.now.bits / self.now.width - last) i word result }
    {
        let mut left = word;
        'groups: for g in 0..group_count(width, bits).saturating_sub(last) {
            if left == 0 {
                return 0;
            }
            left &= words[self.place_in(width, bits, value, g) * 8 + i as usize % 8];
        }
        left
    }
}
