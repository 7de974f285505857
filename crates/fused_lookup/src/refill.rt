ghost use Rattle.std.specs.Prelude.{◌≡◌, ◌+◌, ◌^◌, ◌<◌, ◌≤◌, length, All};
ghost use Rattle.set_model.specs.Blocks.{holds_value};
ghost use Rattle.fused_lookup.specs.Words.{IsWithinRules};
ghost use Rattle.fused_lookup.specs.Filled.{AreChained, FillsWord, RefillsWord};
ghost use Rattle.fused_lookup.specs.Window.{IsWindow};

use crate::bits::{next_bit, run_end};
use crate::window::Window;
use bit_rows::BitRow;
use lookup_table::FieldTable;
use mapping_table::MapTable;

/// Sets the spans of the matched rules of a word in the next field's row. Bit 0 of the word is rule
/// `64 * i`. Returns the window with the words that were touched.
#[inline(always)]
pub(crate) fn refill_word(
    spans: &MapTable,
    i: u32,
    word: u64,
    next: &mut BitRow,
    window: Window,
) -> Window
    requires rules { IsWithinRules (length spans.now.items) i word }
    requires inside { All (λ s. s.first + s.count ≤ length next.old.bits) spans.now.items }
    requires chained { AreChained spans.now.items }
    requires window { IsWindow next.old.bits window }
    ensures filled { FillsWord spans.now.items i word next.old.bits next.new.bits }
    ensures window { IsWindow next.new.bits result }
    ensures len { length next.new.bits ≡ length next.old.bits }
    ensures spare { next.new.spare ≡ next.old.spare }
{
    let _len = next.len();
    if word == 0 {
        return window;
    }
    let word_spans = spans.word(i);
    let mut window = window;
    let mut from = 0;
    'runs: while let Some(k) = next_bit(word, from) {
        // Neighbouring rules lead to one run of rules: to those from the first one's to the last
        // one's. So a word of matched rules costs one step.
        let end = run_end(word, k);
        let first = word_spans[k as usize].first;
        let last = word_spans[end as usize - 1];
        let count = last.first + last.count - first;
        next.set_range(first, count);
        window = window.widened(first, count);
        from = end;
    }
    window
}

/// Matches the rules of a word, of which only those in `left` may be left. Sets the spans of the
/// matched ones in the next field's row. Returns the window with the words that were touched.
#[inline(always)]
pub(crate) fn refill_on(
    table: &FieldTable,
    spans: &MapTable,
    value: u128,
    i: u32,
    left: u64,
    next: &mut BitRow,
    window: Window,
) -> Window
    requires value { value < 2 ^ table.now.bits }
    requires rules { length spans.now.items ≡ table.now.rules }
    requires inside { All (λ s. s.first + s.count ≤ length next.old.bits) spans.now.items }
    requires chained { AreChained spans.now.items }
    requires window { IsWindow next.old.bits window }
    ensures filled { RefillsWord table.now spans.now.items (λ rule. holds_value rule value) i left next.old.bits next.new.bits }
    ensures window { IsWindow next.new.bits result }
    ensures len { length next.new.bits ≡ length next.old.bits }
    ensures spare { next.new.spare ≡ next.old.spare }
{
    let word = table.match_word(value, i, left);
    refill_word(spans, i, word, next, window)
}
