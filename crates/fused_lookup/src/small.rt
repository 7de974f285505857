ghost use Rattle.std.specs.Prelude.{◌≡◌, ◌+◌, ◌*◌, ◌/◌, ◌%◌, ◌^◌, ◌<◌, ◌≤◌, true, length, replicate, All};
ghost use Rattle.set_model.specs.Blocks.{holds_value};
ghost use Rattle.fused_lookup.specs.Words.{IsWithinRules, small_row};
ghost use Rattle.fused_lookup.specs.Filled.{AreChained, FillsWord, Refills};
ghost use Rattle.fused_lookup.specs.Led.{Leads};

use crate::bits::{next_bit, run_end, with_ones};
use crate::led::led_on;
use lookup_table::FieldTable;
use mapping_table::{EndTable, MapTable};

// If no field has more than 128 rules, a row is a number of 128 bits. It goes from field to field in
// registers, so a lookup in such a set needs no rows of scratch and no windows.

/// The first 64 rules of a row.
#[inline(always)]
fn low_word(row: u128) -> u64
    ensures { result ≡ row % 2 ^ 64 }
{
    (row % (1 << 64)) as u64
}

/// The last 64 rules of a row.
#[inline(always)]
fn high_word(row: u128) -> u64
    ensures { result ≡ row / 2 ^ 64 }
{
    (row >> 64) as u64
}

/// Sets the spans of the matched rules of a word in the next field's row. Bit 0 of the word is rule
/// `64 * i`.
#[inline(always)]
fn fill_small(spans: &MapTable, i: u32, word: u64, next: u128) -> u128
    requires rules { IsWithinRules (length spans.now.items) i word }
    requires inside { All (λ s. s.first + s.count ≤ 128) spans.now.items }
    requires chained { AreChained spans.now.items }
    ensures { FillsWord spans.now.items i word (small_row next) (small_row result) }
{
    if word == 0 {
        return next;
    }
    let word_spans = spans.word(i);
    let mut row = next;
    let mut from = 0;
    'runs: while let Some(k) = next_bit(word, from) {
        let end = run_end(word, k);
        let first = word_spans[k as usize].first;
        let last = word_spans[end as usize - 1];
        let count = last.first + last.count - first;
        row = with_ones(row, first, count);
        from = end;
    }
    row
}

/// Matches the rules of the first field, which are at most 128. Returns the row of the next field's
/// rules to which they lead, with the first rule in the lowest bit.
#[inline(always)]
pub fn refill_small_first(table: &FieldTable, spans: &MapTable, value: u128) -> u128
    requires value { value < 2 ^ table.now.bits }
    requires few { table.now.rules ≤ 128 }
    requires rules { length spans.now.items ≡ table.now.rules }
    requires inside { All (λ s. s.first + s.count ≤ 128) spans.now.items }
    requires chained { AreChained spans.now.items }
    ensures { Refills table.now spans.now.items (λ rule. holds_value rule value) (replicate table.now.rules true) (small_row result) }
{
    let low = fill_small(spans, 0, table.match_word(value, 0, u64::MAX), 0);
    fill_small(spans, 1, table.match_word(value, 1, u64::MAX), low)
}

/// Matches a field's rules, which are at most 128, and of which only those in `left` may be left.
/// Returns the row of the next field's rules to which they lead.
#[inline(always)]
pub fn refill_small(table: &FieldTable, spans: &MapTable, value: u128, left: u128) -> u128
    requires value { value < 2 ^ table.now.bits }
    requires few { table.now.rules ≤ 128 }
    requires rules { length spans.now.items ≡ table.now.rules }
    requires inside { All (λ s. s.first + s.count ≤ 128) spans.now.items }
    requires chained { AreChained spans.now.items }
    ensures { Refills table.now spans.now.items (λ rule. holds_value rule value) (small_row left) (small_row result) }
{
    let low = fill_small(spans, 0, table.match_word(value, 0, low_word(left)), 0);
    fill_small(spans, 1, table.match_word(value, 1, high_word(left)), low)
}

/// Matches the last field's rules, which are at most 128, and of which only those in `left` may be
/// left. Returns the place of the element of the lowest matched rule whose end is live.
#[inline(always)]
pub fn lead_small(
    table: &FieldTable,
    ends: &EndTable,
    value: u128,
    left: u128,
    now: u64,
) -> Option<u64>
    requires value { value < 2 ^ table.now.bits }
    requires few { table.now.rules ≤ 128 }
    requires rules { length ends.now.items ≡ table.now.rules }
    ensures { Leads table.now ends.now.items (λ rule. holds_value rule value) (small_row left) now result }
{
    let found = led_on(None, table, ends, value, 0, low_word(left), now);
    led_on(found, table, ends, value, 1, high_word(left), now)
}
