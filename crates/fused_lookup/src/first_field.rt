ghost use Rattle.std.specs.Prelude.{◌≡◌, ◌+◌, ◌*◌, ◌^◌, ◌<◌, ◌≤◌, true, replicate, length, All};
ghost use Rattle.set_model.specs.Blocks.{holds_value};
ghost use Rattle.fused_lookup.specs.Filled.{AreChained, Refills, RefillsWords, IsClear};
ghost use Rattle.fused_lookup.specs.Led.{Leads, LeadsWords};
ghost use Rattle.fused_lookup.specs.Probe.{IsProbe};
ghost use Rattle.fused_lookup.specs.Window.{IsWindow};

use crate::bits::next_bit;
use crate::led::first_live;
use crate::probe::Probe;
use crate::refill::refill_word;
use crate::sieve::match_at;
use crate::window::Window;
use bit_rows::BitRow;
use lookup_table::FieldTable;
use mapping_table::{EndTable, MapTable};

/// Matches the first field's rules, and sets the rules to which they lead in the next field's row.
/// That row must be clear. Returns its window.
pub fn refill_from_first(
    table: &FieldTable,
    spans: &MapTable,
    value: u128,
    next: &mut BitRow,
) -> Window
    requires value { value < 2 ^ table.now.bits }
    requires rules { length spans.now.items ≡ table.now.rules }
    requires inside { All (λ s. s.first + s.count ≤ length next.old.bits) spans.now.items }
    requires chained { AreChained spans.now.items }
    requires clear { IsClear next.old.bits }
    ensures refilled { Refills table.now spans.now.items (λ rule. holds_value rule value) (replicate table.now.rules true) next.new.bits }
    ensures window { IsWindow next.new.bits result }
    ensures next_len { length next.new.bits ≡ length next.old.bits }
    ensures next_spare { next.new.spare ≡ next.old.spare }
{
    let probe = Probe::new(table, value);
    let mut reached = Window::none();
    if table.tops.is_empty() {
        // Every page is a candidate. Most sets are small, and each lookup would pay for the
        // question.
        'pages: for p in 0..table.rules.div_ceil(4096) {
            reached = refill_page(table, spans, probe, p, next, reached);
        }
        return reached;
    }
    'tops: for q in 0..table.rules.div_ceil(262_144) {
        reached = refill_pages(table, spans, probe, q, next, reached);
    }
    reached
}

/// Sets the rules to which the matched rules of the 64 pages from page `64 * q` on lead.
#[inline(always)]
fn refill_pages(
    table: &FieldTable,
    spans: &MapTable,
    probe: Probe,
    q: u32,
    next: &mut BitRow,
    window: Window,
) -> Window
    requires probe { IsProbe table.now probe }
    requires rules { length spans.now.items ≡ table.now.rules }
    requires inside { All (λ s. s.first + s.count ≤ length next.old.bits) spans.now.items }
    requires chained { AreChained spans.now.items }
    requires top { 262144 * q < table.now.rules }
    requires window { IsWindow next.old.bits window }
    ensures filled { RefillsWords table.now spans.now.items (λ rule. holds_value rule probe.value) (64 * (64 * q)) (64 * (64 * (q + 1))) next.old.bits next.new.bits }
    ensures window { IsWindow next.new.bits result }
    ensures len { length next.new.bits ≡ length next.old.bits }
    ensures spare { next.new.spare ≡ next.old.spare }
{
    let _rules = table.rules;
    let candidates = table.candidate_pages(probe.value, probe.lines, q);
    let mut window = window;
    let mut from = 0;
    'pages: while let Some(k) = next_bit(candidates, from) {
        window = refill_page(table, spans, probe, 64 * q + k, next, window);
        from = k + 1;
    }
    window
}

/// Sets the rules to which the matched rules of the 64 words from word `64 * p` on lead.
#[inline(always)]
fn refill_page(
    table: &FieldTable,
    spans: &MapTable,
    probe: Probe,
    p: u32,
    next: &mut BitRow,
    window: Window,
) -> Window
    requires probe { IsProbe table.now probe }
    requires rules { length spans.now.items ≡ table.now.rules }
    requires inside { All (λ s. s.first + s.count ≤ length next.old.bits) spans.now.items }
    requires chained { AreChained spans.now.items }
    requires page { 4096 * p < table.now.rules }
    requires window { IsWindow next.old.bits window }
    ensures filled { RefillsWords table.now spans.now.items (λ rule. holds_value rule probe.value) (64 * p) (64 * (p + 1)) next.old.bits next.new.bits }
    ensures window { IsWindow next.new.bits result }
    ensures len { length next.new.bits ≡ length next.old.bits }
    ensures spare { next.new.spare ≡ next.old.spare }
{
    let _rules = table.rules;
    let candidates = table.candidates(probe.value, probe.lines, p);
    let mut window = window;
    let mut from = 0;
    'words: while let Some(k) = next_bit(candidates, from) {
        let i = 64 * p + k;
        let word = match_at(table, probe, i);
        window = refill_word(spans, i, word, next, window);
        from = k + 1;
    }
    window
}

/// Matches the rules of the only field of a set. Returns the place of the element of the lowest
/// matched rule whose end is live.
pub fn lead_from_first(table: &FieldTable, ends: &EndTable, value: u128, now: u64) -> Option<u64>
    requires value { value < 2 ^ table.now.bits }
    requires rules { length ends.now.items ≡ table.now.rules }
    ensures { Leads table.now ends.now.items (λ rule. holds_value rule value) (replicate table.now.rules true) now result }
{
    let probe = Probe::new(table, value);
    if table.tops.is_empty() {
        // Every page is a candidate. Most sets are small, and each lookup would pay for the
        // question.
        'pages: for p in 0..table.rules.div_ceil(4096) {
            if let Some(place) = lead_page(table, ends, probe, p, now) {
                return Some(place);
            }
        }
        return None;
    }
    'tops: for q in 0..table.rules.div_ceil(262_144) {
        if let Some(place) = lead_pages(table, ends, probe, q, now) {
            return Some(place);
        }
    }
    None
}

/// The place that the matched rules of the 64 pages from page `64 * q` on lead to.
#[inline(always)]
fn lead_pages(table: &FieldTable, ends: &EndTable, probe: Probe, q: u32, now: u64) -> Option<u64>
    requires probe { IsProbe table.now probe }
    requires rules { length ends.now.items ≡ table.now.rules }
    requires top { 262144 * q < table.now.rules }
    ensures { LeadsWords table.now ends.now.items (λ rule. holds_value rule probe.value) (64 * (64 * q)) (64 * (64 * (q + 1))) now result }
{
    let _rules = table.rules;
    let candidates = table.candidate_pages(probe.value, probe.lines, q);
    let mut from = 0;
    'pages: while let Some(k) = next_bit(candidates, from) {
        if let Some(place) = lead_page(table, ends, probe, 64 * q + k, now) {
            return Some(place);
        }
        from = k + 1;
    }
    None
}

/// The place that the matched rules of the 64 words from word `64 * p` on lead to.
#[inline(always)]
fn lead_page(table: &FieldTable, ends: &EndTable, probe: Probe, p: u32, now: u64) -> Option<u64>
    requires probe { IsProbe table.now probe }
    requires rules { length ends.now.items ≡ table.now.rules }
    requires page { 4096 * p < table.now.rules }
    ensures { LeadsWords table.now ends.now.items (λ rule. holds_value rule probe.value) (64 * p) (64 * (p + 1)) now result }
{
    let _rules = table.rules;
    let candidates = table.candidates(probe.value, probe.lines, p);
    let mut from = 0;
    'words: while let Some(k) = next_bit(candidates, from) {
        let i = 64 * p + k;
        let word = match_at(table, probe, i);
        if let Some(place) = first_live(ends, i, word, now) {
            return Some(place);
        }
        from = k + 1;
    }
    None
}
