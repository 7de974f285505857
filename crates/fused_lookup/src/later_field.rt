ghost use Rattle.std.specs.Prelude.{◌≡◌, ◌+◌, ◌^◌, ◌<◌, ◌≤◌, length, All};
ghost use Rattle.set_model.specs.Blocks.{holds_value};
ghost use Rattle.fused_lookup.specs.Filled.{AreChained, Refills, IsClear};
ghost use Rattle.fused_lookup.specs.Led.{Leads};
ghost use Rattle.fused_lookup.specs.Window.{IsWindow};

use crate::led::led_on;
use crate::refill::refill_on;
use crate::window::Window;
use bit_rows::BitRow;
use lookup_table::FieldTable;
use mapping_table::{EndTable, MapTable};

/// Matches a field's rules, of which only those in the row's window may be left. Sets the rules to
/// which they lead in the next field's row, which must be clear. Returns the next row's window, and
/// leaves this row clear.
pub fn refill_from(
    table: &FieldTable,
    spans: &MapTable,
    value: u128,
    window: Window,
    row: &mut BitRow,
    next: &mut BitRow,
) -> Window
    requires value { value < 2 ^ table.now.bits }
    requires rules { length spans.now.items ≡ table.now.rules }
    requires room { table.now.rules ≤ length row.old.bits }
    requires inside { All (λ s. s.first + s.count ≤ length next.old.bits) spans.now.items }
    requires chained { AreChained spans.now.items }
    requires window { IsWindow row.old.bits window }
    requires clear { IsClear next.old.bits }
    ensures refilled { Refills table.now spans.now.items (λ rule. holds_value rule value) row.old.bits next.new.bits }
    ensures window { IsWindow next.new.bits result }
    ensures clear { IsClear row.new.bits }
    ensures len { length row.new.bits ≡ length row.old.bits }
    ensures spare { row.new.spare ≡ row.old.spare }
    ensures next_len { length next.new.bits ≡ length next.old.bits }
    ensures next_spare { next.new.spare ≡ next.old.spare }
{
    let _len = row.len();
    let mut reached = Window::none();
    let mut from = window.first;
    'words: while let Some(i) = window.next_word(from) {
        let left = row.take_word(i);
        reached = refill_on(table, spans, value, i, left, next, reached);
        from = i + 1;
    }
    reached
}

/// Matches the last field's rules, of which only those in the row's window may be left. Returns the
/// place of the element of the lowest matched rule whose end is live. Leaves the row clear.
pub fn lead_from(
    table: &FieldTable,
    ends: &EndTable,
    value: u128,
    now: u64,
    window: Window,
    row: &mut BitRow,
) -> Option<u64>
    requires value { value < 2 ^ table.now.bits }
    requires rules { length ends.now.items ≡ table.now.rules }
    requires room { table.now.rules ≤ length row.old.bits }
    requires window { IsWindow row.old.bits window }
    ensures led { Leads table.now ends.now.items (λ rule. holds_value rule value) row.old.bits now result }
    ensures clear { IsClear row.new.bits }
    ensures len { length row.new.bits ≡ length row.old.bits }
    ensures spare { row.new.spare ≡ row.old.spare }
{
    let _len = row.len();
    let mut found = None;
    let mut from = window.first;
    'words: while let Some(i) = window.next_word(from) {
        let left = row.take_word(i);
        found = led_on(found, table, ends, value, i, left, now);
        from = i + 1;
    }
    found
}
