ghost use Rattle.std.specs.Prelude.{◌≡◌, ℕ, ◌-◌, ◌≤◌, nat_le, List, length, get_or};
ghost use Rattle.std.specs.List.{list_all};
ghost use Rattle.set_model.specs.declared.kind.Kind.{Kind as OneKind};
ghost use Rattle.set_model.specs.declared.element.Element.{Element};
ghost use Rattle.set_model.specs.SetState.{rules_limit};
ghost use Rattle.lookup_table.specs.declared.table.FieldTable.{FieldTable as Table};
ghost use Rattle.set_tables.specs.Rows.{led_to, refilled};
ghost use Rattle.set_tables.specs.Core.{row_of};
ghost use Rattle.set_tables.specs.Tables.{field_spans};
ghost use Rattle.set_tables.specs.Search.{key_tests};
ghost use Rattle.fused_lookup.specs.Window.{IsWindow};
ghost use Rattle.pipapo_image.specs.Index.Room.{IsBlank};
ghost use Rattle.pipapo_image.specs.Index.Walk.{IsWalk, IsKeyOf, AreSmall};
ghost use Rattle.pipapo_image.specs.Index.Standing.{AreFieldsOf, AreMapsOf};

use bit_rows::BitRow;
use fused_lookup::{
    Window, lead_from, lead_from_first, lead_small, refill_from, refill_from_first, refill_small,
    refill_small_first,
};
use lookup_table::FieldTable;
use mapping_table::{EndTable, MapTable};

/// The place to which the key leads. Each word of rules that is left in a field goes to the next
/// field, or to the ends, before the next word is looked at. Both rows are blank before and after.
/// If no field has more than 128 rules, no row is used.
pub(crate) fn fused_walk(
    fields: &[FieldTable],
    maps: &[MapTable],
    ends: &EndTable,
    key: &[u128],
    now: u64,
    row: &mut BitRow,
    next: &mut BitRow,
) -> Option<u64>
    requires shaped { IsWalk fields.now maps.now }
    requires ends { (t : Table) → length ends.now.items ≡ (get_or fields.now (length maps.now) t).rules }
    requires key { IsKeyOf fields.now key.now }
    requires row { IsBlank row.old }
    requires next { IsBlank next.old }
    ensures led { (kinds : List OneKind) (es : List Element) → AreFieldsOf kinds es fields.now → AreMapsOf kinds es maps.now
        → result ≡ led_to ends.now.items (row_of kinds es (key_tests key.now) (length maps.now)) now }
    ensures row { IsBlank row.new }
    ensures next { IsBlank next.new }
{
    let last = maps.len();
    if last == 0 {
        return lead_from_first(&fields[0], ends, key[0], now);
    }
    if are_small(fields) {
        return small_walk(fields, maps, ends, key, now);
    }
    let window = walk_fields(fields, maps, key, row, next);
    lead_from(&fields[last], ends, key[last], now, window, row)
}

/// Leaves in `row` the rules of the last field that the key reaches, if there are two fields or
/// more. Returns the row's window.
fn walk_fields(
    fields: &[FieldTable],
    maps: &[MapTable],
    key: &[u128],
    row: &mut BitRow,
    next: &mut BitRow,
) -> Window
    requires shaped { IsWalk fields.now maps.now }
    requires some { 1 ≤ length maps.now }
    requires key { IsKeyOf fields.now key.now }
    requires row { IsBlank row.old }
    requires next { IsBlank next.old }
    ensures reached { (kinds : List OneKind) (es : List Element) → AreFieldsOf kinds es fields.now → AreMapsOf kinds es maps.now
        → row.new.bits ≡ refilled (field_spans kinds (length maps.now - 1) es) (row_of kinds es (key_tests key.now) (length maps.now - 1)) (length row.new.bits) }
    ensures length { length row.new.bits ≡ rules_limit }
    ensures spare { row.new.spare ≡ 0 }
    ensures window { IsWindow row.new.bits result }
    ensures next { IsBlank next.new }
{
    let mut window = refill_from_first(&fields[0], &maps[0], key[0], row);
    'fields: for f in 1..maps.len() {
        window = refill_from(&fields[f], &maps[f], key[f], window, row, next);
        std::mem::swap(row, next);
    }
    window
}

/// Whether each field has at most 128 rules.
#[inline(always)]
fn are_small(fields: &[FieldTable]) -> bool
    ensures { result ≡ list_all (λ t. nat_le t.rules 128) fields.now }
{
    fields.iter().all(|t| t.rules <= 128)
}

/// The place to which the key leads, if there are two fields or more, each with at most 128 rules.
fn small_walk(
    fields: &[FieldTable],
    maps: &[MapTable],
    ends: &EndTable,
    key: &[u128],
    now: u64,
) -> Option<u64>
    requires shaped { IsWalk fields.now maps.now }
    requires some { 1 ≤ length maps.now }
    requires small { AreSmall fields.now }
    requires ends { (t : Table) → length ends.now.items ≡ (get_or fields.now (length maps.now) t).rules }
    requires key { IsKeyOf fields.now key.now }
    ensures { (kinds : List OneKind) (es : List Element) → AreFieldsOf kinds es fields.now → AreMapsOf kinds es maps.now
        → result ≡ led_to ends.now.items (row_of kinds es (key_tests key.now) (length maps.now)) now }
{
    let last = maps.len();
    let mut left = refill_small_first(&fields[0], &maps[0], key[0]);
    'fields: for f in 1..last {
        left = refill_small(&fields[f], &maps[f], key[f], left);
    }
    lead_small(&fields[last], ends, key[last], left, now)
}
