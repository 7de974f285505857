ghost use Rattle.std.specs.Prelude.{◌≡◌, ◌≤◌, ◌<◌, ℕ, true, List, length, get_or};
ghost use Rattle.lookup_table.specs.declared.table.FieldTable.{FieldTable as Table};
ghost use Rattle.set_model.specs.declared.kind.Kind.{Kind as OneKind};
ghost use Rattle.set_model.specs.declared.element.Element.{Element};
ghost use Rattle.set_model.specs.SetState.{rules_limit};
ghost use Rattle.set_tables.specs.Search.{key_tests};
ghost use Rattle.set_tables.specs.Sharing.{share_tests};
ghost use Rattle.pipapo_image.specs.Index.Room.{HasRoomForRules};
ghost use Rattle.pipapo_image.specs.Index.Walk.{IsKeyOf};
ghost use Rattle.pipapo_image.specs.Index.Sharing.{AreIntervalsOf};
ghost use Rattle.pipapo_image.specs.Index.Standing.{AreFieldsOf};
ghost use Rattle.pipapo_image.specs.Index.Narrow.{last_row};

use crate::index::sharing::share_row;
use crate::index::{Index, match_field};
use bit_rows::BitRow;
use lookup_table::FieldTable;
use set_model::Parts;

/// The last field is narrow if the first field has at least this many times as many rules.
const TIMES: u32 = 16;

/// If this many rules of the last field are left, their elements aren't compared one by one.
const MANY: u32 = 16;

// Searches of changes, which may begin with the last field. Lookups of packets never do.
impl Index {
    ghost use Rattle.pipapo_image.specs.Index.{IsShapedIndex, IsIndexOf};

    /// Whether the last field is narrow and only few of its rules hold the key's value there. If so,
    /// they are left in `row`, and a search can begin with them.
    pub(crate) fn is_key_narrow(&self, key: &[u128], row: &mut BitRow) -> bool
        requires shaped { IsShapedIndex self.now }
        requires key { IsKeyOf self.now.fields key.now }
        requires room { HasRoomForRules row.old }
        ensures row { result ≡ true → (kinds : List OneKind) (es : List Element) → IsIndexOf kinds es self.now → row.new.bits ≡ last_row kinds es (key_tests key.now) }
        ensures room { HasRoomForRules row.new }
    {
        let fields = self.fields.as_slice();
        if !is_last_narrow(fields) {
            return false;
        }
        match_last(fields, key, row);
        has_few(row)
    }

    /// Whether the last field is narrow and only few of its rules share a value with the interval
    /// there. If so, they are left in `row`. The other rows are overwritten.
    pub(crate) fn are_intervals_narrow(
        &self,
        parts: &Parts,
        row: &mut BitRow,
        one: &mut BitRow,
        rest: &mut BitRow,
        sum: &mut BitRow,
    ) -> bool
        requires shaped { IsShapedIndex self.now }
        requires parts { AreIntervalsOf self.now.fields parts.now }
        requires room { HasRoomForRules row.old }
        requires one_room { HasRoomForRules one.old }
        requires rest_room { HasRoomForRules rest.old }
        requires sum_room { HasRoomForRules sum.old }
        ensures row { result ≡ true → (kinds : List OneKind) (es : List Element) → IsIndexOf kinds es self.now → row.new.bits ≡ last_row kinds es (share_tests kinds parts.now) }
        ensures room { HasRoomForRules row.new }
        ensures one_room { HasRoomForRules one.new }
        ensures rest_room { HasRoomForRules rest.new }
        ensures sum_room { HasRoomForRules sum.new }
    {
        let fields = self.fields.as_slice();
        if !is_last_narrow(fields) {
            return false;
        }
        share_last(fields, parts, row, one, rest, sum);
        has_few(row)
    }
}

/// Whether the last field has few rules beside the first one. Then it is quick to match all of
/// them, and most of a lookup's work is in the other fields.
fn is_last_narrow(fields: &[FieldTable]) -> bool
    requires { 1 ≤ length fields.now }
{
    fields[fields.len() - 1].rules <= fields[0].rules / TIMES
}

/// Whether only few rules are left in a row.
fn has_few(row: &BitRow) -> bool {
    let _rules = row.len();
    let mut from = 0;
    'rules: for _ in 0..MANY {
        match row.next_set(from) {
            Some(r) => from = r + 1,
            None => return true,
        }
    }
    false
}

/// Sets exactly those bits `r` of the row whose rule of the last field holds the key's value there.
fn match_last(fields: &[FieldTable], key: &[u128], row: &mut BitRow)
    requires some { 1 ≤ length fields.now }
    requires few { (f : ℕ) (t : Table) → f < length fields.now → (get_or fields.now f t).rules ≤ rules_limit }
    requires key { IsKeyOf fields.now key.now }
    requires room { HasRoomForRules row.old }
    ensures row { (kinds : List OneKind) (es : List Element) → AreFieldsOf kinds es fields.now → row.new.bits ≡ last_row kinds es (key_tests key.now) }
    ensures room { HasRoomForRules row.new }
{
    let f = fields.len() - 1;
    let field = &fields[f];
    row.fill(field.rules, true);
    match_field(field, key[f], row);
}

/// Sets exactly those bits `r` of the row whose rule of the last field shares a value with the
/// interval there. The other rows are overwritten.
fn share_last(
    fields: &[FieldTable],
    parts: &Parts,
    row: &mut BitRow,
    one: &mut BitRow,
    rest: &mut BitRow,
    sum: &mut BitRow,
)
    requires some { 1 ≤ length fields.now }
    requires few { (f : ℕ) (t : Table) → f < length fields.now → (get_or fields.now f t).rules ≤ rules_limit }
    requires parts { AreIntervalsOf fields.now parts.now }
    requires room { HasRoomForRules row.old }
    requires one_room { HasRoomForRules one.old }
    requires rest_room { HasRoomForRules rest.old }
    requires sum_room { HasRoomForRules sum.old }
    ensures row { (kinds : List OneKind) (es : List Element) → AreFieldsOf kinds es fields.now → row.new.bits ≡ last_row kinds es (share_tests kinds parts.now) }
    ensures room { HasRoomForRules row.new }
    ensures one_room { HasRoomForRules one.new }
    ensures rest_room { HasRoomForRules rest.new }
    ensures sum_room { HasRoomForRules sum.new }
{
    let f = fields.len() - 1;
    let field = &fields[f];
    row.fill(field.rules, true);
    share_row(field, *parts.at(f as u64), row, one, rest, sum);
}
