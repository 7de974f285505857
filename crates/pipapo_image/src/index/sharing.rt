ghost use Rattle.std.specs.Prelude.{◌≡◌, ◌+◌, ◌*◌, ◌≤◌, ◌<◌, true, false, List, ℕ, length, position, All, get_or};
ghost use Rattle.bit_rows.specs.Row.{at, bit};
ghost use Rattle.lookup_table.specs.declared.table.FieldTable.{FieldTable as Table};
ghost use Rattle.lookup_table.specs.Rules.{Stands, KeepsBitsWhere};
ghost use Rattle.lookup_table.specs.Table.{block_at};
ghost use Rattle.range_expand.specs.Split.{IsFieldInterval};
ghost use Rattle.set_model.specs.declared.kind.Kind.{Kind as OneKind};
ghost use Rattle.set_model.specs.declared.element.Element.{Element};
ghost use Rattle.set_model.specs.declared.block.Block.{Block};
ghost use Rattle.set_model.specs.Blocks.{blocks, IsWithin};
ghost use Rattle.set_model.specs.Key.{parts_fit};
ghost use Rattle.set_model.specs.SetState.{rules_limit, is_sharing};
ghost use Rattle.set_tables.specs.Rows.{matched};
ghost use Rattle.set_tables.specs.Core.{row_of};
ghost use Rattle.set_tables.specs.Sharing.{shares_some, share_tests};
ghost use Rattle.pipapo_image.specs.Index.Room.{HasRoomForRules};
ghost use Rattle.pipapo_image.specs.Index.Walk.{IsWalk};
ghost use Rattle.pipapo_image.specs.Index.Standing.{AreFieldsOf, AreMapsOf};
ghost use Rattle.pipapo_image.specs.Index.Sharing.{AreIntervalsOf};

use crate::index::scratch::Scratch;
use crate::index::{Index, led};
use bit_rows::BitRow;
use lookup_table::FieldTable;
use mapping_table::MapTable;
use range_expand::Blocks;
use set_model::{Interval, Parts};

impl Index {
    ghost use Rattle.pipapo_image.specs.Index.{IsShapedIndex, IsIndexOf};

    /// The place of the first element that is live at `now`, in milliseconds, and shares a key with
    /// the intervals. This holds for every list of elements that these tables represent. `None` if
    /// there is none. It reads rules and compares no interval. It takes no memory.
    pub fn find_sharing(&self, parts: &Parts, now: u64, scratch: &mut Scratch) -> Option<u64>
        requires shaped { IsShapedIndex self.now }
        requires parts { AreIntervalsOf self.now.fields parts.now }
        ensures { (kinds : List OneKind) (es : List Element) → IsIndexOf kinds es self.now → parts_fit kinds parts.now ≡ true
            → All (λ e. parts_fit kinds e.parts ≡ true) es → result ≡ position (is_sharing parts.now now) es }
    {
        let row = &mut scratch.row;
        share_walk(
            self.fields.as_slice(),
            self.maps.as_slice(),
            parts.as_slice(),
            row,
            &mut scratch.next,
            &mut scratch.rest,
            &mut scratch.sum,
        );
        led(&self.ends, row, now)
    }
}

/// Leaves in `row` the rules of the last field that share a value with its interval and that can be
/// reached. Rules of each earlier field that share a value with the interval there lead to them.
/// The other rows are overwritten.
fn share_walk(
    fields: &[FieldTable],
    maps: &[MapTable],
    parts: &[Interval],
    row: &mut BitRow,
    next: &mut BitRow,
    rest: &mut BitRow,
    sum: &mut BitRow,
)
    requires shaped { IsWalk fields.now maps.now }
    requires parts { AreIntervalsOf fields.now parts.now }
    requires room { HasRoomForRules row.old }
    requires next_room { HasRoomForRules next.old }
    requires rest_room { HasRoomForRules rest.old }
    requires sum_room { HasRoomForRules sum.old }
    ensures row { (kinds : List OneKind) (es : List Element) → AreFieldsOf kinds es fields.now → AreMapsOf kinds es maps.now
        → row.new.bits ≡ row_of kinds es (share_tests kinds parts.now) (length maps.now) }
    ensures length { (t : Table) → length row.new.bits ≡ (get_or fields.now (length maps.now) t).rules }
    ensures room { HasRoomForRules row.new }
    ensures next_room { HasRoomForRules next.new }
    ensures rest_room { HasRoomForRules rest.new }
    ensures sum_room { HasRoomForRules sum.new }
{
    let first = &fields[0];
    row.fill(first.rules, true);
    share_field(first, parts[0], row, next, rest, sum);
    'fields: for f in 0..maps.len() {
        let map = &maps[f];
        let field = &fields[f + 1];
        next.fill(field.rules, false);
        map.refill(row, next);
        share_field(field, parts[f + 1], next, row, rest, sum);
        std::mem::swap(row, next);
    }
}

/// Clears bit `r` of the row unless rule `r`'s block shares a value with the interval. The
/// other rows are overwritten.
fn share_field(
    table: &FieldTable,
    part: Interval,
    row: &mut BitRow,
    one: &mut BitRow,
    rest: &mut BitRow,
    sum: &mut BitRow,
)
    requires few { table.now.rules ≤ rules_limit }
    requires interval { IsFieldInterval part.low part.high table.now.bits }
    requires length { length row.old.bits ≡ table.now.rules }
    requires one_room { HasRoomForRules one.old }
    requires rest_room { HasRoomForRules rest.old }
    requires sum_room { HasRoomForRules sum.old }
    ensures bits { (rules : List Block) → Stands table.now rules → row.new.bits ≡ matched (shares_some (blocks part.low part.high table.now.bits)) rules row.old.bits }
    ensures length { length row.new.bits ≡ length row.old.bits }
    ensures spare { row.new.spare ≡ row.old.spare }
    ensures one_room { HasRoomForRules one.new }
    ensures rest_room { HasRoomForRules rest.new }
    ensures sum_room { HasRoomForRules sum.new }
{
    if is_sparse(row) {
        share_words(table, part, row);
    } else {
        share_row(table, part, row, one, rest, sum);
    }
}

/// Whether at most a quarter of the row's words have a rule that is left. Then it is quicker to
/// match these words one by one than to match all words.
fn is_sparse(row: &BitRow) -> bool {
    let words = row.len().div_ceil(64) as usize;
    let left = row
        .words()
        .iter()
        .take(words)
        .filter(|word| **word != 0)
        .count();
    left <= words / 4
}

/// As `share_field`, but only words in which a rule is left are matched.
fn share_words(table: &FieldTable, part: Interval, row: &mut BitRow)
    requires few { table.now.rules ≤ rules_limit }
    requires interval { IsFieldInterval part.low part.high table.now.bits }
    requires length { length row.old.bits ≡ table.now.rules }
    ensures bits { (rules : List Block) → Stands table.now rules → row.new.bits ≡ matched (shares_some (blocks part.low part.high table.now.bits)) rules row.old.bits }
    ensures length { length row.new.bits ≡ length row.old.bits }
    ensures spare { row.new.spare ≡ row.old.spare }
{
    let mut from = 0;
    'words: while let Some(r) = row.next_set(from) {
        let i = r / 64;
        let word = row.word(i);
        row.put_word(i, share_word(table, part, i, word));
        from = 64 * (i + 1);
    }
}

/// Those bits of `word` whose rule's block shares a value with the interval. Bit 0 is rule `64 *
/// i`.
fn share_word(table: &FieldTable, part: Interval, i: u32, word: u64) -> u64
    requires rules { 64 * i < table.now.rules }
    requires interval { IsFieldInterval part.low part.high table.now.bits }
    ensures shared { KeepsBitsWhere table.now (shares_some (blocks part.low part.high table.now.bits)) i word result }
    ensures fewer { (k : ℕ) → k < 64 → bit word k ≡ false → bit result k ≡ false }
{
    let split = Blocks::new(part.low, part.high, table.bits);
    share_word_blocks(table, split, i, word)
}

/// Those bits of `word` whose rule's block shares a value with one of these blocks.
fn share_word_blocks(table: &FieldTable, split: Blocks, i: u32, word: u64) -> u64
    requires rules { 64 * i < table.now.rules }
    requires within { All (IsWithin table.now.bits) split }
    ensures shared { KeepsBitsWhere table.now (shares_some split) i word result }
    ensures fewer { (k : ℕ) → k < 64 → bit word k ≡ false → bit result k ≡ false }
{
    let mut shared = 0;
    'split_blocks: for block in split {
        shared |= table.share_word(block, i, word);
    }
    shared
}

/// As `share_field`, with all words of the row. The other rows are overwritten.
pub(crate) fn share_row(
    table: &FieldTable,
    part: Interval,
    row: &mut BitRow,
    one: &mut BitRow,
    rest: &mut BitRow,
    sum: &mut BitRow,
)
    requires few { table.now.rules ≤ rules_limit }
    requires interval { IsFieldInterval part.low part.high table.now.bits }
    requires length { length row.old.bits ≡ table.now.rules }
    requires one_room { HasRoomForRules one.old }
    requires rest_room { HasRoomForRules rest.old }
    requires sum_room { HasRoomForRules sum.old }
    ensures bits { (rules : List Block) → Stands table.now rules → row.new.bits ≡ matched (shares_some (blocks part.low part.high table.now.bits)) rules row.old.bits }
    ensures length { length row.new.bits ≡ length row.old.bits }
    ensures spare { row.new.spare ≡ row.old.spare }
    ensures one_room { HasRoomForRules one.new }
    ensures rest_room { HasRoomForRules rest.new }
    ensures sum_room { HasRoomForRules sum.new }
{
    let split = Blocks::new(part.low, part.high, table.bits);
    share_blocks(table, split, one, rest, sum);
    row.and_from(sum);
}

/// Sets exactly those bits `r` of `sum` whose rule's block shares a value with one of these blocks.
/// The other rows are overwritten.
fn share_blocks(
    table: &FieldTable,
    split: Blocks,
    one: &mut BitRow,
    rest: &mut BitRow,
    sum: &mut BitRow,
)
    requires few { table.now.rules ≤ rules_limit }
    requires within { All (IsWithin table.now.bits) split }
    requires one_room { HasRoomForRules one.old }
    requires rest_room { HasRoomForRules rest.old }
    requires sum_room { HasRoomForRules sum.old }
    ensures shared { (rules : List Block) → Stands table.now rules → (r : ℕ) → r < table.now.rules → at sum.new.bits r ≡ shares_some split (block_at rules r) }
    ensures length { length sum.new.bits ≡ table.now.rules }
    ensures one_room { HasRoomForRules one.new }
    ensures rest_room { HasRoomForRules rest.new }
    ensures sum_room { HasRoomForRules sum.new }
{
    sum.fill(table.rules, false);
    'split_blocks: for block in split {
        one.fill(table.rules, true);
        table.share_into(block, one, rest);
        sum.or_from(one);
    }
}
