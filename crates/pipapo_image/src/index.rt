ghost use Rattle.std.specs.Prelude.{◌≡◌, ◌+◌, ◌-◌, ◌≤◌, ◌<◌, ◌^◌, List, ℕ, length, position, All, ◌&&◌, IfOk, get_or, []};
ghost use Rattle.lookup_table.specs.declared.table.FieldTable.{FieldTable as Table};
ghost use Rattle.set_model.specs.SetState.{answers};
ghost use Rattle.set_model.specs.declared.kind.Kind.{Kind as OneKind};
ghost use Rattle.set_model.specs.declared.element.Element.{Element};
ghost use Rattle.set_model.specs.declared.block.Block.{Block};
ghost use Rattle.set_model.specs.Blocks.{holds_value};
ghost use Rattle.lookup_table.specs.Rules.{Stands};
ghost use Rattle.set_tables.specs.Rows.{matched, led_to};
ghost use Rattle.set_tables.specs.Core.{row_of};
ghost use Rattle.set_tables.specs.Search.{key_tests};
ghost use Rattle.pipapo_image.specs.Index.Room.{HasRoomForRules};
ghost use Rattle.pipapo_image.specs.Index.Walk.{IsWalk, IsKeyOf};
ghost use Rattle.pipapo_image.specs.Index.Standing.{IsTableOf, AreFieldsOf, AreMapsOf};

pub(crate) mod changes;
pub(crate) mod columns;
pub(crate) mod copy;
pub(crate) mod drops;
pub(crate) mod fused;
pub(crate) mod grow;
pub(crate) mod narrow;
pub(crate) mod pages;
pub(crate) mod place;
pub(crate) mod scratch;
pub(crate) mod sharing;

use crate::index::fused::fused_walk;
use crate::index::scratch::Scratch;
use bit_rows::BitRow;
use lookup_table::FieldTable;
use mapping_table::{EndTable, MapTable};
use set_model::{Key, Kind, Kinds, Listed, Memory};
use std::alloc::Global;

/// The lookup table of each field.
pub type Fields = Listed<FieldTable>;

/// The mapping of each field but the last to the next one.
pub type Maps = Listed<MapTable>;

/// The tables of a list of elements. They have no interval.
#[derive(Drop)]
pub struct Index {
    /// The rules of each field.
    pub fields: Fields,
    /// The mapping of each field but the last to the next: one fewer than fields.
    pub maps: Maps,
    /// The place and the expiry of the element for each rule of the last field.
    pub ends: EndTable,
}

impl Index {
    ghost use Rattle.pipapo_image.specs.Index.{IsShapedIndex, IsIndexOf};

    /// The tables of no elements, with a field for each kind.
    ///
    /// # Errors
    /// `Memory` if memory runs out.
    pub(crate) fn new(alloc: Global, kinds: &Kinds) -> Result<Index, Memory>
        requires { 1 ≤ length kinds.now }
        ensures { IfOk result (IsIndexOf kinds.now []) }
    {
        let mut fields = Fields::new(alloc);
        let mut maps = Maps::new(alloc);
        'kinds: for kind in kinds.as_slice() {
            if fields.len() > 0 {
                maps.push(MapTable::new(alloc))?;
            }
            let is_first = fields.len() == 0;
            fields.push(empty_table(alloc, *kind, is_first)?)?;
        }
        Ok(Index {
            fields,
            maps,
            ends: EndTable::new(alloc),
        })
    }

    /// The place of the first element that is live at `now`, in milliseconds, and holds the key.
    /// This holds for every list of elements that these tables represent. `None` if there is none.
    /// It takes no memory.
    pub fn find(&self, key: &Key, now: u64, scratch: &mut Scratch) -> Option<u64>
        requires shaped { IsShapedIndex self.now }
        requires key { IsKeyOf self.now.fields key.now }
        ensures { (kinds : List OneKind) (es : List Element) → IsIndexOf kinds es self.now → All (λ e. length e.parts ≡ length kinds) es
            → result ≡ position (answers key.now now) es }
    {
        self.find_values(key.as_slice(), now, scratch)
    }

    /// As `find`, with the key's values in a slice.
    pub(crate) fn find_values(&self, key: &[u128], now: u64, scratch: &mut Scratch) -> Option<u64>
        requires shaped { IsShapedIndex self.now }
        requires key { IsKeyOf self.now.fields key.now }
        ensures { (kinds : List OneKind) (es : List Element) → IsIndexOf kinds es self.now → All (λ e. length e.parts ≡ length kinds) es
            → result ≡ position (answers key.now now) es }
    {
        fused_walk(
            self.fields.as_slice(),
            self.maps.as_slice(),
            &self.ends,
            key,
            now,
            &mut scratch.here,
            &mut scratch.beyond,
        )
    }

    /// The same answer by the textbook lookup, to compare the two. It matches the whole row of a
    /// field before it refills the next field's row.
    pub fn find_plain(&self, key: &Key, now: u64, scratch: &mut Scratch) -> Option<u64>
        requires shaped { IsShapedIndex self.now }
        requires key { IsKeyOf self.now.fields key.now }
        ensures { (kinds : List OneKind) (es : List Element) → IsIndexOf kinds es self.now → All (λ e. length e.parts ≡ length kinds) es
            → result ≡ position (answers key.now now) es }
    {
        let row = &mut scratch.row;
        self.reach(key.as_slice(), row, &mut scratch.next);
        led(&self.ends, row, now)
    }

    /// Leaves in `row` the rules of the last field that the key leads to, by the textbook lookup.
    pub(crate) fn reach(&self, key: &[u128], row: &mut BitRow, next: &mut BitRow)
        requires shaped { IsShapedIndex self.now }
        requires key { IsKeyOf self.now.fields key.now }
        requires room { HasRoomForRules row.old }
        requires next_room { HasRoomForRules next.old }
        ensures row { (kinds : List OneKind) (es : List Element) → IsIndexOf kinds es self.now → row.new.bits ≡ row_of kinds es (key_tests key.now) (length kinds - 1) }
        ensures length { length row.new.bits ≡ length self.now.ends.items }
        ensures room { HasRoomForRules row.new }
        ensures next_room { HasRoomForRules next.new }
    {
        walk(self.fields.as_slice(), self.maps.as_slice(), key, row, next);
    }
}

/// The table of a field without rules. Only the first field's table keeps a summary. A lookup goes
/// through all rules of the first field, but in later fields only through the rules that are left.
fn empty_table(alloc: Global, kind: Kind, is_first: bool) -> Result<FieldTable, Memory>
    ensures { IfOk result (IsTableOf kind []) }
{
    let mut table = FieldTable::new(alloc, kind.bits())?;
    table.set_summed(is_first);
    Ok(table)
}

/// Clears bit `r` of the row unless rule `r`'s block holds the value.
pub(crate) fn match_field(table: &FieldTable, value: u128, row: &mut BitRow)
    requires length { length row.old.bits ≡ table.now.rules }
    requires value { value < 2 ^ table.now.bits }
    ensures bits { (blocks : List Block) → Stands table.now blocks → row.new.bits ≡ matched (λ b. holds_value b value) blocks row.old.bits }
    ensures len { length row.new.bits ≡ length row.old.bits }
    ensures spare { row.new.spare ≡ row.old.spare }
{
    table.match_into(value, row);
}

/// Leaves in `row` the rules of the last field that the key leads to. It starts with all ones in
/// the first field and ANDs one bucket per group. The spans of the rules that are left give the row
/// of the next field.
fn walk(fields: &[FieldTable], maps: &[MapTable], key: &[u128], row: &mut BitRow, next: &mut BitRow)
    requires shaped { IsWalk fields.now maps.now }
    requires key { IsKeyOf fields.now key.now }
    requires room { HasRoomForRules row.old }
    requires next_room { HasRoomForRules next.old }
    ensures row { (kinds : List OneKind) (es : List Element) → AreFieldsOf kinds es fields.now → AreMapsOf kinds es maps.now
        → row.new.bits ≡ row_of kinds es (key_tests key.now) (length maps.now) }
    ensures length { (t : Table) → length row.new.bits ≡ (get_or fields.now (length maps.now) t).rules }
    ensures room { HasRoomForRules row.new }
    ensures next_room { HasRoomForRules next.new }
{
    let first = &fields[0];
    row.fill(first.rules, true);
    match_field(first, key[0], row);
    'fields: for f in 0..maps.len() {
        let map = &maps[f];
        let field = &fields[f + 1];
        next.fill(field.rules, false);
        map.refill(row, next);
        match_field(field, key[f + 1], next);
        std::mem::swap(row, next);
    }
}

/// The place of the element of the lowest rule of the row whose end is live.
pub(crate) fn led(ends: &EndTable, row: &BitRow, now: u64) -> Option<u64>
    requires { length row.now.bits ≡ length ends.now.items }
    ensures { result ≡ led_to ends.now.items row.now.bits now }
{
    match ends.first_live(row, now) {
        Some(r) => Some(ends.at(r).place),
        None => None,
    }
}
