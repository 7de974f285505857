ghost use Rattle.std.specs.Prelude.{◌≡◌, ℕ, ◌+◌, ◌-◌, ◌≤◌, ◌<◌, ◌++◌, length, replicate, IfOk, OnOk, get_or, None};
ghost use Rattle.set_model.specs.SetState.{rules_limit};
ghost use Rattle.lookup_table.specs.declared.table.FieldTable.{FieldTable as Table};
ghost use Rattle.mapping_table.specs.Spared.{Spared};
ghost use Rattle.set_tables.specs.declared.Span.{Span as OneSpan};
ghost use Rattle.set_tables.specs.Search.{of_field};
ghost use Rattle.pipapo_image.specs.Index.Built.{Built, Passed, EachChanged};
ghost use Rattle.pipapo_image.specs.Index.Grow.{HasSpare, IsKept, IsOther, IsReady, chosen, IsGrownBy, counts, new_span};

use crate::index::{Fields, Maps};
use lookup_table::{FieldTable, width_for};
use mapping_table::{EndTable, MapTable};
use set_model::{Block, Listed, Memory};
use set_tables::{End, Span};
use std::alloc::Global;

/// The table in groups of another width, if `n` more rules need one.
fn other_width(alloc: Global, table: &FieldTable, n: u32) -> Result<Option<FieldTable>, Memory>
    requires { table.now.rules + n ≤ rules_limit }
    ensures { IfOk result (IsOther n table.now) }
{
    let width = width_for(table.bits, table.rules + n);
    if width == table.width {
        return Ok(None);
    }
    let mut other = table.with_width(alloc, width)?;
    other.reserve(n)?;
    Ok(Some(other))
}

/// The tables of another width for the fields whose columns need one.
pub(crate) fn other_widths(
    alloc: Global,
    fields: &[FieldTable],
    columns: &[Listed<Block>],
) -> Result<Vec<Option<FieldTable>>, Memory>
    requires columns { length columns.now ≡ length fields.now }
    requires narrow { (f : ℕ) → f < length columns.now → length (of_field columns.now f) ≤ rules_limit }
    requires few { (f : ℕ) (t : Table) → f < length fields.now → (get_or fields.now f t).rules + length (of_field columns.now f) ≤ rules_limit }
    ensures { IfOk result (λ v. Built (λ f o. (t : Table) → IsOther (length (of_field columns.now f)) (get_or fields.now f t) o) v.items (length fields.now)) }
{
    let mut others = Vec::new(alloc);
    'fields: for f in 0..fields.len() {
        let n = columns[f].len() as u32;
        others.push(other_width(alloc, &fields[f], n)?)?;
    }
    Ok(others)
}

/// Takes room for the column of each field. Nothing else changes.
pub(crate) fn reserve_fields(
    fields: &mut [FieldTable],
    columns: &[Listed<Block>],
) -> Result<(), Memory>
    requires columns { length columns.now ≡ length fields.old }
    requires narrow { (f : ℕ) → f < length columns.now → length (of_field columns.now f) ≤ rules_limit }
    requires few { (f : ℕ) (t : Table) → f < length fields.old → (get_or fields.old f t).rules + length (of_field columns.now f) ≤ rules_limit }
    ensures kept { EachChanged IsKept fields.old fields.new }
    ensures room { OnOk result ((f : ℕ) (t : Table) → f < length fields.old → HasSpare (length (of_field columns.now f)) (get_or fields.new f t)) }
{
    'fields: for f in 0..fields.len() {
        let n = columns[f].len() as u32;
        fields[f].reserve(n)?;
    }
    Ok(())
}

/// Takes room for the column of each mapping. Nothing else changes.
pub(crate) fn reserve_maps(maps: &mut [MapTable], columns: &[Listed<Block>]) -> Result<(), Memory>
    requires columns { length maps.old ≤ length columns.now }
    requires narrow { (f : ℕ) → f < length columns.now → length (of_field columns.now f) ≤ rules_limit }
    requires few { (f : ℕ) (m : Spared OneSpan) → f < length maps.old → length (get_or maps.old f m).items + length (of_field columns.now f) ≤ rules_limit }
    ensures kept { EachChanged (λ a b. b.items ≡ a.items) maps.old maps.new }
    ensures room { OnOk result ((f : ℕ) (m : Spared OneSpan) → f < length maps.old → length (of_field columns.now f) ≤ (get_or maps.new f m).spare) }
{
    'maps: for f in 0..maps.len() {
        let n = columns[f].len() as u32;
        maps[f].reserve(n)?;
    }
    Ok(())
}

/// Adds a column to a table, or to its replacement.
fn add_column(field: &mut FieldTable, other: Option<FieldTable>, column: &[Block])
    requires { IsReady column.now (chosen other field.old) }
    ensures { IsGrownBy column.now (chosen other field.old) field.new }
{
    if let Some(table) = other {
        *field = table;
    }
    field.add_blocks(column);
}

/// Adds each field's column to its table, or to its replacement.
pub(crate) fn add_columns(
    fields: &mut [FieldTable],
    others: &mut [Option<FieldTable>],
    columns: &[Listed<Block>],
)
    requires others { length others.old ≡ length fields.old }
    requires columns { length columns.now ≡ length fields.old }
    requires ready { (f : ℕ) (t : Table) → f < length fields.old → IsReady (of_field columns.now f) (chosen (get_or others.old f None) (get_or fields.old f t)) }
    ensures { Passed (λ f a b. IsGrownBy (of_field columns.now f) (chosen (get_or others.old f None) a) b) fields.old fields.new (length fields.old) }
{
    'fields: for f in 0..fields.len() {
        let other = others[f].take();
        add_column(&mut fields[f], other, columns[f].as_slice());
    }
}

fn push_spans(map: &mut MapTable, n: u32, span: Span)
    requires { n ≤ map.old.spare }
    ensures { map.new.items ≡ map.old.items ++ replicate n span }
{
    'rules: for i in 0..n {
        map.push(span);
    }
}

/// Adds the same end `n` times.
pub(crate) fn push_ends(ends: &mut EndTable, n: u32, end: End)
    requires { n ≤ ends.old.spare }
    ensures { ends.new.items ≡ ends.old.items ++ replicate n end }
{
    'rules: for i in 0..n {
        ends.push(end);
    }
}

/// Adds a span to each mapping for each block of its column. The span has the blocks of the next
/// column.
fn add_spans(fields: &[FieldTable], maps: &mut [MapTable], columns: &[Listed<Block>])
    requires fields { length maps.old + 1 ≡ length fields.now }
    requires columns { length columns.now ≡ length fields.now }
    requires narrow { (f : ℕ) → f < length columns.now → length (of_field columns.now f) ≤ rules_limit }
    requires room { (f : ℕ) (m : Spared OneSpan) → f < length maps.old → length (of_field columns.now f) ≤ (get_or maps.old f m).spare }
    ensures { Passed (λ f a b. b.items ≡ a.items ++ replicate (length (of_field columns.now f)) (new_span (counts fields.now) columns.now f)) maps.old maps.new (length maps.old) }
{
    'maps: for f in 0..maps.len() {
        let span = Span {
            first: fields[f + 1].rules,
            count: columns[f + 1].len() as u32,
        };
        let n = columns[f].len() as u32;
        push_spans(&mut maps[f], n, span);
    }
}

/// Takes room for the column of each field. Nothing else changes.
pub(crate) fn reserve_columns(fields: &mut Fields, columns: &[Listed<Block>]) -> Result<(), Memory>
    requires columns { length columns.now ≡ length fields.old }
    requires narrow { (f : ℕ) → f < length columns.now → length (of_field columns.now f) ≤ rules_limit }
    requires few { (f : ℕ) (t : Table) → f < length fields.old → (get_or fields.old f t).rules + length (of_field columns.now f) ≤ rules_limit }
    ensures kept { EachChanged IsKept fields.old fields.new }
    ensures room { OnOk result ((f : ℕ) (t : Table) → f < length fields.old → HasSpare (length (of_field columns.now f)) (get_or fields.new f t)) }
{
    reserve_fields(fields.as_mut_slice(), columns)?;
    Ok(())
}

/// Adds each field's column to its table, or to its replacement.
pub(crate) fn put_columns(
    fields: &mut Fields,
    others: &mut [Option<FieldTable>],
    columns: &[Listed<Block>],
)
    requires others { length others.old ≡ length fields.old }
    requires columns { length columns.now ≡ length fields.old }
    requires ready { (f : ℕ) (t : Table) → f < length fields.old → IsReady (of_field columns.now f) (chosen (get_or others.old f None) (get_or fields.old f t)) }
    ensures { Passed (λ f a b. IsGrownBy (of_field columns.now f) (chosen (get_or others.old f None) a) b) fields.old fields.new (length fields.old) }
{
    add_columns(fields.as_mut_slice(), others, columns);
}

/// Takes room for the column of each mapping. Nothing else changes.
pub(crate) fn reserve_spans(maps: &mut Maps, columns: &[Listed<Block>]) -> Result<(), Memory>
    requires columns { length maps.old ≤ length columns.now }
    requires narrow { (f : ℕ) → f < length columns.now → length (of_field columns.now f) ≤ rules_limit }
    requires few { (f : ℕ) (m : Spared OneSpan) → f < length maps.old → length (get_or maps.old f m).items + length (of_field columns.now f) ≤ rules_limit }
    ensures kept { EachChanged (λ a b. b.items ≡ a.items) maps.old maps.new }
    ensures room { OnOk result ((f : ℕ) (m : Spared OneSpan) → f < length maps.old → length (of_field columns.now f) ≤ (get_or maps.new f m).spare) }
{
    reserve_maps(maps.as_mut_slice(), columns)?;
    Ok(())
}

/// Adds to each mapping a span for each block of its column.
pub(crate) fn put_spans(fields: &[FieldTable], maps: &mut Maps, columns: &[Listed<Block>])
    requires fields { length maps.old + 1 ≡ length fields.now }
    requires columns { length columns.now ≡ length fields.now }
    requires narrow { (f : ℕ) → f < length columns.now → length (of_field columns.now f) ≤ rules_limit }
    requires room { (f : ℕ) (m : Spared OneSpan) → f < length maps.old → length (of_field columns.now f) ≤ (get_or maps.old f m).spare }
    ensures { Passed (λ f a b. b.items ≡ a.items ++ replicate (length (of_field columns.now f)) (new_span (counts fields.now) columns.now f)) maps.old maps.new (length maps.old) }
{
    add_spans(fields, maps.as_mut_slice(), columns);
}
