ghost use Rattle.std.specs.Prelude.{◌≡◌, ℕ, ◌+◌, ◌-◌, ◌≤◌, ◌<◌, suc, length, drop, IfOk, get_or, OnOk, All, None};
ghost use Rattle.lookup_table.specs.declared.table.FieldTable.{FieldTable as Table};
ghost use Rattle.lookup_table.specs.Rules.{IsOwn};
ghost use Rattle.set_tables.specs.Rows.{spans_without};
ghost use Rattle.pipapo_image.specs.Index.Built.{Passed};
ghost use Rattle.pipapo_image.specs.Index.Grow.{chosen};
ghost use Rattle.pipapo_image.specs.Index.Runs.{run_at};
ghost use Rattle.pipapo_image.specs.Index.Shrink.{IsOtherWithout, AreOthersWithout, IsShrunk, AreWithin, AreSpansWithin};

use crate::index::{Fields, Index, Maps};
use lookup_table::{FieldTable, width_for};
use mapping_table::MapTable;
use set_model::Memory;
use set_tables::Span;
use std::alloc::Global;

/// The table in groups of another width, if it needs one without the rules of a run. The run can be
/// removed from it.
fn other_width(alloc: Global, table: &FieldTable, run: Span) -> Result<Option<FieldTable>, Memory>
    requires { run.count ≤ table.now.rules }
    ensures { IfOk result (IsOtherWithout run table.now) }
{
    let width = width_for(table.bits, table.rules - run.count);
    if width == table.width {
        return Ok(None);
    }
    let mut other = table.with_width(alloc, width)?;
    other.own_from(run.first)?;
    Ok(Some(other))
}

/// The tables of another width for the fields that need one without the rules of their run.
fn other_widths_without(
    alloc: Global,
    fields: &[FieldTable],
    runs: &[Span],
) -> Result<Vec<Option<FieldTable>>, Memory>
    requires runs { length runs.now ≡ length fields.now }
    requires within { (f : ℕ) (t : Table) → f < length fields.now → (run_at runs.now f).count ≤ (get_or fields.now f t).rules }
    ensures { IfOk result (λ v. AreOthersWithout fields.now runs.now v.items (length fields.now)) }
{
    let mut others = Vec::new(alloc);
    'fields: for f in 0..fields.len() {
        others.push(other_width(alloc, &fields[f], runs[f])?)?;
    }
    Ok(others)
}

/// Removes the rules of a run from a table, or from its replacement.
fn drop_run(field: &mut FieldTable, other: Option<FieldTable>, run: Span)
    requires within { run.first + run.count ≤ (chosen other field.old).rules }
    requires own { IsOwn run.first (chosen other field.old).rules (chosen other field.old) }
    ensures { IsShrunk run (chosen other field.old) field.new }
{
    if let Some(table) = other {
        *field = table;
    }
    field.drop_rules(run.first, run.count);
}

/// Removes the rules of each field's run from its table, or from its replacement.
fn drop_runs(fields: &mut [FieldTable], others: &mut [Option<FieldTable>], runs: &[Span])
    requires { AreWithin fields.old others.old runs.now }
    ensures { Passed (λ f a b. IsShrunk (run_at runs.now f) (chosen (get_or others.old f None) a) b) fields.old fields.new (length fields.old) }
{
    'fields: for f in 0..fields.len() {
        let other = others[f].take();
        drop_run(&mut fields[f], other, runs[f]);
    }
}

/// Removes the spans of each field's run from its mapping.
fn drop_spans(maps: &mut [MapTable], runs: &[Span])
    requires { AreSpansWithin maps.old runs.now }
    ensures { Passed (λ f a b. b.items ≡ spans_without a.items (run_at runs.now f).first (run_at runs.now f).count (run_at runs.now (suc f)).count) maps.old maps.new (length maps.old) }
{
    'maps: for f in 0..maps.len() {
        let next = runs[f + 1].count;
        let run = runs[f];
        maps[f].drop_rules(run.first, run.count, next);
    }
}

/// Removes the rules of each field's run from its table, or from its replacement.
fn take_runs_out(fields: &mut Fields, others: &mut [Option<FieldTable>], runs: &[Span])
    requires { AreWithin fields.old others.old runs.now }
    ensures { Passed (λ f a b. IsShrunk (run_at runs.now f) (chosen (get_or others.old f None) a) b) fields.old fields.new (length fields.old) }
{
    drop_runs(fields.as_mut_slice(), others, runs);
}

/// Removes the spans of each field's run from its mapping.
fn take_spans_out(maps: &mut Maps, runs: &[Span])
    requires { AreSpansWithin maps.old runs.now }
    ensures { Passed (λ f a b. b.items ≡ spans_without a.items (run_at runs.now f).first (run_at runs.now f).count (run_at runs.now (suc f)).count) maps.old maps.new (length maps.old) }
{
    drop_spans(maps.as_mut_slice(), runs);
}

impl Index {
    ghost use Rattle.pipapo_image.specs.Index.Changes.{IsSameIndex};
    ghost use Rattle.pipapo_image.specs.Index.Shrink.{OwnsRuns, IsDroppable, IsDropped};

    /// Takes all memory that the removal of an element needs. It makes the pages from the element's
    /// run on the tables' own, and returns the tables of another width. Nothing else changes.
    ///
    /// # Errors
    /// `Memory` if memory runs out.
    pub(crate) fn prepare_without(
        &mut self,
        alloc: Global,
        runs: &[Span],
    ) -> Result<Vec<Option<FieldTable>>, Memory>
        requires maps { length runs.now ≡ length self.old.maps + 1 }
        requires fields { length runs.now ≡ length self.old.fields }
        requires within { (f : ℕ) (t : Table) → f < length self.old.fields → (run_at runs.now f).count ≤ (get_or self.old.fields f t).rules }
        ensures kept { IsSameIndex self.old self.new }
        ensures own { OnOk result (OwnsRuns self.new runs.now) }
        ensures others { IfOk result (λ v. AreOthersWithout self.new.fields runs.now v.items (length self.new.fields)) }
    {
        self.own_runs(runs)?;
        other_widths_without(alloc, self.fields.as_slice(), runs)
    }

    /// Removes the rules of an element, which are one run in each field. A field whose table needs
    /// another width takes its replacement.
    pub(crate) fn drop_element(&mut self, others: &mut [Option<FieldTable>], runs: &[Span])
        requires { IsDroppable self.old others.old runs.now }
        ensures { IsDropped self.old self.new others.old runs.now }
    {
        take_spans_out(&mut self.maps, runs);
        let last = runs[runs.len() - 1];
        self.ends.drop_rules(last.first, last.count);
        take_runs_out(&mut self.fields, others, runs);
    }
}
