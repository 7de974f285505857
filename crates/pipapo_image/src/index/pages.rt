ghost use Rattle.std.specs.Prelude.{◌≡◌, ℕ, ◌+◌, ◌-◌, ◌≤◌, ◌<◌, length, OnOk, get_or};
ghost use Rattle.lookup_table.specs.declared.table.FieldTable.{FieldTable as Table};
ghost use Rattle.lookup_table.specs.Rules.{IsOwn};
ghost use Rattle.mapping_table.specs.Spared.{Spared, OwnsFrom, OwnsRange};
ghost use Rattle.set_tables.specs.declared.Span.{Span as OneSpan};
ghost use Rattle.pipapo_image.specs.Index.Built.{EachChanged};
ghost use Rattle.pipapo_image.specs.Index.Grow.{IsKept};
ghost use Rattle.pipapo_image.specs.Index.Runs.{run_at};

use crate::index::{Fields, Index, Maps};
use lookup_table::FieldTable;
use mapping_table::MapTable;
use set_model::Memory;
use set_tables::Span;

/// Makes the pages of a table from rule `first` on the table's own. Nothing else changes.
fn own_rules(field: &mut FieldTable, first: u32) -> Result<(), Memory>
    ensures kept { IsKept field.old field.new }
    ensures own { OnOk result (IsOwn first field.new.rules field.new) }
{
    field.own_from(first)?;
    Ok(())
}

/// Makes the pages of each table from its run on the table's own. Nothing else changes.
fn own_buckets(fields: &mut [FieldTable], runs: &[Span]) -> Result<(), Memory>
    requires { length runs.now ≡ length fields.old }
    ensures kept { EachChanged IsKept fields.old fields.new }
    ensures own { OnOk result ((f : ℕ) (t : Table) → f < length fields.old → IsOwn (run_at runs.now f).first (get_or fields.new f t).rules (get_or fields.new f t)) }
{
    'fields: for f in 0..fields.len() {
        let run = runs[f];
        own_rules(&mut fields[f], run.first)?;
    }
    Ok(())
}

/// Lets copies share the pages of a table from now on. Nothing else changes.
fn settle_rules(field: &mut FieldTable) -> Result<(), Memory>
    ensures { IsKept field.old field.new }
{
    field.settle()?;
    Ok(())
}

/// Lets copies share the pages of each table from now on. Nothing else changes.
fn settle_buckets(fields: &mut [FieldTable]) -> Result<(), Memory>
    ensures { EachChanged IsKept fields.old fields.new }
{
    'fields: for f in 0..fields.len() {
        settle_rules(&mut fields[f])?;
    }
    Ok(())
}

/// Makes the pages of each mapping from its run on the mapping's own. Nothing else changes.
fn own_spans(maps: &mut [MapTable], runs: &[Span]) -> Result<(), Memory>
    requires { length runs.now ≡ length maps.old + 1 }
    ensures kept { EachChanged (λ a b. b.items ≡ a.items) maps.old maps.new }
    ensures own { OnOk result ((f : ℕ) (m : Spared OneSpan) → f < length maps.old → OwnsFrom (run_at runs.now f).first (get_or maps.new f m)) }
{
    'maps: for f in 0..maps.len() {
        let run = runs[f];
        maps[f].own_from(run.first)?;
    }
    Ok(())
}

/// Lets copies share the pages of each mapping from now on. Nothing else changes.
fn settle_spans(maps: &mut [MapTable]) -> Result<(), Memory>
    ensures { EachChanged (λ a b. b.items ≡ a.items) maps.old maps.new }
{
    'maps: for f in 0..maps.len() {
        maps[f].settle()?;
    }
    Ok(())
}

/// Makes the pages of each table from its run on the table's own. Nothing else changes.
fn own_fields(fields: &mut Fields, runs: &[Span]) -> Result<(), Memory>
    requires { length runs.now ≡ length fields.old }
    ensures kept { EachChanged IsKept fields.old fields.new }
    ensures own { OnOk result ((f : ℕ) (t : Table) → f < length fields.old → IsOwn (run_at runs.now f).first (get_or fields.new f t).rules (get_or fields.new f t)) }
{
    own_buckets(fields.as_mut_slice(), runs)?;
    Ok(())
}

/// Lets copies share the pages of each table from now on. Nothing else changes.
fn settle_fields(fields: &mut Fields) -> Result<(), Memory>
    ensures { EachChanged IsKept fields.old fields.new }
{
    settle_buckets(fields.as_mut_slice())?;
    Ok(())
}

/// Makes the pages of each mapping from its run on the mapping's own. Nothing else changes.
fn own_maps(maps: &mut Maps, runs: &[Span]) -> Result<(), Memory>
    requires { length runs.now ≡ length maps.old + 1 }
    ensures kept { EachChanged (λ a b. b.items ≡ a.items) maps.old maps.new }
    ensures own { OnOk result ((f : ℕ) (m : Spared OneSpan) → f < length maps.old → OwnsFrom (run_at runs.now f).first (get_or maps.new f m)) }
{
    own_spans(maps.as_mut_slice(), runs)?;
    Ok(())
}

/// Lets copies share the pages of each mapping from now on. Nothing else changes.
fn settle_maps(maps: &mut Maps) -> Result<(), Memory>
    ensures { EachChanged (λ a b. b.items ≡ a.items) maps.old maps.new }
{
    settle_spans(maps.as_mut_slice())?;
    Ok(())
}

impl Index {
    ghost use Rattle.pipapo_image.specs.Index.Changes.{IsSameIndex};
    ghost use Rattle.pipapo_image.specs.Index.Shrink.{OwnsRuns};

    /// Makes the pages from an element's run on the tables' own, in each field. Nothing else changes.
    ///
    /// # Errors
    /// `Memory` if memory runs out.
    pub(crate) fn own_runs(&mut self, runs: &[Span]) -> Result<(), Memory>
        requires maps { length runs.now ≡ length self.old.maps + 1 }
        requires fields { length runs.now ≡ length self.old.fields }
        ensures kept { IsSameIndex self.old self.new }
        ensures own { OnOk result (OwnsRuns self.new runs.now) }
    {
        own_fields(&mut self.fields, runs)?;
        own_maps(&mut self.maps, runs)?;
        let last = runs[runs.len() - 1];
        self.ends.own_from(last.first)?;
        Ok(())
    }

    /// Makes the pages of the `n` ends from `first` on the tables' own. Nothing else changes.
    ///
    /// # Errors
    /// `Memory` if memory runs out.
    pub(crate) fn own_ends(&mut self, first: u32, n: u32) -> Result<(), Memory>
        ensures kept { IsSameIndex self.old self.new }
        ensures own { OnOk result (OwnsRange first n self.new.ends) }
    {
        self.ends.own_range(first, n)?;
        Ok(())
    }

    /// Lets copies share the tables from now on. Nothing else changes.
    ///
    /// # Errors
    /// `Memory` if memory runs out.
    pub(crate) fn settle(&mut self) -> Result<(), Memory>
        ensures { IsSameIndex self.old self.new }
    {
        settle_fields(&mut self.fields)?;
        settle_maps(&mut self.maps)?;
        self.ends.settle()?;
        Ok(())
    }
}
