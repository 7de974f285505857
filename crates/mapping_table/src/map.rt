ghost use Rattle.std.specs.Prelude.{◌≡◌, ◌+◌, ◌<◌, ◌≤◌, ◌^◌, [], ◌∷◌, ◌++◌, length, replicate, slice_get, Some, false, IfOk, OnOk, All, drop};
ghost use Rattle.set_tables.specs.Rows.{refilled, spans_without, lowered};
ghost use Rattle.mapping_table.specs.Spared.{word_of, OwnsFrom, KeepsOwn, TakesNone, IsCommon, IsMoved};

use crate::roomy::Roomy;
use bit_rows::BitRow;
use set_model::Memory;
use set_tables::Span;
use std::alloc::Global;
use std::marker::Model;

/// The rules of a field, each with its span of the next field's rules.
///
/// Contracts also see how many more rules have room (`spare`), and the capacities of its vectors
/// (`taken`).
#[derive(Drop)]
pub struct MapTable {
    spans: Roomy<Span>,
}

impl Model for MapTable {
    ghost use Rattle.set_tables.specs.declared.Span.{Span};
    ghost use Rattle.mapping_table.specs.Spared.{Spared};

    ghost Value = { Spared Span };

    ghost view = { λ a. a.spans };
}

impl MapTable {
    /// No rules. It takes no memory.
    pub fn new(alloc: Global) -> Self
        ensures items { result.items ≡ [] }
        ensures spare { result.spare ≡ 0 }
        ensures taken { result.taken ≡ record { rest = 0; others = 0 ∷ [] } }
    {
        MapTable {
            spans: Roomy::new(alloc),
        }
    }

    /// How many rules there are.
    pub fn len(&self) -> u32
        ensures { result ≡ length self.now.items }
    {
        self.spans.len()
    }

    /// The span of rule `i`.
    #[inline(always)]
    pub fn at(&self, i: u32) -> &Span
        requires { i < length self.now.items }
        ensures { slice_get self.now.items i ≡ Some result.now }
    {
        self.spans.at(i)
    }

    /// The spans of the rules of word `w`: at most 64, from rule `64 * w` on.
    #[inline(always)]
    pub fn word(&self, w: u32) -> &[Span]
        ensures { result.now ≡ word_of w self.now.items }
    {
        self.spans.word(w)
    }

    /// Takes room for `n` more rules.
    ///
    /// # Errors
    /// `Memory` if memory runs out. The rules stay.
    pub fn reserve(&mut self, n: u32) -> Result<(), Memory>
        requires { length self.old.items + n < 2 ^ 32 }
        ensures items { self.new.items ≡ self.old.items }
        ensures ok { OnOk result (n ≤ self.new.spare) }
        ensures kept { self.old.spare ≤ self.new.spare }
        ensures own { KeepsOwn self.old self.new }
    {
        self.spans.reserve(n)
    }

    /// Adds a rule. There must be room for it. It takes no memory.
    pub fn push(&mut self, item: Span)
        requires { 1 ≤ self.old.spare }
        ensures items { self.new.items ≡ self.old.items ++ item ∷ [] }
        ensures spare { self.new.spare + 1 ≡ self.old.spare }
        ensures own { self.new.own ≡ self.old.own }
        ensures taken { self.new.taken ≡ self.old.taken }
    {
        self.spans.push(item);
    }

    /// Sets each bit of `next` that is in the span of some matched rule. No bit of `next` is set
    /// before.
    pub fn refill(&self, matched: &BitRow, next: &mut BitRow)
        requires rows { length matched.now.bits ≡ length self.now.items }
        requires zeros { next.old.bits ≡ replicate (length next.old.bits) false }
        requires within { All (λ s. s.first + s.count ≤ length next.old.bits) self.now.items }
        ensures bits { next.new.bits ≡ refilled self.now.items matched.now.bits (length next.old.bits) }
        ensures len { length next.new.bits ≡ length next.old.bits }
        ensures spare { next.new.spare ≡ next.old.spare }
    {
        refill_spans(&self.spans, matched, next);
    }

    /// Makes the pages from rule `first` on this table's own.
    ///
    /// # Errors
    ///
    /// `Memory` if memory runs out. The rules stay, and pages that were the table's own still are.
    pub fn own_from(&mut self, first: u32) -> Result<(), Memory>
        ensures items { self.new.items ≡ self.old.items }
        ensures spare { self.new.spare ≡ self.old.spare }
        ensures ok { OnOk result (OwnsFrom first self.new) }
        ensures own { KeepsOwn self.old self.new }
    {
        self.spans.own_from(first)
    }

    /// Removes the `n` rules from `first` on. The spans of later rules begin `next_n` lower. It
    /// takes no memory.
    pub fn drop_rules(&mut self, first: u32, n: u32, next_n: u32)
        requires range { first + n ≤ length self.old.items }
        requires high { All (λ s. next_n ≤ s.first) (drop (first + n) self.old.items) }
        requires own { OwnsFrom first self.old }
        ensures items { self.new.items ≡ spans_without self.old.items first n next_n }
        ensures taken { TakesNone (length self.new.items) self.old self.new }
    {
        close_up(&mut self.spans, first, n, next_n);
        let len = self.spans.len();
        self.spans.truncate(len - n);
    }

    /// Lets copies share the pages from now on. No page is copied.
    ///
    /// # Errors
    /// `Memory` if memory runs out. The rules stay.
    pub fn settle(&mut self) -> Result<(), Memory>
        ensures items { self.new.items ≡ self.old.items }
        ensures spare { self.new.spare ≡ self.old.spare }
        ensures common { OnOk result (IsCommon self.new) }
    {
        self.spans.settle()
    }

    /// A copy of the rules. It counts one reference for each settled page.
    ///
    /// # Errors
    /// `Memory` if memory runs out.
    pub fn copy(&self, alloc: Global) -> Result<MapTable, Memory>
        ensures { IfOk result (λ other. other.items ≡ self.now.items) }
    {
        Ok(MapTable {
            spans: self.spans.copy(alloc)?,
        })
    }
}

/// Moves the spans after the `n` rules from `first` on down by `n` rules. Each begins `k` lower.
fn close_up(spans: &mut Roomy<Span>, first: u32, n: u32, k: u32)
    requires range { first + n ≤ length spans.old.items }
    requires high { All (λ s. k ≤ s.first) (drop (first + n) spans.old.items) }
    requires own { OwnsFrom first spans.old }
    ensures items { IsMoved (lowered k) first n (length spans.old.items) spans.old.items spans.new.items }
    ensures spare { spans.new.spare ≡ spans.old.spare }
    ensures own { spans.new.own ≡ spans.old.own }
    ensures taken { spans.new.taken ≡ spans.old.taken }
{
    'spans: for i in first..spans.len() - n {
        let mut span = *spans.at(i + n);
        span.first -= k;
        spans.set(i, span);
    }
}

fn refill_spans(spans: &Roomy<Span>, matched: &BitRow, next: &mut BitRow)
    requires rows { length matched.now.bits ≡ length spans.now.items }
    requires zeros { next.old.bits ≡ replicate (length next.old.bits) false }
    requires within { All (λ s. s.first + s.count ≤ length next.old.bits) spans.now.items }
    ensures bits { next.new.bits ≡ refilled spans.now.items matched.now.bits (length next.old.bits) }
    ensures len { length next.new.bits ≡ length next.old.bits }
    ensures spare { next.new.spare ≡ next.old.spare }
{
    let _rules = matched.len();
    let mut from = 0;
    'rules: while let Some(r) = matched.next_set(from) {
        let span = *spans.at(r);
        next.set_range(span.first, span.count);
        from = r + 1;
    }
}
