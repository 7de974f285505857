ghost use Rattle.std.specs.Prelude.{◌≡◌, ◌+◌, ◌<◌, ◌≤◌, ◌^◌, ◌&&◌, [], ◌∷◌, ◌++◌, length, slice_get, Some, false, IfOk, OnOk, All, take, drop, map, position};
ghost use Rattle.std.specs.Bool.{OnTrue};
ghost use Rattle.std.specs.List.{zip};
ghost use Rattle.set_model.specs.Expiry.{lives};
ghost use Rattle.set_tables.specs.Rows.{ends_without, ends_renewed, lowered_place, end_renewed, is_led};
ghost use Rattle.mapping_table.specs.Spared.{word_of, OwnsRange, OwnsFrom, KeepsOwn, TakesNone, IsCommon, IsMoved};

use crate::latest::{find_latest, is_past, raise, raise_word};
use crate::roomy::Roomy;
use bit_rows::BitRow;
use set_model::{Memory, expiry_moment, is_live};
use set_tables::End;
use std::alloc::Global;
use std::marker::Model;

/// The rules of the last field, each with its element's place and expiry, in pages of 512 that
/// copies share.
///
/// Contracts also see how many more rules have room (`spare`), and the capacities of its vectors
/// (`taken`). Of each page they see whether it is this table's own (`own`), so that it can change.
#[derive(Drop)]
pub struct EndTable {
    ends: Roomy<End>,
    /// For each word of 64 rules a moment, in milliseconds, by which all its ends are expired. It
    /// is `u64::MAX` if an end has no expiry. The moment may be later than the latest expiry, even
    /// `u64::MAX`, since a renewal never lowers it.
    latest: Vec<u64>,
}

impl Model for EndTable {
    ghost use Rattle.set_tables.specs.declared.End.{End};
    ghost use Rattle.std.specs.Prelude.{◌∷◌};
    ghost use Rattle.std.specs.Vec.{vec_capacity};
    ghost use Rattle.mapping_table.specs.Spared.{Spared};
    ghost use Rattle.mapping_table.specs.Latest.{AreTimed};

    ghost Value = { Spared End };

    ghost view = { λ a. record {
      items = a.ends.items;
      spare = a.ends.spare;
      own = a.ends.own;
      taken = record { rest = a.ends.taken.rest; others = vec_capacity a.latest ∷ a.ends.taken.others };
    } };

    ghost invariant = { λ a. AreTimed a.ends a.latest.items (vec_capacity a.latest) };
}

impl EndTable {
    /// No rules. It takes no memory.
    pub fn new(alloc: Global) -> Self
        ensures items { result.items ≡ [] }
        ensures spare { result.spare ≡ 0 }
        ensures taken { result.taken ≡ record { rest = 0; others = 0 ∷ 0 ∷ [] } }
    {
        EndTable {
            ends: Roomy::new(alloc),
            latest: Vec::new(alloc),
        }
    }

    /// How many rules there are.
    pub fn len(&self) -> u32
        ensures { result ≡ length self.now.items }
    {
        self.ends.len()
    }

    /// The end of rule `i`.
    #[inline(always)]
    pub fn at(&self, i: u32) -> &End
        requires { i < length self.now.items }
        ensures { slice_get self.now.items i ≡ Some result.now }
    {
        self.ends.at(i)
    }

    /// The ends of the rules of word `w`: at most 64, from rule `64 * w` on.
    #[inline(always)]
    pub fn word(&self, w: u32) -> &[End]
        ensures { result.now ≡ word_of w self.now.items }
    {
        self.ends.word(w)
    }

    /// Takes room for `n` more rules.
    ///
    /// # Errors
    /// `Memory` if memory runs out. The rules stay.
    pub fn reserve(&mut self, n: u32) -> Result<(), Memory>
        requires { length self.old.items + n < 2 ^ 32 }
        ensures items { self.new.items ≡ self.old.items }
        ensures ok { OnOk result (n ≤ self.new.spare) }
        ensures kept { self.old.spare ≤ self.new.spare }
        ensures own { KeepsOwn self.old self.new }
    {
        let words = (self.ends.len() as usize + n as usize).div_ceil(64);
        self.latest.reserve(words - self.latest.len())?;
        self.ends.reserve(n)
    }

    /// Adds a rule. There must be room for it. It takes no memory.
    pub fn push(&mut self, item: End)
        requires { 1 ≤ self.old.spare }
        ensures items { self.new.items ≡ self.old.items ++ item ∷ [] }
        ensures spare { self.new.spare + 1 ≡ self.old.spare }
        ensures own { self.new.own ≡ self.old.own }
        ensures taken { self.new.taken ≡ self.old.taken }
    {
        let word = self.ends.len() as usize / 64;
        raise_word(&mut self.latest, word, expiry_moment(item.expiry));
        self.ends.push(item);
    }

    /// Whether all ends of word `w` are known to be expired at `now`, in milliseconds. These are
    /// the ends of the rules from `64 * w` to `64 * w + 63`. The call looks at none of them.
    ///
    /// If it returns false, all may still be expired: a renewal by an earlier expiry doesn't lower
    /// the word's moment.
    #[inline(always)]
    pub fn is_word_expired(&self, w: u32, now: u64) -> bool
        ensures { OnTrue result (All (λ e. lives e.expiry now ≡ false) (word_of w self.now.items)) }
    {
        match self.latest.get(w as usize) {
            Some(latest) => is_past(*latest, now),
            None => false,
        }
    }

    /// The lowest matched rule that has no expiry, or an expiry later than `now`, in milliseconds.
    pub fn first_live(&self, matched: &BitRow, now: u64) -> Option<u32>
        requires { length matched.now.bits ≡ length self.now.items }
        ensures { result ≡ position (is_led now) (zip self.now.items matched.now.bits) }
    {
        first_led(&self.ends, matched, now)
    }

    /// Makes the pages of the `n` rules from `first` on this table's own.
    ///
    /// # Errors
    ///
    /// `Memory` if memory runs out. The rules stay, and pages that were the table's own still are.
    pub fn own_range(&mut self, first: u32, n: u32) -> Result<(), Memory>
        ensures items { self.new.items ≡ self.old.items }
        ensures spare { self.new.spare ≡ self.old.spare }
        ensures ok { OnOk result (OwnsRange first n self.new) }
        ensures own { KeepsOwn self.old self.new }
    {
        self.ends.own_range(first, n)
    }

    /// Makes the pages from rule `first` on this table's own.
    ///
    /// # Errors
    ///
    /// `Memory` if memory runs out. The rules stay, and pages that were the table's own still are.
    pub fn own_from(&mut self, first: u32) -> Result<(), Memory>
        ensures items { self.new.items ≡ self.old.items }
        ensures spare { self.new.spare ≡ self.old.spare }
        ensures ok { OnOk result (OwnsFrom first self.new) }
        ensures own { KeepsOwn self.old self.new }
    {
        self.ends.own_from(first)
    }

    /// Removes the `n` rules of one element, from `first` on. The elements of later rules have a
    /// place one lower. It takes no memory.
    pub fn drop_rules(&mut self, first: u32, n: u32)
        requires range { first + n ≤ length self.old.items }
        requires later { All (λ e. 1 ≤ e.place) (drop (first + n) self.old.items) }
        requires own { OwnsFrom first self.old }
        ensures items { self.new.items ≡ ends_without self.old.items first n }
        ensures taken { TakesNone (length self.new.items) self.old self.new }
    {
        close_up(&mut self.ends, first, n);
        let len = self.ends.len();
        self.ends.truncate(len - n);
        find_latest(&self.ends, &mut self.latest, first / 64);
    }

    /// Gives the `n` ends from `first` on another expiry. It takes no memory.
    pub fn set_expiry(&mut self, first: u32, n: u32, expiry: Option<u64>)
        requires range { first + n ≤ length self.old.items }
        requires own { OwnsRange first n self.old }
        ensures items { self.new.items ≡ ends_renewed self.old.items first n expiry }
        ensures spare { self.new.spare ≡ self.old.spare }
        ensures own { self.new.own ≡ self.old.own }
        ensures taken { self.new.taken ≡ self.old.taken }
    {
        renew(&mut self.ends, first, n, expiry);
        let from = first as usize / 64;
        let to = (first as usize + n as usize).div_ceil(64);
        raise(&mut self.latest, from, to, expiry_moment(expiry));
    }

    /// Lets copies share the pages from now on. No page is copied.
    ///
    /// # Errors
    /// `Memory` if memory runs out. The rules stay.
    pub fn settle(&mut self) -> Result<(), Memory>
        ensures items { self.new.items ≡ self.old.items }
        ensures spare { self.new.spare ≡ self.old.spare }
        ensures common { OnOk result (IsCommon self.new) }
    {
        self.ends.settle()
    }

    /// A copy of the rules. It counts one reference for each settled page.
    ///
    /// # Errors
    /// `Memory` if memory runs out.
    pub fn copy(&self, alloc: Global) -> Result<EndTable, Memory>
        ensures { IfOk result (λ other. other.items ≡ self.now.items) }
    {
        let ends = self.ends.copy(alloc)?;
        let latest = Vec::from_slice(alloc, self.latest.as_slice())?;
        Ok(EndTable { ends, latest })
    }
}

fn first_led(ends: &Roomy<End>, matched: &BitRow, now: u64) -> Option<u32>
    requires { length matched.now.bits ≡ length ends.now.items }
    ensures { result ≡ position (is_led now) (zip ends.now.items matched.now.bits) }
{
    let _rules = matched.len();
    let mut from = 0;
    'rules: while let Some(r) = matched.next_set(from) {
        if is_live(ends.at(r).expiry, now) {
            return Some(r);
        }
        from = r + 1;
    }
    None
}

/// Moves the ends after the `n` rules from `first` on down by `n` rules. The place of each one's
/// element is one lower.
fn close_up(ends: &mut Roomy<End>, first: u32, n: u32)
    requires range { first + n ≤ length ends.old.items }
    requires later { All (λ e. 1 ≤ e.place) (drop (first + n) ends.old.items) }
    requires own { OwnsFrom first ends.old }
    ensures items { IsMoved lowered_place first n (length ends.old.items) ends.old.items ends.new.items }
    ensures spare { ends.new.spare ≡ ends.old.spare }
    ensures own { ends.new.own ≡ ends.old.own }
    ensures taken { ends.new.taken ≡ ends.old.taken }
{
    'ends: for i in first..ends.len() - n {
        let mut end = *ends.at(i + n);
        end.place -= 1;
        ends.set(i, end);
    }
}

fn renew(ends: &mut Roomy<End>, first: u32, n: u32, expiry: Option<u64>)
    requires range { first + n ≤ length ends.old.items }
    requires own { OwnsRange first n ends.old }
    ensures items { IsMoved (end_renewed expiry) first 0 (first + n) ends.old.items ends.new.items }
    ensures spare { ends.new.spare ≡ ends.old.spare }
    ensures own { ends.new.own ≡ ends.old.own }
    ensures taken { ends.new.taken ≡ ends.old.taken }
{
    let _rules = ends.len();
    'ends: for i in first..first + n {
        let mut end = *ends.at(i);
        end.expiry = expiry;
        ends.set(i, end);
    }
}
