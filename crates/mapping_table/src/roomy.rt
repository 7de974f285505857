ghost use Rattle.std.specs.Prelude.{◌≡◌, ◌+◌, ◌/◌, ◌<◌, ◌≤◌, ◌^◌, [], ◌∷◌, ◌++◌, length, max, IfOk, OnOk, slice_get, slice_set, Some, take, drop, true};
ghost use Rattle.std.specs.Vec.{vec_capacity};
ghost use Rattle.mapping_table.specs.Spared.{word_of, OwnsRange, OwnsFrom, KeepsOwn, TakesNone, IsCommon};

use set_model::Memory;
use shared_pages::{PAGE, Page, copy_plain_pages, own_plain_pages, settle_plain_pages};
use std::alloc::Global;
use std::marker::Model;
use std::mem;

/// A list of plain items in pages of 512 that its copies share, with room for more items.
#[derive(Drop)]
pub struct Roomy<T> {
    whole: Vec<Page<T>>,
    // The rest: the items after the whole pages. It is always this list's own.
    rest: Vec<T>,
    // How many items `rest` has room for.
    room: u32,
    alloc: Global,
}

impl<T> Model for Roomy<T> {
    ghost use Rattle.std.specs.Prelude.{◌-◌, [], ◌∷◌, length};
    ghost use Rattle.std.specs.Vec.{vec_capacity};
    ghost use Rattle.shared_pages.specs.Paged.{items_in, owns_of};
    ghost use Rattle.mapping_table.specs.Spared.{Spared, IsRoomy};

    ghost Value = { Spared T };

    ghost view = { λ a. record {
      items = items_in a.whole.items a.rest.items;
      spare = a.room - length a.rest.items;
      own = owns_of a.whole.items;
      taken = record { rest = vec_capacity a.rest; others = vec_capacity a.whole ∷ [] };
    } };

    ghost invariant = { λ a. IsRoomy a.whole.items a.rest.items a.room (vec_capacity a.rest) };
}

impl<T> Roomy<T> {
    pub(crate) fn new(alloc: Global) -> Self
        ensures items { result.items ≡ [] }
        ensures spare { result.spare ≡ 0 }
        ensures taken { result.taken ≡ record { rest = 0; others = 0 ∷ [] } }
    {
        Roomy {
            whole: Vec::new(alloc),
            rest: Vec::new(alloc),
            room: 0,
            alloc,
        }
    }

    #[inline(always)]
    pub(crate) fn len(&self) -> u32
        ensures { result ≡ length self.now.items }
    {
        let _room = self.room;
        (PAGE * self.whole.len() + self.rest.len()) as u32
    }

    #[inline(always)]
    pub(crate) fn at(&self, i: u32) -> &T
        requires { i < length self.now.items }
        ensures { slice_get self.now.items i ≡ Some result.now }
    {
        let page = i as usize / PAGE;
        if page < self.whole.len() {
            let items = &self.whole[page];
            &items.as_slice()[i as usize % PAGE]
        } else {
            &self.rest[i as usize - PAGE * self.whole.len()]
        }
    }

    /// The items of word `w`: at most 64, from place `64 * w` on. They are all in one page, or all
    /// in the rest.
    #[inline(always)]
    pub(crate) fn word(&self, w: u32) -> &[T]
        ensures { result.now ≡ word_of w self.now.items }
    {
        let first = 64 * w as usize;
        let page = first / PAGE;
        if page < self.whole.len() {
            let items = &self.whole[page];
            word_from(items.as_slice(), first % PAGE)
        } else {
            word_from(self.rest.as_slice(), first - PAGE * self.whole.len())
        }
    }

    /// Adds an item at the end. There must be room for it.
    pub(crate) fn push(&mut self, item: T)
        requires { 1 ≤ self.old.spare }
        ensures items { self.new.items ≡ self.old.items ++ item ∷ [] }
        ensures spare { self.new.spare + 1 ≡ self.old.spare }
        ensures own { self.new.own ≡ self.old.own }
        ensures taken { self.new.taken ≡ self.old.taken }
    {
        self.rest.push_reserved(item);
    }
}

impl<T: Copy + Drop> Roomy<T> {
    /// Takes room for `n` more items, in the list's own memory.
    pub(crate) fn reserve(&mut self, n: u32) -> Result<(), Memory>
        requires { length self.old.items + n < 2 ^ 32 }
        ensures items { self.new.items ≡ self.old.items }
        ensures ok { OnOk result (n ≤ self.new.spare) }
        ensures kept { self.old.spare ≤ self.new.spare }
        ensures most { self.new.spare ≤ max self.old.spare n }
        ensures own { KeepsOwn self.old self.new }
    {
        self.turn_page()?;
        self.grow(n)
    }

    /// Takes room in the rest for `n` more items.
    fn grow(&mut self, n: u32) -> Result<(), Memory>
        requires { length self.old.items + n < 2 ^ 32 }
        ensures items { self.new.items ≡ self.old.items }
        ensures ok { OnOk result (n ≤ self.new.spare) }
        ensures kept { self.old.spare ≤ self.new.spare }
        ensures most { self.new.spare ≤ max self.old.spare n }
        ensures own { self.new.own ≡ self.old.own }
    {
        self.rest.reserve(n as usize)?;
        let room = self.rest.len() as u32 + n;
        if self.room < room {
            self.room = room;
        }
        Ok(())
    }

    /// Makes the first 512 items of the rest a whole page, if the rest has that many.
    fn turn_page(&mut self) -> Result<(), Memory>
        ensures items { self.new.items ≡ self.old.items }
        ensures spare { self.new.spare ≡ self.old.spare }
        ensures own { KeepsOwn self.old self.new }
    {
        if self.rest.len() < PAGE {
            return Ok(());
        }
        let page = first_page(self.alloc, self.rest.as_slice())?;
        self.whole.push(page)?;
        drop_front(&mut self.rest, PAGE);
        self.room -= PAGE as u32;
        Ok(())
    }

    /// Makes the pages of the `n` items from `first` on this list's own.
    pub(crate) fn own_range(&mut self, first: u32, n: u32) -> Result<(), Memory>
        ensures items { self.new.items ≡ self.old.items }
        ensures spare { self.new.spare ≡ self.old.spare }
        ensures ok { OnOk result (OwnsRange first n self.new) }
        ensures own { KeepsOwn self.old self.new }
    {
        let behind = (first as usize + n as usize).div_ceil(PAGE);
        let to = behind.min(self.whole.len());
        own_plain_pages(self.alloc, &mut self.whole, first as usize / PAGE, to)
    }

    /// Makes the pages from item `first` on this list's own.
    pub(crate) fn own_from(&mut self, first: u32) -> Result<(), Memory>
        ensures items { self.new.items ≡ self.old.items }
        ensures spare { self.new.spare ≡ self.old.spare }
        ensures ok { OnOk result (OwnsFrom first self.new) }
        ensures own { KeepsOwn self.old self.new }
    {
        let to = self.whole.len();
        own_plain_pages(self.alloc, &mut self.whole, first as usize / PAGE, to)
    }

    /// Overwrites item `i`, whose page is this list's own.
    #[inline(always)]
    pub(crate) fn set(&mut self, i: u32, item: T)
        requires place { i < length self.old.items }
        requires own { OwnsRange i 1 self.old }
        ensures items { self.new.items ≡ slice_set self.old.items i item }
        ensures spare { self.new.spare ≡ self.old.spare }
        ensures own { self.new.own ≡ self.old.own }
        ensures taken { self.new.taken ≡ self.old.taken }
    {
        let page = i as usize / PAGE;
        let count = self.whole.len();
        if page < count {
            let items = &mut self.whole[page];
            items.put(i as usize % PAGE, item);
        } else {
            self.rest[i as usize - PAGE * count] = item;
        }
    }

    /// Keeps the first `len` items alone. The pages from there on are this list's own.
    pub(crate) fn truncate(&mut self, len: u32)
        requires place { len ≤ length self.old.items }
        requires own { OwnsFrom len self.old }
        ensures items { self.new.items ≡ take len self.old.items }
        ensures room { length self.new.items + self.new.spare ≤ length self.old.items + self.old.spare }
        ensures taken { TakesNone len self.old self.new }
    {
        self.reopen(len);
        let before = PAGE * self.whole.len();
        self.rest.truncate(len as usize - before);
    }

    /// Makes the page of item `len` the rest, and drops the later pages.
    fn reopen(&mut self, len: u32)
        requires own { OwnsRange len 1 self.old }
        ensures items { take len self.new.items ≡ take len self.old.items }
        ensures room { length self.new.items + self.new.spare ≤ length self.old.items + self.old.spare }
        ensures taken { TakesNone len self.old self.new }
    {
        let count = len as usize / PAGE;
        if count >= self.whole.len() {
            return;
        }
        let page = &mut self.whole[count];
        let open = mem::replace(page, Page::new(self.alloc));
        self.whole.truncate(count);
        self.rest = open.into_vec();
        self.room = PAGE as u32;
    }

    /// Lets copies share the whole pages from now on.
    pub(crate) fn settle(&mut self) -> Result<(), Memory>
        ensures items { self.new.items ≡ self.old.items }
        ensures spare { self.new.spare ≡ self.old.spare }
        ensures common { OnOk result (IsCommon self.new) }
    {
        self.turn_page()?;
        settle_plain_pages(self.alloc, &mut self.whole)
    }

    /// A copy of the items. It counts one reference for each settled page.
    pub(crate) fn copy(&self, alloc: Global) -> Result<Roomy<T>, Memory>
        ensures items { IfOk result (λ other. other.items ≡ self.now.items) }
        ensures spare { IfOk result (λ other. other.spare ≡ 0) }
    {
        let _room = self.room;
        let whole = copy_plain_pages(alloc, self.whole.as_slice())?;
        let rest = Vec::from_slice(alloc, self.rest.as_slice())?;
        let room = rest.len() as u32;
        Ok(Roomy {
            whole,
            rest,
            room,
            alloc,
        })
    }
}

/// At most 64 items from place `first` on.
#[inline(always)]
fn word_from<T>(items: &[T], first: usize) -> &[T]
    ensures { result.now ≡ take 64 (drop first items.now) }
{
    let rest = &items[first.min(items.len())..];
    &rest[..rest.len().min(64)]
}

/// A page of the first 512 items.
fn first_page<T: Copy + Drop>(alloc: Global, items: &[T]) -> Result<Page<T>, Memory>
    requires { 512 ≤ length items.now }
    ensures items { IfOk result (λ page. page.items ≡ take 512 items.now) }
    ensures own { IfOk result (λ page. page.own ≡ true) }
{
    let first = &items[..PAGE];
    Page::from_slice(alloc, first)
}

/// Removes the first `n` items. The others move down.
fn drop_front<T: Copy + Drop>(items: &mut Vec<T>, n: usize)
    requires { n ≤ length items.old.items }
    ensures items { items.new.items ≡ drop n items.old.items }
    ensures capacity { vec_capacity items.new ≡ vec_capacity items.old }
{
    let len = items.len();
    items.copy_within(n..len, 0);
    items.truncate(len - n);
}
