ghost use Rattle.std.specs.Prelude.{◌≡◌, ◌<◌, ◌≤◌, ◌+◌, ◌-◌, ◌*◌, ◌/◌, ◌^◌, [], ◌∷◌, ◌++◌, true, length, map, All, IfOk, OnOk, OnErr, slice_get, slice_set, insert, remove, max, vec_capacity, Some};
ghost use Rattle.shared_pages.specs.Paged.{items_in, owns_of, AreOwn, AreCommon, IsWhole};

use crate::PAGE;
use crate::page::Page;
use set_model::{Duplicate, Memory};
use std::alloc::Global;
use std::marker::Model;
use std::mem;

/// A list in pages of 512 items, which its copies share once it is settled. Contracts see the list
/// of its items.
#[derive(Drop)]
pub struct Pages<T> {
    // Each page before the last one is whole.
    whole: Vec<Page<T>>,
    last: Page<T>,
    len: u64,
    alloc: Global,
}

impl<T> Model for Pages<T> {
    ghost use Rattle.std.specs.Prelude.{List};
    ghost use Rattle.shared_pages.specs.Paged.{items_in, IsPaged};

    ghost Value = { List T };

    ghost view = { λ a. items_in a.whole.items a.last.items };

    ghost invariant = { λ a. IsPaged a.whole.items a.last.items a.len };
}

impl<T> Pages<T> {
    /// The empty list. It takes no memory.
    pub fn new(alloc: Global) -> Self
        ensures { result ≡ [] }
    {
        Pages {
            whole: Vec::new(alloc),
            last: Page::new(alloc),
            len: 0,
            alloc,
        }
    }

    /// How many items there are.
    #[tactic(auto, using(crate::proofs::PageLaws::items_counted))]
    #[inline(always)]
    pub fn len(&self) -> u64
        ensures { result ≡ length self.now }
    {
        self.len
    }

    /// The item at place `i`.
    #[inline(always)]
    pub fn at(&self, i: u64) -> &T
        requires { i < length self.now }
        ensures { slice_get self.now i ≡ Some result.now }
    {
        let page = i as usize / PAGE;
        if page < self.whole.len() {
            let items = &self.whole[page];
            &items.as_slice()[i as usize % PAGE]
        } else {
            &self.last.as_slice()[i as usize - PAGE * self.whole.len()]
        }
    }
}

impl<T: Duplicate + Drop> Pages<T> {
    /// Adds an item at the end of this list. Copies are unchanged.
    ///
    /// # Errors
    /// `Memory` if memory runs out. The list is as it was.
    #[tactic(auto, using(crate::proofs::PageLaws::items_counted))]
    pub fn push(&mut self, item: T) -> Result<(), Memory>
        requires { length self.old < 2 ^ 64 - 1 }
        ensures ok { OnOk result (self.new ≡ self.old ++ item ∷ []) }
        ensures err { OnErr result (self.new ≡ self.old) }
    {
        if self.last.as_slice().len() < PAGE {
            self.last.push(self.alloc, item)?;
        } else {
            let page = page_of(self.alloc, item)?;
            self.whole.reserve(1)?;
            let full = mem::replace(&mut self.last, page);
            self.whole.push_reserved(full);
        }
        self.len += 1;
        Ok(())
    }

    /// Overwrites the item at place `i` of this list. Copies are unchanged.
    ///
    /// # Errors
    /// `Memory` if memory runs out. The list is as it was.
    pub fn set(&mut self, i: u64, item: T) -> Result<(), Memory>
        requires { i < length self.old }
        ensures ok { OnOk result (self.new ≡ slice_set self.old i item) }
        ensures err { OnErr result (self.new ≡ self.old) }
    {
        let page = i as usize / PAGE;
        let count = self.whole.len();
        if page < count {
            let items = &mut self.whole[page];
            items.set(self.alloc, i as usize % PAGE, item)?;
        } else {
            self.last.set(self.alloc, i as usize - PAGE * count, item)?;
        }
        Ok(())
    }

    /// Removes the item at place `i` from this list. Copies are unchanged. Later items move down
    /// from page to page, and these pages are this list's own from then on.
    ///
    /// # Errors
    /// `Memory` if memory runs out. The list is as it was.
    pub fn remove(&mut self, i: u64) -> Result<T, Memory>
        requires { i < length self.old }
        ensures item { IfOk result (λ item. slice_get self.old i ≡ Some item) }
        ensures ok { OnOk result (self.new ≡ remove self.old i) }
        ensures err { OnErr result (self.new ≡ self.old) }
    {
        self.last.own(self.alloc)?;
        own_pages(self.alloc, &mut self.whole, i as usize / PAGE)?;
        let item = take_out(&mut self.whole, &mut self.last, i as usize);
        self.len -= 1;
        drop_empty(&mut self.whole, &mut self.last);
        Ok(item)
    }

    /// Lets copies share all pages from now on. It copies no item.
    ///
    /// # Errors
    /// `Memory` if memory runs out. The list is as it was.
    pub fn settle(&mut self) -> Result<(), Memory>
        ensures { self.new ≡ self.old }
    {
        self.last.settle(self.alloc)?;
        settle_pages(self.alloc, &mut self.whole)
    }
}

impl<T: Duplicate + Drop> Duplicate for Pages<T> {
    fn copy(&self, alloc: Global) -> Result<Self, Memory> {
        let whole = copied_pages(alloc, self.whole.as_slice())?;
        let last = self.last.copy(alloc)?;
        Ok(Pages {
            whole,
            last,
            len: self.len,
            alloc,
        })
    }
}

/// A page of one item.
fn page_of<T: Duplicate + Drop>(alloc: Global, item: T) -> Result<Page<T>, Memory>
    ensures { IfOk result (λ page. page.items ≡ item ∷ []) }
{
    let mut page = Page::new(alloc);
    page.push(alloc, item)?;
    Ok(page)
}

/// A copy of the pages.
fn copied_pages<T: Duplicate + Drop>(
    alloc: Global,
    pages: &[Page<T>],
) -> Result<Vec<Page<T>>, Memory>
    ensures { IfOk result (λ others. map (λ page. page.items) others.items ≡ map (λ page. page.items) pages.now) }
{
    let mut others = Vec::with_capacity(alloc, pages.len())?;
    'pages: for page in pages {
        others.push(page.copy(alloc)?)?;
    }
    Ok(others)
}

/// Makes the pages from this one on the list's own.
fn own_pages<T: Duplicate + Drop>(
    alloc: Global,
    pages: &mut Vec<Page<T>>,
    from: usize,
) -> Result<(), Memory>
    ensures items { map (λ page. page.items) pages.new.items ≡ map (λ page. page.items) pages.old.items }
    ensures own { OnOk result (AreOwn from pages.new.items) }
{
    'pages: for k in from..pages.len() {
        let page = &mut pages[k];
        page.own(alloc)?;
    }
    Ok(())
}

/// Lets copies share the pages.
///
/// # Errors
/// `Memory` if memory runs out. The items are as they were.
pub fn settle_pages<T: Drop>(alloc: Global, pages: &mut Vec<Page<T>>) -> Result<(), Memory>
    ensures items { map (λ page. page.items) pages.new.items ≡ map (λ page. page.items) pages.old.items }
    ensures room { vec_capacity pages.new ≡ vec_capacity pages.old }
    ensures common { OnOk result (AreCommon (length pages.new.items) pages.new.items) }
{
    'pages: for k in 0..pages.len() {
        let page = &mut pages[k];
        page.settle(alloc)?;
    }
    Ok(())
}

/// Removes the item at place `i` from the whole pages and the last one. It takes no memory.
fn take_out<T>(whole: &mut Vec<Page<T>>, last: &mut Page<T>, i: usize) -> T
    requires whole { All IsWhole whole.old.items }
    requires own { AreOwn (i / 512) whole.old.items }
    requires last { last.old.own ≡ true }
    requires few { length last.old.items ≤ 512 }
    requires filled { 0 < length last.old.items }
    requires place { i < length (items_in whole.old.items last.old.items) }
    ensures item { insert (items_in whole.new.items last.new.items) i result ≡ items_in whole.old.items last.old.items }
    ensures whole { All IsWhole whole.new.items }
    ensures count { length whole.new.items ≡ length whole.old.items }
    ensures less { length last.new.items + 1 ≡ length last.old.items }
{
    let page = i / PAGE;
    let count = whole.len();
    if page >= count {
        return last.remove(i - PAGE * count);
    }
    let next = take_behind(whole, last, page);
    let items = &mut whole[page];
    items.pass(i % PAGE, next)
}

/// Removes the first item after this page, so that later items move down. It takes no memory.
fn take_behind<T>(whole: &mut Vec<Page<T>>, last: &mut Page<T>, page: usize) -> T
    requires page { page < length whole.old.items }
    requires whole { All IsWhole whole.old.items }
    requires own { AreOwn page whole.old.items }
    requires last { last.old.own ≡ true }
    requires few { length last.old.items ≤ 512 }
    requires filled { 0 < length last.old.items }
    ensures item { insert (items_in whole.new.items last.new.items) (512 * page + 512) result ≡ items_in whole.old.items last.old.items }
    ensures whole { All IsWhole whole.new.items }
    ensures own { AreOwn page whole.new.items }
    ensures count { length whole.new.items ≡ length whole.old.items }
    ensures less { length last.new.items + 1 ≡ length last.old.items }
{
    let count = whole.len();
    let mut next = last.remove(0);
    'pages: for back in 1..count - page {
        let items = &mut whole[count - back];
        next = items.pass(0, next);
    }
    next
}

/// If the last page is empty, drops it and takes the whole page before it.
fn drop_empty<T: Drop>(whole: &mut Vec<Page<T>>, last: &mut Page<T>)
    requires { All IsWhole whole.old.items }
    ensures items { items_in whole.new.items last.new.items ≡ items_in whole.old.items last.old.items }
    ensures whole { All IsWhole whole.new.items }
    ensures within { length last.new.items ≤ max 512 (length last.old.items) }
    ensures filled { length last.new.items ≡ 0 → length whole.new.items ≡ 0 }
    ensures counted { 512 * length whole.new.items + length last.new.items ≡ 512 * length whole.old.items + length last.old.items }
{
    if !last.as_slice().is_empty() {
        return;
    }
    if let Some(page) = whole.pop() {
        *last = page;
    }
}
