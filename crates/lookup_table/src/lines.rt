ghost use Rattle.std.specs.Prelude.{◌≡◌, ℕ, ◌+◌, ◌*◌, ◌/◌, ◌%◌, ◌^◌, ◌<◌, ◌≤◌, true, false, length, get_or, slice_index, replicate, vec_capacity, All, IfOk, OnOk};
ghost use Rattle.bit_rows.specs.Row.{bit, both, either};
ghost use Rattle.shared_pages.specs.Paged.{owns_of};
ghost use Rattle.lookup_table.specs.Table.{bucket_at, cell};
ghost use Rattle.lookup_table.specs.Rows.{Each, IsGrown, IsRaised, IsMarked, IsClosedUp, IsPut};
ghost use Rattle.lookup_table.specs.Lines.{words_at, AreOwned, IsPage, IsWithinRoom, OwnsPlaces, OwnsNoPage, IsPageOf, HasLine, line_bit, IsMore, IsWordWritten, AreMarked, IsLinePut, IsWordClosed, AreClosed};

use bit_rows::{BitRow, joined, merged};
use set_model::Memory;
use shared_pages::{Page, copy_plain_pages, own_plain_pages, settle_plain_pages};
use std::alloc::Global;
use std::marker::Model;

/// How many places a page has of each row. `WORDS` is the same in words of 64.
const PLACES: u32 = 512;

const WORDS: usize = 8;

/// The buckets of a table, in pages of 512 rules that copies share. A page has a line of eight
/// words for each bucket.
///
/// Contracts see the list of rows, and for each page whether it is this table's own. The list of
/// pages has exactly the capacity that it uses. So a call that leaves the number of pages takes no
/// memory.
#[derive(Drop)]
pub struct Lines {
    count: u32,
    len: u32,
    pages: Vec<Page<u64>>,
}

impl Model for Lines {
    ghost use Rattle.std.specs.Vec.{vec_capacity};
    ghost use Rattle.lookup_table.specs.Lines.{Lined, rows_of, AreKept};
    ghost use Rattle.shared_pages.specs.Paged.{owns_of};

    ghost Value = { Lined };

    ghost view = { λ a. record { rows = rows_of a.pages.items a.len a.count; own = owns_of a.pages.items } };

    ghost invariant = { λ a. AreKept a.count a.len a.pages.items (vec_capacity a.pages) };
}

impl Lines {
    /// How many rows there are.
    pub fn len(&self) -> u64
        ensures { result ≡ length self.now.rows }
    {
        self.count as u64
    }

    /// How many places each row can have without taking memory: at most 4,294,966,784.
    pub fn room(&self) -> u32
        ensures rows { All (λ row. result ≡ length row.bits + row.spare) self.now.rows }
        ensures most { result + 512 ≤ 2 ^ 32 }
    {
        let _len = self.len;
        self.pages.len() as u32 * PLACES
    }

    /// Page `p`, which has the 512 places from place `512 * p` on: a line of eight words for each
    /// row.
    #[inline(always)]
    pub fn page(&self, p: u32) -> &[u64]
        requires { IsWithinRoom (512 * p) self.now.rows }
        ensures { IsPage self.now.rows p result.now }
    {
        let _count = self.count;
        self.pages[p as usize].as_slice()
    }

    /// The 64 places of row `j` from place `64 * i` on, with the first in the lowest bit. A bit
    /// past the row's end is 0.
    #[inline(always)]
    pub fn word(&self, j: u64, i: u32) -> u64
        requires { j < length self.now.rows }
        ensures { (k : ℕ) → k < 64 → bit result k ≡ cell self.now.rows j (64 * i + k) }
    {
        let _count = self.count;
        word_of(self.pages.as_slice(), j as usize, i as usize)
    }

    /// Clears each place of the row that is not set in row `j`.
    pub(crate) fn and_into(&self, j: u64, row: &mut BitRow)
        requires row { j < length self.now.rows }
        requires length { length row.old.bits ≡ length (bucket_at self.now.rows j).bits }
        ensures bits { row.new.bits ≡ both row.old.bits (bucket_at self.now.rows j).bits }
        ensures spare { row.new.spare ≡ row.old.spare }
    {
        'words: for i in 0..row.len().div_ceil(64) {
            row.put_word(i, row.word(i) & self.word(j, i));
        }
    }

    /// Sets each place of the row that is set in row `j`.
    pub(crate) fn or_into(&self, j: u64, row: &mut BitRow)
        requires row { j < length self.now.rows }
        requires length { length row.old.bits ≡ length (bucket_at self.now.rows j).bits }
        ensures bits { row.new.bits ≡ either row.old.bits (bucket_at self.now.rows j).bits }
        ensures spare { row.new.spare ≡ row.old.spare }
    {
        'words: for i in 0..row.len().div_ceil(64) {
            row.put_word(i, row.word(i) | self.word(j, i));
        }
    }

    /// A copy of row `j`.
    ///
    /// # Errors
    /// `Memory` if memory runs out.
    pub fn row(&self, alloc: Global, j: u64) -> Result<BitRow, Memory>
        requires { j < length self.now.rows }
        ensures { IfOk result (λ row. row.bits ≡ (bucket_at self.now.rows j).bits) }
    {
        let mut row = BitRow::zeros(alloc, self.len)?;
        self.or_into(j, &mut row);
        Ok(row)
    }

    /// `count` rows of `len` places, none of them set. `len` is at most 4,294,966,784.
    ///
    /// # Errors
    /// `Memory` if memory runs out.
    pub(crate) fn zeros(alloc: Global, count: u32, len: u32) -> Result<Lines, Memory>
        requires few { count < 2 ^ 20 }
        requires most { len + 512 ≤ 2 ^ 32 }
        ensures long { IfOk result (λ lines. length lines.rows ≡ count) }
        ensures zeros { IfOk result (λ lines. All (λ row. row.bits ≡ replicate len false) lines.rows) }
        ensures own { IfOk result (λ lines. OwnsPlaces 0 len lines.own) }
    {
        let mut pages = Vec::new(alloc);
        add_pages(alloc, &mut pages, count, len.div_ceil(PLACES) as usize)?;
        Ok(Lines { count, len, pages })
    }

    /// Takes room for `n` more places in each row, on pages that are the list's own. A row has at
    /// most 4,294,966,784 places.
    ///
    /// # Errors
    /// `Memory` if memory runs out. The rows are as they were.
    pub(crate) fn reserve(&mut self, n: u32) -> Result<(), Memory>
        requires some { 1 ≤ length self.old.rows }
        requires most { length (bucket_at self.old.rows 0).bits + n + 512 ≤ 2 ^ 32 }
        ensures grown { Each IsGrown self.old.rows self.new.rows }
        ensures room { OnOk result (All (λ row. n ≤ row.spare) self.new.rows) }
        ensures own { OnOk result (OwnsPlaces (length (bucket_at self.old.rows 0).bits) (length (bucket_at self.old.rows 0).bits + n) self.new.own) }
    {
        let alloc = *self.pages.allocator();
        let from = self.len as usize / 512;
        let end = (self.len as usize + n as usize).div_ceil(512);
        open_pages(alloc, &mut self.pages, self.count, from, end)?;
        Ok(())
    }

    /// Makes the pages of the places from `from` on the list's own.
    ///
    /// # Errors
    /// `Memory` if memory runs out. The rows are as they were.
    pub(crate) fn own_from(&mut self, from: u32) -> Result<(), Memory>
        requires { 1 ≤ length self.old.rows }
        ensures rows { self.new.rows ≡ self.old.rows }
        ensures own { OnOk result (OwnsPlaces from (length (bucket_at self.old.rows 0).bits) self.new.own) }
    {
        let alloc = *self.pages.allocator();
        let end = self.len.div_ceil(PLACES) as usize;
        own_plain_pages(alloc, &mut self.pages, from as usize / 512, end)?;
        Ok(())
    }

    /// Adds `n` places at the end of each row. They are not set.
    pub(crate) fn raise(&mut self, n: u32)
        requires some { 1 ≤ length self.old.rows }
        requires room { All (λ row. n ≤ row.spare) self.old.rows }
        ensures rows { Each (IsRaised n) self.old.rows self.new.rows }
        ensures own { self.new.own ≡ self.old.own }
    {
        self.len += n;
    }

    /// Sets place `r`, whose page is the list's own, of the rows from `from` up to `to`.
    pub(crate) fn mark(&mut self, from: u64, to: u64, r: u32)
        requires some { 1 ≤ length self.old.rows }
        requires order { from ≤ to }
        requires within { to ≤ length self.old.rows }
        requires place { All (λ row. r < length row.bits) self.old.rows }
        requires own { OwnsPlaces r (r + 1) self.old.own }
        ensures rows { IsMarked from to r self.old.rows self.new.rows }
        ensures own { self.new.own ≡ self.old.own }
    {
        let _count = self.count;
        let page = &mut self.pages[r as usize / 512];
        mark_lines(
            page,
            from as usize,
            to as usize,
            r as usize % 512 / 64,
            r % 64,
        );
    }

    /// Removes the `n` places from `first` on from each row. Later places move down, on pages that
    /// are the list's own.
    pub(crate) fn close_up(&mut self, first: u32, n: u32)
        requires some { 1 ≤ length self.old.rows }
        requires places { 1 ≤ n }
        requires within { All (λ row. first + n ≤ length row.bits) self.old.rows }
        requires own { OwnsPlaces first (length (bucket_at self.old.rows 0).bits) self.old.own }
        ensures rows { Each (IsClosedUp first n) self.old.rows self.new.rows }
        ensures own { self.new.own ≡ self.old.own }
    {
        let end = self.len.div_ceil(PLACES) as usize;
        close_pages(&mut self.pages, self.count, first as usize, n as usize, end);
        self.len -= n;
    }

    /// Overwrites row `j`, whose pages are the list's own.
    pub(crate) fn put(&mut self, j: u64, row: &BitRow)
        requires row { j < length self.old.rows }
        requires length { length row.now.bits ≡ length (bucket_at self.old.rows j).bits }
        requires own { OwnsPlaces 0 (length row.now.bits) self.old.own }
        ensures rows { IsPut j row.now.bits self.old.rows self.new.rows }
        ensures own { self.new.own ≡ self.old.own }
    {
        put_line(&mut self.pages, self.count, j as usize, row);
    }

    /// Lets copies share the pages from now on. No word is copied.
    ///
    /// # Errors
    /// `Memory` if memory runs out. The rows are as they were.
    pub(crate) fn settle(&mut self) -> Result<(), Memory>
        ensures rows { self.new.rows ≡ self.old.rows }
        ensures common { OnOk result (OwnsNoPage self.new.own) }
    {
        let alloc = *self.pages.allocator();
        settle_plain_pages(alloc, &mut self.pages)?;
        Ok(())
    }

    /// A copy of the rows. It counts one reference for each settled page.
    ///
    /// # Errors
    /// `Memory` if memory runs out.
    pub(crate) fn copy(&self, alloc: Global) -> Result<Lines, Memory>
        ensures { IfOk result (λ lines. lines ≡ self.now) }
    {
        let pages = copy_plain_pages(alloc, self.pages.as_slice())?;
        Ok(Lines {
            count: self.count,
            len: self.len,
            pages,
        })
    }
}

// The functions below work on the list of pages.

/// A page without rules for `count` rows.
fn zero_page(alloc: Global, count: u32) -> Result<Page<u64>, Memory>
    ensures words { IfOk result (λ page. page.items ≡ replicate (count * 8) 0) }
    ensures own { IfOk result (λ page. page.own ≡ true) }
{
    Page::filled(alloc, 0, count as usize * WORDS)
}

/// Adds pages without rules, up to `n` pages, whose places fit a u32. The list's capacity is then
/// exactly its length.
///
/// # Errors
/// `Memory` if memory runs out. The pages so far stay.
fn add_pages(alloc: Global, pages: &mut Vec<Page<u64>>, count: u32, n: usize) -> Result<(), Memory>
    requires full { vec_capacity pages.old ≡ length pages.old.items }
    requires most { 512 * n < 2 ^ 32 }
    ensures more { IsMore count pages.old.items pages.new.items }
    ensures small { 512 * length pages.old.items < 2 ^ 32 → 512 * length pages.new.items < 2 ^ 32 }
    ensures room { OnOk result (n ≤ length pages.new.items) }
    ensures own { AreOwned (length pages.old.items) (length pages.new.items) pages.new.items }
    ensures full { vec_capacity pages.new ≡ length pages.new.items }
{
    'pages: for p in pages.len()..n {
        let page = zero_page(alloc, count)?;
        pages.reserve_exact(1)?;
        pages.push_reserved(page);
    }
    Ok(())
}

/// Adds pages up to page `end`, and makes those from page `from` on the list's own.
///
/// # Errors
/// `Memory` if memory runs out. The words are as they were.
fn open_pages(
    alloc: Global,
    pages: &mut Vec<Page<u64>>,
    count: u32,
    from: usize,
    end: usize,
) -> Result<(), Memory>
    requires full { vec_capacity pages.old ≡ length pages.old.items }
    requires most { 512 * end < 2 ^ 32 }
    ensures more { IsMore count pages.old.items pages.new.items }
    ensures small { 512 * length pages.old.items < 2 ^ 32 → 512 * length pages.new.items < 2 ^ 32 }
    ensures room { OnOk result (end ≤ length pages.new.items) }
    ensures own { OnOk result (AreOwned from end pages.new.items) }
    ensures full { vec_capacity pages.new ≡ length pages.new.items }
{
    add_pages(alloc, pages, count, end)?;
    own_plain_pages(alloc, pages, from, end)
}

/// Word `i` of line `j`. It is 0 after the last page.
#[inline(always)]
fn word_of(pages: &[Page<u64>], j: usize, i: usize) -> u64
    requires line { HasLine j pages.now }
    requires small { j < 2 ^ 32 }
    ensures { result ≡ slice_index (words_at pages.now (i / 8)) (j * 8 + i % 8) }
{
    let page = i / WORDS;
    if page >= pages.len() {
        return 0;
    }
    word_at(pages, page, j * WORDS + i % WORDS)
}

/// Word `x` of page `p`.
#[inline(always)]
fn word_at(pages: &[Page<u64>], p: usize, x: usize) -> u64
    requires page { p < length pages.now }
    requires word { x < length (words_at pages.now p) }
    ensures { result ≡ slice_index (words_at pages.now p) x }
{
    let page = &pages[p];
    page.as_slice()[x]
}

/// Overwrites word `x` of page `p`, which is the list's own.
#[inline(always)]
fn write_word(pages: &mut Vec<Page<u64>>, p: usize, x: usize, word: u64)
    requires page { p < length pages.old.items }
    requires own { get_or (owns_of pages.old.items) p true ≡ true }
    requires word { x < length (words_at pages.old.items p) }
    ensures written { IsWordWritten p x word pages.old.items pages.new.items }
    ensures room { vec_capacity pages.new ≡ vec_capacity pages.old }
{
    let page = &mut pages[p];
    page.put(x, word);
}

/// Sets bit `k` of word `w` of the lines from `from` up to `to`.
fn mark_lines(page: &mut Page<u64>, from: usize, to: usize, w: usize, k: u32)
    requires own { page.old.own ≡ true }
    requires order { from ≤ to }
    requires lines { to * 8 ≤ length page.old.items }
    requires small { to < 2 ^ 32 }
    requires word { w < 8 }
    requires bit { k < 64 }
    ensures own { page.new.own ≡ true }
    ensures marked { AreMarked from to w k page.old.items page.new.items }
{
    'lines: for j in from..to {
        set_bit(page, j, w, k);
    }
}

/// Sets bit `k` of word `w` of line `j`.
#[inline(always)]
fn set_bit(page: &mut Page<u64>, j: usize, w: usize, k: u32)
    requires own { page.old.own ≡ true }
    requires lines { j * 8 + w < length page.old.items }
    requires small { j < 2 ^ 32 }
    requires word { w < 8 }
    requires bit { k < 64 }
    ensures own { page.new.own ≡ true }
    ensures marked { AreMarked j (j + 1) w k page.old.items page.new.items }
{
    let x = j * WORDS + w;
    let word = page.as_slice()[x];
    page.put(x, word | 1u64 << k);
}

/// Overwrites line `j` with the row.
fn put_line(pages: &mut Vec<Page<u64>>, count: u32, j: usize, row: &BitRow)
    requires lines { All (IsPageOf count) pages.old.items }
    requires line { j < count }
    requires places { length row.now.bits ≤ 512 * length pages.old.items }
    requires own { (p : ℕ) → 512 * p < length row.now.bits → get_or (owns_of pages.old.items) p true ≡ true }
    ensures put { IsLinePut count j row.now.bits pages.old.items pages.new.items }
    ensures room { vec_capacity pages.new ≡ vec_capacity pages.old }
{
    'words: for i in 0..row.len().div_ceil(64) {
        let i = i as usize;
        write_word(pages, i / WORDS, j * WORDS + i % WORDS, row.word(i as u32));
    }
}

/// Removes the `n` places from `first` on from each line of the pages up to page `end`. Later
/// places move down.
fn close_pages(pages: &mut Vec<Page<u64>>, count: u32, first: usize, n: usize, end: usize)
    requires lines { All (IsPageOf count) pages.old.items }
    requires few { count < 2 ^ 20 }
    requires order { first / 512 ≤ end }
    requires end { end ≤ length pages.old.items }
    requires small { 512 * length pages.old.items < 2 ^ 32 }
    requires places { first + n < 2 ^ 32 }
    requires own { AreOwned (first / 512) end pages.old.items }
    ensures closed { AreClosed count first n end 0 pages.old.items pages.new.items }
    ensures room { vec_capacity pages.new ≡ vec_capacity pages.old }
{
    'pages: for p in first / 512..end {
        'words: for x in 0..count as usize * WORDS {
            close_word(pages, p, x, first, n);
        }
    }
}

/// Writes word `x` of page `p` as it is without these places. The words after it must be unchanged
/// yet.
#[inline(always)]
fn close_word(pages: &mut Vec<Page<u64>>, p: usize, x: usize, first: usize, n: usize)
    requires line { HasLine (x / 8) pages.old.items }
    requires page { p < length pages.old.items }
    requires small { 512 * length pages.old.items < 2 ^ 32 }
    requires places { first + n < 2 ^ 32 }
    requires word { x < 2 ^ 32 }
    requires own { get_or (owns_of pages.old.items) p true ≡ true }
    ensures closed { IsWordClosed first n p x pages.old.items pages.new.items }
    ensures room { vec_capacity pages.new ≡ vec_capacity pages.old }
{
    let i = p * WORDS + x % WORDS;
    if i < first / 64 {
        return;
    }
    let before = word_at(pages.as_slice(), p, x);
    let moved = moved_word(pages.as_slice(), p, x, n);
    let low = first.saturating_sub(64 * i);
    write_word(pages, p, x, merged(before, moved, low as u32));
}

/// The 64 places that come `n` places after those of word `x` of page `p`, in the same line.
#[inline(always)]
fn moved_word(pages: &[Page<u64>], p: usize, x: usize, n: usize) -> u64
    requires line { HasLine (x / 8) pages.now }
    requires page { p < length pages.now }
    requires small { 512 * length pages.now < 2 ^ 32 }
    requires places { n < 2 ^ 32 }
    requires word { x < 2 ^ 32 }
    ensures { (k : ℕ) → k < 64 → bit result k ≡ line_bit pages.now (x / 8) (64 * (p * 8 + x % 8) + n + k) }
{
    if n < 64 && x % WORDS + 1 < WORDS {
        joined(word_at(pages, p, x), word_at(pages, p, x + 1), n as u32)
    } else {
        word_from(pages, x / WORDS, 64 * (p * WORDS + x % WORDS) + n)
    }
}

/// The 64 places of line `j` from place `from` on.
#[inline(always)]
fn word_from(pages: &[Page<u64>], j: usize, from: usize) -> u64
    requires line { HasLine j pages.now }
    requires small { j < 2 ^ 32 }
    requires from { from < 2 ^ 33 }
    ensures { (k : ℕ) → k < 64 → bit result k ≡ line_bit pages.now j (from + k) }
{
    let (i, by) = (from / 64, (from % 64) as u32);
    joined(word_of(pages, j, i), word_of(pages, j, i + 1), by)
}
