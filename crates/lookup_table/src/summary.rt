ghost use Rattle.std.specs.Prelude.{◌≡◌, ℕ, ◌+◌, ◌*◌, ◌/◌, ◌^◌, ◌<◌, ◌≤◌, true, nat_lt, length, get_or, vec_capacity, All, IfOk};
ghost use Rattle.bit_rows.specs.Row.{bit};
ghost use Rattle.lookup_table.specs.Table.{IsShaped};
ghost use Rattle.lookup_table.specs.Lines.{IsWithinRoom};
ghost use Rattle.lookup_table.specs.Summary.{upper_place, lower_place, HasMarks, ArePages, IsSummed, KeepsMarks, IsMarkSet, AreRulesMarked};
ghost use Rattle.set_model.specs.Blocks.{IsWithin};
ghost use Rattle.field_groups.specs.Groups.{IsWidth};
ghost use Rattle.shared_pages.specs.Paged.{owns_of};

use crate::lines::Lines;
use set_model::{Block, Memory};
use shared_pages::Page;
use std::alloc::Global;
use word_summary::{mark_block, mark_line, new_page, shared_words};

// The summary is made from the buckets of the table. A word of rules has a mark for a value of a
// byte if the AND of that value's buckets keeps some rule of the word.

/// The places of the buckets whose AND says which rules agree with value `j % 256` of byte `j /
/// 256`.
#[inline(always)]
fn line_places(width: u32, j: u64) -> (u64, u64)
    requires { j < 2 ^ 40 }
    ensures upper { result.0 ≡ upper_place width j }
    ensures lower { result.1 ≡ lower_place width j }
{
    if width == 8 {
        (j, j)
    } else {
        let (g, v) = (j / 256, j % 256);
        (2 * g * 16 + v / 16, (2 * g + 1) * 16 + v % 16)
    }
}

/// Makes the marks of the eight words of rules from word `8 * q` on anew, in their page.
fn renew_words(page: &mut Page<u64>, buckets: &Lines, width: u32, bits: u32, q: u32)
    requires groups { IsWidth width bits }
    requires count { length buckets.now.rows ≡ bits / width * 2 ^ width }
    requires words { IsWithinRoom (512 * q) buckets.now.rows }
    requires own { page.old.own ≡ true }
    requires marks { HasMarks 64 width bits (512 * q) buckets.now.rows (q / 8) page.old.items }
    ensures marks { HasMarks 64 width bits (512 * (q + 1)) buckets.now.rows (q / 8) page.new.items }
    ensures own { page.new.own ≡ true }
{
    let words = buckets.page(q);
    'lines: for j in 0..bits / 8 * 256 {
        let (upper, lower) = line_places(width, j as u64);
        let marks = shared_words(words, upper as usize, lower as usize);
        mark_line(page, j as usize, 8 * (q % 8), 8, marks);
    }
}

/// Makes the marks of the rules from rule `512 * from` up to rule `512 * end` anew, if their pages
/// exist. Earlier marks stay.
pub(crate) fn renew_pages(
    pages: &mut Vec<Page<u64>>,
    buckets: &Lines,
    width: u32,
    bits: u32,
    from: u32,
    end: u32,
)
    requires groups { IsWidth width bits }
    requires count { length buckets.now.rows ≡ bits / width * 2 ^ width }
    requires order { from ≤ end }
    requires words { (q : ℕ) → q < end → IsWithinRoom (512 * q) buckets.now.rows }
    requires own { (q : ℕ) → from ≤ q → q < end → get_or (owns_of pages.old.items) (q / 8) true ≡ true }
    requires summed { IsSummed 64 width bits (512 * from) buckets.now.rows pages.old.items }
    ensures summed { IsSummed 64 width bits (512 * end) buckets.now.rows pages.new.items }
    ensures own { owns_of pages.new.items ≡ owns_of pages.old.items }
    ensures room { vec_capacity pages.new ≡ vec_capacity pages.old }
{
    'words: for q in from..end {
        renew_at(pages, buckets, width, bits, q);
    }
}

/// Makes the marks of the eight words of rules from word `8 * q` on anew, if their page exists.
fn renew_at(pages: &mut Vec<Page<u64>>, buckets: &Lines, width: u32, bits: u32, q: u32)
    requires groups { IsWidth width bits }
    requires count { length buckets.now.rows ≡ bits / width * 2 ^ width }
    requires words { IsWithinRoom (512 * q) buckets.now.rows }
    requires own { get_or (owns_of pages.old.items) (q / 8) true ≡ true }
    requires summed { IsSummed 64 width bits (512 * q) buckets.now.rows pages.old.items }
    ensures summed { IsSummed 64 width bits (512 * (q + 1)) buckets.now.rows pages.new.items }
    ensures own { owns_of pages.new.items ≡ owns_of pages.old.items }
    ensures room { vec_capacity pages.new ≡ vec_capacity pages.old }
{
    let p = q as usize / 8;
    if p >= pages.len() {
        return;
    }
    let page = &mut pages[p];
    renew_words(page, buckets, width, bits, q);
}

/// Marks the rules of these blocks, from rule `first` on, if their pages exist. A mark is for
/// `unit` rules.
pub(crate) fn mark_added(
    pages: &mut Vec<Page<u64>>,
    added: &[Block],
    bits: u32,
    first: u32,
    unit: u32,
)
    requires groups { IsWidth 8 bits }
    requires pages { ArePages bits pages.old.items }
    requires few { first + length added.now < 2 ^ 32 }
    requires unit { 1 ≤ unit }
    requires own { (r : ℕ) → first ≤ r → r < first + length added.now → get_or (owns_of pages.old.items) (r / unit / 64) true ≡ true }
    requires within { All (IsWithin bits) added.now }
    ensures kept { KeepsMarks pages.old.items pages.new.items }
    ensures marked { AreRulesMarked unit bits first (length added.now) added.now pages.new.items }
    ensures own { owns_of pages.new.items ≡ owns_of pages.old.items }
    ensures room { vec_capacity pages.new ≡ vec_capacity pages.old }
{
    'rules: for (i, block) in added.iter().enumerate() {
        set_mark(pages, *block, bits, (first + i as u32) / unit);
    }
}

/// Sets mark `m` in each line whose value agrees with the block, if its page exists.
fn set_mark(pages: &mut Vec<Page<u64>>, block: Block, bits: u32, m: u32)
    requires groups { IsWidth 8 bits }
    requires pages { ArePages bits pages.old.items }
    requires own { get_or (owns_of pages.old.items) (m / 64) true ≡ true }
    requires block { IsWithin bits block }
    ensures kept { KeepsMarks pages.old.items pages.new.items }
    ensures pages { ArePages bits pages.new.items }
    ensures marked { IsMarkSet bits block m pages.new.items }
    ensures own { owns_of pages.new.items ≡ owns_of pages.old.items }
    ensures room { vec_capacity pages.new ≡ vec_capacity pages.old }
{
    let p = m as usize / 64;
    if p >= pages.len() {
        return;
    }
    let page = &mut pages[p];
    mark_block(page, block, bits, m % 64);
}

/// Page `p` of a summary, with the marks of all its rules.
fn summed_page(
    alloc: Global,
    buckets: &Lines,
    width: u32,
    bits: u32,
    rules: u32,
    p: u32,
) -> Result<Page<u64>, Memory>
    requires shape { IsShaped width bits rules buckets.now.rows }
    requires page { p < 2 ^ 26 }
    ensures { IfOk result (λ page. HasMarks 64 width bits rules buckets.now.rows p page.items) }
{
    let mut page = new_page(alloc, bits)?;
    'words: for q in 8 * p..rules.div_ceil(512).min(8 * p + 8) {
        renew_words(&mut page, buckets, width, bits, q);
    }
    Ok(page)
}

/// Adds pages with their marks, up to `n` pages. The list's capacity is then exactly its length.
///
/// # Errors
///
/// `Memory` if memory runs out. The pages that were added have their marks.
pub(crate) fn add_pages(
    alloc: Global,
    pages: &mut Vec<Page<u64>>,
    n: u32,
    buckets: &Lines,
    width: u32,
    bits: u32,
    rules: u32,
) -> Result<(), Memory>
    requires shape { IsShaped width bits rules buckets.now.rows }
    requires few { n ≤ 2 ^ 26 }
    requires summed { IsSummed 64 width bits rules buckets.now.rows pages.old.items }
    requires full { vec_capacity pages.old ≡ length pages.old.items }
    ensures summed { IsSummed 64 width bits rules buckets.now.rows pages.new.items }
    ensures full { vec_capacity pages.new ≡ length pages.new.items }
{
    'pages: for p in pages.len()..n as usize {
        let page = summed_page(alloc, buckets, width, bits, rules, p as u32)?;
        pages.reserve_exact(1)?;
        pages.push_reserved(page);
    }
    Ok(())
}

/// How many pages the summary of so many rules has. Up to 64 rules are one word, and need no page.
pub(crate) fn pages_for(is_summed: bool, rules: u32) -> u32
    ensures { result ≤ 2 ^ 20 }
{
    if is_summed && rules > 64 {
        rules.div_ceil(4096)
    } else {
        0
    }
}

/// Of the 64 words of rules from word `64 * p` on, those that a table of so many rules has.
#[inline(always)]
pub(crate) fn words_of(rules: u32, p: u32) -> u64
    ensures { (k : ℕ) → k < 64 → bit result k ≡ nat_lt (64 * (64 * p + k)) rules }
{
    if rules / 4096 > p {
        // The page is full.
        return u64::MAX;
    }
    let words = (rules as u64).div_ceil(64).saturating_sub(64 * p as u64);
    if words < 64 {
        (1u64 << words) - 1
    } else {
        u64::MAX
    }
}
