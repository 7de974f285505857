ghost use Rattle.std.specs.Prelude.{◌≡◌, ℕ, ◌+◌, ◌-◌, ◌*◌, ◌/◌, ◌^◌, ◌<◌, ◌≤◌, ◌&&◌, true, false, nat_lt, length, slice_index, replicate, IfOk};
ghost use Rattle.bit_rows.specs.Row.{bit};
ghost use Rattle.field_groups.specs.Groups.{IsWidth};
ghost use Rattle.field_groups.specs.LastFour.{AreLastFour};
ghost use Rattle.word_summary.specs.Marks.{share, IsMarkPage, HasNewMarks, IsPageMarked, ClearsNone, IsWordMarked, IsSingle, AreCandidates};
ghost use Rattle.set_model.specs.Blocks.{IsWithin};

use field_groups::{LastFour, group_mask, group_value};
use set_model::{Block, Memory};
use shared_pages::Page;
use std::alloc::Global;

/// A page without marks, of a field of `bits` bits.
///
/// # Errors
/// `Memory` if memory runs out.
pub fn new_page(alloc: Global, bits: u32) -> Result<Page<u64>, Memory>
    requires { IsWidth 8 bits }
    ensures lines { IfOk result (λ page. page.items ≡ replicate (bits / 8 * 256) 0) }
    ensures own { IfOk result (λ page. page.own ≡ true) }
{
    Page::filled(alloc, 0, bits as usize / 8 * 256)
}

/// The words that may have a rule that holds the value: those that are marked for each of its
/// bytes, or at most one word. Bit 0 is the first word. `last` has the places of the lines of its
/// last four bytes.
#[inline(always)]
pub fn candidates(lines: &[u64], value: u128, bits: u32, last: LastFour) -> u64
    requires groups { IsWidth 8 bits }
    requires page { IsMarkPage bits lines.now }
    requires value { value < 2 ^ bits }
    requires last { AreLastFour 8 bits value last }
    ensures { AreCandidates bits lines.now value result }
{
    // The last bytes separate most rules. These four are ANDed without a stop: a mispredicted
    // branch would cost more than the bytes.
    let mut left = lines[last.fourth] & lines[last.third] & lines[last.second] & lines[last.last];
    'bytes: for i in 0..last.rest {
        if is_single(left) {
            return left;
        }
        let g = last.rest - 1 - i;
        let v = group_value(value, 8, bits, g);
        left &= lines[g as usize * 256 + v as usize];
    }
    left
}

/// Whether a look at more bytes no longer pays: at most one word is left.
#[inline(always)]
fn is_single(left: u64) -> bool
    ensures { result ≡ true → IsSingle left }
{
    left & left.wrapping_sub(1) == 0
}

/// Which of the eight words of two lines of a page have a common bit. Bit 0 is the first word.
#[inline(always)]
pub fn shared_words(words: &[u64], upper: usize, lower: usize) -> u64
    requires upper { upper * 8 + 8 ≤ length words.now }
    requires lower { lower * 8 + 8 ≤ length words.now }
    requires few { length words.now < 2 ^ 40 }
    ensures { (w : ℕ) → w < 64 → bit result w ≡ (nat_lt w 8 && share (slice_index words.now (upper * 8 + w)) (slice_index words.now (lower * 8 + w))) }
{
    let mut marks = 0;
    'words: for w in 0..8 {
        if words[upper * 8 + w] & words[lower * 8 + w] != 0 {
            marks |= 1u64 << w;
        }
    }
    marks
}

/// Makes `n` marks of a line anew, from mark `first` on. Bit 0 of `marks` is the first of them.
#[inline(always)]
pub fn mark_line(page: &mut Page<u64>, line: usize, first: u32, n: u32, marks: u64)
    requires own { page.old.own ≡ true }
    requires line { line < length page.old.items }
    requires first { first < 64 }
    requires few { n < 64 }
    requires within { first + n ≤ 64 }
    requires marks { (k : ℕ) → n ≤ k → k < 64 → bit marks k ≡ false }
    ensures own { page.new.own ≡ true }
    ensures marked { HasNewMarks line first n marks page.old.items page.new.items }
{
    let before = page.as_slice()[line];
    let low = before & ((1u64 << first) - 1);
    let high = before >> first >> n << n;
    page.put(line, low | (high | marks) << first);
}

/// Makes mark `k` of each line of a top anew. `lines` are the lines of page `k`: the mark is set if
/// the page has a mark in the line.
pub fn mark_page(top: &mut Page<u64>, lines: &[u64], k: u32)
    requires own { top.old.own ≡ true }
    requires lines { length lines.now ≡ length top.old.items }
    requires page { k < 64 }
    ensures own { top.new.own ≡ true }
    ensures marked { IsPageMarked k (length lines.now) lines.now top.old.items top.new.items }
{
    'lines: for j in 0..lines.len() {
        mark_line(top, j, k, 1, (lines[j] != 0) as u64);
    }
}

/// Marks word `k` in each line whose value agrees with the block. For each byte these lines are one
/// run.
pub fn mark_block(page: &mut Page<u64>, block: Block, bits: u32, k: u32)
    requires own { page.old.own ≡ true }
    requires groups { IsWidth 8 bits }
    requires page { IsMarkPage bits page.old.items }
    requires word { k < 64 }
    requires block { IsWithin bits block }
    ensures own { page.new.own ≡ true }
    ensures marked { IsWordMarked bits block k page.old.items page.new.items }
{
    'groups: for g in 0..bits / 8 {
        let (base, mask) = group_mask(block, 8, bits, g);
        let first = g as usize * 256 + (base & mask) as usize;
        mark_run(page, first, first + 256 - mask as usize, k);
    }
}

/// Sets mark `k` of the lines from `first` up to `last`.
#[inline(always)]
pub fn mark_run(page: &mut Page<u64>, first: usize, last: usize, k: u32)
    requires own { page.old.own ≡ true }
    requires lines { last ≤ length page.old.items }
    requires word { k < 64 }
    ensures own { page.new.own ≡ true }
    ensures kept { ClearsNone page.old.items page.new.items }
    ensures set { (j : ℕ) → first ≤ j → j < last → bit (slice_index page.new.items j) k ≡ true }
{
    'lines: for j in first..last {
        let marks = page.as_slice()[j];
        page.put(j, marks | 1u64 << k);
    }
}
