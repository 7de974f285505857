// The functions on words, for the vector that keeps a row.
ghost use Rattle.std.specs.Prelude.{◌≡◌, ℕ, ◌+◌, ◌-◌, ◌*◌, ◌^◌, ◌<◌, ◌≤◌, false, cond, ◌&&◌, ◌||◌, nat_lt, length, slice_index, vec_capacity, IfOk, OnOk, OnErr};
ghost use Rattle.bit_rows.specs.Row.{bit, lies};
ghost use Rattle.bit_rows.specs.Words.{bit_in};

use crate::words;
use set_model::Memory;
use std::alloc::Global;

/// Adds words that are 0, up to `n` words, and takes no memory for more.
///
/// # Errors
/// `Memory` if memory runs out. The words are as they were.
#[tactic(auto, using(crate::proofs::Rows::grown))]
pub(crate) fn grow(words: &mut Vec<u64>, n: usize) -> Result<(), Memory>
    requires more { length words.old.items ≤ n }
    requires full { vec_capacity words.old ≡ length words.old.items }
    ensures length { OnOk result (length words.new.items ≡ n) }
    ensures places { OnOk result ((i : ℕ) → bit_in words.new.items i ≡ bit_in words.old.items i) }
    ensures err { OnErr result (words.new.items ≡ words.old.items) }
    ensures full { vec_capacity words.new ≡ length words.new.items }
{
    let added = n - words.len();
    words.reserve_exact(added)?;
    'words: for _ in 0..added {
        words.push_reserved(0);
    }
    Ok(())
}

/// A copy of the words, in as much memory.
///
/// # Errors
/// `Memory` if memory runs out.
pub(crate) fn copy(alloc: Global, words: &[u64]) -> Result<Vec<u64>, Memory>
    ensures items { IfOk result (λ copied. copied.items ≡ words.now) }
    ensures full { IfOk result (λ copied. vec_capacity copied ≡ length words.now) }
{
    let mut copied = Vec::with_capacity(alloc, words.len())?;
    'words: for word in words {
        copied.push_reserved(*word);
    }
    Ok(copied)
}

/// Sets the places from `from` up to `to`, if `bit` is true.
#[inline(always)]
pub(crate) fn set_places(words: &mut Vec<u64>, from: usize, to: usize, bit: bool)
    requires order { from ≤ to }
    requires within { to ≤ 64 * length words.old.items }
    ensures length { length words.new.items ≡ length words.old.items }
    ensures room { vec_capacity words.new ≡ vec_capacity words.old }
    ensures places { (i : ℕ) → bit_in words.new.items i
        ≡ (bit_in words.old.items i || (bit && lies from to i)) }
{
    if bit {
        words::set_places(words.as_mut_slice(), from, to);
    }
}

/// Clears the words from `from` up to `to`.
#[inline(always)]
pub(crate) fn clear_words(words: &mut Vec<u64>, from: usize, to: usize)
    requires order { from ≤ to }
    requires within { to ≤ length words.old.items }
    ensures length { length words.new.items ≡ length words.old.items }
    ensures room { vec_capacity words.new ≡ vec_capacity words.old }
    ensures places { (i : ℕ) → bit_in words.new.items i
        ≡ cond (lies (64 * from) (64 * to) i) false (bit_in words.old.items i) }
{
    words::fill_words(words.as_mut_slice(), from, to, false);
}

/// Returns word `w`, and clears it.
#[inline(always)]
pub(crate) fn take_word(words: &mut Vec<u64>, w: usize) -> u64
    requires { w < length words.old.items }
    ensures word { result ≡ slice_index words.old.items w }
    ensures length { length words.new.items ≡ length words.old.items }
    ensures room { vec_capacity words.new ≡ vec_capacity words.old }
    ensures places { (i : ℕ) → bit_in words.new.items i
        ≡ cond (lies (64 * w) (64 * (w + 1)) i) false (bit_in words.old.items i) }
{
    words::take_word(words.as_mut_slice(), w)
}

/// Overwrites word `w`.
#[inline(always)]
pub(crate) fn put_word(words: &mut Vec<u64>, w: usize, word: u64)
    requires { w < length words.old.items }
    ensures length { length words.new.items ≡ length words.old.items }
    ensures room { vec_capacity words.new ≡ vec_capacity words.old }
    ensures places { (i : ℕ) → bit_in words.new.items i
        ≡ cond (lies (64 * w) (64 * (w + 1)) i) (bit word (i - 64 * w)) (bit_in words.old.items i) }
{
    words::put_word(words.as_mut_slice(), w, word);
}

/// ANDs the first `n` words with those of `other`.
#[inline(always)]
pub(crate) fn and_words(words: &mut Vec<u64>, other: &[u64], n: usize)
    requires here { n ≤ length words.old.items }
    requires there { n ≤ length other.now }
    ensures length { length words.new.items ≡ length words.old.items }
    ensures room { vec_capacity words.new ≡ vec_capacity words.old }
    ensures places { (i : ℕ) → bit_in words.new.items i
        ≡ cond (nat_lt i (64 * n)) (bit_in words.old.items i && bit_in other.now i) (bit_in words.old.items i) }
{
    words::and_words(words.as_mut_slice(), other, n);
}

/// ORs the first `n` words with those of `other`.
#[inline(always)]
pub(crate) fn or_words(words: &mut Vec<u64>, other: &[u64], n: usize)
    requires here { n ≤ length words.old.items }
    requires there { n ≤ length other.now }
    ensures length { length words.new.items ≡ length words.old.items }
    ensures room { vec_capacity words.new ≡ vec_capacity words.old }
    ensures places { (i : ℕ) → bit_in words.new.items i
        ≡ cond (nat_lt i (64 * n)) (bit_in words.old.items i || bit_in other.now i) (bit_in words.old.items i) }
{
    words::or_words(words.as_mut_slice(), other, n);
}

/// Moves the places after the `n` places from `from` on down by `n`, within the first `used` words.
#[inline(always)]
pub(crate) fn close_up(words: &mut Vec<u64>, from: usize, n: usize, used: usize)
    requires within { from < 64 * used }
    requires here { used ≤ length words.old.items }
    requires small { n < 2 ^ 32 }
    requires words { length words.old.items ≤ 2 ^ 26 }
    ensures length { length words.new.items ≡ length words.old.items }
    ensures room { vec_capacity words.new ≡ vec_capacity words.old }
    ensures places { (i : ℕ) → bit_in words.new.items i
        ≡ cond (lies from (64 * used) i) (bit_in words.old.items (i + n)) (bit_in words.old.items i) }
{
    words::close_up(words.as_mut_slice(), from, n, used);
}
