// Words of 64 bits, and the places over a slice of words.
ghost use Rattle.std.specs.Prelude.{◌≡◌, ◌≢◌, ℕ, ◌+◌, ◌-◌, ◌*◌, ◌/◌, ◌%◌, ◌^◌, ◌<◌, ◌≤◌, true, false, cond, ◌&&◌, ◌||◌, nat_le, nat_lt, length, slice_index, MatchOption};
ghost use Rattle.bit_rows.specs.Row.{bit, lies};
ghost use Rattle.bit_rows.specs.Words.{bit_in, IsNextPlace};

use crate::lanes;

/// The ones from bit `low` up to bit `high`.
#[inline(always)]
#[tactic(auto, using(crate::proofs::Bits::words))]
fn mask(low: u32, high: u32) -> u64
    requires low { low < 64 }
    requires high { 0 < high }
    requires within { high ≤ 64 }
    ensures { (k : ℕ) → k < 64 → bit result k ≡ lies low high k }
{
    (u64::MAX << low) & (u64::MAX >> (64 - high))
}

/// The least set bit.
#[inline(always)]
fn lowest(word: u64) -> u32
    requires { word ≢ 0 }
    ensures bound { result < 64 }
    ensures set { bit word result ≡ true }
    ensures least { (k : ℕ) → k < result → bit word k ≡ false }
{
    word.trailing_zeros()
}

/// Whether bit `k` is set.
#[inline(always)]
#[tactic(auto, using(crate::proofs::Bits::words))]
pub(crate) fn is_set(word: u64, k: u32) -> bool
    requires { k < 64 }
    ensures { result ≡ bit word k }
{
    word >> k & 1 == 1
}

/// Word `w`, or 0 past the end.
#[inline(always)]
pub(crate) fn word_at(words: &[u64], w: usize) -> u64
    ensures { result ≡ slice_index words.now w }
{
    match words.get(w) {
        Some(word) => *word,
        None => 0,
    }
}

/// The 64 bits from bit `by` of `low` on, where `high` follows `low`.
#[inline(always)]
#[tactic(auto, using(crate::proofs::Places::joins))]
pub fn joined(low: u64, high: u64, by: u32) -> u64
    requires { by < 64 }
    ensures { (k : ℕ) → k < 64 → bit result k
        ≡ (bit low (by + k) || (nat_le 64 (by + k) && bit high (by + k - 64))) }
{
    low >> by | high << 1 << (63 - by)
}

/// The 64 places from `from` on. Past the last word nothing is set.
#[inline(always)]
fn word_from(words: &[u64], from: usize) -> u64
    requires { from < 2 ^ 63 }
    ensures { (k : ℕ) → k < 64 → bit result k ≡ bit_in words.now (from + k) }
{
    let w = from / 64;
    joined(word_at(words, w), word_at(words, w + 1), (from % 64) as u32)
}

/// The 64 places from bit `by` of word `w` on. Word `w` must not be the last word.
#[inline(always)]
fn word_within(words: &[u64], w: usize, by: u32) -> u64
    requires within { w + 1 < length words.now }
    requires bit { by < 64 }
    ensures { (k : ℕ) → k < 64 → bit result k ≡ bit_in words.now (64 * w + by + k) }
{
    joined(words[w], words[w + 1], by)
}

/// The bits of `old` below bit `low`, and the bits of `new` from it on.
#[inline(always)]
#[tactic(auto, using(crate::proofs::Places::joins))]
pub fn merged(old: u64, new: u64, low: u32) -> u64
    requires { low < 64 }
    ensures { (k : ℕ) → k < 64 → bit result k ≡ cond (nat_lt k low) (bit old k) (bit new k) }
{
    old & ((1u64 << low) - 1) | new & (u64::MAX << low)
}

/// Sets the places from `from` up to `to`.
#[inline(always)]
#[tactic(auto, using(crate::proofs::Places::joins))]
pub(crate) fn set_places(words: &mut [u64], from: usize, to: usize)
    requires order { from ≤ to }
    requires within { to ≤ 64 * length words.old }
    ensures length { length words.new ≡ length words.old }
    ensures places { (i : ℕ) → bit_in words.new i ≡ (bit_in words.old i || lies from to i) }
{
    if from < to {
        let (first, last) = (from / 64, (to - 1) / 64);
        if first == last {
            set_in_word(words, from, to);
        } else {
            set_in_word(words, from, 64 * first + 64);
            fill_words(words, first + 1, last, true);
            set_in_word(words, 64 * last, to);
        }
    }
}

/// Sets the places from `from` up to `to`, which are all in one word.
#[inline(always)]
fn set_in_word(words: &mut [u64], from: usize, to: usize)
    requires some { from < to }
    requires within { to ≤ 64 * length words.old }
    requires one { (to - 1) / 64 ≡ from / 64 }
    ensures length { length words.new ≡ length words.old }
    ensures places { (i : ℕ) → bit_in words.new i ≡ (bit_in words.old i || lies from to i) }
{
    words[from / 64] |= mask((from % 64) as u32, ((to - 1) % 64 + 1) as u32);
}

/// Sets all places of the words from `from` up to `to` if `bit` is true, and clears them otherwise.
pub(crate) fn fill_words(words: &mut [u64], from: usize, to: usize, bit: bool)
    requires order { from ≤ to }
    requires within { to ≤ length words.old }
    ensures length { length words.new ≡ length words.old }
    ensures places { (i : ℕ) → bit_in words.new i
        ≡ cond (lies (64 * from) (64 * to) i) bit (bit_in words.old i) }
{
    let word = if bit { u64::MAX } else { 0 };
    let blocks = (to - from) / 8;
    'lanes: for b in 0..blocks {
        lanes::fill_lanes(words, from + 8 * b, word);
    }
    'words: for w in from + 8 * blocks..to {
        words[w] = word;
    }
}

/// Returns word `w`, and clears it.
#[inline(always)]
pub(crate) fn take_word(words: &mut [u64], w: usize) -> u64
    requires { w < length words.old }
    ensures word { result ≡ slice_index words.old w }
    ensures length { length words.new ≡ length words.old }
    ensures places { (i : ℕ) → bit_in words.new i
        ≡ cond (lies (64 * w) (64 * (w + 1)) i) false (bit_in words.old i) }
{
    let word = words[w];
    words[w] = 0;
    word
}

/// Overwrites word `w`.
#[inline(always)]
pub(crate) fn put_word(words: &mut [u64], w: usize, word: u64)
    requires { w < length words.old }
    ensures length { length words.new ≡ length words.old }
    ensures places { (i : ℕ) → bit_in words.new i
        ≡ cond (lies (64 * w) (64 * (w + 1)) i) (bit word (i - 64 * w)) (bit_in words.old i) }
{
    words[w] = word;
}

/// ANDs the first `n` words with those of `other`.
pub(crate) fn and_words(words: &mut [u64], other: &[u64], n: usize)
    requires here { n ≤ length words.old }
    requires there { n ≤ length other.now }
    ensures length { length words.new ≡ length words.old }
    ensures places { (i : ℕ) → bit_in words.new i
        ≡ cond (nat_lt i (64 * n)) (bit_in words.old i && bit_in other.now i) (bit_in words.old i) }
{
    let blocks = n / 8;
    'lanes: for b in 0..blocks {
        lanes::and_lanes(words, other, 8 * b);
    }
    'words: for w in 8 * blocks..n {
        words[w] &= other[w];
    }
}

/// ORs the first `n` words with those of `other`.
pub(crate) fn or_words(words: &mut [u64], other: &[u64], n: usize)
    requires here { n ≤ length words.old }
    requires there { n ≤ length other.now }
    ensures length { length words.new ≡ length words.old }
    ensures places { (i : ℕ) → bit_in words.new i
        ≡ cond (nat_lt i (64 * n)) (bit_in words.old i || bit_in other.now i) (bit_in words.old i) }
{
    let blocks = n / 8;
    'lanes: for b in 0..blocks {
        lanes::or_lanes(words, other, 8 * b);
    }
    'words: for w in 8 * blocks..n {
        words[w] |= other[w];
    }
}

/// Moves the places after the `n` places from `from` on down by `n`, within the first `used` words.
pub(crate) fn close_up(words: &mut [u64], from: usize, n: usize, used: usize)
    requires within { from < 64 * used }
    requires here { used ≤ length words.old }
    requires small { n < 2 ^ 32 }
    requires words { length words.old ≤ 2 ^ 26 }
    ensures length { length words.new ≡ length words.old }
    ensures places { (i : ℕ) → bit_in words.new i
        ≡ cond (lies from (64 * used) i) (bit_in words.old (i + n)) (bit_in words.old i) }
{
    let first = from / 64;
    let moved = word_from(words, first * 64 + n);
    words[first] = merged(words[first], moved, (from % 64) as u32);
    let (far, by) = (n / 64, (n % 64) as u32);
    let whole = (first + 1).max(used - used.min(far + 1));
    'whole: for w in first + 1..whole {
        words[w] = word_within(words, w + far, by);
    }
    'last: for w in whole..used {
        words[w] = word_from(words, w * 64 + n);
    }
}

/// The least set place from `from` on, within the first `n` words.
pub(crate) fn next_place(words: &[u64], from: usize, n: usize) -> Option<usize>
    requires here { n ≤ length words.now }
    requires small { n ≤ 2 ^ 26 }
    ensures { MatchOption result ((i : ℕ) → from ≤ i → i < 64 * n → bit_in words.now i
        ≡ false) (IsNextPlace words.now from (64 * n)) }
{
    let first = from / 64;
    if first >= n {
        return None;
    }
    let head = words[first] & mask((from % 64) as u32, 64);
    if head != 0 {
        return Some(64 * first + lowest(head) as usize);
    }
    'words: for w in past_zero_lanes(words, first + 1, n)..n {
        let word = words[w];
        if word != 0 {
            return Some(64 * w + lowest(word) as usize);
        }
    }
    None
}

/// The first word from `from` on at which eight words are not all 0, or from which fewer than eight
/// are left up to `to`.
#[inline(always)]
fn past_zero_lanes(words: &[u64], from: usize, to: usize) -> usize
    requires order { from ≤ to }
    requires within { to ≤ length words.now }
    ensures low { from ≤ result }
    ensures high { result ≤ to }
    ensures clear { (i : ℕ) → 64 * from ≤ i → i < 64 * result → bit_in words.now i ≡ false }
{
    let blocks = (to - from) / 8;
    'lanes: for b in 0..blocks {
        if !lanes::are_lanes_zero(words, from + 8 * b) {
            return from + 8 * b;
        }
    }
    from + 8 * blocks
}
