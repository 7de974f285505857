ghost use Rattle.std.specs.Prelude.{◌≡◌, ℕ, ◌+◌, ◌-◌, ◌*◌, ◌^◌, ◌<◌, ◌≤◌, [], length, IfOk};
ghost use Rattle.bit_rows.specs.Words.{first_bits};
ghost use Rattle.bit_rows.specs.Ranked.{low_ones, rank};

use set_model::Memory;
use std::alloc::Global;
use std::marker::Model;

/// How many places a page has.
const PAGE: u64 = 512;

/// How many words a page has.
const WORDS: u64 = 8;

/// A list of bits that doesn't change. It returns how many places before a place are set, the
/// place's rank. Contracts see the list.
#[derive(Drop)]
pub struct RankedBits {
    /// Place `64 w + k` is bit `k` of word `w`.
    words: Vec<u64>,
    len: u64,
    /// For each whole page, how many places up to its end are set.
    ranks: Vec<u64>,
}

impl Model for RankedBits {
    ghost use Rattle.std.specs.Prelude.{List, Bool};
    ghost use Rattle.bit_rows.specs.Words.{first_bits};
    ghost use Rattle.bit_rows.specs.Ranked.{IsRanked};

    ghost Value = { List Bool };

    ghost view = { λ r. first_bits r.words.items r.len };

    ghost invariant = { λ r. IsRanked r.words.items r.len r.ranks.items };
}

/// How many of the `n` lowest bits of a word are set.
#[inline(always)]
fn ones_below(word: u64, n: u64) -> u64
    requires { n < 64 }
    ensures { result ≡ low_ones word n }
{
    (word & ((1u64 << n) - 1)).count_ones() as u64
}

/// How many bits of a word are set.
#[inline(always)]
fn ones(word: u64) -> u64
    ensures value { result ≡ low_ones word 64 }
    ensures bound { result ≤ 64 }
{
    word.count_ones() as u64
}

/// How many places are set in the words from `from` up to `to`.
#[inline(always)]
fn ones_in(words: &[u64], from: u64, to: u64) -> u64
    requires order { from ≤ to }
    requires within { to ≤ length words.now }
    requires fit { 64 * to < 2 ^ 64 }
    ensures counted { (len : ℕ) → 64 * to ≤ len → rank (first_bits words.now len) (64 * from) + result ≡ rank (first_bits words.now len) (64 * to) }
    ensures bound { result ≤ 64 * (to - from) }
{
    let mut count = 0;
    'words: for w in from..to {
        count += ones(words[w as usize]);
    }
    count
}

impl RankedBits {
    /// No places. It takes no memory.
    pub fn new(alloc: Global) -> RankedBits
        ensures { result ≡ [] }
    {
        RankedBits {
            words: Vec::new(alloc),
            len: 0,
            ranks: Vec::new(alloc),
        }
    }

    /// The first `len` places of words.
    ///
    /// # Errors
    /// `Memory` if memory runs out.
    pub fn of_words(alloc: Global, words: Vec<u64>, len: u64) -> Result<RankedBits, Memory>
        requires { len ≤ 64 * length words.items }
        ensures { IfOk result (λ bits. bits ≡ first_bits words.items len) }
    {
        let mut ranks = Vec::new(alloc);
        let mut rank = 0;
        'pages: for page in 0..len / PAGE {
            rank += ones_in(words.as_slice(), WORDS * page, WORDS * page + WORDS);
            ranks.push(rank)?;
        }
        Ok(RankedBits { words, len, ranks })
    }

    /// How many places there are.
    pub fn len(&self) -> u64
        ensures { result ≡ length self.now }
    {
        self.len
    }

    /// How many places before a page are set.
    #[inline(always)]
    fn rank_of_page(&self, page: u64) -> u64
        requires { 512 * page ≤ length self.now }
        ensures { result ≡ rank self.now (512 * page) }
    {
        match page {
            0 => 0,
            _ => self.ranks[page as usize - 1],
        }
    }

    /// How many places before place `i` are set. It takes no memory. The time doesn't depend on the
    /// place or the list.
    #[inline]
    pub fn rank(&self, i: u64) -> u64
        requires { i ≤ length self.now }
        ensures { result ≡ rank self.now i }
    {
        let (page, w) = (i / PAGE, i / 64);
        let whole = self.rank_of_page(page) + ones_in(self.words.as_slice(), WORDS * page, w);
        match i % 64 {
            0 => whole,
            n => whole + ones_below(self.words[w as usize], n),
        }
    }
}
