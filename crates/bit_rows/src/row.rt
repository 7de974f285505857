ghost use Rattle.std.specs.Prelude.{◌≡◌, ℕ, ◌+◌, ◌-◌, ◌*◌, ◌%◌, ◌^◌, ◌<◌, ◌≤◌, false, [], ◌∷◌, ◌++◌, length, replicate, cond, vec_capacity, IfOk, OnOk, OnErr, MatchOption};
ghost use Rattle.set_model.specs.Runs.{without_run};
ghost use Rattle.bit_rows.specs.Row.{Row, at, both, either, with_run, bit, IsNextSet, IsCleared, IsWordPut, IsSpelling};
ghost use Rattle.bit_rows.specs.Words.{first_bits, places_in, IsStored};

use crate::{storage, words};
use set_model::Memory;
use std::alloc::Global;
use std::marker::Model;

/// A row of bits that grows at its end.
///
/// A place is a bit's number in the row, from 0 on. The row's room is the number of places that it
/// can have without taking memory, at most 4,294,967,295.
#[derive(Drop)]
pub struct BitRow {
    words: Vec<u64>,
    len: u32,
}

impl Model for BitRow {
    ghost Value = { Row };

    ghost view = { λ r. record {
      bits = first_bits r.words.items r.len;
      spare = places_in (length r.words.items) - r.len;
    } };

    ghost invariant = { λ r. IsStored r.words.items r.len (vec_capacity r.words) };
}

/// How many words are taken for so many places. It is a multiple of eight.
fn words_taken(places: u32) -> usize
    ensures steps { result % 8 ≡ 0 }
    ensures small { result ≤ 2 ^ 26 }
    ensures within { places ≤ 64 * result }
    ensures least { 64 * result ≤ places + 511 }
{
    (places as usize + 511) / 512 * 8
}

/// How many words hold so many places.
#[inline(always)]
fn words_used(places: u32) -> usize
    ensures within { places ≤ 64 * result }
    ensures least { 64 * result ≤ places + 63 }
{
    (places as usize + 63) / 64
}

/// How many of the `used` words a fill sets as a whole, so that they need no clearing before it.
#[inline(always)]
fn words_kept(len: u32, bit: bool, used: usize) -> usize
    ensures within { result ≤ used }
    ensures kept { 64 * result ≤ cond bit len 0 }
{
    if bit { used.min(len as usize / 64) } else { 0 }
}

#[tactic(auto, using(crate::proofs::Rows::reads))]
impl BitRow {
    /// A row of `len` places, none of them set. It has room for the next multiple of 512 places.
    ///
    /// # Errors
    /// `Memory` if memory runs out.
    pub fn zeros(alloc: Global, len: u32) -> Result<Self, Memory>
        ensures zeros { IfOk result (λ row. row.bits ≡ replicate len false) }
        ensures tight { IfOk result (λ row. len % 512 ≡ 0 → row.spare ≡ 0) }
    {
        let mut words = Vec::new(alloc);
        storage::grow(&mut words, words_taken(len))?;
        Ok(BitRow { words, len })
    }

    /// The number of places.
    #[inline(always)]
    pub fn len(&self) -> u32
        ensures { result ≡ length self.now.bits }
    {
        self.len
    }

    /// How many places the row can have without taking memory.
    pub fn room(&self) -> u32
        ensures { result ≡ length self.now.bits + self.now.spare }
    {
        let _len = self.len;
        let places = self.words.len() * 64;
        places.min(u32::MAX as usize) as u32
    }

    /// Whether place `i` is set.
    #[inline(always)]
    pub fn get(&self, i: u32) -> bool
        requires { i < length self.now.bits }
        ensures { result ≡ at self.now.bits i }
    {
        words::is_set(self.words[i as usize / 64], i % 64)
    }

    /// The 64 places from place `64 * i` on, the first in the lowest bit. A bit past the row's end
    /// is 0.
    #[inline(always)]
    pub fn word(&self, i: u32) -> u64
        ensures { (k : ℕ) → k < 64 → bit result k ≡ at self.now.bits (64 * i + k) }
    {
        words::word_at(&self.words, i as usize)
    }

    /// The row's words, for a loop that reads many of them. Word i has the 64 places from place `64
    /// * i` on, with the first in the lowest bit. Bits past the row's end are 0.
    #[inline(always)]
    pub fn words(&self) -> &[u64]
        ensures { IsSpelling result.now self.now.bits }
    {
        let _len = self.len;
        self.words.as_slice()
    }

    /// Takes room for `n` more places. Room that was taken stays.
    ///
    /// # Errors
    /// `Memory` if memory runs out. The row is as it was.
    pub fn reserve(&mut self, n: u32) -> Result<(), Memory>
        requires { length self.old.bits + n < 2 ^ 32 }
        ensures bits { self.new.bits ≡ self.old.bits }
        ensures spare { OnOk result (n ≤ self.new.spare) }
        ensures stays { self.old.spare ≤ self.new.spare }
        ensures err { OnErr result (self.new ≡ self.old) }
    {
        let wanted = words_taken(self.len + n);
        if self.words.len() < wanted {
            storage::grow(&mut self.words, wanted)?;
        }
        Ok(())
    }

    /// Adds a place at the end. It is set if `bit` is true.
    #[inline(always)]
    pub fn push(&mut self, bit: bool)
        requires { 1 ≤ self.old.spare }
        ensures bits { self.new.bits ≡ self.old.bits ++ bit ∷ [] }
        ensures spare { self.new.spare + 1 ≡ self.old.spare }
    {
        let place = self.len as usize;
        storage::set_places(&mut self.words, place, place + 1, bit);
        self.len += 1;
    }

    /// Adds `n` places at the end, none of them set.
    #[inline(always)]
    pub fn push_zeros(&mut self, n: u32)
        requires { n ≤ self.old.spare }
        ensures bits { self.new.bits ≡ self.old.bits ++ replicate n false }
        ensures spare { self.new.spare + n ≡ self.old.spare }
    {
        self.len += n;
    }

    /// Makes the row `len` places long. All places are set if `bit` is true, and none otherwise.
    pub fn fill(&mut self, len: u32, bit: bool)
        requires { len ≤ length self.old.bits + self.old.spare }
        ensures bits { self.new.bits ≡ replicate len bit }
        ensures room { length self.new.bits + self.new.spare ≡ length self.old.bits + self.old.spare }
    {
        let used = words_used(self.len);
        let kept = words_kept(len, bit, used);
        storage::clear_words(&mut self.words, kept, used);
        storage::set_places(&mut self.words, 0, len as usize, bit);
        self.len = len;
    }

    /// Sets the `n` places from `from` on.
    #[inline(always)]
    pub fn set_range(&mut self, from: u32, n: u32)
        requires { from + n ≤ length self.old.bits }
        ensures bits { self.new.bits ≡ with_run self.old.bits from n }
        ensures spare { self.new.spare ≡ self.old.spare }
    {
        let from = from as usize;
        storage::set_places(&mut self.words, from, from + n as usize, true);
    }

    /// Returns the 64 places from place `64 * i` on as [`BitRow::word`] does, and clears them.
    #[inline(always)]
    pub fn take_word(&mut self, i: u32) -> u64
        requires { 64 * i < length self.old.bits }
        ensures word { (k : ℕ) → k < 64 → bit result k ≡ at self.old.bits (64 * i + k) }
        ensures bits { IsCleared (64 * i) (64 * (i + 1)) self.old.bits self.new.bits }
        ensures spare { self.new.spare ≡ self.old.spare }
    {
        storage::take_word(&mut self.words, i as usize)
    }

    /// Overwrites the 64 places from place `64 * i` on with a word. The word has no place past the
    /// row's end.
    #[inline(always)]
    pub fn put_word(&mut self, i: u32, word: u64)
        requires place { 64 * i < length self.old.bits }
        requires within { (k : ℕ) → k < 64 → length self.old.bits ≤ 64 * i + k → bit word k ≡ false }
        ensures bits { IsWordPut i word self.old.bits self.new.bits }
        ensures spare { self.new.spare ≡ self.old.spare }
    {
        storage::put_word(&mut self.words, i as usize, word);
    }

    /// Clears each place that is not set in the other row.
    pub fn and_from(&mut self, other: &BitRow)
        requires { length self.old.bits ≡ length other.now.bits }
        ensures bits { self.new.bits ≡ both self.old.bits other.now.bits }
        ensures spare { self.new.spare ≡ self.old.spare }
    {
        let used = words_used(self.len);
        storage::and_words(&mut self.words, &other.words, used);
    }

    /// Sets each place that is set in the other row.
    pub fn or_from(&mut self, other: &BitRow)
        requires { length self.old.bits ≡ length other.now.bits }
        ensures bits { self.new.bits ≡ either self.old.bits other.now.bits }
        ensures spare { self.new.spare ≡ self.old.spare }
    {
        let used = words_used(self.len);
        storage::or_words(&mut self.words, &other.words, used);
    }

    /// The least set place that is not below `from`, if there is one.
    pub fn next_set(&self, from: u32) -> Option<u32>
        ensures { MatchOption result ((i : ℕ) → from ≤ i → at self.now.bits i ≡ false)
            (IsNextSet self.now.bits from) }
    {
        let used = words_used(self.len);
        match words::next_place(&self.words, from as usize, used) {
            Some(place) => Some(place as u32),
            None => None,
        }
    }

    /// Removes the `n` places from `from` on. Later places move down.
    pub fn remove_range(&mut self, from: u32, n: u32)
        requires { from + n ≤ length self.old.bits }
        ensures bits { self.new.bits ≡ without_run self.old.bits from n }
        ensures room { length self.new.bits + self.new.spare ≡ length self.old.bits + self.old.spare }
    {
        if n != 0 {
            let used = words_used(self.len);
            storage::close_up(&mut self.words, from as usize, n as usize, used);
            self.len -= n;
        }
    }

    /// A copy of the row, with the same room.
    ///
    /// # Errors
    /// `Memory` if memory runs out.
    pub fn copy(&self, alloc: Global) -> Result<BitRow, Memory>
        ensures { IfOk result (λ row. row ≡ self.now) }
    {
        let words = storage::copy(alloc, &self.words)?;
        Ok(BitRow {
            words,
            len: self.len,
        })
    }
}
