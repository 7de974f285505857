ghost use Rattle.std.specs.Prelude.{◌≡◌, true, All};
ghost use Rattle.set_model.specs.Key.{key_fits};

use crate::numbers::word_at;
use crate::workload::{element_at, keys_of, kinds_of};
use pipapo_image::{Added, ChangeError, Scratch, SetImage};
use set_model::{Key, Memory, NewElement, parts_fit};
use std::alloc::Global;

/// Why nothing was measured.
#[derive(Drop)]
pub(crate) enum Fault {
    Memory,
    Fields,
}

impl From<Memory> for Fault {
    fn from(_: Memory) -> Fault {
        Fault::Memory
    }
}

/// Which lookups are measured, and in which set.
#[derive(Clone, Copy, PartialEq, Eq)]
pub(crate) enum Lookups {
    /// The lookups of packets.
    Fused,
    /// The textbook lookup.
    Textbook,
    /// The lookups of packets, in a set in which each element but the last expired before the next
    /// one was added.
    Expired,
}

/// A set that is measured, with the number of each of its elements in the workload.
#[derive(Drop)]
struct Measured {
    set: SetImage,
    scratch: Scratch,
    numbers: Vec<u64>,
    // The moment of the next addition. After the last addition it is the moment of all lookups.
    now: u64,
    lookups: Lookups,
    alloc: Global,
}

/// Builds the set and looks up the keys. Returns the bytes of the set's tables.
pub(crate) fn run(
    alloc: Global,
    kinds: &[u32],
    elements: &[u64],
    keys: &[u64],
    rounds: u32,
    lookups: Lookups,
    answers: &mut [u64],
) -> Result<u64, Fault> {
    let mut measured = Measured::new(alloc, kinds, lookups)?;
    measured.build_and_look_up(elements, kinds.len(), keys, rounds, answers)
}

impl Measured {
    fn new(alloc: Global, kinds: &[u32], lookups: Lookups) -> Result<Measured, Fault> {
        let scratch = Scratch::new(alloc)?;
        match new_set(alloc, kinds, false) {
            Ok(set) => Ok(Measured {
                set,
                scratch,
                numbers: Vec::new(alloc),
                now: 0,
                lookups,
                alloc,
            }),
            Err(fault) => Err(fault),
        }
    }

    /// Adds all elements and looks up the keys. Returns the bytes of the set's tables.
    fn build_and_look_up(
        &mut self,
        elements: &[u64],
        fields: usize,
        keys: &[u64],
        rounds: u32,
        answers: &mut [u64],
    ) -> Result<u64, Fault> {
        self.fill(elements, fields)?;
        self.look_up(keys, rounds, answers)?;
        self.number(answers);
        Ok(table_bytes(&self.set))
    }

    /// Adds all elements, but leaves out those that are refused, and settles the set, as a commit does.
    fn fill(&mut self, elements: &[u64], fields: usize) -> Result<(), Memory> {
        for e in 0..elements.len() / fields.saturating_mul(4).max(1) {
            self.add_one(elements, fields, e)?;
        }
        self.set.settle()
    }

    fn add_one(&mut self, elements: &[u64], fields: usize, e: usize) -> Result<(), Memory> {
        let mut expiry = None;
        if self.lookups == Lookups::Expired {
            self.now = e as u64;
            expiry = Some(self.now.saturating_add(1));
        }
        let element = element_at(self.alloc, elements, fields, e, expiry)?;
        match add(
            self.alloc,
            &mut self.set,
            &element,
            self.now,
            &mut self.scratch,
        ) {
            Ok(true) => note(&mut self.numbers, e as u64),
            Ok(false) => Ok(()),
            Err(memory) => Err(memory),
        }
    }

    /// Looks up all keys `rounds` times.
    fn look_up(&mut self, keys: &[u64], rounds: u32, answers: &mut [u64]) -> Result<(), Memory> {
        let keys = keys_of(self.alloc, self.set.kinds(), keys, answers.len())?;
        look_up_all(
            &self.set,
            keys.as_slice(),
            self.now,
            rounds,
            self.lookups,
            &mut self.scratch,
            answers,
        );
        Ok(())
    }

    /// Turns places into the numbers of the elements. Both count from 1.
    fn number(&self, answers: &mut [u64]) {
        for answer in answers.iter_mut() {
            if *answer != 0 {
                let place = *answer - 1;
                *answer = word_at(self.numbers.as_slice(), place as usize).saturating_add(1);
            }
        }
    }
}

pub(crate) fn new_set(alloc: Global, kinds: &[u32], disjoint: bool) -> Result<SetImage, Fault> {
    let kinds = kinds_of(alloc, kinds)?;
    if kinds.len() == 0 || kinds.len() > 16 {
        return Err(Fault::Fields);
    }
    Ok(SetImage::new(alloc, &kinds, None, disjoint)?)
}

fn note(numbers: &mut Vec<u64>, number: u64) -> Result<(), Memory> {
    numbers.push(number)?;
    Ok(())
}

/// Adds an element, and returns whether it is new.
fn add(
    alloc: Global,
    set: &mut SetImage,
    element: &NewElement,
    now: u64,
    scratch: &mut Scratch,
) -> Result<bool, Memory> {
    if !parts_fit(set.kinds(), &element.parts) {
        return Ok(false);
    }
    match set.insert(alloc, element, now, scratch) {
        Ok(Added::New { .. }) => Ok(true),
        Err(ChangeError::Memory) => Err(Memory),
        _ => Ok(false),
    }
}

/// Looks up each key `rounds` times.
fn look_up_all(
    set: &SetImage,
    keys: &[Key],
    now: u64,
    rounds: u32,
    lookups: Lookups,
    scratch: &mut Scratch,
    answers: &mut [u64],
)
    requires { All (λ key. key_fits set.now.kinds key ≡ true) keys.now }
{
    for _ in 0..rounds {
        if lookups == Lookups::Textbook {
            plain_round(set, keys, now, scratch, answers);
        } else {
            round(set, keys, now, scratch, answers);
        }
    }
}

/// Looks up each key once. An answer is the element's place plus 1, or 0 if there is none.
#[inline(never)]
fn round(set: &SetImage, keys: &[Key], now: u64, scratch: &mut Scratch, answers: &mut [u64])
    requires { All (λ key. key_fits set.now.kinds key ≡ true) keys.now }
{
    'keys: for (key, answer) in keys.iter().zip(answers.iter_mut()) {
        *answer = match set.find(key, now, scratch) {
            Some(found) => found.place.saturating_add(1),
            None => 0,
        };
    }
}

/// As `round`, by the textbook lookup.
#[inline(never)]
fn plain_round(set: &SetImage, keys: &[Key], now: u64, scratch: &mut Scratch, answers: &mut [u64])
    requires { All (λ key. key_fits set.now.kinds key ≡ true) keys.now }
{
    'keys: for (key, answer) in keys.iter().zip(answers.iter_mut()) {
        *answer = match set.plain_place(key, now, scratch) {
            Some(place) => place.saturating_add(1),
            None => 0,
        };
    }
}

/// The bytes of the room of the buckets, the mappings and the ends.
fn table_bytes(set: &SetImage) -> u64 {
    let index = set.index();
    let mut bytes = 0u64;
    for f in 0..index.fields.len() {
        let buckets = &index.fields.at(f).buckets;
        let row = buckets.room() as u64 / 8;
        bytes = bytes.saturating_add(buckets.len().saturating_mul(row));
    }
    for f in 0..index.maps.len() {
        bytes = bytes.saturating_add(index.maps.at(f).len() as u64 * 8);
    }
    bytes.saturating_add(index.ends.len() as u64 * 24)
}
