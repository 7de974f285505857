// Insertions, deletions, purges and lookups in an order that looks random, at moments that rise and
// fall, beside the plain list. Intervals are small at first and grow.
use crate::drawn::{expiry_behind, intervals, key_near};
use crate::plain::{PlainElement, PlainSet};
use crate::random::Random;
use crate::sets::{Trial, on_new_set};
use pipapo_image::ChangeError;
use set_model::{Interval, Kind, Memory, Why};
use std::alloc::Global;
use std::process::Abort;
use std::test::Fail;

impl PlainElement {
    /// Whether it is live and has exactly these intervals.
    fn is_exactly(&self, parts: &[Interval], now: u64) -> bool {
        self.is_live(now) && self.parts.as_slice() == parts
    }
}

impl PlainSet {
    /// Takes the first live element of exactly these intervals out.
    pub(crate) fn delete(&mut self, parts: &[Interval], now: u64) -> Result<u64, ChangeError> {
        for i in 0..self.elements.len() {
            if self.elements[i].is_exactly(parts, now) {
                return Ok(self.elements.remove(i).id);
            }
        }
        Err(ChangeError::Refused(Why::Missing))
    }

    /// Takes the expired elements out, and returns how many there were.
    fn purge(&mut self, now: u64) -> u64 {
        let before = self.elements.len();
        self.elements.retain(|element| element.is_live(now));
        before.saturating_sub(self.elements.len()) as u64
    }

    /// The intervals of the element at a place. Past the end there are none.
    pub(crate) fn parts_at(&self, alloc: Global, place: usize) -> Result<Vec<Interval>, Memory> {
        match self.elements.get(place) {
            Some(element) => Ok(Vec::from_slice(alloc, element.parts.as_slice())?),
            None => Ok(Vec::new(alloc)),
        }
    }
}

fn insert_one(
    rt: &impl Abort,
    random: &mut Random,
    kinds: &[Kind],
    trial: &mut Trial,
    plain: &mut PlainSet,
    now: u64,
    shapes: u64,
) -> Result<(), Memory> {
    let parts = intervals(trial.alloc, random, kinds, shapes)?;
    let expiry = expiry_behind(random, now);
    let answer = trial.add(rt, parts.as_slice(), expiry, now);
    let wanted = plain.add(parts.as_slice(), expiry, now);
    assert!(rt; answer == wanted);
    Ok(())
}

/// Deletes the intervals of some element, which may be expired.
pub(crate) fn delete_one(
    rt: &impl Abort,
    random: &mut Random,
    trial: &mut Trial,
    plain: &mut PlainSet,
    now: u64,
) -> Result<(), Memory> {
    let place = random.next() as usize % plain.elements.len().max(1);
    let parts = plain.parts_at(trial.alloc, place)?;
    let answer = trial.delete(parts.as_slice(), now);
    let wanted = plain.delete(parts.as_slice(), now);
    assert!(rt; answer == wanted);
    Ok(())
}

/// Looks a key up, and returns how many elements were found.
fn look_up_one(
    rt: &impl Abort,
    random: &mut Random,
    kinds: &[Kind],
    trial: &mut Trial,
    plain: &PlainSet,
    now: u64,
) -> Result<u32, Memory> {
    let key = key_near(trial.alloc, random, kinds, plain)?;
    let found = trial.find(rt, key.as_slice(), now)?;
    assert!(rt; found == plain.find(key.as_slice(), now));
    Ok(found.is_some() as u32)
}

fn purge_both(rt: &impl Abort, trial: &mut Trial, plain: &mut PlainSet, now: u64) {
    let answer = trial.set.purge(trial.alloc, now);
    assert!(rt; answer == Ok(plain.purge(now)));
}

/// One change of any kind, at a moment; a purge once in many.
fn change(
    rt: &impl Abort,
    random: &mut Random,
    kinds: &[Kind],
    trial: &mut Trial,
    plain: &mut PlainSet,
    now: u64,
    shapes: u64,
) -> Result<(), Memory> {
    match random.below(128) {
        0 => Ok(purge_both(rt, trial, plain, now)),
        1..=84 => insert_one(rt, random, kinds, trial, plain, now, shapes),
        _ => delete_one(rt, random, trial, plain, now),
    }
}

/// Makes 750 changes of both, each at a moment below 3,000, and a lookup after each. Returns how many
/// elements were found.
fn hits(
    rt: &impl Abort,
    random: &mut Random,
    kinds: &[Kind],
    trial: &mut Trial,
    plain: &mut PlainSet,
) -> Result<u32, Memory> {
    let mut hits = 0u32;
    for n in 0..750u64 {
        let now = random.below(3_000);
        change(rt, random, kinds, trial, plain, now, 1 + n / 100)?;
        let now = random.below(3_000);
        hits = hits.saturating_add(look_up_one(rt, random, kinds, trial, plain, now)?);
    }
    Ok(hits)
}

/// Compares both, and asserts that some keys are found and some aren't.
fn compare(
    rt: &impl Abort,
    random: &mut Random,
    kinds: &[Kind],
    trial: &mut Trial,
    plain: &mut PlainSet,
) -> Result<(), Memory> {
    let hits = hits(rt, random, kinds, trial, plain)?;
    assert!(rt; 50 < hits && hits < 700, "{hits} hits");
    Ok(())
}

/// Compares a set with the plain list.
fn check(rt: &impl Abort, alloc: Global, kinds: &[Kind], seed: u64) -> Result<(), Memory> {
    on_new_set(rt, alloc, kinds, None, false, |trial| {
        let mut random = Random::new(seed);
        let mut plain = PlainSet::new(alloc);
        compare(rt, &mut random, kinds, trial, &mut plain)
    })
}

#[test]
fn changes_of_short_fields(rt: HostRuntime) -> Result<(), Fail> {
    check(&rt, rt.alloc(), &[Kind::Ipv4, Kind::Service], 5)?;
    check(&rt, rt.alloc(), &[Kind::Service], 6)?;
    Ok(check(&rt, rt.alloc(), &[Kind::Proto], 2)?)
}

#[test]
fn changes_of_many_and_long_fields(rt: HostRuntime) -> Result<(), Fail> {
    check(&rt, rt.alloc(), &[Kind::Ether, Kind::Proto, Kind::Mark], 7)?;
    check(&rt, rt.alloc(), &[Kind::Ipv6, Kind::Ether, Kind::Mark], 3)?;
    Ok(check(&rt, rt.alloc(), &[Kind::Proto; 16], 4)?)
}
