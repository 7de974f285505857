// Disjoint sets: worked examples, and elements that look random beside the plain list, at moments that
// rise and fall.
use crate::drawn::intervals;
use crate::plain::{PlainElement, PlainSet, lows};
use crate::random::Random;
use crate::sets::{Trial, on_new_set};
use pipapo_image::{Added, ChangeError};
use set_model::{Found, Interval, Kind, Memory, Why};
use std::alloc::Global;
use std::process::Abort;
use std::test::Fail;

impl PlainElement {
    /// Whether some key lies in its intervals and in these.
    fn shares(&self, parts: &[Interval]) -> bool {
        self.parts.iter().zip(parts.iter()).all(|(mine, other)| mine.low <= other.high
            && other.low <= mine.high)
    }
}

impl PlainSet {
    /// The first element that is live and shares a key with the intervals.
    fn first_sharing(&self, parts: &[Interval], now: u64) -> Option<Found> {
        for (i, element) in self.elements.iter().enumerate() {
            if element.is_live(now) && element.shares(parts) {
                return Some(Found {
                    place: i as u64,
                    id: element.id,
                });
            }
        }
        None
    }

    /// The place of the first element that is live and holds the start key, if it has these intervals.
    fn twin(&self, parts: &[Interval], now: u64) -> Result<Option<usize>, Memory> {
        let lows = lows(self.alloc, parts)?;
        let Some(place) = self.place(lows.as_slice(), now) else {
            return Ok(None);
        };
        match self.elements.get(place) {
            Some(element) if element.parts.as_slice() == parts => Ok(Some(place)),
            _ => Ok(None),
        }
    }

    /// Adds an element to a disjoint set, or renews it, or reports which element is in the way.
    fn add_apart(
        &mut self,
        parts: &[Interval],
        expiry: Option<u64>,
        now: u64,
    ) -> Result<Added, ChangeError> {
        if let Some(place) = self.twin(parts, now)? {
            return self.add_again(place, parts, expiry);
        }
        match self.first_sharing(parts, now) {
            Some(found) => Err(ChangeError::Refused(Why::Overlap { id: found.id })),
            None => self.push(parts, expiry),
        }
    }
}

/// An expiry soon after `now`, or none.
fn expiry_of(random: &mut Random, now: u64) -> Option<u64> {
    match random.below(4) {
        0 => None,
        _ => Some(now.saturating_add(1 + random.below(60))),
    }
}

/// Adds an element at a moment to both, and compares the results.
pub(crate) fn add_one(
    rt: &impl Abort,
    trial: &mut Trial,
    plain: &mut PlainSet,
    parts: &[Interval],
    expiry: Option<u64>,
    now: u64,
) {
    let answer = trial.add(rt, parts, expiry, now);
    let wanted = if trial.set.is_disjoint() {
        plain.add_apart(parts, expiry, now)
    } else {
        plain.add(parts, expiry, now)
    };
    assert!(rt; answer == wanted);
}

/// Asks both for the first element that shares a key with some intervals. Adds these intervals to both at the
/// same moment. Returns how many elements shared a key.
fn step(
    rt: &impl Abort,
    random: &mut Random,
    kinds: &[Kind],
    trial: &mut Trial,
    plain: &mut PlainSet,
) -> Result<u32, Memory> {
    let now = random.below(100);
    let parts = intervals(trial.alloc, random, kinds, 8)?;
    let sharing = trial.first_sharing(rt, parts.as_slice(), now)?;
    assert!(rt; sharing == plain.first_sharing(parts.as_slice(), now));
    let expiry = expiry_of(random, now);
    add_one(rt, trial, plain, parts.as_slice(), expiry, now);
    Ok(sharing.is_some() as u32)
}

/// Twelve steps of a set without elements, which is disjoint or not. Returns how often an element shared a
/// key.
fn check_set(
    rt: &impl Abort,
    random: &mut Random,
    kinds: &[Kind],
    trial: &mut Trial,
    disjoint: bool,
) -> Result<u32, Memory> {
    let mut plain = PlainSet::new(trial.alloc);
    trial.restart(rt, kinds, disjoint)?;
    let mut shared = 0u32;
    for _ in 0..12 {
        shared = shared.saturating_add(step(rt, random, kinds, trial, &mut plain)?);
    }
    Ok(shared)
}

/// Compares so many sets, every other one of them disjoint. Asserts that some elements share keys and some
/// don't.
fn check_sets(
    rt: &impl Abort,
    random: &mut Random,
    kinds: &[Kind],
    trial: &mut Trial,
    sets: u32,
) -> Result<(), Memory> {
    let mut shared = 0u32;
    for n in 0..sets {
        shared = shared.saturating_add(check_set(rt, random, kinds, trial, n % 2 == 0)?);
    }
    assert!(rt;
        sets / 2 < shared && shared < sets.saturating_mul(11),
        "{shared} shared"
    );
    Ok(())
}

/// Compares so many sets with the plain list.
fn check(
    rt: &impl Abort,
    alloc: Global,
    kinds: &[Kind],
    sets: u32,
    seed: u64,
) -> Result<(), Memory> {
    on_new_set(rt, alloc, kinds, None, false, |trial| {
        let mut random = Random::new(seed);
        check_sets(rt, &mut random, kinds, trial, sets)
    })
}

#[test]
fn short_fields_apart(rt: HostRuntime) -> Result<(), Fail> {
    check(&rt, rt.alloc(), &[Kind::Proto], 1_200, 11)?;
    Ok(check(&rt, rt.alloc(), &[Kind::Ipv4, Kind::Service], 500, 12)?)
}

#[test]
fn many_and_long_fields_apart(rt: HostRuntime) -> Result<(), Fail> {
    check(&rt, rt.alloc(), &[Kind::Ipv6, Kind::Mark], 150, 13)?;
    let kinds = [Kind::Ether, Kind::Proto, Kind::Service];
    Ok(check(&rt, rt.alloc(), &kinds, 300, 14)?)
}

/// The network of an address's first byte, and of its second byte if there is one.
fn network(first: u8, second: Option<u8>) -> Interval {
    let (low, rest) = match second {
        Some(second) => (
            first as u128 * 0x100_0000 + second as u128 * 0x1_0000,
            0xFFFF,
        ),
        None => (first as u128 * 0x100_0000, 0xFF_FFFF),
    };
    Interval {
        low,
        high: low + rest,
    }
}

/// Adds a network and ports at moment 0, and asserts the result.
fn adds_pair(
    rt: &impl Abort,
    trial: &mut Trial,
    network: Interval,
    low: u128,
    high: u128,
    wanted: Result<Added, ChangeError>,
) {
    let answer = trial.add(rt, &[network, Interval { low, high }], None, 0);
    assert!(rt; answer == wanted);
}

#[test]
fn pairs_share_a_key_in_both_fields(rt: HostRuntime) -> Result<(), Fail> {
    let kinds = [Kind::Ipv4, Kind::Service];
    Ok(on_new_set(&rt, rt.alloc(), &kinds, None, true, |trial| {
        let ten = network(10, None);
        adds_pair(&rt, trial, ten, 10, 20, Ok(Added::New { id: 0 }));
        let inside = network(10, Some(1));
        let refused = Err(ChangeError::Refused(Why::Overlap { id: 0 }));
        adds_pair(&rt, trial, inside, 5, 30, refused);
        let eleven = network(11, None);
        adds_pair(&rt, trial, eleven, 5, 30, Ok(Added::New { id: 1 }));
        adds_pair(&rt, trial, ten, 21, 30, Ok(Added::New { id: 2 }));
        Ok(())
    })?)
}
