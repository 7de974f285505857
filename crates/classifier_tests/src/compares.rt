// The least key that one set finds and another doesn't, beside a look at all keys of two small fields.
use crate::plain::PlainSet;
use crate::random::Random;
use crate::sets::{Trial, on_new_set};
use pipapo_image::{Scratch, SetImage};
use set_compare::{Lack, first_missing, have_same_kinds};
use set_model::{Found, Interval, Key, Kind, Memory};
use std::alloc::Global;
use std::process::Abort;
use std::test::Fail;

const KINDS: [Kind; 2] = [Kind::Proto, Kind::Proto];

/// The ends of the intervals: the least values of the kind and the greatest.
const ENDS: [u128; 8] = [0, 1, 2, 3, 252, 253, 254, 255];

/// The least of the values that lie alike to all intervals between two of these ends, for each such
/// class. So these stand for all 256 values.
const VALUES: [u128; 9] = [0, 1, 2, 3, 4, 252, 253, 254, 255];

/// An interval between two of the ends.
fn interval(random: &mut Random) -> Interval {
    let one = ENDS[random.below(8) as usize % 8];
    let other = ENDS[random.below(8) as usize % 8];
    Interval {
        low: one.min(other),
        high: one.max(other),
    }
}

/// A missing key, and the place and the id of the element that holds it.
#[derive(Clone, Copy, Debug, PartialEq, Eq)]
struct Missing {
    first: u128,
    second: u128,
    found: Found,
}

/// The least key that is missing in the other list, by a look at all keys.
fn least_of_all(held: &PlainSet, at: u64, other: &PlainSet, other_at: u64) -> Option<Missing> {
    for first in &VALUES {
        for second in &VALUES {
            let key = [*first, *second];
            if let Some(found) = held.find(&key, at) {
                if other.find(&key, other_at).is_none() {
                    return Some(Missing {
                        first: *first,
                        second: *second,
                        found,
                    });
                }
            }
        }
    }
    None
}

fn value_at(key: &Key, f: u64) -> u128 {
    if f < key.len() { *key.at(f) } else { u128::MAX }
}

fn as_missing(lack: Option<Lack>) -> Option<Missing> {
    let lack = lack?;
    Some(Missing {
        first: value_at(&lack.key, 0),
        second: value_at(&lack.key, 1),
        found: lack.found,
    })
}

/// The least key that the set `held` finds and `other` doesn't.
fn find_missing(
    rt: &impl Abort,
    alloc: Global,
    held: &SetImage,
    at: u64,
    other: &SetImage,
    other_at: u64,
    scratch: &mut Scratch,
) -> Result<Option<Missing>, Memory> {
    assert!(rt; have_same_kinds(held, other));
    let lack = first_missing(alloc, held, at, other, other_at, scratch)?;
    Ok(as_missing(lack))
}

/// Asserts that the search in the tables finds the key that a look at all keys finds. Returns
/// whether there is one.
fn assert_least(
    rt: &impl Abort,
    held: &mut Trial,
    list: &PlainSet,
    at: u64,
    other: &Trial,
    other_list: &PlainSet,
    other_at: u64,
) -> Result<u64, Memory> {
    let alloc = held.alloc;
    let found = find_missing(
        rt,
        alloc,
        &held.set,
        at,
        &other.set,
        other_at,
        &mut held.scratch,
    )?;
    assert!(rt; found == least_of_all(list, at, other_list, other_at));
    Ok(found.is_some() as u64)
}

/// Adds up to six elements, some of which expire, to a new set and to its list.
fn fill(
    rt: &impl Abort,
    random: &mut Random,
    trial: &mut Trial,
    plain: &mut PlainSet,
) -> Result<(), Memory> {
    trial.restart(rt, &KINDS, false)?;
    for _ in 0..random.below(7) {
        let parts = [interval(random), interval(random)];
        let expiry = match random.below(3) {
            0 => Some(1 + random.below(100)),
            _ => None,
        };
        let answer = trial.add(rt, &parts, expiry, 0);
        assert!(rt; answer == plain.add(&parts, expiry, 0));
    }
    Ok(())
}

/// Compares two sets in both directions. Returns how many of the two have a missing key.
fn check_pair(
    rt: &impl Abort,
    random: &mut Random,
    one: &mut Trial,
    two: &mut Trial,
) -> Result<u64, Memory> {
    let mut list = PlainSet::new(one.alloc);
    let mut other_list = PlainSet::new(two.alloc);
    fill(rt, random, one, &mut list)?;
    fill(rt, random, two, &mut other_list)?;
    let at = random.below(100);
    let other_at = random.below(100);
    let there = assert_least(rt, one, &list, at, two, &other_list, other_at)?;
    let back = assert_least(rt, two, &other_list, other_at, one, &list, at)?;
    Ok(there.saturating_add(back))
}

/// Compares so many pairs of sets. Asserts that some differ and some don't.
fn check_pairs(
    rt: &impl Abort,
    one: &mut Trial,
    two: &mut Trial,
    pairs: u64,
) -> Result<(), Memory> {
    let mut random = Random::new(53);
    let mut differences = 0u64;
    for _ in 0..pairs {
        differences = differences.saturating_add(check_pair(rt, &mut random, one, two)?);
    }
    assert!(rt; pairs < differences && differences < pairs.saturating_mul(2));
    Ok(())
}

#[test]
fn the_least_missing_key_of_all(rt: HostRuntime) -> Result<(), Fail> {
    let alloc = rt.alloc();
    Ok(on_new_set(&rt, alloc, &KINDS, None, false, |one| {
        on_new_set(&rt, alloc, &KINDS, None, false, |two| {
            check_pairs(&rt, one, two, 10_000)
        })
    })?)
}

/// The addresses from 16 times a number on, and eight of them, at ports from 100 to `high`.
fn services(number: u64, high: u128) -> [Interval; 2] {
    let low = number as u128 * 16;
    [Interval { low, high: low + 7 }, Interval { low: 100, high }]
}

/// Adds so many services to a set.
fn add_services(rt: &impl Abort, trial: &mut Trial, count: u64) -> Result<(), Memory> {
    trial.restart(rt, &[Kind::Ipv4, Kind::Service], false)?;
    for number in 0..count {
        let added = trial.add(rt, &services(number, 200), None, 0);
        assert!(rt; added.is_ok());
    }
    Ok(())
}

/// Gives an element one port more, asserts that its first key at this port is the missing one, and
/// takes the port back.
fn change_one(
    rt: &impl Abort,
    one: &mut Trial,
    two: &mut Trial,
    number: u64,
) -> Result<(), Memory> {
    let alloc = one.alloc;
    assert!(rt; two.delete(&services(number, 200), 0).is_ok());
    assert!(rt; two.add(rt, &services(number, 201), None, 0).is_ok());
    let back = find_missing(rt, alloc, &two.set, 0, &one.set, 0, &mut two.scratch)?;
    let first = number as u128 * 16;
    assert!(rt; key_of(back) == Some((first, 201)));
    let there = find_missing(rt, alloc, &one.set, 0, &two.set, 0, &mut one.scratch)?;
    assert!(rt; there.is_none());
    assert!(rt; two.delete(&services(number, 201), 0).is_ok());
    assert!(rt; two.add(rt, &services(number, 200), None, 0).is_ok());
    Ok(())
}

fn key_of(missing: Option<Missing>) -> Option<(u128, u128)> {
    let missing = missing?;
    Some((missing.first, missing.second))
}

/// Changes each element in turn.
fn change_each(
    rt: &impl Abort,
    one: &mut Trial,
    two: &mut Trial,
    count: u64,
) -> Result<(), Memory> {
    add_services(rt, one, count)?;
    add_services(rt, two, count)?;
    for number in 0..count {
        change_one(rt, one, two, number)?;
    }
    Ok(())
}

#[test]
fn each_changed_element_is_found(rt: HostRuntime) -> Result<(), Fail> {
    let alloc = rt.alloc();
    let kinds = [Kind::Ipv4, Kind::Service];
    Ok(on_new_set(&rt, alloc, &kinds, None, false, |one| {
        on_new_set(&rt, alloc, &kinds, None, false, |two| {
            change_each(&rt, one, two, 300)
        })
    })?)
}
