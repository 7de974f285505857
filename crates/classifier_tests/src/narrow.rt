// Sets whose last field has few rules beside the first one. Changes of these sets begin with the last
// field, if few of its rules match.
use crate::changes::delete_one;
use crate::disjoint::add_one;
use crate::plain::PlainSet;
use crate::random::{Random, Shape};
use crate::sets::{Trial, on_new_set};
use pipapo_image::{Added, ChangeError};
use set_model::{Interval, Kind, Memory, Why};
use std::alloc::Global;
use std::process::Abort;
use std::test::Fail;

const KINDS: [Kind; 2] = [Kind::Ipv4, Kind::Service];

/// The first and the last value of an interval.
type Ends = (u128, u128);

/// Addresses as numbers, ports, the expiry, the moment, and the result of the addition.
type Addition = (Ends, Ends, Option<u64>, u64, Result<Added, ChangeError>);

/// Addresses of 30 rules.
const WIDE: Ends = (1, 65_534);

/// These addresses and one more on each side, of one rule.
const WIDER: Ends = (0, 65_535);

/// Additions to a set whose elements may share keys, one after another.
const SHARING: [Addition; 11] = [
    (WIDE, (80, 80), Some(10), 0, Ok(Added::New { id: 0 })),
    (WIDE, (81, 81), None, 0, Ok(Added::New { id: 1 })),
    (
        (1, 1),
        (80, 80),
        None,
        9,
        Err(ChangeError::Refused(Why::Overlap { id: 0 })),
    ),
    (WIDE, (80, 80), None, 10, Ok(Added::New { id: 2 })),
    (WIDE, (80, 80), None, 10, Ok(Added::Already { id: 2 })),
    // Only the end key is held.
    (
        (0, 5),
        (80, 80),
        None,
        10,
        Err(ChangeError::Refused(Why::Overlap { id: 2 })),
    ),
    // No end is held.
    (WIDER, (80, 81), None, 10, Ok(Added::New { id: 3 })),
    (WIDE, (80, 80), Some(20), 10, Ok(Added::Renewed { id: 2 })),
    (
        (7, 7),
        (80, 80),
        None,
        9,
        Err(ChangeError::Refused(Why::Overlap { id: 0 })),
    ),
    (
        (7, 7),
        (80, 80),
        None,
        19,
        Err(ChangeError::Refused(Why::Overlap { id: 2 })),
    ),
    (
        (7, 7),
        (80, 80),
        None,
        20,
        Err(ChangeError::Refused(Why::Overlap { id: 3 })),
    ),
];

/// Additions to a disjoint set, one after another.
const APART: [Addition; 10] = [
    (WIDE, (80, 80), Some(10), 0, Ok(Added::New { id: 0 })),
    (WIDE, (81, 81), None, 0, Ok(Added::New { id: 1 })),
    (
        (0, 5),
        (70, 90),
        None,
        9,
        Err(ChangeError::Refused(Why::Overlap { id: 0 })),
    ),
    (
        (0, 5),
        (70, 90),
        None,
        10,
        Err(ChangeError::Refused(Why::Overlap { id: 1 })),
    ),
    // It shares a port with each of them, and no address.
    ((0, 0), (0, 65_535), None, 10, Ok(Added::New { id: 2 })),
    (WIDE, (80, 80), None, 10, Ok(Added::New { id: 3 })),
    (
        WIDER,
        (80, 80),
        None,
        10,
        Err(ChangeError::Refused(Why::Overlap { id: 2 })),
    ),
    (WIDE, (80, 80), Some(20), 10, Ok(Added::Renewed { id: 3 })),
    (
        (65_534, 65_535),
        (80, 80),
        None,
        19,
        Err(ChangeError::Refused(Why::Overlap { id: 3 })),
    ),
    (
        (65_534, 65_535),
        (80, 80),
        None,
        20,
        Ok(Added::New { id: 4 }),
    ),
];

/// Makes an addition, and asserts its result.
fn adds(rt: &impl Abort, trial: &mut Trial, addition: &Addition) {
    let (first, last, expiry, now, wanted) = *addition;
    let parts = [first, last].map(|(low, high)| Interval { low, high });
    let answer = trial.add(rt, parts.as_slice(), expiry, now);
    assert!(rt; answer == wanted);
}

fn adds_all(rt: &impl Abort, trial: &mut Trial, additions: &[Addition]) {
    for addition in additions {
        adds(rt, trial, addition);
    }
}

#[test]
fn additions_to_wide_addresses(rt: HostRuntime) -> Result<(), Fail> {
    for (disjoint, additions) in [(false, SHARING.as_slice()), (true, APART.as_slice())] {
        on_new_set(&rt, rt.alloc(), &KINDS, None, disjoint, |trial| {
            Ok(adds_all(&rt, trial, additions))
        })?;
    }
    Ok(())
}

/// Adds twenty wide blocks of addresses, all of one port, and then an address in each.
fn adds_blocks(rt: &impl Abort, trial: &mut Trial) {
    for id in 0..40u64 {
        let block = (id % 20) as u128 * 65_536;
        let (first, wanted) = match id {
            0..=19 => ((block + 1, block + 65_534), Ok(Added::New { id })),
            _ => (
                (block + 9, block + 9),
                Err(ChangeError::Refused(Why::Overlap { id: id % 20 })),
            ),
        };
        adds(rt, trial, &(first, (80, 80), None, 0, wanted));
    }
}

#[test]
fn additions_beside_many_of_one_port(rt: HostRuntime) -> Result<(), Fail> {
    for disjoint in [false, true] {
        on_new_set(&rt, rt.alloc(), &KINDS, None, disjoint, |trial| {
            Ok(adds_blocks(&rt, trial))
        })?;
    }
    Ok(())
}

/// Adds a wide range of addresses with one port to both, or deletes an element from both.
fn change(
    rt: &impl Abort,
    random: &mut Random,
    trial: &mut Trial,
    plain: &mut PlainSet,
) -> Result<(), Memory> {
    let now = random.below(100);
    if random.below(4) == 0 {
        return delete_one(rt, random, trial, plain, now);
    }
    let parts = [
        random.interval(Kind::Ipv6, Shape::Wide),
        random.interval(Kind::Service, Shape::Single),
    ];
    let expiry = Some(now.saturating_add(random.below(60)));
    Ok(add_one(rt, trial, plain, parts.as_slice(), expiry, now))
}

/// Changes of a set and of a plain list, which is disjoint or not.
fn check_set(rt: &impl Abort, alloc: Global, disjoint: bool, seed: u64) -> Result<(), Memory> {
    let kinds = [Kind::Ipv6, Kind::Service];
    on_new_set(rt, alloc, &kinds, None, disjoint, |trial| {
        let mut random = Random::new(seed);
        let mut plain = PlainSet::new(alloc);
        for _ in 0..300 {
            change(rt, &mut random, trial, &mut plain)?;
        }
        Ok(())
    })
}

#[test]
fn changes_of_wide_addresses_beside_the_plain_list(rt: HostRuntime) -> Result<(), Fail> {
    for seed in 21..31 {
        check_set(&rt, rt.alloc(), seed % 2 == 0, seed)?;
    }
    Ok(())
}
