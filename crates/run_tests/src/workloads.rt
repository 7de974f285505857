//! The workloads of `drill`, against those of another program.
use drill_gen::generate;
use set_model::{Interval, Keys, Script, Step};
use std::process::Abort;
use std::test::Fail;

/// The intervals that step `i` adds.
fn added(script: &Script, i: usize) -> Option<&[Interval]> {
    match script.sections.as_slice().first()?.as_slice().get(i)? {
        Step::Change { element, .. } => Some(element.parts.as_slice()),
        _ => None,
    }
}

/// The key of packet `p`.
fn key(keys: &Keys, p: usize) -> Option<&[u128]> {
    let packet = keys.as_slice().first()?.as_slice().get(p)?;
    Some(packet.key.as_slice())
}

fn range(low: u128, high: u128) -> Interval {
    Interval { low, high }
}

/// Compares elements, each with its place.
fn check_elements(rt: &impl Abort, script: &Script, wanted: &[(usize, [Interval; 2])]) {
    for (place, parts) in wanted {
        assert!(rt; added(script, *place) == Some(parts.as_slice()));
    }
}

/// Compares packets' keys, each with its place.
fn check_keys(rt: &impl Abort, keys: &Keys, wanted: &[(usize, [u128; 2])]) {
    for (place, values) in wanted {
        assert!(rt; key(keys, *place) == Some(values.as_slice()));
    }
}

/// There are as many elements and packets as wanted.
fn check_count(rt: &impl Abort, script: &Script, keys: &Keys, count: usize) {
    assert!(rt; added(script, count).is_none());
    assert!(rt; key(keys, count).is_none());
}

#[test]
fn two_elements_of_seed_1(rt: HostRuntime) -> Result<(), Fail> {
    let (script, keys) = generate(rt.alloc(), 1, 2)?;
    let first = [range(2_207_001_853, 2_207_001_856), range(35_031, 35_046)];
    let second = [range(4_069_993_462, 4_069_993_659), range(14_839, 14_842)];
    check_elements(&rt, &script, &[(0, first), (1, second)]);
    check_keys(
        &rt,
        &keys,
        &[(0, [4_069_993_517, 14_840]), (1, [360_342_463, 18_168])],
    );
    check_count(&rt, &script, &keys, 2);
    Ok(())
}

// Values of another program.
#[test]
fn two_thousand_elements_of_seed_7(rt: HostRuntime) -> Result<(), Fail> {
    let (script, keys) = generate(rt.alloc(), 7, 2_000)?;
    let at_the_end = [range(1_562_569_984, 1_562_570_092), range(65_531, 65_535)];
    let last = [range(2_846_186_582, 2_846_186_793), range(44_013, 44_020)];
    check_elements(&rt, &script, &[(201, at_the_end), (1_999, last)]);
    check_keys(
        &rt,
        &keys,
        &[
            (0, [2_869_873_228, 40_343]),
            (1_998, [3_788_054_168, 22_304]),
            (1_999, [3_944_012_107, 47_757]),
        ],
    );
    check_count(&rt, &script, &keys, 2_000);
    Ok(())
}
