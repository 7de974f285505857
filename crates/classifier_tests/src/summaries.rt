// Sets about as large as a step of their tables and summary: a word of 64 rules, a page of 512, a page of
// marks for 4,096, and 32,768. Above 32,768 the summary has a second level. Copies of the sets live on beside
// each other.
use crate::examples::{adds, finds};
use crate::sets::{Trial, on_new_set};
use pipapo_image::{Added, SetImage};
use set_model::{Interval, Kind, Memory};
use std::alloc::Global;
use std::mem::swap;
use std::process::Abort;
use std::test::Fail;

/// A moment at which elements with an expiry are expired.
const LATER: u64 = 2_000;

/// An address for each number, far from the addresses of the numbers before and after it.
fn address(n: u64) -> u128 {
    (n.wrapping_mul(0x9E37_79B1) % 0x1_0000_0000) as u128
}

/// The addresses of every third number expire.
fn expiry(n: u64) -> Option<u64> {
    if n % 3 == 0 { Some(1_000) } else { None }
}

/// Adds the addresses of these numbers.
fn add_addresses(rt: &impl Abort, trial: &mut Trial, from: u64, to: u64) {
    for n in from..to {
        let added = Ok(Added::New { id: n });
        adds(rt, trial, address(n), address(n), expiry(n), added);
    }
}

/// Looks up the addresses of these numbers, except one that was taken out.
fn find_addresses(rt: &impl Abort, trial: &mut Trial, n: u64, gone: Option<u64>) {
    for i in 0..n {
        let id = if Some(i) == gone { None } else { Some(i) };
        finds(rt, trial, address(i), 0, id);
    }
    finds(rt, trial, address(n), 0, None);
}

/// Takes the address of a number out.
fn delete_address(rt: &impl Abort, trial: &mut Trial, n: u64) {
    let low = address(n);
    let gone = trial.delete(&[Interval { low, high: low }], 0);
    assert!(rt; gone == Ok(n));
}

/// Lets the first address stay, takes the expired ones out, and looks up all.
fn purge_addresses(rt: &impl Abort, trial: &mut Trial, n: u64) {
    let renewed = Ok(Added::Renewed { id: 0 });
    adds(rt, trial, address(0), address(0), Some(LATER + 1), renewed);
    let gone = trial.set.purge(trial.alloc, LATER);
    assert!(rt; gone == Ok(n.div_ceil(3).saturating_sub(1)));
    for i in 0..n {
        let is_gone = i > 0 && expiry(i).is_some();
        let id = if is_gone { None } else { Some(i) };
        finds(rt, trial, address(i), LATER, id);
    }
}

/// Runs a check on the set and on a copy that shares its pages.
fn on_copy<F: FnOnce(&mut Trial, &mut SetImage) -> Result<(), Memory>>(
    trial: &mut Trial,
    check: F,
) -> Result<(), Memory>
    requires { F.IsAlwaysCallable check }
{
    trial.set.settle()?;
    let mut copy = trial.set.copy(trial.alloc)?;
    check(trial, &mut copy)
}

/// Adds `n` addresses and copies the set. Takes one address out of the copy, and the expired ones out of the
/// set. The set as it was before the last address lives on.
fn check(rt: &impl Abort, trial: &mut Trial, n: u64) -> Result<(), Memory> {
    let last = n.saturating_sub(1);
    add_addresses(rt, trial, 0, last);
    on_copy(trial, |trial, before| {
        add_addresses(rt, trial, last, n);
        find_addresses(rt, trial, n, None);
        on_copy(trial, |trial, other| {
            purge_addresses(rt, trial, n);
            swap(&mut trial.set, other);
            delete_address(rt, trial, n / 2);
            find_addresses(rt, trial, n, Some(n / 2));
            swap(&mut trial.set, before);
            find_addresses(rt, trial, last, None);
            Ok(())
        })
    })
}

fn check_sizes(rt: &impl Abort, alloc: Global, kind: Kind, sizes: &[u64]) -> Result<(), Fail> {
    for n in sizes {
        on_new_set(
            rt,
            alloc,
            &[kind],
            None,
            false,
            |trial| check(rt, trial, *n),
        )?;
    }
    Ok(())
}

#[test]
fn steps_of_words_and_pages(rt: HostRuntime) -> Result<(), Fail> {
    let sizes = [64, 65, 66, 511, 512, 513, 1_024, 4_096, 4_097];
    check_sizes(&rt, rt.alloc(), Kind::Ipv4, &sizes)
}

#[test]
fn steps_of_the_second_level(rt: HostRuntime) -> Result<(), Fail> {
    check_sizes(&rt, rt.alloc(), Kind::Ipv4, &[32_768, 32_769])
}

/// Asserts that the groups of the first field have so many bits.
fn has_width(rt: &impl Abort, trial: &Trial, width: u32) {
    assert!(rt; trial.set.index().fields.len() == 1);
    assert!(rt; trial.set.index().fields.at(0).width == width);
}

/// A set of 4,096 long addresses has groups of eight bits. With one more address it has groups of four, until
/// one goes.
fn check_widths(rt: &impl Abort, trial: &mut Trial) {
    add_addresses(rt, trial, 0, 4_096);
    has_width(rt, trial, 8);
    find_addresses(rt, trial, 4_096, None);
    add_addresses(rt, trial, 4_096, 4_097);
    has_width(rt, trial, 4);
    find_addresses(rt, trial, 4_097, None);
    delete_address(rt, trial, 1_000);
    has_width(rt, trial, 8);
    find_addresses(rt, trial, 4_097, Some(1_000));
}

#[test]
fn one_address_fewer_wants_groups_of_eight(rt: HostRuntime) -> Result<(), Fail> {
    Ok(on_new_set(&rt, rt.alloc(), &[Kind::Ipv6], None, false, |trial| {
        Ok(check_widths(&rt, trial))
    })?)
}
