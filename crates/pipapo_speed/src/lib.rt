//! A set's image with an interface in C, to measure lookups, insertions and changes.
//!
//! No crate depends on this one, and the driver in C is no part of the program.
//!
//! **Definitions:** none, since it only has to be safe. docs/performance.md says how `bench/speed`
//! calls it, and what was measured.
#![tactic(auto)]

mod changes;
mod numbers;
mod run;
mod workload;

use run::Lookups;
use std::alloc::Global;

/// Builds a set of these elements, settles it as a commit does, and looks up all keys `rounds`
/// times. With `lookups` 0 they are the lookups of packets, and with 1 the textbook lookup. With 2
/// they are the lookups of packets, and each element but the last expired before the next one was
/// added. Returns the bytes of the set's tables, or 0 if memory runs out or the workload is invalid.
///
/// `kinds` has a number for each field: 0 to 5 for `ipv4_addr`, `ipv6_addr`, `ether_addr`,
/// `inet_proto`, `inet_service` and `mark`. A value is two words, the lower one first. An element
/// is a low and a high value for each field, and a key is one value for each field. Afterwards
/// `answers` has for each key the number of the element that it matched, or 0. Elements count from
/// 1 in the order of `elements`.
#[unsafe(no_mangle)]
pub extern "C" fn pipapo_run(
    alloc: Global,
    kinds: &[u32],
    elements: &[u64],
    keys: &[u64],
    rounds: u32,
    lookups: u32,
    answers: &mut [u64],
) -> u64 {
    let lookups = match lookups {
        0 => Lookups::Fused,
        1 => Lookups::Textbook,
        _ => Lookups::Expired,
    };
    match run::run(alloc, kinds, elements, keys, rounds, lookups, answers) {
        Ok(bytes) => bytes,
        Err(_) => 0,
    }
}

/// Builds a set of all elements but the last, of which every tenth expires, and makes `rounds`
/// copies of it, one after another. `change` says what it does with each copy: 1 adds the last
/// element, 2 deletes an element from the middle, 3 purges the expired ones. Any other number
/// changes nothing. Returns how many elements the last copy then has, or 0 if memory runs out or
/// the workload is invalid. The words are as in `pipapo_run`.
#[unsafe(no_mangle)]
pub extern "C" fn pipapo_change(
    alloc: Global,
    kinds: &[u32],
    elements: &[u64],
    rounds: u32,
    change: u32,
) -> u64 {
    match changes::run(alloc, kinds, elements, rounds, change) {
        Ok(left) => left,
        Err(_) => 0,
    }
}

/// Builds a disjoint set of all elements but the last thousand, and adds the first `count` of these.
/// It leaves out those that share a key with the set. Returns how many elements the set then has, or
/// 0 if memory runs out or the workload is invalid. The words are as in `pipapo_run`.
#[unsafe(no_mangle)]
pub extern "C" fn pipapo_disjoint(
    alloc: Global,
    kinds: &[u32],
    elements: &[u64],
    count: u32,
) -> u64 {
    match changes::run_disjoint(alloc, kinds, elements, count) {
        Ok(left) => left,
        Err(_) => 0,
    }
}
