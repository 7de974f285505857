// Rows of bits and ranks, by worked examples about the edges of words and pages.
use crate::asserts::{same, same_if_any};
use bit_rows::{BitRow, RankedBits};
use set_model::Memory;
use std::alloc::{AllocGlobal, Global};
use std::process::Abort;
use std::test::Fail;

#[test]
fn room_comes_in_steps_of_512_places(rt: HostRuntime) -> Result<(), Fail> {
    for (len, room) in [(0, 0), (1, 512), (511, 512), (512, 512), (513, 1024)] {
        same(
            &rt,
            BitRow::zeros(rt.alloc(), len)?.room() as u64,
            room,
            len as u64,
        );
    }
    Ok(())
}

// Asserts how long a row is, and which place is the next set one from each of some places on.
fn assert_row(rt: &impl Abort, row: &BitRow, len: u32, next: &[(u32, Option<u64>)]) {
    assert!(rt; row.len() == len);
    for (from, wanted) in next {
        same_if_any(
            rt,
            row.next_set(*from).map(|i| i as u64),
            *wanted,
            *from as u64,
        );
    }
}

// Asserts that the first two words of a row are these.
fn assert_words(rt: &impl Abort, row: &BitRow, first: u64, second: u64) {
    same(rt, row.word(0), first, 0);
    same(rt, row.word(1), second, 1);
}

// Sets places 60 to 69 of 130, takes places 62 to 65 out, and reads the first word out of the row.
fn check_ranges(rt: &impl Abort, row: &mut BitRow) {
    assert!(rt; row.len() == 130);
    row.set_range(60, 10);
    assert_row(rt, row, 130, &[(0, Some(60)), (65, Some(65)), (70, None)]);
    assert!(rt; row.len() == 130);
    row.remove_range(62, 4);
    assert_row(rt, row, 126, &[(0, Some(60)), (66, None)]);
    assert_words(rt, row, 0xF << 60, 0b11);
    assert!(rt; row.len() == 126);
    same(rt, row.take_word(0), 0xF << 60, 0);
    assert_words(rt, row, 0, 0b11);
}

// Adds a one and three zeros after 64 places, and sets 66 places to ones.
fn check_pushes(rt: &impl Abort, row: &mut BitRow) -> Result<(), Memory> {
    assert!(rt; row.len() == 64);
    row.reserve(4)?;
    row.push(true);
    row.push_zeros(3);
    assert_row(rt, row, 68, &[(0, Some(64)), (65, None)]);
    assert!(rt; row.room() >= 66);
    row.fill(66, true);
    assert_words(rt, row, u64::MAX, 0b11);
    Ok(())
}

// Joins a row of 66 ones with one in which place 65 alone is set.
fn check_joins(rt: &impl Abort, ones: &mut BitRow, one: &mut BitRow) {
    assert!(rt; ones.len() == 66 && one.len() == 66);
    one.set_range(65, 1);
    assert!(rt; ones.len() == one.len());
    ones.and_from(one);
    assert_words(rt, ones, 0, 0b10);
    assert!(rt; ones.len() == 66);
    ones.set_range(0, 1);
    assert!(rt; one.len() == ones.len());
    one.or_from(ones);
    assert_words(rt, one, 1, 0b10);
}

#[test]
fn ranges_are_set_and_taken_out(rt: HostRuntime) -> Result<(), Fail> {
    check_ranges(&rt, &mut BitRow::zeros(rt.alloc(), 130)?);
    Ok(())
}

#[test]
fn places_are_added_and_joined(rt: HostRuntime) -> Result<(), Fail> {
    let mut row = BitRow::zeros(rt.alloc(), 64)?;
    check_pushes(&rt, &mut row)?;
    check_joins(&rt, &mut row, &mut BitRow::zeros(rt.alloc(), 66)?);
    Ok(())
}

// Asserts the ranks of a row in which each 64th place is set.
fn assert_ranks(rt: &impl Abort, bits: &RankedBits) {
    for (place, rank) in [
        (0, 0),
        (1, 1),
        (64, 1),
        (65, 2),
        (512, 8),
        (513, 9),
        (1024, 16),
    ] {
        assert!(rt; place <= bits.len());
        same(rt, bits.rank(place), rank, place);
    }
}

// The bits of 17 words, in each of which the lowest one is set.
fn ranked(alloc: Global) -> Result<RankedBits, Memory> {
    RankedBits::of_words(alloc, Vec::from_slice(alloc, &[1u64; 17])?, 1_030)
}

#[test]
fn a_rank_counts_the_places_before(rt: HostRuntime) -> Result<(), Fail> {
    assert_ranks(&rt, &ranked(rt.alloc())?);
    Ok(())
}
