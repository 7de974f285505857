// Which elements are expired, in lists and in pages of 512.
use crate::asserts::{same, same_if_any};
use expiry_scan::{TimedElements, count_expired, expired, next_expired};
use set_model::{Comment, Element, Elements, Interval, Memory, Parts};
use std::alloc::Global;
use std::process::Abort;
use std::test::Fail;

#[test]
fn an_element_is_expired_from_its_moment_on(rt: HostRuntime) {
    assert!(rt; !expired(None, u64::MAX));
    assert!(rt; !expired(Some(30_000), 29_999));
    assert!(rt; expired(Some(30_000), 30_000));
    assert!(rt; expired(Some(0), 0));
}

// An element of one port with this expiry.
fn element(alloc: Global, id: u64, expiry: Option<u64>) -> Result<Element, Memory> {
    let parts = Vec::from_slice(alloc, &[Interval { low: 80, high: 80 }])?;
    Ok(Element {
        id,
        parts: Parts::from_vec(alloc, parts),
        expiry,
        comment: Comment::new(alloc),
    })
}

// Elements that expire never, at 10, at 20, and at 10.
fn four(alloc: Global) -> Result<Elements, Memory> {
    let mut elements = Elements::new(alloc);
    for expiry in [None, Some(10), Some(20), Some(10)] {
        elements.push(element(alloc, 0, expiry)?)?;
    }
    Ok(elements)
}

// Asserts which of the four are expired.
fn assert_four(rt: &impl Abort, elements: &Elements) {
    for (from, now, place) in [
        (0, 9, None),
        (0, 10, Some(1)),
        (2, 10, Some(3)),
        (2, 20, Some(2)),
        (4, 20, None),
        (u64::MAX, 20, None),
    ] {
        same_if_any(rt, next_expired(elements, from, now), place, now);
    }
    for (now, count) in [(9, 0), (10, 2), (20, 3)] {
        same(rt, count_expired(elements, now), count, now);
    }
}

#[test]
fn the_expired_ones_are_found_and_counted(rt: HostRuntime) -> Result<(), Fail> {
    assert_four(&rt, &four(rt.alloc())?);
    Ok(())
}

// Adds 1,100 elements. Those at places 11, 511 and 1,011 expire at the moment of that number.
fn add_all(rt: &impl Abort, alloc: Global, elements: &mut TimedElements) -> Result<(), Memory> {
    for id in 0..1_100u64 {
        let expiry = if id % 500 == 11 { Some(id) } else { None };
        assert!(rt; elements.len() < 1_100);
        elements.push(element(alloc, id, expiry)?)?;
    }
    Ok(())
}

// Asserts how many elements are expired at a moment, how many of these didn't leave by another, and how many
// are before a place.
fn assert_expired(
    rt: &impl Abort,
    alloc: Global,
    elements: &TimedElements,
    now: u64,
    all: u64,
    passed: (u64, u64),
    before: (u64, u64),
) -> Result<(), Memory> {
    same(rt, elements.count_expired(now), all, now);
    same(
        rt,
        elements.count_leaving(Some(passed.0), now),
        passed.1,
        now,
    );
    let marks = elements.expired_marks(alloc, now)?;
    assert!(rt; before.0 <= marks.len());
    same(rt, marks.rank(before.0), before.1, now);
    Ok(())
}

// Asserts which of all elements are expired, whatever moment is given as the one by which elements left.
fn assert_all(rt: &impl Abort, alloc: Global, elements: &mut TimedElements) -> Result<(), Memory> {
    for left in [None, Some(11), Some(511), Some(1_011)] {
        elements.find_soonest(left);
        assert_expired(rt, alloc, elements, 10, 0, (10, 0), (1_100, 0))?;
        assert_expired(rt, alloc, elements, 11, 1, (10, 1), (11, 0))?;
        assert_expired(rt, alloc, elements, 511, 2, (11, 1), (511, 1))?;
        assert_expired(rt, alloc, elements, 1_011, 3, (511, 1), (1_100, 3))?;
    }
    Ok(())
}

// Lets the element at place 600 expire at 400, and takes the element at place 11 out.
fn change(rt: &impl Abort, alloc: Global, elements: &mut TimedElements) -> Result<u64, Memory> {
    elements.find_soonest(Some(511));
    assert!(rt; elements.len() == 1_100);
    elements.set_expiry(alloc, 600, Some(400))?;
    assert!(rt; elements.len() == 1_100);
    Ok(elements.remove(11)?.id)
}

fn check_all(rt: &impl Abort, alloc: Global, elements: &mut TimedElements) -> Result<(), Memory> {
    add_all(rt, alloc, elements)?;
    assert_all(rt, alloc, elements)?;
    same(rt, change(rt, alloc, elements)?, 11, 0);
    assert_expired(rt, alloc, elements, 511, 2, (400, 1), (600, 2))?;
    assert_expired(rt, alloc, elements, 400, 1, (399, 1), (599, 0))
}

#[test]
fn pages_tell_which_elements_are_expired(rt: HostRuntime) -> Result<(), Fail> {
    Ok(check_all(&rt, rt.alloc(), &mut TimedElements::new(rt.alloc()))?)
}
