//! Copies of elements, which share their contents until one of them changes.
use set_model::{Comment, Duplicate, Element, Elements, Interval, Memory, Parts};
use std::alloc::Global;
use std::process::Abort;
use std::test::Fail;

const FIRST: Interval = Interval { low: 10, high: 20 };

const SECOND: Interval = Interval { low: 30, high: 40 };

/// An element of one interval, with an expiry and a comment.
fn element(alloc: Global) -> Result<Element, Memory> {
    let mut parts = Parts::new(alloc);
    parts.push(FIRST)?;
    let mut comment = Comment::new(alloc);
    comment.push(b'a')?;
    Ok(Element {
        id: 7,
        parts,
        expiry: Some(30_000),
        comment,
    })
}

fn one_element(alloc: Global) -> Result<Elements, Memory> {
    let mut elements = Elements::new(alloc);
    elements.push(element(alloc)?)?;
    Ok(elements)
}

/// Takes the one element out, and gives it another interval and no expiry.
fn changed(elements: &mut Elements) -> Result<Element, Memory> {
    if elements.len() != 1 {
        return Err(Memory);
    }
    elements.set_expiry(0, None);
    if elements.len() != 1 {
        return Err(Memory);
    }
    let mut taken = elements.remove(0);
    taken.parts.push(SECOND)?;
    Ok(taken)
}

/// Asserts that elements are the one of the start.
fn assert_kept(rt: &impl Abort, elements: &Elements) {
    match elements.as_slice() {
        [one] => assert!(rt;
            one.parts.as_slice() == [FIRST].as_slice() && one.expiry == Some(30_000)
        ),
        _ => assert!(rt; false, "other elements"),
    }
}

/// Asserts that the element has both intervals, and its comment.
fn assert_changed(rt: &impl Abort, taken: &Element) {
    assert!(rt;
        taken.parts.as_slice() == [FIRST, SECOND].as_slice()
            && taken.comment.as_slice() == b"a".as_slice()
    );
}

/// Asserts that a copy changes, and that its original doesn't.
fn assert_apart(rt: &impl Abort, alloc: Global, shared: &Elements) -> Result<(), Memory> {
    assert_changed(rt, &changed(&mut shared.copy(alloc)?)?);
    assert_kept(rt, shared);
    Ok(())
}

#[test]
fn a_copy_shares_its_contents_until_one_changes(rt: HostRuntime) -> Result<(), Fail> {
    let alloc = rt.alloc();
    let elements = one_element(alloc)?;
    Ok(assert_apart(&rt, alloc, &elements.copy(alloc)?)?)
}
