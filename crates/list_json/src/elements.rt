//! An element: its intervals, and what is said of it beside them.
ghost use Rattle.std.specs.Prelude.{◌≡◌, true, IfOk, OnOk};
ghost use Rattle.serde_json.specs.View.{view, members_view};
ghost use Rattle.set_model.specs.Key.{parts_fit};
ghost use Rattle.list_json.specs.JsonSets.{seconds_left, timeout_seconds as seconds_of_timeout, given_seconds as seconds_given, lasts as has_left, with_left, with_life, with_comment, beside_intervals, with_intervals, element_data};

use crate::build::{Members, named_json, number_json, object_json, text_json};
use crate::values::intervals_json;
use serde_json::{Value, put};
use set_model::{Element, Memory, SetDecl};
use std::alloc::Global;

/// The seconds that an element has left, rounded down. Moments are in milliseconds.
fn left_at(now: u64, expiry: u64) -> u64
    ensures { result ≡ seconds_left now expiry }
{
    expiry.saturating_sub(now) / 1_000
}

/// The seconds of a set's timeout, which is in milliseconds. A shorter one that isn't 0 counts as a second.
pub(crate) fn timeout_seconds(timeout: u64) -> u64
    ensures { result ≡ seconds_of_timeout timeout }
{
    if timeout > 0 {
        (timeout / 1_000).max(1)
    } else {
        0
    }
}

/// The seconds that a set gives to an element that names none.
fn given_seconds(set: &SetDecl) -> u64
    ensures { result ≡ seconds_given set.now }
{
    match set.timeout {
        Some(timeout) => timeout_seconds(timeout),
        None => 0,
    }
}

/// Whether an element never expires, or has a second left at a moment in milliseconds.
pub(crate) fn lasts(now: u64, element: &Element) -> bool
    ensures { result ≡ has_left now element.now }
{
    match element.expiry {
        Some(expiry) => left_at(now, expiry) > 0,
        None => true,
    }
}

/// Puts the time that an element has left.
fn put_left(alloc: Global, set: &SetDecl, left: u64, members: &mut Members) -> Result<(), Memory>
    ensures { OnOk result (members_view members.new.entries ≡ with_left set.now left (members_view members.old.entries)) }
{
    if left > given_seconds(set) {
        put(members, alloc, "timeout", number_json(left))?;
    }
    put(members, alloc, "expires", number_json(left))?;
    Ok(())
}

/// Puts when an element expires, or that it never does in a set that would give it a life.
fn put_life(
    alloc: Global,
    set: &SetDecl,
    now: u64,
    expiry: Option<u64>,
    members: &mut Members,
) -> Result<(), Memory>
    ensures { OnOk result (members_view members.new.entries ≡ with_life set.now now expiry (members_view members.old.entries)) }
{
    match (expiry, set.timeout) {
        (Some(expiry), _) => put_left(alloc, set, left_at(now, expiry), members),
        (None, Some(life)) if life > 0 => {
            put(members, alloc, "timeout", number_json(0))?;
            Ok(())
        }
        _ => Ok(()),
    }
}

/// Puts a comment, if there is one.
fn put_comment(alloc: Global, comment: &[u8], members: &mut Members) -> Result<(), Memory>
    ensures { OnOk result (members_view members.new.entries ≡ with_comment comment.now (members_view members.old.entries)) }
{
    if !comment.is_empty() {
        put(members, alloc, "comment", text_json(alloc, comment)?)?;
    }
    Ok(())
}

/// What is said of an element beside its intervals.
fn beside(alloc: Global, set: &SetDecl, now: u64, element: &Element) -> Result<Members, Memory>
    ensures { IfOk result (λ members. members_view members.entries ≡ beside_intervals set.now now element.now) }
{
    let mut members = Members::new(alloc);
    put_life(alloc, set, now, element.expiry, &mut members)?;
    put_comment(alloc, element.comment.as_slice(), &mut members)?;
    Ok(members)
}

/// Intervals alone if nothing is beside them, and else an object with both.
fn joined(alloc: Global, intervals: Value, mut members: Members) -> Result<Value, Memory>
    ensures { IfOk result (λ v. view v ≡ with_intervals (view intervals) (members_view members.entries)) }
{
    if members.len() == 0 {
        return Ok(intervals);
    }
    put(&mut members, alloc, "val", intervals)?;
    named_json(alloc, "elem", object_json(members))
}

/// An element of a set at a moment in milliseconds.
///
/// # Errors
///
/// `Memory` if memory runs out.
pub(crate) fn element_json(
    alloc: Global,
    set: &SetDecl,
    now: u64,
    element: &Element,
) -> Result<Value, Memory>
    requires { parts_fit set.now.kinds element.now.parts ≡ true }
    ensures { IfOk result (λ v. view v ≡ element_data set.now now element.now) }
{
    let intervals = intervals_json(alloc, set.kinds.as_slice(), element.parts.as_slice())?;
    let members = beside(alloc, set, now, element)?;
    joined(alloc, intervals, members)
}
