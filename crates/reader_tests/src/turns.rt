//! The ticket lock.
ghost use Rattle.std.specs.Prelude.{◌≡◌, length, IfOk};
ghost use Rattle.history_laws.specs.States.{AllShow};

use crate::asserts::same;
use crate::numbers::{Number, first_values, next_values, shown};
use gen_turns::{Held, Pass, Writer, make};
use set_model::Memory;
use std::alloc::Global;
use std::process::Abort;
use std::sync::Wait;
use std::test::Fail;
use std::thread::{Threads, join};

/// A writer and its two readers, at state 0.
fn made(alloc: Global) -> Result<(Writer<Number>, Pass<Number>, Pass<Number>), Memory>
    ensures { IfOk result (λ r. (r.0.readers ≡ 2) × (r.1.of ≡ r.0.of) × (r.2.of ≡ r.0.of)) }
{
    let (writer, mut passes) = make(alloc, first_values(alloc)?)?;
    let Some(second) = passes.pop() else {
        return Err(Memory);
    };
    let Some(first) = passes.pop() else {
        return Err(Memory);
    };
    Ok((writer, first, second))
}

/// Publishes values of the state `x`. Returns what both places held before, or 99 if one was empty.
fn put<R: Wait>(
    rt: &R,
    writer: &mut Writer<Number>,
    mut values: Vec<Option<Number>>,
    x: u64,
) -> (u64, u64)
    requires readers { (writer.old.readers ≡ 2) × (length values.items ≡ 2) }
    requires state { AllShow (λ n. n.0) x values.items }
    ensures kept { (writer.new.readers ≡ 2) × (writer.new.of ≡ writer.old.of) }
{
    writer.publish(rt, &mut values);
    (shown(&values[0]), shown(&values[1]))
}

/// Publishes a number. Returns what both places held before, or 99 if one was empty.
fn publish<R: Wait + Abort>(
    rt: &R,
    alloc: Global,
    writer: &mut Writer<Number>,
    x: u64,
) -> (u64, u64)
    requires readers { writer.old.readers ≡ 2 }
    ensures kept { (writer.new.readers ≡ 2) × (writer.new.of ≡ writer.old.of) }
{
    let values = next_values(alloc, x).expect(rt, "memory");
    put(rt, writer, values, x)
}

/// Publishes a number, and asserts what both places held before: 99 if one was empty.
fn assert_publishes<R: Wait + Abort>(
    rt: &R,
    alloc: Global,
    writer: &mut Writer<Number>,
    x: u64,
    before: u64,
)
    requires readers { writer.old.readers ≡ 2 }
    ensures kept { (writer.new.readers ≡ 2) × (writer.new.of ≡ writer.old.of) }
{
    let (first, second) = publish(rt, alloc, writer, x);
    assert!(rt; first == before && second == before);
}

fn number(held: &Held<Number>) -> u64 {
    held.known();
    held.get().0
}

fn assert_number(rt: &impl Abort, held: &Held<Number>, wanted: u64) {
    same(rt, number(held), wanted);
}

/// Asserts which number a reader enters.
fn assert_enters<R: Wait + Abort>(rt: &R, pass: Pass<Number>, wanted: u64) -> Pass<Number>
    ensures { result.of ≡ pass.of }
{
    let held = pass.enter(rt);
    assert_number(rt, &held, wanted);
    held.leave()
}

/// Gives the second reader the notes of the first reader and of the writer, and the writer the second reader's note.
fn tell(writer: &mut Writer<Number>, first: &mut Pass<Number>, second: &mut Pass<Number>)
    requires { (first.old.of ≡ writer.old.of) × (second.old.of ≡ writer.old.of) }
    ensures { (writer.new.readers ≡ writer.old.readers) × (writer.new.of ≡ writer.old.of) }
{
    let note = first.note();
    note.known();
    second.meet(note);
    second.meet(writer.note());
    second.known();
    writer.hear(second.note());
    writer.known();
}

/// Asserts what both readers enter and what the places held. At the start the readers have their values and the
/// places are empty. Both enter with state 1; nobody enters with state 2 or 3.
fn assert_entered<R: Wait + Abort>(
    rt: &R,
    alloc: Global,
    writer: &mut Writer<Number>,
    first: Pass<Number>,
    second: Pass<Number>,
)
    requires { (writer.old.readers ≡ 2) × (first.of ≡ writer.old.of) × (second.of ≡ writer.old.of) }
{
    let first = assert_enters(rt, first, 0);
    assert_publishes(rt, alloc, writer, 1, 99);
    let mut first = assert_enters(rt, first, 1);
    let mut second = second;
    tell(writer, &mut first, &mut second);
    let second = assert_enters(rt, second, 1);
    assert_publishes_more(rt, alloc, writer);
    assert_enters(rt, first, 4);
    assert_enters(rt, second, 4);
}

fn assert_publishes_more<R: Wait + Abort>(rt: &R, alloc: Global, writer: &mut Writer<Number>)
    requires { writer.old.readers ≡ 2 }
{
    assert_publishes(rt, alloc, writer, 2, 99);
    assert_publishes(rt, alloc, writer, 3, 2);
    assert_publishes(rt, alloc, writer, 4, 3);
}

// `slots` makes the same calls, and its readers enter the same numbers.
#[test]
fn readers_enter_what_was_published(rt: HostRuntime) -> Result<(), Fail> {
    let alloc = rt.alloc();
    let (mut writer, first, second) = made(alloc)?;
    assert_entered(&rt, alloc, &mut writer, first, second);
    Ok(())
}

fn writes<R: Wait + Abort>(rt: &R, alloc: Global, writer: &mut Writer<Number>)
    requires { writer.old.readers ≡ 2 }
{
    for x in 1..2001 {
        publish(rt, alloc, writer, x);
    }
}

/// How often a reader found an older state than before.
fn steps_back<R: Wait>(rt: &R, pass: Pass<Number>) -> u64 {
    let mut pass = pass;
    let (mut last, mut back) = (0, 0u64);
    for _ in 0..2000 {
        let held = pass.enter(rt);
        let now = number(&held);
        back = back.wrapping_add((now < last) as u64);
        last = now;
        pass = held.leave();
    }
    back
}

fn race<R: Threads + Wait + Abort + Sync>(rt: &R, alloc: Global) -> Result<u64, Memory> {
    let (mut writer, first, second) = made(alloc)?;
    let ((), (one, two)) = join(
        rt,
        move ||
            requires { writer.readers ≡ 2 }
        { writes(rt, alloc, &mut writer) },
        move || (steps_back(rt, first), steps_back(rt, second)),
    );
    Ok(one.wrapping_add(two))
}

#[test]
fn readers_beside_a_writer_never_go_back(rt: HostRuntime) -> Result<(), Fail> {
    same(&rt, race(&rt, rt.alloc())?, 0);
    Ok(())
}
