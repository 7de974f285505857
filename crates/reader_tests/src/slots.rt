//! The counted slots.
ghost use Rattle.std.specs.Prelude.{◌≡◌, ◌^◌, ◌<◌, length, IfOk};
ghost use Rattle.history_laws.specs.States.{AllShow};
ghost use Rattle.gen_slots.specs.SlotMachine.{initial};

use crate::asserts::same;
use crate::numbers::{Number, first_values, next_values, shown};
use gen_slots::{Held, Pass, SlotCore, Steps, Writer, make_at};
use set_model::Memory;
use std::alloc::Global;
use std::marker::Brand;
use std::process::Abort;
use std::sync::Wait;
use std::sync::ledger::{Blank, Ledger};
use std::test::Fail;
use std::thread::{Threads, join};

/// The last count before counts wrap to 0.
const LAST: u64 = 72_057_594_037_927_935;

/// Asserts that a retired slot is free after its reader left it, if the count of enters wraps in between.
fn assert_checked(rt: &impl Abort, core: &mut SlotCore)
    requires { core.old ≡ initial 1 72057594037927935 }
{
    core.enter(0);
    core.publish(1);
    assert!(rt; !core.check(0));
    core.leave(0);
    assert!(rt; core.check(0));
}

#[test]
fn a_check_is_exact_where_counts_wrap(rt: HostRuntime) -> Result<(), Fail> {
    assert_checked(&rt, &mut SlotCore::with_counts(rt.alloc(), 1, LAST)?);
    Ok(())
}

/// A writer and its two readers, at state 0 and with these counts.
fn made(alloc: Global, start: u64) -> Result<(Writer<Number>, Pass<Number>, Pass<Number>), Memory>
    requires { start < 2 ^ 56 }
    ensures { IfOk result (λ r. (r.0.readers ≡ 2) × (r.1.of ≡ r.0.of) × (r.2.of ≡ r.0.of)) }
{
    let (writer, mut passes) = make_at(alloc, first_values(alloc)?, start)?;
    let Some(second) = passes.pop() else {
        return Err(Memory);
    };
    let Some(first) = passes.pop() else {
        return Err(Memory);
    };
    Ok((writer, first, second))
}

/// Publishes a number, and asserts what the first reader's berth of the slot held before: 99 if it was empty.
fn assert_publishes<L: Ledger>(
    rt: &impl Abort,
    alloc: Global,
    writer: &mut Writer<Number>,
    steps: &mut Steps<L>,
    x: u64,
    before: u64,
)
    requires readers { writer.old.readers ≡ 2 }
    ensures kept { (writer.new.readers ≡ 2) × (writer.new.of ≡ writer.old.of) }
{
    let found = publish(rt, alloc, writer, x, steps);
    same(rt, found, before);
}

/// Publishes values of the state `x`. Returns what the first reader's berth of the slot held before, or 99 if it was empty.
fn put<L: Ledger>(
    writer: &mut Writer<Number>,
    mut values: Vec<Option<Number>>,
    x: u64,
    steps: &mut Steps<L>,
) -> u64
    requires readers { (writer.old.readers ≡ 2) × (length values.items ≡ 2) }
    requires state { AllShow (λ n. n.0) x values.items }
    ensures kept { (writer.new.readers ≡ 2) × (writer.new.of ≡ writer.old.of) }
{
    writer.publish(&mut values, steps);
    shown(&values[0])
}

/// Publishes a number. Returns what the first reader's berth of the slot held before, or 99 if it was empty.
fn publish<L: Ledger>(
    rt: &impl Abort,
    alloc: Global,
    writer: &mut Writer<Number>,
    x: u64,
    steps: &mut Steps<L>,
) -> u64
    requires readers { writer.old.readers ≡ 2 }
    ensures kept { (writer.new.readers ≡ 2) × (writer.new.of ≡ writer.old.of) }
{
    let values = next_values(alloc, x).expect(rt, "memory");
    put(writer, values, x, steps)
}

fn number(held: &Held<Number>) -> u64 {
    held.known();
    held.get().0
}

fn assert_number(rt: &impl Abort, held: &Held<Number>, wanted: u64) {
    same(rt, number(held), wanted);
}

/// Asserts which number a reader enters.
fn assert_enters(rt: &impl Abort, pass: Pass<Number>, wanted: u64) -> Pass<Number>
    ensures { result.of ≡ pass.of }
{
    let held = pass.enter();
    assert_number(rt, &held, wanted);
    held.leave()
}

/// Gives the second reader the notes of the first reader and of the writer, and the writer the second reader's note.
fn tell(writer: &mut Writer<Number>, first: &mut Pass<Number>, second: &mut Pass<Number>)
    requires { (first.old.of ≡ writer.old.of) × (second.old.of ≡ writer.old.of) }
    ensures { (writer.new.readers ≡ writer.old.readers) × (writer.new.of ≡ writer.old.of) }
{
    let note = first.note();
    note.known();
    second.meet(note);
    second.meet(writer.note());
    second.known();
    writer.hear(second.note());
    writer.known();
}

/// Asserts what both readers enter, and what each publication finds in its slot. Slot 1 is new at first. Then
/// slot 0 has state 0, slot 1 has state 1, and slot 0 has state 2.
fn assert_entered<L: Ledger>(
    rt: &impl Abort,
    alloc: Global,
    writer: &mut Writer<Number>,
    first: Pass<Number>,
    second: Pass<Number>,
    steps: &mut Steps<L>,
)
    requires { (writer.old.readers ≡ 2) × (first.of ≡ writer.old.of) × (second.of ≡ writer.old.of) }
{
    let first = assert_enters(rt, first, 0);
    assert_publishes(rt, alloc, writer, steps, 1, 99);
    let mut first = assert_enters(rt, first, 1);
    let mut second = second;
    tell(writer, &mut first, &mut second);
    let second = assert_enters(rt, second, 1);
    assert_publishes_more(rt, alloc, writer, steps);
    assert_enters(rt, first, 4);
    assert_enters(rt, second, 4);
}

fn assert_publishes_more<L: Ledger>(
    rt: &impl Abort,
    alloc: Global,
    writer: &mut Writer<Number>,
    steps: &mut Steps<L>,
)
    requires { writer.old.readers ≡ 2 }
{
    assert_publishes(rt, alloc, writer, steps, 2, 0);
    assert_publishes(rt, alloc, writer, steps, 3, 1);
    assert_publishes(rt, alloc, writer, steps, 4, 2);
}

fn enter_from<L: Ledger>(
    rt: &impl Abort,
    alloc: Global,
    blank: Blank,
    start: u64,
) -> Result<(), Memory>
    requires blank { (blank.name ≡ L.name) × (blank.parts ≡ L.parts) × (blank.parts ≡ 1) }
    requires start { start < 2 ^ 56 }
{
    let (book, share) = blank.open::<L>();
    let mut steps = Steps::new(book, share);
    let (mut writer, first, second) = made(alloc, start)?;
    assert_entered(rt, alloc, &mut writer, first, second, &mut steps);
    Ok(())
}

// `turns` makes the same calls, and its readers enter the same numbers.
#[test]
fn readers_enter_what_was_published(rt: HostRuntime) -> Result<(), Fail> {
    enter_from::<Brand>(&rt, rt.alloc(), Blank::new(1), 0)?;
    Ok(())
}

#[test]
fn a_writer_finds_a_slot_where_counts_wrap(rt: HostRuntime) -> Result<(), Fail> {
    enter_from::<Brand>(&rt, rt.alloc(), Blank::new(1), LAST)?;
    Ok(())
}

fn writes<L: Ledger>(
    rt: &impl Abort,
    alloc: Global,
    writer: &mut Writer<Number>,
    steps: &mut Steps<L>,
)
    requires { writer.old.readers ≡ 2 }
{
    for x in 1..5001 {
        publish(rt, alloc, writer, x, steps);
    }
}

/// How often a reader found an older state than before.
fn steps_back(pass: Pass<Number>) -> u64 {
    let mut pass = pass;
    let (mut last, mut back) = (0, 0u64);
    for _ in 0..5000 {
        let held = pass.enter();
        let now = number(&held);
        back = back.wrapping_add((now < last) as u64);
        last = now;
        pass = held.leave();
    }
    back
}

fn race<L: Ledger + Send + Sync, R: Threads + Wait + Abort + Sync>(
    rt: &R,
    alloc: Global,
    blank: Blank,
) -> Result<u64, Memory>
    requires { (blank.name ≡ L.name) × (blank.parts ≡ L.parts) × (blank.parts ≡ 1) }
{
    let (book, share) = blank.open::<L>();
    let mut steps = Steps::new(book, share);
    let (mut writer, first, second) = made(alloc, 0)?;
    let ((), (one, two)) = join(
        rt,
        move ||
            requires { writer.readers ≡ 2 }
        { writes(rt, alloc, &mut writer, &mut steps) },
        move || (steps_back(first), steps_back(second)),
    );
    Ok(one.wrapping_add(two))
}

#[test]
fn readers_beside_a_writer_never_go_back(rt: HostRuntime) -> Result<(), Fail> {
    same(&rt, race::<Brand, _>(&rt, rt.alloc(), Blank::new(1))?, 0);
    Ok(())
}
