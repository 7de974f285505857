//! A control and one reader.
ghost use Rattle.std.specs.Prelude.{◌≡◌};

use crate::asserts::{same, same_if_any};
use crate::fixture::{
    add, add_port, alone, commit, commit_ports, element, key, look, ports, started,
};
use gen_publish::{Control, Held, Reader, Receipt};
use pipapo_image::{Added, ChangeError};
use set_model::{Key, Memory, Why};
use std::alloc::Global;
use std::process::Abort;
use std::test::Fail;

/// Asserts which generation is held, and the id of the element that holds a port in it.
fn assert_holds(
    rt: &impl Abort,
    alloc: Global,
    held: &mut Held,
    generation: u64,
    port: u128,
    id: Option<u64>,
) {
    same(rt, held.generation(), generation);
    let key = key(rt, alloc, port);
    same_if_any(rt, look(rt, held, &key), id);
}

fn assert_held_stays(rt: &impl Abort, alloc: Global, control: &mut Control, reader: Reader) {
    let mut held = reader.enter();
    commit_ports(rt, alloc, control, 80, 5);
    assert_holds(rt, alloc, &mut held, 0, 80, None);
    let mut held = held.leave().enter();
    assert_holds(rt, alloc, &mut held, 5, 84, Some(4));
}

#[test]
fn a_held_generation_stays(rt: HostRuntime) -> Result<(), Fail> {
    let alloc = rt.alloc();
    let (mut control, reader) = alone(alloc, None)?;
    assert_held_stays(&rt, alloc, &mut control, reader);
    Ok(())
}

/// What the readers hold, each of which enters before one more commit.
fn held_at_commits(
    rt: &impl Abort,
    alloc: Global,
    control: &mut Control,
    readers: Vec<Reader>,
) -> Vec<Held> {
    let mut held = Vec::new(alloc);
    for reader in readers {
        held.push(reader.enter()).expect(rt, "memory");
        commit(rt, control, 0);
    }
    held
}

/// Asserts that place i of the list holds generation i.
fn assert_in_order(rt: &impl Abort, held: &[Held]) {
    for (i, one) in held.iter().enumerate() {
        same(rt, one.generation(), i as u64);
    }
}

fn commit_often(rt: &impl Abort, control: &mut Control, count: u32) {
    for _ in 0..count {
        commit(rt, control, 0);
    }
}

fn assert_commits_go_on(
    rt: &impl Abort,
    alloc: Global,
    control: &mut Control,
    readers: Vec<Reader>,
    last: Reader,
) {
    let held = held_at_commits(rt, alloc, control, readers);
    commit_often(rt, control, 30);
    assert_in_order(rt, held.as_slice());
    same(rt, control.number(), 45);
    same(rt, last.enter().generation(), 45);
}

#[test]
fn commits_go_on_beside_fifteen_held_generations(rt: HostRuntime) -> Result<(), Fail> {
    let alloc = rt.alloc();
    let (mut control, mut readers) = started(alloc, 16)?;
    let last = readers.pop().expect(&rt, "a reader");
    assert_commits_go_on(&rt, alloc, &mut control, readers, last);
    Ok(())
}

/// How many of two million lookups miss, in a generation where the ports 31768 to 32767 have these ids.
fn misses(rt: &impl Abort, held: &mut Held, keys: &[Key]) -> u64 {
    let mut misses = 0u64;
    for _ in 0..2000u32 {
        for (i, key) in keys.iter().enumerate() {
            let wanted = 31_768u64.wrapping_add(i as u64);
            misses = misses.wrapping_add((look(rt, held, key) != Some(wanted)) as u64);
        }
    }
    misses
}

fn commit_many(rt: &impl Abort, alloc: Global, control: &mut Control) {
    for number in 0..32_768u32 {
        add_port(rt, alloc, control, u128::from(number));
    }
    commit(rt, control, 0);
}

fn last_thousand(rt: &impl Abort, alloc: Global) -> Vec<Key> {
    let mut keys = Vec::new(alloc);
    for port in 31_768..32_768u32 {
        keys.push(key(rt, alloc, u128::from(port)))
            .expect(rt, "memory");
    }
    keys
}

// A scan of the list would compare more than 60,000,000,000 elements.
#[test]
fn a_lookup_reads_the_tables(rt: HostRuntime) -> Result<(), Fail> {
    let alloc = rt.alloc();
    let (mut control, reader) = alone(alloc, None)?;
    commit_many(&rt, alloc, &mut control);
    let keys = last_thousand(&rt, alloc);
    same(&rt, misses(&rt, &mut reader.enter(), keys.as_slice()), 0);
    Ok(())
}

/// Creates a port at a moment.
fn create(
    rt: &impl Abort,
    alloc: Global,
    control: &mut Control,
    port: u128,
    now: u64,
) -> Result<u64, ChangeError> {
    let element = element(rt, alloc, control, port, port, None);
    control.create(0, &element, now)
}

fn delete(
    rt: &impl Abort,
    alloc: Global,
    control: &mut Control,
    port: u128,
) -> Result<u64, ChangeError> {
    let parts = ports(rt, alloc, control, port, port);
    control.delete(0, &parts, 0)
}

fn destroy(
    rt: &impl Abort,
    alloc: Global,
    control: &mut Control,
    port: u128,
) -> Result<Option<u64>, Memory> {
    let parts = ports(rt, alloc, control, port, port);
    control.destroy(0, &parts, 0)
}

fn flush(rt: &impl Abort, alloc: Global, control: &mut Control) -> Result<u64, Memory> {
    let _ = ports(rt, alloc, control, 80, 80);
    control.flush(0)
}

/// Asserts what additions to a set without elements return.
fn assert_additions(rt: &impl Abort, alloc: Global, control: &mut Control) {
    let new = add(rt, alloc, control, 80, 80, None);
    assert!(rt; new == Ok(Added::New { id: 0 }));
    let again = add(rt, alloc, control, 80, 80, None);
    assert!(rt; again == Ok(Added::Already { id: 0 }));
    let wider = add(rt, alloc, control, 80, 81, None);
    assert!(rt; wider == Err(ChangeError::Refused(Why::Overlap { id: 0 })));
}

/// Asserts the results in a set of at most two elements that has port 80.
fn assert_creations(rt: &impl Abort, alloc: Global, control: &mut Control) {
    let there = create(rt, alloc, control, 80, 0);
    assert!(rt; there == Err(ChangeError::Refused(Why::Exists { id: 0 })));
    assert!(rt; create(rt, alloc, control, 81, 0) == Ok(1));
    let third = add(rt, alloc, control, 82, 82, None);
    assert!(rt; third == Err(ChangeError::Refused(Why::Full)));
}

/// Asserts the results in a set that has the ports 80 and 81.
fn assert_removals(rt: &impl Abort, alloc: Global, control: &mut Control) {
    let missing = delete(rt, alloc, control, 82);
    assert!(rt; missing == Err(ChangeError::Refused(Why::Missing)));
    assert!(rt; delete(rt, alloc, control, 81) == Ok(1));
    assert!(rt; destroy(rt, alloc, control, 81) == Ok(None));
    assert!(rt; destroy(rt, alloc, control, 80) == Ok(Some(0)));
}

/// Asserts that a set without elements has one to flush after an addition.
fn assert_flush(rt: &impl Abort, alloc: Global, control: &mut Control) {
    let new = add(rt, alloc, control, 82, 82, None);
    assert!(rt; new == Ok(Added::New { id: 2 }));
    assert!(rt; flush(rt, alloc, control) == Ok(1));
}

fn assert_changes(rt: &impl Abort, alloc: Global, control: &mut Control) {
    assert_additions(rt, alloc, control);
    assert_creations(rt, alloc, control);
    assert_removals(rt, alloc, control);
    assert_flush(rt, alloc, control);
}

/// Inserts port 443, which expires at moment 30000.
fn add_expiring(rt: &impl Abort, alloc: Global, control: &mut Control) {
    let _ = add(rt, alloc, control, 443, 443, Some(30_000)).expect(rt, "room");
}

/// Asserts what a commit at moment 30000 returns.
fn assert_commit(rt: &impl Abort, control: &mut Control, generation: u64, purged: u64) {
    let receipt = commit(rt, control, 30_000);
    assert!(rt; receipt == Receipt { generation, purged });
    same(rt, control.generation().number, generation);
}

fn assert_purges_and_aborts(rt: &impl Abort, alloc: Global, control: &mut Control) {
    add_port(rt, alloc, control, 80);
    add_expiring(rt, alloc, control);
    assert_commit(rt, control, 1, 1);
    add_expiring(rt, alloc, control);
    control.abort();
    assert_commit(rt, control, 2, 0);
}

/// Asserts that port 443 exists until it expires, and is purged with a new one beside it.
fn assert_created_anew(rt: &impl Abort, alloc: Global, control: &mut Control) {
    add_expiring(rt, alloc, control);
    let early = create(rt, alloc, control, 443, 29_999);
    assert!(rt; early == Err(ChangeError::Refused(Why::Exists { id: 0 })));
    assert!(rt; create(rt, alloc, control, 443, 30_000) == Ok(1));
    assert_commit(rt, control, 1, 1);
}

/// What is done with a control of its own.
#[derive(Clone, Copy)]
enum Use {
    Changes,
    PurgeAndAbort,
    Renewal,
}

fn assert_use(rt: &impl Abort, alloc: Global, control: &mut Control, what: Use) {
    match what {
        Use::Changes => assert_changes(rt, alloc, control),
        Use::PurgeAndAbort => assert_purges_and_aborts(rt, alloc, control),
        Use::Renewal => assert_created_anew(rt, alloc, control),
    }
}

#[test]
fn changes_commits_and_aborts_return_what_they_did(rt: HostRuntime) -> Result<(), Fail> {
    let alloc = rt.alloc();
    for (size, what) in [
        (Some(2), Use::Changes),
        (None, Use::PurgeAndAbort),
        (None, Use::Renewal),
    ] {
        let (mut control, _) = alone(alloc, size)?;
        assert_use(&rt, alloc, &mut control, what);
    }
    Ok(())
}

/// Asserts that a reader enters what was committed before the control's note.
fn assert_notes(rt: &impl Abort, control: &mut Control, reader: Reader)
    requires { reader.of ≡ control.old.of }
{
    commit(rt, control, 0);
    let mut reader = reader;
    reader.meet(control.note());
    control.hear(reader.note());
    same(rt, reader.enter().generation(), 1);
}

#[test]
fn notes_go_both_ways(rt: HostRuntime) -> Result<(), Fail> {
    let (mut control, reader) = alone(rt.alloc(), None)?;
    assert_notes(&rt, &mut control, reader);
    Ok(())
}
