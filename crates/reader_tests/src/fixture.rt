//! A set of ports, its control and readers, and additions to it.
ghost use Rattle.std.specs.Prelude.{◌≡◌, ◌<◌, ◌≤◌, true, length, All, IfOk, Some};
ghost use Rattle.set_model.specs.Runnable.{IsRunnableStep, opens};
ghost use Rattle.set_space.specs.Open.{CanBeBuilt, FitsSet};

use gen_publish::{Control, Held, Reader, Receipt, start};
use pipapo_image::{Added, ChangeError};
use set_model::{
    Comment, Family, Interval, Key, Kind, Kinds, Memory, Name, NewElement, Parts, Schema, SetDecl,
    Step, Verb, parts_fit,
};
use std::alloc::Global;
use std::process::Abort;

/// A set of ports whose elements may expire.
fn port_set(alloc: Global, size: Option<u32>) -> Result<SetDecl, Memory>
    ensures { IfOk result CanBeBuilt }
{
    let mut kinds = Kinds::new(alloc);
    kinds.push(Kind::Service)?;
    Ok(SetDecl {
        family: Family::Ip,
        table: Name::new(alloc),
        name: Name::new(alloc),
        kinds,
        interval: true,
        timed: true,
        disjoint: false,
        timeout: None,
        size,
    })
}

/// One set of ports.
pub fn one_set(alloc: Global, size: Option<u32>) -> Result<Schema, Memory>
    ensures built { IfOk result (All CanBeBuilt) }
    ensures one { IfOk result (λ schema. length schema ≡ 1) }
{
    let mut schema = Schema::new(alloc);
    schema.push(port_set(alloc, size)?)?;
    Ok(schema)
}

/// A control of one set of ports, and its readers.
pub fn started(alloc: Global, readers: u32) -> Result<(Control, Vec<Reader>), Memory>
    requires { (0 < readers) × (readers ≤ 16) }
{
    start(alloc, one_set(alloc, None)?, readers)
}

/// A control of one set of ports, and its one reader.
pub fn alone(alloc: Global, size: Option<u32>) -> Result<(Control, Reader), Memory>
    ensures { IfOk result (λ r. r.1.of ≡ r.0.of) }
{
    let (control, mut readers) = start(alloc, one_set(alloc, size)?, 1)?;
    let Some(reader) = readers.pop() else {
        return Err(Memory);
    };
    Ok((control, reader))
}

fn interval(alloc: Global, low: u128, high: u128) -> Result<Parts, Memory> {
    let mut parts = Parts::new(alloc);
    parts.push(Interval { low, high })?;
    Ok(parts)
}

/// The interval of ports from `low` to `high`, which set 0 takes.
pub fn ports(rt: &impl Abort, alloc: Global, control: &Control, low: u128, high: u128) -> Parts
    ensures { (0 < length control.now.work.sets) × FitsSet control.now.work 0 result }
{
    let parts = interval(alloc, low, high).expect(rt, "memory");
    assert!(rt; control.fits(0, &parts));
    parts
}

/// A new element of the ports from `low` to `high`, which set 0 takes.
pub fn element(
    rt: &impl Abort,
    alloc: Global,
    control: &Control,
    low: u128,
    high: u128,
    expiry: Option<u64>,
) -> NewElement
    ensures { (0 < length control.now.work.sets) × FitsSet control.now.work 0 result.parts }
{
    NewElement {
        parts: ports(rt, alloc, control, low, high),
        expiry,
        comment: Comment::new(alloc),
    }
}

/// The key of a port.
pub fn key(rt: &impl Abort, alloc: Global, port: u128) -> Key {
    let mut key = Key::new(alloc);
    key.push(port).expect(rt, "memory");
    key
}

/// Inserts the ports from `low` to `high` as one interval.
pub fn add(
    rt: &impl Abort,
    alloc: Global,
    control: &mut Control,
    low: u128,
    high: u128,
    expiry: Option<u64>,
) -> Result<Added, ChangeError>
    ensures { control.new.of ≡ control.old.of }
{
    let element = element(rt, alloc, control, low, high, expiry);
    control.insert(0, &element, 0)
}

/// Inserts a port, which is new.
pub fn add_port(rt: &impl Abort, alloc: Global, control: &mut Control, port: u128) {
    let _ = add(rt, alloc, control, port, port, None).expect(rt, "room");
}

/// Commits at a moment.
pub fn commit(rt: &impl Abort, control: &mut Control, now: u64) -> Receipt
    ensures { control.new.of ≡ control.old.of }
{
    assert!(rt; control.number() < 1_000_000);
    control.commit(now).expect(rt, "memory")
}

/// Inserts ports from `low` on, and commits after each.
pub fn commit_ports(rt: &impl Abort, alloc: Global, control: &mut Control, low: u128, count: u32) {
    for i in 0..count {
        add_port(rt, alloc, control, low.wrapping_add(u128::from(i)));
        commit(rt, control, 0);
    }
}

/// The id of the element of the held generation that holds a port.
pub fn look(rt: &impl Abort, held: &mut Held, key: &Key) -> Option<u64> {
    assert!(rt; held.fits(0, key));
    held.lookup(0, key, 0).map(|found| found.id)
}

/// The addition of ports, as a step.
pub fn addition(alloc: Global, schema: &Schema, low: u128, high: u128) -> Result<Step, Memory>
    requires { length schema.now ≡ 1 }
    ensures fits { IfOk result (IsRunnableStep schema.now) }
    ensures changes { IfOk result (λ step. opens (Some step) ≡ true) }
{
    let parts = interval(alloc, low, high)?;
    if !parts_fit(&schema.at(0).kinds, &parts) {
        return Err(Memory);
    }
    Ok(Step::Change {
        line: 1,
        set: 0,
        verb: Verb::Add,
        element: NewElement {
            parts,
            expiry: None,
            comment: Comment::new(alloc),
        },
        now: 0,
    })
}
