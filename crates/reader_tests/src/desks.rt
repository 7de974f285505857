//! Several control threads at one control.
ghost use Rattle.std.specs.Prelude.{◌≡◌, ◌<◌, ◌^◌, length, All, IfOk};
ghost use Rattle.set_model.specs.Runnable.{IsRunnableStep};
ghost use Rattle.set_space.specs.Open.{CanBeBuilt};
ghost use Rattle.control_desk.specs.Woven.{IsTransaction};

use crate::asserts::same;
use crate::fixture::{addition, one_set};
use control_desk::{Book, Clerk, DeskError, Log, open_desk};
use gen_publish::start;
use set_model::{Event, Memory, Schema, Step, Steps};
use std::alloc::Global;
use std::process::Abort;
use std::sync::Wait;
use std::test::Fail;

/// Adds a port, and commits.
fn transaction(alloc: Global, schema: &Schema, port: u128) -> Result<Steps, Memory>
    requires { length schema.now ≡ 1 }
    ensures fits { IfOk result (All (IsRunnableStep schema.now)) }
    ensures whole { IfOk result IsTransaction }
{
    let mut steps = Steps::new(alloc);
    steps.push(addition(alloc, schema, port, port)?)?;
    steps.push(Step::Commit { now: 0 })?;
    Ok(steps)
}

/// The two control threads of a desk, which may submit two transactions each, and one transaction for each
/// thread.
#[derive(Drop)]
struct Desk {
    one: Clerk,
    two: Clerk,
    first: Steps,
    second: Steps,
}

impl Desk {
    fn open(alloc: Global) -> Result<Desk, Memory>
        ensures left { IfOk result (λ d. (d.one.left ≡ 2) × (d.two.left ≡ 2)) }
        ensures first { IfOk result (λ d. IsTransaction d.first × All (IsRunnableStep d.one.schema) d.first) }
        ensures second { IfOk result (λ d. IsTransaction d.second × All (IsRunnableStep d.two.schema) d.second) }
    {
        let schema = one_set(alloc, None)?;
        let first = transaction(alloc, &schema, 80)?;
        let second = transaction(alloc, &schema, 443)?;
        let (one, two) = two_clerks(alloc, schema)?;
        Ok(Desk {
            one,
            two,
            first,
            second,
        })
    }
}

/// The two control threads of a new desk.
fn two_clerks(alloc: Global, schema: Schema) -> Result<(Clerk, Clerk), Memory>
    requires { All CanBeBuilt schema × (length schema ≡ 1) }
    ensures left { IfOk result (λ r. (r.0.left ≡ 2) × (r.1.left ≡ 2)) }
    ensures schema { IfOk result (λ r. (r.0.schema ≡ schema) × (r.1.schema ≡ schema)) }
{
    let (control, _readers) = start(alloc, schema, 1)?;
    let mut clerks = open_desk(alloc, control, 2, 2)?;
    let one = clerks.remove(0);
    let two = clerks.remove(0);
    Ok((one, two))
}

fn committed(generation: u64) -> Event {
    Event::Committed {
        generation,
        purged: 0,
    }
}

/// Asserts the answers to both control threads. The second has not seen the first's commit.
fn assert_late<R: Wait + Abort>(rt: &R, desk: &mut Desk)
    requires left { (desk.old.one.left ≡ 2) × (desk.old.two.left ≡ 2) }
    requires first { IsTransaction desk.old.first × All (IsRunnableStep desk.old.one.schema) desk.old.first }
    requires second { IsTransaction desk.old.second × All (IsRunnableStep desk.old.two.schema) desk.old.second }
{
    let first = desk.one.submit(rt, &desk.first, false);
    assert!(rt; first == Ok(committed(1)));
    assert_again(rt, &mut desk.two, &desk.second);
}

fn assert_again<R: Wait + Abort>(rt: &R, clerk: &mut Clerk, steps: &Steps)
    requires left { clerk.old.left ≡ 2 }
    requires steps { IsTransaction steps.now × All (IsRunnableStep clerk.old.schema) steps.now }
{
    let late = clerk.submit(rt, steps, false);
    assert!(rt; late == Err(DeskError::Stale { newer: 1 }));
    let again = clerk.submit(rt, steps, false);
    assert!(rt; again == Ok(committed(2)));
}

#[test]
fn a_control_thread_that_comes_late_submits_again(rt: HostRuntime) -> Result<(), Fail> {
    assert_late(&rt, &mut Desk::open(rt.alloc())?);
    Ok(())
}

/// A book of a new control, and a transaction for it.
fn book(alloc: Global) -> Result<(Book, Steps), Memory>
    ensures steps { IfOk result (λ r. IsTransaction r.1 × All (IsRunnableStep r.0.control.schema) r.1) }
    ensures number { IfOk result (λ r. r.0.control.work.base.number < 2 ^ 63) }
{
    let schema = one_set(alloc, None)?;
    let steps = transaction(alloc, &schema, 80)?;
    let (control, _readers) = start(alloc, schema, 1)?;
    Ok((Book::new(alloc, control), steps))
}

/// Asserts that a log has one entry with all steps.
fn assert_logged(rt: &impl Abort, log: &Log, steps: &Steps) {
    same(rt, log.len(), 1);
    assert!(rt; log.len() > 0);
    same(rt, log.at(0).steps.len(), steps.len());
}

fn assert_applies(rt: &impl Abort, book: Book, steps: &Steps)
    requires steps { IsTransaction steps.now × All (IsRunnableStep book.control.schema) steps.now }
    requires number { book.control.work.base.number < 2 ^ 63 }
{
    let mut book = book;
    let end = book.apply(1, steps, false);
    assert!(rt; end == Ok(committed(1)));
    let Book { log, .. } = book;
    assert_logged(rt, &log, steps);
}

#[test]
fn a_book_logs_a_transaction(rt: HostRuntime) -> Result<(), Fail> {
    let (book, steps) = book(rt.alloc())?;
    assert_applies(&rt, book, &steps);
    Ok(())
}
