//! The control's side of a section: the steps of a script, one after another.
ghost use Rattle.std.specs.Prelude.{◌≡◌, ◌<◌, ◌^◌, List, false, length, All, IfOk, OnOk, OnErr, slice_get};
ghost use Rattle.set_model.specs.declared.report.Event.{Event as Told};
ghost use Rattle.set_model.specs.declared.script.Step.TheVariants.{Commit};
ghost use Rattle.set_model.specs.Control.{mode_of, step as control_step, refused, rewound, flushed, changed};
ghost use Rattle.set_model.specs.Runnable.{IsRunnableStep};
ghost use Rattle.set_space.specs.Open.{FitsSet};
ghost use Rattle.gen_publish.specs.Publish.{Steering};
ghost use Rattle.packet_pool.specs.Running.{run, GoesOn, Ran, HasNumbers, commits, is_commit as makes_generation, Breaks, HasBroken, IsSameStart};

use crate::changes::change;
use crate::gate::Gate;
use gen_publish::Control;
use set_model::{Event, Events, Memory, NewElement, Step, Steps, Verb, Why};
use std::alloc::Global;

/// Reports a refusal. The refusal fails the transaction unless the run keeps going.
fn refuse(
    failed: &mut bool,
    keep_going: bool,
    line: u64,
    set: u32,
    why: Why,
    events: &mut Events,
) -> Result<(), Memory>
    requires { failed.old ≡ false }
    ensures { OnOk result ((k : Steering) → GoesOn (λ c. refused (mode_of keep_going) c line set why) (run k failed.old events.old) (run k failed.new events.new)) }
{
    events.push(Event::Refused { line, set, why })?;
    *failed = !keep_going;
    Ok(())
}

/// Changes an element, or reports why not.
fn try_change(
    control: &mut Control,
    failed: &mut bool,
    keep_going: bool,
    line: u64,
    set: u32,
    verb: Verb,
    element: &NewElement,
    now: u64,
    events: &mut Events,
) -> Result<(), Memory>
    requires quiet { failed.old ≡ false }
    requires set { set < length control.old.work.sets }
    requires fits { FitsSet control.old.work set element.now.parts }
    ensures ok { OnOk result (GoesOn (λ c. changed (mode_of keep_going) c line set verb element.now now (slice_get c.sets set)) (run control.old failed.old events.old) (run control.new failed.new events.new)) }
    ensures err { OnErr result (control.new.committed ≡ control.old.committed) }
    ensures kept { OnErr result (IsSameStart control.old control.new) }
{
    match change(control, set, verb, element, now)? {
        None => Ok(()),
        Some(why) => refuse(failed, keep_going, line, set, why, events),
    }
}

/// Takes all elements out of a set.
fn try_flush(control: &mut Control, set: u32) -> Result<(), Memory>
    requires { set < length control.old.work.sets }
    ensures ok { OnOk result ((told : List Told) (failed : _) → GoesOn (λ c. flushed c set (slice_get c.sets set)) (run control.old failed told) (run control.new failed told)) }
    ensures err { OnErr result (control.new.committed ≡ control.old.committed) }
    ensures kept { OnErr result (IsSameStart control.old control.new) }
{
    control.flush(set)?;
    Ok(())
}

/// Takes a transaction back, and reports its end.
fn rewind(
    control: &mut Control,
    failed: &mut bool,
    event: Event,
    events: &mut Events,
) -> Result<(), Memory>
    ensures ok { OnOk result (GoesOn (λ c. rewound c event) (run control.old failed.old events.old) (run control.new failed.new events.new)) }
    ensures err { OnErr result (control.new.committed ≡ control.old.committed) }
    ensures kept { OnErr result (IsSameStart control.old control.new) }
{
    events.push(event)?;
    control.abort();
    *failed = false;
    Ok(())
}

/// Ends the transaction at `now`, in milliseconds: commits it, or takes it back if it has failed.
fn commit<G: Gate>(
    control: &mut Control,
    failed: &mut bool,
    keep_going: bool,
    now: u64,
    events: &mut Events,
    gate: &G,
) -> Result<(), Memory>
    requires { control.old.work.base.number < 2 ^ 63 }
    ensures ok { OnOk result (GoesOn (λ c. control_step (mode_of keep_going) c (Commit now)) (run control.old failed.old events.old) (run control.new failed.new events.new)) }
    ensures err { OnErr result (Breaks (λ c. control_step (mode_of keep_going) c (Commit now)) (run control.old failed.old events.old) control.new) }
    ensures kept { OnErr result (IsSameStart control.old control.new) }
{
    let generation = control.number();
    if *failed {
        return rewind(control, failed, Event::Dropped { generation }, events);
    }
    gate.closing(generation);
    let receipt = control.commit(now)?;
    gate.closed(receipt.generation);
    events.push(Event::Committed {
        generation: receipt.generation,
        purged: receipt.purged,
    })?;
    Ok(())
}

/// Does the next step. A failed transaction tries nothing more until its end.
///
/// # Errors
///
/// `Memory` if memory runs out. A commit may have been made; the other steps commit nothing.
pub fn do_step<G: Gate>(
    control: &mut Control,
    failed: &mut bool,
    keep_going: bool,
    step: &Step,
    events: &mut Events,
    gate: &G,
) -> Result<(), Memory>
    requires runnable { IsRunnableStep control.old.schema step.now }
    requires number { control.old.work.base.number < 2 ^ 63 }
    ensures ok { OnOk result (GoesOn (λ c. control_step (mode_of keep_going) c step.now) (run control.old failed.old events.old) (run control.new failed.new events.new)) }
    ensures err { OnErr result (Breaks (λ c. control_step (mode_of keep_going) c step.now) (run control.old failed.old events.old) control.new) }
    ensures kept { OnErr result (IsSameStart control.old control.new) }
{
    match step {
        Step::Change {
            line,
            set,
            verb,
            element,
            now,
        } => {
            if *failed {
                return Ok(());
            }
            control.known();
            try_change(
                control, failed, keep_going, *line, *set, *verb, element, *now, events,
            )
        }
        Step::Flush { set, .. } => {
            if *failed {
                return Ok(());
            }
            control.known();
            try_flush(control, *set)
        }
        Step::Commit { now } => commit(control, failed, keep_going, *now, events, gate),
        Step::Abort => {
            let generation = control.number();
            rewind(control, failed, Event::Aborted { generation }, events)
        }
    }
}

fn is_commit(step: &Step) -> bool
    ensures { result ≡ makes_generation step.now }
{
    match step {
        Step::Commit { .. } => true,
        Step::Change { .. } | Step::Flush { .. } | Step::Abort => false,
    }
}

/// How many of the steps are commits. So many generations at most do the steps make.
pub fn count_commits(steps: &Steps) -> u64
    ensures { result ≡ commits steps.now }
{
    steps
        .as_slice()
        .iter()
        .filter(|step| is_commit(step))
        .count() as u64
}

/// Does steps, one after another, and returns their events. The control's open transaction must not
/// have failed.
///
/// # Errors
///
/// `Memory` if memory runs out.
pub fn run_steps<G: Gate>(
    alloc: Global,
    control: &mut Control,
    steps: &Steps,
    keep_going: bool,
    gate: &G,
) -> Result<Events, Memory>
    requires steps { All (IsRunnableStep control.old.schema) steps.now }
    requires numbers { HasNumbers control.old steps.now }
    ensures ok { IfOk result (λ events. Ran keep_going steps.now control.old control.new events) }
    ensures err { OnErr result (HasBroken keep_going steps.now control.old control.new) }
{
    let mut events = Events::new(alloc);
    let mut failed = false;
    for step in steps.as_slice() {
        gate.step();
        do_step(control, &mut failed, keep_going, step, &mut events, gate)?;
    }
    Ok(events)
}
