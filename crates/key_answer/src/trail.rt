//! A run of a script that notes which line added each element.
ghost use Rattle.std.specs.Prelude.{◌≡◌, ◌<◌, ◌^◌, ◌∷◌, [], List, ℕ, true, false, length, All, IfSome, IfOk, OnOk, None};
ghost use Rattle.set_model.specs.declared.script.Step.TheVariants.{Change};
ghost use Rattle.set_model.specs.Control.{Control as Steered, mode_of, refused};
ghost use Rattle.set_model.specs.Runnable.{IsRunnableStep};
ghost use Rattle.set_space.specs.Open.{FitsSet, IsChange};
ghost use Rattle.key_answer.specs.Origin.{lines_after, lines_of, traced_section};
ghost use Rattle.packet_pool.specs.Running.{run, GoesOn, Ran, HasNumbers, StandsAt};
ghost use Rattle.gen_publish.specs.Publish.{Steering};
ghost use Rattle.set_model.specs.declared.report.Event.{Event as Told};
ghost use Rattle.key_answer.specs.Tracing.{adding, HasMade, Traces};

use crate::lines::Lines;
use gen_publish::Control;
use packet_pool::{Gate, do_step};
use pipapo_image::{Added, ChangeError};
use set_model::{Event, Events, Memory, NewElement, Step, Steps, Verb, Why};
use std::alloc::Global;

/// An addition to a set.
#[derive(Clone, Copy)]
pub(crate) struct Addition<'a> {
    line: u64,
    pub(crate) set: u32,
    /// Whether it is refused if the element exists.
    creates: bool,
    pub(crate) element: &'a NewElement,
    now: u64,
}

/// The addition that a step is, if it is one.
pub(crate) fn addition_of(step: &Step) -> Option<Addition<'_>>
    ensures some { IfSome result (λ a. step.now ≡ Change a.line a.set (adding a.creates) a.element.now a.now) }
    ensures none { result ≡ None → (set : ℕ) (c : Steered) (lines : List ℕ) → lines_after set c lines step.now ≡ lines }
{
    match step {
        Step::Change {
            line,
            set,
            verb,
            element,
            now,
        } => {
            let creates = match verb {
                Verb::Add => false,
                Verb::Create => true,
                Verb::Delete | Verb::Destroy => return None,
            };
            Some(Addition {
                line: *line,
                set: *set,
                creates,
                element,
                now: *now,
            })
        }
        _ => None,
    }
}

/// The id of the element that an insertion made.
fn insert(
    control: &mut Control,
    set: u32,
    element: &NewElement,
    now: u64,
) -> Result<Option<u64>, ChangeError>
    requires set { set < length control.old.work.sets }
    requires fits { FitsSet control.old.work set element.now.parts }
    ensures others { control.new ≡ record control.old { work = control.new.work } }
    ensures change { IsChange (HasMade (adding false) element.now now result) control.old.work set control.new.work }
{
    match control.insert(set, element, now) {
        Ok(Added::New { id }) => Ok(Some(id)),
        Ok(_) => Ok(None),
        Err(error) => Err(error),
    }
}

/// The id of the element that a creation made.
fn create(
    control: &mut Control,
    set: u32,
    element: &NewElement,
    now: u64,
) -> Result<Option<u64>, ChangeError>
    requires set { set < length control.old.work.sets }
    requires fits { FitsSet control.old.work set element.now.parts }
    ensures others { control.new ≡ record control.old { work = control.new.work } }
    ensures change { IsChange (HasMade (adding true) element.now now result) control.old.work set control.new.work }
{
    match control.create(set, element, now) {
        Ok(id) => Ok(Some(id)),
        Err(error) => Err(error),
    }
}

/// Inserts or creates an element, and returns its id if it is new.
pub(crate) fn try_add(
    control: &mut Control,
    addition: Addition<'_>,
) -> Result<Option<u64>, ChangeError>
    requires set { addition.set < length control.old.work.sets }
    requires fits { FitsSet control.old.work addition.set addition.element.now.parts }
    ensures others { control.new ≡ record control.old { work = control.new.work } }
    ensures change { IsChange (HasMade (adding addition.entry.creates) addition.entry.element.now addition.entry.now result) control.old.work addition.entry.set control.new.work }
{
    if addition.creates {
        create(control, addition.set, addition.element, addition.now)
    } else {
        insert(control, addition.set, addition.element, addition.now)
    }
}

/// Reports a refusal. The refusal fails the transaction unless the run keeps going.
fn refuse(
    failed: &mut bool,
    keep_going: bool,
    line: u64,
    set: u32,
    why: Why,
    events: &mut Events,
) -> Result<(), Memory>
    requires { failed.old ≡ false }
    ensures { OnOk result ((k : Steering) → GoesOn (λ c. refused (mode_of keep_going) c line set why) (run k failed.old events.old) (run k failed.new events.new)) }
{
    events.push(Event::Refused { line, set, why })?;
    *failed = !keep_going;
    Ok(())
}

/// Does an addition, in a transaction that hasn't failed.
fn add(
    control: &mut Control,
    failed: &mut bool,
    keep_going: bool,
    addition: Addition<'_>,
    lines: &mut Lines,
    events: &mut Events,
) -> Result<(), Memory>
    requires quiet { failed.old ≡ false }
    requires set { addition.set < length control.old.work.sets }
    requires fits { FitsSet control.old.work addition.set addition.element.now.parts }
    ensures { OnOk result (Traces (mode_of keep_going) (Change addition.entry.line addition.entry.set (adding addition.entry.creates) addition.entry.element.now addition.entry.now ∷ []) (run control.old failed.old events.old) (run control.new failed.new events.new) lines.old lines.new) }
{
    match try_add(control, addition) {
        Ok(made) => lines.note(addition.set, addition.line, made),
        Err(ChangeError::Refused(why)) => refuse(
            failed,
            keep_going,
            addition.line,
            addition.set,
            why,
            events,
        ),
        Err(ChangeError::Memory) => Err(Memory),
    }
}

/// Does a step, and notes its line if it makes an element.
fn trace_step<G: Gate>(
    control: &mut Control,
    failed: &mut bool,
    keep_going: bool,
    step: &Step,
    lines: &mut Lines,
    events: &mut Events,
    gate: &G,
) -> Result<(), Memory>
    requires runnable { IsRunnableStep control.old.schema step.now }
    requires number { control.old.work.base.number < 2 ^ 63 }
    ensures { OnOk result (Traces (mode_of keep_going) (step.now ∷ []) (run control.old failed.old events.old) (run control.new failed.new events.new) lines.old lines.new) }
{
    if *failed {
        return do_step(control, failed, keep_going, step, events, gate);
    }
    match addition_of(step) {
        None => do_step(control, failed, keep_going, step, events, gate),
        Some(addition) => {
            control.known();
            add(control, failed, keep_going, addition, lines, events)
        }
    }
}

/// Does the steps of a section, and notes the lines that make elements. Returns the events.
///
/// # Errors
///
/// `Memory` if memory runs out.
pub fn trace_steps<G: Gate>(
    alloc: Global,
    control: &mut Control,
    steps: &Steps,
    keep_going: bool,
    lines: &mut Lines,
    gate: &G,
) -> Result<Events, Memory>
    requires steps { All (IsRunnableStep control.old.schema) steps.now }
    requires numbers { HasNumbers control.old steps.now }
    ensures ran { IfOk result (λ events. Ran keep_going steps.now control.old control.new events) }
    ensures one_each { OnOk result (length lines.new ≡ length lines.old) }
    ensures lines { OnOk result ((before : List Told) (c : Steered) → StandsAt before c (run control.old false []) → (set : ℕ) → set < length lines.old → lines_of lines.new set ≡ (traced_section (mode_of keep_going) set (record { control = c; lines = lines_of lines.old set }) steps.now).lines) }
{
    let mut events = Events::new(alloc);
    let mut failed = false;
    'steps: for step in steps.as_slice() {
        gate.step();
        trace_step(
            control,
            &mut failed,
            keep_going,
            step,
            lines,
            &mut events,
            gate,
        )?;
    }
    Ok(events)
}
