//! A script that was run to its end, with the lines of its additions.
ghost use Rattle.std.specs.Prelude.{◌≡◌, ◌<◌, ◌≤◌, ◌+◌, ◌++◌, [], List, false, All, filter, get_or, length, take, slice_get, Some, IfOk, OnOk, ℕ};
ghost use Rattle.set_model.specs.declared.script.Step.{Step as Done};
ghost use Rattle.set_model.specs.Control.{Mode, mode_of, history, is_refusal as refuses};
ghost use Rattle.set_model.specs.Runnable.{EndsClosed, HasFields, IsRunnable, IsRunnableStep};
ghost use Rattle.set_report.specs.Remarks.{told_text};
ghost use Rattle.set_report.specs.Writes.{AreSetsOf, NamesSet};
ghost use Rattle.packet_pool.specs.Running.{run, StandsAt};
ghost use Rattle.key_answer.specs.Origin.{lines_of, traced};
ghost use Rattle.key_answer.specs.Sections.{IsTraceOf};

use crate::lines::Lines;
use crate::trail::trace_steps;
use gen_publish::Control;
use packet_pool::{Gate, count_commits};
use pipapo_image::SetImage;
use script_laws::{has_numbers, start_run};
use set_model::{Events, Memory, Schema, Script, Steps};
use set_report::write_events;
use set_space::Generation;
use std::alloc::Global;

/// A script that was run to its end.
#[derive(Drop)]
pub struct Trace {
    /// The control after the last step.
    pub control: Control,
    /// The events of all steps, in their order.
    pub events: Events,
    /// The lines of the additions to each set.
    pub lines: Lines,
}

/// The refusals among events.
fn refusals(alloc: Global, events: &Events) -> Result<Events, Memory>
    ensures { IfOk result (λ some. some ≡ filter refuses events.now) }
{
    let mut some = Events::new(alloc);
    'events: for event in events.as_slice() {
        if event.is_refusal() {
            some.push(*event)?;
        }
    }
    Ok(some)
}

/// Adds events after others.
fn add_all(events: &mut Events, more: &Events) -> Result<(), Memory>
    ensures { OnOk result (events.new ≡ events.old ++ more.now) }
{
    for event in more.as_slice() {
        events.push(*event)?;
    }
    Ok(())
}

/// An image of a set of a generation.
fn image_of(alloc: Global, generation: &Generation, set: u32) -> Result<SetImage, Memory>
    requires { set < length generation.now.sets }
    ensures { IfOk result (λ image. slice_get generation.now.sets set ≡ Some image) }
{
    generation.sets.at(u64::from(set)).closed_up(alloc)
}

impl Trace {
    /// A script before its first section.
    ///
    /// # Errors
    ///
    /// `Memory` if memory runs out.
    pub fn new(alloc: Global, schema: &Schema) -> Result<Trace, Memory>
        requires sets { All HasFields schema.now }
        requires few_sets { length schema.now ≤ 64 }
        ensures { (mode : Mode) → IfOk result (IsTraceOf mode schema.now []) }
    {
        let lines = Lines::new(alloc, schema.len())?;
        let (control, _readers) = start_run(alloc, schema, 1)?;
        Ok(Trace {
            control,
            events: Events::new(alloc),
            lines,
        })
    }

    /// Does the next section. Running out of numbers for generations counts as running out of memory.
    ///
    /// # Errors
    ///
    /// `Memory` if memory runs out.
    pub fn do_section<G: Gate>(
        &mut self,
        alloc: Global,
        steps: &Steps,
        keep_going: bool,
        gate: &G,
    ) -> Result<(), Memory>
        requires steps { All (IsRunnableStep self.old.control.schema) steps.now }
        requires closed { EndsClosed steps.now }
        ensures { OnOk result ((sections : List (List Done)) (i : ℕ) → i < length sections → steps.now ≡ get_or sections i steps.now → IsTraceOf (mode_of keep_going) self.old.control.schema (take i sections) self.old → IsTraceOf (mode_of keep_going) self.old.control.schema (take (i + 1) sections) self.new) }
    {
        if !has_numbers(&self.control, count_commits(steps)) {
            return Err(Memory);
        }
        let told = trace_steps(
            alloc,
            &mut self.control,
            steps,
            keep_going,
            &mut self.lines,
            gate,
        )?;
        add_all(&mut self.events, &told)
    }

    /// An image of a set of the last generation.
    ///
    /// # Errors
    ///
    /// `Memory` if memory runs out.
    pub fn image(&self, alloc: Global, set: u32) -> Result<SetImage, Memory>
        requires { set < length self.now.control.work.base.sets }
        ensures { IfOk result (λ image. slice_get self.now.control.work.base.sets set ≡ Some image) }
    {
        image_of(alloc, self.control.generation(), set)
    }

    /// Appends the lines of the refused changes, each after a prefix.
    ///
    /// # Errors
    ///
    /// `Memory` if memory runs out.
    pub fn write_refusals(
        &self,
        alloc: Global,
        prefix: &[u8],
        out: &mut Vec<u8>,
    ) -> Result<(), Memory>
        requires { All (NamesSet (length self.now.control.schema)) self.now.events }
        ensures { OnOk result (out.new.items ≡ out.old.items ++ told_text prefix.now self.now.control.schema (filter refuses self.now.events)) }
    {
        let refused = refusals(alloc, &self.events)?;
        write_events(self.control.schema(), &refused, prefix, out)
    }
}

/// Runs a script to its end, and notes the lines of the additions.
///
/// # Errors
///
/// `Memory` if memory runs out.
pub fn trace_script<G: Gate>(
    alloc: Global,
    script: &Script,
    keep_going: bool,
    gate: &G,
) -> Result<Trace, Memory>
    requires script { IsRunnable script.now }
    ensures ends { IfOk result (λ t. StandsAt [] (history (mode_of keep_going) script.now.schema script.now.sections) (run t.control false t.events)) }
    ensures lines { IfOk result (λ t. (set : ℕ) → set < length script.now.schema → lines_of t.lines set ≡ (traced (mode_of keep_going) set script.now.schema script.now.sections).lines) }
    ensures schema { IfOk result (λ t. t.control.schema ≡ script.now.schema) }
    ensures named { IfOk result (λ t. All (NamesSet (length script.now.schema)) t.events) }
    ensures sets { IfOk result (λ t. AreSetsOf script.now.schema t.control.work.base.sets) }
{
    let mut trace = Trace::new(alloc, &script.schema)?;
    let last = script.sections.len().saturating_sub(1);
    let mut number = 0;
    'sections: for steps in script.sections.as_slice() {
        gate.section(number, last, 0);
        number = number.saturating_add(1);
        trace.do_section(alloc, steps, keep_going, gate)?;
    }
    Ok(trace)
}
