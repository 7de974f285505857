ghost use Rattle.std.specs.Prelude.{◌≡◌, ◌++◌, ◌≤◌, ◌^◌, [], false, List, length, All, IfOk, OnOk};
ghost use Rattle.set_model.specs.declared.report.Event.{Event};
ghost use Rattle.set_model.specs.Control.{mode_of, history, start as begins};
ghost use Rattle.set_model.specs.Runnable.{EndsClosed, HasFields, IsRunnable, IsRunnableStep};
ghost use Rattle.set_report.specs.Writes.{NamesSet, AreSetsOf};
ghost use Rattle.packet_pool.specs.Running.{run, Ran, StandsAt};

use gen_publish::Control;
use packet_pool::{Gate, count_commits, run_steps};
use script_laws::{has_numbers, start_run};
use set_model::{Events, Memory, Schema, Script, Sections, Steps};
use std::alloc::Global;

/// A script that was run to its end, and all its events.
#[derive(Drop)]
pub struct Whole {
    /// The control after the last step.
    pub control: Control,
    /// The events of all steps, in their order.
    pub events: Events,
}

/// Adds events after others.
fn add_all(events: &mut Events, more: &Events) -> Result<(), Memory>
    ensures { OnOk result (events.new ≡ events.old ++ more.now) }
{
    for event in more.as_slice() {
        events.push(*event)?;
    }
    Ok(())
}

impl Whole {
    /// Runs all sections of a script, without packets.
    pub fn run<G: Gate>(
        alloc: Global,
        script: &Script,
        keep_going: bool,
        gate: &G,
    ) -> Result<Whole, Memory>
        requires script { IsRunnable script.now }
        ensures ends { IfOk result (λ whole. StandsAt [] (history (mode_of keep_going) script.now.schema script.now.sections) (run whole.control false whole.events)) }
        ensures schema { IfOk result (λ whole. whole.control.schema ≡ script.now.schema) }
        ensures named { IfOk result (λ whole. All (NamesSet (length script.now.schema)) whole.events) }
        ensures sets { IfOk result (λ whole. AreSetsOf script.now.schema whole.control.work.base.sets) }
    {
        let mut whole = Whole::new(alloc, &script.schema)?;
        whole.do_sections(alloc, &script.sections, keep_going, gate)?;
        Ok(whole)
    }

    /// A run before its first section.
    fn new(alloc: Global, schema: &Schema) -> Result<Whole, Memory>
        requires sets { All HasFields schema.now }
        requires few_sets { length schema.now ≤ 2 ^ 32 }
        ensures stands { IfOk result (λ whole. StandsAt [] (begins schema.now) (run whole.control false whole.events)) }
        ensures schema { IfOk result (λ whole. whole.control.schema ≡ schema.now) }
    {
        let (control, _readers) = start_run(alloc, schema, 1)?;
        Ok(Whole {
            control,
            events: Events::new(alloc),
        })
    }

    /// Does sections, one after another.
    fn do_sections<G: Gate>(
        &mut self,
        alloc: Global,
        sections: &Sections,
        keep_going: bool,
        gate: &G,
    ) -> Result<(), Memory>
        requires stands { StandsAt [] (begins self.old.control.schema) (run self.old.control false self.old.events) }
        requires steps { All (All (IsRunnableStep self.old.control.schema)) sections.now }
        requires closed { All EndsClosed sections.now }
        ensures stands { OnOk result (StandsAt [] (history (mode_of keep_going) self.old.control.schema sections.now) (run self.new.control false self.new.events)) }
        ensures schema { OnOk result (self.new.control.schema ≡ self.old.control.schema) }
    {
        let last = sections.len().saturating_sub(1);
        let mut number = 0;
        'sections: for steps in sections.as_slice() {
            gate.section(number, last, 0);
            number = number.saturating_add(1);
            self.do_section(alloc, steps, keep_going, gate)?;
        }
        Ok(())
    }

    /// Does one section.
    fn do_section<G: Gate>(
        &mut self,
        alloc: Global,
        steps: &Steps,
        keep_going: bool,
        gate: &G,
    ) -> Result<(), Memory>
        requires { All (IsRunnableStep self.old.control.schema) steps.now }
        ensures { OnOk result ((told : List Event) × Ran keep_going steps.now self.old.control self.new.control told × (self.new.events ≡ self.old.events ++ told)) }
    {
        if !has_numbers(&self.control, count_commits(steps)) {
            return Err(Memory);
        }
        let told = run_steps(alloc, &mut self.control, steps, keep_going, gate)?;
        add_all(&mut self.events, &told)
    }
}
