//! The sections of a script without packets.
ghost use Rattle.std.specs.Prelude.{◌≡◌, ◌++◌, [], false, List, length, All, OnOk};
ghost use Rattle.set_model.specs.declared.report.Event.{Event};
ghost use Rattle.set_model.specs.Control.{Strict, history, start as begins};
ghost use Rattle.set_model.specs.Runnable.{EndsClosed, IsRunnableStep};
ghost use Rattle.packet_pool.specs.Running.{run, Ran, StandsAt, IsSameStart};

use gen_publish::Control;
use packet_pool::{OpenGate, count_commits, run_steps};
use script_laws::has_numbers;
use set_model::{Events, Memory, Sections, Steps};
use std::alloc::Global;

/// Adds events after others.
fn add_all(events: &mut Events, more: &Events) -> Result<(), Memory>
    ensures { OnOk result (events.new ≡ events.old ++ more.now) }
{
    'more: for event in more.as_slice() {
        events.push(*event)?;
    }
    Ok(())
}

/// Does one section, and adds its events.
fn do_section(
    alloc: Global,
    control: &mut Control,
    steps: &Steps,
    events: &mut Events,
) -> Result<(), Memory>
    requires { All (IsRunnableStep control.old.schema) steps.now }
    ensures { OnOk result ((told : List Event) × Ran false steps.now control.old control.new told × (events.new ≡ events.old ++ told)) }
{
    if !has_numbers(control, count_commits(steps)) {
        return Err(Memory);
    }
    let told = run_steps(alloc, control, steps, false, &OpenGate)?;
    add_all(events, &told)
}

/// Does sections, one after another, on a new control, and adds their events to none.
///
/// # Errors
///
/// `Memory` if there is none left.
pub(crate) fn do_sections(
    alloc: Global,
    control: &mut Control,
    sections: &Sections,
    events: &mut Events,
) -> Result<(), Memory>
    requires begins { StandsAt [] (begins control.old.schema) (run control.old false events.old) }
    requires steps { All (All (IsRunnableStep control.old.schema)) sections.now }
    requires closed { All EndsClosed sections.now }
    ensures stands { OnOk result (StandsAt [] (history Strict control.old.schema sections.now) (run control.new false events.new)) }
    ensures start { OnOk result (IsSameStart control.old control.new) }
{
    'sections: for steps in sections.as_slice() {
        do_section(alloc, control, steps, events)?;
    }
    Ok(())
}
