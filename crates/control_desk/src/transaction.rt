//! One transaction on a control, and its entry in the log.
ghost use Rattle.std.specs.Prelude.{◌≡◌, ◌+◌, ◌<◌, ◌≤◌, ◌^◌, ◌++◌, List, [], ◌∷◌, true, false, All, Some, IfOk, OnOk, OnErr};
ghost use Rattle.set_model.specs.declared.report.Event.{Event as Told};
ghost use Rattle.set_model.specs.Control.{Mode, mode_of, section, step as control_step};
ghost use Rattle.set_model.specs.Runnable.{IsRunnableStep, opens};
ghost use Rattle.packet_pool.specs.Running.{run, GoesOn, IsSameStart};
ghost use Rattle.control_desk.specs.Woven.{IsTransaction};
ghost use Rattle.control_desk.specs.Books.{IsClosed, IsDone};

use crate::entry::{Entry, Log};
use crate::logged_steps::LoggedSteps;
use gen_publish::Control;
use packet_pool::{OpenGate, do_step};
use set_model::{Event, Events, Memory, Step};
use std::alloc::Global;

/// Does the changes of a transaction. Returns which were refused, and whether the transaction has
/// failed.
fn try_changes(
    alloc: Global,
    control: &mut Control,
    changes: &[Step],
    keep_going: bool,
) -> Result<(Events, bool), Memory>
    requires fits { All (IsRunnableStep control.old.schema) changes.now }
    requires changes { All (λ s. opens (Some s) ≡ true) changes.now }
    requires number { control.old.work.base.number < 2 ^ 63 }
    ensures ok { IfOk result (λ r. GoesOn (λ c. section (mode_of keep_going) c changes.now) (run control.old false []) (run control.new r.1 r.0)) }
    ensures number { OnOk result (control.new.work.base.number ≡ control.old.work.base.number) }
    ensures committed { control.new.committed ≡ control.old.committed }
    ensures kept { OnErr result (IsSameStart control.old control.new) }
{
    let mut refused = Events::new(alloc);
    let mut failed = false;
    for step in changes {
        do_step(
            control,
            &mut failed,
            keep_going,
            step,
            &mut refused,
            &OpenGate,
        )?;
    }
    Ok((refused, failed))
}

/// Ends a transaction, which may have failed, and returns how it ended.
fn end_transaction(control: &mut Control, failed: bool, end: &Step) -> Result<Event, Memory>
    requires end { opens (Some end.now) ≡ false }
    requires number { control.old.work.base.number < 2 ^ 63 }
    ensures ok { IfOk result (λ event. (mode : Mode) (told : List Told) → GoesOn (λ c. control_step mode c end.now) (run control.old failed told) (run control.new false (told ++ event ∷ []))) }
    ensures closed { OnOk result (IsClosed control.new) }
    ensures number { OnOk result (control.new.work.base.number ≤ control.old.work.base.number + 1) }
    ensures err { OnErr result (control.new ≡ control.old) }
{
    let generation = control.number();
    match end {
        Step::Commit { now } => {
            if failed {
                control.abort();
                return Ok(Event::Dropped { generation });
            }
            let receipt = control.commit(*now)?;
            Ok(Event::Committed {
                generation: receipt.generation,
                purged: receipt.purged,
            })
        }
        Step::Abort => {
            control.abort();
            Ok(Event::Aborted { generation })
        }
        Step::Change { .. } | Step::Flush { .. } => unreachable!(),
    }
}

/// Does a transaction of a control thread, logs it, and returns how it ended. It takes room for the
/// entry before the transaction ends.
///
/// # Errors
///
/// `Memory` if memory runs out. Nothing is committed or logged, and changes may be open.
pub(crate) fn transact(
    control: &mut Control,
    log: &mut Log,
    clerk: u32,
    steps: &[Step],
    keep_going: bool,
) -> Result<Event, Memory>
    requires transaction { IsTransaction steps.now }
    requires fits { All (IsRunnableStep control.old.schema) steps.now }
    requires number { control.old.work.base.number < 2 ^ 63 }
    ensures ok { IfOk result (λ end. IsDone clerk steps.now keep_going control.old control.new log.old log.new end) }
    ensures number { OnOk result (control.new.work.base.number ≤ control.old.work.base.number + 1) }
    ensures err { OnErr result ((log.new ≡ log.old) × (control.new.committed ≡ control.old.committed)) }
    ensures kept { OnErr result (IsSameStart control.old control.new) }
{
    let logged = LoggedSteps::of(log.alloc, steps)?;
    log.entries.reserve(1)?;
    let count = steps.len() - 1;
    let (refused, failed) = try_changes(log.alloc, control, &steps[..count], keep_going)?;
    let end = end_transaction(control, failed, &steps[count])?;
    log.entries.push_reserved(Entry {
        clerk,
        steps: logged,
        keep_going,
        refused,
        end,
    });
    Ok(end)
}
