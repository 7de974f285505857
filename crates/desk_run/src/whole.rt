ghost use Rattle.std.specs.Prelude.{◌≡◌, ◌≤◌, ◌++◌, ◌^◌, false, [], ◌∷◌, drop, length, map, All, IfOk, OnOk};
ghost use Rattle.std.specs.List.{flat_map, list_any};
ghost use Rattle.control_desk.specs.Books.{IsClosed};
ghost use Rattle.control_desk.specs.Woven.{said};
ghost use Rattle.set_model.specs.Control.{history, is_refusal, mode_of};
ghost use Rattle.set_model.specs.Runnable.{EndsClosed, HasFields, IsRunnable, IsRunnableStep};
ghost use Rattle.packet_pool.specs.Running.{run, StandsAt};
ghost use Rattle.set_report.specs.ListText.{list_text};
ghost use Rattle.set_report.specs.Remarks.{remarks_text};
ghost use Rattle.set_report.specs.Writes.{AreSetsOf, NamesSet};
ghost use Rattle.script_laws.specs.Reports.{has_failed as have_failed, refusals_in};
ghost use Rattle.script_laws.specs.Sections.{section_at};
ghost use Rattle.desk_run.specs.DeskText.{IsDeskOutput, log_text, refusals_by};

use crate::gate_bell::GateBell;
use crate::order::done_in_order;
use crate::running::run_later;
use crate::text::write_log;
use control_desk::{Bell, Entry, Log};
use gen_publish::{Control, start};
use packet_pool::{Gate, count_commits, run_steps};
use script_laws::{Output, Refusal, add_refusals, has_failed, has_numbers, tells_refusal};
use set_model::{Duplicate, Events, Memory, Schema, Script, Sections, Steps};
use set_report::{write_list, write_remarks};
use std::alloc::Global;
use std::sync::Wait;
use std::thread::Threads;

/// Takes the first section away from the others. Returns one without steps if there is none.
fn take_first(alloc: Global, sections: &mut Sections) -> Steps
    ensures first { result ≡ section_at sections.old 0 }
    ensures others { sections.new ≡ drop 1 sections.old }
{
    if sections.len() == 0 {
        Steps::new(alloc)
    } else {
        sections.remove(0)
    }
}

/// Does the first section of a script on a new control, alone, and returns the control and its reports.
fn run_first<G: Gate>(
    alloc: Global,
    schema: Schema,
    steps: &Steps,
    keep_going: bool,
    gate: &G,
) -> Result<(Control, Events), Memory>
    requires sets { All HasFields schema }
    requires few_sets { length schema ≤ 2 ^ 32 }
    requires steps { All (IsRunnableStep schema) steps.now }
    requires closed { EndsClosed steps.now }
    ensures stands { IfOk result (λ r. StandsAt [] (history (mode_of keep_going) schema (steps.now ∷ [])) (run r.0 false r.1)) }
    ensures schema { IfOk result (λ r. r.0.schema ≡ schema) }
    ensures rests { IfOk result (λ r. IsClosed r.0) }
{
    let (mut control, _readers) = start(alloc, schema, 1)?;
    if !has_numbers(&control, count_commits(steps)) {
        return Err(Memory);
    }
    let told = run_steps(alloc, &mut control, steps, keep_going, gate)?;
    Ok((control, told))
}

/// Whether a change of this transaction was refused.
fn has_refusal(entry: &Entry) -> bool
    ensures { result ≡ list_any is_refusal (said entry.now) }
{
    tells_refusal(entry.refused.as_slice()) || tells_refusal(&[entry.end])
}

/// Whether a change of one of these transactions was refused.
fn have_refusal(entries: &[Entry]) -> bool
    ensures { result ≡ list_any (λ e. list_any is_refusal (said e)) entries.now }
{
    entries.iter().any(|entry| has_refusal(entry))
}

/// Whether a change of the first section or of a transaction of the log was refused.
fn any_refusal(told: &Events, log: &Log) -> bool
    ensures { result ≡ list_any is_refusal (told.now ++ flat_map said log.now) }
{
    tells_refusal(told.as_slice()) || have_refusal(log.as_slice())
}

/// Adds the refused changes of a log's transactions, each of its control thread.
fn add_logged(log: &Log, refusals: &mut Vec<Refusal>) -> Result<(), Memory>
    ensures { OnOk result (refusals.new.items ≡ refusals.old.items ++ flat_map refusals_by log.now) }
{
    for entry in log.as_slice() {
        add_refusals(entry.clerk, entry.refused.as_slice(), refusals)?;
        add_refusals(entry.clerk, &[entry.end], refusals)?;
    }
    Ok(())
}

/// The refused changes of the first section and of the log.
fn all_refusals(alloc: Global, told: &Events, log: &Log) -> Result<Vec<Refusal>, Memory>
    ensures { IfOk result (λ refusals. refusals.items ≡ refusals_in 0 told.now ++ flat_map refusals_by log.now) }
{
    let mut refusals = Vec::new(alloc);
    add_refusals(0, told.as_slice(), &mut refusals)?;
    add_logged(log, &mut refusals)?;
    Ok(refusals)
}

/// Whether the last transaction failed: the log's last one, or the first section's if the log is empty.
fn any_failure(told: &Events, log: &Log) -> bool
    ensures { result ≡ have_failed (told.now ++ flat_map said log.now) }
{
    match log.as_slice().last() {
        Some(entry) => has_failed(&[entry.end]),
        None => has_failed(told.as_slice()),
    }
}

/// What a desk returns: the first section's reports, the log, and the last generation as a script, and whether a change was
/// refused.
fn write_desk(
    alloc: Global,
    schema: &Schema,
    control: &Control,
    told: &Events,
    log: &Log,
    last: u64,
) -> Result<Output, Memory>
    requires told { All (NamesSet (length schema.now)) told.now }
    requires log { All (λ e. All (NamesSet (length schema.now)) (said e)) log.now }
    requires sets { AreSetsOf schema.now control.now.work.base.sets }
    ensures { IfOk result (λ out. (out.text.items ≡ remarks_text schema.now told.now ++ (log_text schema.now log.now ++ list_text schema.now control.now.work.base.sets last)) × (out.refused ≡ list_any is_refusal (told.now ++ flat_map said log.now)) × (out.refusals.items ≡ refusals_in 0 told.now ++ flat_map refusals_by log.now) × (out.failed ≡ have_failed (told.now ++ flat_map said log.now))) }
{
    let mut text = Vec::new(alloc);
    write_remarks(schema, told, &mut text)?;
    write_log(alloc, schema, log, &mut text)?;
    write_list(schema, control.generation(), last, &mut text)?;
    Ok(Output {
        text,
        refused: any_refusal(told, log),
        refusals: all_refusals(alloc, told, log)?,
        failed: any_failure(told, log),
        script: None,
    })
}

/// Runs the first section of a script alone, and then each of the others by a control thread of its own. All
/// of these submit their transactions to one control. Returns the reports, transaction by transaction, and
/// the last generation as a script.
///
/// It waits for the control threads, and calls the bell before each submission. The gate learns of the first
/// section, and then of the section of each submission before it.
///
/// # Errors
///
/// `Memory` if memory runs out.
pub fn desk<R: Threads + Wait + Sync, B: Bell, G: Gate>(
    rt: &R,
    alloc: Global,
    script: Script,
    keep_going: bool,
    bell: &B,
    gate: &G,
) -> Result<Output, Memory>
    requires script { IsRunnable script }
    requires clerks { length script.sections ≤ 17 }
    ensures { IfOk result (IsDeskOutput script keep_going) }
{
    let Script {
        schema,
        mut sections,
        last,
    } = script;
    let declared = schema.copy(alloc)?;
    let first = take_first(alloc, &mut sections);
    let bell = GateBell {
        bell,
        gate,
        last: sections.len(),
    };
    gate.section(0, bell.last, 0);
    let (control, told) = run_first(alloc, schema, &first, keep_going, gate)?;
    let (control, log) = run_later(rt, alloc, control, &sections, keep_going, &bell)?;
    let output = write_desk(alloc, &declared, &control, &told, &log, last)?;
    if output.refused {
        let done = done_in_order(alloc, first, sections, log)?;
        let script = Script {
            schema: declared,
            sections: done,
            last,
        };
        return Ok(Output {
            script: Some(script),
            ..output
        });
    }
    Ok(output)
}
