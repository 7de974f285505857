//! The explanation of a whole key file.
ghost use Rattle.std.specs.Prelude.{◌≡◌, ◌+◌, ◌≤◌, ◌++◌, ◌||◌, false, All, IfOk, OnOk, filter, flat_map, length, ℕ};
ghost use Rattle.std.specs.List.{list_any, enumerate_from};
ghost use Rattle.set_model.specs.Control.{mode_of, is_refusal};
ghost use Rattle.set_model.specs.declared.script.Script.{Script as Run};
ghost use Rattle.set_model.specs.Runnable.{EndsClosed, IsRunnable, IsRunnableStep, IsFitting};
ghost use Rattle.set_report.specs.Remarks.{remarks_text};
ghost use Rattle.set_report.specs.Writes.{NamesSet};
ghost use Rattle.script_laws.specs.Reports.{IsReportOn, refusals_in};
ghost use Rattle.explain_answer.specs.Explained.{Explains, section_text, section_lacks};
ghost use Rattle.explain_answer.specs.Runs.{HasDone};

use crate::section::{either, write_section};
use key_answer::Trace;
use packet_pool::Gate;
use script_laws::{Output, add_refusals, tells_refusal};
use set_model::{Keys, Memory, Script, Sections};
use std::alloc::Global;

/// Does a section of a script, if there is one of this number.
fn do_next<G: Gate>(
    alloc: Global,
    trace: &mut Trace,
    script: &Script,
    number: u64,
    keep_going: bool,
    gate: &G,
) -> Result<(), Memory>
    requires script { IsRunnable script.now }
    requires done { HasDone (mode_of keep_going) script.now number trace.old }
    ensures { OnOk result (HasDone (mode_of keep_going) script.now (number + 1) trace.new) }
{
    if number >= script.sections.len() {
        return Ok(());
    }
    let last = script.sections.len().saturating_sub(1);
    gate.section(number, last, 0);
    trace.do_section(alloc, script.sections.at(number), keep_going, gate)
}

/// Does the sections of a script after a number.
fn do_rest<G: Gate>(
    alloc: Global,
    trace: &mut Trace,
    script: &Script,
    from: u64,
    keep_going: bool,
    gate: &G,
) -> Result<(), Memory>
    requires script { IsRunnable script.now }
    requires done { HasDone (mode_of keep_going) script.now (from + 1) trace.old }
    ensures { OnOk result ((count : ℕ) × (length script.now.sections ≤ count) × HasDone (mode_of keep_going) script.now count trace.new) }
{
    'sections: for number in from..script.sections.len() {
        do_next(alloc, trace, script, number + 1, keep_going, gate)?;
    }
    Ok(())
}

/// Does the sections of a script up to the last section of a key file, and appends the packets of each and the explanations of
/// their answers. Returns whether one has no answer.
fn write_sections<G: Gate>(
    alloc: Global,
    trace: &mut Trace,
    script: &Script,
    keys: &Keys,
    keep_going: bool,
    gate: &G,
    out: &mut Vec<u8>,
) -> Result<bool, Memory>
    requires script { IsRunnable script.now }
    requires keys { All (All (IsFitting script.now.schema)) keys.now }
    requires done { HasDone (mode_of keep_going) script.now 1 trace.old }
    ensures done { OnOk result (HasDone (mode_of keep_going) script.now (length keys.now + 1) trace.new) }
    ensures text { OnOk result (out.new.items ≡ out.old.items ++ flat_map (section_text (mode_of keep_going) script.now) (enumerate_from 0 keys.now)) }
    ensures lacks { IfOk result (λ lacks. lacks ≡ list_any (section_lacks (mode_of keep_going) script.now) (enumerate_from 0 keys.now)) }
{
    let mut lacks = false;
    'sections: for i in 0..keys.len() {
        do_next(alloc, trace, script, i + 1, keep_going, gate)?;
        let lacks_one = write_section(alloc, trace, keys.at(i), out)?;
        lacks = either(lacks, lacks_one);
    }
    Ok(lacks)
}

/// What is written of the packets, and whether one has no answer.
#[derive(Drop)]
struct Written {
    text: Vec<u8>,
    lacks: bool,
}

/// Runs a script and a key file to their ends. Returns the run, and what is written of the packets.
fn run_all<G: Gate>(
    alloc: Global,
    script: &Script,
    keys: &Keys,
    keep_going: bool,
    gate: &G,
) -> Result<(Trace, Written), Memory>
    requires script { IsRunnable script.now }
    requires keys { All (All (IsFitting script.now.schema)) keys.now }
    ensures done { IfOk result (λ r. (count : ℕ) × (length script.now.sections ≤ count) × HasDone (mode_of keep_going) script.now count r.0) }
    ensures text { IfOk result (λ r. r.1.text.items ≡ flat_map (section_text (mode_of keep_going) script.now) (enumerate_from 0 keys.now)) }
    ensures lacks { IfOk result (λ r. r.1.lacks ≡ list_any (section_lacks (mode_of keep_going) script.now) (enumerate_from 0 keys.now)) }
{
    let mut trace = Trace::new(alloc, &script.schema)?;
    do_next(alloc, &mut trace, script, 0, keep_going, gate)?;
    let mut text = Vec::new(alloc);
    let lacks = write_sections(alloc, &mut trace, script, keys, keep_going, gate, &mut text)?;
    do_rest(alloc, &mut trace, script, keys.len(), keep_going, gate)?;
    Ok((trace, Written { text, lacks }))
}

/// The output of a run: the refused changes as comments, and then the packets.
fn output_of(alloc: Global, trace: &Trace, written: &Written) -> Result<Output, Memory>
    requires { All (NamesSet (length trace.now.control.schema)) trace.now.events }
    ensures text { IfOk result (λ out. out.text.items ≡ remarks_text trace.now.control.schema (filter is_refusal trace.now.events) ++ written.now.text.items) }
    ensures refused { IfOk result (λ out. out.refused ≡ (list_any is_refusal trace.now.events || written.now.lacks)) }
    ensures refusals { IfOk result (λ out. out.refusals.items ≡ refusals_in 0 trace.now.events) }
    ensures failed { IfOk result (λ out. out.failed ≡ false) }
{
    let mut output = Output::new(alloc);
    trace.write_refusals(alloc, b"# ", &mut output.text)?;
    output.text.extend_from_slice(written.text.as_slice())?;
    let events = trace.events.as_slice();
    add_refusals(0, events, &mut output.refusals)?;
    output.refused = either(tells_refusal(events), written.lacks);
    Ok(output)
}

/// Explains the answer to each packet of a key file, in the last generation of the packet's section and at its own moment. The
/// text has the refused changes as comments, and then each packet with the element that answers it, or why none does. `refused`
/// is true if a change was refused or a packet has no element.
///
/// # Errors
///
/// `Memory` if memory runs out.
pub fn explain<G: Gate>(
    alloc: Global,
    script: Script,
    keys: &Keys,
    keep_going: bool,
    gate: &G,
) -> Result<Output, Memory>
    requires script { IsRunnable script }
    requires keys { All (All (IsFitting script.schema)) keys.now }
    ensures text { IfOk result (λ out. Explains (mode_of keep_going) script keys.now out.refused out.text.items) }
    ensures report { IfOk result (IsReportOn (mode_of keep_going) script) }
    ensures failed { IfOk result (λ out. out.failed ≡ false) }
{
    let (trace, written) = run_all(alloc, &script, keys, keep_going, gate)?;
    let mut output = output_of(alloc, &trace, &written)?;
    output.script = Some(script);
    Ok(output)
}
