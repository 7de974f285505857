ghost use Rattle.std.specs.Prelude.{◌≡◌, ◌++◌, ◌+◌, ◌<◌, ◌≤◌, false, [], List, length, max, All, IfOk};
ghost use Rattle.std.specs.List.{list_any};
ghost use Rattle.set_model.specs.Control.{mode_of, has_refusal, is_refusal};
ghost use Rattle.set_model.specs.Legal.{AreLegal, Legal};
ghost use Rattle.set_model.specs.Runnable.{IsRunnable, IsFitting};
ghost use Rattle.set_model.specs.Text.{run_text, transcript_text};
ghost use Rattle.set_model.specs.declared.report.Line.{Line as PacketLine};
ghost use Rattle.rule_chain.specs.Judged.{IsJudged};
ghost use Rattle.rule_chain.specs.JudgedText.{judged_text};
ghost use Rattle.set_report.specs.Remarks.{remarks_text};
ghost use Rattle.set_report.specs.DumpText.{dump_text};
ghost use Rattle.set_report.specs.ListText.{list_text};
ghost use Rattle.set_report.specs.Writes.{AreSetsOf, NamesSet};
ghost use Rattle.script_run.specs.Listings.{listing_text, tables_text};
ghost use Rattle.script_laws.specs.Reports.{IsReportOn, ends_failed, has_failed as last_failed, refusals_in, refusals_of};
ghost use Rattle.script_laws.specs.Sections.{section_at};
ghost use Rattle.script_run.specs.Telling.{IsAnsweredBy};

use crate::teller::Teller;
use crate::telling::Telling;
use crate::whole::Whole;
use packet_pool::{ChainJudge, Gate, LookupJudge};
use rule_chain::Chains;
use script_laws::Output;
use set_model::{Keys, Listed, Memory, Packets, Script, Sections, Steps};
use set_report::{write_dump, write_list};
use std::alloc::Global;
use std::thread::Threads;

/// The section at a place, or the empty one if there is none.
fn section<'a, T>(sections: &'a Listed<Listed<T>>, j: u64, empty: &'a Listed<T>) -> &'a Listed<T>
    requires { empty.now ≡ [] }
    ensures { result.now ≡ section_at sections.now j }
{
    if j < sections.len() {
        sections.at(j)
    } else {
        empty
    }
}

/// How many sections a run has after section 0.
fn later_sections(sections: &Sections, keys: &Keys) -> u64
    ensures { max (length sections.now) (length keys.now + 1) ≡ result + 1 }
{
    sections.len().saturating_sub(1).max(keys.len())
}

/// Runs a script beside the packets of a key file, and writes of both. So many threads hand the packets
/// to a judge, which writes the packets' lines. The output has no script yet.
///
/// # Errors
///
/// `Memory` if memory runs out.
pub fn told_by<R: Threads + Sync, J: Teller, G: Gate>(
    rt: &R,
    alloc: Global,
    script: &Script,
    keys: &Keys,
    keep_going: bool,
    threads: u32,
    judge: &J,
    gate: &G,
) -> Result<Output, Memory>
    requires script { IsRunnable script.now }
    requires keys { All (All (IsFitting script.now.schema)) keys.now }
    requires threads { (0 < threads) × (threads ≤ 16) }
    requires judge { J.serves judge.now script.now.schema }
    ensures text { IfOk result (λ out. (lines : List PacketLine) × AreLegal (IsAnsweredBy (J.verdict judge.now) script.now.schema) script.now keys.now threads (mode_of keep_going) lines × (out.text.items ≡ run_text (J.packets_text judge.now) (mode_of keep_going) script.now keys.now lines)) }
    ensures refused { IfOk result (λ out. out.refused ≡ has_refusal (mode_of keep_going) script.now) }
    ensures refusals { IfOk result (λ out. out.refusals.items ≡ refusals_of (mode_of keep_going) script.now) }
    ensures failed { IfOk result (λ out. out.failed ≡ false) }
{
    let mut telling = Telling::new(alloc, &script.schema, threads)?;
    let sections = &script.sections;
    let no_steps = Steps::new(alloc);
    let no_packets = Packets::new(alloc);
    let first = section(sections, 0, &no_steps);
    let last = later_sections(sections, keys);
    gate.section(0, last, 0);
    telling.do_section(rt, alloc, first, &no_packets, keep_going, judge, gate)?;
    'rest: for j in 0..last {
        let steps = section(sections, j + 1, &no_steps);
        let packets = section(keys, j, &no_packets);
        gate.section(j + 1, last, packets.len());
        telling.do_section(rt, alloc, steps, packets, keep_going, judge, gate)?;
    }
    Ok(telling.output)
}

/// Runs a script beside the packets of a key file, which so many threads look up, and returns the
/// transcript.
///
/// # Errors
///
/// `Memory` if memory runs out.
pub fn transcript<R: Threads + Sync, G: Gate>(
    rt: &R,
    alloc: Global,
    script: Script,
    keys: &Keys,
    keep_going: bool,
    threads: u32,
    gate: &G,
) -> Result<Output, Memory>
    requires script { IsRunnable script }
    requires keys { All (All (IsFitting script.schema)) keys.now }
    requires threads { (0 < threads) × (threads ≤ 16) }
    ensures text { IfOk result (λ out. (lines : List PacketLine) × Legal script keys.now threads (mode_of keep_going) lines × (out.text.items ≡ transcript_text (mode_of keep_going) script keys.now lines)) }
    ensures refused { IfOk result (λ out. out.refused ≡ has_refusal (mode_of keep_going) script) }
    ensures report { IfOk result (IsReportOn (mode_of keep_going) script) }
    ensures failed { IfOk result (λ out. out.failed ≡ false) }
{
    let mut output = told_by(
        rt,
        alloc,
        &script,
        keys,
        keep_going,
        threads,
        &LookupJudge,
        gate,
    )?;
    output.script = Some(script);
    Ok(output)
}

/// Runs a script beside the packets of a key file, which so many threads judge by chains of rules.
/// Returns the transcript with the decision on each packet.
///
/// # Errors
///
/// `Memory` if memory runs out.
pub fn judged<R: Threads + Sync, G: Gate>(
    rt: &R,
    alloc: Global,
    script: Script,
    chains: Chains,
    keys: &Keys,
    keep_going: bool,
    threads: u32,
    gate: &G,
) -> Result<Output, Memory>
    requires script { IsRunnable script }
    requires chains { chains.schema ≡ script.schema }
    requires keys { All (All (IsFitting script.schema)) keys.now }
    requires threads { (0 < threads) × (threads ≤ 16) }
    ensures text { IfOk result (λ out. (lines : List PacketLine) × AreLegal (IsJudged chains) script keys.now threads (mode_of keep_going) lines × (out.text.items ≡ run_text (judged_text chains) (mode_of keep_going) script keys.now lines)) }
    ensures refused { IfOk result (λ out. out.refused ≡ has_refusal (mode_of keep_going) script) }
    ensures report { IfOk result (IsReportOn (mode_of keep_going) script) }
    ensures failed { IfOk result (λ out. out.failed ≡ false) }
{
    let judge = ChainJudge { chains };
    let mut output = told_by(rt, alloc, &script, keys, keep_going, threads, &judge, gate)?;
    output.script = Some(script);
    Ok(output)
}

/// The last generation of a run as a script, at a moment, after the events.
fn list_of(alloc: Global, whole: &Whole, last: u64) -> Result<Output, Memory>
    requires named { All (NamesSet (length whole.now.control.schema)) whole.now.events }
    requires sets { AreSetsOf whole.now.control.schema whole.now.control.work.base.sets }
    ensures text { IfOk result (λ out. out.text.items ≡ remarks_text whole.now.control.schema whole.now.events ++ list_text whole.now.control.schema whole.now.control.work.base.sets last) }
    ensures refused { IfOk result (λ out. out.refused ≡ list_any is_refusal whole.now.events) }
    ensures refusals { IfOk result (λ out. out.refusals.items ≡ refusals_in 0 whole.now.events) }
    ensures failed { IfOk result (λ out. out.failed ≡ last_failed whole.now.events) }
{
    let control = &whole.control;
    let mut output = Output::with_remarks(alloc, control.schema(), &whole.events)?;
    write_list(
        control.schema(),
        control.generation(),
        last,
        &mut output.text,
    )?;
    Ok(output)
}

/// The tables of the last generation of a run, after the events.
fn dump_of(alloc: Global, whole: &Whole) -> Result<Output, Memory>
    requires named { All (NamesSet (length whole.now.control.schema)) whole.now.events }
    requires sets { AreSetsOf whole.now.control.schema whole.now.control.work.base.sets }
    ensures text { IfOk result (λ out. out.text.items ≡ remarks_text whole.now.control.schema whole.now.events ++ dump_text whole.now.control.schema whole.now.control.work.base.sets) }
    ensures refused { IfOk result (λ out. out.refused ≡ list_any is_refusal whole.now.events) }
    ensures refusals { IfOk result (λ out. out.refusals.items ≡ refusals_in 0 whole.now.events) }
    ensures failed { IfOk result (λ out. out.failed ≡ last_failed whole.now.events) }
{
    let control = &whole.control;
    let mut output = Output::with_remarks(alloc, control.schema(), &whole.events)?;
    write_dump(control.schema(), control.generation(), &mut output.text)?;
    Ok(output)
}

/// Runs a script, and lists its last generation as a script.
///
/// # Errors
///
/// `Memory` if memory runs out.
pub fn listing<G: Gate>(
    alloc: Global,
    script: Script,
    keep_going: bool,
    gate: &G,
) -> Result<Output, Memory>
    requires script { IsRunnable script }
    ensures text { IfOk result (λ out. out.text.items ≡ listing_text (mode_of keep_going) script) }
    ensures refused { IfOk result (λ out. out.refused ≡ has_refusal (mode_of keep_going) script) }
    ensures report { IfOk result (IsReportOn (mode_of keep_going) script) }
    ensures failed { IfOk result (λ out. out.failed ≡ ends_failed (mode_of keep_going) script) }
{
    let whole = Whole::run(alloc, &script, keep_going, gate)?;
    let mut output = list_of(alloc, &whole, script.last)?;
    output.script = Some(script);
    Ok(output)
}

/// Runs a script, and shows the tables of its last generation.
///
/// # Errors
///
/// `Memory` if memory runs out.
pub fn dump<G: Gate>(
    alloc: Global,
    script: Script,
    keep_going: bool,
    gate: &G,
) -> Result<Output, Memory>
    requires script { IsRunnable script }
    ensures text { IfOk result (λ out. out.text.items ≡ tables_text (mode_of keep_going) script) }
    ensures refused { IfOk result (λ out. out.refused ≡ has_refusal (mode_of keep_going) script) }
    ensures report { IfOk result (IsReportOn (mode_of keep_going) script) }
    ensures failed { IfOk result (λ out. out.failed ≡ ends_failed (mode_of keep_going) script) }
{
    let whole = Whole::run(alloc, &script, keep_going, gate)?;
    let mut output = dump_of(alloc, &whole)?;
    output.script = Some(script);
    Ok(output)
}
