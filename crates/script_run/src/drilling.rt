ghost use Rattle.std.specs.Prelude.{◌≡◌, ◌+◌, ◌++◌, ◌<◌, ◌≤◌, ◌^◌, ◌∷◌, [], false, length, All, IfOk, OnOk};
ghost use Rattle.set_model.specs.Control.{KeepGoing, first_generation, start as begins, section};
ghost use Rattle.set_model.specs.Runnable.{IsFitting, IsRunnableStep, EndsClosed};
ghost use Rattle.set_space.specs.Open.{opened};
ghost use Rattle.packet_pool.specs.declared.section.SectionResult.{SectionResult};
ghost use Rattle.packet_pool.specs.Work.{AllReady};
ghost use Rattle.set_report.specs.SummaryText.{summary_text};
ghost use Rattle.script_run.specs.Drill.{drill_text, IsDrilled};

use crate::telling::Telling;
use drill_gen::generate;
use gen_publish::{Control, Reader};
use packet_pool::{Gate, LookupJudge, SectionResult, count_commits, run_section};
use script_laws::{Output, has_numbers};
use set_model::{Memory, Packets, Script, Steps};
use set_report::write_summary;
use std::alloc::Global;
use std::thread::Threads;

/// Runs all steps first, and then looks the packets up. So the packets see only the last generation. It
/// returns the events of the steps and the packets' lines.
fn answer_behind<R: Threads + Sync, G: Gate>(
    rt: &R,
    alloc: Global,
    control: &mut Control,
    readers: &mut Vec<Option<Reader>>,
    steps: &Steps,
    packets: &Packets,
    gate: &G,
) -> Result<SectionResult, Memory>
    requires begun { (control.old.committed ≡ first_generation control.old.schema ∷ []) × (control.old.work ≡ opened (first_generation control.old.schema)) }
    requires readers { (0 < length readers.old.items) × (length readers.old.items ≤ 16) × AllReady control.old readers.old.items }
    requires steps { All (IsRunnableStep control.old.schema) steps.now }
    requires closed { EndsClosed steps.now }
    requires packets { All (IsFitting control.old.schema) packets.now }
    requires room { length packets.now < 2 ^ 64 }
    ensures { IfOk result (λ r. IsDrilled (section KeepGoing (begins control.old.schema) steps.now) packets.now control.new r) }
{
    let keep_going = true;
    if !has_numbers(control, count_commits(steps)) {
        return Err(Memory);
    }
    gate.section(0, 1, 0);
    let SectionResult { events, .. } = run_section(
        rt,
        alloc,
        control,
        steps,
        keep_going,
        readers,
        &Packets::new(alloc),
        0,
        &LookupJudge,
        gate,
    )?;
    let nothing = Steps::new(alloc);
    if !has_numbers(control, count_commits(&nothing)) {
        return Err(Memory);
    }
    gate.section(1, 1, packets.len());
    let SectionResult { lines, .. } = run_section(
        rt,
        alloc,
        control,
        &nothing,
        keep_going,
        readers,
        packets,
        0,
        &LookupJudge,
        gate,
    )?;
    Ok(SectionResult { events, lines })
}

/// Does the steps on a run before its first step, looks the packets up behind them, and writes the line.
fn tell_drill<R: Threads + Sync, G: Gate>(
    rt: &R,
    alloc: Global,
    telling: &mut Telling,
    steps: &Steps,
    packets: &Packets,
    gate: &G,
) -> Result<(), Memory>
    requires begun { (telling.old.control.committed ≡ first_generation telling.old.control.schema ∷ []) × (telling.old.control.work ≡ opened (first_generation telling.old.control.schema)) }
    requires readers { (0 < length telling.old.readers.items) × (length telling.old.readers.items ≤ 16) × AllReady telling.old.control telling.old.readers.items }
    requires steps { All (IsRunnableStep telling.old.control.schema) steps.now }
    requires closed { EndsClosed steps.now }
    requires packets { All (IsFitting telling.old.control.schema) packets.now }
    requires room { length packets.now < 2 ^ 64 }
    ensures told { OnOk result ((told : SectionResult) × IsDrilled (section KeepGoing (begins telling.old.control.schema) steps.now) packets.now telling.new.control told × (telling.new.output.text.items ≡ telling.old.output.text.items ++ summary_text told.events told.lines telling.new.control.work.base)) }
    ensures refused { OnOk result (telling.new.output.refused ≡ telling.old.output.refused) }
{
    let told = answer_behind(
        rt,
        alloc,
        &mut telling.control,
        &mut telling.readers,
        steps,
        packets,
        gate,
    )?;
    write_summary(
        &told.events,
        &told.lines,
        telling.control.generation(),
        &mut telling.output.text,
    )
}

/// Runs the generated workload of a seed: `count` elements, and as many packets on so many threads.
/// Refused changes are skipped. The text is one line, which doesn't depend on the number of threads.
///
/// # Errors
///
/// `Memory` if memory runs out.
pub fn drill<R: Threads + Sync, G: Gate>(
    rt: &R,
    alloc: Global,
    seed: u64,
    count: u32,
    threads: u32,
    gate: &G,
) -> Result<Output, Memory>
    requires threads { (0 < threads) × (threads ≤ 16) }
    ensures text { IfOk result (λ out. out.text.items ≡ drill_text seed count) }
    ensures refused { IfOk result (λ out. out.refused ≡ false) }
{
    let (script, keys) = generate(alloc, seed, count)?;
    let Script {
        schema,
        sections,
        ..
    } = script;
    let mut telling = Telling::new(alloc, &schema, threads)?;
    tell_drill(rt, alloc, &mut telling, sections.at(0), keys.at(0), gate)?;
    Ok(telling.output)
}
