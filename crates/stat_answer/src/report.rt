//! The figures of a script's last generation.
ghost use Rattle.std.specs.Prelude.{◌≡◌, ◌++◌, All, length, IfOk};
ghost use Rattle.std.specs.List.{list_any};
ghost use Rattle.set_model.specs.Control.{mode_of, has_refusal, is_refusal};
ghost use Rattle.set_model.specs.Runnable.{IsRunnable};
ghost use Rattle.set_report.specs.Remarks.{remarks_text};
ghost use Rattle.set_report.specs.Writes.{AreSetsOf, NamesSet};
ghost use Rattle.script_laws.specs.Reports.{IsReportOn, ends_failed, has_failed as last_failed, refusals_in};
ghost use Rattle.stat_answer.specs.StatText.{stat_text, sets_stat};

use crate::text::write_sets;
use packet_pool::Gate;
use script_laws::Output;
use script_run::Whole;
use set_model::{Memory, Script};
use std::alloc::Global;

/// The figures of the last generation of a run at a moment, after the events.
fn stat_of(alloc: Global, whole: &Whole, last: u64) -> Result<Output, Memory>
    requires named { All (NamesSet (length whole.now.control.schema)) whole.now.events }
    requires sets { AreSetsOf whole.now.control.schema whole.now.control.work.base.sets }
    ensures text { IfOk result (λ out. out.text.items ≡ remarks_text whole.now.control.schema whole.now.events ++ sets_stat last whole.now.control.schema whole.now.control.work.base.sets) }
    ensures refused { IfOk result (λ out. out.refused ≡ list_any is_refusal whole.now.events) }
    ensures refusals { IfOk result (λ out. out.refusals.items ≡ refusals_in 0 whole.now.events) }
    ensures failed { IfOk result (λ out. out.failed ≡ last_failed whole.now.events) }
{
    let control = &whole.control;
    let mut output = Output::with_remarks(alloc, control.schema(), &whole.events)?;
    write_sets(
        control.schema(),
        control.generation(),
        last,
        &mut output.text,
    )?;
    Ok(output)
}

/// Runs a script, and counts in its last generation: for each set its elements and when they expire, and for each field its
/// rules and the bytes of its buckets. The moment is the script's last.
///
/// # Errors
///
/// `Memory` if memory runs out.
pub fn stat<G: Gate>(
    alloc: Global,
    script: Script,
    keep_going: bool,
    gate: &G,
) -> Result<Output, Memory>
    requires script { IsRunnable script }
    ensures text { IfOk result (λ out. out.text.items ≡ stat_text (mode_of keep_going) script) }
    ensures refused { IfOk result (λ out. out.refused ≡ has_refusal (mode_of keep_going) script) }
    ensures report { IfOk result (IsReportOn (mode_of keep_going) script) }
    ensures failed { IfOk result (λ out. out.failed ≡ ends_failed (mode_of keep_going) script) }
{
    let whole = Whole::run(alloc, &script, keep_going, gate)?;
    let mut output = stat_of(alloc, &whole, script.last)?;
    output.script = Some(script);
    Ok(output)
}
