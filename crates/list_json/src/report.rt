//! The last generation of a script.
ghost use Rattle.std.specs.Prelude.{◌≡◌, IfOk};
ghost use Rattle.std.specs.List.{list_any};
ghost use Rattle.set_model.specs.Control.{mode_of, has_refusal, is_refusal};
ghost use Rattle.set_model.specs.Runnable.{IsRunnable};
ghost use Rattle.set_report.specs.Writes.{AreSetsOf};
ghost use Rattle.script_laws.specs.Reports.{IsReportOn, ends_failed, has_failed as last_failed, refusals_in};
ghost use Rattle.list_json.specs.JsonListing.{listing_line, ruleset_line};

use crate::tables::ruleset_text;
use packet_pool::Gate;
use script_laws::{Output, add_refusals, has_failed, tells_refusal};
use script_run::Whole;
use set_model::{Memory, Script};
use std::alloc::Global;

/// What a run reports beside its text: its refused changes, and whether its last transaction failed.
fn report_of(alloc: Global, whole: &Whole) -> Result<Output, Memory>
    ensures refused { IfOk result (λ out. out.refused ≡ list_any is_refusal whole.now.events) }
    ensures refusals { IfOk result (λ out. out.refusals.items ≡ refusals_in 0 whole.now.events) }
    ensures failed { IfOk result (λ out. out.failed ≡ last_failed whole.now.events) }
{
    let mut output = Output::new(alloc);
    let events = whole.events.as_slice();
    add_refusals(0, events, &mut output.refusals)?;
    output.refused = tells_refusal(events);
    output.failed = has_failed(events);
    Ok(output)
}

/// The last generation of a run at a moment.
fn listing_of(alloc: Global, whole: &Whole, last: u64) -> Result<Output, Memory>
    requires { AreSetsOf whole.now.control.schema whole.now.control.work.base.sets }
    ensures text { IfOk result (λ out. out.text.items ≡ ruleset_line whole.now.control.schema whole.now.control.work.base.sets last) }
    ensures refused { IfOk result (λ out. out.refused ≡ list_any is_refusal whole.now.events) }
    ensures refusals { IfOk result (λ out. out.refusals.items ≡ refusals_in 0 whole.now.events) }
    ensures failed { IfOk result (λ out. out.failed ≡ last_failed whole.now.events) }
{
    let control = &whole.control;
    let mut output = report_of(alloc, whole)?;
    output.text = ruleset_text(alloc, control.schema(), control.generation(), last)?;
    Ok(output)
}

/// Runs a script, and lists its last generation on one line, as nft's JSON. The moment is the script's last. The refused changes
/// are no part of the text: the output has them as data.
///
/// # Errors
///
/// `Memory` if memory runs out.
pub fn listing_json<G: Gate>(
    alloc: Global,
    script: Script,
    keep_going: bool,
    gate: &G,
) -> Result<Output, Memory>
    requires script { IsRunnable script }
    ensures text { IfOk result (λ out. out.text.items ≡ listing_line (mode_of keep_going) script) }
    ensures refused { IfOk result (λ out. out.refused ≡ has_refusal (mode_of keep_going) script) }
    ensures report { IfOk result (IsReportOn (mode_of keep_going) script) }
    ensures failed { IfOk result (λ out. out.failed ≡ ends_failed (mode_of keep_going) script) }
{
    let whole = Whole::run(alloc, &script, keep_going, gate)?;
    let mut output = listing_of(alloc, &whole, script.last)?;
    output.script = Some(script);
    Ok(output)
}
