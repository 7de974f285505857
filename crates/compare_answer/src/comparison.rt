//! The comparison of two scripts.
ghost use Rattle.std.specs.Prelude.{◌≡◌, ◌≤◌, ◌++◌, ◌||◌, not, All, codes, filter, length, IfOk, OnOk, [], false};
ghost use Rattle.std.specs.List.{list_any};
ghost use Rattle.set_model.specs.Control.{mode_of, is_refusal as refuses};
ghost use Rattle.set_model.specs.Runnable.{IsRunnable};
ghost use Rattle.set_report.specs.Remarks.{told_text};
ghost use Rattle.set_report.specs.Writes.{AreSetsOf, NamesSet};
ghost use Rattle.compare_answer.specs.Compared.{GivesComparison};
ghost use Rattle.compare_answer.specs.Told.{TellsEnds};

use crate::report::{write_reports, write_rest};
use crate::side::Finished;
use key_answer::trace_script;
use packet_pool::Gate;
use script_laws::{Output, tells_refusal};
use set_model::{Event, Memory, Script};
use std::alloc::Global;

/// A script that is compared.
#[derive(Drop)]
pub struct Side<'a> {
    /// The name of its file, for the text.
    pub file: &'a str,
    pub script: Script,
}

/// Appends the refused changes of a script as comments, each with the name of the script's file.
fn write_refusals(alloc: Global, side: &Finished<'_>, out: &mut Vec<u8>) -> Result<(), Memory>
    requires { All (NamesSet (length side.now.trace.control.schema)) side.now.trace.events }
    ensures { OnOk result (out.new.items ≡ out.old.items ++ told_text (codes "# " ++ (side.now.file.now ++ codes " ")) side.now.trace.control.schema (filter refuses side.now.trace.events)) }
{
    let mut prefix = Vec::from_slice(alloc, b"# ")?;
    prefix.extend_from_slice(side.file)?;
    prefix.extend_from_slice(b" ")?;
    side.trace.write_refusals(alloc, prefix.as_slice(), out)
}

/// Whether a change was refused, a set isn't the same, or the second script alone has one.
fn differs(old: &[Event], new: &[Event], same: bool, any: bool) -> bool
    ensures { result ≡ (list_any refuses old.now || list_any refuses new.now || not same || any) }
{
    tells_refusal(old) || tells_refusal(new) || !same || any
}

/// The output of a comparison of two scripts that were run.
fn write_comparison(alloc: Global, old: &Finished<'_>, new: &Finished<'_>) -> Result<Output, Memory>
    requires old_events { All (NamesSet (length old.now.trace.control.schema)) old.now.trace.events }
    requires new_events { All (NamesSet (length new.now.trace.control.schema)) new.now.trace.events }
    requires old_sets { AreSetsOf old.now.trace.control.schema old.now.trace.control.work.base.sets }
    requires new_sets { AreSetsOf new.now.trace.control.schema new.now.trace.control.work.base.sets }
    requires few_old { length old.now.trace.control.schema ≤ 64 }
    requires few_new { length new.now.trace.control.schema ≤ 64 }
    ensures text { IfOk result (λ out. TellsEnds old.now new.now out.refused out.text.items) }
    ensures refusals { IfOk result (λ out. out.refusals.items ≡ []) }
    ensures failed { IfOk result (λ out. out.failed ≡ false) }
{
    let mut text = Vec::new(alloc);
    write_refusals(alloc, old, &mut text)?;
    write_refusals(alloc, new, &mut text)?;
    let same = write_reports(alloc, old, new, &mut text)?;
    let any = write_rest(
        new.file,
        old.trace.control.schema(),
        new.trace.control.schema(),
        &mut text,
    )?;
    let refused = differs(
        old.trace.events.as_slice(),
        new.trace.events.as_slice(),
        same,
        any,
    );
    Ok(Output {
        text,
        refused,
        ..Output::new(alloc)
    })
}

/// Compares two scripts at their last generations and moments, set by set. The text has the refused changes of both as comments,
/// and then a line or two for each set: `same`, `differs` or `only in`. `refused` is true if a change was refused or the scripts
/// don't have the same sets. The text has all refused changes, so the output has none as data.
///
/// # Errors
///
/// `Memory` if memory runs out.
pub fn compare_scripts<G: Gate>(
    alloc: Global,
    first: Side<'_>,
    second: Side<'_>,
    keep_going: bool,
    gate: &G,
) -> Result<Output, Memory>
    requires first { IsRunnable first.script }
    requires second { IsRunnable second.script }
    ensures text { IfOk result (λ out. GivesComparison (mode_of keep_going) first.entry.file.now first.entry.script second.entry.file.now second.entry.script out.refused out.text.items) }
    ensures refusals { IfOk result (λ out. out.refusals.items ≡ []) }
    ensures failed { IfOk result (λ out. out.failed ≡ false) }
{
    let Side { file, script } = first;
    let at = script.last;
    let trace = trace_script(alloc, &script, keep_going, gate)?;
    let old = Finished {
        file: file.as_bytes(),
        at,
        trace,
    };
    let Side { file, script } = second;
    let at = script.last;
    let trace = trace_script(alloc, &script, keep_going, gate)?;
    let new = Finished {
        file: file.as_bytes(),
        at,
        trace,
    };
    write_comparison(alloc, &old, &new)
}
