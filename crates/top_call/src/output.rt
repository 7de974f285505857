//! A command's output, from what was read of its files.
ghost use Rattle.std.specs.Prelude.{◌≡◌, ◌<◌, ◌≤◌, [], ◌∷◌, All, List, ℕ, Option, Err, IfOk, false};
ghost use Rattle.token_forms.specs.declared.token.Reason.{Reason};
ghost use Rattle.token_forms.specs.declared.bad_token.BadToken.{BadToken};
ghost use Rattle.key_answer.specs.declared.question.AnswerError.TheVariants.{BadKey};
ghost use Rattle.set_model.specs.declared.script.SetDecl.{SetDecl as Declared};
ghost use Rattle.set_model.specs.Control.{mode_of, has_refusal};
ghost use Rattle.set_model.specs.Runnable.{IsFitting, IsRunnable};
ghost use Rattle.script_laws.specs.Reports.{IsReportOn, ends_failed};
ghost use Rattle.pcap_keys.specs.Fitting.{HasValues, IsPlanned};
ghost use Rattle.pcap_keys.specs.Planned as planned;
ghost use Rattle.input_files.specs.Works.{IsDoable};
ghost use Rattle.top_call.specs.Refused.{GivesRefusals};
ghost use Rattle.top_call.specs.Texts.{listing_output as listing_text_of};
ghost use Rattle.top_call.specs.Transcript.{GivesText, HasBadWords, HasFewClerks, HasTranscript, MakesOutput};

use command_words::AnswerForm;
use compare_answer::{Side, compare_scripts};
use control_desk::QuietBell;
use desk_run::desk;
use element_lines::transcript_with_elements;
use explain_answer::explain;
use input_files::Work;
use key_answer::{AnswerError, get};
use list_json::listing_json;
use packet_pool::Gate;
use pcap_keys::{Frames, Plan, keys_of};
use script_run::{Output, drill, dump, judged, listing, transcript};
use set_model::{Keys, Memory, Script};
use stat_answer::stat;
use std::alloc::Global;
use std::sync::Wait;
use std::thread::Threads;

/// The packets that a plan takes from a capture's frames, as the one section of a key file.
fn captured(alloc: Global, plan: &Plan, frames: &Frames) -> Result<Keys, Memory>
    ensures packets { IfOk result (λ keys. keys ≡ planned.packets plan.now frames.now ∷ []) }
    ensures fit { (schema : List Declared) → All (IsPlanned schema) plan.now → All HasValues frames.now → IfOk result (All (All (IsFitting schema))) }
{
    let packets = keys_of(alloc, plan, frames)?;
    let mut keys = Keys::new(alloc);
    keys.push(packets)?;
    Ok(keys)
}

/// The output of a run of a script beside packets that are looked up, in the form of an answer.
fn run_output<R: Threads + Sync, G: Gate>(
    rt: &R,
    alloc: Global,
    script: Script,
    keys: &Keys,
    keep_going: bool,
    threads: u32,
    answer: AnswerForm,
    gate: &G,
) -> Result<Output, Memory>
    requires script { IsRunnable script }
    requires keys { All (All (IsFitting script.schema)) keys.now }
    requires threads { (0 < threads) × (threads ≤ 16) }
    ensures text { IfOk result (λ out. HasTranscript answer script keys.now threads (mode_of keep_going) out.text.items) }
    ensures refused { IfOk result (λ out. out.refused ≡ has_refusal (mode_of keep_going) script) }
    ensures report { IfOk result (IsReportOn (mode_of keep_going) script) }
    ensures failed { IfOk result (λ out. out.failed ≡ false) }
{
    if answer.has_elements {
        transcript_with_elements(rt, alloc, script, keys, keep_going, threads, gate)
    } else {
        transcript(rt, alloc, script, keys, keep_going, threads, gate)
    }
}

/// The last generation of a script, in the form of an answer.
fn listing_output<G: Gate>(
    alloc: Global,
    script: Script,
    keep_going: bool,
    answer: AnswerForm,
    gate: &G,
) -> Result<Output, Memory>
    requires script { IsRunnable script }
    ensures text { IfOk result (λ out. out.text.items ≡ listing_text_of answer (mode_of keep_going) script) }
    ensures refused { IfOk result (λ out. out.refused ≡ has_refusal (mode_of keep_going) script) }
    ensures report { IfOk result (IsReportOn (mode_of keep_going) script) }
    ensures failed { IfOk result (λ out. out.failed ≡ ends_failed (mode_of keep_going) script) }
{
    if answer.is_json {
        listing_json(alloc, script, keep_going, gate)
    } else {
        listing(alloc, script, keep_going, gate)
    }
}

/// The output of a command's work, in the form of an answer. The `gate` learns of each section, step, lookup and commit.
///
/// # Errors
///
/// `BadKey` if the words of a `get` are no key. `Memory` if memory runs out.
pub fn output_of<R: Threads + Wait + Sync, G: Gate>(
    rt: &R,
    alloc: Global,
    work: Work<'_>,
    answer: AnswerForm,
    gate: &G,
) -> Result<Output, AnswerError>
    requires doable { IsDoable work }
    requires clerks { HasFewClerks work }
    requires makes { MakesOutput work }
    ensures text { IfOk result (λ out. GivesText answer work.entry out.refused out.text.items) }
    ensures refusals { IfOk result (GivesRefusals work.entry) }
    ensures bad { (line : ℕ) (reason : Reason) (bad : Option BadToken) (schema : List Declared) → result ≡ Err (BadKey line reason bad schema) → HasBadWords work.entry line reason }
{
    match work {
        Work::Run {
            script,
            keys,
            threads,
            keep_going,
        } => Ok(run_output(rt, alloc, script, &keys, keep_going, threads, answer, gate)?),
        Work::List { script, keep_going } => Ok(listing_output(
            alloc, script, keep_going, answer, gate,
        )?),
        Work::Dump { script, keep_going } => Ok(dump(alloc, script, keep_going, gate)?),
        Work::Stat { script, keep_going } => Ok(stat(alloc, script, keep_going, gate)?),
        Work::Drill {
            seed,
            count,
            threads,
        } => Ok(drill(rt, alloc, seed, count, threads, gate)?),
        Work::Capture {
            script,
            plan,
            frames,
            threads,
            keep_going,
        } => {
            let keys = captured(alloc, &plan, &frames)?;
            Ok(run_output(rt, alloc, script, &keys, keep_going, threads, answer, gate)?)
        }
        Work::Judge {
            script,
            rules,
            keys,
            threads,
            keep_going,
        } => Ok(judged(
            rt,
            alloc,
            script,
            rules.chains,
            &keys,
            keep_going,
            threads,
            gate,
        )?),
        Work::JudgeCapture {
            script,
            rules,
            plan,
            frames,
            threads,
            keep_going,
        } => {
            let packets = captured(alloc, &plan, &frames)?;
            Ok(judged(
                rt,
                alloc,
                script,
                rules.chains,
                &packets,
                keep_going,
                threads,
                gate,
            )?)
        }
        Work::Desk { script, keep_going } => {
            Ok(desk(rt, alloc, script, keep_going, &QuietBell, gate)?)
        }
        Work::Get {
            script,
            key,
            moment,
            keep_going,
        } => get(alloc, script, key, moment, keep_going, gate),
        Work::Explain {
            script,
            keys,
            keep_going,
        } => Ok(explain(alloc, script, &keys, keep_going, gate)?),
        Work::Compare {
            first,
            first_script,
            second,
            second_script,
            keep_going,
        } => {
            let side = Side {
                file: first,
                script: first_script,
            };
            let other = Side {
                file: second,
                script: second_script,
            };
            Ok(compare_scripts(alloc, side, other, keep_going, gate)?)
        }
        Work::Sets { .. } => unreachable!(),
    }
}
