//! Transcripts whose packets' lines have the elements that were found.
ghost use Rattle.std.specs.Prelude.{◌≡◌, ◌<◌, ◌≤◌, false, List, All, IfOk};
ghost use Rattle.set_model.specs.Control.{Generation, mode_of, has_refusal};
ghost use Rattle.set_model.specs.Legal.{Legal};
ghost use Rattle.set_model.specs.Runnable.{IsRunnable, IsFitting};
ghost use Rattle.set_model.specs.Text.{run_text};
ghost use Rattle.set_model.specs.declared.report.Line.{Line as PacketLine};
ghost use Rattle.script_laws.specs.Reports.{IsReportOn};
ghost use Rattle.element_lines.specs.ElementLines.{element_lines};

use crate::additions::Additions;
use gen_publish::Held;
use packet_pool::{Gate, Judge, LookupJudge};
use script_laws::Output;
use script_run::{Teller, told_by};
use set_model::{Keys, Lines, Memory, Packet, Script, Verdict};
use std::alloc::Global;
use std::thread::Threads;

/// Looks packets up as [`LookupJudge`] does. The line of a packet also has the addition of the element that was found.
#[derive(Drop)]
struct ElementJudge {
    additions: Additions,
}

impl Judge for ElementJudge {
    ghost use Rattle.script_run.specs.Telling.{looked_up};

    ghost verdict = { λ _ g p. looked_up g p };

    ghost serves = { λ _ _. Unit {0} };

    fn judge(&self, held: &mut Held, packet: &Packet) -> Verdict {
        LookupJudge.judge(held, packet)
    }
}

impl Teller for ElementJudge {
    ghost use Rattle.element_lines.specs.ElementLines.{noted_lines};

    ghost packets_text = { λ j lines. noted_lines j.additions lines };

    fn write(&self, lines: &Lines, out: &mut Vec<u8>) -> Result<(), Memory> {
        self.additions.write(lines, out)
    }
}

/// Runs a script beside the packets of a key file, which so many threads look up, and returns the
/// transcript. The line of a packet also has the element that was found, and the line of the script that
/// added it: `packet 0 thread 0 generation 1 element 0 { 192.0.2.0/24 . 80-443 comment "web" } line 6`.
///
/// The script is run once more to find the additions. This takes the time of a run without packets, and
/// room for the steps once more.
///
/// # Errors
///
/// `Memory` if memory runs out.
pub fn transcript_with_elements<R: Threads + Sync, G: Gate>(
    rt: &R,
    alloc: Global,
    script: Script,
    keys: &Keys,
    keep_going: bool,
    threads: u32,
    gate: &G,
) -> Result<Output, Memory>
    requires script { IsRunnable script }
    requires keys { All (All (IsFitting script.schema)) keys.now }
    requires threads { (0 < threads) × (threads ≤ 16) }
    ensures text { IfOk result (λ out. (lines : List PacketLine) × Legal script keys.now threads (mode_of keep_going) lines × (out.text.items ≡ run_text (element_lines (mode_of keep_going) script keys.now) (mode_of keep_going) script keys.now lines)) }
    ensures refused { IfOk result (λ out. out.refused ≡ has_refusal (mode_of keep_going) script) }
    ensures report { IfOk result (IsReportOn (mode_of keep_going) script) }
    ensures failed { IfOk result (λ out. out.failed ≡ false) }
{
    let additions = Additions::new(alloc, &script, keys, keep_going)?;
    let teller = ElementJudge { additions };
    let mut output = told_by(rt, alloc, &script, keys, keep_going, threads, &teller, gate)?;
    output.script = Some(script);
    Ok(output)
}
