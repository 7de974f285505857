//! Writes the sets of a ruleset, and the note on what isn't kept of it.
ghost use Rattle.std.specs.Prelude.{◌≡◌, ◌≢◌, [], All};
ghost use Rattle.std.specs.List.{list_any};
ghost use Rattle.skip_notes.specs.Skips.{skips_text};
ghost use Rattle.token_notes.specs.Shown.{IsNoteByte};
ghost use Rattle.fault_notes.specs.Told.{MayTell, SaysTold};
ghost use Rattle.pip_base.specs.Notes.{Tells};
ghost use Rattle.ruleset_sets.specs.RulesetText.{leaves_out};
ghost use Rattle.top_call.specs.Answers.{Ends, IsExactly};
ghost use Rattle.top_call.specs.Lines.{done_status as status_of_done};

use crate::delivery::{deliver, done_status};
use pip_base::{Notes, Sink};
use ruleset_sets::{Sieved, Skipped, leaves_sets_out};
use skip_notes::{SkipsNote, skips_note};
use std::alloc::Global;

/// Writes the note on what isn't kept of a ruleset with this text, if there is something. Returns whether it wrote one: it
/// doesn't if memory runs out for the note.
fn tell_skips<N: Notes>(
    alloc: Global,
    notes: &mut N,
    file: &str,
    whole: &[u8],
    skips: &[Skipped],
) -> bool
    ensures { SaysTold (λ note. note ≡ skips_text file.now whole.now skips.now) (N.told notes.old) (N.told notes.new) result }
{
    if skips.is_empty() {
        return false;
    }
    match skips_note(alloc, file, whole, skips) {
        Ok(note) => {
            notes.tell(note.as_slice());
            true
        }
        Err(_) => false,
    }
}

/// Writes the lines on what isn't kept of the rulesets that were read, if there are some.
pub fn tell_lines<N: Notes>(notes: &mut N, lines: &SkipsNote)
    ensures quiet { All IsNoteByte lines.now.bytes.items }
    ensures none { lines.now.bytes.items ≡ [] → N.told notes.new ≡ N.told notes.old }
    ensures some { lines.now.bytes.items ≢ [] → Tells (N.told notes.old) (N.told notes.new) lines.now.bytes.items }
{
    let bytes = lines.as_slice();
    if !bytes.is_empty() {
        notes.tell(bytes);
    }
}

/// Writes what is kept of a ruleset with this text, and the note on the rest. Returns the status: 1 if a set
/// is left out, and 6 if the sink fails.
pub fn deliver_sets<K: Sink, N: Notes>(
    alloc: Global,
    sink: &mut K,
    notes: &mut N,
    file: &str,
    whole: &[u8],
    sieved: &Sieved,
) -> u8
    ensures ends { Ends (IsExactly (status_of_done (list_any (λ s. leaves_out s.why) sieved.now.skips)) sieved.now.text.items) (K.taken sink.old) (K.taken sink.new) (K.faults sink.old) (K.faults sink.new) result }
    ensures tells { MayTell (λ note. note ≡ skips_text file.now whole.now sieved.now.skips) (N.told notes.old) (N.told notes.new) }
{
    let skips = sieved.skips.as_slice();
    let status = deliver(
        sink,
        done_status(leaves_sets_out(skips)),
        sieved.text.as_slice(),
    );
    let _ = tell_skips(alloc, notes, file, whole, skips);
    status
}
