//! Notes for a person, on refused changes and on a desk's script that has too many sections.
ghost use Rattle.std.specs.Prelude.{◌≡◌, map, take, IfOk, OnOk, OnErr};
ghost use Rattle.command_words.specs.WordForms.{plain};
ghost use Rattle.token_notes.specs.Shown.{Begins, name_text};
ghost use Rattle.top_call.specs.Refused.{HasTold, IsNoteOnChanges, TellsChanges, TellsOf, change_of as as_told, most_told};

use command_words::Command;
use fault_notes::{Met, Note, RefusedChange, RefusedChanges, refusals_note, too_many_clerks_note};
use key_answer::met_by;
use pip_base::Notes;
use script_run::{Output, Refusal};
use set_model::{Memory, Script};
use std::alloc::Global;

/// The most refused changes that have a line each.
const MOST_TOLD: usize = 20;

/// A refused change as a note has it.
fn change_of(refusal: &Refusal) -> RefusedChange
    ensures { result ≡ as_told refusal.now }
{
    RefusedChange {
        line: refusal.line,
        set: refusal.set,
        why: refusal.why,
    }
}

/// The first refused changes, which have a line each.
fn first_changes(alloc: Global, refusals: &[Refusal]) -> Result<Vec<RefusedChange>, Memory>
    ensures { IfOk result (λ first. first.items ≡ map as_told (take most_told refusals.now)) }
{
    let first = refusals
        .iter()
        .take(MOST_TOLD)
        .map(|refusal| change_of(refusal))
        .collect(alloc)?;
    Ok(first)
}

/// What the first refused changes of a script met, as steps of the script.
fn first_met<'a>(
    alloc: Global,
    script: &'a Script,
    keep_going: bool,
) -> Result<Vec<Met<'a>>, Memory> {
    let found = met_by(alloc, script, keep_going, MOST_TOLD)?;
    let met = found
        .iter()
        .map(|met| Met {
            change: met.change,
            older: met.older,
        })
        .collect(alloc)?;
    Ok(met)
}

/// The note on the refused changes of an output. The script runs once more for what they met.
fn changes_note(
    alloc: Global,
    name: &str,
    script_text: &[u8],
    script: &Script,
    keep_going: bool,
    output: &Output,
) -> Result<Note, Memory>
    ensures { IfOk result (λ note. IsNoteOnChanges name.now output.now.refusals.items output.now.failed note.bytes.items) }
{
    let refusals = output.refusals.as_slice();
    let first = first_changes(alloc, refusals)?;
    let met = first_met(alloc, script, keep_going)?;
    let told = met.as_slice();
    let changes = RefusedChanges {
        first: first.as_slice(),
        met: told,
        count: refusals.len() as u64,
        failed: output.failed,
    };
    refusals_note(alloc, name, script_text, script, changes)
}

/// Writes the note on the refused changes of an output, if it has some.
fn tell_changes<N: Notes>(
    alloc: Global,
    notes: &mut N,
    name: &str,
    script_text: &[u8],
    keep_going: bool,
    output: &Output,
) -> Result<bool, Memory>
    ensures { TellsOf (IsNoteOnChanges name.now output.now.refusals.items output.now.failed) output.now (N.told notes.old) (N.told notes.new) result }
{
    let Some(script) = &output.script else {
        return Ok(false);
    };
    if output.refusals.is_empty() {
        return Ok(false);
    }
    let note = changes_note(alloc, name, script_text, script, keep_going, output)?;
    notes.tell(note.as_slice());
    Ok(true)
}

/// Writes a note on the changes of a command's script that were refused. Returns whether it wrote one: there is none if no
/// change was refused.
///
/// # Errors
///
/// `Memory` if memory runs out. Nothing is then written.
pub fn tell_refusals<N: Notes>(
    alloc: Global,
    notes: &mut N,
    command: Command<'_>,
    script_text: &[u8],
    output: &Output,
) -> Result<bool, Memory>
    ensures { TellsChanges (plain command.entry) output.now (N.told notes.old) (N.told notes.new) result }
{
    if !output.refused {
        return Ok(false);
    }
    match command {
        Command::Script {
            script: name,
            keep_going,
            ..
        } => tell_changes(alloc, notes, name, script_text, keep_going, output),
        Command::Compare {
            first: name,
            keep_going,
            ..
        } => tell_changes(alloc, notes, name, script_text, keep_going, output),
        Command::Sets { file: name } => {
            tell_changes(alloc, notes, name, script_text, false, output)
        }
        Command::Drill { .. } => Ok(false),
    }
}

/// Writes the note that a desk's script has too many sections.
///
/// # Errors
///
/// `Memory` if memory runs out. Nothing is then written.
pub fn tell_too_many<N: Notes>(
    alloc: Global,
    notes: &mut N,
    name: &str,
    sections: u64,
) -> Result<(), Memory>
    ensures told { OnOk result (HasTold (Begins (name_text name.now)) (N.told notes.old) (N.told notes.new)) }
    ensures kept { OnErr result (N.told notes.new ≡ N.told notes.old) }
{
    let note = too_many_clerks_note(alloc, name, sections)?;
    notes.tell(note.as_slice());
    Ok(())
}
