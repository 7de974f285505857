//! The note on the tests of rules that no packet can meet.
ghost use Rattle.std.specs.Prelude.{◌≡◌, ◌≢◌, [], All, IfOk, OnOk, OnErr};
ghost use Rattle.pip_base.specs.Notes.{Tells};
ghost use Rattle.token_notes.specs.Shown.{IsNoteByte};
ghost use Rattle.rule_chain.specs.Unmet.{key_types as types_of_sets, sets_of};
ghost use Rattle.unmet_tests.specs.UnmetText.{plan_sets, unmet_text};
ghost use Rattle.top_call.specs.Unmet.{SaysLines, unmet_of as unmet_of_work};

use input_files::{RulesFile, Work};
use pcap_keys::Plan;
use pip_base::Notes;
use rule_chain::key_types;
use set_model::{Keys, Memory, SetDecl};
use std::alloc::Global;
use token_notes::Note;
use unmet_tests::{plan_types, unmet_note};

/// The types of the keys of a key file's packets.
fn types_of(alloc: Global, schema: &[SetDecl], keys: &Keys) -> Result<Vec<u32>, Memory>
    ensures { IfOk result (λ types. types.items ≡ types_of_sets schema.now (sets_of keys.now)) }
{
    key_types(alloc, schema, keys.as_slice())
}

/// The note on the tests that no packet of a key file can meet.
fn unmet_by_keys(alloc: Global, file: &RulesFile<'_>, keys: &Keys) -> Result<Note, Memory>
    ensures { IfOk result (λ note. note.bytes.items ≡ unmet_text file.now.name.now file.now.text.items file.now.chains.schema (sets_of keys.now) file.now.chains.chains) }
{
    let types = types_of(alloc, file.chains.schema.as_slice(), keys)?;
    unmet_note(
        alloc,
        file.name,
        file.text.as_slice(),
        &file.chains,
        types.as_slice(),
    )
}

/// The note on the tests that no packet of a plan can meet.
fn unmet_by_plan(alloc: Global, file: &RulesFile<'_>, plan: &Plan) -> Result<Note, Memory>
    ensures { IfOk result (λ note. note.bytes.items ≡ unmet_text file.now.name.now file.now.text.items file.now.chains.schema (plan_sets plan.now) file.now.chains.chains) }
{
    let types = plan_types(alloc, file.chains.schema.as_slice(), plan.as_slice())?;
    unmet_note(
        alloc,
        file.name,
        file.text.as_slice(),
        &file.chains,
        types.as_slice(),
    )
}

/// The note on the tests of a work's rules that no packet can meet. It is empty if there are none, and if no rules judge
/// packets.
fn unmet_of(alloc: Global, work: &Work<'_>) -> Result<Note, Memory>
    ensures { IfOk result (λ note. note.bytes.items ≡ unmet_of_work work.now) }
{
    match work {
        Work::Judge { rules, keys, .. } => unmet_by_keys(alloc, rules, keys),
        Work::JudgeCapture { rules, plan, .. } => unmet_by_plan(alloc, rules, plan),
        _ => Ok(Note::new(alloc)),
    }
}

/// Writes the lines of a note, if there are some.
fn tell_some<N: Notes>(notes: &mut N, note: &Note)
    ensures quiet { All IsNoteByte note.now.bytes.items }
    ensures none { note.now.bytes.items ≡ [] → N.told notes.new ≡ N.told notes.old }
    ensures some { note.now.bytes.items ≢ [] → Tells (N.told notes.old) (N.told notes.new) note.now.bytes.items }
{
    let bytes = note.as_slice();
    if !bytes.is_empty() {
        notes.tell(bytes);
    }
}

/// Writes the lines on the tests of a work's rules that no packet can meet, if there are some.
///
/// # Errors
///
/// `Memory` if memory runs out. Nothing is then written.
pub fn tell_unmet<N: Notes>(alloc: Global, notes: &mut N, work: &Work<'_>) -> Result<(), Memory>
    ensures told { OnOk result (SaysLines (unmet_of_work work.now) (N.told notes.old) (N.told notes.new)) }
    ensures kept { OnErr result (N.told notes.new ≡ N.told notes.old) }
{
    let note = unmet_of(alloc, work)?;
    tell_some(notes, &note);
    Ok(())
}
