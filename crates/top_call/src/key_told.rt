//! The note for a person on words of a `get` that are no key.
ghost use Rattle.std.specs.Prelude.{IfOk, IfSome, codes};
ghost use Rattle.token_notes.specs.Shown.{BeginsAtPlace};
ghost use Rattle.fault_notes.specs.Told.{SaysTold};
ghost use Rattle.top_call.specs.Noted.{IsErrorNote};

use command_words::{Command, Task};
use fault_notes::{BadToken, Note, bad_key_note, tell_note};
use input_files::{ScriptSets, Skips};
use key_answer::{AnswerError, key_text};
use pip_base::Notes;
use set_model::Memory;
use std::alloc::Global;

/// The words of the key of a `get`.
fn key_words<'a>(command: Command<'a>) -> &'a [String] {
    match command {
        Command::Script {
            task: Task::Get { key, .. },
            ..
        } => key,
        _ => &[],
    }
}

/// The note on words that are no key of the sets of a script.
fn key_note(
    alloc: Global,
    sets: ScriptSets<'_>,
    words: &[String],
    bad: Option<BadToken>,
) -> Result<Note, Memory>
    ensures { IfOk result (λ note. BeginsAtPlace (codes "key") note.bytes.items) }
{
    let text = key_text(alloc, words)?;
    match left_out_note(alloc, sets.skipped, text.as_slice(), bad)? {
        Some(note) => Ok(note),
        None => bad_key_note(alloc, sets.schema, text.as_slice(), bad),
    }
}

/// The note on words that name a set which the script's ruleset leaves out, if they do.
fn left_out_note(
    alloc: Global,
    skipped: &Skips,
    text: &[u8],
    bad: Option<BadToken>,
) -> Result<Option<Note>, Memory>
    ensures { IfOk result (λ found. IfSome found (λ note. BeginsAtPlace (codes "key") note.bytes.items)) }
{
    match bad {
        Some(bad) => skipped.set_note(alloc, "key", text, bad),
        None => Ok(None),
    }
}

/// Writes why the words of a `get` are no key, and returns whether it did so. It writes nothing if memory runs out.
pub fn tell_error<N: Notes>(
    alloc: Global,
    notes: &mut N,
    command: Command<'_>,
    error: &AnswerError,
    skipped: &Skips,
) -> bool
    ensures { SaysTold (IsErrorNote error.now) (N.told notes.old) (N.told notes.new) result }
{
    match error {
        AnswerError::BadKey { bad, schema, .. } => {
            let sets = ScriptSets { schema, skipped };
            tell_note(notes, key_note(alloc, sets, key_words(command), *bad))
        }
        AnswerError::Memory => false,
    }
}
