//! Prints where a script isn't in its grammar: its bad token, and those of the statements after it.
ghost use Rattle.std.specs.Prelude.{IfOk};
ghost use Rattle.fault_notes.specs.Told.{SaysTold};
ghost use Rattle.token_notes.specs.declared.help.TextKind.TheVariants as kinds;
ghost use Rattle.set_script.specs.Script.{script as script_form};
ghost use Rattle.input_files.specs.Noted.{AreFurther, IsNoteFrom, IsNotedFrom};

use fault_notes::{
    Note, TextKind, bad_script_note, further_note, hidden_note, is_other_kind, tell_note,
    without_statement,
};
use pip_base::Notes;
use set_model::Memory;
use set_script::bad_token;
use std::alloc::Global;
use token_forms::BadToken;

/// How many errors a note shows after the first one.
pub const MOST_FURTHER: u64 = 9;

/// The most bytes of a text that is read again for further errors.
pub(crate) const MOST_READ_AGAIN: usize = 1_048_576;

/// The notes on the bad tokens after this one, at most so many, and the line that says that there are more, if
/// there are. Each is the bad token of the script without the statements of those before it. In `rest` these are
/// blanked out, except for this one's.
#[tactic(auto, using(crate::proofs::Telling::none_further))]
fn further(
    alloc: Global,
    name: &str,
    text: &[u8],
    rest: &[u8],
    bad: BadToken,
    most: u64,
) -> Result<Note, Memory>
    ensures { IfOk result (λ notes. AreFurther script_form name.now text.now most rest.now notes.bytes.items) }
{
    let left = without_statement(alloc, rest, bad.at)?;
    let bytes = left.as_slice();
    let found = bad_token(alloc, bytes)?;
    match found {
        Some(next) if next.at > bad.at => {
            if most == 0 {
                return hidden_note(alloc, name);
            }
            let mut notes = further_note(alloc, name, text, bytes, next)?;
            let more = further(alloc, name, text, bytes, next, most - 1)?;
            notes.join(&more)?;
            Ok(notes)
        }
        _ => Ok(Note::new(alloc)),
    }
}

/// The note on a script that isn't in its grammar, on its bad token and on further ones. A long script isn't
/// read again.
#[tactic(auto, using(crate::proofs::Telling::first_alone))]
fn script_note(alloc: Global, name: &str, text: &[u8], bad: BadToken) -> Result<Note, Memory>
    ensures { IfOk result (λ note. IsNoteFrom kinds.Script script_form name.now text.now bad note.bytes.items) }
{
    let mut note = bad_script_note(alloc, name, text, bad)?;
    if text.len() > MOST_READ_AGAIN {
        return Ok(note);
    }
    if is_other_kind(TextKind::Script, text, bad) {
        return Ok(note);
    }
    let more = further(alloc, name, text, text, bad, MOST_FURTHER)?;
    note.join(&more)?;
    Ok(note)
}

/// Prints where a script isn't in its grammar, by its bad token, if that was found. Returns whether it printed a note.
pub fn tell_script<N: Notes>(
    alloc: Global,
    notes: &mut N,
    name: &str,
    text: &[u8],
    found: Result<Option<BadToken>, Memory>,
) -> bool
    ensures { SaysTold (IsNotedFrom kinds.Script script_form found name.now text.now) (N.told notes.old) (N.told notes.new) result }
{
    match found {
        Ok(Some(bad)) => tell_note(notes, script_note(alloc, name, text, bad)),
        _ => false,
    }
}
