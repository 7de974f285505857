//! Prints where a key file isn't in its form: its bad token, and those of the lines after it.
ghost use Rattle.std.specs.Prelude.{◌≤◌, length, IfOk};
ghost use Rattle.token_notes.specs.declared.help.TextKind.TheVariants as kinds;
ghost use Rattle.fault_notes.specs.Told.{SaysTold};
ghost use Rattle.key_file.specs.Keys.{key_file as key_form};
ghost use Rattle.set_script.specs.Limits.{most_sets};
ghost use Rattle.input_files.specs.Noted.{AreFurther, IsNoteFrom, IsNotedFrom};

use crate::left_out::{ScriptSets, further_text_note, text_note};
use crate::script_told::{MOST_FURTHER, MOST_READ_AGAIN};
use fault_notes::{hidden_note, tell_note};
use key_file::bad_token;
use pip_base::Notes;
use script_advice::without_key_line;
use set_model::Memory;
use std::alloc::Global;
use token_forms::BadToken;
use token_notes::{Note, TextKind, is_other_kind};

/// The notes on the bad tokens after this one, at most so many, and the line that says that there are more, if
/// there are. Each is the bad token of the key file without the lines of those before it. In `rest` these are
/// blanked out, except for this one's.
#[tactic(auto, using(crate::proofs::Telling::none_further))]
fn further_keys(
    alloc: Global,
    sets: ScriptSets<'_>,
    name: &str,
    text: &[u8],
    rest: &[u8],
    bad: BadToken,
    most: u64,
) -> Result<Note, Memory>
    requires { length sets.schema.now ≤ most_sets }
    ensures { IfOk result (λ notes. AreFurther (key_form sets.entry.schema.now) name.now text.now most rest.now notes.bytes.items) }
{
    let left = without_key_line(alloc, rest, bad.at)?;
    let bytes = left.as_slice();
    let found = bad_token(alloc, sets.schema, bytes)?;
    match found {
        Some(next) if next.at > bad.at => {
            if most == 0 {
                return hidden_note(alloc, name);
            }
            let mut notes = further_text_note(alloc, sets, name, text, next)?;
            let more = further_keys(alloc, sets, name, text, bytes, next, most - 1)?;
            notes.join(&more)?;
            Ok(notes)
        }
        _ => Ok(Note::new(alloc)),
    }
}

/// The note on a key file that isn't in its form, on its bad token and on further ones. A long file isn't read again.
#[tactic(auto, using(crate::proofs::Telling::first_alone))]
fn keys_note(
    alloc: Global,
    sets: ScriptSets<'_>,
    name: &str,
    text: &[u8],
    bad: BadToken,
) -> Result<Note, Memory>
    requires { length sets.schema.now ≤ most_sets }
    ensures { IfOk result (λ note. IsNoteFrom kinds.Keys (key_form sets.entry.schema.now) name.now text.now bad note.bytes.items) }
{
    let mut note = text_note(alloc, TextKind::Keys, sets, name, text, bad)?;
    if text.len() > MOST_READ_AGAIN {
        return Ok(note);
    }
    if is_other_kind(TextKind::Keys, text, bad) {
        return Ok(note);
    }
    let more = further_keys(alloc, sets, name, text, text, bad, MOST_FURTHER)?;
    note.join(&more)?;
    Ok(note)
}

/// Prints where a key file isn't in its form under a script's sets, by its bad token, if that was found. Returns whether it
/// printed a note.
pub fn tell_keys<N: Notes>(
    alloc: Global,
    notes: &mut N,
    sets: ScriptSets<'_>,
    name: &str,
    text: &[u8],
    found: Result<Option<BadToken>, Memory>,
) -> bool
    requires { length sets.schema.now ≤ most_sets }
    ensures { SaysTold (IsNotedFrom kinds.Keys (key_form sets.entry.schema.now) found name.now text.now) (N.told notes.old) (N.told notes.new) result }
{
    match found {
        Ok(Some(bad)) => tell_note(notes, keys_note(alloc, sets, name, text, bad)),
        _ => false,
    }
}
