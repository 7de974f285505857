//! Says that a script has more errors than are shown.
ghost use Rattle.std.specs.Prelude.{◌≡◌, IfOk};
ghost use Rattle.fault_notes.specs.Hidden.{hidden_text};

use set_model::Memory;
use std::alloc::Global;
use token_notes::Note;

/// The line after the last error of a script that is shown, if there are more: `NAME: ` and that they aren't shown.
///
/// # Errors
///
/// `Memory` if memory runs out.
pub fn hidden_note(alloc: Global, name: &str) -> Result<Note, Memory>
    ensures { IfOk result (λ note. note.bytes.items ≡ hidden_text name.now) }
{
    let mut note = Note::new(alloc);
    note.file(name.as_bytes())?;
    note.say(b"further errors aren't shown")?;
    note.end_line()?;
    Ok(note)
}
