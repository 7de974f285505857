//! Hands a note to the notes.
ghost use Rattle.std.specs.Prelude.{◌≡◌, false, IfOk, OnErr};
ghost use Rattle.pip_base.specs.Notes.{Tells};
ghost use Rattle.fault_notes.specs.Told.{MayTell, SaysTold};

use pip_base::Notes;
use set_model::Memory;
use token_notes::Note;

/// Prints a note, and returns whether it did so. It prints nothing if memory ran out for the note.
pub fn tell_note<N: Notes>(notes: &mut N, made: Result<Note, Memory>) -> bool
    ensures tells { IfOk made (λ note. Tells (N.told notes.old) (N.told notes.new) note.bytes.items) }
    ensures told { IfOk made (λ note. MayTell (λ text. text ≡ note.bytes.items) (N.told notes.old) (N.told notes.new)) }
    ensures says { IfOk made (λ note. SaysTold (λ text. text ≡ note.bytes.items) (N.told notes.old) (N.told notes.new) result) }
    ensures nothing { OnErr made (N.told notes.new ≡ N.told notes.old) }
    ensures says_no { OnErr made (result ≡ false) }
{
    match made {
        Ok(note) => {
            notes.tell(note.as_slice());
            true
        }
        Err(_) => false,
    }
}
