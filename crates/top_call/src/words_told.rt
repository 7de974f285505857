//! The note for a person on words that are no command.
ghost use Rattle.std.specs.Prelude.{codes};
ghost use Rattle.token_notes.specs.Shown.{Begins, name_text};
ghost use Rattle.fault_notes.specs.Told.{SaysTold};

use fault_notes::tell_note;
use pip_base::Notes;
use std::alloc::Global;
use word_notes::words_note;

/// Writes why words are no command, and returns whether it did so. It writes nothing if memory runs out for that.
pub fn tell_words<N: Notes>(alloc: Global, notes: &mut N, words: &[String]) -> bool
    ensures { SaysTold (Begins (name_text (codes "pipapo"))) (N.told notes.old) (N.told notes.new) result }
{
    tell_note(notes, words_note(alloc, words))
}
