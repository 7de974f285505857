//! Explains to a person why words are no command, on the standard error.
//!
//! The words `run allow.nft packets.keys --threads 17` are no command. The note on them says what is wrong
//! with the first word that doesn't fit, and what to do:
//!
//!     pipapo: '17' isn't a number of packet threads
//!     help: write a number from 1 to 16
//!
//! The words are read once, from the first to the last ([`words_note`]). What a command takes is read in
//! the first line of its page of help, so no form is written down a second time. A misspelt command or
//! option is compared with those that there are: `lits` gives `did you mean 'list'?`. Words that nft or another
//! program takes get what does the same here: `-f x.nft` gives `pipapo list x.nft`. So does a file that is missing, if its
//! name is a word of nft ([`unread_note`]): `list ruleset` gives `nft list ruleset > rules.nft`.
//!
//! It is proved that a note begins with `pipapo: `. Tests check the words after it
//! (`checks/scripts/mistakes.py`).
//!
//! **Theory:** docs/formats.md, "The standard error".
#![tactic(auto)]

mod explained;
mod fault;
mod form;
mod habits;
mod missing;
mod seen;

ghost use Rattle.std.specs.Prelude.{codes, IfOk};
ghost use Rattle.token_notes.specs.Shown.{Begins, name_text};

use crate::explained::explain;
use crate::fault::fault_of;
pub use missing::unread_note;
use set_model::Memory;
use std::alloc::Global;
use token_notes::{Explained, Note, explained_note};

/// The note on words that are no command: what is wrong with the first word that doesn't fit, or what is
/// missing after the last one, and what to do.
///
/// # Errors
///
/// `Memory` if memory runs out.
pub fn words_note(alloc: Global, words: &[String]) -> Result<Note, Memory>
    ensures name { IfOk result (λ note. Begins (name_text (codes "pipapo")) note.bytes.items) }
{
    let mut said = Explained::new(alloc);
    explain(&mut said, fault_of(words))?;
    explained_note(alloc, "pipapo", &said)
}
