//! The note on a file that can't be read.
ghost use Rattle.std.specs.Prelude.{IfOk};
ghost use Rattle.token_notes.specs.Shown.{Begins, name_text};

use crate::explained::FROM_NFT;
use crate::habits::{is_family, is_noun};
use pip_base::FaultKind;
use set_model::Memory;
use std::alloc::Global;
use token_notes::{Explained, Note, explained_note, read_fault_note};

/// What to do in place of naming a file that doesn't exist, if its name is a word of nft or `help`.
fn instead_of(name: &str) -> Option<&'static [u8]> {
    match name {
        "element" | "elements" => Some(
            b"a file's name comes before the set: nft list ruleset > rules.nft; pipapo get --sets rules.nft [FAMILY] TABLE SET VALUE",
        ),
        "help" => Some(b"write 'pipapo help' alone, or a command after it, as: pipapo help run"),
        noun if is_noun(noun) => Some(FROM_NFT),
        family if is_family(family) => Some(
            b"a script's file comes before the set, as: pipapo get SCRIPT [FAMILY] TABLE SET VALUE",
        ),
        _ => None,
    }
}

/// The note on a file that can't be opened or read: its name, and the system's reason. If there is no such file and its name
/// is a word of nft, also what does the same here.
///
/// # Errors
///
/// `Memory` if memory runs out.
pub fn unread_note(alloc: Global, name: &str, kind: FaultKind) -> Result<Note, Memory>
    ensures name { IfOk result (λ note. Begins (name_text name.now) note.bytes.items) }
{
    match instead_of(name) {
        Some(help) if kind == FaultKind::NotFound => {
            let mut said = Explained::new(alloc);
            said.say(b"No such file or directory", help)?;
            explained_note(alloc, name, &said)
        }
        _ => read_fault_note(alloc, name, kind),
    }
}
