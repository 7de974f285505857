//! Prints notes on files that failed. Each call returns whether it printed one: it doesn't if memory runs out for the note.
ghost use Rattle.token_notes.specs.Shown.{Begins, byte_text, name_text};
ghost use Rattle.fault_notes.specs.Told.{SaysTold};
ghost use Rattle.input_files.specs.Noted.{IsPlacedBy};

use crate::left_out::{ScriptSets, text_note};
use fault_notes::{capture_note, tell_note};
use pcap_keys::CaptureReason;
use pip_base::{FaultKind, Notes};
use set_model::Memory;
use std::alloc::Global;
use token_forms::BadToken;
use token_notes::{TextKind, too_large_note};
use word_notes::unread_note;

/// Prints where a text beside a script isn't in its grammar under the script's sets, by its bad token, if that was found.
pub fn tell_bad<N: Notes>(
    alloc: Global,
    notes: &mut N,
    kind: TextKind,
    sets: ScriptSets<'_>,
    name: &str,
    text: &[u8],
    found: Result<Option<BadToken>, Memory>,
) -> bool
    ensures { SaysTold (IsPlacedBy kind found name.now text.now) (N.told notes.old) (N.told notes.new) result }
{
    match found {
        Ok(Some(bad)) => tell_note(notes, text_note(alloc, kind, sets, name, text, bad)),
        _ => false,
    }
}

/// Prints at which byte a file is no capture.
pub fn tell_capture<N: Notes>(
    alloc: Global,
    notes: &mut N,
    name: &str,
    file: &[u8],
    byte: u64,
    reason: CaptureReason,
) -> bool
    ensures { SaysTold (Begins (byte_text name.now byte)) (N.told notes.old) (N.told notes.new) result }
{
    tell_note(notes, capture_note(alloc, name, file, byte, reason))
}

/// Prints why a file can't be opened or read.
pub fn tell_read_fault<N: Notes>(alloc: Global, notes: &mut N, name: &str, kind: FaultKind) -> bool
    ensures { SaysTold (Begins (name_text name.now)) (N.told notes.old) (N.told notes.new) result }
{
    tell_note(notes, unread_note(alloc, name, kind))
}

/// Prints that a file has too many bytes.
pub fn tell_too_large<N: Notes>(alloc: Global, notes: &mut N, name: &str) -> bool
    ensures { SaysTold (Begins (name_text name.now)) (N.told notes.old) (N.told notes.new) result }
{
    tell_note(notes, too_large_note(alloc, name))
}
