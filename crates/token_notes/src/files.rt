//! The notes on a file that can't be read.
ghost use Rattle.std.specs.Prelude.{IfOk, codes};
ghost use Rattle.token_notes.specs.Shown.{Begins, name_text};

use crate::explained::Explained;
use crate::note::Note;
use pip_base::FaultKind;
use set_model::Memory;
use std::alloc::Global;

/// A note on a file: its name, and the text about it.
fn told_of(alloc: Global, name: &str, said: &Note) -> Result<Note, Memory>
    ensures name { IfOk result (λ note. Begins (name_text name.now) note.bytes.items) }
{
    let mut note = Note::new(alloc);
    note.file(name.as_bytes())?;
    note.join(said)?;
    Ok(note)
}

/// A note on a file with one line.
fn on_file(alloc: Global, name: &str, what: &[u8]) -> Result<Note, Memory>
    ensures name { IfOk result (λ note. Begins (name_text name.now) note.bytes.items) }
{
    let mut said = Note::new(alloc);
    said.say(what)?;
    said.end_line()?;
    told_of(alloc, name, &said)
}

/// A note of two lines under a name: what is wrong, and what to do.
///
/// # Errors
///
/// `Memory` if memory runs out.
pub fn explained_note(alloc: Global, name: &str, said: &Explained) -> Result<Note, Memory>
    ensures name { IfOk result (λ note. Begins (name_text name.now) note.bytes.items) }
{
    let mut lines = Note::new(alloc);
    lines.join(&said.wrong)?;
    lines.end_line()?;
    lines.say(b"help: ")?;
    lines.join(&said.help)?;
    lines.end_line()?;
    told_of(alloc, name, &lines)
}

/// The system's reason for a fault, in the system's words.
fn reason_of(kind: FaultKind) -> &'static [u8] {
    match kind {
        FaultKind::NotFound => b"No such file or directory",
        FaultKind::IsDirectory => b"Is a directory",
        FaultKind::NotPermitted => b"Permission denied",
        FaultKind::NoSpace => b"No space left on device",
        FaultKind::Closed => b"Broken pipe",
        FaultKind::Other => b"it can't be read",
    }
}

/// The note on a standard output that took only a front of the output, or nothing: the system's reason.
///
/// # Errors
///
/// `Memory` if memory runs out.
pub fn output_fault_note(alloc: Global, kind: FaultKind) -> Result<Note, Memory>
    ensures name { IfOk result (λ note. Begins (name_text (codes "pipapo")) note.bytes.items) }
{
    let mut said = Note::new(alloc);
    said.say(b"the standard output failed: ")?;
    said.say(match kind {
        FaultKind::Other => b"it can't be written",
        kind => reason_of(kind),
    })?;
    said.end_line()?;
    told_of(alloc, "pipapo", &said)
}

/// The note on a file that can't be opened or read: its name, and the system's reason.
///
/// # Errors
///
/// `Memory` if memory runs out.
pub fn read_fault_note(alloc: Global, name: &str, kind: FaultKind) -> Result<Note, Memory>
    ensures name { IfOk result (λ note. Begins (name_text name.now) note.bytes.items) }
{
    on_file(alloc, name, reason_of(kind))
}

/// The note on a script that has more sections than `desk` runs: its name, its number of sections, and
/// the limit.
///
/// # Errors
///
/// `Memory` if memory runs out.
pub fn too_many_clerks_note(alloc: Global, name: &str, sections: u64) -> Result<Note, Memory>
    ensures name { IfOk result (λ note. Begins (name_text name.now) note.bytes.items) }
{
    let mut said = Note::new(alloc);
    said.say(b"the script has ")?;
    said.number(sections)?;
    said.say(
        b" sections, and desk runs 17 at most: the first, and one for each of 16 control threads; join some, by leaving lines 'round' out",
    )?;
    said.end_line()?;
    told_of(alloc, name, &said)
}

/// The note on a file that has more bytes than an input file may have: its name, and the limit.
///
/// # Errors
///
/// `Memory` if memory runs out.
pub fn too_large_note(alloc: Global, name: &str) -> Result<Note, Memory>
    ensures name { IfOk result (λ note. Begins (name_text name.now) note.bytes.items) }
{
    on_file(
        alloc,
        name,
        b"a file may have 67108864 bytes (64 MiB) at most",
    )
}
