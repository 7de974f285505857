//! The note on a text that isn't in its grammar.
ghost use Rattle.std.specs.Prelude.{◌≡◌, ℕ, Bool, true, false, List, IfOk, OnOk, codes};
ghost use Rattle.token_notes.specs.declared.help.TextKind.TheVariants as kinds;
ghost use Rattle.token_notes.specs.OtherKind.{is_other_kind as is_of_other_kind};
ghost use Rattle.token_notes.specs.Shown.{Begins, BeginsAtPlace, place_text};
ghost use Rattle.token_notes.specs.Source.{IsSaid, IsSaidAt, both_lines, source_text};

use key_advice::{KeyPlace, explain_in_key, explain_other_text};
use script_advice::{explain_script, is_caused};
use set_model::{Memory, Schema};
use std::alloc::Global;
use token_forms::{BadToken, Reason};
use token_notes::{Cut, Explained, Note, TextKind, cut_at, is_other_kind, other_kind};

/// The bad token between quotes, or the end that it is.
fn token_note(alloc: Global, bad: BadToken, cut: Cut<'_>) -> Result<Note, Memory> {
    let mut note = Note::new(alloc);
    if matches!(bad.reason, Reason::End) {
        note.say(b"the end of the text")?;
    } else if cut.token.is_empty() {
        note.say(b"the end of the line")?;
    } else {
        note.quoted(cut.token)?;
    }
    Ok(note)
}

/// What is wrong, the line with carets under the token, and what to do.
pub(crate) fn with_source(
    alloc: Global,
    said: &Explained,
    bad: BadToken,
    cut: Cut<'_>,
) -> Result<Note, Memory>
    ensures { IfOk result (λ note. IsSaid (both_lines cut.entry.front.now cut.entry.token.now cut.entry.behind.now) note.bytes.items false) }
{
    let mut note = token_note(alloc, bad, cut)?;
    note.join(&said.wrong)?;
    note.end_line()?;
    note.source_line(cut)?;
    note.say(b"help: ")?;
    note.join(&said.help)?;
    note.end_line()?;
    Ok(note)
}

/// A note that says what kind of text this is instead.
fn told_as(alloc: Global, what: &[u8]) -> Result<Note, Memory>
    ensures { (lines : List ℕ) → IfOk result (λ note. IsSaid lines note.bytes.items true) }
{
    let mut note = Note::new(alloc);
    note.say(what)?;
    note.end_line()?;
    Ok(note)
}

/// What a note says after the place of a script's bad token. The token is in its line `cut`.
fn said_at(alloc: Global, text: &[u8], bad: BadToken, cut: Cut<'_>) -> Result<Note, Memory>
    ensures { IfOk result (λ note. IsSaid (both_lines cut.entry.front.now cut.entry.token.now cut.entry.behind.now) note.bytes.items false) }
{
    let mut said = Explained::new(alloc);
    explain_script(&mut said, text, bad, cut)?;
    with_source(alloc, &said, bad, cut)
}

/// What a note says after the place of the bad token of a script that is no text of another kind.
fn said_of_script(alloc: Global, text: &[u8], bad: BadToken) -> Result<Note, Memory>
    ensures { IfOk result (λ note. IsSaid (source_text text.now bad) note.bytes.items false) }
{
    said_at(alloc, text, bad, cut_at(text, bad))
}

/// What a note says after the place of the bad token of a key that is no text of another kind. The token is in its line
/// `cut`.
fn said_of_key(
    alloc: Global,
    place: KeyPlace,
    schema: &Schema,
    bad: BadToken,
    cut: Cut<'_>,
) -> Result<Note, Memory>
    ensures { IfOk result (λ note. IsSaid (both_lines cut.entry.front.now cut.entry.token.now cut.entry.behind.now) note.bytes.items false) }
{
    let mut said = Explained::new(alloc);
    explain_in_key(&mut said, place, schema, bad, cut)?;
    with_source(alloc, &said, bad, cut)
}

/// What a note says after the place of the bad token of a text beside a script that declares these sets. The
/// text isn't of another kind.
fn said_beside(
    alloc: Global,
    kind: TextKind,
    schema: &Schema,
    text: &[u8],
    bad: BadToken,
) -> Result<Note, Memory>
    ensures { IfOk result (λ note. IsSaid (source_text text.now bad) note.bytes.items false) }
{
    let cut = cut_at(text, bad);
    let mut said = Explained::new(alloc);
    explain_other_text(&mut said, kind, schema, text, bad, cut)?;
    with_source(alloc, &said, bad, cut)
}

/// What a note says after the place of a script's bad token.
fn said_in_script(alloc: Global, text: &[u8], bad: BadToken) -> Result<Note, Memory>
    ensures { IfOk result (λ note. IsSaid (source_text text.now bad) note.bytes.items (is_of_other_kind kinds.Script text.now bad)) }
{
    if is_other_kind(TextKind::Script, text, bad) {
        told_as(alloc, other_kind(TextKind::Script, text, bad))
    } else {
        said_of_script(alloc, text, bad)
    }
}

/// What a note says after the place of the bad token of a text beside a script that declares these sets.
fn said_of_other(
    alloc: Global,
    kind: TextKind,
    schema: &Schema,
    text: &[u8],
    bad: BadToken,
) -> Result<Note, Memory>
    ensures { IfOk result (λ note. IsSaid (source_text text.now bad) note.bytes.items (is_of_other_kind kind text.now bad)) }
{
    if is_other_kind(kind, text, bad) {
        told_as(alloc, other_kind(kind, text, bad))
    } else {
        said_beside(alloc, kind, schema, text, bad)
    }
}

/// A note that begins with the place of a bad token.
pub(crate) fn placed_note(
    alloc: Global,
    name: &str,
    bad: BadToken,
    behind: &Note,
) -> Result<Note, Memory>
    ensures place { IfOk result (λ note. Begins (place_text name.now bad.line bad.column) note.bytes.items) }
    ensures said { (lines : List ℕ) (is_other : Bool) → IsSaid lines behind.now.bytes.items is_other → IfOk result (λ note. IsSaidAt (place_text name.now bad.line bad.column) lines is_other note.bytes.items) }
{
    let mut note = Note::new(alloc);
    note.place(name.as_bytes(), bad.line, bad.column)?;
    note.join(behind)?;
    Ok(note)
}

/// The note on a script that isn't in its grammar: `NAME:LINE:COLUMN: what is wrong`, the line of the
/// script with carets under the bad token, and what could come there or what to do.
///
/// # Errors
///
/// `Memory` if memory runs out.
pub fn bad_script_note(
    alloc: Global,
    name: &str,
    text: &[u8],
    bad: BadToken,
) -> Result<Note, Memory>
    ensures place { IfOk result (λ note. Begins (place_text name.now bad.line bad.column) note.bytes.items) }
    ensures source { IfOk result (λ note. IsSaidAt (place_text name.now bad.line bad.column) (source_text text.now bad) (is_of_other_kind kinds.Script text.now bad) note.bytes.items) }
{
    let behind = said_in_script(alloc, text, bad)?;
    placed_note(alloc, name, bad, &behind)
}

/// The note on a key file, a rules file or a plan that isn't in its grammar, as [`bad_script_note`]. It names the sets
/// that the script declares, and the number and the type of a field.
///
/// # Errors
///
/// `Memory` if memory runs out.
pub fn bad_text_note(
    alloc: Global,
    kind: TextKind,
    schema: &Schema,
    name: &str,
    text: &[u8],
    bad: BadToken,
) -> Result<Note, Memory>
    ensures place { IfOk result (λ note. Begins (place_text name.now bad.line bad.column) note.bytes.items) }
    ensures source { IfOk result (λ note. IsSaidAt (place_text name.now bad.line bad.column) (source_text text.now bad) (is_of_other_kind kind text.now bad) note.bytes.items) }
{
    let behind = said_of_other(alloc, kind, schema, text, bad)?;
    placed_note(alloc, name, bad, &behind)
}

/// Where a note on words begins if no single one of them is at fault.
const AT_FRONT: BadToken = BadToken {
    line: 1,
    column: 1,
    at: 0,
    length: 0,
    reason: Reason::Statement,
};

/// What a note says of words of a `get` that a key file could have, and that name no packet or several.
fn said_of_packets(alloc: Global, words: &[u8]) -> Result<Note, Memory> {
    let (wrong, help): (&[u8], &[u8]) = if words.contains(&b'\n') {
        (
            b"the words have more than one line",
            KeyPlace::Get.for_several(),
        )
    } else {
        (
            b"the words name no packet",
            b"write [FAMILY] TABLE SET VALUE . VALUE ..; a moment in milliseconds comes before the script, as: --at 500",
        )
    };
    let mut note = Note::new(alloc);
    note.say(wrong)?;
    note.end_line()?;
    note.say(b"help: ")?;
    note.say(help)?;
    note.end_line()?;
    Ok(note)
}

/// A note on the words of a `get`, which begins with the place of a bad token.
fn key_note(alloc: Global, bad: BadToken, behind: &Note) -> Result<Note, Memory>
    ensures { IfOk result (λ note. BeginsAtPlace (codes "key") note.bytes.items) }
{
    placed_note(alloc, "key", bad, behind)
}

/// The note on words of a `get` that are no key. It is like [`bad_text_note`] on a line of a key file. Its name is
/// `key`. Without a bad token the words name no packet, or several in lines of their own.
///
/// # Errors
///
/// `Memory` if memory runs out.
pub fn bad_key_note(
    alloc: Global,
    schema: &Schema,
    words: &[u8],
    found: Option<BadToken>,
) -> Result<Note, Memory>
    ensures place { IfOk result (λ note. BeginsAtPlace (codes "key") note.bytes.items) }
{
    match found {
        Some(bad) => {
            let cut = cut_at(words, bad);
            let behind = said_of_key(alloc, KeyPlace::Get, schema, bad, cut)?;
            key_note(alloc, bad, &behind)
        }
        None => {
            let behind = said_of_packets(alloc, words)?;
            key_note(alloc, AT_FRONT, &behind)
        }
    }
}

/// Adds that an earlier error may be the cause, if it may.
fn add_cause(note: &mut Note, is_caused: bool) -> Result<(), Memory>
    ensures { (lines : List ℕ) → IsSaid lines note.old.bytes.items false → OnOk result (IsSaid lines note.new.bytes.items false) }
{
    if !is_caused {
        return Ok(());
    }
    note.say(b"an earlier error may have caused this one")?;
    note.end_line()
}

/// The note on a further bad token of a script, after the statements before it that were refused. `rest` is
/// the script in which these are blanked out, so each of its tokens is at its place of the script. If one of
/// them may be the cause, the note says so.
///
/// # Errors
///
/// `Memory` if memory runs out.
pub fn further_note(
    alloc: Global,
    name: &str,
    text: &[u8],
    rest: &[u8],
    bad: BadToken,
) -> Result<Note, Memory>
    ensures place { IfOk result (λ note. Begins (place_text name.now bad.line bad.column) note.bytes.items) }
    ensures source { IfOk result (λ note. IsSaidAt (place_text name.now bad.line bad.column) (source_text text.now bad) false note.bytes.items) }
{
    let cut = cut_at(text, bad);
    let mut behind = said_at(alloc, rest, bad, cut)?;
    add_cause(&mut behind, is_caused(text, rest, bad, cut.token))?;
    placed_note(alloc, name, bad, &behind)
}

/// The note on a further bad token of a key file beside a script that declares these sets, after the lines before it that
/// were refused.
///
/// # Errors
///
/// `Memory` if memory runs out.
pub fn further_key_note(
    alloc: Global,
    schema: &Schema,
    name: &str,
    text: &[u8],
    bad: BadToken,
) -> Result<Note, Memory>
    ensures place { IfOk result (λ note. Begins (place_text name.now bad.line bad.column) note.bytes.items) }
    ensures source { IfOk result (λ note. IsSaidAt (place_text name.now bad.line bad.column) (source_text text.now bad) false note.bytes.items) }
{
    let cut = cut_at(text, bad);
    let behind = said_of_key(alloc, KeyPlace::File, schema, bad, cut)?;
    placed_note(alloc, name, bad, &behind)
}
