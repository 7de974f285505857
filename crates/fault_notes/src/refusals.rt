//! The notes on refused changes.
ghost use Rattle.std.specs.Prelude.{◌≡◌, ◌++◌, List, ℕ, OnOk, IfOk};
ghost use Rattle.fault_notes.specs.Refusals.{AreRefusalLines, IsRefusalLine, IsRefusalsNote, failure_text, more_words as words_on_more, rest_text};

use crate::refused::{Met, RefusedChange, RefusedChanges};
use addr_text::{read_interval, write_interval};
use set_model::{Interval, Kind, Memory, Script, Step, Why, is_good};
use std::alloc::Global;
use text_pieces::Piece::{Number, Word};
use text_pieces::{append, append_pieces};
use token_forms::{Token, TokenKind, Tokens};
use token_notes::{Note, last_line};

/// A change of an element: its line, and the element's intervals.
#[derive(Clone, Copy)]
struct Change<'a> {
    line: u64,
    set: u32,
    parts: &'a [Interval],
}

/// A step as a change of an element.
fn change_of(step: &Step) -> Option<Change<'_>> {
    match step {
        Step::Change {
            line,
            set,
            element,
            ..
        } => Some(Change {
            line: *line,
            set: *set,
            parts: element.parts.as_slice(),
        }),
        _ => None,
    }
}

/// The change that a refusal is about, and the addition that made the element in its way. Neither is there if they are of
/// another line or another set.
fn spoken_of<'a>(
    refused: RefusedChange,
    met: Option<Met<'a>>,
) -> (Option<Change<'a>>, Option<Change<'a>>) {
    let Some(met) = met else {
        return (None, None);
    };
    match change_of(met.change) {
        Some(change) if change.line == refused.line && change.set == refused.set => {
            (Some(change), met.older.and_then(|step| change_of(step)))
        }
        _ => (None, None),
    }
}

/// Appends intervals, as a script has them.
fn write_intervals(kinds: &[Kind], parts: &[Interval], out: &mut Vec<u8>) -> Result<(), Memory> {
    let mut separator: &[u8] = b"";
    for (kind, part) in kinds.iter().zip(parts) {
        append(separator, out)?;
        if is_good(*kind, part) {
            write_interval(*kind, *part, out)?;
        }
        separator = b" . ";
    }
    Ok(())
}

/// Whether a token is a word that means an interval.
fn means(text: &[u8], token: Token, kind: Kind, part: Interval) -> bool {
    match text.get(token.from as usize..token.to as usize) {
        Some(word) => {
            matches!(token.kind, TokenKind::Word) && read_interval(kind, word) == Ok(part)
        }
        None => false,
    }
}

/// Whether the words from a token on, with `.` between them, mean these intervals.
fn begins_at(text: &[u8], from: u64, kinds: &[Kind], parts: &[Interval]) -> bool {
    let Some(rest) = text.get(from as usize..) else {
        return false;
    };
    let mut tokens = Tokens::new(rest);
    for (kind, part) in kinds.iter().zip(parts) {
        match tokens.next() {
            Some(token) if means(rest, token, *kind, *part) => {}
            _ => return false,
        }
        let _ = tokens.next();
    }
    true
}

/// The column of the first element in a line that has these intervals.
fn column_of(text: &[u8], line: u64, kinds: &[Kind], parts: &[Interval]) -> Option<u64> {
    let (kind, part) = (*kinds.first()?, *parts.first()?);
    for token in Tokens::new(text) {
        if token.line > line {
            return None;
        }
        if token.line == line
            && means(text, token, kind, part)
            && begins_at(text, token.from, kinds, parts)
        {
            let before = last_line(text.get(..token.from as usize)?);
            return Some((before.len() as u64).saturating_add(1));
        }
    }
    None
}

/// What a line says of a refused change if it doesn't name the element in the way.
fn alone(why: Why) -> &'static [u8] {
    match why {
        Why::Overlap { .. } => b" overlaps an element that is there",
        Why::Exists { .. } => b" exists already",
        Why::Full => b" doesn't fit: the set has as many elements as it may have",
        Why::RulesFull { .. } => b" doesn't fit: a field would have more than 1048576 rules",
        Why::Missing => b" isn't in the set",
    }
}

/// Appends why a change was refused, with the element in its way and the line of that one.
fn write_older(
    kinds: &[Kind],
    why: Why,
    older: Change<'_>,
    out: &mut Vec<u8>,
) -> Result<(), Memory> {
    if matches!(why, Why::Overlap { .. }) {
        append(b" overlaps ", out)?;
        write_intervals(kinds, older.parts, out)?;
    } else {
        append(alone(why), out)?;
    }
    append_pieces(&[Word(b" (line "), Number(older.line), Word(b")")], out)
}

/// Appends the words on a refused change, and returns its column. `text` is the script's.
fn write_change(
    text: &[u8],
    script: &Script,
    refused: RefusedChange,
    met: Option<Met<'_>>,
    out: &mut Vec<u8>,
) -> Result<u64, Memory> {
    let Some(decl) = script.schema.as_slice().get(refused.set as usize) else {
        return Ok(1);
    };
    let kinds = decl.kinds.as_slice();
    let (change, older) = spoken_of(refused, met);
    let column = match change {
        Some(change) => {
            write_intervals(kinds, change.parts, out)?;
            column_of(text, change.line, kinds, change.parts).unwrap_or(1)
        }
        None => {
            append(b"an element of this line", out)?;
            1
        }
    };
    match older {
        Some(older) => write_older(kinds, refused.why, older, out)?,
        None => append(alone(refused.why), out)?,
    }
    Ok(column)
}

/// Adds a line: a place in the script, and words.
fn add_line(
    note: &mut Note,
    name: &[u8],
    line: u64,
    column: u64,
    words: &[u8],
) -> Result<(), Memory>
    ensures { OnOk result ((text : List ℕ) × IsRefusalLine name.now line text × (note.new.bytes.items ≡ note.old.bytes.items ++ text)) }
{
    note.place(name, line, column)?;
    note.say(words)?;
    note.end_line()
}

/// Adds the line on a refused change.
fn add_change(
    note: &mut Note,
    alloc: Global,
    name: &[u8],
    text: &[u8],
    script: &Script,
    refused: RefusedChange,
    met: Option<Met<'_>>,
) -> Result<(), Memory>
    ensures { OnOk result ((line : List ℕ) × IsRefusalLine name.now refused.line line × (note.new.bytes.items ≡ note.old.bytes.items ++ line)) }
{
    let mut words = Vec::new(alloc);
    let column = write_change(text, script, refused, met, &mut words)?;
    add_line(note, name, refused.line, column, words.as_slice())
}

/// Adds the lines on refused changes, in their order, each with what it met.
fn add_changes(
    note: &mut Note,
    alloc: Global,
    name: &[u8],
    text: &[u8],
    script: &Script,
    changes: &[RefusedChange],
    met: &[Met<'_>],
) -> Result<(), Memory>
    ensures { OnOk result ((lines : List ℕ) × AreRefusalLines name.now changes.now lines × (note.new.bytes.items ≡ note.old.bytes.items ++ lines)) }
{
    let mut place = 0usize;
    for change in changes {
        add_change(
            note,
            alloc,
            name,
            text,
            script,
            *change,
            met.get(place).copied(),
        )?;
        place = place.saturating_add(1);
    }
    Ok(())
}

/// The words after the count of further refused changes.
fn more_words(count: u64) -> &'static [u8]
    ensures { result.now ≡ words_on_more count }
{
    if count == 1 {
        b" more change is refused"
    } else {
        b" more changes are refused"
    }
}

/// Adds how many refused changes have no line of their own, if there are any.
fn add_rest(note: &mut Note, name: &[u8], count: u64) -> Result<(), Memory>
    ensures { OnOk result (note.new.bytes.items ≡ note.old.bytes.items ++ rest_text name.now count) }
{
    if count == 0 {
        return Ok(());
    }
    note.file(name)?;
    note.number(count)?;
    note.say(more_words(count))?;
    note.end_line()
}

/// Adds that the last transaction failed, if it did.
fn add_failure(note: &mut Note, name: &[u8], failed: bool) -> Result<(), Memory>
    ensures { OnOk result (note.new.bytes.items ≡ note.old.bytes.items ++ failure_text name.now failed) }
{
    if !failed {
        return Ok(());
    }
    note.file(name)?;
    note.say(b"the last transaction failed, so this shows the generation before it")?;
    note.end_line()
}

/// The note on a run with refused changes. `text` is the script's text. `script` has its steps in the order in which
/// they were done.
///
/// For each of the first changes it has a line with the change's place and element, and the element in its way with
/// that one's line. Then it says how many more changes are refused, and that the last transaction failed if it did.
///
/// # Errors
///
/// `Memory` if memory runs out.
pub fn refusals_note(
    alloc: Global,
    name: &str,
    text: &[u8],
    script: &Script,
    changes: RefusedChanges<'_>,
) -> Result<Note, Memory>
    ensures { IfOk result (λ note. IsRefusalsNote name.now changes.entry.first.now changes.entry.count changes.entry.failed note.bytes.items) }
{
    let name = name.as_bytes();
    let mut note = Note::new(alloc);
    add_changes(
        &mut note,
        alloc,
        name,
        text,
        script,
        changes.first,
        changes.met,
    )?;
    let more = changes.count.saturating_sub(changes.first.len() as u64);
    add_rest(&mut note, name, more)?;
    add_failure(&mut note, name, changes.failed)?;
    Ok(note)
}
