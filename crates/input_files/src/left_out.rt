//! Notes on the sets that a text beside a script names. A ruleset may have left one out.
ghost use Rattle.std.specs.Prelude.{IfOk, IfSome, false};
ghost use Rattle.token_notes.specs.OtherKind.{is_other_kind as is_of_other_kind};
ghost use Rattle.token_notes.specs.Shown.{Begins, place_text};
ghost use Rattle.token_notes.specs.Source.{IsSaidAt, source_text};

use crate::seen::Skips;
use fault_notes::{bad_text_note, further_key_note};
use set_model::{Memory, Schema};
use std::alloc::Global;
use token_forms::BadToken;
use token_notes::{Note, TextKind, is_other_kind};

/// The sets that a text beside a script may name, and what isn't kept of the script's ruleset.
#[derive(Clone, Copy)]
pub struct ScriptSets<'a> {
    pub schema: &'a Schema,
    pub skipped: &'a Skips,
}

impl Skips {
    /// The note on a bad token of a text, if it names a set that the last ruleset leaves out.
    ///
    /// # Errors
    ///
    /// `Memory` if memory runs out.
    pub fn set_note(
        &self,
        alloc: Global,
        name: &str,
        text: &[u8],
        bad: BadToken,
    ) -> Result<Option<Note>, Memory>
        ensures place { IfOk result (λ found. IfSome found (λ note. Begins (place_text name.now bad.line bad.column) note.bytes.items)) }
        ensures source { IfOk result (λ found. IfSome found (λ note. IsSaidAt (place_text name.now bad.line bad.column) (source_text text.now bad) false note.bytes.items)) }
    {
        match &self.ruleset {
            Some(ruleset) => ruleset.set_note(alloc, name, text, bad),
            None => Ok(None),
        }
    }
}

/// The note on the bad token of a text beside a script.
pub fn text_note(
    alloc: Global,
    kind: TextKind,
    sets: ScriptSets<'_>,
    name: &str,
    text: &[u8],
    bad: BadToken,
) -> Result<Note, Memory>
    ensures place { IfOk result (λ note. Begins (place_text name.now bad.line bad.column) note.bytes.items) }
    ensures source { IfOk result (λ note. IsSaidAt (place_text name.now bad.line bad.column) (source_text text.now bad) (is_of_other_kind kind text.now bad) note.bytes.items) }
{
    if is_other_kind(kind, text, bad) {
        return bad_text_note(alloc, kind, sets.schema, name, text, bad);
    }
    match sets.skipped.set_note(alloc, name, text, bad)? {
        Some(note) => Ok(note),
        None => bad_text_note(alloc, kind, sets.schema, name, text, bad),
    }
}

/// The note on a further bad token of a key file.
pub fn further_text_note(
    alloc: Global,
    sets: ScriptSets<'_>,
    name: &str,
    text: &[u8],
    bad: BadToken,
) -> Result<Note, Memory>
    ensures place { IfOk result (λ note. Begins (place_text name.now bad.line bad.column) note.bytes.items) }
    ensures source { IfOk result (λ note. IsSaidAt (place_text name.now bad.line bad.column) (source_text text.now bad) false note.bytes.items) }
{
    match sets.skipped.set_note(alloc, name, text, bad)? {
        Some(note) => Ok(note),
        None => further_key_note(alloc, sets.schema, name, text, bad),
    }
}
