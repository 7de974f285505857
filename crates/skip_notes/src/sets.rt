//! The note on a set that a ruleset leaves out, in a text that names it.
ghost use Rattle.std.specs.Prelude.{IfOk, IfSome, false};
ghost use Rattle.token_notes.specs.Shown.{Begins, place_text};
ghost use Rattle.token_notes.specs.Source.{IsSaidAt, source_text};

use crate::line::{append_place, append_reason};
use fault_notes::{LeftOut, left_out_note, names_set_at};
use ruleset_sets::{Skipped, Skips};
use set_model::Memory;
use std::alloc::Global;
use token_forms::{BadToken, Reason};
use token_notes::Note;

/// A ruleset that was read, and what isn't kept of it.
#[derive(Drop)]
pub struct SievedRuleset {
    name: String,
    text: Vec<u8>,
    skips: Skips,
}

impl SievedRuleset {
    /// The ruleset with this name and this text, of which this isn't kept.
    ///
    /// # Errors
    ///
    /// `Memory` if memory runs out.
    pub fn new(
        alloc: Global,
        name: &str,
        text: Vec<u8>,
        skips: Skips,
    ) -> Result<SievedRuleset, Memory> {
        let name = String::from_str(alloc, name)?;
        Ok(SievedRuleset { name, text, skips })
    }

    /// The set that is left out and that a bad token names, if there is one.
    fn left_out(&self, text: &[u8], bad: BadToken) -> Option<Skipped> {
        if bad.reason != Reason::Set {
            return None;
        }
        for skip in self.skips.as_slice() {
            if skip.why.leaves_out()
                && names_set_at(text, bad, self.text.as_slice(), skip.at.from)
            {
                return Some(*skip);
            }
        }
        None
    }

    /// The note on a set that is left out for the reason of this item.
    fn note_on(
        &self,
        alloc: Global,
        name: &str,
        text: &[u8],
        bad: BadToken,
        skip: &Skipped,
    ) -> Result<Note, Memory>
        ensures place { IfOk result (λ note. Begins (place_text name.now bad.line bad.column) note.bytes.items) }
        ensures source { IfOk result (λ note. IsSaidAt (place_text name.now bad.line bad.column) (source_text text.now bad) false note.bytes.items) }
    {
        let ruleset = self.text.as_slice();
        let mut why = Vec::new(alloc);
        append_reason(ruleset, skip.why, &mut why)?;
        let token = skip.why.token().unwrap_or(skip.at);
        let mut place = Vec::new(alloc);
        append_place(self.name.as_bytes(), ruleset, &token, &mut place)?;
        let set = LeftOut {
            why: why.as_slice(),
            place: place.as_slice(),
        };
        left_out_note(alloc, name, text, bad, set)
    }

    /// The note on a bad token of a text, if it names a set that the ruleset leaves out.
    ///
    /// # Errors
    ///
    /// `Memory` if memory runs out.
    pub fn set_note(
        &self,
        alloc: Global,
        name: &str,
        text: &[u8],
        bad: BadToken,
    ) -> Result<Option<Note>, Memory>
        ensures place { IfOk result (λ found. IfSome found (λ note. Begins (place_text name.now bad.line bad.column) note.bytes.items)) }
        ensures source { IfOk result (λ found. IfSome found (λ note. IsSaidAt (place_text name.now bad.line bad.column) (source_text text.now bad) false note.bytes.items)) }
    {
        match self.left_out(text, bad) {
            Some(skip) => {
                let note = self.note_on(alloc, name, text, bad, &skip)?;
                Ok(Some(note))
            }
            None => Ok(None),
        }
    }
}
