//! The note on what isn't kept of a ruleset.
ghost use Rattle.std.specs.Prelude.{◌≡◌, ◌++◌, [], All, OnOk, IfOk};
ghost use Rattle.token_notes.specs.Shown.{IsNoteByte};
ghost use Rattle.skip_notes.specs.Skips.{skip_line, skips_text};

use crate::line::append_said;
use ruleset_sets::Skipped;
use set_model::Memory;
use std::alloc::Global;
use token_notes::Note;

/// A text for a person, whole lines. It has only printable ASCII and line feeds.
#[derive(Drop)]
pub struct SkipsNote {
    bytes: Vec<u8>,
    ghost quiet: { All IsNoteByte bytes.items },
}

impl SkipsNote {
    /// An empty note. It takes no memory.
    pub fn new(alloc: Global) -> SkipsNote
        ensures { result.bytes.items ≡ [] }
    {
        SkipsNote {
            bytes: Vec::new(alloc),
        }
    }

    /// The note's bytes: whole lines.
    pub fn as_slice(&self) -> &[u8]
        ensures bytes { result.now ≡ self.now.bytes.items }
        ensures quiet { All IsNoteByte result.now }
    {
        self.bytes.as_slice()
    }

    /// Adds the lines of another note.
    ///
    /// # Errors
    ///
    /// `Memory` if memory runs out.
    pub fn join(&mut self, other: &SkipsNote) -> Result<(), Memory>
        ensures { OnOk result (self.new.bytes.items ≡ self.old.bytes.items ++ other.now.bytes.items) }
    {
        self.append(other.as_slice())
    }

    fn append(&mut self, bytes: &[u8]) -> Result<(), Memory>
        requires { All IsNoteByte bytes.now }
        ensures { OnOk result (self.new.bytes.items ≡ self.old.bytes.items ++ bytes.now) }
    {
        self.bytes.extend_from_slice(bytes)?;
        Ok(())
    }

    /// Adds the line on an item or a part.
    #[tactic(auto, using(std::proofs::Common::append_assoc))]
    fn add_skip(
        &mut self,
        alloc: Global,
        name: &[u8],
        text: &[u8],
        skip: &Skipped,
    ) -> Result<(), Memory>
        ensures { OnOk result (self.new.bytes.items ≡ self.old.bytes.items ++ skip_line name.now text.now skip.now) }
    {
        let mut said = Vec::new(alloc);
        append_said(name, text, skip, &mut said)?;
        let mut line = Note::new(alloc);
        line.say(said.as_slice())?;
        self.append(line.as_slice())?;
        self.append(b"\n")
    }

    /// Adds the lines on all items and parts, in their order.
    fn add_skips(
        &mut self,
        alloc: Global,
        name: &[u8],
        text: &[u8],
        skips: &[Skipped],
    ) -> Result<(), Memory>
        ensures { OnOk result (self.new.bytes.items ≡ self.old.bytes.items ++ skips_text name.now text.now skips.now) }
    {
        for skip in skips {
            match self.add_skip(alloc, name, text, skip) {
                Ok(()) => {}
                Err(_) => return Err(Memory),
            }
        }
        Ok(())
    }
}

/// The note on what isn't kept of a ruleset with this text. It has a line for each item and part, with its
/// place and the reason.
///
/// # Errors
///
/// `Memory` if memory runs out.
pub fn skips_note(
    alloc: Global,
    name: &str,
    text: &[u8],
    skips: &[Skipped],
) -> Result<SkipsNote, Memory>
    ensures { IfOk result (λ note. note.bytes.items ≡ skips_text name.now text.now skips.now) }
{
    let mut note = SkipsNote::new(alloc);
    note.add_skips(alloc, name.as_bytes(), text, skips)?;
    Ok(note)
}
