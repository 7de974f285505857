//! Notes on tokens that aren't bad.
ghost use Rattle.std.specs.Prelude.{◌≡◌, ◌≤◌, ◌++◌, OnOk, length, take, reverse, not};
ghost use Rattle.std.specs.List.{prefix_len};
ghost use Rattle.token_forms.specs.Bytes.{is_line_feed};
ghost use Rattle.token_forms.specs.BadTokens.{column_at};
ghost use Rattle.token_notes.specs.Marked.{marked_text, shown_line, token_at};

use crate::note::Note;
use crate::source::{cut_at, first_of};
use set_model::Memory;
use token_forms::{BadToken, Reason};

/// A token of a text, which a note marks.
#[derive(Clone, Copy, Debug, PartialEq, Eq)]
pub struct Marked {
    /// The place of its first byte in the text, from 0.
    pub at: u64,
    /// How many bytes it has.
    pub length: u64,
    /// 1 plus the number of line feeds before its first byte.
    pub line: u64,
}

/// How many bytes follow the last line feed, or all if there is none.
fn last_line(text: &[u8]) -> usize
    ensures run { result ≡ prefix_len (λ b. not (is_line_feed b)) (reverse text.now) }
    ensures within { result ≤ length text.now }
{
    text.iter().rev().take_while(|b| **b != b'\n').count()
}

/// The column of a place.
fn column(text: &[u8], at: u64) -> u64
    ensures { result ≡ column_at text.now at }
{
    1 + last_line(first_of(text, at as usize)) as u64
}

/// The token, as its line is shown.
fn token_of(text: &[u8], mark: Marked) -> BadToken
    ensures { result ≡ token_at text.now mark }
{
    BadToken {
        at: mark.at,
        length: mark.length,
        line: mark.line,
        column: column(text, mark.at),
        reason: Reason::Statement,
    }
}

impl Note {
    /// Adds words on a line of their own, with each byte as it is shown.
    ///
    /// # Errors
    ///
    /// `Memory` if memory runs out.
    #[tactic(auto, using(std::proofs::Common::append_assoc))]
    pub fn add_line(&mut self, words: &[u8]) -> Result<(), Memory>
        ensures { OnOk result (self.new.bytes.items ≡ self.old.bytes.items ++ shown_line words.now) }
    {
        self.say(words)?;
        self.end_line()
    }

    /// Adds the place of a token in a text of this name, words on it, and its line with carets under it.
    ///
    /// # Errors
    ///
    /// `Memory` if memory runs out.
    #[tactic(auto, using(std::proofs::Common::append_assoc))]
    pub fn add_marked(
        &mut self,
        name: &[u8],
        text: &[u8],
        mark: Marked,
        words: &[u8],
    ) -> Result<(), Memory>
        ensures { OnOk result (self.new.bytes.items ≡ self.old.bytes.items ++ marked_text name.now text.now mark words.now) }
    {
        let token = token_of(text, mark);
        self.place(name, token.line, token.column)?;
        self.add_line(words)?;
        self.source_line(cut_at(text, token))
    }
}
