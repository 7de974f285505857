ghost use Rattle.std.specs.Prelude.{◌≡◌};
ghost use Rattle.token_forms.specs.Token.{is_word};
ghost use Rattle.token_forms.specs.Words.{any_word, separates, breaks_off, is_the_mark};
ghost use Rattle.token_forms.specs.WordReading.{is_line_start};
ghost use Rattle.token_forms.specs.Reasons.{reason_of};
ghost use Rattle.token_forms.specs.View.{lexeme_of};
ghost use Rattle.token_forms.specs.declared.error.ReadError.TheVariants.{Bad};

use crate::error::ReadError;
use crate::reasons::reason_at;
use crate::token::{Reason, TokenKind};

/// A token as a reader sees it.
#[derive(Clone, Copy, Debug)]
pub struct Seen<'a> {
    /// What it is.
    pub kind: TokenKind,
    /// 1 plus the number of line feeds before its first byte.
    pub line: u64,
    /// The place of its first byte in the text.
    pub from: u64,
    /// Its bytes.
    pub bytes: &'a [u8],
    /// Whether the token before it is the word `delete`, `destroy` or `create`. After these words,
    /// `set` and `table` belong to a part of nft's language that is left out.
    pub behind: bool,
    /// Whether its text is plain: its language leaves out no part of nft's, so no word in it is special
    /// for that.
    pub plain: bool,
}

impl<'a> Seen<'a> {
    /// Whether it is a word.
    pub fn is_word(&self) -> bool
        ensures { result ≡ is_word self.now.kind }
    {
        matches!(self.kind, TokenKind::Word)
    }

    /// Whether it is a line break.
    pub fn is_break(&self) -> bool
        ensures { result ≡ breaks_off (lexeme_of self.now) }
    {
        matches!(self.kind, TokenKind::Break)
    }

    /// Whether it is the mark of this byte.
    pub fn is_mark(&self, byte: u8) -> bool
        ensures { result ≡ is_the_mark byte (lexeme_of self.now) }
    {
        matches!(self.kind, TokenKind::Mark) && self.bytes == [byte].as_slice()
    }

    /// Whether it separates statements: a line break or a `;`.
    pub fn is_separator(&self) -> bool
        ensures { result ≡ separates (lexeme_of self.now) }
    {
        self.is_break() || self.is_mark(b';')
    }

    /// Whether it starts a line of a text with separators. That is a separator, or a word if a
    /// statement may come next.
    pub fn starts_statement_line(&self, next: bool) -> bool
        ensures { result ≡ is_line_start separates any_word next (lexeme_of self.now) }
    {
        self.is_separator() || (next && self.is_word())
    }

    /// Whether it starts a line of a text with line breaks alone. That is a break, or a word if a line
    /// may come next.
    pub fn starts_line_or_break(&self, next: bool) -> bool
        ensures { result ≡ is_line_start breaks_off any_word next (lexeme_of self.now) }
    {
        self.is_break() || (next && self.is_word())
    }

    /// The error of this token, which doesn't fit. Its place asks for words of these sorts.
    pub fn refused(&self, sorts: &[Reason]) -> ReadError
        ensures { result ≡ Bad self.now.line (reason_of (lexeme_of self.now) sorts.now) }
    {
        ReadError::Bad {
            line: self.line,
            reason: reason_at(self, sorts),
        }
    }
}
