ghost use Rattle.std.specs.Prelude.{◌≡◌, ◌∷◌, [], IsNone, IfSome, IfOk, IfErr, OnErr};
ghost use Rattle.token_forms.specs.declared.token.Reason.TheVariants.{Statement};
ghost use Rattle.token_forms.specs.declared.error.ReadError.TheVariants.{Bad, Memory};
ghost use Rattle.token_forms.specs.TextTokens.{text_tokens, plain_tokens, tokens_by, is_change_word};
ghost use Rattle.token_forms.specs.View.{lexeme_of};
ghost use Rattle.token_forms.specs.Words.{inside_quotes, is_name, separates, breaks_off};

use crate::error::{ReadError, short};
use crate::lexer::{Lexer, Spelled};
use crate::seen::Seen;
use crate::token::TokenKind;
use std::marker::Model;

/// Reads a text token by token, and takes no memory. Contracts see it as the list of the tokens that
/// are left.
///
/// Its methods that read a part of a form take tokens as long as they fit. They return the error of the
/// first token that doesn't fit. No contract says what is left after an error, unless a clause of the
/// method does.
#[derive(Drop)]
pub struct Reader<'a> {
    head: Option<Spelled<'a>>,
    tokens: Lexer<'a>,
    behind: bool,
    plain: bool,
}

impl<'a> Model for Reader<'a> {
    ghost use Rattle.std.specs.Prelude.{List, ◌≡◌, [], IsNone};
    ghost use Rattle.token_forms.specs.Token.{Lexeme};
    ghost use Rattle.token_forms.specs.View.{with_head};
    ghost use Rattle.token_forms.specs.TextTokens.{linked};

    ghost Value = { List Lexeme };

    ghost view = { λ a. linked a.plain a.behind (with_head a.head a.tokens) };

    ghost invariant = { λ a. IsNone a.head → a.tokens ≡ [] };
}

fn is_a_change_word(t: &Spelled) -> bool
    ensures { result ≡ is_change_word t.now.kind t.now.bytes.now }
{
    matches!(t.kind, TokenKind::Word)
        && (t.bytes == b"delete".as_slice()
            || t.bytes == b"destroy".as_slice()
            || t.bytes == b"create".as_slice())
}

impl<'a> Reader<'a> {
    ghost use Rattle.token_forms.specs.View.{IsFirst};
    ghost use Rattle.token_forms.specs.Gives.{Gives, Refuses};
    ghost use Rattle.token_forms.specs.Reading.{Read, nowhere_read, begins_with};
    ghost use Rattle.token_forms.specs.WordReading as reading;

    /// A reader at the first token of a text in nft's language.
    pub fn new(text: &'a [u8]) -> Self
        ensures { result ≡ text_tokens text.now }
    {
        Reader::at_first(text, false)
    }

    /// A reader at the first token of a plain text, whose language leaves out no part of nft's. No word
    /// in it is special for that.
    pub fn plain(text: &'a [u8]) -> Self
        ensures { result ≡ plain_tokens text.now }
    {
        Reader::at_first(text, true)
    }

    /// A reader at the first token of a text. `plain` says whether the text is plain or in nft's
    /// language.
    pub fn at_first(text: &'a [u8], plain: bool) -> Self
        ensures { result ≡ tokens_by plain text.now }
    {
        let mut tokens = Lexer::new(text);
        let head = tokens.next_token();
        Reader {
            head,
            tokens,
            behind: false,
            plain,
        }
    }

    /// The next token, which stays; `None` after the end.
    pub fn peek(&self) -> Option<Seen<'a>>
        ensures { IsFirst result self.now }
    {
        match self.head {
            None => None,
            Some(t) => Some(Seen {
                kind: t.kind,
                line: t.line,
                from: t.from,
                bytes: t.bytes,
                behind: self.behind,
                plain: self.plain,
            }),
        }
    }

    /// Takes the next token; `None` after the end.
    pub fn take(&mut self) -> Option<Seen<'a>>
        ensures none { IsNone result → (self.old ≡ []) × (self.new ≡ []) }
        ensures some { IfSome result (λ t. self.old ≡ lexeme_of t ∷ self.new) }
    {
        let head = self.head;
        let behind = self.behind;
        match head {
            None => None,
            Some(t) => {
                self.head = self.tokens.next_token();
                self.behind = is_a_change_word(&t);
                Some(Seen {
                    kind: t.kind,
                    line: t.line,
                    from: t.from,
                    bytes: t.bytes,
                    behind,
                    plain: self.plain,
                })
            }
        }
    }

    /// Takes the next token, which a form asks for.
    ///
    /// # Errors
    /// After the end, the error of a text that is too short.
    pub fn next(&mut self) -> Result<Seen<'a>, ReadError>
        ensures some { IfOk result (λ t. self.old ≡ lexeme_of t ∷ self.new) }
        ensures none { IfErr result (λ e. e ≡ Bad 0 Statement) }
        ensures end { OnErr result ((self.old ≡ []) × (self.new ≡ [])) }
    {
        match self.take() {
            Some(t) => Ok(t),
            None => Err(short()),
        }
    }

    /// Takes the next token, which doesn't fit, and returns its error. After the end it returns the
    /// error of a text that is too short.
    #[tactic(auto, unfolding(crate::specs::Gives::Refuses))]
    pub fn refuse(&mut self) -> ReadError
        ensures refuses { Refuses result self.new (nowhere_read {A = Unit {0}} self.old) }
        ensures end { self.old ≡ [] → result ≡ Bad 0 Statement }
        // It takes no memory.
        ensures bad { result ≡ Memory → ⊥ }
    {
        match self.take() {
            Some(t) => t.refused(&[]),
            None => short(),
        }
    }

    /// Reads this word.
    #[tactic(auto, unfolding(crate::specs::Gives::Refuses))]
    pub fn word(&mut self, text: &[u8]) -> Result<(), ReadError>
        ensures { Gives (λ x. x) result self.new (reading.word text.now self.old) }
    {
        let t = self.next()?;
        if t.is_word() && t.bytes == text {
            Ok(())
        } else {
            Err(t.refused(&[]))
        }
    }

    /// Reads a name.
    #[tactic(auto, unfolding(crate::specs::Gives::Refuses))]
    pub fn name(&mut self) -> Result<&'a [u8], ReadError>
        ensures { Gives (λ x. x.now) result self.new (reading.name self.old) }
    {
        let t = self.next()?;
        if t.is_word() && is_a_name(t.bytes) {
            Ok(t.bytes)
        } else {
            Err(t.refused(&[]))
        }
    }

    /// Reads this mark.
    #[tactic(auto, unfolding(crate::specs::Gives::Refuses))]
    pub fn mark(&mut self, byte: u8) -> Result<(), ReadError>
        ensures { Gives (λ x. x) result self.new (reading.mark byte self.old) }
    {
        let t = self.next()?;
        if t.is_mark(byte) {
            Ok(())
        } else {
            Err(t.refused(&[]))
        }
    }

    /// Reads a string, and gives it without its quotes.
    #[tactic(auto, unfolding(crate::specs::Gives::Refuses))]
    pub fn text(&mut self) -> Result<&'a [u8], ReadError>
        ensures { Gives (λ x. x.now) result self.new (reading.text self.old) }
    {
        let t = self.next()?;
        if matches!(t.kind, TokenKind::Text) {
            Ok(inside(t.bytes))
        } else {
            Err(t.refused(&[]))
        }
    }

    /// Reads the end of the text.
    #[tactic(auto, unfolding(crate::specs::Gives::Refuses))]
    pub fn the_end(&mut self) -> Result<(), ReadError>
        ensures { Gives (λ x. x) result self.new (reading.the_end self.old) }
    {
        let t = self.next()?;
        if matches!(t.kind, TokenKind::End) {
            Ok(())
        } else {
            Err(t.refused(&[]))
        }
    }

    /// Reads one separator, which is a line break or a `;`.
    #[tactic(auto, unfolding(crate::specs::Gives::Refuses))]
    pub fn separator(&mut self) -> Result<(), ReadError>
        ensures { Gives (λ x. x) result self.new (reading.passed separates self.old) }
    {
        let t = self.next()?;
        if t.is_separator() {
            Ok(())
        } else {
            Err(t.refused(&[]))
        }
    }

    /// Reads one line break.
    #[tactic(auto, unfolding(crate::specs::Gives::Refuses))]
    pub fn line_break(&mut self) -> Result<(), ReadError>
        ensures { Gives (λ x. x) result self.new (reading.passed breaks_off self.old) }
    {
        let t = self.next()?;
        if t.is_break() {
            Ok(())
        } else {
            Err(t.refused(&[]))
        }
    }

    /// Whether a separator comes next.
    pub fn is_at_separator(&self) -> bool
        ensures { result ≡ begins_with separates self.now }
    {
        match self.peek() {
            Some(t) => t.is_separator(),
            None => false,
        }
    }

    /// Whether a line break comes next.
    pub fn is_at_break(&self) -> bool
        ensures { result ≡ begins_with breaks_off self.now }
    {
        match self.peek() {
            Some(t) => t.is_break(),
            None => false,
        }
    }

    /// Passes over separators.
    #[tactic(auto, unfolding(crate::specs::WordReading::separators))]
    pub fn separators(&mut self)
        ensures { reading.separators self.old ≡ Read tt self.new }
    {
        'separators: while let Some(t) = self.peek() {
            if !t.is_separator() {
                return;
            }
            self.take();
        }
    }

    /// Passes over breaks.
    #[tactic(auto, unfolding(crate::specs::WordReading::breaks))]
    pub fn breaks(&mut self)
        ensures { reading.breaks self.old ≡ Read tt self.new }
    {
        'breaks: while let Some(t) = self.peek() {
            if !t.is_break() {
                return;
            }
            self.take();
        }
    }
}

fn inside(text: &[u8]) -> &[u8]
    ensures { result.now ≡ inside_quotes text.now }
{
    if text.len() < 2 {
        &text[text.len()..]
    } else {
        &text[1..text.len() - 1]
    }
}

/// Whether a word is a name: 1 to 127 bytes, the first of them a letter or `_`.
pub fn is_a_name(text: &[u8]) -> bool
    ensures { result ≡ is_name text.now }
{
    match text {
        [] => false,
        [first, ..] => {
            let letter = (b'A' <= *first && *first <= b'Z') || (b'a' <= *first && *first <= b'z');
            (letter || *first == b'_') && text.len() <= 127
        }
    }
}
