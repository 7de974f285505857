ghost use Rattle.std.specs.Prelude.{◌≡◌, ◌∷◌, ◌++◌, ◌+◌, ◌<◌, ◌≤◌, ◌^◌, List, Some, length, take, reverse, not};
ghost use Rattle.std.specs.List.{prefix_len};
ghost use Rattle.token_forms.specs.Bytes.{is_line_feed};
ghost use Rattle.token_forms.specs.Token.{Lexeme};
ghost use Rattle.token_forms.specs.TextTokens.{text_tokens, plain_tokens, tokens_by};
ghost use Rattle.token_forms.specs.BadTokens.{IsLexemeSeen, column_at, bad_token_of};

use crate::reader::Reader;
use crate::seen::Seen;
use crate::token::Reason;

/// The token for which a text is refused: the first that doesn't fit.
#[derive(Clone, Copy, Debug, PartialEq, Eq)]
pub struct BadToken {
    /// The place of its first byte in the text, from 0. It is the length of the text if the text ends
    /// too early.
    pub at: u64,
    /// How many bytes it has; 0 if the text ends too early.
    pub length: u64,
    /// 1 plus the number of line feeds before its first byte.
    pub line: u64,
    /// 1 plus the number of bytes between the start of its line and its first byte. Bytes are counted, not characters.
    pub column: u64,
    /// Why it doesn't fit: the first reason that applies.
    pub reason: Reason,
}

/// The bytes of a text before a place, or all of them if the place is past the end.
fn bytes_before(text: &[u8], at: u64) -> &[u8]
    ensures { result.now ≡ take at text.now }
{
    let length = text.len().min(at as usize);
    &text[..length]
}

/// How many bytes follow the last line feed, or all if there is none.
fn last_line(text: &[u8]) -> usize
    ensures run { result ≡ prefix_len (λ b. not (is_line_feed b)) (reverse text.now) }
    ensures within { result ≤ length text.now }
{
    text.iter().rev().take_while(|b| **b != b'\n').count()
}

/// What is left of the reader `ahead` after it took as many tokens as `left` has.
fn skipped<'a>(ahead: Reader<'a>, left: Reader) -> Reader<'a>
    requires { length left ≤ length ahead }
    ensures { length result + length left.entry ≡ length ahead.entry }
{
    let mut ahead = ahead;
    let mut left = left;
    'skip: while let Some(_) = left.take() {
        ahead.take();
    }
    ahead
}

/// The n-th token of a text; n is how many tokens `ahead` has left. `None` if n is 0.
fn last_of<'a>(text: &'a [u8], plain: bool, ahead: Reader) -> Option<Seen<'a>>
    requires { length ahead ≤ length (tokens_by plain text.now) }
    ensures { (before : List Lexeme) (t : Lexeme) (rest : List Lexeme) → tokens_by plain text.now ≡ before ++ t ∷ rest → length ahead.entry ≡ length before + 1 → IsLexemeSeen t result }
{
    let mut ahead = ahead;
    let mut reader = Reader::at_first(text, plain);
    let mut last = None;
    'tokens: while let Some(_) = ahead.take() {
        last = reader.take();
    }
    last
}

/// The token of a text after which these tokens are left.
fn token_before<'a>(text: &'a [u8], plain: bool, left: Reader) -> Option<Seen<'a>>
    requires { length left ≤ length (tokens_by plain text.now) }
    ensures { (before : List Lexeme) (t : Lexeme) → tokens_by plain text.now ≡ before ++ t ∷ left.entry → IsLexemeSeen t result }
{
    last_of(text, plain, skipped(Reader::at_first(text, plain), left))
}

fn placed_token(text: &[u8], plain: bool, left: Reader, reason: Reason) -> Option<BadToken>
    requires { length left ≤ length (tokens_by plain text.now) }
    ensures { (before : List Lexeme) (t : Lexeme) → tokens_by plain text.now ≡ before ++ t ∷ left.entry → result ≡ Some (bad_token_of text.now t reason) }
{
    let token = token_before(text, plain, left)?;
    Some(BadToken {
        at: token.from,
        length: token.bytes.len() as u64,
        line: token.line,
        column: 1 + last_line(bytes_before(text, token.from)) as u64,
        reason,
    })
}

/// The bad token of a refused text in nft's language. The reader has these tokens left after the bad
/// one, and reported this reason.
pub fn bad_token_before(text: &[u8], left: Reader, reason: Reason) -> Option<BadToken>
    requires { length left ≤ length (text_tokens text.now) }
    ensures { (before : List Lexeme) (t : Lexeme) → text_tokens text.now ≡ before ++ t ∷ left.entry → result ≡ Some (bad_token_of text.now t reason) }
{
    placed_token(text, false, left, reason)
}

/// The bad token of a refused plain text: one in a language that leaves out no part of nft's.
pub fn plain_bad_token_before(text: &[u8], left: Reader, reason: Reason) -> Option<BadToken>
    requires { length left ≤ length (plain_tokens text.now) }
    ensures { (before : List Lexeme) (t : Lexeme) → plain_tokens text.now ≡ before ++ t ∷ left.entry → result ≡ Some (bad_token_of text.now t reason) }
{
    placed_token(text, true, left, reason)
}
