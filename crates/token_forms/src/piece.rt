ghost use Rattle.std.specs.Prelude.{◌≡◌, ◌+◌, ◌<◌, ◌≤◌, ◌^◌, length, not};
ghost use Rattle.std.specs.List.{prefix_len};
ghost use Rattle.token_forms.specs.Bytes.{byte_class, is_word_byte, is_string_byte, is_line_feed};
ghost use Rattle.token_forms.specs.Tokens.{string_piece, joined_lines, piece, first_piece};

use crate::token::TokenKind;

/// How a text begins: with a token, or with a gap, which is a blank or a comment.
#[derive(Clone, Copy, Debug, PartialEq, Eq)]
pub struct Piece {
    /// The kind of the token; `None` for a gap.
    pub kind: Option<TokenKind>,
    /// How many bytes it has.
    pub size: usize,
}

// The class of each byte: `w` if it is part of a word, `b` if it is a blank, `m` if it is a mark, and else `.`.
static CLASSES: [u8; 256] = *b"\
    .........b...b..................\
    b.........m.mwwwwwwwwwwwwwwm.m..\
    .wwwwwwwwwwwwwwwwwwwwwwwwww....w\
    .wwwwwwwwwwwwwwwwwwwwwwwwwwm.m..\
    ................................\
    ................................\
    ................................\
    ................................";

fn class_of(b: u8) -> u8
    ensures { result ≡ byte_class b }
{
    CLASSES[b as usize]
}

#[tactic(auto, using(crate::proofs::ClassLaws::word_class))]
fn is_in_a_word(b: u8) -> bool
    ensures { result ≡ is_word_byte b }
{
    class_of(b) == b'w'
}

fn is_in_a_string(b: u8) -> bool
    ensures { result ≡ is_string_byte b }
{
    b != b'"' && 32 <= b
}

fn word_len(bytes: &[u8]) -> usize
    ensures run { result ≡ prefix_len is_word_byte bytes.now }
    ensures within { result ≤ length bytes.now }
{
    bytes.iter().take_while(|b| is_in_a_word(**b)).count()
}

fn string_len(bytes: &[u8]) -> usize
    ensures run { result ≡ prefix_len is_string_byte bytes.now }
    ensures within { result ≤ length bytes.now }
{
    bytes.iter().take_while(|b| is_in_a_string(**b)).count()
}

fn comment_len(bytes: &[u8]) -> usize
    ensures run { result ≡ prefix_len (λ b. not (is_line_feed b)) bytes.now }
    ensures within { result ≤ length bytes.now }
{
    bytes.iter().take_while(|b| **b != b'\n').count()
}

fn gap(size: usize) -> Piece
    ensures { result ≡ record { kind = None; size = size } }
{
    Piece { kind: None, size }
}

fn token(kind: TokenKind, size: usize) -> Piece
    ensures { result ≡ record { kind = Some kind; size = size } }
{
    Piece {
        kind: Some(kind),
        size,
    }
}

fn string_at(bytes: &[u8]) -> Piece
    ensures piece { result ≡ string_piece bytes.now }
    ensures within { (0 < result.size) × (result.size ≤ length bytes.now + 1) }
{
    let n = string_len(bytes);
    match bytes.get(n) {
        Some(b'"') if n <= 128 => token(TokenKind::Text, n + 2),
        _ => token(TokenKind::Faulty, 1),
    }
}

fn joined_at(bytes: &[u8]) -> Piece
    ensures piece { result ≡ joined_lines bytes.now }
    ensures within { (0 < result.size) × (result.size ≤ length bytes.now + 1) }
{
    match bytes.first() {
        Some(b'\n') => gap(2),
        _ => token(TokenKind::Faulty, 1),
    }
}

/// A piece that begins with a byte of no class.
fn piece_of_other(b: u8, bytes: &[u8]) -> Piece
    requires fits { length bytes.now < 2 ^ 63 }
    requires other { byte_class b ≡ 46 }
    ensures piece { result ≡ piece b bytes.now }
    ensures within { (0 < result.size) × (result.size ≤ length bytes.now + 1) }
{
    match b {
        b'\n' => token(TokenKind::Break, 1),
        b'#' => gap(1 + comment_len(bytes)),
        b'"' => string_at(bytes),
        b'\\' => joined_at(bytes),
        _ => token(TokenKind::Faulty, 1),
    }
}

fn piece_behind(b: u8, bytes: &[u8]) -> Piece
    requires { length bytes.now < 2 ^ 63 }
    ensures piece { result ≡ piece b bytes.now }
    ensures within { (0 < result.size) × (result.size ≤ length bytes.now + 1) }
{
    match class_of(b) {
        b'w' => token(TokenKind::Word, 1 + word_len(bytes)),
        b'b' => gap(1),
        b'm' => token(TokenKind::Mark, 1),
        _ => piece_of_other(b, bytes),
    }
}

/// How a text begins that isn't empty.
pub fn piece_at(text: &[u8]) -> Piece
    requires some { 0 < length text.now }
    requires fits { length text.now < 2 ^ 63 }
    ensures piece { result ≡ first_piece text.now }
    ensures within { (0 < result.size) × (result.size ≤ length text.now) }
{
    piece_behind(text[0], &text[1..])
}
