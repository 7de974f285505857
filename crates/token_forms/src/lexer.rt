ghost use Rattle.std.specs.Prelude.{◌≡◌, ◌+◌, ◌<◌, ◌≤◌, ◌^◌, [], ◌∷◌, length, take, count_by, IsNone, IfSome};
ghost use Rattle.token_forms.specs.Tokens.{tokens, first_piece, holds_feeds};
ghost use Rattle.token_forms.specs.Bytes.{is_line_feed};

use crate::piece::{Piece, piece_at};
use crate::token::TokenKind;
use std::marker::Model;

/// A token with its bytes.
#[derive(Clone, Copy, Debug)]
pub struct Spelled<'a> {
    /// What it is.
    pub kind: TokenKind,
    /// 1 plus the number of line feeds before its first byte.
    pub line: u64,
    /// The place of its first byte in the text.
    pub from: u64,
    /// Its bytes.
    pub bytes: &'a [u8],
}

/// The tokens of a text that are left.
#[derive(Drop)]
pub struct Lexer<'a> {
    rest: &'a [u8],
    line: u64,
    place: u64,
    ended: bool,
}

impl<'a> Model for Lexer<'a> {
    ghost use Rattle.std.specs.Prelude.{List, ◌+◌, ◌<◌, ◌^◌, length};
    ghost use Rattle.token_forms.specs.Token.{Spelling};
    ghost use Rattle.token_forms.specs.TokensLeft.{tokens_left};

    ghost Value = { List Spelling };

    ghost view = { λ a. tokens_left a.ended a.line a.place a.rest.now };

    ghost invariant = { λ a. (a.line + length a.rest.now < 2 ^ 64) × (a.place + length a.rest.now < 2 ^ 64) };
}

impl<'a> Lexer<'a> {
    ghost use Rattle.token_forms.specs.View.{spelling_of};

    /// All tokens of a text.
    pub fn new(text: &'a [u8]) -> Self
        ensures { result ≡ tokens text.now }
    {
        Lexer {
            rest: text,
            line: 1,
            place: 0,
            ended: false,
        }
    }

    /// The next token. The end is the last one.
    pub fn next_token(&mut self) -> Option<Spelled<'a>>
        ensures none { IsNone result → (self.old ≡ []) × (self.new ≡ []) }
        ensures some { IfSome result (λ t. self.old ≡ spelling_of t ∷ self.new) }
        ensures fits { IfSome result (λ t. t.from + length t.bytes.now < 2 ^ 64) }
    {
        if self.ended {
            return None;
        }
        'pieces: while !self.rest.is_empty() {
            let piece = piece_at(self.rest);
            let (bytes, behind) = self.rest.split_at(piece.size);
            let line = self.line;
            let from = self.place;
            self.line = line + line_feeds(piece, self.rest);
            self.place = from + piece.size as u64;
            self.rest = behind;
            if let Some(kind) = piece.kind {
                return Some(Spelled {
                    kind,
                    line,
                    from,
                    bytes,
                });
            }
        }
        self.ended = true;
        Some(Spelled {
            kind: TokenKind::End,
            line: self.line,
            from: self.place,
            bytes: self.rest,
        })
    }
}

/// How many line feeds a piece holds. The only tokens that hold one are breaks.
#[tactic(auto, using(crate::proofs::FeedLaws::no_feeds))]
fn line_feeds(piece: Piece, text: &[u8]) -> u64
    requires first { piece ≡ first_piece text.now }
    requires some { 0 < length text.now }
    requires within { piece.size ≤ length text.now }
    requires fits { length text.now < 2 ^ 63 }
    ensures count { result ≡ count_by is_line_feed (take piece.size text.now) }
    ensures few { result ≤ piece.size }
{
    if may_hold_feeds(piece.kind) {
        count_line_feeds(&text[..piece.size])
    } else {
        0
    }
}

fn may_hold_feeds(kind: Option<TokenKind>) -> bool
    ensures { result ≡ holds_feeds kind }
{
    match kind {
        None => true,
        Some(kind) => matches!(kind, TokenKind::Break),
    }
}

fn count_line_feeds(bytes: &[u8]) -> u64
    requires { length bytes.now < 2 ^ 63 }
    ensures count { result ≡ count_by is_line_feed bytes.now }
    ensures few { result ≤ length bytes.now }
{
    bytes.iter().filter(|b| **b == b'\n').count() as u64
}
