/// What a token is.
#[derive(Clone, Copy, Debug, PartialEq, Eq)]
pub enum TokenKind {
    /// A line feed.
    Break,
    /// One of `{`, `}`, `,`, `;`, `=`, `*`.
    Mark,
    /// A string in quotes.
    Text,
    /// A run of ASCII letters, digits and `_`, `.`, `/`, `:`, `-`.
    Word,
    /// A byte that begins no token.
    Faulty,
    /// The end of the text.
    End,
}

/// A token of a text: its bytes are those from place `from` up to place `to`, which isn't included.
#[derive(Clone, Copy, Debug, PartialEq, Eq)]
pub struct Token {
    /// What it is.
    pub kind: TokenKind,
    /// 1 plus the number of line feeds before its first byte.
    pub line: u64,
    /// The place of its first byte in the text.
    pub from: u64,
    /// The place after its last byte.
    pub to: u64,
}

/// Why a token doesn't fit at its place. The first reason that applies counts.
#[derive(Clone, Copy, Debug, PartialEq, Eq)]
pub enum Reason {
    /// The token is faulty.
    Character,
    /// The token is the end of the text.
    End,
    /// The token belongs to a part of nft's language that is left out.
    LeftOut,
    /// The place asks for a kind.
    TypeWord,
    /// The place asks for a value or an interval.
    Value,
    /// The place asks for a time.
    Time,
    /// The place asks for a moment.
    Moment,
    /// The place asks for the name of a set.
    Set,
    /// The place asks for a size.
    Number,
    /// No other reason applies.
    Statement,
}
