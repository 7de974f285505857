//! Takes single words out of a part of a script.
use token_forms::{Token, TokenKind, Tokens};

/// The bytes of a token.
pub fn bytes_of(text: &[u8], token: Token) -> &[u8] {
    text.get(token.from as usize..token.to as usize)
        .unwrap_or(b"")
}

/// Whether a token ends a statement or an item: a line feed, or a `;`.
pub fn is_separator(kind: TokenKind, bytes: &[u8]) -> bool {
    matches!(kind, TokenKind::Break) || bytes == b";".as_slice()
}

/// The token of this number, from 0, in a text. Line feeds aren't counted. It is empty if there is none.
pub fn word_at(text: &[u8], number: u64) -> &[u8] {
    let mut seen = 0u64;
    for token in Tokens::new(text) {
        if matches!(token.kind, TokenKind::Break) {
            continue;
        }
        if seen == number {
            return bytes_of(text, token);
        }
        seen = seen.saturating_add(1);
    }
    b""
}

/// The text after so many tokens. Line feeds aren't counted.
pub fn after_words(text: &[u8], number: u64) -> &[u8] {
    let mut seen = 0u64;
    for token in Tokens::new(text) {
        if matches!(token.kind, TokenKind::Break) {
            continue;
        }
        seen = seen.saturating_add(1);
        if seen == number {
            return text.get(token.to as usize..).unwrap_or(b"");
        }
    }
    b""
}

/// The last two tokens of a text that are no line feeds. A token that is missing is empty.
pub fn last_words(text: &[u8]) -> (&[u8], &[u8]) {
    let none = Token {
        kind: TokenKind::End,
        line: 1,
        from: 0,
        to: 0,
    };
    let mut before = none;
    let mut last = none;
    for token in Tokens::new(text) {
        if !matches!(token.kind, TokenKind::Break | TokenKind::End) {
            before = last;
            last = token;
        }
    }
    (bytes_of(text, before), bytes_of(text, last))
}

/// The last token of a text that is no line feed.
pub fn last_word(text: &[u8]) -> &[u8] {
    last_words(text).1
}

/// Whether a word is a number in decimal.
pub fn is_number(word: &[u8]) -> bool {
    !word.is_empty() && word.iter().all(|byte| byte.is_ascii_digit())
}

/// How often a word is in a text.
pub fn count_of(text: &[u8], word: &[u8]) -> u64 {
    let mut count = 0u64;
    for token in Tokens::new(text) {
        if bytes_of(text, token) == word {
            count = count.saturating_add(1);
        }
    }
    count
}

/// Whether one of these words is the word.
pub fn is_one_of(word: &[u8], words: &[&[u8]]) -> bool {
    for other in words {
        if *other == word {
            return true;
        }
    }
    false
}

/// The item of a set that begins with this word, up to its separator. It is empty if there is none.
pub fn item_of<'a>(items: &'a [u8], word: &[u8]) -> &'a [u8] {
    let mut is_start = true;
    let mut found = None;
    for token in Tokens::new(items) {
        let bytes = bytes_of(items, token);
        let is_end = is_separator(token.kind, bytes);
        match found {
            Some(from) if is_end => return items.get(from..token.from as usize).unwrap_or(b""),
            None if is_start && bytes == word => found = Some(token.from as usize),
            _ => {}
        }
        is_start = is_end;
    }
    match found {
        Some(from) => items.get(from..).unwrap_or(b""),
        None => b"",
    }
}
