//! Blanks the refused part of a text out, so that the rest can be read for further errors. It is a statement or an item of
//! a set in a script, and a line in a key file.
ghost use Rattle.std.specs.Prelude.{◌≡◌, ℕ, IfOk};
ghost use Rattle.script_advice.specs.Blanked.{blanked};

use crate::held::is_other_item;
use field_advice::is_range;
use set_model::Memory;
use std::alloc::Global;
use token_forms::{BadToken, Reason, TokenKind, Tokens};
use token_notes::{begins_a_statement, bytes_of, is_one_of, is_separator, item_of, word_at};

/// Where the statement around a place of a script begins and ends. The separator after it isn't part of
/// it.
fn statement_at(text: &[u8], at: u64) -> (usize, usize) {
    let mut depth = 0u64;
    let mut begin = 0u64;
    for token in Tokens::new(text) {
        let bytes = bytes_of(text, token);
        if bytes == b"{".as_slice() {
            depth = depth.saturating_add(1);
        } else if bytes == b"}".as_slice() {
            depth = depth.saturating_sub(1);
        } else if depth == 0 && is_separator(token.kind, bytes) {
            if token.from >= at {
                return (begin as usize, token.from as usize);
            }
            begin = token.to;
        }
    }
    (begin as usize, text.len())
}

/// How many braces are open around the items of a statement's sets. It is 0 if the statement declares none.
fn item_depth(statement: &[u8]) -> u64 {
    match word_at(statement, 0) {
        b"table" => 2,
        b"add" if word_at(statement, 1) == b"set".as_slice() => 1,
        _ => 0,
    }
}

/// An item of a set in a statement.
#[derive(Clone, Copy)]
struct Item<'a> {
    /// The set's items before it.
    before: &'a [u8],
    bytes: &'a [u8],
    from: usize,
    to: usize,
}

/// The item of a set around a place of a statement.
fn item_at(statement: &[u8], at: u64) -> Option<Item<'_>> {
    let items = item_depth(statement);
    let mut depth = 0u64;
    let mut set = 0u64;
    let mut begin = 0u64;
    for token in Tokens::new(statement) {
        let bytes = bytes_of(statement, token);
        let is_brace = bytes == b"}".as_slice();
        let ends = depth == items && (is_brace || is_separator(token.kind, bytes));
        if token.from >= at && (depth < items || items == 0) {
            return None;
        }
        if ends && token.from >= at {
            return Some(Item {
                before: statement.get(set as usize..begin as usize).unwrap_or(b""),
                bytes: statement
                    .get(begin as usize..token.from as usize)
                    .unwrap_or(b""),
                from: begin as usize,
                to: token.from as usize,
            });
        }
        if ends {
            begin = token.to;
        }
        if is_brace {
            depth = depth.saturating_sub(1);
        } else if bytes == b"{".as_slice() {
            depth = depth.saturating_add(1);
            if depth == items {
                set = token.to;
                begin = token.to;
            }
        }
    }
    None
}

/// Whether the other items of a set can be read without this one. All of them need the type.
fn is_apart(item: Item<'_>) -> bool {
    let word = word_at(item.bytes, 0);
    let begins = begins_a_statement(word)
        || is_other_item(word)
        || is_one_of(word, &[b"", b"set", b"type", b"typeof"]);
    let has_type = |word: &[u8]| !item_of(item.before, word).is_empty();
    !begins && (has_type(b"type") || has_type(b"typeof"))
}

/// The place after the innermost `{` before a place of a statement that no `}` closes.
fn open_at(alloc: Global, statement: &[u8], at: u64) -> Result<Option<usize>, Memory> {
    let mut braces = Vec::new(alloc);
    for token in Tokens::new(statement) {
        let bytes = bytes_of(statement, token);
        if bytes == b"{".as_slice() && braces.push(token.to).is_err() {
            return Err(Memory);
        }
        if bytes == b"}".as_slice() {
            let _ = braces.pop();
        }
    }
    let mut found = None;
    for to in &braces {
        if *to <= at {
            found = Some(*to as usize);
        }
    }
    Ok(found)
}

/// Whether the word at a place begins a statement or an item of a table. Such a word shows by itself that a `{` is open.
fn shows_open(text: &[u8], at: u64) -> bool {
    let word = word_at(text.get(at as usize..).unwrap_or(b""), 0);
    begins_a_statement(word)
        || is_other_item(word)
        || is_one_of(word, &[b"set", b"at", b"commit", b"abort", b"round"])
}

/// The part around a place of a script that is left out if the rest is read: the item of a set, if the set's
/// other items can be read without it, or else the statement. If a `{` of the statement is open, it is what
/// follows that `{`, so that the end of the rest shows it.
fn refused_part(alloc: Global, text: &[u8], at: u64) -> Result<(usize, usize), Memory> {
    let (from, to) = statement_at(text, at);
    let statement = text.get(from..to).unwrap_or(b"");
    let place = at.saturating_sub(from as u64);
    match item_at(statement, place) {
        Some(item) if is_apart(item) => {
            return Ok((from.saturating_add(item.from), from.saturating_add(item.to)));
        }
        _ => {}
    }
    match open_at(alloc, statement, place)? {
        Some(open) if !shows_open(text, at) => Ok((from.saturating_add(open), to)),
        _ => Ok((from, to)),
    }
}

/// The text whose bytes from one place up to another are blanked out. Its line feeds stay.
fn without_part(alloc: Global, text: &[u8], from: usize, to: usize) -> Result<Vec<u8>, Memory>
    ensures { IfOk result (λ rest. rest.items ≡ blanked from to text.now) }
{
    let rest = text
        .iter()
        .enumerate()
        .map(|(i, b)| if from <= i && i < to && *b != b'\n' {
            b' '
        } else {
            *b
        })
        .collect(alloc)?;
    Ok(rest)
}

/// The script without the statement around a place. It is the script without the item of a set, if the set's
/// other items can be read without it. It is the script without what follows a `{` that no `}` closes, if there is
/// one. The bytes of this part are blanked out, and its line feeds stay. So each other token keeps its place.
///
/// # Errors
///
/// `Memory` if memory runs out.
pub fn without_statement(alloc: Global, text: &[u8], at: u64) -> Result<Vec<u8>, Memory>
    ensures { IfOk result (λ rest. (from : ℕ) × (to : ℕ) × (rest.items ≡ blanked from to text.now)) }
{
    let (from, to) = refused_part(alloc, text, at)?;
    without_part(alloc, text, from, to)
}

/// Where the line of a key file around a place begins and ends. The line feed after it isn't part of it.
fn key_line_at(text: &[u8], at: u64) -> (usize, usize) {
    let mut begin = 0u64;
    for token in Tokens::new(text) {
        if matches!(token.kind, TokenKind::Break) {
            if token.from >= at {
                return (begin as usize, token.from as usize);
            }
            begin = token.to;
        }
    }
    (begin as usize, text.len())
}

/// The key file without the line around a place. The bytes of the line are blanked out. So each other token keeps its place.
///
/// # Errors
///
/// `Memory` if memory runs out.
pub fn without_key_line(alloc: Global, text: &[u8], at: u64) -> Result<Vec<u8>, Memory>
    ensures { IfOk result (λ rest. (from : ℕ) × (to : ℕ) × (rest.items ≡ blanked from to text.now)) }
{
    let (from, to) = key_line_at(text, at);
    without_part(alloc, text, from, to)
}

/// Whether one of these words is among those of a script that are blanked out in the rest.
fn is_blanked(text: &[u8], rest: &[u8], words: &[&[u8]]) -> bool {
    for token in Tokens::new(text) {
        let word = bytes_of(text, token);
        if is_one_of(word, words) && bytes_of(rest, token) != word {
            return true;
        }
    }
    false
}

/// Whether a token is the first one of its statement.
fn is_first(text: &[u8], at: u64) -> bool {
    let (begin, _) = statement_at(text, at);
    word_at(text.get(begin..at as usize).unwrap_or(b""), 0).is_empty()
}

/// Whether an earlier error may have caused this one: the token names a set that a statement before it,
/// which was refused, names, too. Or it is a `{` or a `}` that belongs to nothing, or the `set` of a table that
/// isn't open. Or it is a range or a time of a set whose flags may have been refused.
pub fn is_caused(text: &[u8], rest: &[u8], bad: BadToken, token: &[u8]) -> bool {
    match bad.reason {
        Reason::Set => is_blanked(text, rest, &[token]),
        Reason::Value if is_range(token) => {
            is_blanked(text, rest, &[b"flags", b"flag", b"interval"])
        }
        Reason::Statement if is_one_of(token, &[b"timeout", b"expires"]) => {
            is_blanked(text, rest, &[b"flags", b"flag", b"timeout"])
        }
        Reason::Statement if is_one_of(token, &[b"{", b"}", b"set"]) => is_first(rest, bad.at),
        _ => false,
    }
}
