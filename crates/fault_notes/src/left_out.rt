//! The note on a name of a set that a ruleset has and this program doesn't read.
ghost use Rattle.std.specs.Prelude.{IfOk, false};
ghost use Rattle.token_notes.specs.Shown.{Begins, place_text};
ghost use Rattle.token_notes.specs.Source.{IsSaidAt, source_text};

use crate::bad::{placed_note, with_source};
use field_advice::{SetWords, is_same, set_named};
use set_model::Memory;
use std::alloc::Global;
use text_pieces::Piece;
use token_forms::{BadToken, Tokens};
use token_notes::{
    Explained, Note, bytes_of, cut_at, is_family, is_separator, last_words, word_at,
};

/// Why a set of a ruleset is left out.
#[derive(Clone, Copy)]
pub struct LeftOut<'a> {
    /// What becomes of the set, and why, in words that go on after its name.
    pub why: &'a [u8],
    /// The place of the token that is the reason, as `NAME:LINE:COLUMN`.
    pub place: &'a [u8],
}

/// The set that a token names, by the words before it in its line. Without a family it is `ip`.
fn set_before(text: &[u8], bad: BadToken) -> SetWords<'_> {
    let cut = cut_at(text, bad);
    let (word, table) = last_words(cut.front);
    SetWords {
        family: if is_family(word) { word } else { b"ip" },
        table,
        name: cut.token,
    }
}

/// The head of the outermost braces around a place, such as `table inet filter`. It is empty if there are none.
fn head_around(text: &[u8], at: u64) -> &[u8] {
    let mut depth = 0u64;
    let mut from = 0u64;
    let mut head: &[u8] = b"";
    for token in Tokens::new(text) {
        if token.from >= at {
            return head;
        }
        match bytes_of(text, token) {
            b"{" => {
                if depth == 0 {
                    head = text.get(from as usize..token.from as usize).unwrap_or(b"");
                }
                depth = depth.saturating_add(1);
            }
            b"}" => {
                depth = depth.saturating_sub(1);
                from = token.to;
            }
            bytes if is_separator(token.kind, bytes) => from = token.to,
            _ => {}
        }
    }
    head
}

/// Whether a bad token names the set that is declared at this place of a ruleset, with the set's table.
pub fn names_set_at(text: &[u8], bad: BadToken, ruleset: &[u8], at: u64) -> bool {
    let named = set_before(text, bad);
    let statement = ruleset.get(at as usize..).unwrap_or(b"");
    let name = word_at(statement, 1);
    if word_at(statement, 0) != b"set".as_slice() {
        return name == b"set".as_slice() && is_same(named, set_named(statement, 2));
    }
    if name != named.name {
        return false;
    }
    let table = set_named(head_around(ruleset, at), 1);
    is_same(named, SetWords { name, ..table })
}

/// The note on a bad token that names a set that is left out of a ruleset: `NAME:LINE:COLUMN: why`, the token's line with
/// carets under it, and the place of the reason.
///
/// # Errors
///
/// `Memory` if memory runs out.
pub fn left_out_note(
    alloc: Global,
    name: &str,
    text: &[u8],
    bad: BadToken,
    set: LeftOut<'_>,
) -> Result<Note, Memory>
    ensures place { IfOk result (λ note. Begins (place_text name.now bad.line bad.column) note.bytes.items) }
    ensures source { IfOk result (λ note. IsSaidAt (place_text name.now bad.line bad.column) (source_text text.now bad) false note.bytes.items) }
{
    let mut said = Explained::new(alloc);
    said.tell(
        &[Piece::Word(b" "), Piece::Word(set.why)],
        &[
            Piece::Word(b"name another set, or change the ruleset at "),
            Piece::Word(set.place),
        ],
    )?;
    let behind = with_source(alloc, &said, bad, cut_at(text, bad))?;
    placed_note(alloc, name, bad, &behind)
}
