//! What a line of the note says.
ghost use Rattle.std.specs.Prelude.{◌≡◌, ◌≤◌, ◌++◌, OnOk, length, take, reverse, not};
ghost use Rattle.std.specs.List.{prefix_len};
ghost use Rattle.token_forms.specs.Bytes.{is_line_feed};
ghost use Rattle.token_forms.specs.BadTokens.{column_at};
ghost use Rattle.skip_notes.specs.Skips.{reason_words, token_bytes, name_bytes, place_bytes, said_of};

use ruleset_sets::{RoleToken, SkipReason, Skipped};
use set_model::Memory;
use text_pieces::Piece::{Number, Word};
use text_pieces::{append, append_pieces};

/// The bytes of a text before a place.
fn bytes_before(text: &[u8], at: u64) -> &[u8]
    ensures { result.now ≡ take at text.now }
{
    let length = text.len().min(at as usize);
    &text[..length]
}

/// The bytes of a token.
fn bytes_of<'a>(text: &'a [u8], token: &RoleToken) -> &'a [u8]
    ensures { result.now ≡ token_bytes text.now token.now }
{
    match text.get(token.from as usize..) {
        Some(rest) => bytes_before(rest, token.size),
        None => b"",
    }
}

/// How many bytes follow the last line feed, or all if there is none.
fn last_line(text: &[u8]) -> usize
    ensures run { result ≡ prefix_len (λ b. not (is_line_feed b)) (reverse text.now) }
    ensures within { result ≤ length text.now }
{
    text.iter().rev().take_while(|b| **b != b'\n').count()
}

/// The column of a place.
fn column(text: &[u8], at: u64) -> u64
    ensures { result ≡ column_at text.now at }
{
    1 + last_line(bytes_before(text, at)) as u64
}

/// Appends the place of an item or a part.
pub fn append_place(
    name: &[u8],
    text: &[u8],
    at: &RoleToken,
    out: &mut Vec<u8>,
) -> Result<(), Memory>
    ensures { OnOk result (out.new.items ≡ out.old.items ++ place_bytes name.now text.now at.now) }
{
    append_pieces(
        &[
            Word(name),
            Word(b":"),
            Number(at.line),
            Word(b":"),
            Number(column(text, at.from)),
        ],
        out,
    )
}

/// Appends the name of an item, if it has one.
fn append_name(text: &[u8], name: Option<RoleToken>, out: &mut Vec<u8>) -> Result<(), Memory>
    ensures { OnOk result (out.new.items ≡ out.old.items ++ name_bytes text.now name) }
{
    match name {
        Some(token) => append_pieces(&[Word(b" "), Word(bytes_of(text, &token))], out),
        None => Ok(()),
    }
}

/// Appends a token between these words.
fn append_token(
    text: &[u8],
    front: &[u8],
    token: &RoleToken,
    behind: &[u8],
    out: &mut Vec<u8>,
) -> Result<(), Memory>
    ensures { OnOk result (out.new.items ≡ out.old.items ++ (front.now ++ token_bytes text.now token.now ++ behind.now)) }
{
    append_pieces(
        &[Word(front), Word(bytes_of(text, token)), Word(behind)],
        out,
    )
}

/// Appends what becomes of a thing that isn't kept, and why. The token that is the reason is in quotes.
pub fn append_reason(text: &[u8], why: SkipReason, out: &mut Vec<u8>) -> Result<(), Memory>
    ensures { OnOk result (out.new.items ≡ out.old.items ++ reason_words text.now why) }
{
    match why {
        SkipReason::NoSet => append(b"is skipped: it isn't a set", out),
        SkipReason::UnknownType(p) => append_token(
            text,
            b"is left out: it has the type '",
            &p,
            b"', which isn't known here",
            out,
        ),
        SkipReason::UnknownExpression(p) => append_token(
            text,
            b"is left out: it has an expression with '",
            &p,
            b"', which isn't known here",
            out,
        ),
        SkipReason::AutoMerge(p) => {
            append_token(text, b"is left out: '", &p, b"' isn't read here", out)
        }
        SkipReason::CatchAll(p) => append_token(
            text,
            b"is left out: it has the catch-all element '",
            &p,
            b"'",
            out,
        ),
        SkipReason::Stateful(p) => append_token(
            text,
            b"is left out: it has '",
            &p,
            b"', on which verdicts depend",
            out,
        ),
        SkipReason::Unclosed => append(b"is skipped: its braces don't close", out),
        SkipReason::HoldsItem => append(b"is skipped: another item is in its braces", out),
        SkipReason::DroppedPart => append(b"is dropped: no verdict depends on it", out),
    }
}

/// Appends what a line says of an item or a part.
#[tactic(auto, using(std::proofs::Common::append_assoc))]
pub fn append_said(
    name: &[u8],
    text: &[u8],
    skip: &Skipped,
    out: &mut Vec<u8>,
) -> Result<(), Memory>
    ensures { OnOk result (out.new.items ≡ out.old.items ++ said_of name.now text.now skip.now) }
{
    append_place(name, text, &skip.at, out)?;
    append(b": '", out)?;
    append(bytes_of(text, &skip.at), out)?;
    append_name(text, skip.name, out)?;
    append(b"' ", out)?;
    append_reason(text, skip.why, out)
}
