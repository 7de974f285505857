//! Tables of cases. A case is a text and the reader's result, as `at 5|read~`. Neither has a `|` or a `~`.
use set_model::Memory;
use std::alloc::Global;
use std::process::Abort;
use std::str;
use text_pieces::{Piece, append_pieces};
use token_forms::{BadToken, Reason};

/// The parts of a text before and after the first byte `at`. If there is none, these are the whole text and
/// nothing.
pub fn cut(text: &[u8], at: u8) -> (&[u8], &[u8]) {
    match text.iter().position(|byte| *byte == at) {
        Some(place) => (&text[..place], &text[place + 1..]),
        None => (text, b""),
    }
}

/// Asserts that a result is the expected one, and prints it otherwise.
fn assert_is(rt: &impl Abort, told: Result<Vec<u8>, Memory>, expected: &[u8]) {
    match told {
        Ok(told) => assert!(rt; told.as_slice() == expected, "{:?}", str::from_utf8(&told)),
        Err(_) => assert!(rt; false, "out of memory"),
    }
}

/// Asserts that a table has so many cases, and that each text has the result of its case.
pub fn assert_told<F>(rt: &impl Abort, alloc: Global, cases: &[u8], count: u64, tell: F)
where
    F: Fn(Global, &[u8]) -> Result<Vec<u8>, Memory>,
    requires { F.IsAlwaysCallable tell }
{
    let mut seen = 0u64;
    for case in cases.split(|byte| *byte == b'~') {
        if !case.is_empty() {
            let (text, expected) = cut(case, b'|');
            assert_is(rt, tell(alloc, text), expected);
            seen = seen.wrapping_add(1);
        }
    }
    assert_eq!(rt; seen, count);
}

/// One text after another.
pub fn joined(alloc: Global, front: &[u8], behind: &[u8]) -> Result<Vec<u8>, Memory> {
    let mut text = Vec::from_slice(alloc, front)?;
    text.extend_from_slice(behind)?;
    Ok(text)
}

/// A line of these pieces.
pub fn line_of(alloc: Global, pieces: &[Piece]) -> Result<Vec<u8>, Memory> {
    let mut line = Vec::new(alloc);
    append_pieces(pieces, &mut line)?;
    Ok(line)
}

/// A reason as the program writes it.
pub fn reason_word(reason: Reason) -> &'static [u8] {
    match reason {
        Reason::Character => b"character",
        Reason::End => b"end",
        Reason::LeftOut => b"left out",
        Reason::TypeWord => b"type",
        Reason::Value => b"value",
        Reason::Time => b"time",
        Reason::Moment => b"moment",
        Reason::Set => b"set",
        Reason::Number => b"number",
        Reason::Statement => b"statement",
    }
}

/// The number of a line or of a byte, and a reason.
pub fn told_refusal(alloc: Global, place: u64, reason: &[u8]) -> Result<Vec<u8>, Memory> {
    line_of(
        alloc,
        &[Piece::Number(place), Piece::Word(b" "), Piece::Word(reason)],
    )
}

/// The place, the length, the line and the column of a bad token, and the reason.
pub fn told_place(alloc: Global, bad: Option<BadToken>) -> Result<Vec<u8>, Memory> {
    match bad {
        None => line_of(alloc, &[Piece::Word(b"none")]),
        Some(bad) => line_of(
            alloc,
            &[
                Piece::Number(bad.at),
                Piece::Word(b" "),
                Piece::Number(bad.length),
                Piece::Word(b" "),
                Piece::Number(bad.line),
                Piece::Word(b" "),
                Piece::Number(bad.column),
                Piece::Word(b" "),
                Piece::Word(reason_word(bad.reason)),
            ],
        ),
    }
}

/// A number in decimal.
pub fn number(text: &[u8]) -> u64 {
    match str::from_utf8(text) {
        Ok(digits) => digits.parse().unwrap_or(0),
        Err(_) => 0,
    }
}
