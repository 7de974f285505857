//! Explains what is wrong with a time, and with a time and its unit in two words.
use set_model::Memory;
use text_pieces::Piece;
use token_notes::{Explained, TIME, is_number, is_one_of, last_words, shortened};

/// Words for the units of a time, and how a time has them.
const UNITS: [(&[u8], &[u8]); 24] = [
    (b"d", b"d"),
    (b"day", b"d"),
    (b"days", b"d"),
    (b"h", b"h"),
    (b"hr", b"h"),
    (b"hrs", b"h"),
    (b"hour", b"h"),
    (b"hours", b"h"),
    (b"m", b"m"),
    (b"min", b"m"),
    (b"mins", b"m"),
    (b"minute", b"m"),
    (b"minutes", b"m"),
    (b"s", b"s"),
    (b"sec", b"s"),
    (b"secs", b"s"),
    (b"second", b"s"),
    (b"seconds", b"s"),
    (b"ms", b"ms"),
    (b"msec", b"ms"),
    (b"msecs", b"ms"),
    (b"millis", b"ms"),
    (b"millisecond", b"ms"),
    (b"milliseconds", b"ms"),
];

/// How a time has the unit that a word names.
fn unit_of(word: &[u8]) -> Option<&'static [u8]> {
    for (name, unit) in &UNITS {
        if *name == word {
            return Some(*unit);
        }
    }
    None
}

/// Whether a word is the unit of a time whose number is the last word before it.
pub(crate) fn is_apart(part: &[u8], word: &[u8]) -> bool {
    let (item, number) = last_words(part);
    is_one_of(item, &[b"timeout", b"expires", b"gc-interval"])
        && is_number(number)
        && unit_of(word).is_some()
}

/// Says how a number and its unit are written.
fn tell_time(said: &mut Explained, wrong: &[u8], number: &[u8], word: &[u8]) -> Result<(), Memory> {
    match unit_of(word) {
        Some(unit) if !number.is_empty() => said.tell(
            &[Piece::Word(wrong)],
            &[
                Piece::Word(b"write "),
                Piece::Word(shortened(number)),
                Piece::Word(unit),
            ],
        ),
        _ => said.say(wrong, TIME),
    }
}

/// Explains the unit of a time that is a word of its own after the number.
pub(crate) fn explain_unit(said: &mut Explained, number: &[u8], word: &[u8]) -> Result<(), Memory> {
    tell_time(said, b" can't follow the number of a time", number, word)
}

/// The digits at the front of a word, and the rest.
fn first_number(word: &[u8]) -> (&[u8], &[u8]) {
    match word.iter().position(|byte| !byte.is_ascii_digit()) {
        Some(place) => word.split_at(place),
        None => (word, b""),
    }
}

/// Explains a word that isn't a time.
pub(crate) fn explain_time(said: &mut Explained, word: &[u8]) -> Result<(), Memory> {
    let (number, unit) = first_number(word);
    tell_time(said, b" isn't a time", number, unit)
}
