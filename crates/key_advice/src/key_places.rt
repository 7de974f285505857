//! Explains a token that can't come at its place of a key, such as braces, a second key, or a word of an element.
use crate::key_values::ONE_VALUE;
use field_advice::types_of;
use set_model::Memory;
use text_pieces::Piece;
use token_forms::Reason;
use token_notes::{
    Explained, NO_INTERFACE, TextKind, count_of, explain_plainly, is_number, is_one_of, word_at,
};

/// How a key is written.
pub(crate) const KEY_FORM: &[u8] =
    b"write the set and the values alone, as: ip filter allowed 192.0.2.1 . 80";

/// What to do with words after a key.
pub(crate) const VALUES_ALONE: &[u8] =
    b"leave it out, and all after it: a key is only the set and its values";

/// The words with which a rule decides on a packet.
const VERDICTS: [&[u8]; 8] = [
    b"accept",
    b"drop",
    b"reject",
    b"return",
    b"jump",
    b"goto",
    b"continue",
    b"policy",
];

/// The words and signs that follow the values in an element, in a map, and in what a run prints.
const OF_ELEMENTS: [&[u8]; 10] = [
    b"timeout", b"expires", b"counter", b"quota", b"limit", b"log", b":", b"=", b"element", b"none",
];

/// Where a key is written.
#[derive(Clone, Copy, Debug, PartialEq, Eq)]
pub enum KeyPlace {
    /// In a line of a key file.
    File,
    /// In the words of a `get`.
    Get,
}

impl KeyPlace {
    /// What to do with several keys.
    pub fn for_several(self) -> &'static [u8] {
        match self {
            KeyPlace::File =>
                b"write each key in a line of its own, as: ip filter allowed 192.0.2.1 . 80",
            KeyPlace::Get =>
                b"'get' answers one key: write the keys into a file, one in each line, and then: pipapo run SCRIPT FILE",
        }
    }

    /// What to do with a moment.
    pub(crate) fn for_moment(self) -> &'static [u8] {
        match self {
            KeyPlace::File =>
                b"write the moment in milliseconds in a line of its own before the key, as: at 500",
            KeyPlace::Get =>
                b"write the moment before the script, in milliseconds from the script's start, as: pipapo get --at 500 SCRIPT ..",
        }
    }

    /// What to do with a word that begins a comment elsewhere.
    fn for_comment(self) -> &'static [u8] {
        match self {
            KeyPlace::File => b"begin a comment with '#'",
            KeyPlace::Get => VALUES_ALONE,
        }
    }

    /// What to do with a word after a whole key, if it is a word of an element or of a rule.
    pub(crate) fn for_word(self, word: &[u8]) -> Option<&'static [u8]> {
        match word {
            b"at" | b"--at" => Some(self.for_moment()),
            b"comment" | [b'"', ..] => Some(self.for_comment()),
            _ if is_one_of(word, &VERDICTS) => Some(
                b"leave it out, and all after it: a key is only the set and its values, and 'pipapo judge' prints the verdict",
            ),
            _ if is_one_of(word, &OF_ELEMENTS) => Some(VALUES_ALONE),
            _ => None,
        }
    }
}

/// Explains a brace. Several keys may be between braces.
pub(crate) fn explain_brace(
    said: &mut Explained,
    place: KeyPlace,
    behind: &[u8],
) -> Result<(), Memory> {
    let has_several = count_of(behind, b",") > 0;
    said.say(
        b" can't come here: a key has no braces",
        if has_several {
            place.for_several()
        } else {
            KEY_FORM
        },
    )
}

/// What a token makes of the value before it, if it makes several values of it.
fn for_several_values(token: &[u8]) -> Option<&'static [u8]> {
    match token {
        [b'-', b'-', ..] => None,
        b"to" | [b'-', ..] | [b'.', b'.', ..] => Some(b" makes a range of the value before it"),
        [b'/', bits @ ..] if is_number(bits) => Some(b" makes a prefix of the value before it"),
        _ => None,
    }
}

/// Explains a token in the place of the `.` between two fields.
pub(crate) fn explain_no_dot(said: &mut Explained) -> Result<(), Memory> {
    said.say(b" can't follow a value", b"write ' . ' between fields")
}

/// Explains a token after a value that isn't the last one.
pub(crate) fn explain_after_value(said: &mut Explained, token: &[u8]) -> Result<(), Memory> {
    match for_several_values(token) {
        Some(what) => said.say(what, ONE_VALUE),
        None => explain_no_dot(said),
    }
}

/// Explains a token after the last value, before these bytes of the line.
pub(crate) fn explain_after_key(
    said: &mut Explained,
    place: KeyPlace,
    type_item: &[u8],
    token: &[u8],
    behind: &[u8],
) -> Result<(), Memory> {
    if let Some(what) = for_several_values(token) {
        return said.say(what, ONE_VALUE);
    }
    if token.starts_with(b"--") && place.for_word(token).is_none() {
        return said.say(b" doesn't begin a comment", place.for_comment());
    }
    said.wrong.say(b" can't follow the last field")?;
    if is_one_of(token, &[b",", b";"]) && word_at(behind, 0).is_empty() {
        return said
            .help
            .say(b"leave it out: a key ends with its last value");
    }
    match (place.for_word(token), place) {
        (Some(help), _) => said.help.say(help),
        (None, KeyPlace::Get) => said.help.say(place.for_several()),
        (None, KeyPlace::File) => said.tell(
            &[],
            &[
                Piece::Word(b"write each key in a line of its own; the set's type is "),
                Piece::Word(types_of(type_item)),
            ],
        ),
    }
}

/// Explains a second `.` between two fields.
pub(crate) fn explain_second_dot(said: &mut Explained, type_item: &[u8]) -> Result<(), Memory> {
    said.tell(
        &[Piece::Word(b" has no value before it")],
        &[
            Piece::Word(b"write one '.' between fields; the set's type is "),
            Piece::Word(types_of(type_item)),
        ],
    )
}

/// Explains a token after the name of a set, before the first value.
pub(crate) fn explain_after_name(said: &mut Explained, type_item: &[u8]) -> Result<(), Memory> {
    said.tell(
        &[Piece::Word(b" can't follow the set's name")],
        &[
            Piece::Word(b"leave it out; the set's type is "),
            Piece::Word(types_of(type_item)),
        ],
    )
}

/// Explains a token after the moment of an `at`.
pub(crate) fn explain_after_moment(said: &mut Explained, place: KeyPlace) -> Result<(), Memory> {
    said.say(
        b" can't follow a moment",
        match place {
            KeyPlace::File => b"end the line after the moment, and write the key in the next one",
            KeyPlace::Get => place.for_moment(),
        },
    )
}

/// Explains a word that is no moment after `at`.
pub(crate) fn explain_key_moment(said: &mut Explained, place: KeyPlace) -> Result<(), Memory> {
    match place {
        KeyPlace::File => explain_plainly(said, TextKind::Keys, Reason::Moment, b""),
        KeyPlace::Get => said.say(b" can't come after 'at'", place.for_moment()),
    }
}

/// Explains a character that begins no word.
pub(crate) fn explain_character(said: &mut Explained, token: &[u8]) -> Result<(), Memory> {
    let help: &[u8] = match token.first() {
        Some(b'"' | b'\'') => b"leave out the quotes: a value has none",
        Some(b'[' | b']' | b'(' | b')') =>
            b"leave the brackets out, as: ip filter allowed 192.0.2.1 . 80",
        Some(b'!' | b'|' | b'@') => ONE_VALUE,
        Some(b'%') => NO_INTERFACE,
        _ => return explain_plainly(said, TextKind::Keys, Reason::Character, token),
    };
    said.say(b" is an unexpected character", help)
}

/// Explains a token that fits no line of a key file, or no key.
pub(crate) fn explain_line(
    said: &mut Explained,
    place: KeyPlace,
    reason: Reason,
    token: &[u8],
) -> Result<(), Memory> {
    match place {
        KeyPlace::File => explain_plainly(said, TextKind::Keys, reason, token),
        KeyPlace::Get => said.say(
            if token.is_empty() {
                b" comes before the key is complete"
            } else {
                b" can't come here"
            },
            b"write [FAMILY] TABLE SET VALUE . VALUE .., with one value for each field",
        ),
    }
}
