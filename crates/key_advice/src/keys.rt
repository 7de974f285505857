//! Explains a word of a key by the types of the set that its line names.
use crate::beside::{has_table, set_of_name};
use crate::key_places::{
    KEY_FORM, KeyPlace, VALUES_ALONE, explain_after_key, explain_after_moment, explain_after_name,
    explain_after_value, explain_brace, explain_character, explain_key_moment, explain_line,
    explain_no_dot, explain_second_dot,
};
use crate::key_values::{ONE_VALUE, explain_key_string, explain_key_value};
use addr_text::read_value;
use field_advice::{
    add_set, explain_fields, explain_unknown, field_named, is_same, kind_at, set_named, word_of,
    words_of,
};
use set_model::{Kind, Memory, Schema, SetDecl};
use std::alloc::Global;
use text_pieces::{Piece, append_pieces};
use token_forms::Reason;
use token_notes::{
    Explained, begins_a_statement, count_of, explain_reference, explain_slashes, is_element_line,
    is_family, is_number, is_one_of, is_slashes, last_word, shortened, word_at,
};

/// A bad token of a key.
#[derive(Clone, Copy)]
pub(crate) struct KeyFault<'a> {
    pub(crate) place: KeyPlace,
    /// Its line, and the line up to it and after it.
    pub(crate) line: &'a [u8],
    pub(crate) before: &'a [u8],
    pub(crate) behind: &'a [u8],
    /// Its bytes. A line feed and the end of the text have none.
    pub(crate) token: &'a [u8],
    pub(crate) reason: Reason,
}

/// The item `type` of a set that is declared, as a script has it.
fn type_item_of(alloc: Global, kinds: &[Kind]) -> Result<Vec<u8>, Memory> {
    let mut item = Vec::new(alloc);
    let mut front: &[u8] = b"type ";
    for kind in kinds {
        let added = append_pieces(
            &[Piece::Word(front), Piece::Word(word_of(*kind))],
            &mut item,
        );
        match added {
            Ok(()) => front = b" . ",
            Err(_) => return Err(Memory),
        }
    }
    Ok(item)
}

/// The item `type` of the set that a line of a key file names. It is empty if no set has that name.
pub(crate) fn type_item(alloc: Global, schema: &Schema, line: &[u8]) -> Result<Vec<u8>, Memory> {
    let words = set_named(line, 0);
    for set in schema.as_slice() {
        if is_same(words_of(set), words) {
            return type_item_of(alloc, set.kinds.as_slice());
        }
    }
    Ok(Vec::new(alloc))
}

/// How many words of a line name its set.
fn name_count(line: &[u8]) -> u64 {
    if is_family(word_at(line, 0)) { 3 } else { 2 }
}

/// How many fields of a key come before the bad token. Each begins with a word, and a `.` is between two.
pub(crate) fn fields_before(before: &[u8]) -> u64 {
    let dots = count_of(before, b".");
    if word_at(before, name_count(before)).is_empty() || last_word(before) == b".".as_slice() {
        return dots;
    }
    dots.saturating_add(1)
}

/// Whether a token is at the place of a word of its set's name.
pub(crate) fn is_in_name(before: &[u8]) -> bool {
    word_at(before, name_count(before).saturating_sub(1)).is_empty()
}

/// Whether an `at` is all that comes before a token.
fn is_after_at(before: &[u8]) -> bool {
    word_at(before, 0) == b"at".as_slice() && word_at(before, 1).is_empty()
}

/// Whether a moment of an `at` is all that comes before a token.
fn is_after_moment(before: &[u8]) -> bool {
    word_at(before, 0) == b"at".as_slice()
        && is_number(word_at(before, 1))
        && word_at(before, 2).is_empty()
}

/// Whether a word is a value of a field, from 0.
fn fits(type_item: &[u8], field: u64, word: &[u8]) -> bool {
    match kind_at(type_item, field) {
        Some(kind) => read_value(kind, word).is_ok(),
        None => false,
    }
}

/// Explains a token after so many fields, of which the last is not the set's last one. What follows the token
/// shows whether it is meant between two fields, two keys or the ends of a range.
fn explain_between(
    said: &mut Explained,
    type_item: &[u8],
    fields: u64,
    fault: KeyFault<'_>,
) -> Result<(), Memory> {
    let next = word_at(fault.behind, 0);
    let fits_next = fits(type_item, fields, next);
    let fits_this = fits(type_item, fields.saturating_sub(1), next);
    match fault.token {
        b":" | b"=" => explain_no_dot(said),
        b"," if fits_this && !fits_next => {
            said.say(b" can't follow a value", fault.place.for_several())
        }
        b"-" if fits_next && !fits_this => explain_no_dot(said),
        token if fault.place.for_word(token).is_some() => {
            explain_fields(said, b" ends the key after ", fields, type_item)
        }
        token => explain_after_value(said, token),
    }
}

/// Explains a token that can't come at its place of a key, or the end of its line.
fn explain_place(
    said: &mut Explained,
    type_item: &[u8],
    fault: KeyFault<'_>,
) -> Result<(), Memory> {
    let fields = fields_before(fault.before);
    let has_more = kind_at(type_item, fields).is_some();
    let is_known = !type_item.is_empty() && !is_in_name(fault.before);
    match fault.token {
        _ if is_after_at(fault.before) => explain_key_moment(said, fault.place),
        b"" if is_known && has_more => {
            explain_fields(said, b" ends the key after ", fields, type_item)
        }
        b"" => explain_line(said, fault.place, fault.reason, fault.token),
        b"{" | b"}" => explain_brace(said, fault.place, fault.behind),
        [b'"', ..] if !is_known || has_more => explain_key_string(
            said,
            type_item,
            fields,
            fault.token,
        ),
        _ if is_after_moment(fault.before) => explain_after_moment(said, fault.place),
        b"." if is_known && fields > 0 && !has_more => explain_fields(
            said,
            b" begins one more field, and the set has ",
            fields,
            type_item,
        ),
        _ if is_known && fields == 0 => explain_after_name(said, type_item),
        _ if is_known && has_more => explain_between(said, type_item, fields, fault),
        _ if is_known => explain_after_key(said, fault.place, type_item, fault.token, fault.behind),
        _ => explain_line(said, fault.place, fault.reason, fault.token),
    }
}

/// Explains a token after a word that names a set, and is at the place of a table.
fn explain_no_table(said: &mut Explained, set: &SetDecl) -> Result<(), Memory> {
    said.wrong.pieces(
        said.alloc,
        &[
            Piece::Word(b" isn't the name of a set: '"),
            Piece::Word(shortened(set.name.as_slice())),
            Piece::Word(b"' is at the place of a table"),
        ],
    )?;
    add_set(
        said,
        b"write the set's family, table and name, as: ",
        words_of(set),
        b"",
    )
}

/// Whether a line begins as a statement does, or with another word before a family.
fn is_statement_line(line: &[u8]) -> bool {
    let first = word_at(line, 0);
    begins_a_statement(first) || is_family(word_at(line, 1)) || is_element_line(line)
}

/// What to do with a number after this word, if the word is meant as `at`: `at` in other letters, with a `:`, or another
/// word for it.
fn for_moment_after(word: &[u8], place: KeyPlace) -> Option<&'static [u8]> {
    let is_like_at = matches!(
        word,
        [b'a' | b'A', b't' | b'T'] | [b'a' | b'A', b't' | b'T', b':']
    );
    let is_wait = is_one_of(word, &[b"sleep", b"wait", b"time"]);
    match place {
        KeyPlace::Get if is_like_at || is_wait => Some(place.for_moment()),
        KeyPlace::File if is_like_at => {
            Some(b"write 'at' in lower case, and then the moment in milliseconds, as: at 500")
        }
        KeyPlace::File if is_wait => {
            Some(b"write 'at' and the moment of the keys after it in milliseconds, as: at 500")
        }
        _ => None,
    }
}

/// Whether a line begins with words of nft's rules that name a field of a packet, as `ip saddr`.
fn names_a_field(line: &[u8]) -> bool {
    field_named(word_at(line, 0), word_at(line, 1)).is_some()
}

/// Explains a word before the set of a line that has a `>`, as tcpdump prints it between addresses.
fn explain_arrow(said: &mut Explained) -> Result<(), Memory> {
    said.say(
        b" isn't the name of a set: this looks like a line of tcpdump",
        b"write the set and the values alone, as: ip filter allowed 192.0.2.1 . 80; 'pipapo capture' takes packets from a capture",
    )
}

/// Explains a `<` or a `>`.
fn explain_comparison(
    said: &mut Explained,
    type_item: &[u8],
    fault: KeyFault<'_>,
) -> Result<(), Memory> {
    let has_more = kind_at(type_item, fields_before(fault.before)).is_some();
    let help = if is_in_name(fault.before) {
        KEY_FORM
    } else if has_more {
        ONE_VALUE
    } else {
        VALUES_ALONE
    };
    said.say(b" is an unexpected character", help)
}

/// Explains a word that doesn't name a set of the script.
fn explain_set_name(
    said: &mut Explained,
    schema: &Schema,
    fault: KeyFault<'_>,
) -> Result<(), Memory> {
    let first = word_at(fault.before, 0);
    let is_second = word_at(fault.before, 1).is_empty();
    if fault.line.contains(&b'>') {
        return explain_arrow(said);
    }
    if names_a_field(fault.line) {
        return said.say(
            b" isn't the name of a set: a key doesn't name fields of a packet",
            KEY_FORM,
        );
    }
    if is_statement_line(fault.line) {
        return said.say(
            b" isn't the name of a set: a key has no words of a statement",
            KEY_FORM,
        );
    }
    if is_second && is_number(fault.token) && first == b"round".as_slice() {
        return said.say(b" can't follow 'round'", b"write 'round' alone in its line");
    }
    match for_moment_after(first, fault.place) {
        Some(help) if is_second && is_number(fault.token) => {
            return said.say(b" isn't a set of the script", help);
        }
        _ => {}
    }
    let before = last_word(fault.before);
    match set_of_name(schema, before) {
        Some(set) if !has_table(schema, before) => explain_no_table(said, set),
        _ => explain_unknown(said, schema, fault.token),
    }
}

/// Explains a bad token of a key, by the types of its line's set.
pub(crate) fn explain_key(
    said: &mut Explained,
    schema: &Schema,
    type_item: &[u8],
    fault: KeyFault<'_>,
) -> Result<(), Memory> {
    match fault.reason {
        Reason::Statement if fault.line.contains(&b'>') && is_in_name(fault.before) => {
            explain_arrow(said)
        }
        Reason::Value if fault.token == b".".as_slice() => {
            if fields_before(fault.before) == 0 {
                explain_after_name(said, type_item)
            } else {
                explain_second_dot(said, type_item)
            }
        }
        Reason::Value => {
            let number = count_of(fault.before, b".");
            explain_key_value(said, type_item, number, fault.token, fault.behind)
        }
        Reason::Set => explain_set_name(said, schema, fault),
        Reason::Moment => explain_key_moment(said, fault.place),
        Reason::Character if fault.token.first() == Some(&b'@') && is_in_name(fault.before) => {
            explain_reference(said)
        }
        Reason::Character if matches!(fault.token.first(), Some(b'<' | b'>')) => {
            explain_comparison(said, type_item, fault)
        }
        Reason::Character => explain_character(said, fault.token),
        Reason::LeftOut if fault.token == b"*".as_slice() => {
            said.say(b" isn't a value", ONE_VALUE)
        }
        _ if is_slashes(fault.token) => explain_slashes(said),
        _ => explain_place(said, type_item, fault),
    }
}
