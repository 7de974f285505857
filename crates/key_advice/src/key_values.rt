//! Explains a word of a key in the place of a value. A key has one value in each field, so a range, a prefix
//! and a network with a netmask are wrong there.
use addr_text::{read_interval, read_value};
use field_advice::{
    Field, WrongValue, address_kind, explain_string, explain_wrong_value, first_end, is_joined,
    kind_at, mask_bits, port_of, say_misfit, say_no_value, unquoted, wrong_value,
};
use set_model::{Kind, Memory};
use text_pieces::Piece;
use token_notes::{Explained, is_number, is_one_of, shortened, word_at};

/// How a value of a key is written.
pub(crate) const ONE_VALUE: &[u8] = b"write a single value: a key describes one packet";

/// The longest word that is looked at as a range: two IPv6 addresses of 45 bytes, and `..` between them.
const LONGEST_RANGE: usize = 92;

/// A word that means several values, in words.
const RANGE: &[u8] = b" is a range";

const PREFIX: &[u8] = b" is a prefix";

const NETWORK: &[u8] = b" is a network with a netmask";

/// Whether a word is meant as an end of a range: a value of the kind, or another number or the name of a
/// service in its place.
fn is_end(kind: Kind, word: &[u8]) -> bool {
    let is_address = matches!(kind, Kind::Ipv4 | Kind::Ipv6 | Kind::Ether);
    read_value(kind, word).is_ok()
        || (kind == Kind::Service && port_of(word).is_some())
        || (!is_address && is_number(word))
}

/// Whether a text begins with the sign of a range, and then comes its last end. This may be missing after
/// `-`, and may be the last number of an IPv4 address alone, as in 10.0.0.1-20.
fn ends_a_range(kind: Kind, text: &[u8]) -> bool {
    match text {
        [b'.', b'.', high @ ..] | [b':', high @ ..] => is_end(kind, high),
        [b'-'] => true,
        [b'-', high @ ..] => is_end(kind, high) || (kind == Kind::Ipv4 && is_number(high)),
        _ => false,
    }
}

/// Whether a word is meant as a range of a kind, with `-`, `:` or `..` between its ends.
fn is_range_of(kind: Kind, word: &[u8]) -> bool {
    if word.len() > LONGEST_RANGE {
        return false;
    }
    for place in 0..word.len() {
        let low = word.get(..place).unwrap_or(b"");
        let rest = word.get(place..).unwrap_or(b"");
        if ends_a_range(kind, rest) && is_end(kind, low) {
            return true;
        }
    }
    false
}

/// The word before its first `/`, and what follows the `/`.
fn at_slash(word: &[u8]) -> Option<(&[u8], &[u8])> {
    let place = word.iter().position(|byte| *byte == b'/')?;
    match word.split_at(place) {
        (low, [_, rest @ ..]) => Some((low, rest)),
        _ => None,
    }
}

/// Whether a word is meant as the address of a prefix: a value of the kind, or an address without its end,
/// as in 10.0.0/24 and 2001:db8/32.
fn is_prefix_front(kind: Kind, low: &[u8]) -> bool {
    let begins_an_address = match kind {
        Kind::Ipv4 => matches!(low, [b'0'..=b'9', ..]),
        Kind::Ipv6 => low.contains(&b':'),
        _ => false,
    };
    read_value(kind, low).is_ok() || (begins_an_address && address_kind(low).is_none())
}

/// What a word is that means several values, if it does.
fn several(field: Field<'_>) -> Option<&'static [u8]> {
    if is_range_of(field.kind, field.word) {
        return Some(RANGE);
    }
    match at_slash(field.word) {
        Some((low, bits)) if is_prefix_front(field.kind, low) => {
            let is_mask = field.kind == Kind::Ipv4 && read_value(field.kind, bits).is_ok();
            match bits {
                _ if is_number(bits) => Some(PREFIX),
                _ if is_mask => Some(NETWORK),
                _ => None,
            }
        }
        _ => None,
    }
}

/// The value in a range or a prefix of one value, as 10.0.0.1 in 10.0.0.1/32.
fn only_value(field: Field<'_>) -> Option<&[u8]> {
    let (low, rest) = first_end(field.word);
    let is_one = match read_interval(field.kind, field.word) {
        Ok(part) => part.low == part.high,
        Err(_) => false,
    };
    let is_masked = match rest {
        [b'/', mask @ ..] => mask_bits(mask) == Some(32) && read_value(field.kind, low).is_ok(),
        _ => false,
    };
    if is_one || is_masked { Some(low) } else { None }
}

/// Whether a word is a value, a `/`, and a value of the next field that is no number of bits, as 10.0.0.1/443.
/// The next field doesn't follow it.
fn is_joined_by_slash(field: Field<'_>, behind: &[u8]) -> bool {
    if word_at(behind, 0) == b".".as_slice() {
        return false;
    }
    let next = kind_at(field.type_item, field.number.saturating_add(1));
    match (next, at_slash(field.word)) {
        (Some(next), Some((low, rest))) => {
            read_value(field.kind, low).is_ok()
                && read_value(next, rest).is_ok()
                && mask_bits(rest).is_none()
                && read_interval(field.kind, field.word).is_err()
        }
        _ => false,
    }
}

/// Whether a word is a value with the `.` after it that is to have blanks around it.
fn has_close_dot(field: Field<'_>) -> bool {
    let is_last = kind_at(field.type_item, field.number.saturating_add(1)).is_none();
    match field.word {
        [value @ .., b'.'] => !is_last && read_value(field.kind, value).is_ok(),
        _ => false,
    }
}

/// Says that a word is two fields.
fn explain_joined(said: &mut Explained, field: Field<'_>) -> Result<(), Memory> {
    say_misfit(said, field)?;
    explain_wrong_value(said, field, WrongValue::Joined)
}

/// Says what is wrong with a word that means no value of its field, and no range and no prefix.
fn explain_no_key_value(said: &mut Explained, field: Field<'_>) -> Result<(), Memory> {
    say_misfit(said, field)?;
    let wrong = wrong_value(field);
    match wrong {
        WrongValue::OtherField(_, kind) if read_value(kind, field.word).is_err() => {
            said.help.say(b"write one value in each field; ")?;
            explain_wrong_value(said, field, wrong)
        }
        WrongValue::NoEnd | WrongValue::NoPrefix(_) | WrongValue::NoValue([.., b'.']) => {
            say_no_value(said, field.kind)
        }
        WrongValue::Mask => said.say(b"a key has no mask", ONE_VALUE),
        WrongValue::Colon(_, _) => said.say(b"it is a range", ONE_VALUE),
        _ => explain_wrong_value(said, field, wrong),
    }
}

/// What to do with a word that means several values. It may have the name of a service.
fn for_one(field: Field<'_>) -> &'static [u8] {
    match field.kind {
        Kind::Service if field.word.iter().any(|byte| byte.is_ascii_alphabetic()) => {
            b"write a single port, as a number: a key describes one packet"
        }
        _ => ONE_VALUE,
    }
}

/// Explains a word at the place of a value of a field, before these bytes of the line.
fn explain_in_field(said: &mut Explained, field: Field<'_>, behind: &[u8]) -> Result<(), Memory> {
    if is_one_of(field.word, &[b"any", b"all"]) {
        return said.say(b" isn't a value", ONE_VALUE);
    }
    if behind.first() == Some(&b'*') {
        return said.say(b" with '*' isn't one value", ONE_VALUE);
    }
    if is_joined(field) || is_joined_by_slash(field, behind) || has_close_dot(field) {
        return explain_joined(said, field);
    }
    match (several(field), only_value(field)) {
        (Some(what), Some(value)) => said.tell(
            &[Piece::Word(what)],
            &[
                Piece::Word(b"write the value alone: "),
                Piece::Word(shortened(value)),
            ],
        ),
        (Some(what), None) => said.say(what, for_one(field)),
        (None, _) => explain_no_key_value(said, field),
    }
}

/// Explains a word of a key at the place of a value: the field of this number, from 0, of a set with this
/// item `type`. These bytes of the line follow it.
pub(crate) fn explain_key_value(
    said: &mut Explained,
    type_item: &[u8],
    number: u64,
    word: &[u8],
    behind: &[u8],
) -> Result<(), Memory> {
    let Some(kind) = kind_at(type_item, number) else {
        return said.tell(
            &[
                Piece::Word(b" isn't a value of field "),
                Piece::Number(number.saturating_add(1)),
            ],
            &[Piece::Word(ONE_VALUE)],
        );
    };
    explain_in_field(
        said,
        Field {
            word,
            number,
            kind,
            type_item,
        },
        behind,
    )
}

/// Explains a string at the place of a value: the field of this number, from 0.
pub(crate) fn explain_key_string(
    said: &mut Explained,
    type_item: &[u8],
    number: u64,
    text: &[u8],
) -> Result<(), Memory> {
    let kind = kind_at(type_item, number);
    match port_of(unquoted(text)) {
        Some(_) if kind == Some(Kind::Service) => {
            explain_key_value(said, type_item, number, unquoted(text), b"")
        }
        _ => explain_string(said, text),
    }
}
