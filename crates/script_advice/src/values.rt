//! Explains a word that is no value or interval of its field, and how the set would have to be declared for it.
use crate::fault::Fault;
use addr_text::read_number;
use field_advice::{
    Field, WrongValue, explain_port, explain_string, explain_wrong_value, kind_at, port_of,
    say_misfit, unquoted, wrong_value,
};
use set_model::{Kind, Memory};
use text_pieces::Piece;
use token_notes::{Explained, count_of, is_one_of, shortened, without_blanks_behind};

/// The last moment that a text may name, in milliseconds.
const LAST_MOMENT: u64 = 1_000_000_000_000_000;

/// The field of the set for which the next value is, if its kind is known.
pub(crate) fn field_at<'a>(fault: Fault<'a>) -> Option<Field<'a>> {
    let type_item = fault.set().type_item();
    let number = count_of(fault.around.part, b".");
    Some(Field {
        word: fault.token,
        number,
        kind: kind_at(type_item, number)?,
        type_item,
    })
}

/// Whether the set has the flag `interval`.
fn has_intervals(fault: Fault<'_>) -> bool {
    count_of(fault.set().item(b"flags"), b"interval") > 0
}

/// Explains a word at the place of a value or an interval.
pub(crate) fn explain_value(said: &mut Explained, fault: Fault<'_>) -> Result<(), Memory> {
    let Some(field) = field_at(fault) else {
        return said.say(
            b" isn't a value of this field",
            b"write a value of the field's type",
        );
    };
    if is_one_of(field.word, &[b"any", b"all", b"0/0"]) {
        return explain_every(said, fault, field.kind, b" isn't a value");
    }
    match wrong_value(field) {
        WrongValue::Several if field.word.contains(&b'-') => {
            said.wrong
                .say(b" is a range, and the set has single values")?;
            explain_flag(said, fault, b"interval")
        }
        WrongValue::Several if field.kind == Kind::Mark => said.say(
            b" is a prefix, and the set has single values",
            b"write an element for each mark that is meant",
        ),
        WrongValue::Several => {
            said.wrong
                .say(b" is a prefix, and the set has single values")?;
            explain_flag(said, fault, b"interval")
        }
        wrong => {
            say_misfit(said, field)?;
            explain_wrong_value(said, field, wrong)?;
            if matches!(wrong, WrongValue::Mask) && has_intervals(fault) {
                return said.help.say(b", or a range of them, as 0x10-0x1f");
            }
            Ok(())
        }
    }
}

/// Says how a set is declared with one more flag.
pub(crate) fn explain_flag<'x>(
    said: &mut Explained,
    fault: Fault<'x>,
    flag: &'x [u8],
) -> Result<(), Memory> {
    let flags = without_blanks_behind(fault.set().item(b"flags"));
    said.tell(
        &[],
        &[
            Piece::Word(b"declare the set with '"),
            Piece::Word(if flags.is_empty() {
                b"flags"
            } else {
                shortened(flags)
            }),
            Piece::Word(if flags.is_empty() { b" " } else { b", " }),
            Piece::Word(flag),
            Piece::Word(b"'"),
        ],
    )
}

/// Explains a word that means all values of a kind.
fn explain_every(
    said: &mut Explained,
    fault: Fault<'_>,
    kind: Kind,
    wrong: &[u8],
) -> Result<(), Memory> {
    said.say(wrong, all_of(kind))?;
    if has_intervals(fault) {
        return Ok(());
    }
    said.help.say(b", and ")?;
    explain_flag(said, fault, b"interval")
}

/// All values of a kind, as an interval.
fn all_of(kind: Kind) -> &'static [u8] {
    match kind {
        Kind::Ipv4 => b"to match all addresses, write 0.0.0.0/0",
        Kind::Ipv6 => b"to match all addresses, write ::/0",
        Kind::Ether => b"to match all addresses, write 00:00:00:00:00:00-ff:ff:ff:ff:ff:ff",
        Kind::Proto => b"to match all protocols, write 0-255",
        Kind::Service => b"to match all ports, write 0-65535",
        Kind::Mark => b"to match all marks, write 0-4294967295",
    }
}

/// Explains a `*` at the place of a value.
pub(crate) fn explain_all(said: &mut Explained, fault: Fault<'_>) -> Result<(), Memory> {
    match field_at(fault) {
        Some(field) => explain_every(said, fault, field.kind, b" isn't supported"),
        None => said.say(
            b" isn't supported",
            b"to match all values, write a prefix or a range, as 0.0.0.0/0",
        ),
    }
}

/// Explains a string at the place of a value.
pub(crate) fn explain_quoted(said: &mut Explained, fault: Fault<'_>) -> Result<(), Memory> {
    match (field_at(fault), port_of(unquoted(fault.token))) {
        (Some(field), Some(port)) if field.kind == Kind::Service => {
            say_misfit(said, field)?;
            explain_port(said, b"a port is a number and not a name", port)
        }
        _ => explain_string(said, fault.token),
    }
}

/// Explains a word at the place of a moment.
pub(crate) fn explain_moment(said: &mut Explained, fault: Fault<'_>) -> Result<(), Memory> {
    if read_number(fault.token, LAST_MOMENT).is_none() {
        return said.say(
            b" isn't a moment",
            b"write a number of milliseconds, at most 1000000000000000",
        );
    }
    said.tell(
        &[
            Piece::Word(b" is before the last moment, "),
            Piece::Word(shortened(fault.around.moment)),
        ],
        &[Piece::Word(b"write a later moment: in a script moments never fall")],
    )
}
