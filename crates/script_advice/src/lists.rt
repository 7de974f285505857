//! Explains a token in a list of elements that can't come at its place.
use crate::fault::Fault;
use crate::syntax::explain_comment;
use crate::times::{explain_time, explain_unit, is_apart};
use crate::values::{explain_flag, explain_quoted};
use field_advice::{explain_fields, kind_at};
use set_model::Memory;
use token_notes::{Explained, count_of, is_one_of, last_word};

/// The words that begin an option of an element.
const OPTIONS: [&[u8]; 3] = [b"timeout", b"expires", b"comment"];

/// Explains a token at the place of a field's value.
fn explain_no_value(said: &mut Explained, fault: Fault<'_>) -> Result<(), Memory> {
    match fault.token {
        [b'"', ..] => explain_quoted(said, fault),
        b"," => said.say(
            b" has no element before it",
            b"write one ',' between elements",
        ),
        b"{" if fault.around.part.is_empty() => said.say(
            b" begins a list in a list",
            b"write one pair of braces around all elements, as: { 80, 443 }",
        ),
        b"{" => said.say(
            b" begins a list in an element",
            b"write an element for each value, as: 192.0.2.1 . 80, 192.0.2.1 . 443",
        ),
        _ => said.say(b" isn't an element", b"write an element or '}' here"),
    }
}

/// Explains an option's word that can't come here.
fn explain_option(said: &mut Explained, fault: Fault<'_>) -> Result<(), Memory> {
    let word = fault.token;
    if count_of(fault.around.part, word) > 0 {
        return said.say(b" is given twice", b"leave one of the two out");
    }
    said.wrong.say(b" needs a set with the flag timeout")?;
    explain_flag(said, fault, b"timeout")
}

/// Explains a token after the values of an element, which may lack some fields.
fn explain_behind(
    said: &mut Explained,
    fault: Fault<'_>,
    lacks_fields: bool,
) -> Result<(), Memory> {
    let word = fault.token;
    let last = last_word(fault.around.part);
    if last == b"comment".as_slice() {
        return explain_comment(said, fault);
    }
    if is_one_of(last, &OPTIONS) && word == b"=".as_slice() {
        return said.say(
            b" can't come in an element",
            b"leave it out, as: timeout 30s",
        );
    }
    if is_one_of(last, &OPTIONS) {
        return explain_time(said, word);
    }
    if is_apart(fault.around.part, word) {
        return explain_unit(said, last, word);
    }
    match word {
        [b'-', ..] => said.say(
            b" can't have blanks around it",
            b"write a range without blanks, as 10-20",
        ),
        [b'/', ..] => said.say(
            b" can't have blanks around it",
            b"write a prefix without blanks, as 10.0.0.0/8",
        ),
        b":" if lacks_fields => {
            said.say(b" can't come between fields", b"write ' . ' between fields")
        }
        b":" => said.say(
            b" makes a map of the set",
            b"remove it and the value after it: there are no maps",
        ),
        b";" => said.say(
            b" can't come in a list",
            b"',' or '}' is expected after an element",
        ),
        _ if is_one_of(word, &OPTIONS) => explain_option(said, fault),
        _ if lacks_fields => said.say(b" can't follow a value", b"write ' . ' between fields"),
        [b'"', ..] => said.say(
            b" can't follow an element",
            b"write 'comment' before it, or leave it out",
        ),
        _ => explain_no_comma(said, word),
    }
}

/// Explains a token that can't follow an element.
fn explain_no_comma(said: &mut Explained, word: &[u8]) -> Result<(), Memory> {
    if is_one_of(word, &[b"ttl", b"lifetime"]) {
        return said.ask(b" can't follow an element", b"timeout");
    }
    said.suggest(
        b" can't follow an element",
        word,
        &OPTIONS,
        b"',' or '}' is expected after an element",
    )
}

/// Explains a token in a list.
pub(crate) fn explain_in_list(said: &mut Explained, fault: Fault<'_>) -> Result<(), Memory> {
    let part = fault.around.part;
    let type_item = fault.set().type_item();
    let dots = count_of(part, b".");
    let is_behind_dot = last_word(part) == b".".as_slice();
    let fields = if is_behind_dot {
        dots
    } else {
        dots.saturating_add(1)
    };
    let is_end = is_one_of(fault.token, &[b",", b"}"]);
    let ends = is_end || is_one_of(fault.token, &OPTIONS);
    if part.is_empty() || (is_behind_dot && !is_end) {
        return explain_no_value(said, fault);
    }
    let lacks_fields = kind_at(type_item, fields).is_some();
    if ends && lacks_fields {
        return explain_fields(said, b" ends the element after ", fields, type_item);
    }
    match fault.token {
        b"." => explain_fields(
            said,
            b" begins one more field, and the set has ",
            fields,
            type_item,
        ),
        _ => explain_behind(said, fault, lacks_fields),
    }
}
