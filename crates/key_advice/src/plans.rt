//! Explains a token that can't come at its place of a plan: the set, its selectors, or what is between them.
use crate::beside::{Beside, explain_set_beside, set_of_name};
use crate::keys::{fields_before, is_in_name, type_item};
use field_advice::{
    Wanted, add_set, begins_with_replaced, explain_fields, kind_at, selector_of, selectors_of,
    tell_replaced, types_of, words_of,
};
use set_model::{Kind, Memory, Schema, SetDecl};
use text_pieces::Piece;
use token_forms::{Reason, Tokens};
use token_notes::{
    Explained, SELECTORS, TextKind, bytes_of, explain_plainly, explain_reference, first_line,
    is_one_of, last_word, nearest, word_at,
};

/// The most lines of a plan.
const MOST_LINES: u64 = 4;

/// The words of nft's rules before or after which a `.` or a set's name comes.
const NFT_WORDS: [&[u8]; 6] = [b".", b"saddr", b"daddr", b"sport", b"dport", b"l4proto"];

const SET_FIRST: &[u8] = b"write the set first, and then a selector for each field";

/// The word after a `@` of a line.
fn name_referred_to(line: &[u8]) -> &[u8] {
    match line.iter().position(|byte| *byte == b'@') {
        Some(at) => word_at(
            line.get(at..)
                .unwrap_or(b"")
                .strip_prefix(b"@")
                .unwrap_or(b""),
            0,
        ),
        None => b"",
    }
}

/// Whether a set has a mark.
fn has_mark(set: &SetDecl) -> bool {
    set.kinds.as_slice().iter().any(|kind| *kind == Kind::Mark)
}

/// Adds the line of a plan for a set: its name, and a selector for each field.
fn add_line(said: &mut Explained, set: &SetDecl) -> Result<(), Memory> {
    add_set(said, b", as: ", words_of(set), b"")?;
    let mut front: &[u8] = b" ";
    for kind in set.kinds.as_slice() {
        let selector = selector_of(*kind).unwrap_or(b"");
        let added = said
            .help
            .pieces(said.alloc, &[Piece::Word(front), Piece::Word(selector)]);
        match added {
            Ok(()) => front = b" . ",
            Err(_) => return Err(Memory),
        }
    }
    Ok(())
}

/// Says that the set comes first, with the line for a set of this name, or with the selectors that a line is to have.
fn explain_form(
    said: &mut Explained,
    schema: &Schema,
    line: &[u8],
    name: &[u8],
) -> Result<(), Memory> {
    let wanted = Wanted::Selectors(b"", 0);
    said.help.say(SET_FIRST)?;
    match set_of_name(schema, name) {
        Some(set) if !has_mark(set) => add_line(said, set),
        _ if begins_with_replaced(line, wanted) => {
            said.help.say(b"; ")?;
            tell_replaced(said, line, wanted)
        }
        _ => said.help.say(b", as: ip t s ip_saddr . dport"),
    }
}

/// Explains a word in the place of a set's name.
fn explain_set(said: &mut Explained, schema: &Schema, fault: Beside<'_>) -> Result<(), Memory> {
    let before = last_word(fault.before);
    let referred = name_referred_to(fault.line);
    if !referred.is_empty()
        || (set_of_name(schema, before).is_none() && is_one_of(fault.token, &NFT_WORDS))
    {
        said.wrong.say(b" isn't the name of a set")?;
        return explain_form(said, schema, fault.line, referred);
    }
    if set_of_name(schema, before).is_some() {
        said.wrong.say(b" isn't the name of a set")?;
        return explain_form(said, schema, fault.line, before);
    }
    explain_set_beside(said, schema, b"", fault)
}

/// Explains a `@`.
fn explain_at_sign(said: &mut Explained, schema: &Schema, fault: Beside<'_>) -> Result<(), Memory> {
    let name = name_referred_to(fault.line);
    if set_of_name(schema, name).is_none() {
        return explain_reference(said);
    }
    said.wrong.say(b" is an unexpected character")?;
    explain_form(said, schema, fault.line, name)
}

/// Whether a word is a selector, and another one after a `.`.
fn is_joined(word: &[u8]) -> bool {
    match word.iter().position(|byte| *byte == b'.') {
        Some(place) => is_one_of(&word[..place], &SELECTORS),
        None => false,
    }
}

/// Explains a word in the place of a selector of this type.
fn explain_selector(
    said: &mut Explained,
    type_item: &[u8],
    kind: Kind,
    fault: Beside<'_>,
) -> Result<(), Memory> {
    let word = fault.token;
    let line = first_line(fault.behind);
    let wanted = Wanted::Selectors(type_item, fields_before(fault.front));
    let selectors = [
        Piece::Word(b"write "),
        Piece::Word(selectors_of(kind)),
        Piece::Word(b" for this field: the set's type is "),
        Piece::Word(types_of(type_item)),
    ];
    match word {
        _ if kind == Kind::Mark => said.tell(
            &[Piece::Word(b" can't come here: no packet of a capture has a mark")],
            &[
                Piece::Word(b"name a set without marks: this set's type is "),
                Piece::Word(types_of(type_item)),
            ],
        ),
        [b'0'..=b'9' | b':', ..] => said.tell(
            &[Piece::Word(b" is a value, and a selector is expected")],
            &selectors,
        ),
        _ if is_joined(word) => said.say(
            b" isn't a selector",
            b"write '.' with blanks around it between selectors, as: ip_saddr . dport",
        ),
        _ if is_one_of(word, &SELECTORS) => said.tell(
            &[Piece::Word(b" doesn't fit the type of this field")],
            &selectors,
        ),
        _ if begins_with_replaced(line, wanted) => {
            said.wrong.say(b" isn't a selector")?;
            tell_replaced(said, line, wanted)
        }
        _ if word.contains(&b'.') => said.tell(&[Piece::Word(b" isn't a selector")], &selectors),
        _ => match nearest(said.alloc, word, &SELECTORS)? {
            Some(other) => said.ask(b" isn't a selector", other),
            None => said.tell(&[Piece::Word(b" isn't a selector")], &selectors),
        },
    }
}

/// How many lines of a plan have a word.
fn line_count(before: &[u8]) -> u64 {
    let mut count = 0u64;
    let mut line = 0u64;
    for token in Tokens::new(before) {
        if token.line > line && !matches!(bytes_of(before, token), b"" | b"\n") {
            count = count.saturating_add(1);
            line = token.line;
        }
    }
    count
}

/// Explains a token between the selectors of a line, or after them.
fn explain_between(
    said: &mut Explained,
    type_item: &[u8],
    fault: Beside<'_>,
) -> Result<(), Memory> {
    let fields = fields_before(fault.front);
    let has_more = kind_at(type_item, fields).is_some();
    let is_known = fields > 0 && !type_item.is_empty();
    match fault.token {
        b"," if is_known && has_more => said.say(
            b" can't come between selectors",
            b"write ' . ' between selectors",
        ),
        b"{" | b"}" => said.say(
            b" can't come here: a plan has no braces",
            b"write the set and its selectors alone, as: ip t s ip_saddr . dport",
        ),
        [b'"', ..] => said.say(
            b" is a string, and can't come here",
            b"leave out the quotes",
        ),
        b"." if is_known && !has_more => explain_fields(
            said,
            b" begins one more field, and the set has ",
            fields,
            type_item,
        ),
        b"" if has_more && !is_in_name(fault.front) => {
            explain_fields(said, b" comes after ", fields, type_item)
        }
        b"" => explain_plainly(said, TextKind::Plan, fault.reason, fault.token),
        _ if is_known && has_more => {
            said.say(
                b" can't follow a selector",
                b"write ' . ' between selectors",
            )
        }
        _ if is_known => said.tell(
            &[Piece::Word(b" can't follow the last selector")],
            &[
                Piece::Word(b"leave it out, or write it in a line of its own; the set's type is "),
                Piece::Word(types_of(type_item)),
            ],
        ),
        _ if last_word(fault.front).is_empty() && line_count(fault.before) >= MOST_LINES => {
            said.say(b" begins one line too many", b"a plan has 4 lines at most")
        }
        _ => explain_plainly(said, TextKind::Plan, fault.reason, fault.token),
    }
}

/// Explains the bad token of a plan beside a script that declares these sets.
pub(crate) fn explain_plan(
    said: &mut Explained,
    schema: &Schema,
    fault: Beside<'_>,
) -> Result<(), Memory> {
    let item = type_item(said.alloc, schema, fault.line)?;
    let kind = kind_at(item.as_slice(), fields_before(fault.front));
    match fault.reason {
        Reason::Set => explain_set(said, schema, fault),
        Reason::Character if fault.token.first() == Some(&b'@') => {
            explain_at_sign(said, schema, fault)
        }
        Reason::Statement => explain_between(said, item.as_slice(), fault),
        reason => match kind {
            Some(kind) if reason == Reason::TypeWord => {
                explain_selector(said, item.as_slice(), kind, fault)
            }
            _ => explain_plainly(said, TextKind::Plan, reason, fault.token),
        },
    }
}
