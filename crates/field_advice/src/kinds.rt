//! Finds the types of a set's fields in its item `type` or `typeof`.
use set_model::Kind;
use set_script::{Expression, read_expression_word};
use token_forms::{TokenKind, Tokens};
use token_notes::{bytes_of, word_at};

/// Whether an item of a set begins with `typeof`.
pub fn is_typeof(item: &[u8]) -> bool {
    word_at(item, 0) == b"typeof".as_slice()
}

/// What a word adds to an expression. There is nothing to add to what is no expression.
pub fn grown(part: Option<Expression>, word: &[u8]) -> Option<Expression> {
    part?.grown(read_expression_word(word))
}

/// The expression of a field, from 0, of a `typeof` item, as far as it goes.
pub fn expression_at(item: &[u8], field: u64) -> Option<Expression> {
    let mut number = 0u64;
    let mut part = Some(Expression::Empty);
    for token in Tokens::new(item) {
        let bytes = bytes_of(item, token);
        if bytes == b".".as_slice() {
            if number == field {
                return part;
            }
            number = number.saturating_add(1);
            part = Some(Expression::Empty);
        } else if bytes != b"typeof".as_slice()
            && !matches!(token.kind, TokenKind::Break | TokenKind::End)
        {
            part = grown(part, bytes);
        }
    }
    if number == field { part } else { None }
}

/// The type of a field, from 0, of a `typeof` item.
pub(crate) fn kind_of_expression(item: &[u8], field: u64) -> Option<Kind> {
    expression_at(item, field)?.kind()
}

/// The kinds, by their words in a script.
const KINDS: [(&[u8], Kind); 6] = [
    (b"ipv4_addr", Kind::Ipv4),
    (b"ipv6_addr", Kind::Ipv6),
    (b"ether_addr", Kind::Ether),
    (b"inet_proto", Kind::Proto),
    (b"inet_service", Kind::Service),
    (b"mark", Kind::Mark),
];

/// The kind that a word names.
fn kind_of(word: &[u8]) -> Option<Kind> {
    for (other, kind) in &KINDS {
        if *other == word {
            return Some(*kind);
        }
    }
    None
}

/// The kind of a field, from 0, in a set's `type` or `typeof` item.
pub fn kind_at(type_item: &[u8], field: u64) -> Option<Kind> {
    if is_typeof(type_item) {
        return kind_of_expression(type_item, field);
    }
    kind_of(word_at(type_item, field.saturating_mul(2).saturating_add(1)))
}
