//! Explains the expressions of a set's `typeof`.
use field_advice::{expression_at, grown};
use set_model::Memory;
use set_script::read_expression_word;
use text_pieces::Piece;
use token_notes::{Explained, LONG_KEY, count_of, is_one_of, last_word, shortened};

/// The words of expressions.
const EXPRESSION_WORDS: [&[u8]; 22] = [
    b"ip",
    b"ip6",
    b"tcp",
    b"udp",
    b"sctp",
    b"dccp",
    b"udplite",
    b"th",
    b"ether",
    b"meta",
    b"ct",
    b"arp",
    b"saddr",
    b"daddr",
    b"sport",
    b"dport",
    b"protocol",
    b"nexthdr",
    b"l4proto",
    b"mark",
    b"original",
    b"reply",
];

const FOR_EXPRESSIONS: &[u8] =
    b"the expressions are of addresses, ports, protocols and marks, as: typeof ip saddr . tcp dport";

/// Whether a word is one of an expression.
pub(crate) fn is_expression_word(word: &[u8]) -> bool {
    read_expression_word(word).is_some()
}

/// Whether the last expression of a part of a `typeof` item lacks words.
pub(crate) fn lacks_words(part: &[u8]) -> bool {
    match expression_at(part, count_of(part, b".")) {
        Some(expression) => expression.kind().is_none(),
        None => false,
    }
}

/// Adds the words that go on with the last expression of this part.
fn add_words(said: &mut Explained, part: &[u8]) -> Result<(), Memory> {
    let expression = expression_at(part, count_of(part, b"."));
    let mut front: &[u8] = b"write ";
    for word in &EXPRESSION_WORDS {
        if grown(expression, word).is_some() {
            match said.tell(&[], &[Piece::Word(front), Piece::Word(word)]) {
                Ok(()) => front = b" or ",
                Err(_) => return Err(Memory),
            }
        }
    }
    Ok(())
}

/// Explains a token before which an expression lacks words.
pub(crate) fn explain_unfinished(said: &mut Explained, part: &[u8]) -> Result<(), Memory> {
    let last = last_word(part);
    said.wrong.say(b" comes before the end of an expression")?;
    if is_one_of(last, &[b"typeof", b"."]) {
        return said
            .help
            .say(b"write an expression before it, as: tcp dport");
    }
    add_words(said, part)?;
    said.tell(
        &[],
        &[
            Piece::Word(b" after '"),
            Piece::Word(shortened(last)),
            Piece::Word(b"'"),
        ],
    )
}

/// Explains a token at the place of a word of an expression, after this part of the item.
pub(crate) fn explain_expression(
    said: &mut Explained,
    part: &[u8],
    token: &[u8],
) -> Result<(), Memory> {
    if grown(expression_at(part, count_of(part, b".")), token).is_some() {
        return said.say(b" makes the key too long", LONG_KEY);
    }
    if is_one_of(token, &[b"", b".", b";", b"}"]) {
        return explain_unfinished(said, part);
    }
    said.suggest(
        b" isn't part of an expression that is known here",
        token,
        &EXPRESSION_WORDS,
        FOR_EXPRESSIONS,
    )
}
