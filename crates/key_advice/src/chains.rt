//! Explains the name of a chain that a rules file can't declare at its place, or can't jump to.
use crate::beside::Beside;
use set_model::Memory;
use std::alloc::Global;
use text_pieces::Piece;
use token_forms::{Tokens, is_a_name};
use token_notes::{Explained, bytes_of, nearest, shortened};

/// The line in which a chain of this name is declared.
fn line_of_chain(text: &[u8], name: &[u8]) -> Option<u64> {
    let mut last: &[u8] = b"";
    for token in Tokens::new(text) {
        let bytes = bytes_of(text, token);
        if last == b"chain".as_slice() && bytes == name {
            return Some(token.line);
        }
        last = bytes;
    }
    None
}

/// The names of the chains that a text declares.
fn chain_names(alloc: Global, text: &[u8]) -> Result<Vec<&[u8]>, Memory> {
    let mut names = Vec::new(alloc);
    let mut last: &[u8] = b"";
    for token in Tokens::new(text) {
        let bytes = bytes_of(text, token);
        if last == b"chain".as_slice() && names.push(bytes).is_err() {
            return Err(Memory);
        }
        last = bytes;
    }
    Ok(names)
}

/// Explains a token at the place of a new chain's name.
pub(crate) fn explain_chain_name(said: &mut Explained, fault: Beside<'_>) -> Result<(), Memory> {
    match line_of_chain(fault.before, fault.token) {
        Some(line) if is_a_name(fault.token) => said.tell(
            &[
                Piece::Word(b" is declared twice, first in line "),
                Piece::Number(line),
            ],
            &[Piece::Word(b"give this chain another name, or write its rules into the first one")],
        ),
        _ => said.say(
            b" isn't the name of a chain",
            b"a chain is chain NAME { RULES }; a name begins with a letter or '_'",
        ),
    }
}

/// Says which of the chains before this one may be jumped to.
fn suggest_chain(said: &mut Explained, name: &[u8], earlier: &[&[u8]]) -> Result<(), Memory> {
    if earlier.is_empty() {
        return said.help.pieces(
            said.alloc,
            &[
                Piece::Word(b"declare it before this chain, as: chain "),
                Piece::Word(shortened(name)),
                Piece::Word(b" { in ip t s accept }"),
            ],
        );
    }
    if let Some(other) = nearest(said.alloc, name, earlier)? {
        return said.help.pieces(
            said.alloc,
            &[
                Piece::Word(b"did you mean '"),
                Piece::Word(other),
                Piece::Word(b"'?"),
            ],
        );
    }
    let mut front: &[u8] = b"the chains before this one are ";
    for other in earlier {
        let added = said
            .help
            .pieces(said.alloc, &[Piece::Word(front), Piece::Word(other)]);
        match added {
            Ok(()) => front = b", ",
            Err(_) => return Err(Memory),
        }
    }
    Ok(())
}

/// Explains the name of a chain that isn't among those before a chain.
fn explain_unknown_chain(
    said: &mut Explained,
    text: &[u8],
    name: &[u8],
    earlier: &[&[u8]],
) -> Result<(), Memory> {
    said.wrong
        .say(b" isn't a chain that is declared before this place")?;
    match line_of_chain(text, name) {
        Some(line) => said.help.pieces(
            said.alloc,
            &[
                Piece::Word(b"move 'chain "),
                Piece::Word(shortened(name)),
                Piece::Word(b"' of line "),
                Piece::Number(line),
                Piece::Word(b" before this chain"),
            ],
        ),
        None => suggest_chain(said, name, earlier),
    }
}

/// Explains the target of a `jump` that is no earlier chain.
pub(crate) fn explain_jump(said: &mut Explained, fault: Beside<'_>) -> Result<(), Memory> {
    let name = fault.token;
    if !is_a_name(name) {
        return said.say(
            b" isn't the name of a chain",
            b"write the name of an earlier chain after 'jump'",
        );
    }
    let names = chain_names(said.alloc, fault.before)?;
    match names.as_slice() {
        [.., own] if *own == name => said.say(
            b" is the name of this chain itself",
            b"jump to a chain that is declared before this one",
        ),
        [earlier @ .., _] => explain_unknown_chain(said, fault.text, name, earlier),
        [] => explain_unknown_chain(said, fault.text, name, &[]),
    }
}
