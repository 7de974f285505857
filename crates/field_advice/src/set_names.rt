//! Explains a name that no declared set has: which one was probably meant, or else which there are.
use crate::set_words::{SetWords, words_of};
use set_model::{Memory, Schema};
use std::alloc::Global;
use text_pieces::Piece;
use token_notes::{Explained, nearest};

/// How many sets are named in a note.
const MOST_NAMED: usize = 8;

/// Adds a set's family, table and name to what to do.
///
/// # Errors
///
/// `Memory` if memory runs out.
pub fn add_set<'x>(
    said: &mut Explained,
    front: &'x [u8],
    set: SetWords<'x>,
    behind: &'x [u8],
) -> Result<(), Memory> {
    said.help.pieces(
        said.alloc,
        &[
            Piece::Word(front),
            Piece::Word(set.family),
            Piece::Word(b" "),
            Piece::Word(set.table),
            Piece::Word(b" "),
            Piece::Word(set.name),
            Piece::Word(behind),
        ],
    )
}

/// Adds the first of these sets, after words.
fn add_sets<'x>(
    said: &mut Explained,
    words: &'x [u8],
    sets: &[SetWords<'x>],
) -> Result<(), Memory> {
    let mut front = words;
    for set in sets.iter().take(MOST_NAMED) {
        match add_set(said, front, *set, b"") {
            Ok(()) => front = b", ",
            Err(_) => return Err(Memory),
        }
    }
    said.help.say(if sets.len() > MOST_NAMED {
        b", .."
    } else {
        b""
    })
}

/// The first declared set that was probably meant: one of the same name, or of a similar one.
fn meant<'a>(
    alloc: Global,
    name: &[u8],
    sets: &[SetWords<'a>],
) -> Result<Option<SetWords<'a>>, Memory> {
    for set in sets {
        if set.name == name {
            return Ok(Some(*set));
        }
    }
    for set in sets {
        match nearest(alloc, name, &[set.name]) {
            Ok(Some(_)) => return Ok(Some(*set)),
            Ok(None) => {}
            Err(_) => return Err(Memory),
        }
    }
    Ok(None)
}

/// Says which of these sets was probably meant by a name, or else which there are.
///
/// # Errors
///
/// `Memory` if memory runs out.
pub fn suggest_set<'x>(
    said: &mut Explained,
    name: &[u8],
    words: &'x [u8],
    sets: &[SetWords<'x>],
) -> Result<(), Memory> {
    match meant(said.alloc, name, sets)? {
        Some(set) => add_set(said, b"did you mean '", set, b"'?"),
        None => add_sets(said, words, sets),
    }
}

/// The names of the sets that a script declares.
fn declared_names(alloc: Global, schema: &Schema) -> Result<Vec<SetWords<'_>>, Memory> {
    let names = schema
        .as_slice()
        .iter()
        .map(|set| words_of(set))
        .collect(alloc)?;
    Ok(names)
}

/// Explains the name of a set that the script doesn't declare, in a text beside the script.
///
/// # Errors
///
/// `Memory` if memory runs out.
pub fn explain_unknown(said: &mut Explained, schema: &Schema, name: &[u8]) -> Result<(), Memory> {
    said.wrong.say(b" isn't a set of the script")?;
    let names = declared_names(said.alloc, schema)?;
    if names.is_empty() {
        return said.help.say(b"the script declares no set");
    }
    suggest_set(said, name, b"the script's sets are ", names.as_slice())
}
