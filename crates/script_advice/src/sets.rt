//! Explains the name of a set that can't be declared or used at its place.
use crate::around::{Level, SetText};
use crate::fault::Fault;
use field_advice::{SetWords, explain_family, family_meant, set_named, suggest_set};
use set_model::Memory;
use std::alloc::Global;
use text_pieces::Piece;
use token_notes::{Explained, word_at};

/// The set that the bad token names.
fn named(fault: Fault<'_>) -> SetWords<'_> {
    if fault.around.level == Level::Table {
        return SetWords {
            name: fault.token,
            ..set_named(fault.around.statement, 1)
        };
    }
    SetWords {
        name: fault.token,
        ..set_named(fault.around.part, 2)
    }
}

/// How a set is named.
pub(crate) const SET_NAME: &[u8] =
    b"a set is named by [FAMILY] TABLE SET; a name begins with a letter or '_'";

fn begins_a_name(word: &[u8]) -> bool {
    matches!(word, [b'a'..=b'z' | b'A'..=b'Z' | b'_', ..])
}

/// Explains the name of a set that can't be declared.
fn explain_declared(said: &mut Explained, fault: Fault<'_>) -> Result<(), Memory> {
    if let Some(first) = fault.declared_as(named(fault)) {
        return said.tell(
            &[
                Piece::Word(b" is declared twice, first in line "),
                Piece::Number(first.line),
            ],
            &[Piece::Word(b"declare a set once; 'add element' adds elements to it")],
        );
    }
    if !begins_a_name(fault.token) || fault.token.len() > 127 {
        return said.say(
            b" isn't the name of a set",
            b"a name begins with a letter or '_' and has at most 127 bytes",
        );
    }
    if fault.around.is_late {
        return said.say(
            b" is declared too late",
            b"declare all sets before the first commit, abort or round",
        );
    }
    said.say(
        b" is one set too many",
        b"a script declares at most 64 sets",
    )
}

/// The names of sets of a script.
fn names_of<'a>(alloc: Global, sets: &[SetText<'a>]) -> Result<Vec<SetWords<'a>>, Memory> {
    let names = sets.iter().map(|set| set.words).collect(alloc)?;
    Ok(names)
}

/// Whether a set that is declared before the token is in a table of this name.
fn has_table(fault: Fault<'_>, table: &[u8]) -> bool {
    for set in fault.sets {
        if set.words.table == table {
            return true;
        }
    }
    false
}

/// Explains the name of a set that isn't declared.
fn explain_used(said: &mut Explained, fault: Fault<'_>) -> Result<(), Memory> {
    let table = word_at(fault.around.part, 2);
    if family_meant(table).is_some() && !has_table(fault, table) {
        return explain_family(said, table);
    }
    said.wrong
        .say(b" isn't a set that is declared before this place")?;
    if fault.sets.is_empty() {
        return said.help.say(b"declare the set first: add set [FAMILY] TABLE SET { type .. }");
    }
    let names = names_of(said.alloc, fault.sets)?;
    suggest_set(
        said,
        fault.token,
        b"the sets declared before are ",
        names.as_slice(),
    )
}

/// Explains a token in the place of a set's name, after this table. If the word before it names a set, that set
/// was meant.
pub(crate) fn explain_no_name(
    said: &mut Explained,
    fault: Fault<'_>,
    table: &[u8],
) -> Result<(), Memory> {
    said.wrong.say(b" isn't the name of a set")?;
    let is_used = word_at(fault.around.part, 1) != b"set".as_slice()
        || word_at(fault.around.part, 0) != b"add".as_slice();
    if !is_used || fault.sets.is_empty() {
        return said.help.say(SET_NAME);
    }
    let names = names_of(said.alloc, fault.sets)?;
    suggest_set(
        said,
        table,
        b"the sets declared before are ",
        names.as_slice(),
    )
}

/// Explains a word at the place of a set's name.
pub(crate) fn explain_set(said: &mut Explained, fault: Fault<'_>) -> Result<(), Memory> {
    let part = fault.around.part;
    let is_added = word_at(part, 0) == b"add".as_slice() && word_at(part, 1) == b"set".as_slice();
    if is_added || fault.around.level == Level::Table {
        return explain_declared(said, fault);
    }
    explain_used(said, fault)
}
