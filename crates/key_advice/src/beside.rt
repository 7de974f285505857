//! A bad token of a rules file or a plan, and what both say of sets and families.
use field_advice::{add_set, explain_family, explain_unknown, family_meant, words_of};
use set_model::{Memory, Schema, SetDecl};
use token_forms::Reason;
use token_notes::{Explained, last_word, word_at};

/// A bad token of a rules file or a plan, and the text around it.
#[derive(Clone, Copy)]
pub(crate) struct Beside<'a> {
    pub(crate) text: &'a [u8],
    /// The text before the token, and from it on.
    pub(crate) before: &'a [u8],
    pub(crate) behind: &'a [u8],
    /// The token's line, and the line before the token.
    pub(crate) line: &'a [u8],
    pub(crate) front: &'a [u8],
    /// The token's bytes in its line. A line feed and the end of the text have none.
    pub(crate) token: &'a [u8],
    pub(crate) reason: Reason,
}

/// The first set of a script that has this name.
pub(crate) fn set_of_name<'a>(schema: &'a Schema, name: &[u8]) -> Option<&'a SetDecl> {
    for set in schema.as_slice() {
        if set.name.as_slice() == name {
            return Some(set);
        }
    }
    None
}

/// Whether a set of a script is in a table of this name.
pub(crate) fn has_table(schema: &Schema, table: &[u8]) -> bool {
    for set in schema.as_slice() {
        if set.table.as_slice() == table {
            return true;
        }
    }
    false
}

/// The word in the place of a family that is none: the word before a set's name that isn't declared. No table has
/// this name.
pub(crate) fn other_family<'a>(schema: &Schema, before: &'a [u8]) -> Option<&'a [u8]> {
    let word = last_word(before);
    if family_meant(word).is_some() && !has_table(schema, word) {
        Some(word)
    } else {
        None
    }
}

/// Explains the name of a set that the script doesn't declare. Before it may be the word that was to be the name.
pub(crate) fn explain_set_beside(
    said: &mut Explained,
    schema: &Schema,
    front: &[u8],
    fault: Beside<'_>,
) -> Result<(), Memory> {
    if let Some(word) = other_family(schema, fault.before) {
        return explain_family(said, word);
    }
    if let Some(set) = set_of_name(schema, last_word(fault.before)) {
        said.wrong.say(b" isn't the name of a set")?;
        said.help
            .say(b"write the set's family, table and name, as: ")?;
        return add_set(said, front, words_of(set), b"");
    }
    explain_unknown(said, schema, fault.token)
}

/// Explains a `@`, after which a set's name may follow.
pub(crate) fn explain_at_sign(
    said: &mut Explained,
    schema: &Schema,
    front: &[u8],
    fault: Beside<'_>,
) -> Result<(), Memory> {
    let name = word_at(fault.behind.get(1..).unwrap_or(b""), 0);
    match set_of_name(schema, name) {
        Some(set) => {
            said.wrong.say(b" is an unexpected character")?;
            said.help.say(b"write the set's family, table and name without '@', as: ")?;
            add_set(said, front, words_of(set), b"")
        }
        None => said.say(
            b" is an unexpected character",
            b"write the set's family, table and name without '@', as: ip t s",
        ),
    }
}
