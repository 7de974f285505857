//! Explains what is left of a ruleset if braces aren't closed before an item.
use crate::around::Level;
use crate::fault::Fault;
use crate::syntax::explain_open;
use set_model::Memory;
use token_notes::{Explained, is_one_of, word_at};

/// The words that begin an item of a table that is no set.
const OTHER_ITEMS: [&[u8]; 3] = [b"chain", b"map", b"flowtable"];

/// Whether a word begins an item of a table that is no set.
pub(crate) fn is_other_item(word: &[u8]) -> bool {
    is_one_of(word, &OTHER_ITEMS)
}

/// Whether a chain, a map or a flowtable begins in a set or a list.
fn is_item_in_set(fault: Fault<'_>) -> bool {
    let begins = is_other_item(fault.token);
    match fault.around.level {
        Level::Elements => begins,
        Level::Set => begins && fault.around.part.is_empty(),
        Level::Table | Level::Statement => false,
    }
}

/// Whether a brace in a table has no `set` before it, but a name at most. This is left of a ruleset's chain that
/// isn't closed, and of a set after a chain that isn't closed.
fn is_without_set(fault: Fault<'_>) -> bool {
    let is_first = fault.around.level == Level::Table && fault.around.part.is_empty();
    let brace = b"{".as_slice();
    is_first && (fault.token == brace || word_at(fault.around.behind(fault.at), 1) == brace)
}

/// Whether the braces of an item may be open at this token.
pub(crate) fn is_held(fault: Fault<'_>) -> bool {
    is_item_in_set(fault) || is_without_set(fault)
}

/// Explains a token at which the braces of an item may be open.
pub(crate) fn explain_held(said: &mut Explained, fault: Fault<'_>) -> Result<(), Memory> {
    match fault.around.level {
        Level::Table if fault.token == b"{".as_slice() => said.say(
            b" can't come in a table",
            b"write 'set' and a name before it; if it is a chain's or a map's, close it with '}'",
        ),
        Level::Table => said.say(
            b" can't come in a table",
            b"write 'set' before it; if 'set' is there, close the '{' of the chain, map or set before it",
        ),
        _ => explain_open(said, fault),
    }
}
