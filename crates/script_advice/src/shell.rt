//! Explains what a script has from a shell: commands, backslashes and quotes.
use crate::around::Level;
use crate::fault::Fault;
use set_model::Memory;
use token_forms::Reason;
use token_notes::{
    Explained, TextKind, explain_plainly, first_line, last_word, without_blanks_behind,
};

/// Explains a command of a shell that a statement is given to, if the word is one.
pub(crate) fn for_command(word: &[u8]) -> Option<&'static [u8]> {
    match word {
        b"nft" => Some(
            b"leave out 'nft', and write ';' without '\\', as: add set ip t p { type mark; }",
        ),
        b"sudo" | b"doas" => Some(
            b"leave out all up to 'nft', and write ';' without '\\', as: add set ip t p { type mark; }",
        ),
        _ if word.ends_with(b"/nft") => Some(
            b"leave it out, and write ';' without '\\', as: add set ip t p { type mark; }",
        ),
        _ => None,
    }
}

/// Whether the first line of a script names a shell.
pub(crate) fn names_a_shell(text: &[u8]) -> bool {
    let line = first_line(text);
    line.starts_with(b"#!") && without_blanks_behind(line).ends_with(b"sh")
}

/// Explains a `\` of a script.
pub(crate) fn explain_backslash(said: &mut Explained, fault: Fault<'_>) -> Result<(), Memory> {
    let behind = fault.around.behind(fault.at);
    match behind {
        [_, b';' | b'{' | b'}' | b'"' | b'*', ..] => said.say(
            b" is an unexpected character",
            b"leave it out: only a shell needs it",
        ),
        [_] => said.say(
            b" is an unexpected character",
            b"leave it out: the text ends here",
        ),
        _ => explain_plainly(said, TextKind::Script, Reason::Character, fault.token),
    }
}

/// Whether a token is a single quote in the place of a comment.
pub(crate) fn is_quoted_comment(fault: Fault<'_>) -> bool {
    fault.token.first() == Some(&b'\'') && last_word(fault.around.part) == b"comment".as_slice()
}

/// Explains a comment in single quotes.
pub(crate) fn explain_quoted_comment(said: &mut Explained) -> Result<(), Memory> {
    said.say(
        b" is an unexpected character",
        b"write the comment in double quotes, as: comment \"web\"",
    )
}

/// Whether a `\` at the end of the line before joins a token's line to it.
fn is_joined(before: &[u8]) -> bool {
    without_blanks_behind(before).ends_with(b"\\\n")
}

/// Explains a token before which the statement, the set or the item is whole.
pub(crate) fn explain_end(
    said: &mut Explained,
    fault: Fault<'_>,
    help: &[u8],
) -> Result<(), Memory> {
    let is_joined = is_joined(fault.around.before(fault.at));
    said.say(
        if fault.around.level == Level::Set {
            b" comes after the end of the item"
        } else {
            b" comes after the end of the statement"
        },
        if is_joined {
            b"leave out the '\\' at the end of the line before, which joins the two lines"
        } else {
            help
        },
    )
}
