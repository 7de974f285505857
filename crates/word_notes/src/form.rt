//! What a command takes, as the first line of its page of help says.
use command_words::{Page, Verb};

/// How many names a command has at most.
pub(crate) const MOST_NAMES: usize = 4;

/// A command's form, as `usage: pipapo list SCRIPT [--keep-going]`.
pub(crate) fn form_of(verb: Verb) -> &'static [u8] {
    let page = Page::Command(verb).text().as_bytes();
    match page.iter().position(|byte| *byte == b'\n') {
        Some(end) => &page[..end],
        None => page,
    }
}

/// Whether a word of a form is a name's, as `SCRIPT` or `SCRIPT1`.
fn is_name(word: &[u8]) -> bool {
    word.iter()
        .all(|byte| byte.is_ascii_uppercase() || byte.is_ascii_digit())
}

/// The name at a place of a form, from 0.
fn name_in(form: &'static [u8], place: usize) -> Option<&'static [u8]> {
    let mut seen = 0usize;
    for word in form.split(|byte| *byte == b' ') {
        if is_name(word) {
            if seen == place {
                return Some(word);
            }
            seen = seen.saturating_add(1);
        }
    }
    None
}

/// The name at a place of a command's words, from 0. Of a command with several forms it is the first one's.
pub(crate) fn name_at(verb: Verb, place: usize) -> Option<&'static [u8]> {
    name_in(form_of(verb), place)
}

/// Whether a command's words may have a name at a place, in one of its forms.
pub(crate) fn may_name(verb: Verb, place: usize) -> bool {
    for line in Page::Command(verb)
        .text()
        .as_bytes()
        .split(|byte| *byte == b'\n')
    {
        if line.is_empty() {
            return false;
        }
        if name_in(line, place).is_some() {
            return true;
        }
    }
    false
}

/// The options of all commands.
pub(crate) const OPTIONS: [&[u8]; 6] = [
    b"--threads",
    b"--keep-going",
    b"--sets",
    b"--elements",
    b"--json",
    b"--at",
];

/// Whether an option says in which form scripts are given or the answer is written.
pub(crate) fn is_of_form(option: &str) -> bool {
    matches!(option, "--sets" | "--elements" | "--json")
}

/// Whether an option takes a value.
pub(crate) fn has_value(option: &[u8]) -> bool {
    matches!(option, b"--threads" | b"--at")
}

/// The option of a command that a short option begins, as `-t` begins `--threads`. It is none if several begin so.
pub(crate) fn long_option(verb: Verb, short: &[u8]) -> Option<&'static [u8]> {
    let mut found = None;
    for option in &OPTIONS {
        if takes(verb, option) && is_front(short, option) {
            if found.is_some() {
                return None;
            }
            found = Some(*option);
        }
    }
    found
}

/// Whether a short option is a dash and the first letter of a long one.
fn is_front(short: &[u8], option: &[u8]) -> bool {
    match (short, option) {
        ([b'-', letter], [_, _, first, ..]) => letter == first,
        _ => false,
    }
}

/// Whether a command takes an option.
pub(crate) fn takes(verb: Verb, option: &[u8]) -> bool {
    for word in form_of(verb).split(|byte| *byte == b' ') {
        let word = word.strip_prefix(b"[").unwrap_or(word);
        if word.strip_suffix(b"]").unwrap_or(word) == option {
            return true;
        }
    }
    false
}
