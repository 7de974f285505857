//! Explains a bad token by its reason alone, without what surrounds it.
use crate::explained::Explained;
use set_model::Memory;
use token_forms::Reason;

/// The grammar in which a text was read.
#[derive(Clone, Copy, Debug, PartialEq, Eq)]
pub enum TextKind {
    Script,
    Keys,
    Rules,
    Plan,
}

/// The words that take a value from a packet.
pub const SELECTORS: [&[u8]; 9] = [
    b"ip_saddr",
    b"ip_daddr",
    b"ip6_saddr",
    b"ip6_daddr",
    b"ether_saddr",
    b"ether_daddr",
    b"proto",
    b"sport",
    b"dport",
];

/// How a time is written.
pub const TIME: &[u8] =
    b"write seconds, as 90, or parts from days to milliseconds, as 1d2h3m4s500ms";

/// How a set's size is written.
pub const SIZE: &[u8] = b"write a number from 1 to 4294967295";

const NO_CHAINS: &[u8] =
    b"remove chains and rules, or read a whole ruleset with --sets: a script has only sets";

const NO_MAPS: &[u8] =
    b"remove maps and flowtables, or read a whole ruleset with --sets: a script has only sets";

const NO_COUNTERS: &[u8] =
    b"remove it, or read a whole ruleset with --sets: elements have no counters, quotas and limits";

const NO_VARIABLES: &[u8] = b"write the values themselves: there are no variables";

const NO_FLAG: &[u8] = b"remove the flag: the flags are interval, timeout and disjoint";

/// Words that nft(8) reads and this program doesn't, and what to do about each.
const LEFT_OUT: [(&[u8], &[u8]); 14] = [
    (b"chain", NO_CHAINS),
    (b"rule", NO_CHAINS),
    (b"map", NO_MAPS),
    (b"flowtable", NO_MAPS),
    (b"counter", NO_COUNTERS),
    (b"quota", NO_COUNTERS),
    (b"limit", NO_COUNTERS),
    (b"define", NO_VARIABLES),
    (b"undefine", NO_VARIABLES),
    (b"redefine", NO_VARIABLES),
    (b"include", b"copy the included file to this place"),
    (
        b"auto-merge",
        b"remove it: intervals aren't merged, and one that overlaps is refused",
    ),
    (b"constant", NO_FLAG),
    (b"dynamic", NO_FLAG),
];

/// What to do about a word that nft(8) reads and this program doesn't. Every other such word is `*` here.
fn for_left_out(word: &[u8]) -> &'static [u8] {
    for (other, help) in &LEFT_OUT {
        if *other == word {
            return *help;
        }
    }
    b"to match all values, write a prefix or a range, as 0.0.0.0/0"
}

/// How long a key is at most.
pub const LONG_KEY: &[u8] =
    b"a key has 16 fields and 64 bytes at most: ipv6_addr takes 16 of them, ether_addr 8, each other type 4";

/// What to do with the interface in an address, as in `fe80::1%eth0`.
pub const NO_INTERFACE: &[u8] = b"leave it out, and the interface after it: an address has none";

/// What to do about a token that begins with this byte, which begins no word and no string.
fn for_character(first: Option<&u8>) -> &'static [u8] {
    match first {
        Some(b'"') => b"end the string with '\"' in its line, after at most 128 bytes",
        Some(b'$') => b"write the values themselves: there are no variables",
        Some(b'@') => b"write the values themselves: there are no references to sets",
        Some(b'\'') => b"leave it out: only comments are in quotes, as: comment \"web\"",
        Some(b'[' | b']' | b'(' | b')') =>
            b"leave the brackets out: a range is written as 80-90, and a list as { 80, 90 }",
        Some(b'!' | b'<' | b'>') =>
            b"write the values that the set holds: there is no negation and no comparison",
        Some(b'|' | b'&' | b'^' | b'+') => b"write the value itself: there are no operators",
        Some(b'\\') => b"end the line right after it, or leave it out",
        Some(b'%') => NO_INTERFACE,
        Some(128..=255) => b"write ASCII: other characters may be in strings and comments only",
        _ => b"words have letters, digits and '_', '.', '/', ':', '-'; a comment begins with '#'",
    }
}

/// What is missing if a text ends too early.
fn for_end(kind: TextKind) -> &'static [u8] {
    match kind {
        TextKind::Rules => b"close each '{', and write 'policy accept' or 'policy drop' at the end",
        TextKind::Plan => b"write at least one line, with one selector for each field of the set",
        _ => b"complete the line: [FAMILY] TABLE SET VALUE . VALUE ..",
    }
}

/// What a rules file is.
pub const RULES_FILE: &[u8] =
    b"write 'chain NAME { RULES }', with rules such as 'in ip t s accept', and at the end 'policy accept' or 'policy drop'";

/// What a line or a statement is.
fn for_statement(kind: TextKind) -> &'static [u8] {
    match kind {
        TextKind::Rules => RULES_FILE,
        TextKind::Plan =>
            b"write at most 4 lines [FAMILY] TABLE SET SELECTOR . SELECTOR .., with one selector for each field",
        _ =>
            b"write a line [FAMILY] TABLE SET VALUE . VALUE .., with one value for each field, or 'at' MOMENT, or 'round'",
    }
}

/// Explains a `@` in front of a set's name.
///
/// # Errors
///
/// `Memory` if memory runs out.
pub fn explain_reference(said: &mut Explained) -> Result<(), Memory> {
    said.say(
        b" is an unexpected character",
        b"write the set's name without '@'",
    )
}

/// Explains a token that begins a comment in other languages.
///
/// # Errors
///
/// `Memory` if memory runs out.
pub fn explain_slashes(said: &mut Explained) -> Result<(), Memory> {
    said.say(b" doesn't begin a comment", b"begin a comment with '#'")
}

/// Explains such a token in a list of elements. A comment with `#` would hide the closing brace.
///
/// # Errors
///
/// `Memory` if memory runs out.
pub fn explain_slashes_in_list(said: &mut Explained) -> Result<(), Memory> {
    said.say(
        b" doesn't begin a comment",
        b"write it as: 80 comment \"web\"; or close the braces before a comment with '#'",
    )
}

/// Whether a token begins a comment in other languages.
pub fn is_slashes(token: &[u8]) -> bool {
    token == b"/".as_slice() || token.starts_with(b"//")
}

/// Explains a bad token by its reason.
///
/// # Errors
///
/// `Memory` if memory runs out.
pub fn explain_plainly(
    said: &mut Explained,
    kind: TextKind,
    reason: Reason,
    token: &[u8],
) -> Result<(), Memory> {
    match reason {
        Reason::Character => said.say(b" is an unexpected character", for_character(token.first())),
        Reason::End => said.say(b" comes too early", for_end(kind)),
        Reason::LeftOut => said.say(b" isn't supported", for_left_out(token)),
        Reason::Time => said.say(b" isn't a time", TIME),
        Reason::Moment => said.say(
            b" isn't a moment",
            b"write a number of milliseconds, at most 1000000000000000",
        ),
        Reason::Set => said.say(
            b" isn't a set of the script",
            b"name a set that the script declares, by [FAMILY] TABLE SET",
        ),
        Reason::Number => said.say(b" isn't a size", b"write a number from 1 to 4294967295"),
        Reason::Statement if token.is_empty() => said.say(b" comes too early", for_end(kind)),
        Reason::Value | Reason::TypeWord | Reason::Statement => said.say(
            b" can't come here",
            for_statement(kind),
        ),
    }
}
