//! Finds out, by first bytes and words, what a file is instead of the one that was asked for.
ghost use Rattle.std.specs.Prelude.{◌≡◌, ◌≤◌, length, not};
ghost use Rattle.std.specs.List.{prefix_len};
ghost use Rattle.token_forms.specs.Bytes.{is_blank as is_blank_byte};
ghost use Rattle.token_notes.specs.OtherKind.{after_run, begins_a_rules_file as is_rules_word, begins_a_statement as is_statement_word, begins_a_value as is_value_front, first_word as first_word_of, is_capture as is_a_capture, is_family as is_a_family, is_foreign as is_a_foreign, is_json as is_a_json, is_marked as is_a_marked, is_other_kind as is_of_other_kind, is_outside as is_outside_braces, is_packed as is_a_packed, is_selector as is_a_selector, is_space as is_space_byte, is_swapped as is_a_swapped, is_utf16 as is_a_utf16, is_verb as is_a_verb};

use crate::help::{SELECTORS, TextKind};
use crate::source::{cut_at, first_of};
use crate::words::{is_one_of, last_word, word_at};
use token_forms::BadToken;

fn is_blank(byte: u8) -> bool
    ensures { result ≡ is_blank_byte byte }
{
    byte == b' ' || byte == b'\t' || byte == b'\r'
}

fn is_space(byte: u8) -> bool
    ensures { result ≡ is_space_byte byte }
{
    is_blank(byte) || byte == b'\n'
}

/// How many blanks are at the front.
fn blank_count(text: &[u8]) -> usize
    ensures run { result ≡ prefix_len is_blank_byte text.now }
    ensures within { result ≤ length text.now }
{
    text.iter().take_while(|b| is_blank(**b)).count()
}

/// How many blanks and line feeds are at the front.
fn space_count(text: &[u8]) -> usize
    ensures run { result ≡ prefix_len is_space_byte text.now }
    ensures within { result ≤ length text.now }
{
    text.iter().take_while(|b| is_space(**b)).count()
}

/// The bytes after the blanks at the front.
pub fn without_blanks(text: &[u8]) -> &[u8]
    ensures { result.now ≡ after_run is_blank_byte text.now }
{
    &text[blank_count(text)..]
}

/// The bytes after the blanks and line feeds at the front.
fn after_spaces(text: &[u8]) -> &[u8]
    ensures { result.now ≡ after_run is_space_byte text.now }
{
    &text[space_count(text)..]
}

/// The bytes before the blanks at the end.
pub fn without_blanks_behind(text: &[u8]) -> &[u8] {
    match text.iter().rposition(|b| !is_blank(*b)) {
        Some(i) => &text[..i + 1],
        None => &[],
    }
}

/// How many bytes come before the first blank.
fn word_length(text: &[u8]) -> usize
    ensures run { result ≡ prefix_len (λ b. not (is_blank_byte b)) text.now }
    ensures within { result ≤ length text.now }
{
    text.iter().take_while(|b| !is_blank(**b)).count()
}

/// The first word of a line, between blanks.
fn first_word(line: &[u8]) -> &[u8]
    ensures { result.now ≡ first_word_of line.now }
{
    let word = without_blanks(line);
    &word[..word_length(word)]
}

fn is_packed(text: &[u8]) -> bool
    ensures { result ≡ is_a_packed text.now }
{
    text.starts_with(b"\x1f\x8b")
}

/// Whether the first bytes are of a pcapng file, or of a pcap file in microseconds or nanoseconds and in
/// either byte order.
fn is_capture(text: &[u8]) -> bool
    ensures { result ≡ is_a_capture text.now }
{
    text.starts_with(b"\x0a\x0d\x0d\x0a")
        || text.starts_with(b"\xd4\xc3\xb2\xa1")
        || text.starts_with(b"\xa1\xb2\xc3\xd4")
        || text.starts_with(b"\x4d\x3c\xb2\xa1")
        || text.starts_with(b"\xa1\xb2\x3c\x4d")
}

/// Whether a text begins with UTF-8's byte order mark.
fn is_marked(text: &[u8]) -> bool
    ensures { result ≡ is_a_marked text.now }
{
    text.starts_with(b"\xef\xbb\xbf")
}

fn is_utf16(text: &[u8]) -> bool
    ensures { result ≡ is_a_utf16 text.now }
{
    text.starts_with(b"\xff\xfe") || text.starts_with(b"\xfe\xff")
}

/// Whether the first bytes are those of a listing by `nft -j`.
fn is_json(text: &[u8]) -> bool
    ensures { result ≡ is_a_json text.now }
{
    text.starts_with(b"{") && after_spaces(&text[1..]).starts_with(b"\"nftables\"")
}

/// Whether a file is no text of this program, by its first bytes.
fn is_foreign(text: &[u8]) -> bool
    ensures { result ≡ is_a_foreign text.now }
{
    is_packed(text) || is_capture(text) || is_marked(text) || is_utf16(text) || is_json(text)
}

pub fn is_family(word: &[u8]) -> bool
    ensures { result ≡ is_a_family word.now }
{
    word == b"ip".as_slice()
        || word == b"ip6".as_slice()
        || word == b"inet".as_slice()
        || word == b"arp".as_slice()
        || word == b"bridge".as_slice()
        || word == b"netdev".as_slice()
}

/// Whether a word begins a statement on elements.
fn is_verb(word: &[u8]) -> bool
    ensures { result ≡ is_a_verb word.now }
{
    word == b"add".as_slice()
        || word == b"create".as_slice()
        || word == b"delete".as_slice()
        || word == b"destroy".as_slice()
}

/// Whether a word begins a statement of a script that no line of a key file begins with.
pub fn begins_a_statement(word: &[u8]) -> bool
    ensures { result ≡ is_statement_word word.now }
{
    is_verb(word) || word == b"flush".as_slice() || word == b"table".as_slice()
}

/// Whether a word begins a part of a rules file.
fn begins_a_rules_file(word: &[u8]) -> bool
    ensures { result ≡ is_rules_word word.now }
{
    word == b"chain".as_slice() || word == b"policy".as_slice()
}

/// Whether a word takes a value from a packet.
fn is_selector(word: &[u8]) -> bool
    ensures { result ≡ is_a_selector word.now }
{
    word == b"ip_saddr".as_slice()
        || word == b"ip_daddr".as_slice()
        || word == b"ip6_saddr".as_slice()
        || word == b"ip6_daddr".as_slice()
        || word == b"ether_saddr".as_slice()
        || word == b"ether_daddr".as_slice()
        || word == b"proto".as_slice()
        || word == b"sport".as_slice()
        || word == b"dport".as_slice()
}

/// Whether a word begins with a digit or a `:`, as most values do.
fn begins_a_value(word: &[u8]) -> bool
    ensures { result ≡ is_value_front word.now }
{
    match word {
        [first, ..] => 48 <= *first && *first <= 58,
        [] => false,
    }
}

/// Whether a word belongs to a text of another kind. Beside it is the bad token of its line.
fn is_swapped(kind: TextKind, word: &[u8], token: &[u8]) -> bool
    ensures { result ≡ is_a_swapped kind word.now token.now }
{
    match kind {
        TextKind::Script => is_family(word) || begins_a_rules_file(word),
        TextKind::Keys => (is_family(word) && is_selector(token))
            || begins_a_rules_file(word)
            || (begins_a_statement(word)
                && !(is_verb(word) && (token == b"element".as_slice() || is_family(token)))),
        TextKind::Rules => is_family(word),
        TextKind::Plan => begins_a_statement(word) || (is_family(word) && begins_a_value(token)),
    }
}

/// Whether no `{` comes before a bad token.
fn is_outside(text: &[u8], bad: BadToken) -> bool
    ensures { result ≡ is_outside_braces text.now bad }
{
    first_of(text, bad.at as usize).iter().all(|b| *b != b'{')
}

/// Whether a text with this bad token is of another kind than the one that is expected.
pub fn is_other_kind(kind: TextKind, text: &[u8], bad: BadToken) -> bool
    ensures { result ≡ is_of_other_kind kind text.now bad }
{
    let cut = cut_at(text, bad);
    let is_swapped = is_swapped(kind, first_word(cut.line), cut.token);
    is_foreign(text) || (is_swapped && (kind != TextKind::Script || is_outside(text, bad)))
}

/// Whether a line of a key file begins as a statement on elements does.
pub fn is_element_line(line: &[u8]) -> bool {
    let first = word_at(line, 0);
    let second = word_at(line, 1);
    let is_on_elements = second == b"element".as_slice() || is_family(second);
    is_one_of(first, &[b"element", b"set"])
        || ((is_verb(first) || first == b"get".as_slice()) && is_on_elements)
}

/// What to do with a capture that was given in the place of a text.
fn for_capture(kind: TextKind) -> &'static [u8] {
    match kind {
        TextKind::Keys =>
            b"this is a capture of packets, and no key file: 'pipapo capture SCRIPT PLAN PCAP' looks its packets up",
        TextKind::Rules => b"this is a capture of packets, and no rules file",
        TextKind::Script | TextKind::Plan =>
            b"this is a capture of packets: the script is named first, then the plan, and then the capture",
    }
}

/// What a text is in a script's place, by its first word.
fn in_script(word: &[u8], is_plan: bool) -> &'static [u8] {
    if begins_a_rules_file(word) {
        b"this looks like a rules file, and a script is expected here: 'judge' takes a rules file after it"
    } else if is_plan {
        b"this looks like a plan, and a script is expected here: 'capture' takes a plan after it"
    } else {
        b"this looks like a key file, and a script is expected here: 'run' and 'judge' take a key file after it"
    }
}

/// What a text is in a key file's place, by the first word of the bad token's line.
fn in_keys(word: &[u8]) -> &'static [u8] {
    if begins_a_rules_file(word) {
        b"this looks like a rules file: it is named after the script, and then the key file"
    } else if begins_a_statement(word) {
        b"this looks like a script: the script is named first, and then the key file"
    } else {
        b"this looks like a plan, which only 'capture' takes"
    }
}

/// What a text of another grammar is, by the first word of the bad token's line.
fn swapped(kind: TextKind, word: &[u8], is_plan: bool) -> &'static [u8] {
    match kind {
        TextKind::Script => in_script(word, is_plan),
        TextKind::Keys => in_keys(word),
        TextKind::Rules =>
            b"this looks like a key file: the script is named first, then the rules file, and then the key file",
        TextKind::Plan if begins_a_statement(word) =>
            b"this looks like a script: the script is named first, then the plan, and then the capture",
        TextKind::Plan =>
            b"this looks like a key file: a plan has selectors such as dport in place of values",
    }
}

/// What a text is that is of another kind, and what to do.
pub fn other_kind(kind: TextKind, text: &[u8], bad: BadToken) -> &'static [u8] {
    if is_packed(text) {
        b"this is a file that gzip has packed: unpack it first"
    } else if is_capture(text) {
        for_capture(kind)
    } else if is_marked(text) {
        b"the text begins with a byte order mark of UTF-8: leave its three bytes out"
    } else if is_utf16(text) {
        b"this is a text in UTF-16: write it in ASCII"
    } else if is_json(text) {
        b"this is a listing in JSON, as nft -j prints it: list the sets without -j"
    } else {
        let cut = cut_at(text, bad);
        let is_plan = is_one_of(last_word(cut.line), &SELECTORS);
        swapped(kind, first_word(cut.line), is_plan)
    }
}
