//! Explains a token that can't come at its place of a rules file: what may come there.
use crate::beside::{Beside, explain_at_sign, explain_set_beside};
use crate::chains::{explain_chain_name, explain_jump};
use set_model::{Memory, Schema};
use text_pieces::Piece;
use token_forms::{Reason, Tokens};
use token_notes::{
    Explained, RULES_FILE, TextKind, begins_a_statement, bytes_of, count_of, explain_plainly,
    is_family, is_one_of, is_separator, last_word, last_words, shortened, without_blanks_behind,
    word_at,
};

/// The words of a rule that aren't names.
const RULE_WORDS: [&[u8]; 6] = [b"in", b"out", b"accept", b"drop", b"return", b"jump"];

/// The acts without a name after them.
const PLAIN_ACTS: [&[u8]; 3] = [b"accept", b"drop", b"return"];

/// Words of nft's rules for acts that are called otherwise here, and the acts.
const OTHER_ACTS: [(&[u8], &[u8]); 7] = [
    (b"reject", b"drop"),
    (b"deny", b"drop"),
    (b"block", b"drop"),
    (b"allow", b"accept"),
    (b"permit", b"accept"),
    (b"pass", b"accept"),
    (b"call", b"jump"),
];

/// Words with which nft's rules take a value from a packet.
const NFT_SELECTORS: [&[u8]; 15] = [
    b"tcp", b"udp", b"sctp", b"dccp", b"th", b"ether", b"meta", b"ct", b"icmp", b"icmpv6", b"iif",
    b"iifname", b"oif", b"oifname", b"mark",
];

/// Words of nft's rules that decide nothing.
const NO_ACTS: [&[u8]; 5] = [b"counter", b"log", b"limit", b"comment", b"notrack"];

/// The most chains and rules of a rules file, and the most tests of a rule.
const MOST_CHAINS: u64 = 4;

const MOST_RULES: u64 = 64;

const MOST_TESTS: u64 = 4;

/// What to do with a ruleset in the place of a rules file.
const FOR_RULESET: &[u8] =
    b"write chains such as 'chain main { in ip t s accept }' and then 'policy drop'; --sets reads a ruleset as SCRIPT";

/// How a rule tests that a packet isn't in a set.
const FOR_NOT: &[u8] =
    b"write 'out' in place of 'in' to test that the set has no element for the packet, as: out ip t s";

const NO_BRACKETS: &[u8] =
    b"leave the brackets out: a test is in or out, and the set's family, table and name, as: in ip t s";

const ALL_TESTS: &[u8] =
    b"write the tests one after another if a packet has to meet all, or a rule for each if one is enough";

const RULE: &[u8] =
    b"a rule is 0 to 4 tests such as 'in ip t s' or 'out ip t s', and then accept, drop, return or jump CHAIN";

/// The words of a rule or a statement up to its end: those after the last separator or brace.
fn part_of(before: &[u8]) -> &[u8] {
    let mut from = 0u64;
    for token in Tokens::new(before) {
        let bytes = bytes_of(before, token);
        if is_separator(token.kind, bytes) || is_one_of(bytes, &[b"{", b"}"]) {
            from = token.to;
        }
    }
    before.get(from as usize..).unwrap_or(b"")
}

/// The line of the last `{`.
fn brace_line(before: &[u8]) -> u64 {
    let mut line = 0u64;
    for token in Tokens::new(before) {
        if bytes_of(before, token) == b"{".as_slice() {
            line = token.line;
        }
    }
    line
}

/// How many of these words are in a text.
fn count_of_all(text: &[u8], words: &[&[u8]]) -> u64 {
    let mut count = 0u64;
    for word in words {
        count = count.saturating_add(count_of(text, word));
    }
    count
}

/// Whether the part of a rule has its act.
fn has_act(part: &[u8]) -> bool {
    let (before, last) = last_words(part);
    is_one_of(last, &PLAIN_ACTS) || before == b"jump".as_slice()
}

/// Whether a token ends a rule or a statement.
fn is_end(token: &[u8]) -> bool {
    is_one_of(token, &[b"", b";", b"}"])
}

/// The act that is meant by a word.
fn act_meant(word: &[u8]) -> Option<&'static [u8]> {
    for (other, act) in &OTHER_ACTS {
        if *other == word {
            return Some(*act);
        }
    }
    None
}

/// Whether the last test of a rule's part has no set yet.
fn lacks_set(part: &[u8]) -> bool {
    let mut from = None;
    for token in Tokens::new(part) {
        if is_one_of(bytes_of(part, token), &[b"in", b"out"]) {
            from = Some(token.to as usize);
        }
    }
    match from {
        Some(from) => {
            let place = part.get(from..).unwrap_or(b"");
            word_at(place, if is_family(word_at(place, 0)) { 2 } else { 1 }).is_empty()
        }
        None => false,
    }
}

/// Explains a token that ends a rule too early.
fn explain_rule_end(said: &mut Explained, part: &[u8]) -> Result<(), Memory> {
    if lacks_set(part) {
        return said.say(
            b" isn't the name of a set",
            b"a test names a set by its family, table and name, as: in ip t s",
        );
    }
    said.say(
        b" ends a rule that decides nothing",
        b"write accept, drop, return or jump CHAIN after the tests, in the same line",
    )
}

/// Explains a word in a rule, or the mark that is none.
fn explain_in_rule(said: &mut Explained, token: &[u8]) -> Result<(), Memory> {
    if let Some(act) = act_meant(token) {
        return said.ask(b" can't come here", act);
    }
    match token {
        b"not" => said.say(b" can't come here", FOR_NOT),
        b"," | b"and" | b"or" => said.say(b" can't come between tests", ALL_TESTS),
        b"goto" => said.say(
            b" can't come here",
            b"write two rules with the same tests: one with 'jump CHAIN', and after it one with 'return'",
        ),
        b"continue" => said.say(
            b" can't come here",
            b"leave the whole rule out: a packet goes on with the next rule by itself",
        ),
        word if is_one_of(word, &NO_ACTS) => said.say(
            b" can't come here",
            b"leave it out: a rule has only tests of sets, and then accept, drop, return or jump CHAIN",
        ),
        word if is_family(word) || is_one_of(word, &NFT_SELECTORS) => said.say(
            b" can't come here: a rule names no fields of a packet",
            b"test a set, by its family, table and name, as: in ip t s accept",
        ),
        word => said.suggest(b" can't come here", word, &RULE_WORDS, RULE),
    }
}

/// The act of a rule whose last words are these: the act itself, and the name of a chain after `jump`.
fn act_after(behind: &[u8]) -> (&[u8], &[u8]) {
    let mut is_jump = false;
    for token in Tokens::new(behind) {
        let bytes = bytes_of(behind, token);
        if is_jump {
            return (b"jump ", shortened(bytes));
        }
        if is_one_of(bytes, &PLAIN_ACTS) {
            return (bytes, b"");
        }
        if is_separator(token.kind, bytes) {
            return (b"accept", b"");
        }
        is_jump = bytes == b"jump".as_slice();
    }
    (b"accept", b"")
}

/// Explains a brace after a test's `in` or `out`, which may begin a list of sets.
fn explain_several(said: &mut Explained, part: &[u8], behind: &[u8]) -> Result<(), Memory> {
    let (act, chain) = act_after(behind);
    let is_in = last_word(part) == b"in".as_slice();
    said.tell(
        &[Piece::Word(b" can't come here: a test names one set")],
        &[
            Piece::Word(if is_in {
                b"write a rule for each set, as: in ip t first "
            } else {
                b"write a test for each set, one after another, as: out ip t first out ip t second "
            }),
            Piece::Word(act),
            Piece::Word(chain),
            Piece::Word(if is_in { b"; in ip t second " } else { b"" }),
            Piece::Word(if is_in { act } else { b"" }),
            Piece::Word(if is_in { chain } else { b"" }),
        ],
    )
}

/// Explains a token after the act of a rule.
fn explain_after_act(said: &mut Explained, part: &[u8], help: &[u8]) -> Result<(), Memory> {
    let (before, last) = last_words(part);
    let is_jump = before == b"jump".as_slice();
    said.tell(
        &[
            Piece::Word(b" can't follow '"),
            Piece::Word(if is_jump { b"jump " } else { b"" }),
            Piece::Word(shortened(last)),
            Piece::Word(b"'"),
        ],
        &[Piece::Word(help)],
    )
}

/// Explains a token in the braces of a chain.
fn explain_in_chain(said: &mut Explained, fault: Beside<'_>) -> Result<(), Memory> {
    let part = part_of(fault.before);
    let is_test = is_one_of(fault.token, &[b"in", b"out"]);
    match fault.token {
        b"policy" if !last_word(fault.front).is_empty() => said.say(
            b" can't come in a chain",
            b"write the policy after the last chain, in a line of its own",
        ),
        b"type" => said.say(
            b" can't come here: this looks like a chain of a ruleset",
            FOR_RULESET,
        ),
        b"chain" | b"policy" => said.tell(
            &[Piece::Word(b" can't come in a chain")],
            &[
                Piece::Word(b"close the '{' of line "),
                Piece::Number(brace_line(fault.before)),
                Piece::Word(b" with '}' first"),
            ],
        ),
        _ if last_word(part) == b"jump".as_slice() => explain_jump(said, fault),
        _ if is_end(fault.token) && !part.is_empty() => explain_rule_end(said, part),
        b"{" if is_one_of(last_word(part), &[b"in", b"out"]) => {
            explain_several(said, part, fault.behind)
        }
        word if has_act(part) && is_one_of(word, &RULE_WORDS) => {
            explain_after_act(
                said,
                part,
                b"end the rule before it, with ';' or a new line",
            )
        }
        _ if has_act(part) => explain_after_act(
            said,
            part,
            b"leave it out: a rule ends with accept, drop, return or jump CHAIN",
        ),
        _ if is_test && count_of_all(part, &[b"in", b"out"]) >= MOST_TESTS => said.say(
            b" is one test too many",
            b"a rule has 4 tests at most",
        ),
        word
            if is_one_of(word, &RULE_WORDS)
                && count_of_all(fault.before, &RULE_WORDS[2..]) >= MOST_RULES => said.say(
            b" begins one rule too many",
            b"a rules file has 64 rules at most",
        ),
        word => explain_in_rule(said, word),
    }
}

/// Explains a token outside of chains, before the policy and in a line of its own.
fn explain_outside(said: &mut Explained, chains: u64, token: &[u8]) -> Result<(), Memory> {
    match token {
        b"policy" if chains == 0 => said.say(
            b" can't come before the first chain",
            b"write at least one chain before it, as: chain main { in ip t s accept }",
        ),
        b"chain" if chains >= MOST_CHAINS => said.say(
            b" is one chain too many",
            b"a rules file has 4 chains at most",
        ),
        b"}" => said.say(
            b" closes no '{'",
            b"remove it, or add the '{' that is missing before it",
        ),
        word if is_one_of(word, &RULE_WORDS) => said.say(
            b" can't come outside of a chain",
            b"write rules in a chain, as: chain main { in ip t s accept }",
        ),
        word if begins_a_statement(word) => said.say(
            b" can't come here: this looks like a ruleset or a script",
            FOR_RULESET,
        ),
        word => said.suggest(
            b" can't come here",
            word,
            &[b"chain", b"policy"],
            RULES_FILE,
        ),
    }
}

/// Explains a token that can't come at its place.
fn explain_place(said: &mut Explained, fault: Beside<'_>) -> Result<(), Memory> {
    let before = fault.before;
    let (second, last) = last_words(before);
    if last == b"policy".as_slice() {
        return said.say(
            b" isn't a policy",
            b"write 'policy accept' or 'policy drop'",
        );
    }
    if count_of(before, b"{") > count_of(before, b"}") {
        return explain_in_chain(said, fault);
    }
    if last == b"chain".as_slice() {
        return explain_chain_name(said, fault);
    }
    if second == b"chain".as_slice() && is_family(last) {
        return said.say(
            b" can't follow the name of a chain",
            b"write the name alone: a chain has no family and no table",
        );
    }
    if second == b"chain".as_slice() {
        return said.say(
            b" can't follow the name of a chain",
            b"write '{' after the name, in the same line",
        );
    }
    if count_of(before, b"policy") > 0 {
        return said.say(
            b" can't come after the policy",
            b"write one policy, and write it last",
        );
    }
    if without_blanks_behind(before).ends_with(b"}") && fault.token != b"}".as_slice() {
        return said.say(
            b" can't follow the '}' of a chain",
            b"write it in a line of its own",
        );
    }
    explain_outside(said, count_of(before, b"chain"), fault.token)
}

/// Explains the end of a rules file that ends too early.
fn explain_end(said: &mut Explained, before: &[u8]) -> Result<(), Memory> {
    if count_of(before, b"{") <= count_of(before, b"}") {
        return explain_plainly(said, TextKind::Rules, Reason::End, b"");
    }
    said.tell(
        &[
            Piece::Word(b" leaves the '{' of line "),
            Piece::Number(brace_line(before)),
            Piece::Word(b" open"),
        ],
        &[Piece::Word(b"write '}' after the last rule of the chain")],
    )
}

/// Explains the bad token of a rules file beside a script that declares these sets.
pub(crate) fn explain_rules(
    said: &mut Explained,
    schema: &Schema,
    fault: Beside<'_>,
) -> Result<(), Memory> {
    match fault.reason {
        Reason::Set if last_word(fault.before) == b"set".as_slice() => said.say(
            b" isn't the name of a set",
            b"leave out 'set': a test is in or out, and the set's family, table and name, as: in ip t s",
        ),
        Reason::Set if last_word(fault.before) == b"not".as_slice() => {
            said.say(b" isn't the name of a set", FOR_NOT)
        }
        Reason::Set => explain_set_beside(said, schema, b"in ", fault),
        Reason::Character if fault.token.first() == Some(&b'@') => {
            explain_at_sign(said, schema, b"in ", fault)
        }
        Reason::Character if fault.token.first() == Some(&b'!') => {
            said.say(b" is an unexpected character", FOR_NOT)
        }
        Reason::Character if matches!(fault.token, [b'&' | b'|', ..]) => {
            said.say(b" is an unexpected character", ALL_TESTS)
        }
        Reason::Character if matches!(fault.token, [b'[' | b'(', ..]) => {
            said.say(b" is an unexpected character", NO_BRACKETS)
        }
        Reason::End => explain_end(said, fault.before),
        Reason::Statement => explain_place(said, fault),
        reason => explain_plainly(said, TextKind::Rules, reason, fault.token),
    }
}
