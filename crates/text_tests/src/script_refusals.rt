//! Scripts that are refused: the line of the bad token, and the first reason that applies.
use crate::cases::{assert_told, joined, line_of, reason_word, told_place, told_refusal};
use set_model::Memory;
use set_script::{ScriptError, bad_token, read_script};
use std::alloc::Global;
use std::process::Abort;
use std::test::Fail;
use text_pieces::Piece;

/// The line and the reason for which a script is refused.
fn refusal(alloc: Global, text: &[u8]) -> Result<Vec<u8>, Memory> {
    match read_script(alloc, text) {
        Ok(_) => line_of(alloc, &[Piece::Word(b"read")]),
        Err(ScriptError::Bad { line, reason }) => told_refusal(alloc, line, reason_word(reason)),
        Err(ScriptError::Memory) => Err(Memory),
    }
}

/// The line and the reason for a statement after a set of addresses and ports.
fn statement_refusal(alloc: Global, text: &[u8]) -> Result<Vec<u8>, Memory> {
    let set = b"add set ip filter s { type ipv4_addr . inet_service ; flags interval ; }\n";
    refusal(alloc, &joined(alloc, set, text)?)
}

/// The line and the reason for an element of this set.
fn element_refusal(alloc: Global, text: &[u8]) -> Result<Vec<u8>, Memory> {
    statement_refusal(
        alloc,
        &joined(alloc, b"create element ip filter s { ", text)?,
    )
}

/// The line and the reason for an element of a timed set of ports.
fn option_refusal(alloc: Global, text: &[u8]) -> Result<Vec<u8>, Memory> {
    let front = b"add set t s { type inet_service; flags timeout }; delete element t s { ";
    refusal(alloc, &joined(alloc, front, text)?)
}

/// The line and the reason for a set's kinds.
fn type_refusal(alloc: Global, text: &[u8]) -> Result<Vec<u8>, Memory> {
    refusal(alloc, &joined(alloc, b"add set t s { type ", text)?)
}

/// The line and the reason for a set's expressions.
fn expression_refusal(alloc: Global, text: &[u8]) -> Result<Vec<u8>, Memory> {
    refusal(alloc, &joined(alloc, b"add set t s { typeof ", text)?)
}

/// The place of a script's bad token.
fn place(alloc: Global, text: &[u8]) -> Result<Vec<u8>, Memory> {
    told_place(alloc, bad_token(alloc, text)?)
}

/// The place, the length, the line and the column of a bad token.
const PLACES: &[u8] = b"\
    at 5\nat 4|8 1 2 4 moment~\
    table t {\nset s {\ntype mark\n\tauto-merge\n}\n}|29 10 4 2 left out~\
    at 5 \\\n$|7 1 2 1 character~\
    commit\nadd|10 0 2 4 end~\
    add set ip t p { type inet_service ; comment \"\xc3\xa4\" x }|50 1 1 51 statement~\
    add set t s { typeof ip saddr . tcp flags }|36 5 1 37 type~\
    add set t s { typeof ip6 saddr . ip6 saddr . ip6 daddr . ip6 daddr . ct mark }|72 4 1 73 type~\
    at 5\ncommit|none~\
";

/// Each reason with its line.
const REASONS: &[u8] = b"\
    \xff|1 character~\
    at 5\n\"|2 character~\
    at 5 \\\n$|2 character~\
    add set t s { type mark; elements = {\n\n|3 end~\
    add set ip t p { type inet_service ; }\nadd rule ip t c drop|2 left out~\
    \n\n*|3 left out~\
    add set t s {\ntype mark . ifname\n}|2 type~\
    add set ip t p { type inet_service ; flags interval ; }\nadd element ip t p { 10-|2 value~\
    add set ip t p { type inet_service ; flags interval ; }\nadd element ip t p { 10|2 end~\
    table t {\nset s {\ntype mark\ntimeout 1w\n}\n}|4 time~\
    at 5\nat 4|2 moment~\
    add set ip t p { type inet_service ; flags interval ; }\nadd element ip t q { 80 }|2 set~\
    table t {\nset s {\ntype mark\nsize 0\n}\n}|4 number~\
    commit\ncommit commit|2 statement~\
    at 5\nadd\nset|2 statement~\
";

/// Sets and tables outside the grammar.
const SETS: &[u8] = b"\
    add element ip filter s { 10.0.0.5 . 1024 }|1 set~\
    add set ip filter s { type ipv4_addr flags interval ; }|1 statement~\
    add set ip filter s { flags interval; type ipv4_addr }|1 statement~\
    add set ip filter s { type ipv4_addr; type ipv4_addr }|1 statement~\
    add set ip filter s { type ipv4_addr; flags interval; flags timeout }|1 statement~\
    add set ip filter s { type ipv4_addr; flags interval, }|1 statement~\
    add set ip filter s { type ipv4_addr; flags timeout, timeout }|1 statement~\
    add set ip filter s { type ipv4_addr; flags interval timeout }|1 statement~\
    add set ip filter s { type ipv4_addr; flags disjoint, disjoint }|1 statement~\
    add set ip filter s { type ipv4_addr; flags disjoint,interval,disjoint }|1 statement~\
    add set ip filter s { type ipv4_addr; disjoint }|1 statement~\
    add set ip filter s { type ipv4_addr; flags constant }|1 left out~\
    add set ip filter s { type ipv4_addr; auto-merge }|1 left out~\
    add set ip filter s { type ipv4_addr; typeof ip saddr }|1 statement~\
    add set ip filter s { type ipv4_addr; timeout 5s; timeout 5s }|1 statement~\
    add set ip filter s { type ipv4_addr; timeout never }|1 time~\
    add set ip filter s { type ipv4_addr; elements = { }; flags interval }|1 statement~\
    add set ip filter s { type ipv4_addr; elements = { }; elements = { } }|1 statement~\
    add set ip filter s { type ipv4_addr; elements { } }|1 statement~\
    add set ip filter s { type ipv4_addr; elements =\n{ } }|1 statement~\
    add set ip filter s { type ipv4_addr; size 05 }|1 number~\
    add set ip filter s { type ipv4_addr; size 4294967296 }|1 number~\
    add set ip filter s { type ipv4_addr; size }|1 statement~\
    add set ip filter s { type ipv4_addr; size 5; size 5 }|1 statement~\
    add set ip filter s { type ipv4_addr; gc-interval never }|1 time~\
    add set ip filter s { type ipv4_addr; gc-interval 5s; gc-interval 5s }|1 statement~\
    add set ip filter s { type ipv4_addr; policy fast }|1 statement~\
    add set ip filter s { type ipv4_addr; policy memory; policy memory }|1 statement~\
    add set ip filter s { type ipv4_addr; comment all }|1 statement~\
    add set ip filter s { type ipv4_addr; comment \"a\"; comment \"a\" }|1 statement~\
    add set ip filter 5 { type ipv4_addr }|1 set~\
    add set ip 5 s { type ipv4_addr }|1 statement~\
    add set ip s { type ipv4_addr }|1 statement~\
    add set ip filter s { type ipv4_addr|1 end~\
    table ip filter|1 end~\
    table ip filter { set s { type ipv4_addr } set t { type ipv4_addr } }|1 statement~\
    table ip filter { set s { type ipv4_addr }; set s { type ipv4_addr } }|1 set~\
    table ip filter { } }|1 statement~\
    table ip filter { chain c { } }|1 left out~\
    add table ip|1 end~\
    add table ip\n|1 statement~\
    add chain t c|1 left out~\
    flush ruleset; flush ruleset|1 statement~\
    flush table t|1 statement~\
";

/// Types outside the grammar: 64 bytes and 16 fields are the most.
const KINDS: &[u8] = b"\
    ipv6_addr . ipv6_addr . ipv6_addr . ipv6_addr . inet_proto }|1 type~\
    inet_proto . mark . mark . mark . mark . mark . mark . mark . mark . mark . mark . mark . mark . mark . mark . mark . mark }|1 type~\
    ipv6_addr . ipv6_addr . ipv6_addr . ether_addr . ether_addr . inet_service }|1 type~\
    integer }|1 type~\
    map }|1 left out~\
    }|1 statement~\
    ipv4_addr . }|1 statement~\
    ipv4_addr , mark }|1 statement~\
";

/// Expressions outside the grammar.
const EXPRESSIONS: &[u8] = b"\
    iifname }|1 type~\
    ether type }|1 type~\
    ip saddr . meta protocol }|1 type~\
    ct protocol }|1 type~\
    ct original proto-dst }|1 type~\
    ipv4_addr }|1 type~\
    ip saddr tcp dport }|1 statement~\
    ip }|1 statement~\
    arp saddr\nip }|1 statement~\
    ip saddr . }|1 statement~\
    ip saddr; type ipv4_addr }|1 statement~\
    @th,0,16 }|1 character~\
    ip6 saddr . ip6 saddr . ip6 saddr . ip6 saddr . ip protocol }|1 type~\
";

/// Statements outside the grammar.
const STATEMENTS: &[u8] = b"\
    add set ip filter s { type ipv4_addr }|2 set~\
    add set filter s { type ipv4_addr }|2 set~\
    table filter { set s { type ipv4_addr } }|2 set~\
    commit; add set ip filter t { type ipv4_addr }|2 set~\
    abort; add set ip filter t { type ipv4_addr }|2 set~\
    round; table ip filter { set t { type ipv4_addr } }|2 set~\
    add element ip filter t { 10.0.0.5 . 1024 }|2 set~\
    add element ip nat s { 10.0.0.5 . 1024 }|2 set~\
    add element inet filter s { 10.0.0.5 . 1024 }|2 set~\
    add element delete set { 80 }|2 left out~\
    create element ip filter t { 10.0.0.5 . 1024 }|2 set~\
    destroy element ip filter t { 10.0.0.5 . 1024 }|2 set~\
    flush set ip filter t|2 set~\
    flush set ip filter map|2 left out~\
    flush ip filter s|2 statement~\
    flush ruleset|2 statement~\
    create set ip filter t { type ipv4_addr }|2 left out~\
    delete set ip filter s|2 left out~\
    destroy table ip filter|2 left out~\
    create rule ip filter c drop|2 left out~\
    create ip filter s|2 statement~\
    insert element ip filter s { 10.0.0.5 . 1024 }|2 statement~\
    include \"other.nft\"|2 left out~\
    add element ip filter s { 10.0.0.5 . 1024 } add|2 statement~\
    add element ip filter s { 10.0.0.5 . 1024 } *|2 left out~\
    add\nelement ip filter s { 10.0.0.5 . 1024 }|2 statement~\
    at 05|2 moment~\
    at 1000000000000001|2 moment~\
    at 5 6|2 statement~\
    at 5; round; at 4|2 moment~\
    at chain|2 left out~\
    at|2 end~\
    at;|2 statement~\
    commit 5|2 statement~\
    abort {|2 statement~\
    round round|2 statement~\
";

/// Elements outside the grammar.
const ELEMENTS: &[u8] = b"\
    10.0.0.5 }|2 statement~\
    10.0.0.5 . 1024 . 1 }|2 statement~\
    10.0.0.5 1024 }|2 statement~\
    10.0.0.5 . 1024 10.0.0.6 . 1024 }|2 statement~\
    10.0.0.5 . 1024,, 10.0.0.6 . 1024 }|2 statement~\
    , 10.0.0.5 . 1024 }|2 statement~\
    , }|2 statement~\
    10.0.0 . 1024 }|2 value~\
    10.0.0.05 . 1024 }|2 value~\
    10.0.0.5 . 65536 }|2 value~\
    10.0.0.5 . http }|2 value~\
    10.0.0.5 . counter }|2 left out~\
    10.0.0.5 . 1024, http }|2 value~\
    10.0.0.6-10.0.0.5 . 1024 }|2 value~\
    10.0.0.4/33 . 1024 }|2 value~\
    10.0.0.5 - 10.0.0.6 . 1024 }|2 statement~\
    10.0.0.5 . 1024 ; }|2 statement~\
    10.0.0.5 . 1024 timeout 5s }|2 statement~\
    10.0.0.5 . 1024 expires 5s }|2 statement~\
    10.0.0.5 . 1024 counter packets 0 bytes 0 }|2 left out~\
    10.0.0.5 . 1024 last used never }|2 statement~\
    10.0.0.5 . 1024 comment \"a\" comment \"b\" }|2 statement~\
    10.0.0.5 . 1024 comment a }|2 statement~\
    10.0.0.5 . 1024 }}|2 statement~\
    10.0.0.5 . 1024|2 end~\
";

/// An element's options outside the grammar.
const OPTIONS: &[u8] = b"\
    80-81 }|1 value~\
    80/15 }|1 value~\
    80 timeout 5x }|1 time~\
    80 timeout }|1 statement~\
    80 timeout limit }|1 left out~\
    80 expires never }|1 time~\
    80 expires 1000000000001 }|1 time~\
    80 timeout 5s timeout 5s }|1 statement~\
    80 timeout never expires 5s expires 5s }|1 statement~\
";

/// Comments of 128 and of 129 bytes.
const COMMENTS: &[u8] = b"\
    add set t s { type mark; comment \"12345678901234567890123456789012345678901234567890123456789012345678901234567890123456789012345678901234567890123456789012345678\" }|read~\
    add set t s { type mark; comment \"123456789012345678901234567890123456789012345678901234567890123456789012345678901234567890123456789012345678901234567890123456789\" }|1 character~\
";

/// Names of up to 127 bytes, two of 128, and two that begin otherwise than a name.
const NAMES: &[u8] = b"\
    add set t _ { type mark }|read~\
    add set t _2 { type mark }|read~\
    add set t a23456789012345678901234567890123456789012345678901234567890123456789012345678901234567890123456789012345678901234567890123456 { type mark }|read~\
    add set t a234567890123456789012345678901234567890123456789012345678901234567890123456789012345678901234567890123456789012345678901234567 { type mark }|read~\
    add set t a2345678901234567890123456789012345678901234567890123456789012345678901234567890123456789012345678901234567890123456789012345678 { type mark }|1 set~\
    add set t _2345678901234567890123456789012345678901234567890123456789012345678901234567890123456789012345678901234567890123456789012345678 { type mark }|1 set~\
    add set t -2 { type mark }|1 set~\
    add set t 12 { type mark }|1 set~\
";

#[test]
fn refused_scripts(rt: HostRuntime) {
    assert_told(&rt, rt.alloc(), PLACES, 8, place);
    assert_told(&rt, rt.alloc(), REASONS, 15, refusal);
    assert_told(&rt, rt.alloc(), SETS, 44, refusal);
    assert_told(&rt, rt.alloc(), COMMENTS, 2, refusal);
    assert_told(&rt, rt.alloc(), NAMES, 8, refusal);
}

#[test]
fn refused_parts_of_scripts(rt: HostRuntime) {
    assert_told(&rt, rt.alloc(), KINDS, 8, type_refusal);
    assert_told(&rt, rt.alloc(), EXPRESSIONS, 13, expression_refusal);
    assert_told(&rt, rt.alloc(), STATEMENTS, 36, statement_refusal);
    assert_told(&rt, rt.alloc(), ELEMENTS, 25, element_refusal);
    assert_told(&rt, rt.alloc(), OPTIONS, 9, option_refusal);
}

/// The declarations of 64 sets, a line each.
fn declarations(alloc: Global) -> Result<Vec<u8>, Memory> {
    let mut text = Vec::new(alloc);
    for tens in b"01234567" {
        for ones in b"01234567" {
            text.extend_from_slice(b"add set t s")?;
            text.extend_from_slice(&[*tens, *ones])?;
            text.extend_from_slice(b" { type mark }\n")?;
        }
    }
    Ok(text)
}

/// Asserts that one more set after these is refused in its line, if a script can't have more.
fn assert_most(rt: &impl Abort, alloc: Global, sets: &[u8]) -> Result<(), Memory> {
    assert_refusal(rt, alloc, sets, b"read")?;
    let more = joined(alloc, sets, b"table t { set s { type mark } }")?;
    assert_refusal(rt, alloc, &more, b"65 set")
}

fn assert_refusal(
    rt: &impl Abort,
    alloc: Global,
    text: &[u8],
    expected: &[u8],
) -> Result<(), Memory> {
    assert!(rt; refusal(alloc, text)?.as_slice() == expected);
    Ok(())
}

#[test]
fn a_script_declares_64_sets(rt: HostRuntime) -> Result<(), Fail> {
    Ok(assert_most(&rt, rt.alloc(), &declarations(rt.alloc())?)?)
}
