//! Scripts that are read: their sets, their steps and their last moment.
use crate::cases::{assert_told, line_of};
use set_model::{Interval, Kind, Memory, NewElement, Script, SetDecl, Step, Steps, Verb};
use set_script::{Token, TokenKind, Tokens, read_script};
use std::alloc::Global;
use std::test::Fail;
use text_pieces::{Piece, append_pieces};

fn kind_word(kind: Kind) -> &'static [u8] {
    match kind {
        Kind::Ipv4 => b" ipv4_addr",
        Kind::Ipv6 => b" ipv6_addr",
        Kind::Ether => b" ether_addr",
        Kind::Proto => b" inet_proto",
        Kind::Service => b" inet_service",
        Kind::Mark => b" mark",
    }
}

fn append_kinds(kinds: &[Kind], told: &mut Vec<u8>) -> Result<(), Memory> {
    for kind in kinds {
        append_pieces(&[Piece::Word(kind_word(*kind))], told)?;
    }
    Ok(())
}

/// A word, or none.
fn word_if(test: bool, word: &[u8]) -> Piece<'_> {
    Piece::Word(if test { word } else { b"" })
}

/// Appends a word and a number, if there is one.
fn append_option(word: &[u8], number: Option<u64>, told: &mut Vec<u8>) -> Result<(), Memory> {
    match number {
        Some(number) => append_pieces(&[Piece::Word(word), Piece::Number(number)], told),
        None => Ok(()),
    }
}

fn append_flags(set: &SetDecl, told: &mut Vec<u8>) -> Result<(), Memory> {
    append_pieces(
        &[
            word_if(set.interval, b" interval"),
            word_if(set.timed, b" timeout"),
            word_if(set.disjoint, b" disjoint"),
        ],
        told,
    )?;
    append_option(b" life ", set.timeout, told)?;
    append_option(b" size ", set.size.map(u64::from), told)
}

/// Appends a set with its kinds, its flags, the life of its elements and its size.
fn append_set(set: &SetDecl, told: &mut Vec<u8>) -> Result<(), Memory> {
    append_pieces(&[Piece::Set(set)], told)?;
    append_kinds(set.kinds.as_slice(), told)?;
    append_flags(set, told)?;
    append_pieces(&[Piece::Word(b";")], told)
}

fn verb_word(verb: Verb) -> &'static [u8] {
    match verb {
        Verb::Add => b" add ",
        Verb::Create => b" create ",
        Verb::Delete => b" delete ",
        Verb::Destroy => b" destroy ",
    }
}

fn append_parts(parts: &[Interval], told: &mut Vec<u8>) -> Result<(), Memory> {
    for part in parts {
        append_pieces(
            &[
                Piece::Word(b" "),
                Piece::Sum(part.low),
                Piece::Word(b"-"),
                Piece::Sum(part.high),
            ],
            told,
        )?;
    }
    Ok(())
}

/// Appends the intervals of an element, a moment, its expiry and its comment.
fn append_element(element: &NewElement, now: u64, told: &mut Vec<u8>) -> Result<(), Memory> {
    append_parts(element.parts.as_slice(), told)?;
    append_option(b" at ", Some(now), told)?;
    append_option(b" until ", element.expiry, told)?;
    let comment = element.comment.as_slice();
    append_pieces(
        &[
            word_if(!comment.is_empty(), b" comment "),
            Piece::Word(comment),
        ],
        told,
    )
}

fn append_step(step: &Step, told: &mut Vec<u8>) -> Result<(), Memory> {
    match step {
        Step::Change {
            line,
            set,
            verb,
            element,
            now,
        } => {
            append_pieces(
                &[
                    Piece::Number(*line),
                    Piece::Word(verb_word(*verb)),
                    Piece::Number(u64::from(*set)),
                ],
                told,
            )?;
            append_element(element, *now, told)
        }
        Step::Flush { line, set, now } => append_pieces(
            &[
                Piece::Number(*line),
                Piece::Word(b" flush "),
                Piece::Number(u64::from(*set)),
                Piece::Word(b" at "),
                Piece::Number(*now),
            ],
            told,
        ),
        Step::Commit { now } => append_option(b"commit at ", Some(*now), told),
        Step::Abort => append_pieces(&[Piece::Word(b"abort")], told),
    }
}

/// Appends the steps of a section, with a `/` before them.
fn append_section(steps: &Steps, told: &mut Vec<u8>) -> Result<(), Memory> {
    append_pieces(&[Piece::Word(b"/")], told)?;
    for step in steps.as_slice() {
        append_step(step, told)?;
        append_pieces(&[Piece::Word(b";")], told)?;
    }
    Ok(())
}

fn told_script(alloc: Global, script: &Script) -> Result<Vec<u8>, Memory> {
    let mut told = Vec::new(alloc);
    for set in script.schema.as_slice() {
        append_set(set, &mut told)?;
    }
    for section in script.sections.as_slice() {
        append_section(section, &mut told)?;
    }
    append_option(b"last ", Some(script.last), &mut told)?;
    Ok(told)
}

/// The sets and steps of a script.
fn told_text(alloc: Global, text: &[u8]) -> Result<Vec<u8>, Memory> {
    match read_script(alloc, text) {
        Ok(script) => told_script(alloc, &script),
        Err(_) => line_of(alloc, &[Piece::Word(b"refused")]),
    }
}

/// Sets without elements. The last three have types of 64, 64 and 48 bytes.
const SETS: &[u8] = b"\
    |/last 0~\
    \x20\t\r\n;;\n# nothing\n\\\n|/last 0~\
    add set ip filter s { type ipv4_addr . inet_service ; flags interval ; }\n|ip filter s ipv4_addr inet_service interval;/last 0~\
    \n;add set ip t p {\n\ttype ipv4_addr . inet_service\n;\tflags interval\n}|ip t p ipv4_addr inet_service interval;/last 0~\
    add set filter s { type inet_service }|ip filter s inet_service;/last 0~\
    add set netdev ip s { type mark; elements = { }; }|netdev ip s mark;/last 0~\
    table bridge t { }|/last 0~\
    add table t|/last 0~\
    add table ip6 t; add table ip ip|/last 0~\
    \x20;# nft -f\n\nflush ruleset\nadd table t\n|/last 0~\
    table arp t { set s { type mark }; set t { type mark } }\n|arp t s mark;arp t t mark;/last 0~\
    add set t s { type mark }\nadd set t t { type mark }\nadd set ip6 t s { type mark }\nadd set u s { type mark }\n|ip t s mark;ip t t mark;ip6 t s mark;ip u s mark;/last 0~\
    add set t s { type mark; comment \"all\"; policy performance; gc-interval 1m; flags timeout; timeout 5s; size 1; }|ip t s mark timeout life 5000 size 1;/last 0~\
    add set t s { type mark; timeout 5s; flags timeout, interval; policy memory }|ip t s mark interval timeout life 5000;/last 0~\
    add set delete set { type mark }; delete element delete set { }|ip delete set mark;/last 0~\
    table ip ip { ;; set s { type ether_addr; elements = {\n} } }|ip ip s ether_addr;/last 0~\
    add set t s { type ipv6_addr . ipv6_addr . ipv6_addr . ipv6_addr }|ip t s ipv6_addr ipv6_addr ipv6_addr ipv6_addr;/last 0~\
    add set t s { type mark . mark . mark . mark . mark . mark . mark . mark . mark . mark . mark . mark . mark . mark . mark . mark }|ip t s mark mark mark mark mark mark mark mark mark mark mark mark mark mark mark mark;/last 0~\
    add set t s { type ether_addr . ether_addr . ether_addr . ether_addr . ether_addr . ether_addr . ether_addr . ether_addr }|ip t s ether_addr ether_addr ether_addr ether_addr ether_addr ether_addr ether_addr ether_addr;/last 0~\
";

/// Flags in any order, of sets in a line and in a table.
const FLAGS: &[u8] = b"\
    add set t s { type mark ; }\n|ip t s mark;/last 0~\
    table t {\nset s {\ntype mark\n}\n}\n|ip t s mark;/last 0~\
    add set t s { type mark; flags interval ; }\n|ip t s mark interval;/last 0~\
    table t {\nset s {\ntype mark; flags interval\n}\n}\n|ip t s mark interval;/last 0~\
    add set t s { type mark; flags disjoint ; }\n|ip t s mark disjoint;/last 0~\
    table t {\nset s {\ntype mark; flags disjoint\n}\n}\n|ip t s mark disjoint;/last 0~\
    add set t s { type mark; flags interval,disjoint ; }\n|ip t s mark interval disjoint;/last 0~\
    table t {\nset s {\ntype mark; flags interval,disjoint\n}\n}\n|ip t s mark interval disjoint;/last 0~\
    add set t s { type mark; flags disjoint , interval ; }\n|ip t s mark interval disjoint;/last 0~\
    table t {\nset s {\ntype mark; flags disjoint , interval\n}\n}\n|ip t s mark interval disjoint;/last 0~\
    add set t s { type mark; timeout 5s; flags disjoint ; }\n|ip t s mark timeout disjoint life 5000;/last 0~\
    table t {\nset s {\ntype mark; timeout 5s; flags disjoint\n}\n}\n|ip t s mark timeout disjoint life 5000;/last 0~\
    add set t s { type mark; flags timeout,disjoint ; }\n|ip t s mark timeout disjoint;/last 0~\
    table t {\nset s {\ntype mark; flags timeout,disjoint\n}\n}\n|ip t s mark timeout disjoint;/last 0~\
    add set t s { type mark; flags disjoint,timeout,interval; timeout 5s ; }\n|ip t s mark interval timeout disjoint life 5000;/last 0~\
    table t {\nset s {\ntype mark; flags disjoint,timeout,interval; timeout 5s\n}\n}\n|ip t s mark interval timeout disjoint life 5000;/last 0~\
    add set t s { type mark; size 9; flags timeout,interval ; }\n|ip t s mark interval timeout size 9;/last 0~\
    table t {\nset s {\ntype mark; size 9; flags timeout,interval\n}\n}\n|ip t s mark interval timeout size 9;/last 0~\
";

/// Elements of one value and of intervals, as they are added and as they are listed.
const ELEMENTS: &[u8] = b"\
    add set ip filter s { type ipv4_addr . inet_service ; flags interval ; }\nadd element ip filter s { 10.0.0.5 . 1024 }\nadd element ip filter s { 10.0.0.6 . 1024 }\n|ip filter s ipv4_addr inet_service interval;/2 add 0 167772165-167772165 1024-1024 at 0;3 add 0 167772166-167772166 1024-1024 at 0;commit at 0;last 0~\
    add set inet t m { type ipv6_addr . ether_addr . inet_proto . mark ; }\nadd element inet t m { 2001:db8::1 . 0:1:2:a:b:c . tcp . 0xff }\n|inet t m ipv6_addr ether_addr inet_proto mark;/2 add 0 42540766411282592856903984951653826561-42540766411282592856903984951653826561 4329179916-4329179916 6-6 255-255 at 0;commit at 0;last 0~\
    table ip6 fw {\n\tset allowed {\n\t\ttype ipv6_addr . inet_proto . inet_service\n\t\telements = { 2001:db8::1 . tcp . 443,\n\t\t\t     2001:db8::2 . udp . 53 }\n\t}\n}\n|ip6 fw allowed ipv6_addr inet_proto inet_service;/4 add 0 42540766411282592856903984951653826561-42540766411282592856903984951653826561 6-6 443-443 at 0;5 add 0 42540766411282592856903984951653826562-42540766411282592856903984951653826562 17-17 53-53 at 0;commit at 0;last 0~\
    table inet fw {\n\tset allowed {\n\t\ttype ipv6_addr . inet_proto . inet_service\n\t\telements = { 2001:db8::1 . tcp . 443,\n\t\t\t     2001:db8::2 . udp . 53 }\n\t}\n}\n|inet fw allowed ipv6_addr inet_proto inet_service;/4 add 0 42540766411282592856903984951653826561-42540766411282592856903984951653826561 6-6 443-443 at 0;5 add 0 42540766411282592856903984951653826562-42540766411282592856903984951653826562 17-17 53-53 at 0;commit at 0;last 0~\
    table fw {\n\tset allowed {\n\t\ttype ipv6_addr . inet_proto . inet_service\n\t\telements = { 2001:db8::1 . tcp . 443,\n\t\t\t     2001:db8::2 . udp . 53 }\n\t}\n}\n|ip fw allowed ipv6_addr inet_proto inet_service;/4 add 0 42540766411282592856903984951653826561-42540766411282592856903984951653826561 6-6 443-443 at 0;5 add 0 42540766411282592856903984951653826562-42540766411282592856903984951653826562 17-17 53-53 at 0;commit at 0;last 0~\
    add set t s { type ipv4_addr; }\nadd element t s {\n10.0.0.5/32\n,\n10.0.0.6-10.0.0.6,10.0.0.7,}\nadd element t s { }|ip t s ipv4_addr;/3 add 0 167772165-167772165 at 0;5 add 0 167772166-167772166 at 0;5 add 0 167772167-167772167 at 0;commit at 0;last 0~\
    add set t s { type ipv4_addr; flags interval; }\nadd element t s {\n10.0.0.5/32\n,\n10.0.0.6-10.0.0.6,10.0.0.7,}\nadd element t s { }|ip t s ipv4_addr interval;/3 add 0 167772165-167772165 at 0;5 add 0 167772166-167772166 at 0;5 add 0 167772167-167772167 at 0;commit at 0;last 0~\
    table t {\nset s {\ntype ipv4_addr . inet_service\nsize 65535\nflags interval\ntimeout 1m\n}\n}\nadd element t s { 10.0.0.0/8 . 80-443 }\n|ip t s ipv4_addr inet_service interval timeout life 60000 size 65535;/9 add 0 167772160-184549375 80-443 at 0 until 60000;commit at 0;last 0~\
";

/// Sets by expressions, with the types that nft 1.0.6 gives each.
const EXPRESSIONS: &[u8] = b"\
    add set t s { typeof ip saddr . ip daddr . ip protocol . meta l4proto . meta mark . mark . ct mark . tcp sport . udp dport . sctp sport . dccp dport . udplite sport . th dport }|ip t s ipv4_addr ipv4_addr inet_proto inet_proto mark mark mark inet_service inet_service inet_service inet_service inet_service inet_service;/last 0~\
    add set arp t s { typeof arp saddr ip . arp daddr ip . arp saddr ether . arp daddr ether . ether saddr . ether daddr }|arp t s ipv4_addr ipv4_addr ether_addr ether_addr ether_addr ether_addr;/last 0~\
    add set ip6 t s { typeof ip6 saddr . ip6 daddr . ip6 nexthdr . ct original ip6 saddr . ct reply protocol }|ip6 t s ipv6_addr ipv6_addr inet_proto ipv6_addr inet_proto;/last 0~\
    add set t s { typeof ct original ip saddr . ct original ip daddr . ct reply ip saddr . ct reply ip daddr . ct original protocol }|ip t s ipv4_addr ipv4_addr ipv4_addr ipv4_addr inet_proto;/last 0~\
    add set inet t s { typeof ct original ip6 daddr . ct reply ip6 saddr . ct reply ip6 daddr; size 5 }|inet t s ipv6_addr ipv6_addr ipv6_addr size 5;/last 0~\
    table inet t {\n\tset s {\n\t\ttypeof ip saddr . tcp dport\n\t\tflags interval\n\t\telements = { 10.0.0.0/8 . 80 }\n\t}\n}\n|inet t s ipv4_addr inet_service interval;/5 add 0 167772160-184549375 80-80 at 0;commit at 0;last 0~\
";

/// Times, comments and all that nft lists of a set.
const OPTIONS: &[u8] = b"\
    add set t s { type inet_service; flags timeout,interval; timeout 10s; size 9 }\nat 1000\nadd element t s { 80, 81 timeout 30s, 82 timeout 30s\ncomment \"web\" expires 5s,\n83 timeout never, 84 timeout 0s, 85 expires 0s }\ndelete element t s { 80 timeout 5s comment \"none\" }|ip t s inet_service interval timeout life 10000 size 9;/3 add 0 80-80 at 1000 until 11000;3 add 0 81-81 at 1000 until 31000;3 add 0 82-82 at 1000 until 6000 comment web;5 add 0 83-83 at 1000;5 add 0 84-84 at 1000;5 add 0 85-85 at 1000 until 1000;6 delete 0 80-80 at 1000;commit at 1000;last 1000~\
    add set t s { type mark; flags timeout }\nadd element t s { 1 comment \"web\" timeout 30s }|ip t s mark timeout;/2 add 0 1-1 at 0 until 30000 comment web;commit at 0;last 0~\
    add set t s { type mark; flags timeout }\ncreate element t s { 1 comment \"web\" timeout 30s }|ip t s mark timeout;/2 create 0 1-1 at 0 until 30000 comment web;commit at 0;last 0~\
    add set t s { type mark; flags timeout }\ndelete element t s { 1 comment \"web\" timeout 30s }|ip t s mark timeout;/2 delete 0 1-1 at 0;commit at 0;last 0~\
    add set t s { type mark; flags timeout }\ndestroy element t s { 1 comment \"web\" timeout 30s }|ip t s mark timeout;/2 destroy 0 1-1 at 0;commit at 0;last 0~\
    table ip filter {\n\tset s {\n\t\ttype ipv4_addr . inet_service\n\t\tflags interval,timeout\n\t\telements = { 10.0.0.0/8 . 80 timeout 1h expires 59m30s comment \"web\",\n\t\t\t     192.168.1.0-192.168.2.1 . 1024-65535 timeout 1h expires 59m30s996ms }\n\t}\n}\n|ip filter s ipv4_addr inet_service interval timeout;/5 add 0 167772160-184549375 80-80 at 0 until 3570000 comment web;6 add 0 3232235776-3232236033 1024-65535 at 0 until 3570996;commit at 0;last 0~\
    table inet fw { # handle 5\n\tset marks { # handle 6\n\t\ttype mark . ether_addr\n\t\tpolicy memory\n\t\tsize 65535\n\t\tflags interval,timeout\n\t\ttimeout 1d2h\n\t\tgc-interval 10s\n\t\tcomment \"G\xc3\xa4ste \xe5\xae\xa2\"\n\t\telements = { 0x00000100/24 . 00:00:5e:00:53:01 timeout 1h expires 59m comment \"\xc2\xb5 \xf0\x9f\x94\x92\",\n\t\t\t     0x00000200-0x000002ff . 0:0:5E:0:53:2 }\n\t}\n\n\tset empty { # handle 7\n\t\ttype inet_proto\n\t}\n}\n|inet fw marks mark ether_addr interval timeout life 93600000 size 65535;inet fw empty inet_proto;/10 add 0 256-511 1577079553-1577079553 at 0 until 3540000 comment \xc2\xb5 \xf0\x9f\x94\x92;11 add 0 512-767 1577079554-1577079554 at 0 until 93600000;commit at 0;last 0~\
";

/// Flushes, moments, transactions and sections.
const STEPS: &[u8] = b"\
    add set ip filter s { type ipv4_addr . inet_service ; flags interval ; }\nat 7\n\nflush set ip filter s; at 7; at 1000000000000000|ip filter s ipv4_addr inet_service interval;/4 flush 0 at 7;commit at 1000000000000000;last 1000000000000000~\
    add set t s { type mark }\n|ip t s mark;/last 0~\
    add set t s { type mark }\ncommit|ip t s mark;/commit at 0;last 0~\
    add set t s { type mark }\nabort\nabort|ip t s mark;/abort;abort;last 0~\
    add set t s { type mark }\nround|ip t s mark;//last 0~\
    add set t s { type mark }\nat 5\nround\n\nround\n|ip t s mark;///last 5~\
    add set t s { type mark }\nadd element t s { 1, 2 }\ncommit\nat 5\ncommit\n|ip t s mark;/2 add 0 1-1 at 0;2 add 0 2-2 at 0;commit at 0;commit at 5;last 5~\
    add set t s { type mark }\ncreate element t s { 1 }\nat 3\nabort\ndestroy element t s { 1 }; at 4|ip t s mark;/2 create 0 1-1 at 0;abort;5 destroy 0 1-1 at 3;commit at 4;last 4~\
    add set t s { type mark }\ndelete element t s { 1 }\nat 2\nround\nat 3\nflush set t s\nat 4\nround\nadd element t s { }\n|ip t s mark;/2 delete 0 1-1 at 0;commit at 2;/6 flush 0 at 3;commit at 4;/last 4~\
    add set t s { type mark }\ncommit\nadd element t s { 1 }\nround\nround\ncommit\n|ip t s mark;/commit at 0;3 add 0 1-1 at 0;commit at 0;//commit at 0;last 0~\
    add set t s { type mark }\nabort\ntable t { }\nadd table t\ndelete element t s { 1 }\nabort\nround\n|ip t s mark;/abort;5 delete 0 1-1 at 0;abort;/last 0~\
";

#[test]
fn scripts(rt: HostRuntime) {
    assert_told(&rt, rt.alloc(), SETS, 19, told_text);
    assert_told(&rt, rt.alloc(), FLAGS, 18, told_text);
    assert_told(&rt, rt.alloc(), ELEMENTS, 8, told_text);
    assert_told(&rt, rt.alloc(), OPTIONS, 7, told_text);
    assert_told(&rt, rt.alloc(), EXPRESSIONS, 6, told_text);
    assert_told(&rt, rt.alloc(), STEPS, 11, told_text);
}

/// A set of so many times the same element.
fn long_list(alloc: Global, count: u32) -> Result<Vec<u8>, Memory> {
    let mut text = Vec::from_slice(alloc, b"add set t s { type inet_service; elements = {")?;
    for _ in 0..count {
        text.extend_from_slice(b"1,")?;
    }
    text.extend_from_slice(b" } }\n")?;
    Ok(text)
}

/// How many steps the first section of a script has.
fn step_count(alloc: Global, text: &[u8]) -> u64 {
    match read_script(alloc, text) {
        Ok(script) => script.sections.as_slice().first().map_or(0, Steps::len),
        Err(_) => 0,
    }
}

#[test]
fn lists_have_any_length(rt: HostRuntime) -> Result<(), Fail> {
    let text = long_list(rt.alloc(), 5_000)?;
    assert_eq!(rt; step_count(rt.alloc(), &text), 5_001);
    Ok(())
}

fn token_word(kind: TokenKind) -> &'static [u8] {
    match kind {
        TokenKind::Word => b"word ",
        TokenKind::Text => b"text ",
        TokenKind::Break => b"break ",
        TokenKind::Mark => b"mark ",
        TokenKind::Faulty => b"faulty ",
        TokenKind::End => b"end ",
    }
}

fn append_token(token: &Token, told: &mut Vec<u8>) -> Result<(), Memory> {
    append_pieces(
        &[
            Piece::Word(token_word(token.kind)),
            Piece::Number(token.line),
            Piece::Word(b" "),
            Piece::Number(token.from),
            Piece::Word(b" "),
            Piece::Number(token.to),
            Piece::Word(b";"),
        ],
        told,
    )
}

/// The tokens of a text: their kinds, their lines, and the places at which they begin and end.
fn told_tokens(alloc: Global, text: &[u8]) -> Result<Vec<u8>, Memory> {
    let mut told = Vec::new(alloc);
    for token in Tokens::new(text) {
        append_token(&token, &mut told)?;
    }
    Ok(told)
}

const TOKENS: &[u8] = b"\
    a.b \"x;\\\" # c\n{\\\n,$\"q\n|\
    word 1 0 3;text 1 4 9;break 1 13 14;mark 2 14 15;mark 3 17 18;faulty 3 18 19;faulty 3 19 20;word 3 20 21;\
    break 3 21 22;end 4 22 22;~";

#[test]
fn tokens_have_lines_and_places(rt: HostRuntime) {
    assert_told(&rt, rt.alloc(), TOKENS, 1, told_tokens);
}
