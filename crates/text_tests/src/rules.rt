//! Rules files: their chains, the faults of those that are refused, and what their rules decide.
ghost use Rattle.std.specs.Prelude.{◌≤◌, length, IfOk};
ghost use Rattle.set_model.specs.Runnable.{IsFitting};
ghost use Rattle.set_script.specs.Limits.{most_sets};

use crate::cases::{assert_told, cut, line_of, number, reason_word, told_refusal};
use crate::sets::schema_of;
use rule_chain::{Act, Chain, ChainList, Chains, Lookups, Rule, RulesError, Test, read_rules};
use set_model::{Duplicate, Key, Memory, Packet, Schema, Verdict, fits};
use std::alloc::Global;
use text_pieces::{Piece, append_pieces};

/// The sets `ip t ok` and `ip t bad`, of ports.
const SETS: &[u8] = b"add set t ok { type inet_service ; }\nadd set t bad { type inet_service ; }";

fn append_test(test: &Test, told: &mut Vec<u8>) -> Result<(), Memory> {
    append_pieces(
        &[
            Piece::Word(if test.inside { b"in " } else { b"out " }),
            Piece::Number(u64::from(test.set)),
            Piece::Word(b" "),
        ],
        told,
    )
}

fn append_act(act: Act, told: &mut Vec<u8>) -> Result<(), Memory> {
    match act {
        Act::Accept => append_pieces(&[Piece::Word(b"accept;")], told),
        Act::Drop => append_pieces(&[Piece::Word(b"drop;")], told),
        Act::Return => append_pieces(&[Piece::Word(b"return;")], told),
        Act::Jump { chain } => append_pieces(
            &[
                Piece::Word(b"jump "),
                Piece::Number(u64::from(chain)),
                Piece::Word(b";"),
            ],
            told,
        ),
    }
}

fn append_rule(rule: &Rule, told: &mut Vec<u8>) -> Result<(), Memory> {
    for test in rule.tests.as_slice() {
        append_test(test, told)?;
    }
    append_act(rule.act, told)
}

fn append_chain(chain: &Chain, told: &mut Vec<u8>) -> Result<(), Memory> {
    append_pieces(
        &[Piece::Word(chain.name.as_slice()), Piece::Word(b"{")],
        told,
    )?;
    for rule in chain.rules.as_slice() {
        append_rule(rule, told)?;
    }
    append_pieces(&[Piece::Word(b"}")], told)
}

/// The chains, with sets and chains by their places, and the policy.
fn told_chains(alloc: Global, chains: &ChainList, accept: bool) -> Result<Vec<u8>, Memory> {
    let mut told = Vec::new(alloc);
    for chain in chains.as_slice() {
        append_chain(chain, &mut told)?;
    }
    append_pieces(
        &[Piece::Word(if accept { b"accept" } else { b"drop" })],
        &mut told,
    )?;
    Ok(told)
}

/// The chains of a copy.
fn told_copy(alloc: Global, rules: &Chains) -> Result<Vec<u8>, Memory> {
    told_chains(alloc, &rules.chains.copy(alloc)?, rules.accept)
}

/// The chains of a rules file, or its line and the reason for which it is refused.
fn told_rules(alloc: Global, text: &[u8]) -> Result<Vec<u8>, Memory> {
    match read_rules(alloc, &schema_of(alloc, SETS)?, text) {
        Ok(rules) => told_copy(alloc, &rules),
        Err(RulesError::Bad { line, reason }) => told_refusal(alloc, line, reason_word(reason)),
        Err(RulesError::Memory) => Err(Memory),
    }
}

/// A chain of so many rules, each on a line of its own from line 2 on, and a policy.
fn long_chain(alloc: Global, rules: u64) -> Result<Vec<u8>, Memory> {
    let mut text = Vec::from_slice(alloc, b"chain main {\n")?;
    for _ in 0..rules {
        text.extend_from_slice(b"in t ok accept\n")?;
    }
    text.extend_from_slice(b"}\npolicy drop\n")?;
    Ok(text)
}

/// How many rules the first chain has.
fn told_count(alloc: Global, rules: &Chains) -> Result<Vec<u8>, Memory> {
    match rules.chains.as_slice() {
        [chain, ..] => line_of(
            alloc,
            &[Piece::Number(chain.rules.len()), Piece::Word(b" rules")],
        ),
        [] => line_of(alloc, &[]),
    }
}

/// The count of a chain of so many rules, or the line and the reason of its refusal.
fn told_length(alloc: Global, rules: &[u8]) -> Result<Vec<u8>, Memory> {
    let text = long_chain(alloc, number(rules))?;
    match read_rules(alloc, &schema_of(alloc, SETS)?, &text) {
        Ok(rules) => told_count(alloc, &rules),
        Err(RulesError::Bad { line, reason }) => told_refusal(alloc, line, reason_word(reason)),
        Err(RulesError::Memory) => Err(Memory),
    }
}

/// Two sets of ports: 1 to 1000, and 23 alone.
#[derive(Drop)]
struct Ranges<'a> {
    schema: &'a Schema,
}

impl Lookups for Ranges<'_> {
    type State = Schema;

    ghost state = { λ s. s.schema.now };

    ghost schema = { λ d. d };

    ghost looks_in = { λ _ _. ⊥ };

    fn has(&mut self, set: u32, key: &Key, _now: u64) -> bool {
        match key.as_slice() {
            [port] if set == 0 => 1 <= *port && *port <= 1000,
            [port] => *port == 23,
            _ => false,
        }
    }
}

/// A packet of the first set.
fn packet(alloc: Global, schema: &Schema, port: u128) -> Result<Packet, Memory>
    ensures { IfOk result (IsFitting schema.now) }
{
    let mut key = Key::new(alloc);
    key.push(port)?;
    if schema.len() == 0 || !fits(&schema.at(0).kinds, &key) {
        return Err(Memory);
    }
    Ok(Packet {
        set: 0,
        key,
        now: 0,
    })
}

fn told_verdict(alloc: Global, verdict: Verdict) -> Result<Vec<u8>, Memory> {
    match verdict {
        Verdict::None => line_of(alloc, &[Piece::Word(b"none")]),
        Verdict::Element { id } => line_of(alloc, &[Piece::Word(b"rule "), Piece::Number(id)]),
    }
}

/// What the rules of a text decide on a packet of a port.
fn decided(alloc: Global, schema: &Schema, text: &[u8], port: u128) -> Result<Verdict, Memory>
    requires { length schema.now ≤ most_sets }
{
    match read_rules(alloc, schema, text) {
        Ok(rules) => Ok(rules.decide(&mut Ranges { schema }, &packet(alloc, schema, port)?)),
        Err(_) => Err(Memory),
    }
}

/// What the rules of a text decide on a packet of the port before it.
fn told_decision(alloc: Global, case: &[u8]) -> Result<Vec<u8>, Memory> {
    let (port, text) = cut(case, b' ');
    let schema = schema_of(alloc, SETS)?;
    told_verdict(
        alloc,
        decided(alloc, &schema, text, u128::from(number(port)))?,
    )
}

/// Chains and their rules.
const RULES: &[u8] = b"\
    # block first\nchain block { in ip t bad drop }\n\nchain main { jump block ; out t bad in ip t ok accept\n}\npolicy drop\n|block{in 1 drop;}main{jump 0;out 1 in 0 accept;}drop~\
    chain main { out t bad accept }\npolicy drop\n|main{out 1 accept;}drop~\
";

// a jump to itself, to a later and to an unknown chain, a name twice; what isn't a set's name; separators,
// and text after the policy; a fifth chain, and a fifth test
/// Lines and reasons.
const FAULTS: &[u8] = b"\
    |1 end~\
    chain main { }\n|2 end~\
    chain main { in t ok|1 end~\
    policy drop|1 statement~\
    rule|1 statement~\
    chain main { counter }|1 statement~\
    chain main {\n* }|2 statement~\
    chain main {\n@ }|2 character~\
    chain main { jump main }\npolicy drop\n|1 statement~\
    chain a {\njump b }\nchain b { }\npolicy drop\n|2 statement~\
    chain a { }\nchain a { }\npolicy drop\n|2 statement~\
    chain main { in ip t\nnone drop }|1 statement~\
    chain main { in ip t none drop }|1 set~\
    chain main { out t chain drop }|1 set~\
    chain a { accept drop }|1 statement~\
    chain a { } policy drop|1 statement~\
    chain a { }\npolicy drop\nchain b { }|3 statement~\
    chain a { }\nchain b { }\nchain c { }\nchain d { }\nchain e { }\npolicy drop|5 statement~\
    chain a { in t ok in t ok in t ok in t ok \\\nin t ok drop }|2 statement~\
";

/// A file has 64 rules at most.
const LENGTHS: &[u8] = b"\
    64|64 rules~\
    65|66 statement~\
";

/// If a chain returns or decides nothing, the chain that jumped to it goes on.
const DECISIONS: &[u8] = b"\
    23 chain block { in ip t bad drop }\nchain main { jump block ; in ip t ok accept }\npolicy drop\n|rule 0~\
    80 chain block { in ip t bad drop }\nchain main { jump block ; in ip t ok accept }\npolicy drop\n|rule 2~\
    2000 chain block { in ip t bad drop }\nchain main { jump block ; in ip t ok accept }\npolicy drop\n|none~\
    23 chain a { in t bad return ; accept }\nchain main { out t ok jump a ; jump a ; drop }\npolicy accept|rule 4~\
    80 chain a { in t bad return ; accept }\nchain main { out t ok jump a ; jump a ; drop }\npolicy accept|rule 1~\
    2000 chain a { in t bad return ; accept }\nchain main { out t ok jump a ; jump a ; drop }\npolicy accept|rule 1~\
";

#[test]
fn rules_files(rt: HostRuntime) {
    assert_told(&rt, rt.alloc(), RULES, 2, told_rules);
    assert_told(&rt, rt.alloc(), FAULTS, 19, told_rules);
    assert_told(&rt, rt.alloc(), LENGTHS, 2, told_length);
    assert_told(&rt, rt.alloc(), DECISIONS, 6, told_decision);
}
