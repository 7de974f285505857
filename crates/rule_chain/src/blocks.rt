//! Chains in braces, the policy, and the lines of both.
ghost use Rattle.std.specs.Prelude.{◌≡◌, ◌<◌, ◌≤◌, length, IfOk, OnOk};
ghost use Rattle.set_script.specs.Limits.{most_sets};
ghost use Rattle.token_forms.specs.Gives.{Gives};
ghost use Rattle.rule_chain.specs.Chains.{most_chains};
ghost use Rattle.rule_chain.specs.Rules.{with_chain};
ghost use Rattle.rule_chain.specs.RulesReading as reading;
ghost use Rattle.rule_chain.specs.declared.draft.RulesWord.TheVariants.{Chain as Begins};

use crate::chains::{Chain, RuleList};
use crate::draft::{RulesDraft, RulesWord, nothing_read};
use crate::rules::rule;
use crate::words::{is_a_new_chain, policy_word, rules_word};
use set_model::{Listed, Memory, SetDecl};
use std::alloc::Global;
use token_forms::{ReadError, Reader};

/// A rule, if one more is allowed.
#[tactic(auto, using(token_forms::proofs::Refusals::refusals), unfolding(crate::specs::RulesReading::rule_if))]
fn rule_if(
    reader: &mut Reader,
    alloc: Global,
    schema: &[SetDecl],
    chains: &[Chain],
    room: bool,
    rules: &mut RuleList,
) -> Result<(), ReadError>
    requires sets { length schema.now ≤ most_sets }
    requires chains { length chains.now < most_chains }
    ensures { Gives (λ _. rules.new) result reader.new (reading.rule_if room schema.now chains.now rules.old reader.old) }
{
    if room {
        rule(reader, alloc, schema, chains, rules)
    } else {
        Err(reader.refuse())
    }
}

/// A separator, or a rule if one may come next.
#[tactic(auto, using(token_forms::proofs::Refusals::refusals))]
fn rule_line(
    reader: &mut Reader,
    alloc: Global,
    schema: &[SetDecl],
    d: &RulesDraft,
    rules: &mut RuleList,
    next: bool,
) -> Result<bool, ReadError>
    requires sets { length schema.now ≤ most_sets }
    requires chains { length d.now.chains < most_chains }
    ensures { Gives (λ x. (rules.new, x)) result reader.new (reading.rule_line schema.now d.now (rules.old, next) reader.old) }
{
    if next && !reader.is_at_separator() {
        let room = rules.len() < d.left;
        rule_if(reader, alloc, schema, d.chains.as_slice(), room, rules)?;
        Ok(false)
    } else {
        reader.separator()?;
        Ok(true)
    }
}

fn next_rule_line(
    reader: &mut Reader,
    alloc: Global,
    schema: &[SetDecl],
    d: &RulesDraft,
    rules: &mut RuleList,
    next: bool,
) -> Result<bool, ReadError>
    requires sets { length schema.now ≤ most_sets }
    requires chains { length d.now.chains < most_chains }
    ensures gives { Gives (λ x. (rules.new, x)) result reader.new (reading.rule_line schema.now d.now (rules.old, next) reader.old) }
    ensures shorter { OnOk result (length reader.new < length reader.old) }
{
    rule_line(reader, alloc, schema, d, rules, next)
}

/// Reads the rules of a chain as long as one starts. Returns also whether one more may come next.
fn rule_lines(
    reader: &mut Reader,
    alloc: Global,
    schema: &[SetDecl],
    d: &RulesDraft,
) -> Result<(RuleList, bool), ReadError>
    requires sets { length schema.now ≤ most_sets }
    requires chains { length d.now.chains < most_chains }
    ensures { Gives (λ x. (x.0, x.1)) result reader.new (reading.rule_lines schema.now d.now reader.old) }
{
    let mut rules = Listed::new(alloc);
    let mut next = true;
    'lines: while let Some(t) = reader.peek() {
        let starts = t.starts_statement_line(next);
        if !starts {
            return Ok((rules, next));
        }
        match next_rule_line(reader, alloc, schema, d, &mut rules, next) {
            Ok(then) => next = then,
            Err(e) => return Err(e),
        }
    }
    Ok((rules, next))
}

/// The rules of a chain.
#[tactic(auto, using(token_forms::proofs::Refusals::refusals))]
fn all_rules(
    reader: &mut Reader,
    alloc: Global,
    schema: &[SetDecl],
    d: &RulesDraft,
) -> Result<RuleList, ReadError>
    requires sets { length schema.now ≤ most_sets }
    requires chains { length d.now.chains < most_chains }
    ensures { Gives (λ x. x) result reader.new (reading.all_rules schema.now d.now reader.old) }
{
    let (rules, _) = rule_lines(reader, alloc, schema, d)?;
    Ok(rules)
}

/// Reads a name that no chain has yet.
#[tactic(auto, unfolding(token_forms::specs::Gives::Refuses))]
fn new_chain<'a>(reader: &mut Reader<'a>, chains: &[Chain]) -> Result<&'a [u8], ReadError>
    ensures { Gives (λ x. x.now) result reader.new (reading.new_chain chains.now reader.old) }
{
    let t = reader.next()?;
    if t.is_word() && is_a_new_chain(chains, t.bytes) {
        Ok(t.bytes)
    } else {
        Err(t.refused(&[]))
    }
}

/// Closes a chain.
fn close_chain(
    alloc: Global,
    d: &mut RulesDraft,
    name: &[u8],
    rules: RuleList,
) -> Result<(), Memory>
    ensures { OnOk result (d.new ≡ with_chain d.old name.now rules) }
{
    let name = Listed::from_vec(Vec::from_slice(alloc, name)?);
    let left = d.left.saturating_sub(rules.len());
    d.chains.push(Chain { name, rules })?;
    d.left = left;
    Ok(())
}

/// Reads the name of a chain, and its rules in braces.
#[tactic(auto, using(token_forms::proofs::Refusals::refusals), unfolding(crate::specs::RulesReading::chain_block))]
fn chain_block(
    reader: &mut Reader,
    alloc: Global,
    schema: &[SetDecl],
    d: &mut RulesDraft,
) -> Result<(), ReadError>
    requires sets { length schema.now ≤ most_sets }
    requires chains { length d.old.chains < most_chains }
    ensures { Gives (λ _. d.new) result reader.new (reading.chain_block schema.now d.old reader.old) }
{
    let name = new_chain(reader, d.chains.as_slice())?;
    reader.mark(b'{')?;
    let rules = all_rules(reader, alloc, schema, d)?;
    reader.mark(b'}')?;
    close_chain(alloc, d, name, rules)?;
    Ok(())
}

/// `accept` or `drop`.
#[tactic(auto, unfolding(token_forms::specs::Gives::Refuses))]
fn policy(reader: &mut Reader) -> Result<bool, ReadError>
    ensures { Gives (λ x. x) result reader.new (reading.policy_read reader.old) }
{
    let t = reader.next()?;
    match policy_word(t.bytes) {
        Some(accept) if t.is_word() => Ok(accept),
        _ => Err(t.refused(&[])),
    }
}

/// Reads the rest of a statement after its first word.
#[tactic(auto, using(token_forms::proofs::Refusals::refusals), unfolding(crate::specs::RulesReading::statement_behind))]
fn statement_behind(
    reader: &mut Reader,
    alloc: Global,
    schema: &[SetDecl],
    d: &mut RulesDraft,
    word: RulesWord,
) -> Result<(), ReadError>
    requires sets { length schema.now ≤ most_sets }
    requires chain { word ≡ Begins → length d.old.chains < most_chains }
    ensures { Gives (λ _. d.new) result reader.new (reading.statement_behind schema.now d.old word reader.old) }
{
    match word {
        RulesWord::Chain => chain_block(reader, alloc, schema, d),
        RulesWord::Policy => {
            let accept = policy(reader)?;
            d.policy = Some(accept);
            Ok(())
        }
    }
}

/// Reads `chain` or `policy`, if it is allowed here.
#[tactic(auto, unfolding(token_forms::specs::Gives::Refuses))]
fn first_word(reader: &mut Reader, d: &RulesDraft) -> Result<RulesWord, ReadError>
    ensures gives { Gives (λ x. x) result reader.new (reading.first_word d.now reader.old) }
    ensures room { IfOk result (λ word. word ≡ Begins → length d.now.chains < most_chains) }
{
    let t = reader.next()?;
    match rules_word(d, t.bytes) {
        Some(word) if t.is_word() => Ok(word),
        _ => Err(t.refused(&[])),
    }
}

#[tactic(auto, using(token_forms::proofs::Refusals::refusals), unfolding(crate::specs::RulesReading::statement))]
fn statement(
    reader: &mut Reader,
    alloc: Global,
    schema: &[SetDecl],
    d: &mut RulesDraft,
) -> Result<(), ReadError>
    requires { length schema.now ≤ most_sets }
    ensures { Gives (λ _. d.new) result reader.new (reading.statement schema.now d.old reader.old) }
{
    let word = first_word(reader, d)?;
    statement_behind(reader, alloc, schema, d, word)
}

/// A separator, or a statement if one may come next.
#[tactic(auto, using(token_forms::proofs::Refusals::refusals))]
fn statement_line(
    reader: &mut Reader,
    alloc: Global,
    schema: &[SetDecl],
    d: &mut RulesDraft,
    next: bool,
) -> Result<bool, ReadError>
    requires { length schema.now ≤ most_sets }
    ensures { Gives (λ x. (d.new, x)) result reader.new (reading.statement_line schema.now (d.old, next) reader.old) }
{
    if next && !reader.is_at_separator() {
        statement(reader, alloc, schema, d)?;
        Ok(false)
    } else {
        reader.separator()?;
        Ok(true)
    }
}

fn next_statement_line(
    reader: &mut Reader,
    alloc: Global,
    schema: &[SetDecl],
    d: &mut RulesDraft,
    next: bool,
) -> Result<bool, ReadError>
    requires { length schema.now ≤ most_sets }
    ensures gives { Gives (λ x. (d.new, x)) result reader.new (reading.statement_line schema.now (d.old, next) reader.old) }
    ensures shorter { OnOk result (length reader.new < length reader.old) }
{
    statement_line(reader, alloc, schema, d, next)
}

/// Reads statements as long as one starts. Returns also whether one more may come next.
pub fn statements(
    reader: &mut Reader,
    alloc: Global,
    schema: &[SetDecl],
) -> Result<(RulesDraft, bool), ReadError>
    requires { length schema.now ≤ most_sets }
    ensures { Gives (λ x. (x.0, x.1)) result reader.new (reading.statements schema.now reader.old) }
{
    let mut d = nothing_read(alloc);
    let mut next = true;
    'lines: while let Some(t) = reader.peek() {
        let starts = t.starts_statement_line(next);
        if !starts {
            return Ok((d, next));
        }
        match next_statement_line(reader, alloc, schema, &mut d, next) {
            Ok(then) => next = then,
            Err(e) => return Err(e),
        }
    }
    Ok((d, next))
}
