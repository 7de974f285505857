//! Rules: their tests, and their acts.
ghost use Rattle.std.specs.Prelude.{◌≡◌, ◌<◌, ◌≤◌, length, OnOk, IfOk};
ghost use Rattle.token_forms.specs.View.{lexeme_of};
ghost use Rattle.token_forms.specs.Gives.{Gives};
ghost use Rattle.set_script.specs.Limits.{most_sets};
ghost use Rattle.rule_chain.specs.Chains.{most_chains};
ghost use Rattle.rule_chain.specs.RulesReading as reading;
ghost use Rattle.rule_chain.specs.RulesReading.{starts_test};

use crate::chains::{Act, Chain, Rule, RuleList, Test, Tests};
use crate::draft::{ActWord, TestWord};
use crate::words::{act_word, place_of_chain, test_word};
use set_model::{Listed, SetDecl};
use set_script::{table_place, used_set};
use std::alloc::Global;
use token_forms::{ReadError, Reader, Seen};

/// Reads the word that begins a test, if one more is allowed after so many tests.
#[tactic(auto, unfolding(token_forms::specs::Gives::Refuses))]
fn first_word(reader: &mut Reader, tests: u64) -> Result<TestWord, ReadError>
    ensures { Gives (λ x. x) result reader.new (reading.first_word_of tests reader.old) }
{
    let t = reader.next()?;
    match test_word(tests, t.bytes) {
        Some(inside) if t.is_word() => Ok(TestWord {
            inside,
            line: t.line,
            at: t.from,
        }),
        _ => Err(t.refused(&[])),
    }
}

/// Reads one more test.
#[tactic(auto, using(token_forms::proofs::Refusals::refusals), unfolding(crate::specs::RulesReading::one_test))]
fn test(reader: &mut Reader, schema: &[SetDecl], tests: &mut Tests) -> Result<(), ReadError>
    requires { length schema.now ≤ most_sets }
    ensures { Gives (λ _. tests.new) result reader.new (reading.one_test schema.now tests.old reader.old) }
{
    let first = first_word(reader, tests.len())?;
    let (family, table) = table_place(reader)?;
    let set = used_set(reader, schema, family, table)?;
    tests.push(Test {
        set,
        inside: first.inside,
        line: first.line,
        at: first.at,
    })?;
    Ok(())
}

fn next_test(reader: &mut Reader, schema: &[SetDecl], tests: &mut Tests) -> Result<(), ReadError>
    requires { length schema.now ≤ most_sets }
    ensures gives { Gives (λ _. tests.new) result reader.new (reading.one_test schema.now tests.old reader.old) }
    ensures shorter { OnOk result (length reader.new < length reader.old) }
{
    test(reader, schema, tests)
}

fn starts_a_test(t: &Seen, tests: &Tests) -> bool
    ensures { result ≡ starts_test tests.now (lexeme_of t.now) }
{
    t.is_word() && test_word(tests.len(), t.bytes).is_some()
}

/// Reads the tests of a rule as long as one starts.
fn all_tests(reader: &mut Reader, alloc: Global, schema: &[SetDecl]) -> Result<Tests, ReadError>
    requires { length schema.now ≤ most_sets }
    ensures { Gives (λ x. x) result reader.new (reading.all_tests schema.now reader.old) }
{
    let mut tests = Listed::new(alloc);
    'tests: while let Some(t) = reader.peek() {
        let starts = starts_a_test(&t, &tests);
        if !starts {
            return Ok(tests);
        }
        match next_test(reader, schema, &mut tests) {
            Ok(()) => {}
            Err(e) => return Err(e),
        }
    }
    Ok(tests)
}

/// Reads the name of an earlier chain, and returns its place.
#[tactic(auto, unfolding(token_forms::specs::Gives::Refuses))]
fn earlier_chain(reader: &mut Reader, chains: &[Chain]) -> Result<usize, ReadError>
    ensures gives { Gives (λ x. x) result reader.new (reading.earlier_chain chains.now reader.old) }
    ensures within { IfOk result (λ place. place < length chains.now) }
{
    let t = reader.next()?;
    match place_of_chain(chains, t.bytes) {
        Some(place) if t.is_word() => Ok(place),
        _ => Err(t.refused(&[])),
    }
}

#[tactic(auto, using(token_forms::proofs::Refusals::refusals), unfolding(crate::specs::RulesReading::act_behind))]
fn act_behind(reader: &mut Reader, chains: &[Chain], word: ActWord) -> Result<Act, ReadError>
    requires { length chains.now < most_chains }
    ensures { Gives (λ x. x) result reader.new (reading.act_behind chains.now word reader.old) }
{
    match word {
        ActWord::Accept => Ok(Act::Accept),
        ActWord::Drop => Ok(Act::Drop),
        ActWord::Return => Ok(Act::Return),
        ActWord::Jump => {
            let place = earlier_chain(reader, chains)?;
            Ok(Act::Jump {
                chain: place as u32,
            })
        }
    }
}

/// The word of an act.
#[tactic(auto, unfolding(token_forms::specs::Gives::Refuses))]
fn word_of_act(reader: &mut Reader) -> Result<ActWord, ReadError>
    ensures { Gives (λ x. x) result reader.new (reading.word_of_act reader.old) }
{
    let t = reader.next()?;
    match act_word(t.bytes) {
        Some(word) if t.is_word() => Ok(word),
        _ => Err(t.refused(&[])),
    }
}

#[tactic(auto, using(token_forms::proofs::Refusals::refusals), unfolding(crate::specs::RulesReading::act))]
fn act(reader: &mut Reader, chains: &[Chain]) -> Result<Act, ReadError>
    requires { length chains.now < most_chains }
    ensures { Gives (λ x. x) result reader.new (reading.act chains.now reader.old) }
{
    let word = word_of_act(reader)?;
    act_behind(reader, chains, word)
}

/// Reads one more rule: its tests and its act.
#[tactic(auto, using(token_forms::proofs::Refusals::refusals), unfolding(crate::specs::RulesReading::rule))]
pub fn rule(
    reader: &mut Reader,
    alloc: Global,
    schema: &[SetDecl],
    chains: &[Chain],
    rules: &mut RuleList,
) -> Result<(), ReadError>
    requires sets { length schema.now ≤ most_sets }
    requires chains { length chains.now < most_chains }
    ensures { Gives (λ _. rules.new) result reader.new (reading.rule schema.now chains.now rules.old reader.old) }
{
    let tests = all_tests(reader, alloc, schema)?;
    let act = act(reader, chains)?;
    rules.push(Rule { tests, act })?;
    Ok(())
}
