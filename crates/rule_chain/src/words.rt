ghost use Rattle.std.specs.Prelude.{◌≡◌, ◌<◌, length, IfSome, bytes_eq};
ghost use Rattle.rule_chain.specs.Chains.{most_chains};
ghost use Rattle.rule_chain.specs.RuleNames.{inside_of, test_of, act_of, policy_of, rules_word_of, chain_place, is_new_chain};
ghost use Rattle.rule_chain.specs.declared.draft.RulesWord.TheVariants.{Chain as Begins};

use crate::chains::Chain;
use crate::draft::{ActWord, RulesDraft, RulesWord};
use token_forms::is_a_name;

/// How many tests a rule may have.
const MOST_TESTS: u64 = 4;

/// How many chains a file may have.
const MOST_CHAINS: u64 = 4;

fn inside_word(text: &[u8]) -> Option<bool>
    ensures { result ≡ inside_of text.now }
{
    if text == b"in".as_slice() {
        Some(true)
    } else if text == b"out".as_slice() {
        Some(false)
    } else {
        None
    }
}

/// Whether a word begins a test after so many tests; `Some(true)` is `in`, and `Some(false)` is `out`.
pub fn test_word(tests: u64, text: &[u8]) -> Option<bool>
    ensures { result ≡ test_of tests text.now }
{
    if tests < MOST_TESTS {
        inside_word(text)
    } else {
        None
    }
}

/// The act that a word names.
pub fn act_word(text: &[u8]) -> Option<ActWord>
    ensures { result ≡ act_of text.now }
{
    if text == b"accept".as_slice() {
        Some(ActWord::Accept)
    } else if text == b"drop".as_slice() {
        Some(ActWord::Drop)
    } else if text == b"return".as_slice() {
        Some(ActWord::Return)
    } else if text == b"jump".as_slice() {
        Some(ActWord::Jump)
    } else {
        None
    }
}

/// Whether a policy accepts.
pub fn policy_word(text: &[u8]) -> Option<bool>
    ensures { result ≡ policy_of text.now }
{
    if text == b"accept".as_slice() {
        Some(true)
    } else if text == b"drop".as_slice() {
        Some(false)
    } else {
        None
    }
}

/// The statement that a word begins, if it is allowed here: no fifth chain, and nothing after the
/// policy.
pub fn rules_word(d: &RulesDraft, text: &[u8]) -> Option<RulesWord>
    ensures word { result ≡ rules_word_of d.now text.now }
    ensures room { IfSome result (λ word. word ≡ Begins → length d.now.chains < most_chains) }
{
    if d.policy.is_some() {
        None
    } else if text == b"chain".as_slice() && d.chains.len() < MOST_CHAINS {
        Some(RulesWord::Chain)
    } else if text == b"policy".as_slice() && 0 < d.chains.len() {
        Some(RulesWord::Policy)
    } else {
        None
    }
}

fn has_name(chain: &Chain, name: &[u8]) -> bool
    ensures { result ≡ bytes_eq chain.now.name name.now }
{
    chain.name.as_slice() == name
}

/// The place of the chain with this name.
pub fn place_of_chain(chains: &[Chain], name: &[u8]) -> Option<usize>
    ensures place { result ≡ chain_place chains.now name.now }
    ensures within { IfSome result (λ i. i < length chains.now) }
{
    chains.iter().position(|chain| has_name(chain, name))
}

/// Whether a word is a name that no chain has.
pub fn is_a_new_chain(chains: &[Chain], text: &[u8]) -> bool
    ensures { result ≡ is_new_chain chains.now text.now }
{
    is_a_name(text) && place_of_chain(chains, text).is_none()
}
