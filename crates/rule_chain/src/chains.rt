use set_model::{Duplicate, Listed, Memory, Name, Schema};
use std::alloc::Global;
use std::marker::Model;

/// What a rule does with a packet that fits it.
#[derive(Clone, Copy, Debug, PartialEq, Eq)]
pub enum Act {
    /// The packet is accepted.
    Accept,
    /// The packet is dropped.
    Drop,
    /// The walk of this chain ends, and the walk of the chain that jumped here goes on.
    Return,
    /// The chain at this place is walked. If it decides nothing, the next rule follows.
    Jump { chain: u32 },
}

/// A test of a packet's key: whether a set has an element that holds it.
#[derive(Clone, Copy, Debug, PartialEq, Eq)]
pub struct Test {
    /// The place of the set among the declared sets.
    pub set: u32,
    /// Whether it asks for an element that holds the key, or for none.
    pub inside: bool,
    /// The line of its first word in the rules file: 1 plus the number of line feeds before it.
    pub line: u64,
    /// The place of its first byte in the rules file, from 0.
    pub at: u64,
}

impl Duplicate for Test {
    fn copy(&self, _: Global) -> Result<Self, Memory> {
        Ok(*self)
    }
}

/// The tests of a rule.
pub type Tests = Listed<Test>;

/// A rule: the tests that a packet has to meet, and what is then done with the packet.
#[derive(Drop)]
pub struct Rule {
    /// The tests, all of which a packet has to meet.
    pub tests: Tests,
    /// What is done with a packet that meets all tests.
    pub act: Act,
}

impl Duplicate for Rule {
    fn copy(&self, alloc: Global) -> Result<Self, Memory> {
        Ok(Rule {
            tests: self.tests.copy(alloc)?,
            act: self.act,
        })
    }
}

/// The rules of a chain, in order.
pub type RuleList = Listed<Rule>;

/// A chain of rules.
#[derive(Drop)]
pub struct Chain {
    /// Its name.
    pub name: Name,
    /// Its rules.
    pub rules: RuleList,
}

impl Duplicate for Chain {
    fn copy(&self, alloc: Global) -> Result<Self, Memory> {
        Ok(Chain {
            name: self.name.copy(alloc)?,
            rules: self.rules.copy(alloc)?,
        })
    }
}

/// Chains in the order of their file.
pub type ChainList = Listed<Chain>;

/// What a rules file means: one to four chains over declared sets, with at most 64 rules. The last
/// chain is the base chain. Jumps lead only to earlier chains.
#[derive(Drop)]
pub struct Chains {
    /// The sets that its rules test.
    pub schema: Schema,
    /// The chains. The last one is the base chain.
    pub chains: ChainList,
    /// Whether a packet on which no rule decides is accepted.
    pub accept: bool,
}

impl Model for Chains {
    ghost use Rattle.rule_chain.specs.Chains.{Rules, AreChains};

    ghost Value = { Rules };

    ghost view = { λ c. record { schema = c.schema; chains = c.chains; accept = c.accept } };

    ghost invariant = { λ c. AreChains c.schema c.chains };
}
