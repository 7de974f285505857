ghost use Rattle.std.specs.Prelude.{◌≡◌, [], None};
ghost use Rattle.rule_chain.specs.Rules.{no_rules};

use crate::chains::ChainList;
use set_model::Listed;
use std::alloc::Global;

/// How many rules a file may have.
const MOST_RULES: u64 = 64;

/// What has been read of a rules file.
#[derive(Drop)]
pub struct RulesDraft {
    /// The chains that have been read whole.
    pub chains: ChainList,
    /// How many more rules are allowed.
    pub left: u64,
    /// Whether a packet on which no rule decides is accepted, once the policy has been read. Nothing
    /// may follow the policy.
    pub policy: Option<bool>,
}

/// The first word of a statement.
#[derive(Clone, Copy, Debug, PartialEq, Eq)]
pub enum RulesWord {
    Chain,
    Policy,
}

/// The first word of a test, and its place.
#[derive(Clone, Copy, Debug, PartialEq, Eq)]
pub struct TestWord {
    /// Whether it is `in`, and not `out`.
    pub inside: bool,
    /// Its line: 1 plus the number of line feeds before it.
    pub line: u64,
    /// The place of its first byte, from 0.
    pub at: u64,
}

/// The word of a rule's act.
#[derive(Clone, Copy, Debug, PartialEq, Eq)]
pub enum ActWord {
    Accept,
    Drop,
    Return,
    Jump,
}

/// A rules file of which nothing has been read.
pub fn nothing_read(alloc: Global) -> RulesDraft
    ensures { result ≡ no_rules }
{
    RulesDraft {
        chains: Listed::new(alloc),
        left: MOST_RULES,
        policy: None,
    }
}
