//! Items in the braces of another item. No ruleset has them that nft(8) reads.
ghost use Rattle.std.specs.Prelude.{◌≡◌, ◌≤◌, IsTrue, length};
ghost use Rattle.ruleset_sets.specs.Inner as inner;

use crate::role::Role;
use crate::role_token::RoleToken;

impl Role {
    /// Whether a statement may begin after it.
    fn is_before_statement(self) -> bool
        ensures { result ≡ inner.is_before_statement self }
    {
        self.is_separator() || self.opens() || self.closes()
    }
}

/// Whether a statement declares a table or a set, or changes elements, by its first two words.
pub fn changes_sets(role: Role, rest: &[RoleToken]) -> bool
    ensures { result ≡ inner.changes_sets role rest.now }
{
    match (role, rest.first()) {
        (Role::Add, Some(p)) => p.role.is_table() || p.role.is_set() || p.role.is_element(),
        (Role::Change, Some(p)) => p.role.is_set() || p.role.is_element(),
        (Role::Flush, Some(p)) => p.role.is_set() || p.role.is_ruleset(),
        _ => false,
    }
}

/// Whether these are the head of a table's item: a name and a brace follow its first word.
fn is_head(role: Role, rest: &[RoleToken]) -> bool
    ensures { result ≡ inner.is_head role rest.now }
{
    match rest {
        [name, brace, ..] => {
            (role.is_set() || role.is_block()) && !name.role.is_no_word() && brace.role.opens()
        }
        _ => false,
    }
}

/// Whether an item begins here, by its first words.
fn begins_item(tokens: &[RoleToken]) -> bool
    ensures begins { result ≡ inner.begins_item tokens.now }
    ensures two { IsTrue result → 2 ≤ length tokens.now }
{
    match tokens.split_first() {
        Some((first, rest)) => is_head(first.role, rest) || changes_sets(first.role, rest),
        None => false,
    }
}

/// How many tokens of an item come before the second word of an item in its braces; all if it holds none.
pub fn before_inner(item: &[RoleToken]) -> usize
    ensures count { result ≡ inner.before_inner item.now }
    ensures within { result ≤ length item.now }
{
    let mut count = 0usize;
    let mut left = item;
    'tokens: while let Some((first, rest)) = left.split_first() {
        if first.role.is_before_statement() && begins_item(rest) {
            return count + 2;
        }
        count += 1;
        left = rest;
    }
    count
}

/// Whether an item has another one in its braces.
pub fn holds_item(item: &[RoleToken]) -> bool
    ensures { result ≡ inner.holds_item item.now }
{
    before_inner(item) < item.len()
}
