//! The items of a ruleset: its statements, and the items of its tables.
ghost use Rattle.std.specs.Prelude.{◌≡◌, ◌≤◌, ◌<◌, ◌+◌, ◌^◌, ◌∷◌, length, drop, IsTrue};
ghost use Rattle.ruleset_sets.specs.Roles as roles;
ghost use Rattle.ruleset_sets.specs.Sieve.{begins_with};
ghost use Rattle.ruleset_sets.specs.Items as items;

use crate::inner::{changes_sets, holds_item};
use crate::role::Role;
use crate::role_token::RoleToken;
use crate::sieve::{SkipReason, why_left_out};

/// Where an item is.
#[derive(Clone, Copy, Debug)]
pub enum Level {
    /// Outside tables: it is a statement.
    Outside,
    /// In a table's block.
    InTable,
}

/// The first item of some tokens.
#[derive(Clone, Copy, Debug)]
pub struct Item {
    /// How many tokens it has.
    pub size: usize,
    /// Why it is skipped; `None` if it is kept.
    pub skipped: Option<SkipReason>,
    /// Where the item after it is.
    pub level: Level,
}

/// Whether a token ends an item with so many open braces.
fn ends_an_item(depth: u64, role: Role) -> bool
    ensures { result ≡ items.ends_item depth role }
{
    role.is_end() || (depth == 0 && (role.is_separator() || role.closes()))
}

/// How many braces are open after a token.
fn depth_after(depth: u64, role: Role) -> u64
    requires { depth + 1 < 2 ^ 64 }
    ensures depth { result ≡ items.depth_behind depth role }
    ensures few { result ≤ depth + 1 }
{
    if role.opens() {
        depth + 1
    } else if role.closes() {
        depth.saturating_sub(1)
    } else {
        depth
    }
}

/// How many of these tokens belong to an item with so many open braces.
fn rest_of_item(depth: u64, tokens: &[RoleToken]) -> usize
    requires { depth ≤ 1 }
    ensures len { result ≡ items.rest_len depth tokens.now }
    ensures within { result ≤ length tokens.now }
{
    let mut inside = depth;
    let mut count = 0usize;
    let mut left = tokens;
    'tokens: while let Some((first, rest)) = left.split_first() {
        if ends_an_item(inside, first.role) {
            return count;
        }
        inside = depth_after(inside, first.role);
        count += 1;
        left = rest;
    }
    count
}

/// How many tokens an item has that begins with this one.
fn len_of_item(first: &RoleToken, rest: &[RoleToken]) -> usize
    ensures len { result ≡ items.item_len first.now rest.now }
    ensures within { result ≤ length rest.now + 1 }
    ensures some { 0 < result }
{
    1 + rest_of_item(depth_after(0, first.role), rest)
}

/// Whether a statement is one on sets, or ends a turn of the script.
fn is_a_statement_on_sets(role: Role, rest: &[RoleToken]) -> bool
    ensures { result ≡ items.is_on_sets role rest.now }
{
    match role {
        Role::Turn => true,
        _ => changes_sets(role, rest),
    }
}

/// Whether the braces of an item close.
fn has_balance(item: &[RoleToken]) -> bool
    ensures { result ≡ items.is_balanced item.now }
{
    let opened = item.iter().filter(|p| p.role.opens()).count();
    let closed = item.iter().filter(|p| p.role.closes()).count();
    opened == closed
}

/// Why an item by itself is skipped, if it is. It is kept if it may stay and nothing in it forbids that.
fn why_alone(may_stay: bool, item: &[RoleToken]) -> Option<SkipReason>
    ensures { result ≡ items.why_alone may_stay item.now }
{
    if may_stay {
        why_left_out(item)
    } else {
        Some(SkipReason::NoSet)
    }
}

/// Why an item is skipped, if it is. No item is skipped as a part of another.
fn why_not_kept(may_stay: bool, item: &[RoleToken]) -> Option<SkipReason>
    ensures { result ≡ items.why_skipped may_stay item.now }
{
    let why = why_alone(may_stay, item);
    if !has_balance(item) {
        Some(SkipReason::Unclosed)
    } else if why.is_some() && holds_item(item) {
        Some(SkipReason::HoldsItem)
    } else {
        why
    }
}

/// The item that these tokens begin with. It is kept if it may stay and nothing in it forbids that.
fn whole_item(
    may_stay: bool,
    level: Level,
    tokens: &[RoleToken],
    first: &RoleToken,
    rest: &[RoleToken],
) -> Item
    requires { tokens.now ≡ first.now ∷ rest.now }
    ensures item { result ≡ items.whole_item may_stay level first.now rest.now }
    ensures within { (0 < result.size) × (result.size ≤ length tokens.now) }
{
    let size = len_of_item(first, rest);
    let skipped = why_not_kept(may_stay, &tokens[..size]);
    Item {
        size,
        skipped,
        level,
    }
}

/// How many tokens come before the first that is a brace or ends the statement.
fn len_of_head(rest: &[RoleToken]) -> usize
    ensures run { result ≡ items.head_len rest.now }
    ensures within { result ≤ length rest.now }
{
    rest.iter()
        .take_while(|p| !(p.role.opens() || ends_an_item(0, p.role)))
        .count()
}

/// Whether a brace opens at this place.
fn opens_at(tokens: &[RoleToken], place: usize) -> bool
    ensures value { result ≡ begins_with roles.opens (drop place tokens.now) }
    ensures within { IsTrue result → place < length tokens.now }
{
    match tokens.get(place) {
        Some(p) => p.role.opens(),
        None => false,
    }
}

/// The head of a table's block, or a statement on a table without a block.
fn head_of_table(tokens: &[RoleToken], first: &RoleToken, rest: &[RoleToken]) -> Item
    requires { tokens.now ≡ first.now ∷ rest.now }
    ensures item { result ≡ items.table_head first.now rest.now }
    ensures within { (0 < result.size) × (result.size ≤ length tokens.now) }
{
    let head = len_of_head(rest);
    if opens_at(rest, head) {
        Item {
            size: head + 2,
            skipped: None,
            level: Level::InTable,
        }
    } else {
        whole_item(false, Level::Outside, tokens, first, rest)
    }
}

/// The item that these tokens begin with, of which the first is a word.
fn item_of(level: Level, tokens: &[RoleToken], first: &RoleToken, rest: &[RoleToken]) -> Item
    requires { tokens.now ≡ first.now ∷ rest.now }
    ensures item { result ≡ items.item_at level first.now rest.now }
    ensures within { (0 < result.size) × (result.size ≤ length tokens.now) }
{
    match level {
        Level::InTable => {
            let may_stay = first.role.is_set() || is_a_statement_on_sets(first.role, rest);
            whole_item(may_stay, level, tokens, first, rest)
        }
        Level::Outside if first.role.is_table() => head_of_table(tokens, first, rest),
        Level::Outside => {
            let may_stay = is_a_statement_on_sets(first.role, rest);
            whole_item(may_stay, level, tokens, first, rest)
        }
    }
}

fn alone(level: Level) -> Item
    ensures { result ≡ record { size = 1; skipped = None; level = level } }
{
    Item {
        size: 1,
        skipped: None,
        level,
    }
}

/// The item that these tokens begin with.
pub fn item_before(
    level: Level,
    tokens: &[RoleToken],
    first: &RoleToken,
    rest: &[RoleToken],
) -> Item
    requires { tokens.now ≡ first.now ∷ rest.now }
    ensures item { result ≡ items.first_item level first.now rest.now }
    ensures within { (0 < result.size) × (result.size ≤ length tokens.now) }
{
    let role = first.role;
    if role.closes() {
        alone(Level::Outside)
    } else if role.is_no_word() {
        alone(level)
    } else {
        item_of(level, tokens, first, rest)
    }
}
