//! Which sets and statements on sets can be kept, and which of their parts are dropped.
ghost use Rattle.std.specs.Prelude.{◌≡◌, ◌≤◌, ◌||◌, IfOk, length, not};
ghost use Rattle.std.specs.List.{prefix_len};
ghost use Rattle.ruleset_sets.specs.Sieve as sieve;
ghost use Rattle.ruleset_sets.specs.Roles as roles;
ghost use Rattle.ruleset_sets.specs.declared.sieve.Spot.TheVariants as spots;

use crate::role::Role;
use crate::role_token::RoleToken;
use set_model::Memory;
use set_script::Expression;
use std::alloc::Global;

/// Why an item of a ruleset, or a part of an item, isn't kept. If a token of the item is the reason, this has the first such
/// token.
#[derive(Clone, Copy, Debug)]
pub enum SkipReason {
    /// The item is no set and no statement on sets.
    NoSet,
    /// The set has a type that isn't known: this word after `type`.
    UnknownType(RoleToken),
    /// The set has an expression that isn't known. No known expression goes on with this token after `typeof`.
    UnknownExpression(RoleToken),
    /// The set has the flag `auto-merge`.
    AutoMerge(RoleToken),
    /// The set has the catch-all element `*`.
    CatchAll(RoleToken),
    /// The set has elements with a quota, a limit or a count of connections: `quota`, `limit` or `ct`.
    Stateful(RoleToken),
    /// The braces of the item don't close. They stay, so a script refuses the first of them.
    Unclosed,
    /// Another item is in the item's braces, such as a set after a chain that isn't closed. The second word of
    /// that item stays, so a script refuses it.
    HoldsItem,
    /// The part is dropped from a set that is kept. No verdict depends on it.
    DroppedPart,
}

/// Where a token of a set is.
#[derive(Clone, Copy, Debug)]
pub enum Spot {
    /// Outside the others.
    Plain,
    /// Among the types of `type`.
    Types,
    /// Among the expressions of `typeof`, after this part of one.
    Expressions(Expression),
    /// Among the flags of `flags`, if no flag that stays came before. The last token is no dropped flag.
    Flags,
    /// The same, right after a dropped flag.
    FlagDropped,
    /// Among the flags of `flags`, after a flag that stays.
    FlagKept,
    /// After a counter, or after a value of it.
    Tally,
    /// Before a value of a counter.
    TallyValue,
}

/// What becomes of a token.
#[derive(Clone, Copy, Debug)]
pub enum Fate {
    /// It stays.
    Keep,
    /// It is dropped.
    Drop,
    /// Its item is left out.
    Leave(SkipReason),
}

impl Role {
    /// Whether it is a flag of a set that no verdict depends on.
    pub fn is_idle_flag(self) -> bool
        ensures { result ≡ sieve.is_idle_flag self }
    {
        self.is_constant() || self.is_dynamic()
    }

    /// Whether it is a counter, or the time of the last packet.
    pub fn is_tally(self) -> bool
        ensures { result ≡ sieve.is_tally self }
    {
        self.is_counter() || self.is_last()
    }

    /// Whether a list of flags is made of it and its like.
    fn is_flag_part(self) -> bool
        ensures { result ≡ sieve.is_flag_part self }
    {
        self.is_plain_word() || self.is_idle_flag() || self.is_comma()
    }

    /// Whether it comes between two expressions, or after the last one.
    fn ends_expression(self) -> bool
        ensures { result ≡ sieve.ends_expression self }
    {
        self.is_dot()
            || self.is_separator()
            || self.opens()
            || self.closes()
            || self.is_unread()
            || self.is_end()
    }
}

/// Why an item with this token outside expressions is left out, if it is.
fn why(p: &RoleToken) -> Option<SkipReason>
    ensures { result ≡ sieve.why_left_out p.now.role p.now }
{
    match p.role {
        Role::AutoMerge => Some(SkipReason::AutoMerge(*p)),
        Role::Star => Some(SkipReason::CatchAll(*p)),
        Role::Stateful => Some(SkipReason::Stateful(*p)),
        _ => None,
    }
}

/// Whether the list of flags at this place has one that stays.
fn keeps_a_flag(rest: &[RoleToken]) -> bool
    ensures { result ≡ sieve.keeps_flag rest.now }
{
    rest.iter()
        .take_while(|p| p.role.is_flag_part())
        .any(|p| p.role.is_plain_word())
}

/// Whether what comes next may come after a flag.
fn at_flag_end(rest: &[RoleToken]) -> bool
    ensures { result ≡ sieve.begins_with sieve.ends_flag rest.now }
{
    match rest.first() {
        Some(p) => p.role.is_separator() || p.role.is_comma() || p.role.closes(),
        None => false,
    }
}

/// Whether a flag comes next.
fn at_flag(rest: &[RoleToken]) -> bool
    ensures { result ≡ sieve.begins_with (λ q. roles.is_plain_word q || sieve.is_idle_flag q) rest.now }
{
    match rest.first() {
        Some(p) => p.role.is_plain_word() || p.role.is_idle_flag(),
        None => false,
    }
}

/// Whether an idle flag comes next.
fn at_idle_flag(rest: &[RoleToken]) -> bool
    ensures { result ≡ sieve.begins_with sieve.is_idle_flag rest.now }
{
    match rest.first() {
        Some(p) => p.role.is_idle_flag(),
        None => false,
    }
}

/// Whether a token is an idle flag, and one whole flag.
fn is_a_whole_idle(role: Role, rest: &[RoleToken]) -> bool
    ensures { result ≡ sieve.is_whole_idle role rest.now }
{
    role.is_idle_flag() && at_flag_end(rest)
}

fn dropped_if(dropped: bool) -> Fate
    ensures { result ≡ sieve.drop_if dropped }
{
    if dropped { Fate::Drop } else { Fate::Keep }
}

fn fate_of_word(role: Role, rest: &[RoleToken]) -> Fate
    ensures { result ≡ sieve.plain_fate role rest.now }
{
    dropped_if(role.is_tally() || (role.is_flags() && !keeps_a_flag(rest)))
}

/// What becomes of a token among expressions, by what has been read of an expression after it.
fn fate_in_expression(p: &RoleToken, grown: Option<Expression>) -> Fate
    ensures { result ≡ sieve.expression_fate p.now grown }
{
    match grown {
        Some(_) => Fate::Keep,
        None if p.role.ends_expression() => Fate::Keep,
        None => Fate::Leave(SkipReason::UnknownExpression(*p)),
    }
}

/// What becomes of a token that isn't special wherever it is, by its spot and the tokens after it.
fn fate_inside(spot: Spot, p: &RoleToken, rest: &[RoleToken]) -> Fate
    ensures { result ≡ sieve.fate_at spot p.now rest.now }
{
    let role = p.role;
    match spot {
        Spot::Plain => fate_of_word(role, rest),
        Spot::Types if role.is_type_part() || role.is_no_word() => Fate::Keep,
        Spot::Types => Fate::Leave(SkipReason::UnknownType(*p)),
        Spot::Expressions(part) => fate_in_expression(p, part.grown(p.word)),
        Spot::Flags => dropped_if(is_a_whole_idle(role, rest)),
        Spot::FlagDropped => {
            dropped_if(is_a_whole_idle(role, rest) || (role.is_comma() && at_flag(rest)))
        }
        Spot::FlagKept => {
            dropped_if(is_a_whole_idle(role, rest) || (role.is_comma() && at_idle_flag(rest)))
        }
        Spot::Tally if role.is_count() => Fate::Drop,
        Spot::TallyValue if role.is_plain_word() => Fate::Drop,
        Spot::Tally | Spot::TallyValue => fate_of_word(role, rest),
    }
}

/// Why an item with this token at this spot is left out whatever comes next, if it is.
fn why_here(spot: Spot, p: &RoleToken) -> Option<SkipReason>
    ensures { result ≡ sieve.why_at spot p.now }
{
    match spot {
        Spot::Expressions(_) => None,
        _ => why(p),
    }
}

/// What becomes of a token, by its spot and the tokens after it.
fn fate_of(spot: Spot, p: &RoleToken, rest: &[RoleToken]) -> Fate
    ensures { result ≡ sieve.fate spot p.now rest.now }
{
    match why_here(spot, p) {
        Some(why) => Fate::Leave(why),
        None => fate_inside(spot, p, rest),
    }
}

fn spot_after_flag(role: Role) -> Spot
    ensures { result ≡ sieve.flag_spot role }
{
    if role.is_idle_flag() {
        Spot::FlagDropped
    } else if role.is_plain_word() {
        Spot::FlagKept
    } else {
        Spot::Flags
    }
}

/// The spot among expressions after a token that doesn't end one.
fn spot_in_expression(grown: Option<Expression>) -> Spot
    ensures { result ≡ sieve.expression_spot grown }
{
    match grown {
        Some(part) => Spot::Expressions(part),
        None => Spot::Plain,
    }
}

/// The spot after a token that begins no part of its item.
fn spot_within(spot: Spot, p: &RoleToken) -> Spot
    ensures { result ≡ sieve.spot_inside spot p.now }
{
    let role = p.role;
    match spot {
        Spot::Types if role.is_type_part() => Spot::Types,
        Spot::Expressions(_) if role.is_dot() => Spot::Expressions(Expression::Empty),
        Spot::Expressions(part) => spot_in_expression(part.grown(p.word)),
        Spot::Flags | Spot::FlagDropped => spot_after_flag(role),
        Spot::FlagKept => Spot::FlagKept,
        Spot::Tally if role.is_count() => Spot::TallyValue,
        Spot::TallyValue if role.is_plain_word() => Spot::Tally,
        _ => Spot::Plain,
    }
}

/// The spot after a token.
fn spot_after(spot: Spot, p: &RoleToken) -> Spot
    ensures { result ≡ sieve.spot_behind spot p.now }
{
    let role = p.role;
    if role.is_separator() || role.opens() || role.closes() {
        Spot::Plain
    } else if role.is_type() {
        Spot::Types
    } else if role.is_typeof() {
        Spot::Expressions(Expression::Empty)
    } else if role.is_flags() {
        Spot::Flags
    } else if role.is_tally() {
        Spot::Tally
    } else {
        spot_within(spot, p)
    }
}

/// The first reason for which these tokens can't be kept, with its token.
fn reason_among(tokens: &[RoleToken]) -> Option<SkipReason>
    ensures { result ≡ sieve.first_reason spots.Plain tokens.now }
{
    let mut spot = Spot::Plain;
    let mut left = tokens;
    'tokens: while let Some((first, rest)) = left.split_first() {
        if let Fate::Leave(why) = fate_of(spot, first, rest) {
            return Some(why);
        }
        spot = spot_after(spot, first);
        left = rest;
    }
    None
}

/// The tokens of an item from its first brace on.
fn body_of(item: &[RoleToken]) -> &[RoleToken]
    ensures { result.now ≡ sieve.body item.now }
{
    let head = before_brace(item);
    &item[head..]
}

/// How many tokens come before the first brace.
fn before_brace(item: &[RoleToken]) -> usize
    ensures run { result ≡ prefix_len (λ p. not (roles.opens p.role)) item.now }
    ensures within { result ≤ length item.now }
{
    item.iter().take_while(|p| !p.role.opens()).count()
}

/// Why an item can't be kept, if it can't.
pub fn why_left_out(item: &[RoleToken]) -> Option<SkipReason>
    ensures { result ≡ sieve.left_out item.now }
{
    reason_among(body_of(item))
}

/// The tokens of an item from its first brace on that are dropped.
fn dropped_in_body(alloc: Global, body: &[RoleToken]) -> Result<Vec<RoleToken>, Memory>
    ensures { IfOk result (λ dropped. dropped.items ≡ sieve.dropped_among spots.Plain body.now) }
{
    let mut dropped = Vec::new(alloc);
    let mut spot = Spot::Plain;
    let mut left = body;
    'tokens: while let Some((first, rest)) = left.split_first() {
        if let Fate::Drop = fate_of(spot, first, rest) {
            dropped.push(*first)?;
        }
        spot = spot_after(spot, first);
        left = rest;
    }
    Ok(dropped)
}

/// The parts of an item that are dropped.
pub fn dropped_parts(alloc: Global, item: &[RoleToken]) -> Result<Vec<RoleToken>, Memory>
    ensures { IfOk result (λ dropped. dropped.items ≡ sieve.dropped_parts item.now) }
{
    dropped_in_body(alloc, body_of(item))
}
