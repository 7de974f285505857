//! Takes tokens out of a text: their bytes become blanks.
ghost use Rattle.std.specs.Prelude.{◌≡◌, ◌<◌, ℕ, IfOk, length, slice_index};
ghost use Rattle.std.specs.List.{filter};
ghost use Rattle.ruleset_sets.specs.Kept.{taken_from, is_within, blank_if, kept_byte};
ghost use Rattle.ruleset_sets.specs.Kept as kept;
ghost use Rattle.ruleset_sets.specs.Inner as inner;

use crate::inner::before_inner;
use crate::role::Role;
use crate::role_token::RoleToken;
use crate::sieve::{SkipReason, dropped_parts};
use set_model::Memory;
use std::alloc::Global;

impl Role {
    /// Whether it goes if its item is skipped.
    fn may_go(self) -> bool
        ensures { result ≡ kept.may_go self }
    {
        !(self.is_line_feed() || self.is_end() || self.is_unread())
    }
}

/// Whether a token goes if its item is skipped for this reason.
fn goes(why: SkipReason, role: Role) -> bool
    ensures { result ≡ kept.goes_for why role }
{
    match why {
        SkipReason::Unclosed => role.may_go() && !role.opens(),
        _ => role.may_go(),
    }
}

/// The tokens of a skipped item that are taken out.
fn all_that_may_go(
    alloc: Global,
    why: SkipReason,
    item: &[RoleToken],
) -> Result<Vec<RoleToken>, Memory>
    ensures { IfOk result (λ taken. taken.items ≡ filter (λ p. kept.goes_for why p.role) item.now) }
{
    Ok(
        item.iter()
            .copied()
            .filter(|p| goes(why, p.role))
            .collect(alloc)?,
    )
}

/// The tokens of an item that are taken out if it holds another one.
fn all_around_inner(alloc: Global, item: &[RoleToken]) -> Result<Vec<RoleToken>, Memory>
    ensures { IfOk result (λ taken. taken.items ≡ kept.taken_around (inner.before_inner item.now) item.now) }
{
    let (front, rest) = item.split_at(before_inner(item));
    let mut taken = all_that_may_go(alloc, SkipReason::NoSet, front)?;
    if let Some((_, behind)) = rest.split_first() {
        let others = all_that_may_go(alloc, SkipReason::Unclosed, behind)?;
        taken.extend_from_slice(others.as_slice())?;
    }
    Ok(taken)
}

/// The tokens of an item that are taken out, by why it is skipped.
pub fn taken_out(
    alloc: Global,
    skipped: Option<SkipReason>,
    item: &[RoleToken],
) -> Result<Vec<RoleToken>, Memory>
    ensures { IfOk result (λ taken. taken.items ≡ taken_from skipped item.now) }
{
    match skipped {
        Some(SkipReason::HoldsItem) => all_around_inner(alloc, item),
        Some(why) => all_that_may_go(alloc, why, item),
        None => dropped_parts(alloc, item),
    }
}

/// Makes the bytes of a token blanks. Bytes past the end of the text are none.
fn blank_one(text: &mut [u8], token: &RoleToken)
    ensures { (k : ℕ) → k < length text.old → slice_index text.new k ≡ blank_if (is_within k token.now) (slice_index text.old k) }
{
    let from = text.len().min(token.from as usize);
    let size = (text.len() - from).min(token.size as usize);
    for i in from..from + size {
        text[i] = b' ';
    }
}

/// Makes the bytes of tokens blanks.
pub fn blank_all(text: &mut [u8], tokens: &[RoleToken])
    ensures { (k : ℕ) → k < length text.old → slice_index text.new k ≡ kept_byte tokens.now k (slice_index text.old k) }
{
    let mut left = tokens;
    'each: while let Some((first, rest)) = left.split_first() {
        blank_one(text, first);
        left = rest;
    }
}
