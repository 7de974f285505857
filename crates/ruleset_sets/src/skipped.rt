//! Notes on what isn't kept.
ghost use Rattle.std.specs.Prelude.{◌≡◌, ◌++◌, OnOk};
ghost use Rattle.ruleset_sets.specs.Kept.{name_of, item_note, note_at, part_notes, notes_by, is_of_sort};
ghost use Rattle.std.specs.List.{find};

use crate::role::Role;
use crate::role_token::RoleToken;
use crate::sieve::SkipReason;
use set_model::{Listed, Memory};

/// What isn't kept of a ruleset: an item, or a part of an item.
#[derive(Clone, Copy, Debug)]
pub struct Skipped {
    /// Why it isn't kept.
    pub why: SkipReason,
    /// Its first token. Its line and its place are those of the ruleset.
    pub at: RoleToken,
    /// The token after it, which names most items. `None` for a part, and if there is no such token in
    /// the item or it is a brace.
    pub name: Option<RoleToken>,
}

/// A sort of part that is dropped from a set that is kept.
#[derive(Clone, Copy)]
pub enum Sort {
    /// The flag `constant`.
    Constant,
    /// The flag `dynamic`.
    Dynamic,
    /// A counter, of the set or of an element.
    Counter,
    /// The time of the last packet, of the set or of an element.
    Last,
}

/// What isn't kept, in the order of the items.
pub type Skips = Listed<Skipped>;

/// The name of an item, by the tokens after its first one.
fn name_in(rest: &[RoleToken]) -> Option<RoleToken>
    ensures { result ≡ name_of rest.now }
{
    match rest.first() {
        Some(p) if !p.role.opens() => Some(*p),
        _ => None,
    }
}

/// Notes an item that is skipped.
fn note_item(skips: &mut Skips, why: SkipReason, item: &[RoleToken]) -> Result<(), Memory>
    ensures { OnOk result (skips.new ≡ skips.old ++ item_note why item.now) }
{
    match item.split_first() {
        Some((first, rest)) => skips.push(Skipped {
            why,
            at: *first,
            name: name_in(rest),
        }),
        None => Ok(()),
    }
}

/// Notes a dropped part, if there is one.
fn note_found(skips: &mut Skips, found: Option<RoleToken>) -> Result<(), Memory>
    ensures { OnOk result (skips.new ≡ skips.old ++ note_at found) }
{
    match found {
        Some(at) => skips.push(Skipped {
            why: SkipReason::DroppedPart,
            at,
            name: None,
        }),
        None => Ok(()),
    }
}

/// Whether a part is of this sort.
fn is_of(sort: Sort, role: Role) -> bool
    ensures { result ≡ is_of_sort sort role }
{
    match sort {
        Sort::Constant => role.is_constant(),
        Sort::Dynamic => role.is_dynamic(),
        Sort::Counter => role.is_counter(),
        Sort::Last => role.is_last(),
    }
}

/// The first of the dropped parts of this sort.
fn first_of(sort: Sort, dropped: &[RoleToken]) -> Option<RoleToken>
    ensures { result ≡ find (λ p. is_of_sort sort p.role) dropped.now }
{
    let mut left = dropped;
    'each: while let Some((first, rest)) = left.split_first() {
        if is_of(sort, first.role) {
            return Some(*first);
        }
        left = rest;
    }
    None
}

/// Notes each sort of dropped part once.
#[tactic(auto, using(std::proofs::Common::append_assoc))]
fn note_parts(skips: &mut Skips, dropped: &[RoleToken]) -> Result<(), Memory>
    ensures { OnOk result (skips.new ≡ skips.old ++ part_notes dropped.now) }
{
    note_found(skips, first_of(Sort::Constant, dropped))?;
    note_found(skips, first_of(Sort::Dynamic, dropped))?;
    note_found(skips, first_of(Sort::Counter, dropped))?;
    note_found(skips, first_of(Sort::Last, dropped))
}

/// Notes what isn't kept of an item, by why it is skipped and by the tokens that are taken out.
pub fn note(
    skips: &mut Skips,
    skipped: Option<SkipReason>,
    item: &[RoleToken],
    taken: &[RoleToken],
) -> Result<(), Memory>
    ensures { OnOk result (skips.new ≡ skips.old ++ notes_by skipped item.now taken.now) }
{
    match skipped {
        Some(why) => note_item(skips, why, item),
        None => note_parts(skips, taken),
    }
}
