ghost use Rattle.std.specs.Prelude.{◌≡◌, ◌++◌, ◌<◌, ℕ, IfOk, OnOk, length, slice_index};
ghost use Rattle.ruleset_sets.specs.Items.{cuts};
ghost use Rattle.ruleset_sets.specs.Kept.{IsKept, HaveSameLines, all_taken, notes, taken_from, notes_by, taken_in, notes_in, kept_byte};

use crate::blanks::{blank_all, taken_out};
use crate::item::{Item, Level, item_before};
use crate::role_token::{RoleToken, tokens_of};
use crate::skipped::{Skips, note};
use set_model::{Listed, Memory};
use std::alloc::Global;

/// What is kept of a ruleset, and what isn't.
#[derive(Drop)]
pub struct Sieved {
    /// The ruleset's text, with blanks in place of what isn't kept. Every place has the line and the
    /// column that it has in the ruleset.
    pub text: Vec<u8>,
    /// What isn't kept.
    pub skips: Skips,
}

/// Takes an item out of the text, or what is dropped of it, and notes that.
fn sieve_item(
    alloc: Global,
    text: &mut [u8],
    skips: &mut Skips,
    item: &Item,
    tokens: &[RoleToken],
) -> Result<(), Memory>
    ensures text { OnOk result ((k : ℕ) → k < length text.old → slice_index text.new k ≡ kept_byte (taken_from item.now.skipped tokens.now) k (slice_index text.old k)) }
    ensures skips { OnOk result (skips.new ≡ skips.old ++ notes_by item.now.skipped tokens.now (taken_from item.now.skipped tokens.now)) }
{
    let taken = taken_out(alloc, item.skipped, tokens)?;
    blank_all(text, taken.as_slice());
    note(skips, item.skipped, tokens, taken.as_slice())
}

/// Takes out of the text what isn't kept of these tokens, and notes it.
fn sieve_all(
    alloc: Global,
    text: &mut [u8],
    skips: &mut Skips,
    tokens: &[RoleToken],
) -> Result<(), Memory>
    ensures text { OnOk result ((k : ℕ) → k < length text.old → slice_index text.new k ≡ kept_byte (taken_in (cuts tokens.now)) k (slice_index text.old k)) }
    ensures skips { OnOk result (skips.new ≡ skips.old ++ notes_in (cuts tokens.now)) }
{
    let mut level = Level::Outside;
    let mut left = tokens;
    'items: while let Some((first, rest)) = left.split_first() {
        let item = item_before(level, left, first, rest);
        let (these, behind) = left.split_at(item.size);
        sieve_item(alloc, text, skips, &item, these)?;
        level = item.level;
        left = behind;
    }
    Ok(())
}

/// Keeps the sets of a ruleset, and the statements on sets.
///
/// # Errors
///
/// `Memory` if memory runs out.
pub fn sieve_ruleset(alloc: Global, whole: &[u8]) -> Result<Sieved, Memory>
    ensures text { IfOk result (λ s. IsKept whole.now (all_taken whole.now) s.text.items) }
    ensures skips { IfOk result (λ s. s.skips ≡ notes whole.now) }
{
    let tokens = tokens_of(alloc, whole)?;
    let mut text = Vec::from_slice(alloc, whole)?;
    let mut skips = Listed::new(alloc);
    sieve_all(alloc, text.as_mut_slice(), &mut skips, tokens.as_slice())?;
    Ok(Sieved { text, skips })
}

/// What is kept of a ruleset has its line feeds at the ruleset's places. So each place of it has the
/// line and the column that it has in the ruleset.
pub fn same_lines_law(_whole: &[u8], _kept: &[u8])
    ensures { IsKept _whole.now (all_taken _whole.now) _kept.now → HaveSameLines _whole.now _kept.now }
{}
