ghost use Rattle.std.specs.Prelude.{◌≡◌, ◌+◌, ◌≤◌, ◌<◌, ℕ, true, length, IfOk, find, get_or};
ghost use Rattle.std.specs.List.{range_with_len};
ghost use Rattle.set_model.specs.Key.{parts_fit};
ghost use Rattle.set_model.specs.Blocks.{blocks};
ghost use Rattle.set_model.specs.SetState.{rules_limit};
ghost use Rattle.range_expand.specs.Split.{IsFieldInterval};
ghost use Rattle.lookup_table.specs.declared.table.FieldTable.{FieldTable as Table};
ghost use Rattle.pipapo_image.specs.Index.Built.{Built};
ghost use Rattle.pipapo_image.specs.Index.Grow.{IsColumn, counts, is_over};

use crate::index::scratch::MOST_RULES;
use lookup_table::FieldTable;
use range_expand::Blocks;
use set_model::{Block, Kinds, Listed, Memory, Parts};
use std::alloc::Global;

/// The blocks of an interval.
fn split(alloc: Global, low: u128, high: u128, bits: u32) -> Result<Vec<Block>, Memory>
    requires { IsFieldInterval low high bits }
    ensures { IfOk result (λ v. v.items ≡ blocks low high bits) }
{
    Ok(Blocks::new(low, high, bits).collect(alloc)?)
}

/// The blocks of the interval of field `f`.
fn column(alloc: Global, kinds: &Kinds, parts: &Parts, f: u64) -> Result<Listed<Block>, Memory>
    requires fit { parts_fit kinds.now parts.now ≡ true }
    requires field { f < length kinds.now }
    ensures { IfOk result (IsColumn kinds.now parts.now f) }
{
    let part = *parts.at(f);
    let kind = *kinds.at(f);
    let blocks = split(alloc, part.low, part.high, kind.bits())?;
    Ok(Listed::from_vec(blocks))
}

/// The blocks of the interval of each field.
pub(crate) fn columns(
    alloc: Global,
    kinds: &Kinds,
    parts: &Parts,
) -> Result<Vec<Listed<Block>>, Memory>
    requires fit { parts_fit kinds.now parts.now ≡ true }
    ensures { IfOk result (λ v. Built (IsColumn kinds.now parts.now) v.items (length kinds.now)) }
{
    let mut list = Vec::new(alloc);
    'kinds: for f in 0..kinds.len() {
        list.push(column(alloc, kinds, parts, f)?)?;
    }
    Ok(list)
}

/// The first field that would have too many rules.
pub(crate) fn crowded_field(fields: &[FieldTable], columns: &[Listed<Block>]) -> Option<u32>
    requires columns { length columns.now ≡ length fields.now }
    requires few { length fields.now ≤ 16 }
    requires rules { (f : ℕ) (t : Table) → f < length fields.now → (get_or fields.now f t).rules ≤ rules_limit }
    ensures { result ≡ find (is_over (counts fields.now) columns.now) (range_with_len 0 (length fields.now)) }
{
    'fields: for f in 0..fields.len() {
        let free = MOST_RULES - fields[f].rules;
        if columns[f].len() > free as u64 {
            return Some(f as u32);
        }
    }
    None
}
