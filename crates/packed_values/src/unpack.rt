ghost use Rattle.std.specs.Prelude.{◌≡◌, ◌≤◌, ◌^◌, ◌↔◌, length, true, IsTrue, IfOk, IfErr, IfSome, None};
ghost use Rattle.set_model.specs.Key.{key_fits, parts_fit};
ghost use Rattle.packed_values.specs.Packed.{values_in, intervals_in, parts_in, packed_length, IsBounds, all_rise, Refuses};

use crate::kind_width::width;
use crate::numbers::first_value;
use set_model::{Interval, Kind, Memory, Parts};
use std::alloc::Global;

/// How many bytes a key of these kinds has. `None` if no `usize` is so large.
pub fn key_length(kinds: &[Kind]) -> Option<usize>
    ensures some { IfSome result (λ size. size ≡ packed_length kinds.now) }
    ensures none { result ≡ None → 2 ^ 64 ≤ packed_length kinds.now }
{
    let mut size = 0usize;
    'fields: for kind in kinds {
        size = size.checked_add(width(*kind))?;
    }
    Some(size)
}

/// Whether a key of these kinds has so many bytes.
pub fn has_length(kinds: &[Kind], length: usize) -> bool
    ensures { IsTrue result ↔ (length ≡ packed_length kinds.now) }
{
    let mut left = length;
    'fields: for kind in kinds {
        let size = width(*kind);
        if left < size {
            return false;
        }
        left -= size;
    }
    left == 0
}

/// Writes the values that the bytes stand for into a key of as many fields.
pub fn read_key(key: &mut [u128], kinds: &[Kind], bytes: &[u8])
    requires fields { length key.old ≡ length kinds.now }
    requires bytes { length bytes.now ≡ packed_length kinds.now }
    ensures values { key.new ≡ values_in kinds.now bytes.now }
    ensures fits { key_fits kinds.now key.new ≡ true }
{
    let mut rest = bytes;
    'fields: for i in 0..kinds.len() {
        let (value, others) = first_value(kinds[i], rest);
        rest = others;
        key[i] = value;
    }
}

/// The intervals whose low values are one row of bytes, and whose high values are another.
fn read_intervals(
    alloc: Global,
    kinds: &[Kind],
    lows: &[u8],
    highs: &[u8],
) -> Result<Vec<Interval>, Memory>
    requires lows { length lows.now ≡ packed_length kinds.now }
    requires highs { length highs.now ≡ packed_length kinds.now }
    ensures intervals { IfOk result (λ intervals. intervals.items ≡ intervals_in kinds.now lows.now highs.now) }
    ensures fit { IfOk result (λ intervals. parts_fit kinds.now intervals.items ≡ all_rise intervals.items) }
{
    let mut intervals = Vec::new(alloc);
    let mut rest_of_lows = lows;
    let mut rest_of_highs = highs;
    'fields: for i in 0..kinds.len() {
        let (low, other_lows) = first_value(kinds[i], rest_of_lows);
        let (high, other_highs) = first_value(kinds[i], rest_of_highs);
        rest_of_lows = other_lows;
        rest_of_highs = other_highs;
        intervals.push(Interval { low, high })?;
    }
    Ok(intervals)
}

/// Whether no interval falls.
fn rise(parts: &[Interval]) -> bool
    ensures { result ≡ all_rise parts.now }
{
    parts.iter().all(|part| part.low <= part.high)
}

/// Why bytes are no intervals.
#[derive(Clone, Copy)]
pub enum PartsError {
    /// There aren't as many bytes as two keys have.
    Length,
    /// The low value of an interval is above its high value.
    Falls,
    /// There is no memory left.
    Memory,
}

/// The intervals of an element: the first half of the bytes are the low values of all fields, the other half the high ones.
///
/// # Errors
///
/// `Length` if there aren't as many bytes as two keys have, and then `Falls` if an interval falls. `Memory` if there is none
/// left.
pub fn read_parts(alloc: Global, kinds: &[Kind], bounds: &[u8]) -> Result<Parts, PartsError>
    ensures parts { IfOk result (λ parts. parts ≡ parts_in kinds.now bounds.now) }
    ensures bounds { IfOk result (λ parts. IsBounds kinds.now bounds.now) }
    ensures fit { IfOk result (λ parts. (all_rise parts ≡ true) × (parts_fit kinds.now parts ≡ true)) }
    ensures refused { IfErr result (Refuses kinds.now bounds.now) }
{
    let (lows, highs) = bounds.split_at(bounds.len() / 2);
    if !has_length(kinds, lows.len()) || !has_length(kinds, highs.len()) {
        return Err(PartsError::Length);
    }
    let Ok(intervals) = read_intervals(alloc, kinds, lows, highs) else {
        return Err(PartsError::Memory);
    };
    if !rise(intervals.as_slice()) {
        return Err(PartsError::Falls);
    }
    Ok(Parts::from_vec(alloc, intervals))
}
