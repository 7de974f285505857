ghost use Rattle.std.specs.Prelude.{◌≡◌, ◌≤◌, ◌^◌, ◌&&◌, nat_lt, nat_le};
ghost use Rattle.std.specs.List.{list_all, zip};
ghost use Rattle.set_model.specs.Kind.{bits_of};
ghost use Rattle.set_model.specs.Key.{is_good as good, values_fit, intervals_fit, key_fits, parts_fit as the_parts_fit};

use crate::element::Parts;
use crate::kind::{Interval, Key, Kind, Kinds};

/// Whether a value has at most `bits` bits.
pub fn is_below(value: u128, bits: u32) -> bool
    requires { bits ≤ 128 }
    ensures { result ≡ nat_lt value (2 ^ bits) }
{
    bits >= 128 || value < (1u128 << bits)
}

fn all_values_fit(kinds: &[Kind], key: &[u128]) -> bool
    ensures { result ≡ values_fit kinds.now key.now }
{
    kinds
        .iter()
        .zip(key.iter())
        .all(|(kind, value)| is_below(*value, kind.bits()))
}

/// Whether an interval's low end is at most its high end, and the high end is within the kind's
/// bits.
pub fn is_good(kind: Kind, part: &Interval) -> bool
    ensures { result ≡ good kind part.now }
{
    part.low <= part.high && is_below(part.high, kind.bits())
}

fn all_intervals_fit(kinds: &[Kind], parts: &[Interval]) -> bool
    ensures { result ≡ intervals_fit kinds.now parts.now }
{
    kinds
        .iter()
        .zip(parts.iter())
        .all(|(kind, part)| is_good(*kind, part))
}

/// Whether a key has one value per kind, each within its kind's bits.
pub fn fits(kinds: &Kinds, key: &Key) -> bool
    ensures { result ≡ key_fits kinds.now key.now }
{
    kinds.len() == key.len() && all_values_fit(kinds.as_slice(), key.as_slice())
}

/// Whether there is one interval per kind. Each has a low end no higher than its high end, within
/// the kind's bits.
pub fn parts_fit(kinds: &Kinds, parts: &Parts) -> bool
    ensures { result ≡ the_parts_fit kinds.now parts.now }
{
    kinds.len() == parts.len() && all_intervals_fit(kinds.as_slice(), parts.as_slice())
}
