ghost use Rattle.std.specs.Prelude.{◌≡◌, ◌<◌, ◌^◌, length, true};
ghost use Rattle.byteorder.specs.Endian.{big_bytes};
ghost use Rattle.set_model.specs.Key.{parts_fit};
ghost use Rattle.packed_values.specs.Packed.{width_of, packed_length, lows_of, highs_of, parts_in, IsBounds};

use crate::kind_width::width;
use byteorder::{BigEndian, ByteOrder};
use set_model::{Interval, Kind};

/// Writes a value of this kind.
fn write_value(kind: Kind, value: u128, bytes: &mut [u8])
    requires width { length bytes.old ≡ width_of kind }
    requires fits { value < 256 ^ width_of kind }
    ensures { bytes.new ≡ big_bytes (width_of kind) value }
{
    BigEndian::write_uint128(bytes, value, width(kind));
}

/// Writes the low values of all fields, and the high values.
fn write_keys(kinds: &[Kind], parts: &[Interval], lows: &mut [u8], highs: &mut [u8])
    requires fit { parts_fit kinds.now parts.now ≡ true }
    requires lows { length lows.old ≡ packed_length kinds.now }
    requires highs { length highs.old ≡ packed_length kinds.now }
    ensures lows { lows.new ≡ lows_of kinds.now parts.now }
    ensures highs { highs.new ≡ highs_of kinds.now parts.now }
{
    let mut at = 0usize;
    'fields: for i in 0..kinds.len() {
        let end = at + width(kinds[i]);
        write_value(kinds[i], parts[i].low, &mut lows[at..end]);
        write_value(kinds[i], parts[i].high, &mut highs[at..end]);
        at = end;
    }
}

/// Writes the bounds of an element's intervals: the low values of all fields, and then the high values. `read_parts` reads
/// the intervals back.
pub fn write_bounds(kinds: &[Kind], parts: &[Interval], bounds: &mut [u8])
    requires fit { parts_fit kinds.now parts.now ≡ true }
    requires two_keys { IsBounds kinds.now bounds.old }
    ensures two_keys { IsBounds kinds.now bounds.new }
    ensures parts { parts_in kinds.now bounds.new ≡ parts.now }
{
    let half = bounds.len() / 2;
    let (lows, highs) = bounds.split_at_mut(half);
    write_keys(kinds, parts, lows, highs);
}
