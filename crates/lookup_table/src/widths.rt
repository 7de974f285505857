ghost use Rattle.std.specs.Prelude.{◌≡◌, ◌^◌, ◌<◌, ◌≤◌};
ghost use Rattle.lookup_table.specs.Rows.{halves_start, halves_step};
ghost use Rattle.lookup_table.specs.Width.{width_of};

/// The most bytes that a table in groups of eight bits may have.
const WIDE_BYTES: u64 = 2_097_152;

/// The group width for a field of `bits` bits with so many rules: eight bits if such a table has at
/// most 2 MiB, else four.
pub fn width_for(bits: u32, rules: u32) -> u32
    requires { bits ≤ 128 }
    ensures { result ≡ width_of bits rules }
{
    let bytes = bits as u64 / 8 * 256 * 8 * ((rules as u64 + 63) / 64);
    if bytes <= WIDE_BYTES { 8 } else { 4 }
}

/// Sixteen buckets of groups of eight bits have the value of bucket `j` of groups of four as their
/// upper or lower half. Returns the place of the first of them, and their distance.
pub(crate) fn halves_of(j: u64) -> (u64, u64)
    requires { j < 2 ^ 40 }
    ensures start { result.0 ≡ halves_start j }
    ensures step { result.1 ≡ halves_step j }
{
    let (g, v) = (j / 16, j % 16);
    if g % 2 == 0 {
        (g / 2 * 256 + v * 16, 1)
    } else {
        (g / 2 * 256 + v, 16)
    }
}
