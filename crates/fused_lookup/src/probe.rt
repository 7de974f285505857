ghost use Rattle.std.specs.Prelude.{◌≡◌, ◌^◌, ◌<◌};
ghost use Rattle.fused_lookup.specs.Probe.{IsProbe};

use field_groups::{LastFour, last_four};
use lookup_table::FieldTable;

/// A value that is looked up in a field's table, with what is found once for all pages. It has the
/// places of the buckets of the last four groups in a page of rules. It also has the places of the
/// lines of the last four bytes in a page of marks.
#[derive(Clone, Copy)]
pub(crate) struct Probe {
    pub(crate) value: u128,
    pub(crate) buckets: LastFour,
    pub(crate) lines: LastFour,
}

impl Probe {
    #[inline(always)]
    pub(crate) fn new(table: &FieldTable, value: u128) -> Probe
        requires { value < 2 ^ table.now.bits }
        ensures probe { IsProbe table.now result }
        ensures value { result.value ≡ value }
    {
        let buckets = last_four(value, table.width, table.bits);
        // In groups of eight bits the groups are the bytes, so the places are the same.
        let lines = if table.width == 8 {
            buckets
        } else {
            last_four(value, 8, table.bits)
        };
        Probe {
            value,
            buckets,
            lines,
        }
    }
}
