//! How large the tables of a field are.
ghost use Rattle.std.specs.Prelude.{◌≡◌};
ghost use Rattle.stat_answer.specs.Figures.{bucket_bytes as bytes_of_buckets};

use lookup_table::FieldTable;

/// The size of a field's lookup table.
#[derive(Clone, Copy)]
pub(crate) struct FieldFigures {
    /// How many bits a group has: 4 or 8.
    pub(crate) width: u32,
    /// How many rules the field has.
    pub(crate) rules: u32,
    /// The bytes of its buckets.
    pub(crate) bytes: u64,
}

/// The bytes of a table's buckets, one bit for each rule, in whole words of 64 rules.
fn bucket_bytes(table: &FieldTable) -> u64
    ensures { result ≡ bytes_of_buckets table.now.width table.now.bits table.now.rules }
{
    let words = (u64::from(table.rules) + 63) / 64;
    if table.width == 8 {
        u64::from(table.bits) / 8 * 256 * 8 * words
    } else {
        u64::from(table.bits) / 4 * 16 * 8 * words
    }
}

/// The size of a table.
pub(crate) fn figures_of(table: &FieldTable) -> FieldFigures
    ensures { result ≡ record { width = table.now.width; rules = table.now.rules; bytes = bytes_of_buckets table.now.width table.now.bits table.now.rules } }
{
    FieldFigures {
        width: table.width,
        rules: table.rules,
        bytes: bucket_bytes(table),
    }
}
