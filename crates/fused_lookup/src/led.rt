ghost use Rattle.std.specs.Prelude.{◌≡◌, ◌^◌, ◌<◌, length};
ghost use Rattle.set_model.specs.Blocks.{holds_value};
ghost use Rattle.fused_lookup.specs.Words.{IsWithinRules};
ghost use Rattle.fused_lookup.specs.Led.{LeadsWord, LeadsOn};

use crate::bits::next_bit;
use lookup_table::FieldTable;
use mapping_table::EndTable;
use set_model::is_live;

/// The place of the element of the lowest matched rule of a word whose end is live. Bit 0 of the
/// word is rule `64 * i`.
#[inline(always)]
pub(crate) fn first_live(ends: &EndTable, i: u32, word: u64, now: u64) -> Option<u64>
    requires { IsWithinRules (length ends.now.items) i word }
    ensures { LeadsWord ends.now.items i word now result }
{
    // Asking the word's moment first is cheaper. It is eight bytes next to its neighbours, and the
    // word's ends are a kilobyte. Asked only after an expired end, each word of expired ends would
    // cost one more memory line.
    if word == 0 || ends.is_word_expired(i, now) {
        return None;
    }
    let word_ends = ends.word(i);
    let mut from = 0;
    'rules: while let Some(k) = next_bit(word, from) {
        let end = word_ends[k as usize];
        if is_live(end.expiry, now) {
            return Some(end.place);
        }
        from = k + 1;
    }
    None
}

/// Where the rules before word `i` and the matched rules of the word lead, if those before it lead
/// to `found`. Only rules of the word in `left` may be left.
#[inline(always)]
pub(crate) fn led_on(
    found: Option<u64>,
    table: &FieldTable,
    ends: &EndTable,
    value: u128,
    i: u32,
    left: u64,
    now: u64,
) -> Option<u64>
    requires value { value < 2 ^ table.now.bits }
    requires rules { length ends.now.items ≡ table.now.rules }
    ensures { LeadsOn table.now ends.now.items (λ rule. holds_value rule value) i left now found result }
{
    match found {
        Some(place) => Some(place),
        None => first_live(ends, i, table.match_word(value, i, left), now),
    }
}
