ghost use Rattle.std.specs.Prelude.{◌≡◌, ℕ, ◌+◌, ◌-◌, ◌*◌, ◌/◌, ◌^◌, ◌<◌, ◌≤◌, true, false, length};
ghost use Rattle.bit_rows.specs.Row.{bit};
ghost use Rattle.set_model.specs.Blocks.{holds_value};
ghost use Rattle.lookup_table.specs.Rules.{KeepsBitsWhere};
ghost use Rattle.fused_lookup.specs.Probe.{IsProbe};
ghost use Rattle.fused_lookup.specs.Sieve.{HaveLines, in_all};
ghost use Rattle.lookup_table.specs.Lines.{IsPage};

use crate::probe::Probe;
use field_groups::LastFour;
use lookup_table::FieldTable;

// A value's last four groups separate most rules. So their buckets are ANDed first, and the other
// groups are looked up only if something is left of a word.

/// What is left of word `w` of a page in four buckets.
#[inline(always)]
fn left_at(words: &[u64], buckets: LastFour, w: usize) -> u64
    requires lines { HaveLines (length words.now) buckets }
    requires word { w < 8 }
    ensures { (k : ℕ) → k < 64 → bit result k ≡ in_all words.now buckets w k }
{
    let (fourth, third) = (words[buckets.fourth * 8 + w], words[buckets.third * 8 + w]);
    let (second, last) = (words[buckets.second * 8 + w], words[buckets.last * 8 + w]);
    fourth & third & second & last
}

/// Word `i` of the rules that hold the value.
#[inline(always)]
pub(crate) fn match_at(table: &FieldTable, probe: Probe, i: u32) -> u64
    requires probe { IsProbe table.now probe }
    requires word { 64 * i < table.now.rules }
    ensures held { KeepsBitsWhere table.now (λ rule. holds_value rule probe.value) i (2 ^ 64 - 1) result }
    ensures past { (k : ℕ) → k < 64 → table.now.rules ≤ 64 * i + k → bit result k ≡ false }
{
    let words = table.page(i);
    let left = left_at(words, probe.buckets, i as usize % 8);
    if left == 0 || probe.buckets.rest == 0 {
        return left;
    }
    table.match_before::<4>(words, probe.value, i, left)
}
