ghost use Rattle.std.specs.Prelude.{◌≡◌, ℕ, ◌+◌, ◌≤◌, ◌<◌, true, false, MatchOption};
ghost use Rattle.bit_rows.specs.Row.{bit, with_run};
ghost use Rattle.fused_lookup.specs.Words.{IsNextBit, IsRunEnd, small_row};

/// The least set bit of a word that is not below `from`, if there is one.
#[inline(always)]
pub(crate) fn next_bit(word: u64, from: u32) -> Option<u32>
    requires { from ≤ 64 }
    ensures { MatchOption result ((k : ℕ) → from ≤ k → k < 64 → bit word k ≡ false) (IsNextBit word from) }
{
    if from == 64 {
        return None;
    }
    let left = word >> from;
    if left == 0 {
        return None;
    }
    Some(from + left.trailing_zeros())
}

/// The end of the run of set bits that begins with bit `from`.
#[inline(always)]
pub(crate) fn run_end(word: u64, from: u32) -> u32
    requires within { from < 64 }
    requires set { bit word from ≡ true }
    ensures { IsRunEnd word from result }
{
    match next_bit(!word, from) {
        Some(end) => end,
        None => 64,
    }
}

/// The row of 128 rules with the `n` rules from `from` on set.
#[inline(always)]
pub(crate) fn with_ones(row: u128, from: u32, n: u32) -> u128
    requires { from + n ≤ 128 }
    ensures { small_row result ≡ with_run (small_row row) from n }
{
    if n == 0 {
        return row;
    }
    row | ((u128::MAX << from) & (u128::MAX >> (128 - (from + n))))
}
