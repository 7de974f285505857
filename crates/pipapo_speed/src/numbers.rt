/// Value `i` of a list of values of two words, the lower one first; 0 past the end.
pub(crate) fn value_at(words: &[u64], i: usize) -> u128 {
    let low = word_at(words, i.saturating_mul(2));
    let high = word_at(words, i.saturating_mul(2).saturating_add(1));
    (high as u128) << 64 | low as u128
}

/// Word `i`, or 0 past the end.
pub(crate) fn word_at(words: &[u64], i: usize) -> u64 {
    match words.get(i) {
        Some(word) => *word,
        None => 0,
    }
}
