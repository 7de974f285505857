//! Finds the word that was probably meant.
use set_model::Memory;
use std::alloc::Global;
use std::str;
use strsim::osa_distance;

/// The longest word for which another one is looked for.
const LONGEST: usize = 40;

/// How many letters of one word, at least three, begin another that is then near.
const FRONT: usize = 3;

/// Whether two words differ in the case of letters alone.
pub fn is_same_in_lower_case(word: &[u8], other: &[u8]) -> bool {
    word.len() == other.len()
        && word
            .iter()
            .zip(other)
            .all(|(a, b)| a.to_ascii_lowercase() == b.to_ascii_lowercase())
}

/// How many letters differ. Two that were swapped count once, and so do a missing end and another case of letters.
fn distance(alloc: Global, word: &[u8], other: &[u8]) -> Result<usize, Memory> {
    if word.len() >= FRONT && (other.starts_with(word) || is_same_in_lower_case(word, other)) {
        return Ok(1);
    }
    match (str::from_utf8(word), str::from_utf8(other)) {
        (Ok(word), Ok(other)) => Ok(osa_distance(alloc, word, other)?),
        _ => Ok(LONGEST),
    }
}

/// The word with the fewest wrong letters, if at most a third of the letters of the longer one is wrong.
///
/// # Errors
///
/// `Memory` if memory runs out.
pub fn nearest<'a>(
    alloc: Global,
    word: &[u8],
    words: &[&'a [u8]],
) -> Result<Option<&'a [u8]>, Memory> {
    let mut best = None;
    let mut least = LONGEST;
    if word.len() > LONGEST {
        return Ok(None);
    }
    for other in words {
        match distance(alloc, word, other) {
            Ok(wrong) if wrong < least && wrong.saturating_mul(3) <= word.len().max(other.len()) =>
                {
                    best = Some(*other);
                    least = wrong;
                }
            Ok(_) => {}
            Err(_) => return Err(Memory),
        }
    }
    Ok(best)
}
