//! The words of `get`: its options, and then a script and the words of a key.
ghost use Rattle.std.specs.Prelude.{◌≡◌, map, option_map};
ghost use Rattle.std.specs.List.{list_all};
ghost use Rattle.std.specs.String.{string_bytes};
ghost use Rattle.command_words.specs.GetWords as forms;
ghost use Rattle.command_words.specs.GetAsked.{plain_asked};

use crate::shape::{KEEP_GOING, behind, is_name, number_of};

const AT: &str = "--at";

/// What the moment follows in one word.
const AT_FRONT: &str = "--at=";

/// The latest moment, in milliseconds.
pub const LAST_MOMENT: u64 = 1_000_000_000_000_000;

/// What a `get` asks.
#[derive(Clone, Copy)]
pub struct Asked<'a> {
    /// The name of the script.
    pub script: &'a str,
    /// The words of the key.
    pub key: &'a [String],
    /// The moment in milliseconds, if one is given.
    pub moment: Option<u64>,
    /// Whether a refused change is skipped instead of failing its transaction.
    pub keep_going: bool,
}

/// Whether the mark comes first, and the words after it.
fn after_mark(words: &[String]) -> (bool, &[String])
    ensures { (result.0, map string_bytes result.1.now) ≡ forms.after_mark (map string_bytes words.now) }
{
    match words {
        [word, rest @ ..] if word.as_str() == KEEP_GOING => (true, rest),
        _ => (false, words),
    }
}

/// The moment that a word is, and the words after it.
fn moment_before<'a>(word: &str, rest: &'a [String]) -> Option<(Option<u64>, &'a [String])>
    ensures { option_map (λ f. (f.0, map string_bytes f.1.now)) result ≡ forms.moment_before word.now (map string_bytes rest.now) }
{
    match number_of(word, 0, LAST_MOMENT) {
        Some(moment) => Some((Some(moment), rest)),
        None => None,
    }
}

/// The moment that follows `--at=` in the first word, if there is one, and the words after it.
fn after_joined<'a>(
    number: Option<&str>,
    words: &'a [String],
    rest: &'a [String],
) -> Option<(Option<u64>, &'a [String])>
    ensures { option_map (λ f. (f.0, map string_bytes f.1.now)) result ≡ forms.after_joined (option_map (λ s. s.now) number.entry) (map string_bytes words.now) (map string_bytes rest.now) }
{
    match number {
        Some(number) => moment_before(number, rest),
        None => Some((None, words)),
    }
}

/// The moment if one comes first, and the words after it; `None` if `--at` has no moment.
fn after_at(words: &[String]) -> Option<(Option<u64>, &[String])>
    ensures { option_map (λ f. (f.0, map string_bytes f.1.now)) result ≡ forms.after_at (map string_bytes words.now) }
{
    match words {
        [at, number, rest @ ..] if at.as_str() == AT => moment_before(number.as_str(), rest),
        [at] if at.as_str() == AT => None,
        [first, rest @ ..] => after_joined(behind(first.as_str(), AT_FRONT), words, rest),
        [] => Some((None, words)),
    }
}

/// Whether each word is a name.
fn is_each_name(words: &[String]) -> bool
    ensures { result ≡ list_all (λ w. forms.is_file_name (string_bytes w)) words.now }
{
    words.iter().all(|word| is_name(word.as_str()))
}

/// Whether each word is a name, of the words' bytes.
fn are_names(words: &[String]) -> bool
    ensures { result ≡ list_all forms.is_file_name (map string_bytes words.now) }
{
    is_each_name(words)
}

/// The question of a script and a key.
fn question<'a>(
    keep_going: bool,
    moment: Option<u64>,
    script: &'a str,
    key: &'a [String],
) -> Option<Asked<'a>>
    ensures { option_map plain_asked result ≡ forms.question keep_going moment script.now (map string_bytes key.now) }
{
    match key.split_first() {
        None => None,
        Some(_) => {
            let asked = Asked {
                script,
                key,
                moment,
                keep_going,
            };
            (is_name(script) && are_names(key)).then_some(asked)
        }
    }
}

/// The question of words that begin with the script.
fn named(keep_going: bool, moment: Option<u64>, words: &[String]) -> Option<Asked<'_>>
    ensures { option_map plain_asked result ≡ forms.named keep_going moment (map string_bytes words.now) }
{
    match words.split_first() {
        None => None,
        Some((script, key)) => question(keep_going, moment, script.as_str(), key),
    }
}

/// What the words after `get` ask, if they ask something. It takes no memory.
pub fn asked_by(words: &[String]) -> Option<Asked<'_>>
    ensures { option_map plain_asked result ≡ forms.asked (map string_bytes words.now) }
{
    let (first, rest) = after_mark(words);
    let (moment, rest) = match after_at(rest) {
        Some(found) => found,
        None => return None,
    };
    if first {
        return named(true, moment, rest);
    }
    let (second, rest) = after_mark(rest);
    named(second, moment, rest)
}
