//! Finds the first word that doesn't fit, or what is missing.
use crate::form::{OPTIONS, has_value, long_option, takes};
use crate::habits::{
    EarlyOption, FileOption, command_among, file_option, is_family, is_noun, is_program,
    is_statement, synonym,
};
use crate::seen::{Seen, asks_for_page, split};
use command_words::{LAST_MOMENT, MOST_ELEMENTS, MOST_THREADS, Verb, number_of};

/// What a number among the words is.
#[derive(Clone, Copy, Debug, PartialEq, Eq)]
pub(crate) enum NumberOf {
    /// The packet threads, after `--threads`.
    Threads,
    /// The moment of a `get`, after `--at`.
    Moment,
    /// The seed of a drill.
    Seed,
    /// The elements of a drill.
    Count,
}

impl NumberOf {
    /// The least and the greatest number.
    pub(crate) fn bounds(self) -> (u64, u64) {
        match self {
            NumberOf::Threads => (1, MOST_THREADS),
            NumberOf::Moment => (0, LAST_MOMENT),
            NumberOf::Seed => (0, u64::MAX),
            NumberOf::Count => (1, MOST_ELEMENTS),
        }
    }

    /// Whether a word is such a number.
    pub(crate) fn is_written(self, word: &str) -> bool {
        let (low, high) = self.bounds();
        number_of(word, low, high).is_some()
    }
}

/// What is wrong with words that are no command.
#[derive(Clone, Copy)]
pub(crate) enum WordFault<'a> {
    /// There are no words.
    NoWords,
    /// This word is at the place of a command, and isn't one.
    NotACommand(&'a str),
    /// This word at the place of a command begins a statement of a script.
    Statement(&'a str),
    /// This word at the place of a command is a program that has the kernel's sets.
    Program(&'a str),
    /// This word at the place of a command is another program's, and this command does the same.
    Synonym(&'a str, Verb),
    /// These words at the place of a command are a set's names, and maybe a key.
    SetFirst(&'a [String]),
    /// The word at the place of a command is this program's name.
    Twofold,
    /// This word asks for help, and a command comes after it.
    HelpFirst(&'a str, &'a str),
    /// A script's file is given by an option in place of a command.
    FileFirst(FileOption<'a>),
    /// The first word begins with a dash, and isn't an option.
    OptionFirst(&'a str),
    /// An option comes before the command.
    Early(EarlyOption<'a>),
    /// This word asks for a page, and comes with others.
    NotAlone(&'a str),
    /// This word after `help` is `help` again, or asks for a page.
    NoPage(&'a str),
    /// More than one word comes after `help`: the second one.
    TooMuchHelp(&'a str),
    /// A word with a dash is no option of the command.
    NotAnOption(Verb, &'a str),
    /// An option of `get` comes after the script.
    LateOption(&'a str),
    /// An option is given twice.
    Twice(&'a str),
    /// An option takes no value, and has one after `=`.
    NoValue(&'a str),
    /// The number after an option is missing.
    NoNumber(NumberOf),
    /// A word isn't a number, or not within its bounds.
    BadNumber(NumberOf, &'a str),
    /// A word has no bytes.
    Empty,
    /// The standard input is named twice.
    StdinTwice,
    /// A word comes after the last name.
    TooMany(Verb, &'a str),
    /// This word after the word of a command is one of nft's, and further words come after it.
    NftNoun(&'a str, &'a str),
    /// One word is too many, and these words after the word of a command are those of a `get`.
    KeyWords(&'a str, &'a [String]),
    /// The command has only so many of its names.
    Missing(Verb, usize),
    /// No other row applies.
    Other,
}

/// What is wrong with the words after `help`.
fn fault_of_help(rest: &[String]) -> WordFault<'_> {
    match rest {
        [word, ..] if word.as_str() == "help" || asks_for_page(word.as_str()) => {
            WordFault::NoPage(word.as_str())
        }
        [word, ..] if Verb::of_word(word.as_str()).is_none() => {
            WordFault::NotACommand(word.as_str())
        }
        [_, word, ..] => WordFault::TooMuchHelp(word.as_str()),
        _ => WordFault::Other,
    }
}

/// The value of an option, and the words after it. The value may be in the next word.
fn value_before<'a>(
    option: &[u8],
    value: Option<&'a str>,
    rest: &'a [String],
) -> (Option<&'a str>, &'a [String]) {
    match rest {
        [next, behind @ ..] if value.is_none() && has_value(option) => {
            (Some(next.as_str()), behind)
        }
        _ => (None, rest),
    }
}

/// What is wrong with words whose first one is an option of a command.
fn fault_of_early<'a>(
    first: &'a str,
    option: &'a str,
    joined: Option<&'a str>,
    rest: &'a [String],
) -> WordFault<'a> {
    let (value, behind) = value_before(option.as_bytes(), joined, rest);
    match command_among(behind) {
        Some((verb, _)) if !takes(verb, option.as_bytes()) => WordFault::NotAnOption(verb, option),
        command => WordFault::Early(EarlyOption {
            word: first,
            option: first.as_bytes(),
            value,
            command,
        }),
    }
}

/// What is wrong with words whose first one begins with a dash.
fn fault_of_option<'a>(first: &'a str, rest: &'a [String]) -> WordFault<'a> {
    let (option, joined) = split(first);
    let is_option = OPTIONS.iter().any(|other| *other == option.as_bytes());
    if is_option {
        return fault_of_early(first, option, joined, rest);
    }
    let Some((verb, command)) = command_among(rest) else {
        return WordFault::OptionFirst(first);
    };
    let Some(long) = long_option(verb, option.as_bytes()) else {
        return WordFault::OptionFirst(first);
    };
    WordFault::Early(EarlyOption {
        word: first,
        option: long,
        value: joined.or(value_before(long, joined, rest).0),
        command: Some((verb, command)),
    })
}

/// What is wrong with words whose first one is no command and asks for no page.
fn fault_at_command<'a>(words: &'a [String], first: &'a str, rest: &'a [String]) -> WordFault<'a> {
    if is_statement(first) {
        return WordFault::Statement(first);
    }
    if is_program(first) {
        return WordFault::Program(first);
    }
    if is_family(first) {
        return WordFault::SetFirst(words);
    }
    if first == "pipapo" {
        return WordFault::Twofold;
    }
    if first != "-" && first.starts_with('-') {
        return fault_of_option(first, rest);
    }
    match synonym(first) {
        Some(verb) => WordFault::Synonym(first, verb),
        None => WordFault::NotACommand(first),
    }
}

/// What is wrong with words whose first one asks for a page, and isn't alone.
fn fault_of_page<'a>(first: &'a str, rest: &'a [String]) -> WordFault<'a> {
    match (first, rest) {
        ("--help" | "-h", [word]) if Verb::of_word(word.as_str()).is_some() => {
            WordFault::HelpFirst(first, word.as_str())
        }
        _ => WordFault::NotAlone(first),
    }
}

/// What is wrong with words whose first one is no command.
fn fault_of_first<'a>(words: &'a [String], first: &'a str, rest: &'a [String]) -> WordFault<'a> {
    if first == "help" {
        return fault_of_help(rest);
    }
    if asks_for_page(first) {
        return fault_of_page(first, rest);
    }
    match file_option(words) {
        Some(option) if first == "nft" || first.starts_with('-') => WordFault::FileFirst(option),
        _ => fault_at_command(words, first, rest),
    }
}

/// What is wrong with the first word that doesn't fit after a command's word, or what is missing.
fn fault_among(verb: Verb, rest: &[String]) -> WordFault<'_> {
    let mut seen = Seen::new(verb);
    for word in rest {
        match seen.after(word.as_str()) {
            Ok(next) => seen = next,
            Err(fault) => return fault,
        }
    }
    seen.missing().unwrap_or(WordFault::Other)
}

/// What is wrong with the words after a command's word.
fn fault_behind<'a>(verb: Verb, command: &'a str, rest: &'a [String]) -> WordFault<'a> {
    match (fault_among(verb, rest), rest) {
        (WordFault::TooMany(_, _), [noun, ..]) if is_noun(noun.as_str()) => {
            WordFault::NftNoun(command, noun.as_str())
        }
        (WordFault::TooMany(_, word), [_, family, ..]) if is_family(family.as_str()) => {
            WordFault::KeyWords(word, rest)
        }
        (fault, _) => fault,
    }
}

/// What is wrong with words that are no command.
pub(crate) fn fault_of(words: &[String]) -> WordFault<'_> {
    match words.split_first() {
        None => WordFault::NoWords,
        Some((first, rest)) => match Verb::of_word(first.as_str()) {
            Some(verb) => fault_behind(verb, first.as_str(), rest),
            None => fault_of_first(words, first.as_str(), rest),
        },
    }
}
