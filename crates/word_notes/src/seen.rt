//! What was seen of a command's words so far.
use crate::fault::{NumberOf, WordFault};
use crate::form::{is_of_form, may_name, name_at, takes};
use command_words::Verb;

/// What was seen after a command's word.
#[derive(Clone, Copy)]
pub(crate) struct Seen {
    pub(crate) verb: Verb,
    /// How many names there were.
    names: usize,
    /// Whether one of them was the standard input.
    has_stdin: bool,
    /// Whether `--threads` or `--at` was there.
    has_number: bool,
    /// Whether `--keep-going` was there.
    has_mark: bool,
    /// What the next word counts, if the last one was `--threads` or `--at`.
    waits_for: Option<NumberOf>,
}

/// An option, and what follows its `=`.
pub(crate) fn split(word: &str) -> (&str, Option<&str>) {
    match word.split_once('=') {
        Some((option, value)) => (option, Some(value)),
        None => (word, None),
    }
}

/// What the number after an option counts.
pub(crate) fn counted_by(option: &str) -> Option<NumberOf> {
    match option {
        "--threads" => Some(NumberOf::Threads),
        "--at" => Some(NumberOf::Moment),
        _ => None,
    }
}

/// Whether an option is a word for help or for the version.
pub(crate) fn asks_for_page(option: &str) -> bool {
    matches!(option, "--help" | "-h" | "--version" | "-V")
}

impl Seen {
    /// Nothing was seen after the word of this command.
    pub(crate) fn new(verb: Verb) -> Seen {
        Seen {
            verb,
            names: 0,
            has_stdin: false,
            has_number: false,
            has_mark: false,
            waits_for: None,
        }
    }

    /// After a number.
    fn with_number<'a>(self, number: NumberOf, word: &'a str) -> Result<Seen, WordFault<'a>> {
        if number.is_written(word) {
            return Ok(Seen {
                has_number: true,
                waits_for: None,
                ..self
            });
        }
        Err(WordFault::BadNumber(number, word))
    }

    /// After an option that the command takes. The first option of each form was taken out of the words.
    fn with_taken<'a>(
        self,
        option: &'a str,
        value: Option<&'a str>,
    ) -> Result<Seen, WordFault<'a>> {
        let is_again = match counted_by(option) {
            Some(_) => self.has_number,
            None if is_of_form(option) => value.is_none(),
            None => self.has_mark,
        };
        if is_again {
            return Err(WordFault::Twice(option));
        }
        match (counted_by(option), value) {
            (Some(number), Some(value)) => self.with_number(number, value),
            (Some(number), None) => Ok(Seen {
                waits_for: Some(number),
                ..self
            }),
            (None, Some(_)) => Err(WordFault::NoValue(option)),
            (None, None) => Ok(Seen {
                has_mark: true,
                ..self
            }),
        }
    }

    /// After a word that begins with a dash.
    fn with_option<'a>(self, word: &'a str) -> Result<Seen, WordFault<'a>> {
        let (option, value) = split(word);
        if asks_for_page(option) {
            return Err(WordFault::NotAlone(option));
        }
        if !takes(self.verb, option.as_bytes()) {
            return Err(WordFault::NotAnOption(self.verb, option));
        }
        if self.verb == Verb::Get && self.names > 0 {
            return Err(WordFault::LateOption(option));
        }
        self.with_taken(option, value)
    }

    /// After a name.
    fn with_name<'a>(self, word: &'a str) -> Result<Seen, WordFault<'a>> {
        let is_stdin = word == "-" && (self.verb != Verb::Get || self.names == 0);
        let more = Seen {
            names: self.names.saturating_add(1),
            has_stdin: self.has_stdin || is_stdin,
            ..self
        };
        if self.verb == Verb::Get {
            return Ok(more);
        }
        match name_at(self.verb, self.names) {
            None if !may_name(self.verb, self.names) => Err(WordFault::TooMany(self.verb, word)),
            Some(b"SEED") if !NumberOf::Seed.is_written(word) => {
                Err(WordFault::BadNumber(NumberOf::Seed, word))
            }
            Some(b"COUNT") if !NumberOf::Count.is_written(word) => {
                Err(WordFault::BadNumber(NumberOf::Count, word))
            }
            _ if is_stdin && self.has_stdin => Err(WordFault::StdinTwice),
            _ => Ok(more),
        }
    }

    /// After one more word, or what is wrong with it.
    pub(crate) fn after<'a>(self, word: &'a str) -> Result<Seen, WordFault<'a>> {
        if let Some(number) = self.waits_for {
            return self.with_number(number, word);
        }
        if word.is_empty() {
            return Err(WordFault::Empty);
        }
        if word != "-" && word.starts_with('-') {
            return self.with_option(word);
        }
        self.with_name(word)
    }

    /// What is missing after the last word, if something is.
    pub(crate) fn missing<'a>(self) -> Option<WordFault<'a>> {
        match self.waits_for {
            Some(number) => Some(WordFault::NoNumber(number)),
            None if name_at(self.verb, self.names).is_some() => {
                Some(WordFault::Missing(self.verb, self.names))
            }
            None => None,
        }
    }
}
