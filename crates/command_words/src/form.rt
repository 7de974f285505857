//! The options that say in which form a command's scripts are given, and in which form its answer is written.
ghost use Rattle.std.specs.Prelude.{◌≡◌, ◌<◌, bytes_eq, map, length, IfSome};
ghost use Rattle.std.specs.String.{string_bytes};
ghost use Rattle.command_words.specs.FormOptions as forms;

/// An option of a form. It may follow the command's word anywhere.
#[derive(Clone, Copy, Debug, PartialEq, Eq)]
pub enum FormOption {
    /// `--sets`: each script of the command is a ruleset.
    Sets,
    /// `--elements`: the line of a packet has the element that was found.
    Elements,
    /// `--json`: the answer is JSON.
    Json,
}

/// In which form the scripts of a command are given.
#[derive(Clone, Copy, Debug, PartialEq, Eq)]
pub enum ScriptForm {
    /// Each is a script.
    Script,
    /// Each is a ruleset. What is kept of it is the script.
    Ruleset,
}

/// In which form the answer of a command is written.
#[derive(Clone, Copy, Debug, PartialEq, Eq)]
pub struct AnswerForm {
    /// Whether the line of a packet has the element that was found, and the line of the script that added it.
    pub has_elements: bool,
    /// Whether the answer is JSON.
    pub is_json: bool,
}

/// The forms that the words of a command ask for.
#[derive(Clone, Copy, Debug, PartialEq, Eq)]
pub struct Forms {
    /// That of its scripts.
    pub scripts: ScriptForm,
    /// That of its answer.
    pub answer: AnswerForm,
}

/// Whether a first word asks for a page.
fn is_page_word(word: &str) -> bool
    ensures { result ≡ forms.is_page_word word.now }
{
    word == "help" || word == "--help" || word == "-h" || word == "--version" || word == "-V"
}

/// Whether a command with this word has scripts. A word that is no command's is refused in any case.
fn has_scripts(word: &str) -> bool
    ensures { result ≡ forms.has_scripts word.now }
{
    !(word == "drill" || word == "sets" || is_page_word(word))
}

/// Whether a command with this word prints a line for each packet that it looks up.
fn has_lookups(word: &str) -> bool
    ensures { result ≡ forms.has_lookups word.now }
{
    word == "run" || word == "capture"
}

/// Whether a command with this word can write its answer as JSON.
fn has_json(word: &str) -> bool
    ensures { result ≡ forms.has_json word.now }
{
    word == "list"
}

impl FormOption {
    /// Whether a word is the option.
    fn is_word(self, word: &str) -> bool
        ensures { result ≡ bytes_eq word.now (forms.option_word self) }
    {
        match self {
            FormOption::Sets => word == "--sets",
            FormOption::Elements => word == "--elements",
            FormOption::Json => word == "--json",
        }
    }

    /// Whether a command with this word takes the option.
    fn is_taken_by(self, word: &str) -> bool
        ensures { result ≡ forms.takes self word.now }
    {
        match self {
            FormOption::Sets => has_scripts(word),
            FormOption::Elements => has_lookups(word),
            FormOption::Json => has_json(word),
        }
    }
}

/// Whether the word after this one is its value.
fn has_value(word: &str) -> bool
    ensures { result ≡ forms.has_value word.now }
{
    word == "--threads" || word == "--at"
}

/// The place of an option among words, of which the first may be the value of the word before it.
fn place_among(option: FormOption, is_value: bool, words: &[String]) -> Option<usize>
    ensures place { result ≡ forms.place_among option is_value (map string_bytes words.now) }
    ensures within { IfSome result (λ n. n < length words.now) }
{
    match words.split_first() {
        None => None,
        Some((word, _)) if !is_value && option.is_word(word.as_str()) => Some(0),
        Some((word, rest)) => {
            match place_among(option, !is_value && has_value(word.as_str()), rest) {
                Some(place) => Some(place + 1),
                None => None,
            }
        }
    }
}

/// The place of an option in the words of a command that takes it.
fn place_of(option: FormOption, words: &[String]) -> Option<usize>
    ensures place { result ≡ forms.option_place option (map string_bytes words.now) }
    ensures within { IfSome result (λ n. n < length words.now) }
{
    match words.split_first() {
        Some((first, rest)) if option.is_taken_by(first.as_str()) => {
            match place_among(option, false, rest) {
                Some(place) => Some(place + 1),
                None => None,
            }
        }
        _ => None,
    }
}

/// Takes an option out of words. Returns whether they had it.
fn take_option(option: FormOption, words: &mut Vec<String>) -> bool
    ensures had { result ≡ forms.has_option option (map string_bytes words.old.items) }
    ensures words { map string_bytes words.new.items ≡ forms.without_option option (map string_bytes words.old.items) }
{
    match place_of(option, words.as_slice()) {
        Some(place) => {
            let _ = words.remove(place);
            true
        }
        None => false,
    }
}

/// The form of scripts, with or without the option `--sets`.
fn form_by(has_rulesets: bool) -> ScriptForm
    ensures { result ≡ forms.form_by has_rulesets }
{
    if has_rulesets {
        ScriptForm::Ruleset
    } else {
        ScriptForm::Script
    }
}

/// Takes the options `--sets`, `--elements` and `--json` out of words, if they have them, and returns the forms of the
/// command's scripts and of its answer. It takes no memory.
pub fn take_forms(words: &mut Vec<String>) -> Forms
    ensures forms { result ≡ forms.forms_of (map string_bytes words.old.items) }
    ensures words { map string_bytes words.new.items ≡ forms.without_options (map string_bytes words.old.items) }
{
    let has_rulesets = take_option(FormOption::Sets, words);
    let has_elements = take_option(FormOption::Elements, words);
    let is_json = take_option(FormOption::Json, words);
    Forms {
        scripts: form_by(has_rulesets),
        answer: AnswerForm {
            has_elements,
            is_json,
        },
    }
}
