ghost use Rattle.std.specs.Prelude.{◌≡◌, ◌∷◌, [], List, map, None, IfSome};
ghost use Rattle.std.specs.String.{string_bytes};
ghost use Rattle.command_words.specs.Words.{AsksFor};
ghost use Rattle.command_words.specs.Pages.{SaysBounds};
ghost use Rattle.command_words.specs.WordForms.{page_text};

use crate::help::{
    CAPTURE, COMPARE, DESK, DRILL, DUMP, EXPLAIN, GET, JUDGE, LIST, PROGRAM, RUN, SETS, STAT,
    VERSION,
};
use crate::shape::Verb;

/// A text that the program prints about itself.
#[derive(Clone, Copy, Debug, PartialEq, Eq)]
pub enum Page {
    /// Help on the program.
    Program,
    /// Help on a command.
    Command(Verb),
    /// The program's name and version.
    Version,
}

impl Page {
    /// The text, whole lines of ASCII. It says the bounds of each number that its command takes.
    #[tactic(auto, using(crate::proofs::PageBounds::page_bounds))]
    pub fn text(self) -> &'static str
        ensures text { result.now ≡ page_text self }
        ensures bounds { SaysBounds self result.now }
    {
        match self {
            Page::Program => PROGRAM,
            Page::Command(Verb::Run) => RUN,
            Page::Command(Verb::List) => LIST,
            Page::Command(Verb::Dump) => DUMP,
            Page::Command(Verb::Stat) => STAT,
            Page::Command(Verb::Drill) => DRILL,
            Page::Command(Verb::Judge) => JUDGE,
            Page::Command(Verb::Capture) => CAPTURE,
            Page::Command(Verb::Desk) => DESK,
            Page::Command(Verb::Get) => GET,
            Page::Command(Verb::Compare) => COMPARE,
            Page::Command(Verb::Explain) => EXPLAIN,
            Page::Command(Verb::Sets) => SETS,
            Page::Version => VERSION,
        }
    }
}

/// The page that one word asks for.
fn page_alone(word: &str) -> Option<Page>
    ensures found { IfSome result (AsksFor (word.now ∷ [])) }
    ensures none { result ≡ None → (page : _) → AsksFor (word.now ∷ []) page → ⊥ }
{
    match word {
        "help" | "--help" | "-h" => Some(Page::Program),
        "--version" | "-V" => Some(Page::Version),
        _ => None,
    }
}

/// The page on a command that two words ask for.
fn page_on(first: &str, second: &str) -> Option<Page>
    ensures found { IfSome result (AsksFor (first.now ∷ second.now ∷ [])) }
    ensures none { result ≡ None → (page : _) → AsksFor (first.now ∷ second.now ∷ []) page → ⊥ }
{
    if first == "help" {
        Verb::of_word(second).map(Page::Command)
    } else if second == "--help" || second == "-h" {
        Verb::of_word(first).map(Page::Command)
    } else {
        None
    }
}

/// The page that words ask for; `None` if they ask for none.
pub fn page_of(words: &[String]) -> Option<Page>
    ensures found { IfSome result (AsksFor (map string_bytes words.now)) }
    ensures none { result ≡ None → (page : _) → AsksFor (map string_bytes words.now) page → ⊥ }
{
    match words {
        [word] => page_alone(word.as_str()),
        [first, second] => page_on(first.as_str(), second.as_str()),
        _ => None,
    }
}
