ghost use Rattle.std.specs.Prelude.{◌≡◌, ◌∷◌, map, None, Some, IfSome, option_map};
ghost use Rattle.std.specs.String.{string_bytes};
ghost use Rattle.command_words.specs.GetWords.{is_file_name as name_test};
ghost use Rattle.command_words.specs.Words.{IsCommand, verb_word};
ghost use Rattle.command_words.specs.Fronts.{after_front};
ghost use Rattle.command_words.specs.Numbers.{number_within};
ghost use Rattle.command_words.specs.WordForms.{HasVerb, accepts, has_shape as shape_test, drill_number as number_at, takes_threads as threads_test, takes_mark as mark_test, takes_name as name_fits, most_names as count_of_names, has_all as are_all_names, with_word as next_shape, with_threads as counted_shape, with_joined as joined_shape, with_argument as argument_shape, empty_shape as begun_shape, stdin_once as names_once};

use crate::asked::asked_by;
use itoa::Buffer;

const THREADS: &str = "--threads";

/// What the count of packet threads follows in one word.
const THREADS_FRONT: &str = "--threads=";

pub(crate) const KEEP_GOING: &str = "--keep-going";

/// The name of the standard input.
const STDIN: &str = "-";

/// The most packet threads.
pub const MOST_THREADS: u64 = 16;

/// The most elements of a drill.
pub const MOST_ELEMENTS: u64 = 20_000;

/// What a command does.
#[derive(Clone, Copy, Debug, PartialEq, Eq)]
pub enum Verb {
    /// It runs a script beside a key file.
    Run,
    /// It lists the last generation of a script.
    List,
    /// It shows the tables of a script's last generation.
    Dump,
    /// It runs a generated script beside generated packets.
    Drill,
    /// It runs a script beside packets that a rules file judges: those of a key file, or those that a plan
    /// takes from a capture.
    Judge,
    /// It runs a script beside the packets that a plan takes from a capture.
    Capture,
    /// It runs a script by several control threads.
    Desk,
    /// It looks a key up in the last generation of a script.
    Get,
    /// It compares two scripts at their last generations.
    Compare,
    /// It explains the answers to the packets of a key file.
    Explain,
    /// It counts what a script's last generation has.
    Stat,
    /// It writes the sets of a ruleset as a script.
    Sets,
}

/// The shape of the words after a command's word, so far.
#[derive(Clone, Copy)]
struct Shape {
    names: usize,
    threads: bool,
    keep_going: bool,
    /// Whether the next word is the number of packet threads.
    waiting: bool,
}

/// Whether a word is a name: it isn't empty and doesn't begin with a dash. The exception is `-` itself,
/// the standard input.
pub(crate) fn is_name(word: &str) -> bool
    ensures { result ≡ name_test word.now }
{
    match word.as_bytes() {
        [] => false,
        [_] => true,
        [first, ..] => *first != b'-',
    }
}

/// The number that a word is, in plain digits without a sign or a leading zero, if it is within bounds.
pub fn number_of(word: &str, low: u64, high: u64) -> Option<u64>
    ensures { result ≡ number_within low high word.now }
{
    let n = match word.parse::<u64>() {
        Ok(n) => n,
        Err(_) => return None,
    };
    let mut buffer = Buffer::new();
    if low <= n && n <= high && buffer.format(n) == word {
        Some(n)
    } else {
        None
    }
}

/// What comes after a front, if the word begins with it.
pub(crate) fn behind<'a>(word: &'a str, front: &str) -> Option<&'a str>
    ensures { option_map (λ s. s.now) result ≡ after_front front.now word.now }
{
    word.strip_prefix(front)
}

/// The number at a place of a drill: first the seed, and then the number of elements.
fn drill_number(place: usize, word: &str) -> Option<u64>
    ensures { result ≡ number_at place word.now }
{
    if place == 0 {
        number_of(word, 0, u64::MAX)
    } else {
        number_of(word, 1, MOST_ELEMENTS)
    }
}

impl Verb {
    /// The verb of a command's first word.
    pub fn of_word(word: &str) -> Option<Verb>
        ensures found { IfSome result (λ verb. word.now ≡ verb_word verb) }
        ensures none { (verb : _) → word.now ≡ verb_word verb → result ≡ Some verb }
    {
        match word {
            "run" => Some(Verb::Run),
            "list" => Some(Verb::List),
            "dump" => Some(Verb::Dump),
            "stat" => Some(Verb::Stat),
            "drill" => Some(Verb::Drill),
            "judge" => Some(Verb::Judge),
            "capture" => Some(Verb::Capture),
            "desk" => Some(Verb::Desk),
            "get" => Some(Verb::Get),
            "compare" => Some(Verb::Compare),
            "explain" => Some(Verb::Explain),
            "sets" => Some(Verb::Sets),
            _ => None,
        }
    }

    /// The most names that follow the command's word.
    fn most_names(self) -> usize
        ensures { result ≡ count_of_names self }
    {
        match self {
            Verb::List | Verb::Dump | Verb::Stat | Verb::Desk | Verb::Get | Verb::Sets => 1,
            Verb::Run | Verb::Drill | Verb::Compare | Verb::Explain => 2,
            Verb::Capture => 3,
            Verb::Judge => 4,
        }
    }

    /// Whether so many names are all of a command's. A `judge` has a key file, or a plan and a capture.
    fn has_all(self, names: usize) -> bool
        ensures { result ≡ are_all_names self names }
    {
        match self {
            Verb::Judge => names == 3 || names == 4,
            Verb::Run
            | Verb::List
            | Verb::Dump
            | Verb::Stat
            | Verb::Drill
            | Verb::Capture
            | Verb::Desk
            | Verb::Get
            | Verb::Compare
            | Verb::Explain
            | Verb::Sets => names == self.most_names(),
        }
    }

    fn takes_threads(self) -> bool
        ensures { result ≡ threads_test self }
    {
        match self {
            Verb::Run | Verb::Drill | Verb::Judge | Verb::Capture => true,
            Verb::List
            | Verb::Dump
            | Verb::Stat
            | Verb::Desk
            | Verb::Get
            | Verb::Compare
            | Verb::Explain
            | Verb::Sets => false,
        }
    }

    fn takes_mark(self) -> bool
        ensures { result ≡ mark_test self }
    {
        match self {
            Verb::Drill | Verb::Get | Verb::Sets => false,
            _ => true,
        }
    }

    /// Whether a word may be the name at a place.
    fn takes_name(self, place: usize, word: &str) -> bool
        ensures { result ≡ name_fits self place word.now }
    {
        place < self.most_names()
            && match self {
                Verb::Drill => drill_number(place, word).is_some(),
                Verb::Get => false,
                _ => is_name(word),
            }
    }
}

impl Shape {
    fn begun() -> Shape
        ensures { result ≡ begun_shape }
    {
        Shape {
            names: 0,
            threads: false,
            keep_going: false,
            waiting: false,
        }
    }

    /// The shape after the word that follows `--threads`.
    fn with_threads(self, word: &str) -> Option<Shape>
        ensures { result ≡ counted_shape self word.now }
    {
        let counted = Shape {
            waiting: false,
            ..self
        };
        number_of(word, 1, MOST_THREADS)
            .is_some()
            .then_some(counted)
    }

    /// The shape after a word that begins with `--threads=`, whose number this is, or after a name.
    fn with_joined(self, verb: Verb, word: &str, count: Option<&str>) -> Option<Shape>
        ensures { result ≡ joined_shape verb self word.now (option_map (λ s. s.now) count.entry) }
    {
        let with_threads = Shape {
            threads: true,
            ..self
        };
        match count {
            Some(count) => (verb.takes_threads()
                && !self.threads
                && number_of(count, 1, MOST_THREADS).is_some()).then_some(with_threads),
            None if verb.takes_name(self.names, word) => Some(Shape {
                names: self.names + 1,
                ..self
            }),
            None => None,
        }
    }

    /// The shape after a word that is a name or an option.
    fn with_argument(self, verb: Verb, word: &str) -> Option<Shape>
        ensures { result ≡ argument_shape verb self word.now }
    {
        if word == THREADS {
            let with_threads = Shape {
                threads: true,
                waiting: true,
                ..self
            };
            (verb.takes_threads() && !self.threads).then_some(with_threads)
        } else if word == KEEP_GOING {
            let with_mark = Shape {
                keep_going: true,
                ..self
            };
            (verb.takes_mark() && !self.keep_going).then_some(with_mark)
        } else {
            self.with_joined(verb, word, behind(word, THREADS_FRONT))
        }
    }

    /// The shape after one more word; `None` if the words then aren't a command's.
    fn with_word(self, verb: Verb, word: &str) -> Option<Shape>
        ensures { result ≡ next_shape verb self word.now }
    {
        if self.waiting {
            self.with_threads(word)
        } else {
            self.with_argument(verb, word)
        }
    }
}

/// Whether these words have a shape that may follow the command's word.
fn has_shape(verb: Verb, words: &[String]) -> bool
    ensures { result ≡ shape_test verb (map string_bytes words.now) }
{
    let mut shape = Shape::begun();
    'words: for word in words {
        match shape.with_word(verb, word.as_str()) {
            Some(next) => shape = next,
            None => return false,
        }
    }
    !shape.waiting && verb.has_all(shape.names)
}

/// Whether words name the standard input at most once.
fn names_stdin_once(words: &[String]) -> bool
    ensures { result ≡ names_once (map string_bytes words.now) }
{
    words.iter().filter(|word| word.as_str() == STDIN).count() <= 1
}

/// Whether these words may follow the command's word.
fn fit_behind(verb: Verb, words: &[String]) -> bool
    ensures { result ≡ accepts verb (map string_bytes words.now) }
{
    match verb {
        Verb::Get => asked_by(words).is_some(),
        _ => has_shape(verb, words) && names_stdin_once(words),
    }
}

/// What the command of a first word and the words after it does, or `None` if they are no command.
fn verb_before(first: &str, rest: &[String]) -> Option<Verb>
    ensures found { IfSome result (HasVerb (first.now ∷ map string_bytes rest.now)) }
    ensures none { result ≡ None → (c : _) → IsCommand (first.now ∷ map string_bytes rest.now) c → ⊥ }
{
    match Verb::of_word(first) {
        Some(verb) if fit_behind(verb, rest) => Some(verb),
        _ => None,
    }
}

/// What the command of these words does, or `None` if they are no command. It takes no memory.
pub fn verb_of(words: &[String]) -> Option<Verb>
    ensures found { IfSome result (HasVerb (map string_bytes words.now)) }
    ensures none { result ≡ None → (c : _) → IsCommand (map string_bytes words.now) c → ⊥ }
{
    match words.split_first() {
        None => None,
        Some((first, rest)) => verb_before(first.as_str(), rest),
    }
}
