ghost use Rattle.std.specs.Prelude.{◌≡◌, Bool, List, ℕ, Option, map, Err, IfOk, IfErr, option_map};
ghost use Rattle.std.specs.String.{string_bytes};
ghost use Rattle.clap.specs.Matches.{found_of};
ghost use Rattle.clap.specs.Values.{kind_of};
ghost use Rattle.clap.specs.declared.error.kind.ErrorKind.TheVariants as kinds;
ghost use Rattle.command_words.specs.Words.{IsCommand, IsNumber, AreThreads, AreWords};
ghost use Rattle.command_words.specs.WordForms.{HasVerb, HasShape, HasFoundValues, HasArguments, ArePlain, plain};
ghost use Rattle.command_words.specs.declared.words.WordsError.TheVariants as errors;
ghost use Rattle.command_words.specs.declared.shape.Verb.TheVariants as verbs;

use crate::asked::asked_by;
use crate::shape::{MOST_ELEMENTS, MOST_THREADS, Verb, number_of, verb_of};
use clap::error::ErrorKind;
use clap::{Arg, ArgAction, ArgMatches, Error};
use std::alloc::{AllocError, Global};

/// What is done with a script.
#[derive(Clone, Copy)]
pub enum Task<'a> {
    /// A run beside the packets of the key file with this name. So many packet threads look the packets
    /// up.
    Run {
        keys: &'a str,
        threads: u32,
    },
    /// A listing of the last generation.
    List,
    /// The tables of the last generation.
    Dump,
    /// The figures of the last generation.
    Stat,
    /// A run beside the packets of a key file, which a rules file judges. Both are given by their
    /// names. So many packet threads look up.
    Judge {
        rules: &'a str,
        keys: &'a str,
        threads: u32,
    },
    /// A run beside the packets that a plan takes from a capture, which a rules file judges. All are
    /// given by their names. So many packet threads look up.
    JudgeCapture {
        rules: &'a str,
        plan: &'a str,
        packets: &'a str,
        threads: u32,
    },
    /// A run beside the packets that a plan takes from a capture. Both are given by their names. So
    /// many packet threads look up.
    Capture {
        plan: &'a str,
        packets: &'a str,
        threads: u32,
    },
    /// A run by several control threads: one for each section after the first.
    Desk,
    /// The answer to a key in the last generation.
    Get {
        /// The words of the key: one line of a key file.
        key: &'a [String],
        /// The moment in milliseconds. Without one it is the script's last.
        moment: Option<u64>,
    },
    /// An explanation of the answers to the packets of the key file with this name.
    Explain {
        keys: &'a str,
    },
}

/// A command.
#[derive(Clone, Copy)]
pub enum Command<'a> {
    /// A task with the script of this name.
    Script {
        script: &'a str,
        task: Task<'a>,
        /// Whether a refused change is skipped instead of failing its transaction.
        keep_going: bool,
    },
    /// A generated run of so many elements and packets. So many packet threads look the packets up.
    Drill {
        seed: u64,
        count: u32,
        threads: u32,
    },
    /// A comparison of the scripts of these names.
    Compare {
        first: &'a str,
        second: &'a str,
        keep_going: bool,
    },
    /// The sets of the ruleset in the file of this name.
    Sets {
        file: &'a str,
    },
}

/// Why words give no command.
#[derive(Clone, Copy, Debug, PartialEq, Eq)]
pub enum WordsError {
    /// The words are no command.
    NoCommand,
    /// Out of memory.
    Memory,
}

impl From<AllocError> for WordsError {
    ghost use Rattle.std.specs.Prelude.{◌≡◌};
    ghost use Rattle.command_words.specs.declared.words.WordsError.TheVariants as errors;

    ghost from_gives = { λ _ error. error ≡ errors.Memory };

    fn from(_: AllocError) -> Self {
        WordsError::Memory
    }
}

/// The values of the words of a command, by their ids.
fn values_of<'a>(alloc: Global, words: &'a [String]) -> Result<ArgMatches<'a>, Error>
    ensures found { IfOk result (λ m. (word : List ℕ) (names : List (List ℕ)) (threads : Option (List ℕ)) (keep_going : Bool) → AreWords (map string_bytes words.now) word names threads keep_going → ArePlain names threads → HasFoundValues (found_of m) names threads keep_going) }
    ensures memory { IfErr result (λ e. (word : List ℕ) (names : List (List ℕ)) (threads : Option (List ℕ)) (keep_going : Bool) → AreWords (map string_bytes words.now) word names threads keep_going → ArePlain names threads → kind_of e ≡ kinds.OutOfMemory) }
{
    let first = Arg::new(alloc, "first");
    let second = Arg::new(alloc, "second");
    let third = Arg::new(alloc, "third");
    let fourth = Arg::new(alloc, "fourth");
    let threads = Arg::new(alloc, "threads").long("threads");
    let keep_going = Arg::new(alloc, "keep-going")
        .long("keep-going")
        .action(ArgAction::SetTrue);
    clap::Command::new(alloc, "pipapo")
        .disable_help_flag(true)
        .arg(first)?
        .arg(second)?
        .arg(third)?
        .arg(fourth)?
        .arg(threads)?
        .arg(keep_going)?
        .try_get_matches_from(words)
}

/// The number that a word is; it is within bounds.
fn written_number(word: &str, low: u64, high: u64) -> u64
    requires { (n : ℕ) × IsNumber low high word.now n }
    ensures { IsNumber low high word.now result }
{
    match number_of(word, low, high) {
        Some(n) => n,
        None => unreachable!(),
    }
}

/// How many packet threads the word after `--threads` says.
fn thread_count(word: Option<&str>) -> u32
    requires { (n : ℕ) × AreThreads (option_map (λ s. s.now) word) n }
    ensures { AreThreads (option_map (λ s. s.now) word.entry) result }
{
    match word {
        None => 1,
        Some(word) => written_number(word, 1, MOST_THREADS) as u32,
    }
}

/// The words after the command's word.
struct Arguments<'a> {
    first: Option<&'a str>,
    second: Option<&'a str>,
    third: Option<&'a str>,
    fourth: Option<&'a str>,
    threads: Option<&'a str>,
    keep_going: bool,
}

/// The words after the command's word, or the error that memory ran out.
fn arguments_of<'a>(alloc: Global, words: &'a [String]) -> Result<Arguments<'a>, AllocError>
    requires { (verb : _) × HasShape verb × HasVerb (map string_bytes words.now) verb }
    ensures { IfOk result (λ a. (word : List ℕ) (names : List (List ℕ)) (threads : Option (List ℕ)) (keep_going : Bool) → AreWords (map string_bytes words.now) word names threads keep_going → ArePlain names threads → HasArguments a names threads keep_going) }
{
    match values_of(alloc, words) {
        Ok(values) => Ok(Arguments {
            first: values.get_str("first"),
            second: values.get_str("second"),
            third: values.get_str("third"),
            fourth: values.get_str("fourth"),
            threads: values.get_str("threads"),
            keep_going: values.get_flag("keep-going"),
        }),
        Err(error) if error.kind() == ErrorKind::OutOfMemory => Err(AllocError),
        Err(_) => unreachable!(),
    }
}

/// The command of words that are one, or the error that memory ran out.
fn command_with<'a>(
    alloc: Global,
    verb: Verb,
    words: &'a [String],
) -> Result<Command<'a>, AllocError>
    requires shape { HasShape verb }
    requires words { HasVerb (map string_bytes words.now) verb }
    ensures { IfOk result (λ c. IsCommand (map string_bytes words.now) (plain c)) }
{
    let Arguments {
        first,
        second,
        third,
        fourth,
        threads,
        keep_going,
    } = arguments_of(alloc, words)?;
    let first = first.unwrap();
    match verb {
        Verb::Run => Ok(Command::Script {
            script: first,
            task: Task::Run {
                keys: second.unwrap(),
                threads: thread_count(threads),
            },
            keep_going,
        }),
        Verb::List => Ok(Command::Script {
            script: first,
            task: Task::List,
            keep_going,
        }),
        Verb::Dump => Ok(Command::Script {
            script: first,
            task: Task::Dump,
            keep_going,
        }),
        Verb::Stat => Ok(Command::Script {
            script: first,
            task: Task::Stat,
            keep_going,
        }),
        Verb::Judge => {
            let rules = second.unwrap();
            let third = third.unwrap();
            let threads = thread_count(threads);
            match fourth {
                None => Ok(Command::Script {
                    script: first,
                    task: Task::Judge {
                        rules,
                        keys: third,
                        threads,
                    },
                    keep_going,
                }),
                Some(packets) => Ok(Command::Script {
                    script: first,
                    task: Task::JudgeCapture {
                        rules,
                        plan: third,
                        packets,
                        threads,
                    },
                    keep_going,
                }),
            }
        }
        Verb::Capture => Ok(Command::Script {
            script: first,
            task: Task::Capture {
                plan: second.unwrap(),
                packets: third.unwrap(),
                threads: thread_count(threads),
            },
            keep_going,
        }),
        Verb::Desk => Ok(Command::Script {
            script: first,
            task: Task::Desk,
            keep_going,
        }),
        Verb::Get => unreachable!(),
        Verb::Compare => Ok(Command::Compare {
            first,
            second: second.unwrap(),
            keep_going,
        }),
        Verb::Explain => Ok(Command::Script {
            script: first,
            task: Task::Explain {
                keys: second.unwrap(),
            },
            keep_going,
        }),
        Verb::Sets => Ok(Command::Sets { file: first }),
        Verb::Drill => Ok(Command::Drill {
            seed: written_number(first, 0, u64::MAX),
            count: written_number(second.unwrap(), 1, MOST_ELEMENTS) as u32,
            threads: thread_count(threads),
        }),
    }
}

/// The command of the words of a `get`.
fn get_command(words: &[String]) -> Command<'_>
    requires { HasVerb (map string_bytes words.now) verbs.Get }
    ensures { IsCommand (map string_bytes words.now) (plain result) }
{
    match words.split_first() {
        Some((_, rest)) => match asked_by(rest) {
            Some(asked) => Command::Script {
                script: asked.script,
                task: Task::Get {
                    key: asked.key,
                    moment: asked.moment,
                },
                keep_going: asked.keep_going,
            },
            None => unreachable!(),
        },
        None => unreachable!(),
    }
}

/// The command of the words after the program's name, without the option `--sets`.
///
/// # Errors
///
/// `NoCommand` if they are none, which takes no memory. `Memory` if memory runs out.
pub fn command_of<'a>(alloc: Global, words: &'a [String]) -> Result<Command<'a>, WordsError>
    ensures found { IfOk result (λ c. IsCommand (map string_bytes words.now) (plain c)) }
    ensures none { result ≡ Err errors.NoCommand → (c : _) → IsCommand (map string_bytes words.now) c → ⊥ }
    ensures memory { result ≡ Err errors.Memory → (verb : _) × HasVerb (map string_bytes words.now) verb }
{
    match verb_of(words) {
        Some(Verb::Get) => Ok(get_command(words)),
        Some(verb) => Ok(command_with(alloc, verb, words)?),
        None => Err(WordsError::NoCommand),
    }
}
