//! Says what is wrong with words, and what to do.
use crate::fault::{NumberOf, WordFault};
use crate::form::{MOST_NAMES, OPTIONS, form_of, long_option, name_at, takes};
use crate::habits::{EarlyOption, FileOption, is_name_option};
use command_words::Verb;
use set_model::Memory;
use text_pieces::Piece;
use token_notes::Explained;

/// The words at the place of a command.
const COMMANDS: [&[u8]; 13] = [
    b"get", b"explain", b"compare", b"stat", b"run", b"judge", b"capture", b"desk", b"drill",
    b"list", b"dump", b"sets", b"help",
];

const COMMANDS_ARE: &[u8] =
    b"the commands are get, explain, compare, stat, run, judge, capture, desk, drill, list, dump, sets and help";

/// How the kernel's sets come into a file, and what lists them.
pub(crate) const FROM_NFT: &[u8] =
    b"write the kernel's sets into a file, and list that: nft list ruleset > rules.nft; pipapo list --sets rules.nft";

/// How the sets of ipset come into a file, and what lists them. `nft list ruleset` hasn't these sets.
const FROM_IPSET: &[u8] =
    b"to list the sets of ipset, run: ipset save | ipset-translate restore > sets.nft; pipapo list sets.nft";

/// How the sets of another program come into a file.
fn from_program(word: &str) -> &'static [u8] {
    if word == "ipset" {
        FROM_IPSET
    } else {
        FROM_NFT
    }
}

/// The words with a dash that may come first.
const FIRST_OPTIONS: [&[u8]; 4] = [b"--help", b"-h", b"--version", b"-V"];

/// The command's word that a word is, but for its case or dashes before it.
fn same_command(word: &str) -> Option<&'static [u8]> {
    let bytes = word.trim_start_matches('-').as_bytes();
    COMMANDS
        .iter()
        .find(|command| command.eq_ignore_ascii_case(bytes))
        .copied()
}

/// Says that a word isn't a command, and which one was probably meant.
fn ask_command(said: &mut Explained, command: &[u8]) -> Result<(), Memory> {
    said.tell(
        &[Piece::Word(b" isn't a command")],
        &[
            Piece::Word(b"did you mean '"),
            Piece::Word(command),
            Piece::Word(b"'?"),
        ],
    )
}

/// Explains a word at the place of a command.
fn explain_command(said: &mut Explained, word: &str) -> Result<(), Memory> {
    said.wrong.quoted(word.as_bytes())?;
    if word == "version" {
        return said.say(b" isn't a command", b"did you mean '--version'?");
    }
    said.suggest(
        b" isn't a command",
        word.as_bytes(),
        &COMMANDS,
        COMMANDS_ARE,
    )
}

/// Explains another program's word for what a command does.
fn explain_synonym(said: &mut Explained, word: &str, verb: Verb) -> Result<(), Memory> {
    said.wrong.quoted(word.as_bytes())?;
    said.tell(
        &[Piece::Word(b" isn't a command")],
        &[Piece::Word(form_of(verb))],
    )
}

/// Explains a first word that begins with a dash, and isn't an option.
fn explain_first_option(said: &mut Explained, word: &str) -> Result<(), Memory> {
    said.wrong.quoted(word.as_bytes())?;
    match same_command(word) {
        Some(command) => ask_command(said, command),
        None => said.suggest(
            b" isn't a command",
            word.as_bytes(),
            &FIRST_OPTIONS,
            COMMANDS_ARE,
        ),
    }
}

/// Explains an option by which another program takes a script.
fn explain_file_option(said: &mut Explained, option: FileOption<'_>) -> Result<(), Memory> {
    let file = option.file.unwrap_or("FILE").as_bytes();
    said.wrong.quoted(option.option.as_bytes())?;
    said.wrong
        .say(b" isn't an option: a file's name comes after a command")?;
    match option.command {
        Some(command) => said.tell(
            &[],
            &[
                Piece::Word(b"write files after the command, in their order: pipapo "),
                Piece::Word(command.as_bytes()),
                Piece::Word(b" "),
                Piece::Word(file),
                Piece::Word(b" .."),
            ],
        ),
        None => said.tell(
            &[],
            &[
                Piece::Word(b"to run a script and print its sets, write: pipapo list "),
                Piece::Word(file),
            ],
        ),
    }
}

/// Adds words to what to do, each after a blank.
fn add_words(said: &mut Explained, words: &[String]) -> Result<(), Memory> {
    for word in words {
        match add_word(said, word.as_str()) {
            Ok(()) => {}
            Err(_) => return Err(Memory),
        }
    }
    Ok(())
}

/// Adds a blank and a word to what to do.
fn add_word(said: &mut Explained, word: &str) -> Result<(), Memory> {
    said.help.say(b" ")?;
    said.help.say(word.as_bytes())
}

/// Explains words that are those of a `get` after another command.
fn explain_key_words(said: &mut Explained, extra: &str, words: &[String]) -> Result<(), Memory> {
    explain_extra(
        said,
        extra,
        b" is an extra word",
        b"to look one key up, write: pipapo get",
    )?;
    add_words(said, words)
}

/// Explains words that begin with a set's family.
fn explain_set_first(said: &mut Explained, words: &[String]) -> Result<(), Memory> {
    said.say(
        b"a command and a script are missing before the set",
        b"to look one key up, write: pipapo get SCRIPT",
    )?;
    add_words(said, words)
}

/// Adds an option with its value to what to do.
fn add_option(said: &mut Explained, option: EarlyOption<'_>) -> Result<(), Memory> {
    said.help.say(option.option)?;
    match option.value {
        Some(value) => {
            said.help.say(b" ")?;
            said.help.say(value.as_bytes())
        }
        None => Ok(()),
    }
}

/// Explains an option that comes before its command.
fn explain_early(said: &mut Explained, option: EarlyOption<'_>) -> Result<(), Memory> {
    said.wrong.quoted(option.word.as_bytes())?;
    said.say(
        b" comes before the command",
        b"write options after the command: pipapo ",
    )?;
    match option.command {
        Some((Verb::Get, _)) => {
            said.help.say(b"get ")?;
            add_option(said, option)?;
            said.help.say(b" ..")
        }
        Some((_, command)) => {
            said.help.say(command.as_bytes())?;
            said.help.say(b" .. ")?;
            add_option(said, option)
        }
        None => {
            said.help.say(b"COMMAND .. ")?;
            add_option(said, option)
        }
    }
}

/// Explains a word of nft after a command's word.
fn explain_nft_noun(said: &mut Explained, command: &str, noun: &str) -> Result<(), Memory> {
    if command == "list" {
        return said.tell(
            &[
                Piece::Word(b"'list "),
                Piece::Word(noun.as_bytes()),
                Piece::Word(b"' is a command of nft: here a script's file comes after 'list'"),
            ],
            &[Piece::Word(FROM_NFT)],
        );
    }
    said.wrong.quoted(noun.as_bytes())?;
    said.tell(
        &[
            Piece::Word(b" is a word of nft: here a file's name comes after '"),
            Piece::Word(command.as_bytes()),
            Piece::Word(b"'"),
        ],
        &[
            Piece::Word(b"pipe the kernel's sets into it: nft list ruleset | pipapo "),
            Piece::Word(command.as_bytes()),
            Piece::Word(if command == "sets" {
                b" -"
            } else {
                b" --sets -"
            }),
        ],
    )
}

/// That a command's names have no options.
fn without_option(verb: Verb) -> &'static [u8] {
    match verb {
        Verb::Get => b" isn't an option: the script and the key come without options",
        Verb::Drill => b" isn't an option: both numbers come without options",
        _ => b" isn't an option: files come without options, in their order",
    }
}

/// Explains a word with a dash that is no option of any command.
fn explain_no_option(said: &mut Explained, verb: Verb, option: &str) -> Result<(), Memory> {
    let mut near: &[&[u8]] = &OPTIONS;
    if !takes(verb, b"--at") {
        near = &OPTIONS[..5];
    }
    match long_option(verb, option.as_bytes()) {
        Some(long) => said.tell(
            &[Piece::Word(b" isn't an option")],
            &[
                Piece::Word(b"did you mean '"),
                Piece::Word(long),
                Piece::Word(b"'?"),
            ],
        ),
        None => said.suggest(b" isn't an option", option.as_bytes(), near, form_of(verb)),
    }
}

/// Explains a word with a dash that is no option of the command.
fn explain_option(said: &mut Explained, verb: Verb, option: &str) -> Result<(), Memory> {
    said.wrong.quoted(option.as_bytes())?;
    let is_other = OPTIONS.iter().any(|other| *other == option.as_bytes());
    if is_other {
        return said.say(b" isn't an option of this command", form_of(verb));
    }
    if is_name_option(option) {
        return said.say(without_option(verb), form_of(verb));
    }
    explain_no_option(said, verb, option)
}

/// Explains a number that is out of its bounds, or no number.
fn explain_number(said: &mut Explained, number: NumberOf, word: &str) -> Result<(), Memory> {
    let (low, high) = number.bounds();
    said.wrong.quoted(word.as_bytes())?;
    said.tell(
        &[Piece::Word(match number {
            NumberOf::Threads => b" isn't a number of packet threads",
            NumberOf::Moment => b" isn't a moment in milliseconds",
            NumberOf::Seed => b" isn't a SEED",
            NumberOf::Count => b" isn't a COUNT of elements",
        })],
        &[
            Piece::Word(b"write a number from "),
            Piece::Number(low),
            Piece::Word(b" to "),
            Piece::Number(high),
        ],
    )
}

/// Explains that no number follows an option.
fn explain_no_number(said: &mut Explained, number: NumberOf) -> Result<(), Memory> {
    let (low, high) = number.bounds();
    said.tell(
        &[Piece::Word(match number {
            NumberOf::Moment => b"the moment after '--at' is missing",
            _ => b"the number after '--threads' is missing",
        })],
        &[
            Piece::Word(b"write a number from "),
            Piece::Number(low),
            Piece::Word(b" to "),
            Piece::Number(high),
        ],
    )
}

/// Adds a name that is missing, after what separates it from the one before.
fn add_name(said: &mut Explained, front: &[u8], name: &[u8]) -> Result<(), Memory> {
    said.wrong.say(front)?;
    said.wrong.say(name)
}

/// Explains which names are missing after the first ones.
fn explain_missing(said: &mut Explained, verb: Verb, names: usize) -> Result<(), Memory> {
    let mut front: &[u8] = b"";
    let mut end: &[u8] = b" is missing";
    for place in names..MOST_NAMES {
        let Some(name) = name_at(verb, place) else {
            break;
        };
        if place > names {
            end = b" are missing";
            let next = place.saturating_add(1);
            let is_last = next == MOST_NAMES || name_at(verb, next).is_none();
            front = if is_last { b" and " } else { b", " };
        }
        match add_name(said, front, name) {
            Ok(()) => {}
            Err(_) => return Err(Memory),
        }
    }
    said.say(end, form_of(verb))
}

/// Explains a word that is one too many, or that can't come with others.
fn explain_extra(
    said: &mut Explained,
    word: &str,
    wrong: &[u8],
    help: &[u8],
) -> Result<(), Memory> {
    said.wrong.quoted(word.as_bytes())?;
    said.say(wrong, help)
}

/// Says what is wrong with words, and what to do.
pub(crate) fn explain(said: &mut Explained, fault: WordFault<'_>) -> Result<(), Memory> {
    match fault {
        WordFault::NoWords => said.say(b"a command is missing", COMMANDS_ARE),
        WordFault::NotACommand(word) => explain_command(said, word),
        WordFault::Statement(word) => explain_extra(
            said,
            word,
            b" begins a statement of a script, and isn't a command",
            b"write the statement into the script's file, and then: pipapo list FILE",
        ),
        WordFault::Program(word) => explain_extra(
            said,
            word,
            b" isn't a command: pipapo reads files, and not the kernel's sets",
            from_program(word),
        ),
        WordFault::Synonym(word, verb) => explain_synonym(said, word, verb),
        WordFault::SetFirst(words) => explain_set_first(said, words),
        WordFault::Twofold => said.say(
            b"'pipapo' is given twice",
            b"write the command after the first one, as: pipapo help",
        ),
        WordFault::HelpFirst(word, command) => {
            said.wrong.quoted(word.as_bytes())?;
            said.tell(
                &[Piece::Word(b" can't come with these words")],
                &[
                    Piece::Word(b"for the page of this command, write: pipapo help "),
                    Piece::Word(command.as_bytes()),
                ],
            )
        }
        WordFault::FileFirst(option) => explain_file_option(said, option),
        WordFault::OptionFirst(word) => explain_first_option(said, word),
        WordFault::Early(option) => explain_early(said, option),
        WordFault::NotAlone(word) => explain_extra(
            said,
            word,
            b" can't come with these words",
            b"write it alone, or --help alone after a command",
        ),
        WordFault::NoPage(word) => explain_extra(
            said,
            word,
            b" has no page of its own",
            b"write 'pipapo help' alone, or a command after it, as: pipapo help run",
        ),
        WordFault::TooMuchHelp(word) => explain_extra(
            said,
            word,
            b" is an extra word",
            b"write one command after 'help'",
        ),
        WordFault::NotAnOption(verb, option) => explain_option(said, verb, option),
        WordFault::LateOption(option) => explain_extra(
            said,
            option,
            b" comes after the script",
            b"write the options of get before the script: all words after it are the key",
        ),
        WordFault::Twice(option) => explain_extra(
            said,
            option,
            b" is given twice",
            b"leave one of the two out",
        ),
        WordFault::NoValue(option) => {
            explain_extra(
                said,
                option,
                b" takes no value",
                b"leave out the '=' and what follows it",
            )
        }
        WordFault::NoNumber(number) => explain_no_number(said, number),
        WordFault::BadNumber(number, word) => explain_number(said, number, word),
        WordFault::Empty => said.say(
            b"a word is empty",
            b"write the name of a file, or '-' for the standard input",
        ),
        WordFault::StdinTwice => said.say(
            b"'-' is given twice",
            b"only one file can be the standard input",
        ),
        WordFault::TooMany(verb, word) => {
            explain_extra(said, word, b" is an extra word", form_of(verb))
        }
        WordFault::NftNoun(command, noun) => explain_nft_noun(said, command, noun),
        WordFault::KeyWords(extra, words) => explain_key_words(said, extra, words),
        WordFault::Missing(verb, names) => explain_missing(said, verb, names),
        WordFault::Other => said.say(
            b"these words aren't a command",
            b"'pipapo help' explains the commands",
        ),
    }
}
