//! Words that other programs take, and that aren't a command here.
use crate::seen::split;
use command_words::Verb;

/// The words that begin a statement of a script.
const STATEMENTS: [&str; 10] = [
    "add", "create", "delete", "destroy", "flush", "table", "at", "commit", "abort", "round",
];

/// What nft's `list` takes after it.
const NOUNS: [&str; 9] = [
    "ruleset", "tables", "table", "chains", "chain", "sets", "set", "maps", "map",
];

/// The families of nft.
const FAMILIES: [&str; 6] = ["ip", "ip6", "inet", "arp", "bridge", "netdev"];

/// Words of other programs, each with the command that does the same here.
const SYNONYMS: [(&str, Verb); 27] = [
    ("test", Verb::Get),
    ("lookup", Verb::Get),
    ("find", Verb::Get),
    ("search", Verb::Get),
    ("match", Verb::Get),
    ("query", Verb::Get),
    ("why", Verb::Explain),
    ("trace", Verb::Explain),
    ("diff", Verb::Compare),
    ("cmp", Verb::Compare),
    ("show", Verb::List),
    ("print", Verb::List),
    ("save", Verb::List),
    ("export", Verb::List),
    ("cat", Verb::List),
    ("ls", Verb::List),
    ("check", Verb::List),
    ("validate", Verb::List),
    ("info", Verb::Stat),
    ("status", Verb::Stat),
    ("count", Verb::Stat),
    ("bench", Verb::Drill),
    ("tables", Verb::Dump),
    ("exec", Verb::Run),
    ("replay", Verb::Run),
    ("pcap", Verb::Capture),
    ("import", Verb::Sets),
];

/// Programs whose sets or rules are the kernel's.
const PROGRAMS: [&str; 6] = [
    "nft",
    "ipset",
    "iptables",
    "ip6tables",
    "iptables-save",
    "firewall-cmd",
];

/// Options by which other programs name a file.
const FILE_OPTIONS: [&str; 2] = ["-f", "--file"];

/// Options that are invented for a file or a number, which have no option here.
const NAME_OPTIONS: [&str; 19] = [
    "-f",
    "-i",
    "--file",
    "--input",
    "--script",
    "--script1",
    "--script2",
    "--keys",
    "--key",
    "--rules",
    "--plan",
    "--pcap",
    "--capture",
    "--packets",
    "--ruleset",
    "--table",
    "--family",
    "--seed",
    "--count",
];

/// Whether one of these words is the word.
fn is_one_of(word: &str, words: &[&str]) -> bool {
    for other in words {
        if *other == word {
            return true;
        }
    }
    false
}

/// Whether a word begins a statement of a script.
pub(crate) fn is_statement(word: &str) -> bool {
    is_one_of(word, &STATEMENTS)
}

/// Whether nft's `list` takes a word.
pub(crate) fn is_noun(word: &str) -> bool {
    is_one_of(word, &NOUNS)
}

/// Whether a word is a family of nft.
pub(crate) fn is_family(word: &str) -> bool {
    is_one_of(word, &FAMILIES)
}

/// Whether a word is a program whose sets or rules are the kernel's.
pub(crate) fn is_program(word: &str) -> bool {
    is_one_of(word, &PROGRAMS)
}

/// The command that does what another program's word does.
pub(crate) fn synonym(word: &str) -> Option<Verb> {
    for (other, verb) in &SYNONYMS {
        if *other == word {
            return Some(*verb);
        }
    }
    None
}

/// Whether an option is invented for a file or a number.
pub(crate) fn is_name_option(option: &str) -> bool {
    is_one_of(option, &NAME_OPTIONS)
}

/// An option by which other programs name a file.
#[derive(Clone, Copy)]
pub(crate) struct FileOption<'a> {
    pub(crate) option: &'a str,
    /// What follows its `=`, or the word after it, if there is one.
    pub(crate) file: Option<&'a str>,
    /// The first word after both that is a command.
    pub(crate) command: Option<&'a str>,
}

/// The first such option among words.
pub(crate) fn file_option(words: &[String]) -> Option<FileOption<'_>> {
    for (place, word) in words.iter().enumerate() {
        let (option, joined) = split(word.as_str());
        if is_one_of(option, &FILE_OPTIONS) {
            let next = place.saturating_add(1);
            let after = words.get(next).map(|file| file.as_str());
            let behind = words.get(next..).unwrap_or(&[]);
            return Some(FileOption {
                option,
                file: joined.or(after),
                command: command_among(behind).map(|found| found.1),
            });
        }
    }
    None
}

/// An option of a command that comes before the command.
#[derive(Clone, Copy)]
pub(crate) struct EarlyOption<'a> {
    /// The option's word, maybe with a value after `=`.
    pub(crate) word: &'a str,
    /// How it is written after the command.
    pub(crate) option: &'a [u8],
    /// The value that follows it, if the option takes one.
    pub(crate) value: Option<&'a str>,
    /// The first word after it that is a command.
    pub(crate) command: Option<(Verb, &'a str)>,
}

/// The first word that is a command.
pub(crate) fn command_among(words: &[String]) -> Option<(Verb, &str)> {
    for word in words {
        if let Some(verb) = Verb::of_word(word.as_str()) {
            return Some((verb, word.as_str()));
        }
    }
    None
}
