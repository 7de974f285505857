//! The words of a command.
use crate::cases::{assert_told, cut, line_of};
use command_words::{Command, Task, WordsError, command_of, page_of};
use set_model::Memory;
use std::alloc::Global;
use std::str;
use text_pieces::Piece;

/// The words of a line, with a space between them; none of an empty line.
fn words_of(alloc: Global, line: &[u8]) -> Result<Vec<String>, Memory> {
    let mut words = Vec::new(alloc);
    if line.is_empty() {
        return Ok(words);
    }
    for word in line.split(|byte| *byte == b' ') {
        let word = str::from_utf8(word).unwrap_or("");
        words.push(String::from_str(alloc, word)?)?;
    }
    Ok(words)
}

/// A verb, names, and what the options say.
fn told_task<'a>(
    alloc: Global,
    verb: &'a [u8],
    names: &[&'a str; 3],
    threads: u32,
    keep_going: bool,
) -> Result<Vec<u8>, Memory> {
    line_of(
        alloc,
        &[
            Piece::Word(verb),
            Piece::Word(names[0].as_bytes()),
            Piece::Word(b" "),
            Piece::Word(names[1].as_bytes()),
            Piece::Word(b" "),
            Piece::Word(names[2].as_bytes()),
            Piece::Word(b" "),
            Piece::Number(u64::from(threads)),
            Piece::Word(if keep_going { b" true" } else { b" false" }),
        ],
    )
}

/// The same with four names.
fn told_four<'a>(
    alloc: Global,
    verb: &'a [u8],
    names: &[&'a str; 4],
    threads: u32,
    keep_going: bool,
) -> Result<Vec<u8>, Memory> {
    line_of(
        alloc,
        &[
            Piece::Word(verb),
            Piece::Word(names[0].as_bytes()),
            Piece::Word(b" "),
            Piece::Word(names[1].as_bytes()),
            Piece::Word(b" "),
            Piece::Word(names[2].as_bytes()),
            Piece::Word(b" "),
            Piece::Word(names[3].as_bytes()),
            Piece::Word(b" "),
            Piece::Number(u64::from(threads)),
            Piece::Word(if keep_going { b" true" } else { b" false" }),
        ],
    )
}

/// A `get`: the script, how many words the key has, its last word, and the moment.
fn told_key<'a>(
    alloc: Global,
    script: &'a str,
    key: &'a [String],
    moment: Option<u64>,
    keep_going: bool,
) -> Result<Vec<u8>, Memory> {
    let last = match key.last() {
        Some(word) => word.as_bytes(),
        None => b"",
    };
    line_of(
        alloc,
        &[
            Piece::Word(b"get "),
            Piece::Word(script.as_bytes()),
            Piece::Word(b" "),
            Piece::Number(key.len() as u64),
            Piece::Word(b" "),
            Piece::Word(last),
            Piece::Word(b" "),
            Piece::Number(moment.unwrap_or(0)),
            Piece::Word(if keep_going { b" true" } else { b" false" }),
        ],
    )
}

/// A command on a script. A missing name is shown as empty, and a missing number of threads as 0.
fn told_script(
    alloc: Global,
    script: &str,
    task: Task<'_>,
    keep_going: bool,
) -> Result<Vec<u8>, Memory> {
    match task {
        Task::Run { keys, threads } => {
            told_task(alloc, b"run ", &[script, keys, ""], threads, keep_going)
        }
        Task::List => told_task(alloc, b"list ", &[script, "", ""], 0, keep_going),
        Task::Dump => told_task(alloc, b"dump ", &[script, "", ""], 0, keep_going),
        Task::Stat => told_task(alloc, b"stat ", &[script, "", ""], 0, keep_going),
        Task::Desk => told_task(alloc, b"desk ", &[script, "", ""], 0, keep_going),
        Task::Get { key, moment } => told_key(alloc, script, key, moment, keep_going),
        Task::Judge {
            rules,
            keys,
            threads,
        } => told_task(
            alloc,
            b"judge ",
            &[script, rules, keys],
            threads,
            keep_going,
        ),
        Task::Explain { keys } => told_task(alloc, b"explain ", &[script, keys, ""], 0, keep_going),
        Task::JudgeCapture {
            rules,
            plan,
            packets,
            threads,
        } => told_four(
            alloc,
            b"judge ",
            &[script, rules, plan, packets],
            threads,
            keep_going,
        ),
        Task::Capture {
            plan,
            packets,
            threads,
        } => told_task(
            alloc,
            b"capture ",
            &[script, plan, packets],
            threads,
            keep_going,
        ),
    }
}

fn told_command(alloc: Global, command: Command<'_>) -> Result<Vec<u8>, Memory> {
    match command {
        Command::Script {
            script,
            task,
            keep_going,
        } => told_script(alloc, script, task, keep_going),
        Command::Drill {
            seed,
            count,
            threads,
        } => line_of(
            alloc,
            &[
                Piece::Word(b"drill "),
                Piece::Number(seed),
                Piece::Word(b" "),
                Piece::Number(u64::from(count)),
                Piece::Word(b" "),
                Piece::Number(u64::from(threads)),
            ],
        ),
        Command::Compare {
            first,
            second,
            keep_going,
        } => told_task(alloc, b"compare ", &[first, second, ""], 0, keep_going),
        Command::Sets { file } => told_task(alloc, b"sets ", &[file, "", ""], 0, false),
    }
}

/// The first line of the page that words ask for, or their command.
fn told_words(alloc: Global, words: &[String]) -> Result<Vec<u8>, Memory> {
    if let Some(page) = page_of(words) {
        return line_of(alloc, &[Piece::Word(cut(page.text().as_bytes(), b'\n').0)]);
    }
    match command_of(alloc, words) {
        Ok(command) => told_command(alloc, command),
        Err(WordsError::NoCommand) => line_of(alloc, &[Piece::Word(b"no command")]),
        Err(WordsError::Memory) => Err(Memory),
    }
}

/// The command or page of a line's words.
fn asked(alloc: Global, line: &[u8]) -> Result<Vec<u8>, Memory> {
    told_words(alloc, &words_of(alloc, line)?)
}

/// Words that are no command.
const NO_COMMANDS: &[u8] = b"\
    |no command~\
    run a|no command~\
    run a b c|no command~\
    run -a b|no command~\
    run a |no command~\
    run - -|no command~\
    run --keep-going - --threads 2 -|no command~\
    run a b --threads -|no command~\
    run a b --threads 17|no command~\
    run a b --threads 01|no command~\
    run a b --threads 0|no command~\
    run a b --threads +1|no command~\
    run a b --threads |no command~\
    run a b --threads|no command~\
    run a b --threads --keep-going|no command~\
    run a b --threads 1 --threads 1|no command~\
    run a b --threads=17|no command~\
    run a b --threads=|no command~\
    run a b --threads=01|no command~\
    run a b --threads=1 --threads 1|no command~\
    run a b --threads 1 --threads=1|no command~\
    run --threads=1|no command~\
    run a --threads b|no command~\
    run a b --keep-going --keep-going|no command~\
    run a b --keep-going=1|no command~\
    run -- a b|no command~\
    --keep-going run a b|no command~\
    list|no command~\
    list a b|no command~\
    list a --threads 1|no command~\
    list a --threads=1|no command~\
    dump --|no command~\
    dump a --keep|no command~\
    dump a --threads 1|no command~\
    stat|no command~\
    stat a b|no command~\
    stat a --threads 1|no command~\
    drill 1|no command~\
    drill - 1|no command~\
    drill 1 2 3|no command~\
    drill 1 0|no command~\
    drill 1 20001|no command~\
    drill 18446744073709551616 1|no command~\
    drill 01 1|no command~\
    drill a 1|no command~\
    drill 1 2 --keep-going|no command~\
    judge a b|no command~\
    judge a b c d e|no command~\
    judge a - c -|no command~\
    judge a - -|no command~\
    judge - b -|no command~\
    judge a b --threads c|no command~\
    capture a b|no command~\
    capture - - c|no command~\
    capture a b c --threads 17|no command~\
    desk|no command~\
    desk a b|no command~\
    desk a --threads 2|no command~\
    desks a|no command~\
    lists a|no command~\
    help lists|no command~\
    help help|no command~\
    help --help|no command~\
    help run list|no command~\
    --help run|no command~\
    --help --help|no command~\
    run a --help|no command~\
    run --help a|no command~\
    --version run|no command~\
    -V run|no command~\
    -V --version|no command~\
    run --version|no command~\
    get|no command~\
    get a|no command~\
    get a t s 1 --at 5|no command~\
    compare a|no command~\
    compare - -|no command~\
    compare a b --threads 2|no command~\
    compare a b c|no command~\
    explain a|no command~\
    explain - -|no command~\
    explain a b --threads 2|no command~\
    explain a b c|no command~\
    sets|no command~\
    sets a b|no command~\
    sets a --keep-going|no command~\
    sets a --threads 2|no command~\
    get --at a t s 1|no command~\
    get --at 1000000000000001 a t s 1|no command~\
    get --at=1000000000000001 a t s 1|no command~\
    get --at= a t s 1|no command~\
    get --at=1 --at 1 a t s 1|no command~\
    get a t s 1 --at=1|no command~\
    --at=1 get a t s 1|no command~\
    -|no command~\
";

/// Words in any order.
const COMMANDS: &[u8] = b"\
    run help b|run help b  1 false~\
    run --threads 16 16 b|run 16 b  16 false~\
    run a --threads 9 --keep-going b|run a b  9 true~\
    run --keep-going a b --threads 1|run a b  1 true~\
    run a b --threads=1|run a b  1 false~\
    run --threads=16 a --keep-going b|run a b  16 true~\
    run - b|run - b  1 false~\
    run a - --keep-going|run a -  1 true~\
    list --keep-going c|list c   0 true~\
    list run|list run   0 false~\
    list -|list -   0 false~\
    dump d --keep-going|dump d   0 true~\
    dump --keep-going -|dump -   0 true~\
    stat stat|stat stat   0 false~\
    stat --keep-going -|stat -   0 true~\
    drill 18446744073709551615 20000|drill 18446744073709551615 20000 1~\
    drill 0 --threads 4 1|drill 0 1 4~\
    drill 0 1 --threads=4|drill 0 1 4~\
    judge a b c|judge a b c 1 false~\
    judge a --threads 3 - --keep-going c|judge a - c 3 true~\
    judge a b c d|judge a b c d 1 false~\
    judge a --threads=3 b --keep-going c -|judge a b c - 3 true~\
    capture a b -|capture a b - 1 false~\
    capture --keep-going a b c --threads 16|capture a b c 16 true~\
    desk a|desk a   0 false~\
    desk --keep-going desk|desk desk   0 true~\
    desk - --keep-going|desk -   0 true~\
    get a t s 1|get a 3 1 0 false~\
    get --at 1000000000000000 --keep-going - t s 1 . 2|get - 5 2 1000000000000000 true~\
    get --keep-going --at 5 get get|get get 1 get 5 true~\
    get --at=5 --keep-going get get|get get 1 get 5 true~\
    get --keep-going --at=0 a t s 1|get a 3 1 0 true~\
    explain a b|explain a b  0 false~\
    explain --keep-going - explain|explain - explain  0 true~\
    compare a b|compare a b  0 false~\
    compare --keep-going - compare|compare - compare  0 true~\
    compare a a --keep-going|compare a a  0 true~\
    sets -|sets -   0 false~\
    sets sets|sets sets   0 false~\
";

/// Words that ask for a page.
const PAGES: &[u8] = b"\
    help|pipapo runs nftables set scripts and looks packets up in the sets.~\
    --help|pipapo runs nftables set scripts and looks packets up in the sets.~\
    -h|pipapo runs nftables set scripts and looks packets up in the sets.~\
    --version|pipapo 0.2.0~\
    -V|pipapo 0.2.0~\
    help run|usage: pipapo run SCRIPT KEYS [--threads N] [--keep-going] [--sets] [--elements]~\
    run --help|usage: pipapo run SCRIPT KEYS [--threads N] [--keep-going] [--sets] [--elements]~\
    run -h|usage: pipapo run SCRIPT KEYS [--threads N] [--keep-going] [--sets] [--elements]~\
    help list|usage: pipapo list SCRIPT [--keep-going] [--sets] [--json]~\
    list --help|usage: pipapo list SCRIPT [--keep-going] [--sets] [--json]~\
    list -h|usage: pipapo list SCRIPT [--keep-going] [--sets] [--json]~\
    help dump|usage: pipapo dump SCRIPT [--keep-going] [--sets]~\
    dump --help|usage: pipapo dump SCRIPT [--keep-going] [--sets]~\
    dump -h|usage: pipapo dump SCRIPT [--keep-going] [--sets]~\
    help stat|usage: pipapo stat SCRIPT [--keep-going] [--sets]~\
    stat --help|usage: pipapo stat SCRIPT [--keep-going] [--sets]~\
    stat -h|usage: pipapo stat SCRIPT [--keep-going] [--sets]~\
    help drill|usage: pipapo drill SEED COUNT [--threads N]~\
    drill --help|usage: pipapo drill SEED COUNT [--threads N]~\
    drill -h|usage: pipapo drill SEED COUNT [--threads N]~\
    help judge|usage: pipapo judge SCRIPT RULES KEYS [--threads N] [--keep-going] [--sets]~\
    judge --help|usage: pipapo judge SCRIPT RULES KEYS [--threads N] [--keep-going] [--sets]~\
    judge -h|usage: pipapo judge SCRIPT RULES KEYS [--threads N] [--keep-going] [--sets]~\
    help capture|usage: pipapo capture SCRIPT PLAN PCAP [--threads N] [--keep-going] [--sets] [--elements]~\
    capture --help|usage: pipapo capture SCRIPT PLAN PCAP [--threads N] [--keep-going] [--sets] [--elements]~\
    capture -h|usage: pipapo capture SCRIPT PLAN PCAP [--threads N] [--keep-going] [--sets] [--elements]~\
    help desk|usage: pipapo desk SCRIPT [--keep-going] [--sets]~\
    desk --help|usage: pipapo desk SCRIPT [--keep-going] [--sets]~\
    desk -h|usage: pipapo desk SCRIPT [--keep-going] [--sets]~\
    help get|usage: pipapo get [--at MOMENT] [--keep-going] [--sets] SCRIPT [FAMILY] TABLE SET VALUE . VALUE ..~\
    get --help|usage: pipapo get [--at MOMENT] [--keep-going] [--sets] SCRIPT [FAMILY] TABLE SET VALUE . VALUE ..~\
    get -h|usage: pipapo get [--at MOMENT] [--keep-going] [--sets] SCRIPT [FAMILY] TABLE SET VALUE . VALUE ..~\
    help explain|usage: pipapo explain SCRIPT KEYS [--keep-going] [--sets]~\
    explain -h|usage: pipapo explain SCRIPT KEYS [--keep-going] [--sets]~\
    help sets|usage: pipapo sets RULESET~\
    sets -h|usage: pipapo sets RULESET~\
    help compare|usage: pipapo compare SCRIPT1 SCRIPT2 [--keep-going] [--sets]~\
    compare --help|usage: pipapo compare SCRIPT1 SCRIPT2 [--keep-going] [--sets]~\
";

#[test]
fn words_of_a_command(rt: HostRuntime) {
    assert_told(&rt, rt.alloc(), NO_COMMANDS, 95, asked);
    assert_told(&rt, rt.alloc(), COMMANDS, 39, asked);
    assert_told(&rt, rt.alloc(), PAGES, 38, asked);
}
