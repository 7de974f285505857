//! Worked examples of `sets`.
use crate::calls::{File, NOTHING, Wanted, check_failing};
use std::alloc::Global;
use std::process::Abort;
use std::sync::Wait;
use std::test::Fail;
use std::thread::Threads;

/// A ruleset under `r.nft`, the sets that are written, the note on the rest if it matters, and the status.
struct Kept {
    whole: &'static str,
    output: &'static str,
    notes: Option<&'static str>,
    status: u8,
}

const RULESETS: [Kept; 6] = [
    // a set that is left out, a part that is dropped, and a brace in a string of a chain
    Kept {
        whole: "table inet filter {\n\
              \tset blocked {\n\
              \t\ttype ipv4_addr\n\
              \t\tflags interval\n\
              \t\tauto-merge\n\
              \t}\n\
              \tset open {\n\
              \t\ttype inet_service\n\
              \t\tcounter\n\
              \t\telements = { 22 counter packets 5 bytes 6, 80 }\n\
              \t}\n\
              \tchain input {\n\
              \t\tlog prefix \"a } b \" drop\n\
              \t}\n\
              }\n",
        output: "table inet filter {\n\
              \t             \n\
              \t\t              \n\
              \t\t              \n\
              \t\t          \n\
              \t \n\
              \tset open {\n\
              \t\ttype inet_service\n\
              \t\t       \n\
              \t\telements = { 22                          , 80 }\n\
              \t}\n\
              \t             \n\
              \t\t                        \n\
              \t \n\
              }\n",
        notes: Some(
            "r.nft:2:2: 'set blocked' is left out: 'auto-merge' isn't read here\n\
              r.nft:9:3: 'counter' is dropped: no verdict depends on it\n\
              r.nft:12:2: 'chain input' is skipped: it isn't a set\n",
        ),
        status: 1,
    },
    // a chain alone is no loss
    Kept {
        whole: "table ip t {\n\
              \tchain c {\n\
              \t}\n\
              }\n",
        output: "table ip t {\n\
              \t         \n\
              \t \n\
              }\n",
        notes: Some("r.nft:2:2: 'chain c' is skipped: it isn't a set\n"),
        status: 0,
    },
    // statements, two of them in one line
    Kept {
        whole: "add table ip t; add chain ip t c\n\
              add set ip t s { type inet_service; }\n\
              add element ip t s { 80 }\n\
              insert rule ip t c drop\n",
        output: "add table ip t;                 \n\
              add set ip t s { type inet_service; }\n\
              add element ip t s { 80 }\n\
              \x20                      \n",
        notes: Some(
            "r.nft:1:17: 'add chain' is skipped: it isn't a set\n\
              r.nft:4:1: 'insert rule' is skipped: it isn't a set\n",
        ),
        status: 0,
    },
    // a set by expressions stays as it is, unless one of them has another type
    Kept {
        whole: "table inet t {\n\
              \tset a {\n\
              \t\ttypeof ip saddr . ct mark\n\
              \t\telements = { 192.0.2.7 . 0x00000001 }\n\
              \t}\n\
              \tset b {\n\
              \t\ttypeof ip saddr . iifname\n\
              \t}\n\
              }\n",
        output: "table inet t {\n\
               \tset a {\n\
               \t\ttypeof ip saddr . ct mark\n\
               \t\telements = { 192.0.2.7 . 0x00000001 }\n\
               \t}\n\
               \t       \n\
               \t\t                         \n\
               \t \n\
               }\n",
        notes: Some(
            "r.nft:6:2: 'set b' is left out: it has an expression with 'iifname', which isn't known here\n",
        ),
        status: 1,
    },
    // a brace that nothing closes
    Kept {
        whole: "table ip t {\n\
              \tchain c {\n",
        output: "pipapo: ruleset line 2: statement\n",
        notes: None,
        status: 3,
    },
    // an address that is none
    Kept {
        whole: "table ip t {\n\
              \tmap m {\n\
              \t}\n\
              \tset s {\n\
              \t\ttype ipv4_addr\n\
              \t\telements = { 10.0.0.256 }\n\
              \t}\n\
              }\n",
        output: "pipapo: ruleset line 6: value\n",
        notes: None,
        status: 3,
    },
];

#[test]
fn sets_of_rulesets(rt: HostRuntime) -> Result<(), Fail> {
    for kept in &RULESETS {
        let files: [File<'_>; 1] = [("r.nft", kept.whole.as_bytes())];
        let output = kept.output.as_bytes();
        let wanted = match kept.notes {
            Some(notes) => Wanted::noted(notes.as_bytes(), output, kept.status),
            None => Wanted::output(output, kept.status),
        };
        check_failing(&rt, rt.alloc(), &["sets", "r.nft"], &files, NOTHING, wanted)?;
    }
    Ok(())
}

/// A ruleset with a chain, a map and a counter, and a set of which a command tells.
const WEB: &str = "table inet filter {\n\
    \tmap ports { type ipv4_addr : inet_service; }\n\
    \tset open {\n\
    \t\ttype inet_service\n\
    \t\tcounter\n\
    \t\telements = { 22 counter packets 5 bytes 6, 80 }\n\
    \t}\n\
    \tchain input {\n\
    \t\ttcp dport @open accept\n\
    \t}\n\
    }\n";

/// What isn't kept of it.
const WEB_NOTES: &str = "r.nft:2:2: 'map ports' is skipped: it isn't a set\n\
    r.nft:5:3: 'counter' is dropped: no verdict depends on it\n\
    r.nft:8:2: 'chain input' is skipped: it isn't a set\n";

/// A ruleset of the same set, and another one of it.
const OTHER: &str = "table inet filter {\n\
    \tset open {\n\
    \t\ttype inet_service\n\
    \t\telements = { 80 }\n\
    \t}\n\
    \tchain output { }\n\
    }\n";

/// What isn't kept of both.
const BOTH_NOTES: &str = "r.nft:2:2: 'map ports' is skipped: it isn't a set\n\
    r.nft:5:3: 'counter' is dropped: no verdict depends on it\n\
    r.nft:8:2: 'chain input' is skipped: it isn't a set\n\
    o.nft:6:2: 'chain output' is skipped: it isn't a set\n";

/// Words over the rulesets under `r.nft` and `o.nft` and the key file under `keys`, the output, the note if it matters,
/// and the status.
struct Read {
    words: &'static [&'static str],
    output: &'static str,
    notes: Option<&'static str>,
    status: u8,
}

const READS: [Read; 6] = [
    // the line is the ruleset's
    Read {
        words: &["get", "--sets", "r.nft", "inet filter open 80"],
        output: "element 1: 80 (line 6)\n",
        notes: Some(WEB_NOTES),
        status: 0,
    },
    // the note comes with each status
    Read {
        words: &["get", "r.nft", "inet filter open 81", "--sets"],
        output: "none\n",
        notes: Some(WEB_NOTES),
        status: 1,
    },
    // the key file is none of the rulesets
    Read {
        words: &["run", "r.nft", "--threads", "1", "--sets", "keys"],
        output: "commit generation 1 purged 0\npacket 0 thread 0 generation 1 element 0\n",
        notes: Some(WEB_NOTES),
        status: 0,
    },
    // two rulesets, one note
    Read {
        words: &["compare", "--sets", "r.nft", "o.nft"],
        output: "differs inet filter open: 22 is in element 0 of r.nft (line 6) and in no element of o.nft\n",
        notes: Some(BOTH_NOTES),
        status: 1,
    },
    // a key file that is none
    Read {
        words: &["run", "--sets", "r.nft", "o.nft"],
        output: "pipapo: keys line 1: set\n",
        notes: None,
        status: 4,
    },
    // without the option
    Read {
        words: &["list", "r.nft"],
        output: "pipapo: script line 2: left out\n",
        notes: None,
        status: 3,
    },
];

/// The option given twice, at a command without scripts, and at a word that asks for a page.
const NO_COMMANDS: [&[&str]; 3] = [
    &["list", "--sets", "r.nft", "--sets"],
    &["drill", "--sets", "1", "2"],
    &["--version", "--sets"],
];

/// A ruleset with a set that is left out and one that isn't, and rulesets with each of them alone.
const TWO_SETS: &str = "table ip t {\n\
    \tset m {\n\
    \t\ttype ipv4_addr\n\
    \t\tflags interval\n\
    \t\tauto-merge\n\
    \t}\n\
    \tset p {\n\
    \t\ttype inet_service\n\
    \t\telements = { 80 }\n\
    \t}\n\
    }\n";

const LEFT_OUT_ALONE: &str = "table ip t {\n\
    \tset m {\n\
    \t\ttype ipv4_addr\n\
    \t\tflags interval\n\
    \t\tauto-merge\n\
    \t}\n\
    }\n";

const KEPT_ALONE: &str = "table ip t {\n\
    \tset p {\n\
    \t\ttype inet_service\n\
    \t\telements = { 80 }\n\
    \t}\n\
    }\n";

/// A set that was left out wasn't compared, so not all sets are the same. Other commands don't count it.
const LEFT_OUT: [Read; 6] = [
    Read {
        words: &["compare", "--sets", "m.nft", "n.nft"],
        output: "",
        notes: Some(
            "m.nft:2:2: 'set m' is left out: 'auto-merge' isn't read here\n\
              n.nft:2:2: 'set m' is left out: 'auto-merge' isn't read here\n",
        ),
        status: 1,
    },
    Read {
        words: &["compare", "--sets", "two.nft", "p.nft"],
        output: "same ip t p\n",
        notes: Some("two.nft:2:2: 'set m' is left out: 'auto-merge' isn't read here\n"),
        status: 1,
    },
    Read {
        words: &["compare", "p.nft", "two.nft", "--sets"],
        output: "same ip t p\n",
        notes: Some("two.nft:2:2: 'set m' is left out: 'auto-merge' isn't read here\n"),
        status: 1,
    },
    Read {
        words: &["compare", "--sets", "p.nft", "p.nft"],
        output: "same ip t p\n",
        notes: Some(""),
        status: 0,
    },
    // a second file without sets, whose line is skipped as a statement of nft's is
    Read {
        words: &["compare", "--sets", "m.nft", "keys"],
        output: "",
        notes: Some(
            "m.nft:2:2: 'set m' is left out: 'auto-merge' isn't read here\n\
              keys:1:1: 'ip t' is skipped: it isn't a set\n",
        ),
        status: 1,
    },
    Read {
        words: &["get", "--sets", "two.nft", "t", "p", "80"],
        output: "element 0: 80 (line 9)\n",
        notes: Some("two.nft:2:2: 'set m' is left out: 'auto-merge' isn't read here\n"),
        status: 0,
    },
];

/// Keys of a set that is left out, of one that isn't there, and of the first one again.
const LEFT_OUT_KEYS: &str = "ip t m 192.0.2.1\nip6 t m ::1\nt m 192.0.2.2\n";

/// A key file that names a set which is left out.
const NAMED: [Read; 1] = [
    // the set of another family isn't there
    Read {
        words: &["explain", "--sets", "two.nft", "left.keys"],
        output: "pipapo: keys line 1: set\n",
        notes: Some(
            "left.keys:1:6: 'm' is left out: 'auto-merge' isn't read here\n\
              ip t m 192.0.2.1\n\x20    ^\n\
              help: name another set, or change the ruleset at two.nft:5:3\n\
              left.keys:2:7: 'm' isn't a set of the script\n\
              ip6 t m ::1\n\x20     ^\n\
              help: the script's sets are ip t p\n\
              left.keys:3:3: 'm' is left out: 'auto-merge' isn't read here\n\
              t m 192.0.2.2\n\x20 ^\n\
              help: name another set, or change the ruleset at two.nft:5:3\n",
        ),
        status: 4,
    },
];

/// Carries out words over files, and looks at what is written.
fn check_reads<R: Threads + Wait + Abort + Sync>(
    rt: &R,
    alloc: Global,
    files: &[File<'_>],
    reads: &[Read],
) -> Result<(), Fail> {
    for read in reads {
        let output = read.output.as_bytes();
        let wanted = match read.notes {
            Some(notes) => Wanted::noted(notes.as_bytes(), output, read.status),
            None => Wanted::output(output, read.status),
        };
        check_failing(rt, alloc, read.words, files, NOTHING, wanted)?;
    }
    Ok(())
}

#[test]
fn sets_that_are_left_out(rt: HostRuntime) -> Result<(), Fail> {
    let files: [File<'_>; 5] = [
        ("m.nft", LEFT_OUT_ALONE.as_bytes()),
        ("n.nft", LEFT_OUT_ALONE.as_bytes()),
        ("two.nft", TWO_SETS.as_bytes()),
        ("p.nft", KEPT_ALONE.as_bytes()),
        ("keys", b"ip t p 80\n"),
    ];
    check_reads(&rt, rt.alloc(), &files, &LEFT_OUT)
}

#[test]
fn names_of_sets_that_are_left_out(rt: HostRuntime) -> Result<(), Fail> {
    let files: [File<'_>; 2] = [
        ("two.nft", TWO_SETS.as_bytes()),
        ("left.keys", LEFT_OUT_KEYS.as_bytes()),
    ];
    check_reads(&rt, rt.alloc(), &files, &NAMED)
}

#[test]
fn commands_on_rulesets(rt: HostRuntime) -> Result<(), Fail> {
    let files: [File<'_>; 3] = [
        ("r.nft", WEB.as_bytes()),
        ("o.nft", OTHER.as_bytes()),
        ("keys", b"inet filter open 22\n"),
    ];
    check_reads(&rt, rt.alloc(), &files, &READS)?;
    for words in &NO_COMMANDS {
        check_failing(&rt, rt.alloc(), words, &files, NOTHING, Wanted::status(2))?;
    }
    Ok(())
}
