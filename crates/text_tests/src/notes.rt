//! Notes for a person: on bad tokens, captures, files and refused changes.
use crate::cases::{assert_told, cut, joined, number};
use fault_notes::{
    BadToken, CaptureReason, Met, Note, RefusedChange, RefusedChanges, TextKind, bad_key_note,
    bad_script_note, bad_text_note, capture_note, output_fault_note, read_fault_note,
    refusals_note, too_large_note, too_many_clerks_note,
};
use pip_base::FaultKind;
use set_model::{Memory, Script, Step, Why};
use set_script::read_script;
use std::alloc::Global;
use std::test::Fail;
use token_forms::Reason;

/// The text of a note.
fn told_note(alloc: Global, note: Result<Note, Memory>) -> Result<Vec<u8>, Memory> {
    match note {
        Ok(note) => joined(alloc, note.as_slice(), b""),
        Err(_) => Err(Memory),
    }
}

fn kind_of(letter: &[u8]) -> TextKind {
    match letter {
        b"k" => TextKind::Keys,
        b"r" => TextKind::Rules,
        _ => TextKind::Plan,
    }
}

const REASONS: [(&[u8], Reason); 6] = [
    (b"character", Reason::Character),
    (b"end", Reason::End),
    (b"left out", Reason::LeftOut),
    (b"type", Reason::TypeWord),
    (b"value", Reason::Value),
    (b"set", Reason::Set),
];

fn reason_of(word: &[u8]) -> Reason {
    for (name, reason) in REASONS {
        if name == word {
            return reason;
        }
    }
    Reason::Statement
}

/// A bad token by its place, its length, its line, its column and the reason.
fn bad_token_of(words: &[u8]) -> BadToken {
    let (at, words) = cut(words, b' ');
    let (length, words) = cut(words, b' ');
    let (line, words) = cut(words, b' ');
    let (column, reason) = cut(words, b' ');
    BadToken {
        at: number(at),
        length: number(length),
        line: number(line),
        column: number(column),
        reason: reason_of(reason),
    }
}

/// The sets of the script beside a key file, a rules file or a plan.
const DECLARED: &[u8] =
    b"add set ip t s { type ipv4_addr; }\nadd set inet f allowed { type ipv4_addr . inet_service; }\n";

/// The note on the bad token of a text beside `DECLARED`.
fn note_beside(alloc: Global, kind: &[u8], text: &[u8], bad: BadToken) -> Result<Note, Memory> {
    match read_script(alloc, DECLARED) {
        Ok(script) => bad_text_note(alloc, kind_of(kind), &script.schema, "x", text, bad),
        Err(_) => Err(Memory),
    }
}

/// The note on a text's bad token. Before the text are its kind, as s for a script, and the bad token.
fn told_bad(alloc: Global, case: &[u8]) -> Result<Vec<u8>, Memory> {
    let (front, text) = cut(case, b';');
    let (kind, bad) = cut(front, b' ');
    let bad = bad_token_of(bad);
    let note = match kind {
        b"s" => bad_script_note(alloc, "x", text, bad),
        _ => note_beside(alloc, kind, text, bad),
    };
    told_note(alloc, note)
}

fn capture_reason_of(word: &[u8]) -> CaptureReason {
    match word {
        b"magic" => CaptureReason::Magic,
        b"cut" => CaptureReason::Cut,
        b"version" => CaptureReason::Version,
        b"length" => CaptureReason::Length,
        b"interface" => CaptureReason::Interface,
        b"options" => CaptureReason::Options,
        _ => CaptureReason::LinkType,
    }
}

/// The note on a file that is no capture. Before the file are the byte and the reason.
fn told_capture(alloc: Global, case: &[u8]) -> Result<Vec<u8>, Memory> {
    let (front, file) = cut(case, b';');
    let (byte, reason) = cut(front, b' ');
    let reason = capture_reason_of(reason);
    told_note(alloc, capture_note(alloc, "c", file, number(byte), reason))
}

/// The notes on some faults of files, by their names.
fn told_file(alloc: Global, fault: &[u8]) -> Result<Vec<u8>, Memory> {
    told_note(
        alloc,
        match fault {
            b"not found" => read_fault_note(alloc, "a\nb\x1b[2J", FaultKind::NotFound),
            b"directory" => read_fault_note(alloc, "etc", FaultKind::IsDirectory),
            b"too large" => too_large_note(alloc, "a.nft"),
            b"full" => output_fault_note(alloc, FaultKind::NoSpace),
            b"other" => output_fault_note(alloc, FaultKind::Other),
            _ => too_many_clerks_note(alloc, "a.nft", number(fault)),
        },
    )
}

/// Two elements, the second of which overlaps the first.
const OVERLAP: &[u8] = b"\
    table ip t {\n\x20set s {\n\x20type ipv4_addr; flags interval\n\x20elements = {\n\x20 10.0.1.0/24,\n\
    \x20 10.0.1.128/25 } } }\n";

fn why_of(word: &[u8]) -> Why {
    match word {
        b"overlap" => Why::Overlap { id: 0 },
        b"exists" => Why::Exists { id: 0 },
        b"missing" => Why::Missing,
        _ => Why::Full,
    }
}

/// The first change of a line.
fn step_of(script: &Script, line: u64) -> Option<&Step> {
    for step in script.sections.as_slice().first()?.as_slice() {
        match step {
            Step::Change { line: other, .. } if *other == line => return Some(step),
            _ => {}
        }
    }
    None
}

/// What a change of `OVERLAP` met: the element of line 5, if that is in its way.
fn met_of<'a>(script: &'a Script, refused: RefusedChange) -> Option<Met<'a>> {
    Some(Met {
        change: step_of(script, refused.line)?,
        older: match refused.why {
            Why::Overlap { .. } | Why::Exists { .. } => step_of(script, 5),
            _ => None,
        },
    })
}

fn told_of(
    alloc: Global,
    script: &Script,
    change: RefusedChange,
    count: u64,
    failed: bool,
) -> Result<Vec<u8>, Memory> {
    let mut first = Vec::new(alloc);
    for _ in 0..count.min(20) {
        first.push(change)?;
    }
    let mut met = Vec::new(alloc);
    for change in &first {
        if let Some(steps) = met_of(script, *change) {
            met.push(steps)?;
        }
    }
    let changes = RefusedChanges {
        first: first.as_slice(),
        met: met.as_slice(),
        count,
        failed,
    };
    told_note(
        alloc,
        refusals_note(alloc, "x.nft", OVERLAP, script, changes),
    )
}

/// The note on so many refusals of one change of `OVERLAP`: why, its line, how many, and whether the transaction failed.
fn told_refusals(alloc: Global, words: &[u8]) -> Result<Vec<u8>, Memory> {
    let (why, words) = cut(words, b' ');
    let (line, words) = cut(words, b' ');
    let (count, end) = cut(words, b' ');
    let change = RefusedChange {
        line: number(line),
        set: 0,
        why: why_of(why),
    };
    match read_script(alloc, OVERLAP) {
        Ok(script) => told_of(
            alloc,
            &script,
            change,
            number(count),
            end == b"failed".as_slice(),
        ),
        Err(_) => Err(Memory),
    }
}

// a byte that isn't printable takes four columns before a token, too; the end of a text has no bytes, and a line feed none that
// are shown; then a byte that would move the terminal, and one outside ASCII
/// Bad tokens in their lines, and texts of another kind.
const SCRIPTS_AND_KEYS: &[u8] = b"\
    s 24 10 3 3 left out;table ip t {\n\tset s {\n\t\tauto-merge\n\t}\n}\n|x:3:3: 'auto-merge' isn't supported\n\t\tauto-merge\n\t\t^^^^^^^^^^\nhelp: remove it: intervals aren't merged, and one that overlaps is refused\n~\
    s 22 4 1 23 type;add set ip t s { type ipv4 ; }\n|x:1:23: 'ipv4' isn't a supported type\nadd set ip t s { type ipv4 ; }\n                      ^^^^\nhelp: did you mean 'ipv4_addr'?\n~\
    s 9 0 1 10 end;table t {|x:1:10: the end of the text leaves the '{' of line 1 open\ntable t {\n         ^\nhelp: write '}' after the last set of the table\n~\
    s 60 9 2 22 value;add set ip t p { type inet_service ; }\nadd element ip t p { 443-70000 }\n|x:2:22: '443-70000' doesn't fit field 1 (inet_service): 70000 is greater than 65535, the last port\nadd element ip t p { 443-70000 }\n                     ^^^^^^^^^\nhelp: write a number from 0 to 65535\n~\
    s 76 9 2 38 value;add set ip t p { type inet_service ; }\nadd element ip t p { 80 comment \"\x7f\", 443-70000 }\n|x:2:38: '443-70000' doesn't fit field 1 (inet_service): 70000 is greater than 65535, the last port\nadd element ip t p { 80 comment \"\\x7f\", 443-70000 }\n                                        ^^^^^^^^^\nhelp: write a number from 0 to 65535\n~\
    k 3 1 1 4 statement;t s\n|x:1:4: the end of the line ends the key after 0 fields\nt s\n   ^\nhelp: the set's type is ipv4_addr\n~\
    k 2 1 1 3 character;t\x1b\xc3 s\n|x:1:3: '\\xc3' is an unexpected character\nt\\x1b\\xc3 s\n     ^^^^\nhelp: write ASCII: other characters may be in strings and comments only\n~\
    s 0 3 1 1 statement;nft add table t\n|x:1:1: 'nft' can't begin a statement\nnft add table t\n^^^\nhelp: leave out 'nft', and write ';' without '\\', as: add set ip t p { type mark; }\n~\
    s 26 1 1 27 character;add set ip t s { type mark\\; }\n|x:1:27: '\\' is an unexpected character\nadd set ip t s { type mark\\; }\n                          ^\nhelp: leave it out: only a shell needs it\n~\
    s 53 1 2 18 statement;add set ip t s { type ipv4_addr ; }\nflush set ip t s s\n|x:2:18: 's' comes after the end of the statement\nflush set ip t s s\n                 ^\nhelp: leave it out: 'flush set' ends with the set's name\n~\
    s 55 9 2 20 statement;add set ip t s { type ipv4_addr ; }\nadd element ip t s \"{ 10 } \"\n|x:2:20: '\"{ 10 } \"' is a string, and can't come here\nadd element ip t s \"{ 10 } \"\n                   ^^^^^^^^^\nhelp: leave out the quotes: only comments have them\n~\
    s 7 1 1 8 statement;create s hash:net\n|x:1:8: 's' can't follow 'create': this looks like a file of ipset\ncreate s hash:net\n       ^\nhelp: to list its sets, run: ipset-translate restore < FILE > sets.nft; pipapo list sets.nft\n~\
    s 2 1 2 1 left out;#\n*filter\n|x:2:1: '*' can't begin a statement: this looks like a file of iptables-save, which only names sets\n*filter\n^\nhelp: the sets are in ipset; to list them, run: ipset save | ipset-translate restore > sets.nft; pipapo list sets.nft\n~\
    s 41 9 1 42 value;add set ip t s { type mark; elements = { 0x10/0xff } }\n|x:1:42: '0x10/0xff' doesn't fit field 1 (mark): a mark in a set has no mask\nadd set ip t s { type mark; elements = { 0x10/0xff } }\n                                         ^^^^^^^^^\nhelp: write an element for each mark that is meant\n~\
    s 53 1 2 18 set;add set ip t s { type ipv4_addr ; }\nadd element ip t q { 10.0.0.1 }\n|x:2:18: 'q' isn't a set that is declared before this place\nadd element ip t q { 10.0.0.1 }\n                 ^\nhelp: the sets declared before are ip t s\n~\
    s 0 2 1 1 statement;ip t s 10.0.0.1\n|x:1:1: this looks like a key file, and a script is expected here: 'run' and 'judge' take a key file after it\n~\
    s 0 2 1 1 statement;ip t s ip_saddr . dport\n|x:1:1: this looks like a plan, and a script is expected here: 'capture' takes a plan after it\n~\
    s 0 1 1 1 statement;{\"nftables\": []}\n|x:1:1: this is a listing in JSON, as nft -j prints it: list the sets without -j\n~\
    k 0 3 1 1 set;add table ip t\n|x:1:1: this looks like a script: the script is named first, and then the key file\n~\
    s 0 1 1 1 character;\x1f\x8b\x08\x00|x:1:1: this is a file that gzip has packed: unpack it first\n~\
    k 0 1 1 1 character;\xd4\xc3\xb2\xa1\x02\x00|x:1:1: this is a capture of packets, and no key file: 'pipapo capture SCRIPT PLAN PCAP' looks its packets up\n~\
    k 4 1 3 1 character;\n\r\r\n\x1c|x:3:1: this is a capture of packets, and no key file: 'pipapo capture SCRIPT PLAN PCAP' looks its packets up\n~\
    s 0 1 1 1 character;\xef\xbb\xbfadd table t\n|x:1:1: the text begins with a byte order mark of UTF-8: leave its three bytes out\n~\
    s 0 1 1 1 character;\xff\xfea\x00|x:1:1: this is a text in UTF-16: write it in ASCII\n~\
";

// a token of 60 bytes is shown whole, and one of 61 is cut
/// Bad tokens of rules files, plans and keys.
const RULES_AND_PLANS: &[u8] = b"\
    r 18 1 1 19 set;chain a { in ip t q drop }\npolicy drop\n|x:1:19: 'q' isn't a set of the script\nchain a { in ip t q drop }\n                  ^\nhelp: the script's sets are ip t s, inet f allowed\n~\
    r 17 0 2 1 end;chain a { drop }\n|x:2:1: the end of the text comes too early\n\n^\nhelp: close each '{', and write 'policy accept' or 'policy drop' at the end\n~\
    r 0 3 1 1 statement;add set ip t s { }\n|x:1:1: 'add' can't come here: this looks like a ruleset or a script\nadd set ip t s { }\n^^^\nhelp: write chains such as 'chain main { in ip t s accept }' and then 'policy drop'; --sets reads a ruleset as SCRIPT\n~\
    r 0 6 1 1 statement;policy drop\n|x:1:1: 'policy' can't come before the first chain\npolicy drop\n^^^^^^\nhelp: write at least one chain before it, as: chain main { in ip t s accept }\n~\
    r 17 5 2 1 statement;chain a { drop }\nfirst drop\n|x:2:1: 'first' can't come here\nfirst drop\n^^^^^\nhelp: write 'chain NAME { RULES }', with rules such as 'in ip t s accept', and at the end 'policy accept' or 'policy drop'\n~\
    k 4 7 1 5 set;add element ip t s { 10.0.0.1 }\n|x:1:5: 'element' isn't the name of a set: a key has no words of a statement\nadd element ip t s { 10.0.0.1 }\n    ^^^^^^^\nhelp: write the set and the values alone, as: ip filter allowed 192.0.2.1 . 80\n~\
    k 7 1 1 8 statement;ip t s { 10.0.0.1 }\n|x:1:8: '{' can't come here: a key has no braces\nip t s { 10.0.0.1 }\n       ^\nhelp: write the set and the values alone, as: ip filter allowed 192.0.2.1 . 80\n~\
    k 7 10 1 8 statement;ip t s \"10.0.0.1\"\n|x:1:8: '\"10.0.0.1\"' is a string, and a value is expected\nip t s \"10.0.0.1\"\n       ^^^^^^^^^^\nhelp: write the value without quotes\n~\
    k 24 0 1 25 statement;inet f allowed 192.0.2.1\n|x:1:25: the end of the line ends the key after 1 field\ninet f allowed 192.0.2.1\n                        ^\nhelp: the set's type is ipv4_addr . inet_service\n~\
    k 14 0 1 15 statement;inet f allowed\n|x:1:15: the end of the line ends the key after 0 fields\ninet f allowed\n              ^\nhelp: the set's type is ipv4_addr . inet_service\n~\
    k 7 4 1 8 set;policy drop\n|x:1:8: this looks like a rules file: it is named after the script, and then the key file\n~\
    p 7 6 1 8 type;ip t s ip.src\n|x:1:8: 'ip.src' isn't a selector\nip t s ip.src\n       ^^^^^^\nhelp: write ip_saddr in place of 'ip.src'\n~\
    r 13 1 1 14 statement;chain a { in { ip t s } drop }\npolicy drop\n|x:1:14: '{' can't come here: a test names one set\nchain a { in { ip t s } drop }\n             ^\nhelp: write a rule for each set, as: in ip t first drop; in ip t second drop\n~\
    p 7 5 1 8 type;ip t s dport\n|x:1:8: 'dport' doesn't fit the type of this field\nip t s dport\n       ^^^^^\nhelp: write ip_saddr or ip_daddr for this field: the set's type is ipv4_addr\n~\
    p 16 1 1 17 statement;ip t s ip_saddr ;\n|x:1:17: ';' can't follow the last selector\nip t s ip_saddr ;\n                ^\nhelp: leave it out, or write it in a line of its own; the set's type is ipv4_addr\n~\
    p 16 60 1 17 statement;ip t s ip_saddr aaaaaaaaaabbbbbbbbbbccccccccccddddddddddeeeeeeeeeeffffffffff x\n|x:1:17: 'aaaaaaaaaabbbbbbbbbbccccccccccddddddddddeeeeeeeeeeffffffffff' can't follow the last selector\nip t s ip_saddr aaaaaaaaaabbbbbbbbbbccccccccccddddddddddeeeeeeeeeeffffffffff x\n                ^^^^^^^^^^^^^^^^^^^^^^^^^^^^^^^^^^^^^^^^^^^^^^^^^^^^^^^^^^^^\nhelp: leave it out, or write it in a line of its own; the set's type is ipv4_addr\n~\
    p 16 61 1 17 statement;ip t s ip_saddr aaaaaaaaaabbbbbbbbbbccccccccccddddddddddeeeeeeeeeeffffffffffg x\n|x:1:17: 'aaaaaaaaaabbbbbbbbbbccccccccccddddddddddeeeeeeeeeeffffffffff..' can't follow the last selector\nip t s ip_saddr aaaaaaaaaabbbbbbbbbbccccccccccddddddddddeeeeeeeeeeffffffffff..\n                ^^^^^^^^^^^^^^^^^^^^^^^^^^^^^^^^^^^^^^^^^^^^^^^^^^^^^^^^^^^^\nhelp: leave it out, or write it in a line of its own; the set's type is ipv4_addr\n~\
    p 0 1 1 1 character;\xd4\xc3\xb2\xa1\x02\x00|x:1:1: this is a capture of packets: the script is named first, then the plan, and then the capture\n~\
";

// link types in both orders of bytes: 105 is 802.11, and the last two are in pcapng
/// Files that are no captures that the program reads.
const CAPTURES: &[u8] = b"\
    0 cut;\x0a\x0d\x0d\x0a\x1c\x00|c: byte 0: the block that begins here isn't there as a whole: the first 0 bytes are a capture\n~\
    0 magic;\x1f\x8b\x08\x00|c: byte 0: this is a file that gzip has packed: unpack it first\n~\
    0 magic;ip t s ip_saddr\n|c: byte 0: this looks like a text: the script is named first, then the plan, and then the capture\n~\
    0 magic;|c: byte 0: the file is empty\n~\
    0 cut;\xd4\xc3\xb2\xa1\x02\0|c: byte 0: the file has fewer bytes than the 24 of a capture's header\n~\
    4 version;\xd4\xc3\xb2\xa1\x02\0\x03\0\0\0\0\0\0\0\0\0\0\0\x04\0\x01\0\0\0|c: byte 4: its version isn't 2.4\n~\
    20 link type;\xd4\xc3\xb2\xa1\x02\0\x04\0\0\0\0\0\0\0\0\0\0\0\x04\0\x69\0\0\0|c: byte 20: its link type is 105: Ethernet (1), raw IP (12, 14, 101, 228, 229) and Linux cooked capture (113, 276) are supported\n~\
    20 link type;\xa1\xb2\xc3\xd4\0\x02\0\x04\0\0\0\0\0\0\0\0\0\x04\0\0\0\0\x01\x15|c: byte 20: its link type is 277: Ethernet (1), raw IP (12, 14, 101, 228, 229) and Linux cooked capture (113, 276) are supported\n~\
    0 magic;\0\0\0\0|c: byte 0: this isn't a capture in pcap or pcapng\n~\
    8 magic;\x0a\x0d\x0d\x0a|c: byte 8: the magic of this section header isn't 0x1a2b3c4d in either byte order\n~\
    12 version;\x0a\x0d\x0d\x0a|c: byte 12: the version of this section isn't 1.0\n~\
    28 cut;\x0a\x0d\x0d\x0a|c: byte 28: the block that begins here isn't there as a whole: the first 28 bytes are a capture\n~\
    32 length;\x0a\x0d\x0d\x0a|c: byte 32: a length in this block isn't a multiple of four, doesn't fit the block, or differs from its copy\n~\
    56 interface;\x0a\x0d\x0d\x0a|c: byte 56: the interface of this packet isn't described in its section\n~\
    28 options;\x0a\x0d\x0d\x0a|c: byte 28: an option of this interface isn't whole, or is no if_tsresol down to 10^-19 or 2^-63, or no if_tsoffset\n~\
    12 link type;\x0a\x0d\x0d\x0a\x01\0\0\0\x14\0\0\0\x69\0\0\0|c: byte 12: its link type is 105: Ethernet (1), raw IP (12, 14, 101, 228, 229) and Linux cooked capture (113, 276) are supported\n~\
    12 link type;\x0a\x0d\x0d\x0a\0\0\0\x01\0\0\0\x14\x01\x15\0\0|c: byte 12: its link type is 277: Ethernet (1), raw IP (12, 14, 101, 228, 229) and Linux cooked capture (113, 276) are supported\n~\
    24 cut;\xd4\xc3\xb2\xa1|c: byte 24: the record that begins here isn't there as a whole: the first 24 bytes are a capture\n~\
";

/// A name with a line feed and an escape forges no line and moves no terminal.
const FILES: &[u8] = b"\
    not found|a\\x0ab\\x1b[2J: No such file or directory\n~\
    directory|etc: Is a directory\n~\
    too large|a.nft: a file may have 67108864 bytes (64 MiB) at most\n~\
    full|pipapo: the standard output failed: No space left on device\n~\
    other|pipapo: the standard output failed: it can't be written\n~\
    18|a.nft: the script has 18 sections, and desk runs 17 at most: the first, and one for each of 16 control threads; join some, by leaving lines 'round' out\n~\
";

/// Words of a `get` that are no key.
const KEYS: &[u8] = b"\
    7 2 1 8 value;ip t s 80|key:1:8: '80' doesn't fit field 1 (ipv4_addr): it isn't an IPv4 address\nip t s 80\n       ^^\nhelp: write four numbers from 0 to 255 with '.' between them, as 192.0.2.1\n~\
    2 2 1 3 set;s 80|key:1:3: '80' isn't the name of a set: 's' is at the place of a table\ns 80\n  ^^\nhelp: write the set's family, table and name, as: ip t s\n~\
    9 8 1 10 set;ip saddr 10.0.0.1|key:1:10: '10.0.0.1' isn't the name of a set: a key doesn't name fields of a packet\nip saddr 10.0.0.1\n         ^^^^^^^^\nhelp: write the set and the values alone, as: ip filter allowed 192.0.2.1 . 80\n~\
    6 4 1 7 set;sleep 1000|key:1:7: '1000' isn't a set of the script\nsleep 1000\n      ^^^^\nhelp: write the moment before the script, in milliseconds from the script's start, as: pipapo get --at 500 SCRIPT ..\n~\
    ;at 5|key:1:1: the words name no packet\nhelp: write [FAMILY] TABLE SET VALUE . VALUE ..; a moment in milliseconds comes before the script, as: --at 500\n~\
    ;ip t s 10.0.0.1\nip t s 10.0.0.2|key:1:1: the words have more than one line\nhelp: 'get' answers one key: write the keys into a file, one in each line, and then: pipapo run SCRIPT FILE\n~\
    16 8 1 17 statement;ip t s 10.0.0.1 10.0.0.2|key:1:17: '10.0.0.2' can't follow the last field\nip t s 10.0.0.1 10.0.0.2\n                ^^^^^^^^\nhelp: 'get' answers one key: write the keys into a file, one in each line, and then: pipapo run SCRIPT FILE\n~\
";

/// The note on words that are no key. Before the words is the bad token, or nothing if there is none.
fn told_key(alloc: Global, case: &[u8]) -> Result<Vec<u8>, Memory> {
    let (bad, words) = cut(case, b';');
    let found = if bad.is_empty() {
        None
    } else {
        Some(bad_token_of(bad))
    };
    match read_script(alloc, DECLARED) {
        Ok(script) => told_note(alloc, bad_key_note(alloc, &script.schema, words, found)),
        Err(_) => Err(Memory),
    }
}

/// Refused changes with both elements.
const REFUSALS: &[u8] = b"\
    overlap 6 1 ended|x.nft:6:3: 10.0.1.128/25 overlaps 10.0.1.0/24 (line 5)\n~\
    full 6 0 ended|~\
    full 6 1 failed|x.nft:6:3: 10.0.1.128/25 doesn't fit: the set has as many elements as it may have\nx.nft: the last transaction failed, so this shows the generation before it\n~\
    exists 6 1 ended|x.nft:6:3: 10.0.1.128/25 exists already (line 5)\n~\
    missing 6 2 ended|x.nft:6:3: 10.0.1.128/25 isn't in the set\nx.nft:6:3: 10.0.1.128/25 isn't in the set\n~\
    overlap 7 1 ended|x.nft:7:1: an element of this line overlaps an element that is there\n~\
";

#[test]
fn notes(rt: HostRuntime) {
    assert_told(&rt, rt.alloc(), SCRIPTS_AND_KEYS, 24, told_bad);
    assert_told(&rt, rt.alloc(), RULES_AND_PLANS, 18, told_bad);
    assert_told(&rt, rt.alloc(), CAPTURES, 18, told_capture);
    assert_told(&rt, rt.alloc(), FILES, 6, told_file);
    assert_told(&rt, rt.alloc(), REFUSALS, 6, told_refusals);
    assert_told(&rt, rt.alloc(), KEYS, 7, told_key);
}

/// Whether a note on so many refused changes has 20 lines, and then this.
fn are_counted(alloc: Global, words: &[u8], counted: &[u8]) -> Result<bool, Memory> {
    let mut lines = Vec::new(alloc);
    for _ in 0..20 {
        lines.extend_from_slice(
            b"x.nft:5:3: 10.0.1.0/24 doesn't fit: the set has as many elements as it may have\n",
        )?;
    }
    let expected = joined(alloc, &lines, counted)?;
    Ok(told_refusals(alloc, words)?.as_slice() == expected.as_slice())
}

#[test]
fn more_than_20_refusals_are_counted(rt: HostRuntime) -> Result<(), Fail> {
    let counts: [(&[u8], &[u8]); 3] = [
        (b"full 5 20 ended", b""),
        (b"full 5 21 ended", b"x.nft: 1 more change is refused\n"),
        (b"full 5 23 ended", b"x.nft: 3 more changes are refused\n"),
    ];
    for (words, counted) in counts {
        assert!(rt; are_counted(rt.alloc(), words, counted)?);
    }
    Ok(())
}
