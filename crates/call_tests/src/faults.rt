//! Words that are no command, and files and outputs that fail.
use crate::calls::{Failing, File, NOTHING, RUN, Wanted, check, check_failing, front};
use command_words::{Page, Verb};
use std::alloc::Global;
use std::process::Abort;
use std::sync::Wait;
use std::test::Fail;
use std::thread::Threads;

const SCRIPT: &[u8] =
    b"table ip filter {\n\tset s {\n\t\ttype ipv4_addr . inet_service\n\t\tflags interval\n\t\telements = { 10.0.0.5 . 1024, 192.168.1.0-192.168.2.1 . 2048 }\n\t}\n}\n";

const KEYS: &[u8] = b"ip filter s 192.168.1.5 . 2048\n";

const COMMIT: &[u8] = b"commit generation 1 purged 0\n";

const TRANSCRIPT: &[u8] =
    b"commit generation 1 purged 0\npacket 0 thread 0 generation 1 element 1\n";

const USAGE: &[u8] =
    b"pipapo: usage: run SCRIPT KEYS [--threads N] [--keep-going] [--sets] [--elements] | list SCRIPT [--keep-going] [--sets] [--json] | dump SCRIPT [--keep-going] [--sets] | drill SEED COUNT [--threads N] | judge SCRIPT RULES KEYS [--threads N] [--keep-going] [--sets] | judge SCRIPT RULES PLAN PCAP [--threads N] [--keep-going] [--sets] | capture SCRIPT PLAN PCAP [--threads N] [--keep-going] [--sets] [--elements] | desk SCRIPT [--keep-going] [--sets] | get [--at MOMENT] [--keep-going] [--sets] SCRIPT [FAMILY] TABLE SET VALUE . VALUE .. | explain SCRIPT KEYS [--keep-going] [--sets] | compare SCRIPT1 SCRIPT2 [--keep-going] [--sets] | stat SCRIPT [--keep-going] [--sets] | sets RULESET\n";

#[test]
fn words_that_are_no_command(rt: HostRuntime) -> Result<(), Fail> {
    let commands: [&[&str]; 6] = [
        &[],
        &["run", "a"],
        &["run", "a", "b", "--threads", "17"],
        &["run", "-", "-"],
        &["list", "a", "--help"],
        &["--version", "run"],
    ];
    for words in commands {
        check(&rt, rt.alloc(), words, &[], USAGE, 2)?;
    }
    Ok(())
}

#[test]
fn pages(rt: HostRuntime) -> Result<(), Fail> {
    let pages: [(&[&str], Page); 3] = [
        (&["--help"], Page::Program),
        (&["help", "drill"], Page::Command(Verb::Drill)),
        (&["run", "--help"], Page::Command(Verb::Run)),
    ];
    for (words, page) in pages {
        check(&rt, rt.alloc(), words, &[], page.text().as_bytes(), 0)?;
    }
    check(&rt, rt.alloc(), &["--version"], &[], b"pipapo 0.2.0\n", 0)
}

#[test]
fn files_that_are_missing(rt: HostRuntime) -> Result<(), Fail> {
    let commands: [(&[&str], &[File<'_>], &[u8]); 6] = [
        (&["run", "a", "-"], &[], b"pipapo: read fault: a\n"),
        (&["run", "-", "b"], &[], b"pipapo: read fault: -\n"),
        (
            &["list", "--keep-going", "c"],
            &[],
            b"pipapo: read fault: c\n",
        ),
        (
            &["dump", "d", "--keep-going"],
            &[],
            b"pipapo: read fault: d\n",
        ),
        (&RUN, &[("keys", b"")], b"pipapo: read fault: a.nft\n"),
        (&RUN, &[("a.nft", SCRIPT)], b"pipapo: read fault: keys\n"),
    ];
    for (words, files, line) in commands {
        check(&rt, rt.alloc(), words, files, line, 5)?;
    }
    Ok(())
}

#[test]
fn a_script_under_the_name_of_the_standard_input(rt: HostRuntime) -> Result<(), Fail> {
    let files: [File<'_>; 2] = [("-", SCRIPT), ("keys", KEYS)];
    check(
        &rt,
        rt.alloc(),
        &["run", "-", "keys"],
        &files,
        TRANSCRIPT,
        0,
    )
}

/// Runs a script beside a key file, while one call fails.
fn check_run<R: Threads + Wait + Abort + Sync>(
    rt: &R,
    alloc: Global,
    failing: Failing,
    output: &[u8],
    status: u8,
) -> Result<(), Fail> {
    let files: [File<'_>; 2] = [("a.nft", SCRIPT), ("keys", KEYS)];
    check_failing(
        rt,
        alloc,
        &RUN,
        &files,
        failing,
        Wanted::output(output, status),
    )
}

// Each file is opened and then read twice, the second time to its end.
#[test]
fn each_call_of_the_shelf_may_fail(rt: HostRuntime) -> Result<(), Fail> {
    for call in 1..=6u64 {
        let line: &[u8] = if call <= 3 {
            b"pipapo: read fault: a.nft\n"
        } else {
            b"pipapo: read fault: keys\n"
        };
        let failing = Failing { call, ..NOTHING };
        check_run(&rt, rt.alloc(), failing, line, 5)?;
    }
    check_run(
        &rt,
        rt.alloc(),
        Failing { call: 7, ..NOTHING },
        TRANSCRIPT,
        0,
    )
}

// The transcript has 70 bytes, which are ten writes.
#[test]
fn each_write_of_the_output_may_fail(rt: HostRuntime) -> Result<(), Fail> {
    for before in 0..10u64 {
        let failing = Failing {
            write: before + 1,
            ..NOTHING
        };
        let taken = front(TRANSCRIPT, 7 * before as usize);
        check_run(&rt, rt.alloc(), failing, taken, 6)?;
    }
    let failing = Failing {
        write: 11,
        ..NOTHING
    };
    check_run(&rt, rt.alloc(), failing, TRANSCRIPT, 0)
}

#[test]
fn an_output_without_room(rt: HostRuntime) -> Result<(), Fail> {
    let calls: [(&[&str], &[File<'_>], usize, &[u8]); 4] = [
        (
            &RUN,
            &[("a.nft", SCRIPT), ("keys", KEYS)],
            10,
            b"commit gen",
        ),
        (&["run"], &[], 10, b"pipapo: us"),
        (&RUN, &[], 24, b"pipapo: read fault: a.nf"),
        (&["--version"], &[], 6, b"pipapo"),
    ];
    for (words, files, room, output) in calls {
        let failing = Failing { room, ..NOTHING };
        check_failing(
            &rt,
            rt.alloc(),
            words,
            files,
            failing,
            Wanted::output(output, 6),
        )?;
    }
    Ok(())
}

// A script without text is whole, and so is one without its last line feed. Each other front ends too early.
#[test]
fn a_script_may_be_cut_anywhere(rt: HostRuntime) -> Result<(), Fail> {
    let len = SCRIPT.len();
    for end in 0..=len {
        let wanted = if end == 0 {
            Wanted::output(b"", 0)
        } else if len - end <= 1 {
            Wanted::output(COMMIT, 0)
        } else {
            Wanted::status(3)
        };
        let files: [File<'_>; 2] = [("a.nft", front(SCRIPT, end)), ("keys", b"")];
        check_failing(&rt, rt.alloc(), &RUN, &files, NOTHING, wanted)?;
    }
    Ok(())
}

/// Lists a script.
fn check_list<R: Threads + Wait + Abort + Sync>(
    rt: &R,
    alloc: Global,
    script: &[u8],
    output: &[u8],
    status: u8,
) -> Result<(), Fail> {
    check(
        rt,
        alloc,
        &["list", "a.nft"],
        &[("a.nft", script)],
        output,
        status,
    )
}

#[test]
fn the_greatest_size_of_a_file(rt: HostRuntime) -> Result<(), Fail> {
    let mut line_feeds = vec![in rt.alloc(); 10u8; 67_108_865]?;
    check_list(
        &rt,
        rt.alloc(),
        line_feeds.as_slice(),
        b"pipapo: too large: a.nft\n",
        8,
    )?;
    let _ = line_feeds.pop();
    check_list(&rt, rt.alloc(), line_feeds.as_slice(), b"", 0)
}
