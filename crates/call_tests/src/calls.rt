//! Calls of the program over files in memory, with the output and status that each must have.
ghost use Rattle.std.specs.Prelude.{◌≡◌, [], IfOk};

use packet_pool::{Gate, OpenGate};
use pip_base::{MemNotes, MemShelf, MemSink, Sink};
use std::alloc::Global;
use std::process::Abort;
use std::sync::Wait;
use std::test::Fail;
use std::thread::Threads;
use top_call::call::call;

/// A file: its name and its bytes.
pub type File<'a> = (&'a str, &'a [u8]);

/// Which calls fail, each counted from 1. At 0 nothing fails.
#[derive(Clone, Copy)]
pub struct Failing {
    /// The call of the shelf.
    pub call: u64,
    /// The write to the output, which takes 7 bytes at once.
    pub write: u64,
    /// How many bytes the output takes in all.
    pub room: usize,
}

/// Nothing fails.
pub const NOTHING: Failing = Failing {
    call: 0,
    write: 0,
    room: 10_000,
};

/// The output, the note and the status that a call must have.
#[derive(Clone, Copy)]
pub struct Wanted<'a> {
    status: u8,
    /// The output, if it matters.
    output: Option<&'a [u8]>,
    /// What a person reads, if it matters.
    notes: Option<&'a [u8]>,
}

impl<'a> Wanted<'a> {
    /// This status, whatever is written.
    pub fn status(status: u8) -> Wanted<'a> {
        Wanted {
            status,
            output: None,
            notes: None,
        }
    }

    /// This output and status, whatever a person reads.
    pub fn output(output: &'a [u8], status: u8) -> Wanted<'a> {
        Wanted {
            status,
            output: Some(output),
            notes: None,
        }
    }

    /// This output and status, and a person reads this.
    pub fn noted(notes: &'a [u8], output: &'a [u8], status: u8) -> Wanted<'a> {
        Wanted {
            status,
            output: Some(output),
            notes: Some(notes),
        }
    }
}

/// A command over a script under `a.nft` and a key file under `keys`, its output and its status.
pub struct Case {
    pub words: &'static [&'static str],
    pub script: &'static str,
    pub keys: &'static str,
    pub output: &'static str,
    pub status: u8,
}

/// Runs a script beside a key file.
pub const RUN: [&str; 3] = ["run", "a.nft", "keys"];

/// The same, if a refused change is skipped.
pub const RUN_ON: [&str; 4] = ["run", "a.nft", "keys", "--keep-going"];

pub const LIST: [&str; 2] = ["list", "a.nft"];

/// A shelf with these files, whose call of this number fails.
pub fn shelf_of(alloc: Global, files: &[File<'_>], failing: u64) -> Result<MemShelf, Fail>
    ensures { IfOk result (λ shelf. shelf.asked ≡ []) }
{
    let mut shelf = MemShelf::new(alloc);
    'files: for (name, bytes) in files {
        if !shelf.has(name) {
            shelf.add(alloc, name, bytes)?;
        }
    }
    shelf.fail_at(failing)?;
    Ok(shelf)
}

fn words_of(alloc: Global, words: &[&str]) -> Result<Vec<String>, Fail> {
    let mut all = Vec::new(alloc);
    for word in words {
        all.push(String::from_str(alloc, word)?)?;
    }
    Ok(all)
}

/// So many bytes from the front, or all of them.
pub fn front(bytes: &[u8], end: usize) -> &[u8] {
    bytes.get(..end).unwrap_or(bytes)
}

/// Calls the program, and returns the status.
pub fn run_call<R: Threads + Wait + Sync, G: Gate>(
    rt: &R,
    alloc: Global,
    words: &[&str],
    shelf: &mut MemShelf,
    sink: &mut MemSink,
    notes: &mut MemNotes,
    gate: &G,
) -> Result<u8, Fail>
    requires { shelf.old.asked ≡ [] }
{
    let words = words_of(alloc, words)?;
    Ok(call(rt, alloc, Ok(words), shelf, sink, notes, gate))
}

fn compare(rt: &impl Abort, wanted: Wanted<'_>, status: u8, output: &[u8], notes: Option<&[u8]>) {
    assert!(rt; status == wanted.status);
    if let Some(text) = wanted.output {
        assert!(rt; output == text);
    }
    if wanted.notes.is_some() {
        assert!(rt; notes == wanted.notes);
    }
}

/// Calls the program over files, some of whose calls fail, and compares output, note and status.
pub fn check_failing<R: Threads + Wait + Abort + Sync>(
    rt: &R,
    alloc: Global,
    words: &[&str],
    files: &[File<'_>],
    failing: Failing,
    wanted: Wanted<'_>,
) -> Result<(), Fail> {
    let mut shelf = shelf_of(alloc, files, failing.call)?;
    let mut sink = MemSink::new(alloc, 7, failing.room)?;
    sink.fail_at(failing.write)?;
    let mut notes = MemNotes::new(alloc);
    let status = run_call(
        rt, alloc, words, &mut shelf, &mut sink, &mut notes, &OpenGate,
    )?;
    compare(rt, wanted, status, sink.bytes(), notes.bytes());
    Ok(())
}

/// Calls the program over files, and compares the output and the status.
pub fn check<R: Threads + Wait + Abort + Sync>(
    rt: &R,
    alloc: Global,
    words: &[&str],
    files: &[File<'_>],
    output: &[u8],
    status: u8,
) -> Result<(), Fail> {
    check_failing(
        rt,
        alloc,
        words,
        files,
        NOTHING,
        Wanted::output(output, status),
    )
}

/// Calls the program for each case.
pub fn check_all<R: Threads + Wait + Abort + Sync>(
    rt: &R,
    alloc: Global,
    cases: &[Case],
) -> Result<(), Fail> {
    for case in cases {
        let files = [
            ("a.nft", case.script.as_bytes()),
            ("keys", case.keys.as_bytes()),
        ];
        check(
            rt,
            alloc,
            case.words,
            &files,
            case.output.as_bytes(),
            case.status,
        )?;
    }
    Ok(())
}
