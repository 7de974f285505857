//! The command `pipapo`: runs scripts of packet filter sets, and looks packets up in them.
//!
//! `top_call::call::call` is the program, and its contract says what a run promises
//! (`crates/top_call/specs/Promises.antt`). No contract covers `main` and `obey`. Read their fifty lines for what is
//! trusted of them (README.md, "What is trusted"):
//!
//! - before it opens a file, it fills each closed standard descriptor with a file on which every call fails;
//! - it passes on all words that the system gives except the program's name;
//! - files are the system's, and the name `-` is the standard input;
//! - output goes to the standard output, and notes for a person go to the standard error;
//! - progress is shown on the standard error if that is a terminal, and nowhere else;
//! - if the standard output failed, a note on the standard error has the system's reason, unless nobody reads the pipe any more;
//! - the status is the exit code.
#![tactic(auto)]

mod descriptors;

use crate::descriptors::fill_closed;
use fault_notes::{output_fault_note, tell_note};
use pip_base::{DirShelf, ErrNotes, FaultKind, Notes, OutSink};
use run_meter::{InPlace, Meter};
use std::alloc::Global;
use std::env;
use std::io::{IsTerminal, Stderr, Stdin};
use std::process::ExitCode;
use std::rt::Runtime;
use std::sync::Wait;
use std::thread::Threads;
use top_call::call::{call, words_behind};

/// The status of a call whose output failed.
const OUTPUT_FAILED: u8 = 6;

/// Prints why the output failed, unless nobody reads the pipe any more.
fn tell_output_fault<N: Notes>(alloc: Global, notes: &mut N, kind: FaultKind) {
    if kind != FaultKind::Closed {
        tell_note(notes, output_fault_note(alloc, kind));
    }
}

/// Does what the system's words ask for, with the system's files and streams, and returns the status.
fn obey<R: Runtime<A = Global> + Threads + Wait + Sync>(
    rt: &R,
    stdin: Stdin,
    stderr: Stderr,
    meter: &Meter<R, Stderr>,
) -> u8 {
    let words = words_behind(rt.alloc(), env::args(rt));
    let mut shelf = DirShelf::new(rt.alloc(), rt, stdin);
    let mut sink = InPlace::new(OutSink::new(rt), meter);
    let mut notes = InPlace::new(ErrNotes::new(stderr), meter);
    let status = call(
        rt,
        rt.alloc(),
        words,
        &mut shelf,
        &mut sink,
        &mut notes,
        meter,
    );
    if status == OUTPUT_FAILED {
        tell_output_fault(rt.alloc(), &mut notes, sink.inner().fault_kind());
    }
    status
}

fn main(rt: HostRuntime) -> ExitCode {
    let _stand_ins = fill_closed(&rt, rt.alloc());
    let terminal = rt.stderr().is_terminal().then_some(rt.stderr());
    let meter = Meter::new(rt.alloc(), &rt, terminal);
    let status = obey(&rt, rt.stdin(), rt.stderr(), &meter);
    meter.finish();
    ExitCode::from(status)
}
