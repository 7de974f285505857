//! Measures readers and packet threads on a workload of `bench/workloads.py`.
//!
//! `bench/speed` calls it, in one of these two ways:
//!
//! ```text
//! reader_speed readers N FILE
//! reader_speed packets N FILE
//! ```
//!
//! `readers` prints the lookups per second of 1, 2, 4 .. up to N readers, each in its own thread. It
//! measures them while the control rests, and while it commits as fast as it can. It also prints the
//! time of a commit. A reader enters once for all keys of the workload.
//!
//! `packets` prints the packets per second of a section of 1,000,000 packets, on 1, 2, 4 .. up to N
//! threads. A packet thread enters and leaves for each packet.
//!
//! Each number is the best of several runs, by the wall clock.
//!
//! **Definitions:** `specs/Ready.antt` alone, which says what a section requires. The program only
//! has to be safe. docs/performance.md says what was measured.
#![tactic(auto)]

ghost use Rattle.std.specs.Prelude.{◌<◌, ◌≤◌, IfOk};

mod course;
mod fault;
mod line;
mod lookups;
mod packets;
mod workload;

use crate::fault::Fault;
use crate::workload::Workload;
use std::alloc::Global;
use std::process::ExitCode;
use std::rt::Runtime;
use std::thread::Threads;
use std::{env, fs};

/// How many readers there may be.
const MOST: u32 = 16;

/// What is measured.
#[derive(Clone, Copy)]
enum Measure {
    Readers,
    Packets,
}

/// What a word asks to measure.
fn measure_of(word: &str) -> Result<Measure, Fault> {
    match word {
        "readers" => Ok(Measure::Readers),
        "packets" => Ok(Measure::Packets),
        _ => Err(Fault::Usage),
    }
}

/// How many threads a word asks for.
fn count_of(word: &str) -> Result<u32, Fault>
    ensures { IfOk result (λ count. (0 < count) × (count ≤ 16)) }
{
    match word.parse::<u32>() {
        Ok(count) if 0 < count && count <= MOST => Ok(count),
        _ => Err(Fault::Usage),
    }
}

/// Measures what the command's words ask for, and prints it.
fn run<R: Runtime<A = Global> + Threads + Sync>(rt: &R, alloc: Global) -> Result<(), Fault> {
    let words: Vec<String> = env::args(rt)?.skip(1).collect(alloc)?;
    obey(rt, alloc, words.as_slice())
}

fn obey<R: Runtime<A = Global> + Threads + Sync>(
    rt: &R,
    alloc: Global,
    words: &[String],
) -> Result<(), Fault> {
    let [what, count, file] = words else {
        return Err(Fault::Usage);
    };
    let (what, most) = (measure_of(what.as_str())?, count_of(count.as_str())?);
    measure_all(rt, alloc, what, most, &load(rt, alloc, file.as_str())?)
}

/// Reads a file's workload.
fn load<R: Runtime<A = Global>>(rt: &R, alloc: Global, file: &str) -> Result<Workload, Fault> {
    let text = fs::read_to_string(rt, file)?;
    Workload::read(alloc, text.as_str())
}

/// Measures a workload with 1, 2, 4 .. up to `most` threads, and prints it.
fn measure_all<R: Runtime<A = Global> + Threads + Sync>(
    rt: &R,
    alloc: Global,
    what: Measure,
    most: u32,
    workload: &Workload,
) -> Result<(), Fault>
    requires { most ≤ 16 }
{
    let mut threads = 1u32;
    while threads <= most {
        match what {
            Measure::Readers => lookups::tell(rt, alloc, workload, threads)?,
            Measure::Packets => packets::tell(rt, alloc, workload, threads)?,
        }
        threads *= 2;
    }
    Ok(())
}

fn main(rt: HostRuntime) -> ExitCode {
    match run(&rt, rt.alloc()) {
        Ok(()) => ExitCode::SUCCESS,
        Err(fault) => {
            let _ = println!(rt; "{}", fault.text());
            ExitCode::from(fault.status())
        }
    }
}
