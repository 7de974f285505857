//! Lookups per second of readers, and the time of a commit beside them.
ghost use Rattle.std.specs.Prelude.{◌≡◌, ◌<◌, ◌≤◌, All, Some};
ghost use Rattle.set_model.specs.Runnable.{IsFitting};
ghost use Rattle.gen_publish.specs.Publish.{ReaderView};
ghost use Rattle.reader_speed.specs.Ready.{Serve};

use crate::course::Course;
use crate::fault::Fault;
use crate::line::Line;
use crate::workload::Workload;
use gen_publish::{Control, Reader};
use set_model::{NewElement, Packets};
use std::alloc::Global;
use std::rt::Runtime;
use std::thread::{Threads, join, map_vec};
use std::time::{Clock, Instant};

/// How long a run is, in nanoseconds.
const RUN: u128 = 100_000_000;

const RUNS: u32 = 9;

/// The commits of a run are far fewer than this.
const NUMBERS: u64 = 1 << 62;

/// The best of several runs.
#[derive(Clone, Copy)]
struct Best {
    /// The lookups per second while the control rests.
    rests: u128,
    /// The lookups per second while it commits.
    commits: u128,
    /// The nanoseconds of a commit.
    commit: u128,
}

/// Prints how many lookups per second `threads` readers make, while the control rests and while it
/// commits.
pub(crate) fn tell<R: Runtime<A = Global> + Threads + Sync>(
    rt: &R,
    alloc: Global,
    workload: &Workload,
    threads: u32,
) -> Result<(), Fault>
    requires { (0 < threads) × (threads ≤ 16) }
{
    let best = best_of_runs(rt, alloc, workload, threads)?;
    let readers = Line {
        who: "readers",
        threads,
    };
    readers.print(rt, "lookups", best.rests, "a second")?;
    readers.print(rt, "lookups", best.commits, "a second beside commits")?;
    readers.print(rt, "commit", best.commit, "ns")
}

fn best_of_runs<R: Clock + Threads + Sync>(
    rt: &R,
    alloc: Global,
    workload: &Workload,
    threads: u32,
) -> Result<Best, Fault>
    requires { (0 < threads) × (threads ≤ 16) }
{
    let Some(element) = workload.elements.last() else {
        return Err(Fault::Workload);
    };
    let mut best = Best {
        rests: 0,
        commits: 0,
        commit: u128::MAX,
    };
    for _ in 0..RUNS {
        best.rests = best.rests.max(alone(rt, alloc, workload, threads)?);
        let (lookups, time) = beside(rt, alloc, workload, threads, element)?;
        best.commits = best.commits.max(lookups);
        best.commit = best.commit.min(time);
    }
    Ok(best)
}

/// The lookups per second of all readers while their control rests.
fn alone<R: Clock + Threads + Sync>(
    rt: &R,
    alloc: Global,
    workload: &Workload,
    threads: u32,
) -> Result<u128, Fault>
    requires { (0 < threads) × (threads ≤ 16) }
{
    let Course {
        readers,
        packets,
        ..
    } = Course::new(rt, alloc, workload, threads, workload.keys.len())?;
    look_up_all(rt, readers, &packets)
}

/// The lookups per second of all readers while a control commits, and the nanoseconds of a commit.
fn beside<R: Clock + Threads + Sync>(
    rt: &R,
    alloc: Global,
    workload: &Workload,
    threads: u32,
    element: &NewElement,
) -> Result<(u128, u128), Fault>
    requires { (0 < threads) × (threads ≤ 16) }
{
    let Course {
        mut control,
        readers,
        packets,
    } = Course::new(rt, alloc, workload, threads, workload.keys.len())?;
    let packets = &packets;
    let (time, lookups) = join(
        rt,
        move || commit_on(rt, &mut control, element),
        move || -> Result<u128, Fault>
            requires { Serve readers.items packets.now }
        { look_up_all(rt, readers, packets) },
    );
    both(lookups, time)
}

/// Two results, or the first fault of them.
fn both(one: Result<u128, Fault>, two: Result<u128, Fault>) -> Result<(u128, u128), Fault> {
    Ok((one?, two?))
}

/// Removes an element and adds it again, with a commit after each, until the run ends. Returns the
/// nanoseconds of a commit.
fn commit_on(
    clock: &impl Clock,
    control: &mut Control,
    element: &NewElement,
) -> Result<u128, Fault> {
    let begun = Instant::now(clock)?;
    for commits in 1..u64::MAX {
        if !control.fits(0, &element.parts) || control.number() >= NUMBERS {
            return Err(Fault::Workload);
        }
        if commits % 2 == 1 {
            let _ = control.delete(0, &element.parts, 0);
        } else {
            let _ = control.insert(0, element, 0);
        }
        control.commit(0)?;
        let time = begun.elapsed(clock)?.as_nanos();
        if time >= RUN {
            return Ok(time / commits as u128);
        }
    }
    Err(Fault::System)
}

/// The lookups per second of all readers, each in its own thread.
fn look_up_all<R: Clock + Threads + Sync>(
    rt: &R,
    readers: Vec<Option<Reader>>,
    packets: &Packets,
) -> Result<u128, Fault>
    requires { Serve readers.items packets.now }
{
    let run = |slot: Option<Reader>| -> Result<u128, Fault>
        requires { (d : ReaderView) → slot ≡ Some d → All (IsFitting d.schema) packets.now }
    {
        match slot {
            Some(reader) => look_up(rt, reader, packets),
            None => Ok(0),
        }
    };
    let mut sum = 0u128;
    for one in map_vec(rt, readers, &run)? {
        sum = sum.saturating_add(one?);
    }
    Ok(sum)
}

/// The lookups per second of a reader, which looks up all keys in one enter, until the run ends.
fn look_up(clock: &impl Clock, reader: Reader, packets: &Packets) -> Result<u128, Fault>
    requires { All (IsFitting reader.schema) packets.now }
{
    let mut reader = reader;
    let begun = Instant::now(clock)?;
    for passes in 1..u64::MAX {
        reader = pass(reader, packets);
        let time = begun.elapsed(clock)?.as_nanos();
        if time >= RUN {
            let lookups = u128::from(passes).saturating_mul(u128::from(packets.len()));
            return Ok(lookups.saturating_mul(1_000_000_000) / time);
        }
    }
    Err(Fault::System)
}

/// Looks up all keys in one enter.
fn pass(reader: Reader, packets: &Packets) -> Reader
    requires { All (IsFitting reader.schema) packets.now }
    ensures { result.schema ≡ reader.schema }
{
    let mut held = reader.enter();
    for packet in packets.as_slice() {
        let _ = held.lookup(packet.set, &packet.key, packet.now);
    }
    held.leave()
}
